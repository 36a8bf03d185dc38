// Requests, and the rules that apply to them.
#![tactic(auto)]

mod letter;
mod request;
mod rule;

pub use letter::{Letter, Model};
pub use request::{MOST_CONDITIONS, MOST_REQUESTS, Request};
pub use rule::{Effect, Rule};

#[cfg(test)]
mod tests;
