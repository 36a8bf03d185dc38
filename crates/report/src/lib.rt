// What the program answers of a whole input.
#![tactic(auto)]

mod refusal;
mod tidying;

pub use refusal::Refusal;
pub use tidying::{LONGEST, tidy};
