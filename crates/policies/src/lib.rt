// Policies: each permits some of its requests and denies the rest.
#![tactic(auto)]

mod chart;
mod contrary;
mod policy;
mod rule_list;

pub use chart::Chart;
pub use contrary::Contrary;
pub use policy::Policy;
pub use rule_list::RuleList;

#[cfg(test)]
mod tests;
