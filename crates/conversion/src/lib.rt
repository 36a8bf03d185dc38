// A policy becomes a list of a model, or is shown to have none.
#![tactic(auto)]

mod around;
mod beyond;
mod chart;
mod comparing;
mod converting;
mod flags;
mod floors;
mod listing;
mod order;
mod refusal;
mod side;

pub use converting::convert;
pub use refusal::Unconverted;
