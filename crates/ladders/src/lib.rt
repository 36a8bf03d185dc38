// Ladders: a few posts, and which of them is at least which.
#![tactic(auto)]

mod house;
mod ladder;
mod ladder_rows;
mod members;
mod rank;
mod table;

pub use house::House;
pub use ladder::{Ladder, MOST_POSTS};
pub use ladder_rows::LadderRows;
pub use members::has;
pub use rank::Rank;
pub use table::rows;

#[cfg(test)]
mod tests;
