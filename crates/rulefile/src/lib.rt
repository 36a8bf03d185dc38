// Rule files: the grammar of a rule list as text, and the reader that answers a list or the first fault.
#![tactic(auto)]

mod draft;
mod faults;
mod grammar;
mod head;
mod items;
mod reading;
mod rule_line;

pub use faults::{FileFault, ItemFault, LineFault};
pub use grammar::{Grammar, Item, Listing, Name};
pub use reading::read;
