// Writing lists as text, and which lists have a text.
#![tactic(auto)]

mod line_text;
mod list_text;
mod order;
mod pen;
mod refusal;
mod saying;
mod writer;

pub use refusal::Unwritten;
pub use writer::write;
