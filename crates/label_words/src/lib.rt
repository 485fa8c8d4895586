//! What the lines of a trace say, in words for people.
#![tactic(auto)]

mod tables;
mod words;

pub use tables::problem_words;
pub use words::{is_wrong, label_words};
