//! The trace of a run, drawn row by row beside a sequence diagram: one arrow for each ask, one end for each completion; and what went wrong in it.
#![tactic(auto)]

mod arrow;
mod front;
mod lanes;
mod line;
mod pends;
mod question;
mod rows;
mod style;
mod wrong;

pub use front::{Stepping, begin, begin_plain};
pub use rows::Rows;
