//! The best driver of a device: of all matches between its identifiers and the models lines of INF files, the first in
//! the order of ranks, dates and versions.
#![tactic(auto)]

mod candidate;
mod choice;
mod given;
pub mod laws;
mod ranking;

pub use candidate::Candidate;
pub use choice::Choice;
pub use ranking::{best, best_line};
