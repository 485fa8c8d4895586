//! Whether a printed output is a run of the machine for a script, whatever its drivers answered.
#![tactic(auto)]

mod asks;
mod check;
mod due;
mod front;
mod letters;
mod lines;
mod step;
mod turn;

pub use check::{Checked, check_trace};
pub use letters::answer_of;
