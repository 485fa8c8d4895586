//! Whether a printed output of a script with clients is a run of what stands before the machine, whatever its drivers answered.
#![tactic(auto)]

mod asks;
mod check;
mod clients;
mod due;
mod front;
pub mod laws;
mod lines;
mod step;
mod turn;

pub use check::check_front_trace;
pub use clients::has_clients;
