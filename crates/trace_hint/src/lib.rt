//! What is allowed at the line where a trace stops being a run of the machine, whatever its drivers answered.
#![tactic(auto)]

mod allowed;
mod infs;
mod letters;
mod rest;
mod spot;
mod start;
mod walk;

pub use allowed::{Seen, allowed_at, look_at};
pub use infs::read_infs;
