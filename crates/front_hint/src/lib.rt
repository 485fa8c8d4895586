//! What is allowed at the line where a trace of a script with clients stops being a run, whatever its drivers answered.
#![tactic(auto)]

mod allowed;
mod letters;
mod rest;
mod spot;
mod start;
mod walk;

pub use allowed::look_at_front;
