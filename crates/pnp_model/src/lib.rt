//! The device machine: what it is made of, which step is next, and what a run prints. There is no code here.
#![tactic(auto)]

pub mod laws;
