//! Promises of the device machine, in a reader's words: what holds of every run.
#![tactic(auto)]

pub mod laws;
