//! Promises of what stands before the machine, in a reader's words: what holds of clients in every run.
#![tactic(auto)]

pub mod laws;
