//! Promises of the device machine's operations, from their begin to their end.
#![tactic(auto)]

pub mod laws;
