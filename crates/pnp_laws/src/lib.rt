//! The laws of the device machine: what holds of every run.
#![tactic(auto)]

pub mod laws;
