//! What a trace of the device machine may be, whatever its drivers answered. There is no code here.
#![tactic(auto)]

pub mod laws;
