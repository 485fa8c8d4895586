//! What holds of each live run, whatever its drivers answer. There is no code here.
#![tactic(auto)]

pub mod laws;
