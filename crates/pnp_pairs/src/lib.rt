//! Laws over two runs of the device machine. There is no code here.
#![tactic(auto)]

pub mod laws;
