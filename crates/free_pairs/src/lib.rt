//! Laws over two runs of the device machine whose drivers give the same answers. There is no code here.
#![tactic(auto)]

pub mod laws;
