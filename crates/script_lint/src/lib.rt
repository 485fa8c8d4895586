//! What is wrong with each line of a script: the cause, and the word that it is true of.
#![tactic(auto)]

mod line;
mod script;

pub use line::fault_of;
pub use script::{BadLine, faults_of};
pub use script_reader::{Cause, LineFault};
