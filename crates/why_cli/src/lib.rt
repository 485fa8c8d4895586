//! The output of a script with notes between its lines, which say why.
#![tactic(auto)]

mod bad_line;
mod explained;
mod program;
mod refusal;
mod script_lines;
mod telling;
mod weave;

pub use pnp_cli::Status;
pub use program::why;
