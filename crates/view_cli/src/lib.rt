//! A page that shows the run of a script: its trace beside a sequence diagram.
#![tactic(auto)]

mod drawing;
mod program;
mod refusal;
mod sketch;
mod viewed;

pub use pnp_cli::Status;
pub use program::view;
