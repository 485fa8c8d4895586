//! What stands before the machine whatever the drivers answer: a run of it, one step or event at a time.
#![tactic(auto)]

mod driver;
mod front;
pub mod laws;
mod racks;
mod told;

pub use front::FreeFront;
