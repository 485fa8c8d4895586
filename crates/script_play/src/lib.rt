//! A run of a script with its states, one label at a time.
#![tactic(auto)]

mod play;
mod said;

pub use play::{Happened, Play};
pub use said::Said;
