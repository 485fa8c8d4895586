//! A run of the machine in which some drivers are live: their answers come from another process, which is asked a line at a time.
#![tactic(auto)]

mod answers;
mod asks;
mod driving;
mod live;
mod machine;
mod notes;
mod poll;
mod probe;
mod step;
mod stop;
mod talk;
mod trail;

pub use asks::{LiveAsk, ask_words};
pub use driving::{drive, greet};
pub use live::LiveDrivers;
pub use machine::Machine;
pub use stop::{DriveError, Ended};
