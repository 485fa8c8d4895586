//! The explorer as a library: the words of the command line, the family and the INFs that they name, and what is written of the runs of
//! all scripts.
#![tactic(auto)]

mod files;
mod player;
mod program;
mod status;

pub use explore_report::{Progress, Words, words_of};
pub use program::{explore, explore_words};
pub use status::Status;
