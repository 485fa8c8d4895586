//! A live run, as a library: the words of the command line, the files that they name, and what is written.
#![tactic(auto)]

mod fault;
mod files;
mod kinds;
mod machine;
mod program;
mod refusal;
mod script;
mod status;
mod words;

pub use program::drive_words;
pub use status::Status;
