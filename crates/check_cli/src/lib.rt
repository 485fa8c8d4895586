//! The check of a trace for people, as a library: the words of the command line, the files that they name, and what is written: the
//! verdict, and where the trace is no run, what stands there and what is allowed in its place.
#![tactic(auto)]

mod checks;
mod error;
mod files;
mod kinds;
mod lines;
mod looks;
mod report;
mod status;
mod words;

pub use checks::check;
pub use status::Status;
