//! The lint as a library: the words of the command line, the script and the INFs that they name, and what is written of their faults and of what the INFs lack.
#![tactic(auto)]

mod causes;
mod drivers;
mod infs;
mod installs;
mod lints;
mod mend;
mod names;
mod notes;
mod over;
mod report;
mod shown;
mod status;
mod warnings;
mod words;

pub use lints::lint;
pub use report::fault_words;
pub use status::Status;
