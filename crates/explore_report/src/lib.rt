//! What the scripts of a family come to, as it is asked for by words and as it is written: counted, compared, in parts that are put
//! together. What runs a script is given.
#![tactic(auto)]

mod error;
mod expected;
mod fronts;
mod laws;
mod mark;
mod merging;
mod part_file;
mod parts;
mod report;
mod runs;
mod told;
mod words;

pub use error::ReportError;
pub use expected::{Expected, Seen};
pub use laws::parts_tell_the_whole;
pub use parts::{Exploration, Part, Share, Task, Words};
pub use runs::{Progress, Runs};
pub use told::{Found, Report, explore_family, tell_count, tell_script};
pub use words::words_of;
