//! What the runs of many scripts come to: how many broke an expectation, how many came to which ending, and the least number of each.
#![tactic(auto)]

mod laws;
mod pattern;
mod plain;
mod tally;
mod words;

pub use device_ids::WantOfMemory;
pub use laws::{one_tally, order_does_not_matter};
pub use pattern::Pattern;
pub use plain::plain_ending;
pub use tally::{Ending, Mark, Tally};
