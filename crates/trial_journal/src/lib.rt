//! The arbiters together, one for each kind: what is held of every kind; and trials on them.
#![tactic(auto)]

mod arbiters;
mod entry;
mod journal;
mod trial;

pub use arbiters::Arbiters;
pub use entry::Entry;
pub use journal::Journal;
pub use trial::{Trial, Tried};
