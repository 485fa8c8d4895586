//! What notes know, and what it says of drivers and of resources.
#![tactic(auto)]

mod copies;
mod drivers;
mod facts;
mod least;
mod lines;
mod matches;
mod search;
mod sources;
mod texts;
mod ties;
mod unread;
mod ways;

pub use copies::copied_infs;
pub use device_ids::WantOfMemory;
pub use drivers::{on_install, on_no_driver, on_not_loaded, tell_names};
pub use facts::{AskedDriver, Change, Facts, FailedAdd, Holding, InTheWay, Joined, Relation};
pub use least::tell_least;
pub use lines::Lines;
pub use search::{fits, put_all};
pub use sources::Sources;
pub use texts::{node_at, node_of};
pub use ways::{tell_range, tell_ways};
