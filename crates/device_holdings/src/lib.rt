//! What devices hold, in the tree and in the arbiters at once.
#![tactic(auto)]

mod finding;
mod holding;
mod pairs;
mod rows;

pub use finding::{is_in_use, search, search_for};
pub use holding::{assign, assign_all, release, reserve};
pub use rows::map_rows;
