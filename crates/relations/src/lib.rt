//! Which devices lose their drivers with which others, and in which order devices leave.
#![tactic(auto)]

mod edges;
mod error;
mod graph;
mod queue;
mod relation;
mod relations;
mod search;
mod serial_set;
mod unrelated;

pub use edges::Edge;
pub use error::RelateError;
pub use relations::Relations;
pub use serial_set::SerialSet;
