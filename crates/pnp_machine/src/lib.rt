//! The machine whole: what an event does to it, and which step is next.
#![tactic(auto)]

mod begin_operation;
mod bus;
mod changes;
mod commands;
mod devices;
mod devices_operations;
mod disabled;
mod due;
mod ending;
mod events;
mod handles;
mod listing;
mod machine;
mod manager;
mod needs;
mod operation;
mod query;
mod starts;
mod step_operation;
mod step_start;
mod task_start;
mod tasks;
mod turn;

pub use ending::EndParts;
pub use manager::{Manager, Moved};
pub use needs::needs_are_few;
pub use query::Query;
