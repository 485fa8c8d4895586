//! Notes for people on the labels of a run: why a driver was chosen or none, what is in the way, who refused.
#![tactic(auto)]

mod budgets;
mod clients;
mod holdings;
mod notes;
mod operations;
mod problems;
mod refusals;
mod refused;
mod relations;
mod skips;

pub use device_ids::WantOfMemory;
pub use notes::notes_on;
pub use refused::{RefusedLine, on_refused};
