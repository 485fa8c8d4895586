//! The world of devices that a script plugs and pulls, and what a listing finds: who joins the tree and who is gone.
#![tactic(auto)]

mod change;
mod device;
mod error;
mod listing;
mod world;

pub use change::Difference;
pub use device::Device;
pub use error::{PlugError, PullError};
pub use listing::{difference, next_join};
pub use world::World;
