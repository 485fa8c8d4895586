//! The windows of bridges: what the devices above a device pass on, and what it may require below them.
#![tactic(auto)]

mod bridges;
mod clipping;
mod error;
mod rooms;
mod window;

pub use bridges::Bridges;
pub use clipping::clip;
pub use error::WindowError;
