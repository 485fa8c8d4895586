//! One request on its way through a device's stack of drivers.
#![tactic(auto)]

mod ask;
mod rules;
mod walk;

pub use ask::{ask_driver, driver_name};
pub use rules::{shown_of, state_after};
pub use walk::{NoSuchRequest, Passed, Walk, WalkStep};
