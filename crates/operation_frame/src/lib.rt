//! What operations share: the devices that are still to do, one step of a request and its end, and how a device loses its
//! drivers, leaves or remains.
#![tactic(auto)]

mod leaving;
mod queue;
mod walking;

pub use leaving::{Finish, Settled, finish_of, has_drivers, leave, remain};
pub use queue::SerialQueue;
pub use walking::{Asked, Walked, end_request, end_walk, pass_on};
