//! The surprise removal: devices that are gone are told so, and leave; and its end, for devices that stayed behind.
#![tactic(auto)]

mod begin;
mod behind;
mod finish;
mod finishing;
mod frame;
mod next;
mod readiness;
mod settling;

pub use finish::Finish;
pub use frame::Surprise;
pub use readiness::{is_ready, ready};
