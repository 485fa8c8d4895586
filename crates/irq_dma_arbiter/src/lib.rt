//! Who holds which interrupts, DMA channels or bus numbers, and the least free one.
#![tactic(auto)]

mod arbiter;

pub use arbiter::NumberArbiter;
pub use range_arbiter::{Kind, Owner, Res, Want, WantOfMemory};
