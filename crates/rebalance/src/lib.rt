//! The rebalance: devices stop, so that one more can have its resources. The change: they stop, so that one of them can
//! have what it requires now.
#![tactic(auto)]

mod above;
mod asked;
mod begin;
mod frame;
mod next;
mod queues;
mod requests;
mod searching;
mod settling;

pub use frame::Rebalance;
pub use next::RebalanceStep;
