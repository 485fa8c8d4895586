//! The start of one device: its drivers are chosen and add it, resources are found for it, and its drivers are asked to start it.
#![tactic(auto)]

mod begin;
mod next;
mod pending;
mod searching;
mod work;

pub use next::StartStep;
pub use work::StartWork;
