//! The removal of devices in order, with veto: disable and eject.
#![tactic(auto)]

mod begin;
mod frame;
mod next;
mod query;
mod settling;

pub use frame::Removal;
