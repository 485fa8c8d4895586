//! Drivers that answer by their books, and the rack that holds them.
#![tactic(auto)]

mod driver;
mod drivers;
mod errors;
mod kinds;
mod names;
mod rack;
mod rules;

pub use driver::Driver;
pub use drivers::Drivers;
pub use errors::{NameError, TeachError};
pub use kinds::{Scripted, Steady, Stubborn};
pub use rack::Rack;
