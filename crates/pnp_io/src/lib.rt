//! Files that are read by name and a sink that is written to, in memory and of the system, with counts of
//! their faults; and the reading of whole files and writing of whole texts.
#![tactic(auto)]

mod host;
mod memory;
mod outside;
mod short;
mod sure;
mod whole;

pub use host::{HostFiles, HostSink};
pub use memory::{MemFiles, MemSink, WantOfMemory};
pub use outside::{Failed, Files, Sink};
pub use sure::{SureFiles, SureSink};
pub use whole::{ReadError, read_all, write_all};
