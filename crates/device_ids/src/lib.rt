//! Device identifiers, instance paths, and texts with the parts between bytes.
#![tactic(auto)]

mod cuts;
mod error;
mod id;
mod path;
mod text;

pub use cuts::{cut, split_once};
pub use error::{IdError, PathError};
pub use id::{DeviceId, IdList, is_legal};
pub use path::InstancePath;
pub use text::{Text, TextList, WantOfMemory};
