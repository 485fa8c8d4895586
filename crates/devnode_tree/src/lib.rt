//! The tree of device nodes: who stands below whom, and what each node is at.
#![tactic(auto)]

mod births;
mod bottoms;
mod entries;
mod entry;
mod error;
mod handle_walk;
mod handles;
mod node;
mod print;
mod tree;

pub use error::JoinError;
pub use handle_walk::HandleWalk;
pub use handles::{HandleRow, Handles};
pub use node::Node;
pub use print::PrintRow;
pub use tree::Tree;
