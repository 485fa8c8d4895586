//! The outside of a live run: what is said to another process, and the lines that it answers, in turns.
#![tactic(auto)]

mod file_peer;
mod peer;

pub use file_peer::FilePeer;
pub use peer::{Heard, Peer, PeerError};
