//! How operations are named.
use pnp_labels::OpKind;

/// An operation as its lines name it.
pub fn op_word(op: OpKind) -> &'static [u8] {
    match op {
        OpKind::Rebalance => b"rebalance",
        OpKind::Disable => b"disable",
        OpKind::Eject => b"eject",
        OpKind::Surprise => b"surprise",
        OpKind::Finish => b"finish",
        OpKind::Change => b"change",
    }
}
