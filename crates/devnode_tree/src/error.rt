/// Why a node did not join. An earlier variant is tested first.
#[derive(Clone, Copy, Debug, PartialEq, Eq)]
pub enum JoinError {
    /// No node has the serial of the parent.
    NoParent,
    /// A node has the same path, up to ASCII case.
    SamePath,
    WantOfMemory,
}
