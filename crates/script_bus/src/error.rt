/// Why a device was not plugged. An earlier variant is tested first.
#[derive(Clone, Copy, Debug, PartialEq, Eq)]
pub enum PlugError {
    /// No device has the path of the parent.
    NoParent,
    /// A device has the same path, up to ASCII case.
    SameId,
    /// There are 4,096 devices besides the root.
    WorldFull,
    WantOfMemory,
}

/// Why no device was pulled. An earlier variant is tested first.
#[derive(Clone, Copy, Debug, PartialEq, Eq)]
pub enum PullError {
    /// No device has the path.
    NoDevice,
    /// The path is the root's.
    RootStays,
}
