/// Why a window was not set. An earlier variant is tested first.
#[derive(Clone, Copy, Debug, PartialEq, Eq)]
pub enum WindowError {
    /// The device has a window of the kind.
    SameWindow,
    WantOfMemory,
}
