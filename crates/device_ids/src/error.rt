use thiserror::Error;

/// Why bytes are no identifier. An earlier variant is tested first.
#[derive(Clone, Copy, Debug, PartialEq, Eq, Error)]
pub enum IdError {
    #[error("no byte")]
    Empty,
    #[error("more than 199 bytes")]
    TooLong,
    #[error("byte {at} is not one of an identifier")]
    BadByte { at: u64 },
    #[error("out of memory")]
    WantOfMemory,
}

/// Why bytes are no path. An earlier variant is tested first.
#[derive(Clone, Copy, Debug, PartialEq, Eq, Error)]
pub enum PathError {
    #[error("not three parts between two backslashes")]
    Parts,
    #[error("a side of the last backslash is no legal identifier")]
    BadId,
    #[error("out of memory")]
    WantOfMemory,
}
