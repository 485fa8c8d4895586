use thiserror::Error;

/// Why bytes are no requirements. `Size` is tested first; then comes what the descriptors and the ends of the lists give first, in
/// their order. Lists and descriptors (`item`) are counted from 0, and those that are passed over count.
#[derive(Clone, Copy, Debug, PartialEq, Eq, Error)]
pub enum BytesError {
    /// There are fewer than 32 bytes, ListSize is not their number, or the lists pass their end.
    #[error("the sizes do not agree")]
    Size,
    /// No kind of this project stands for the type of the descriptor.
    #[error("list {list}, descriptor {item}: a type without a kind")]
    BadType { list: u32, item: u32 },
    /// An alternative, where the list has no group yet.
    #[error("list {list}, descriptor {item}: an alternative to nothing")]
    AltFirst { list: u32, item: u32 },
    /// The numbers of the descriptor make no want.
    #[error("list {list}, descriptor {item}: numbers that make no want")]
    BadWant { list: u32, item: u32 },
    /// A 17th want of a group, a 17th group of a list, or a 9th list.
    #[error("list {list}: more parts than there may be")]
    Full { list: u32 },
    /// The list has no group.
    #[error("list {list}: no group")]
    EmptyList { list: u32 },
    #[error("out of memory")]
    WantOfMemory,
}

/// Why requirements have no bytes. An earlier variant is tested first.
#[derive(Clone, Copy, Debug, PartialEq, Eq, Error)]
pub enum EncodeError {
    /// The first want that no descriptor can say: a number of it is above 2^32 - 1 where its field has 32 bits, or its length or
    /// alignment is another one than its type fixes. Lists, groups and wants are counted from 0.
    #[error("list {list}, group {group}, want {want}: no descriptor can say it")]
    TooWide { list: u32, group: u32, want: u32 },
    #[error("out of memory")]
    WantOfMemory,
}
