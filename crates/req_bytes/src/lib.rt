//! Requirement lists as the bytes in which the driver kit keeps them (`IO_RESOURCE_REQUIREMENTS_LIST`): read with the first refusal
//! and its place, and written.
//!
//! All numbers are little-endian. The bytes are a header and then as many lists as it says.
//!
//! | Part | Bytes | Fields in order |
//! |---|---|---|
//! | header | 32 | u32 ListSize, u32 InterfaceType, u32 BusNumber, u32 SlotNumber, three reserved u32, u32 AlternativeLists |
//! | list | 8, then its descriptors | u16 Version, u16 Revision, u32 Count |
//! | descriptor | 32 | u8 Option, u8 Type, u8 ShareDisposition, a spare byte, u16 Flags, two spare bytes, 24 bytes by the type |
//!
//! | Type | The 24 bytes begin with | Fixed |
//! |---|---|---|
//! | 1 ports, 3 memory | u32 Length, u32 Alignment, u64 Minimum, u64 Maximum | |
//! | 2 interrupts, 4 DMA channels | u32 Minimum, u32 Maximum | length 1, alignment 1 |
//! | 6 bus numbers | u32 Length, u32 Minimum, u32 Maximum | alignment 1 |
//!
//! - ListSize is the number of the bytes. Bytes after the last list, and all fields that are not named below, are not looked at.
//! - ShareDisposition 3 is shared, any other is not. Alignment 0 counts as 1.
//! - A descriptor of type 0 or from 128 on is passed over. Types 5 and 7 to 127 are refused: no kind of this project stands for them.
//! - The bit 8 of Option makes a descriptor a further want of the group before it; without it a group begins.
#![tactic(auto)]

mod descriptor;
mod error;
mod groups;
mod reading;
mod writing;
pub mod laws;

pub use error::{BytesError, EncodeError};
pub use reading::decode;
pub use writing::encode;
