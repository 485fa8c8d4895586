//! The fields of a descriptor.
ghost use Rattle.std.specs.Prelude.{◌≡◌, ◌+◌, ◌≤◌, length};
ghost use Rattle.std.specs.Int.{w32, w64};
ghost use Rattle.req_bytes.specs.Bytes.{number_at, or_one, is_alternative, is_shared, want_in, ranged, numbered, bus_numbers, sort_of};
ghost use Rattle.req_bytes.specs.Readings.{WantIs};

use resource_reqs::{Kind, Want};

/// The little-endian number of the four bytes at a place.
pub fn u32_at(bytes: &[u8], at: usize) -> u32
    requires { at + 4 ≤ length bytes.now }
    ensures { result ≡ number_at w32 at bytes.now }
{
    u32::from_le_bytes([bytes[at], bytes[at + 1], bytes[at + 2], bytes[at + 3]])
}

/// The little-endian number of the eight bytes at a place.
fn u64_at(bytes: &[u8], at: usize) -> u64
    requires { at + 8 ≤ length bytes.now }
    ensures { result ≡ number_at w64 at bytes.now }
{
    u64::from_le_bytes([
        bytes[at],
        bytes[at + 1],
        bytes[at + 2],
        bytes[at + 3],
        bytes[at + 4],
        bytes[at + 5],
        bytes[at + 6],
        bytes[at + 7],
    ])
}

/// What the type of a descriptor stands for.
#[derive(Clone, Copy, PartialEq, Eq)]
pub enum Sort {
    /// Nothing: the descriptor is passed over.
    Passed,
    /// A kind of this project.
    Known(Kind),
    /// What no kind of this project stands for.
    Unknown,
}

/// What a type stands for (the driver kit, `CmResourceType..`).
pub fn sort_of(type_byte: u8) -> Sort
    ensures { result ≡ sort_of type_byte }
{
    match type_byte {
        1 => Sort::Known(Kind::Port),
        2 => Sort::Known(Kind::Irq),
        3 => Sort::Known(Kind::Mem),
        4 => Sort::Known(Kind::Dma),
        6 => Sort::Known(Kind::Bus),
        0 | 128..=255 => Sort::Passed,
        _ => Sort::Unknown,
    }
}

/// Whether a descriptor is an alternative to the one before (the driver kit, `IO_RESOURCE_ALTERNATIVE`).
pub fn is_alternative(item: &[u8]) -> bool
    requires { length item.now ≡ 32 }
    ensures { result ≡ is_alternative item.now }
{
    item[0] & 8 != 0
}

/// Whether a descriptor is shared (the driver kit, `CmResourceShareShared`).
fn is_shared(item: &[u8]) -> bool
    requires { length item.now ≡ 32 }
    ensures { result ≡ is_shared item.now }
{
    item[2] == 3
}

/// 0 counts as 1.
fn or_one(number: u32) -> u32
    ensures { result ≡ or_one number }
{
    if number == 0 { 1 } else { number }
}

/// The want of a descriptor of ports or memory, or none where its numbers make none.
fn ranged(kind: Kind, item: &[u8]) -> Option<Want>
    requires { length item.now ≡ 32 }
    ensures { WantIs result (ranged kind item.now) }
{
    let len = u32_at(item, 8) as u64;
    let align = or_one(u32_at(item, 12)) as u64;
    Want::make(
        kind,
        u64_at(item, 16),
        u64_at(item, 24),
        len,
        align,
        is_shared(item),
    )
    .ok()
}

/// The want of a descriptor of interrupts or channels, or none where its numbers make none.
fn numbered(kind: Kind, item: &[u8]) -> Option<Want>
    requires { length item.now ≡ 32 }
    ensures { WantIs result (numbered kind item.now) }
{
    let (min, max) = (u32_at(item, 8) as u64, u32_at(item, 12) as u64);
    Want::make(kind, min, max, 1, 1, is_shared(item)).ok()
}

/// The want of a descriptor of bus numbers, or none where its numbers make none.
fn bus_numbers(item: &[u8]) -> Option<Want>
    requires { length item.now ≡ 32 }
    ensures { WantIs result (bus_numbers item.now) }
{
    let len = u32_at(item, 8) as u64;
    let (min, max) = (u32_at(item, 12) as u64, u32_at(item, 16) as u64);
    Want::make(Kind::Bus, min, max, len, 1, is_shared(item)).ok()
}

/// The want of a descriptor of this kind, or none where its numbers make none.
pub fn want_in(kind: Kind, item: &[u8]) -> Option<Want>
    requires { length item.now ≡ 32 }
    ensures { WantIs result (want_in kind item.now) }
{
    match kind {
        Kind::Port | Kind::Mem => ranged(kind, item),
        Kind::Irq | Kind::Dma => numbered(kind, item),
        Kind::Bus => bus_numbers(item),
    }
}
