//! Requirements written as bytes.
use req_bytes::{EncodeError, decode, encode};
use resource_reqs::{AltList, Group, Kind, Reqs, Want};
use rows_told::{must, same};
use std::alloc::Global;
use std::test::Fail;

/// A list of one interrupt, 5.
const INTERRUPT: &[u8] = b"\x48\x00\x00\x00\x00\x00\x00\x00\x00\x00\x00\x00\x00\x00\x00\x00\
    \x00\x00\x00\x00\x00\x00\x00\x00\x00\x00\x00\x00\x01\x00\x00\x00\
    \x01\x00\x01\x00\x01\x00\x00\x00\
    \x00\x02\x01\x00\x00\x00\x00\x00\x05\x00\x00\x00\x05\x00\x00\x00\
    \x00\x00\x00\x00\x00\x00\x00\x00\x00\x00\x00\x00\x00\x00\x00\x00";

/// Two lists: eight of the ports 0xc000 to 0xffff at a multiple of eight, or the shared interrupt 10, and the channel 3; then a bus.
const TWO_LISTS: &[u8] = b"\xb0\x00\x00\x00\x00\x00\x00\x00\x00\x00\x00\x00\x00\x00\x00\x00\
    \x00\x00\x00\x00\x00\x00\x00\x00\x00\x00\x00\x00\x02\x00\x00\x00\
    \x01\x00\x01\x00\x03\x00\x00\x00\
    \x00\x01\x01\x00\x00\x00\x00\x00\x08\x00\x00\x00\x08\x00\x00\x00\
    \x00\xc0\x00\x00\x00\x00\x00\x00\xff\xff\x00\x00\x00\x00\x00\x00\
    \x08\x02\x03\x00\x00\x00\x00\x00\x0a\x00\x00\x00\x0a\x00\x00\x00\
    \x00\x00\x00\x00\x00\x00\x00\x00\x00\x00\x00\x00\x00\x00\x00\x00\
    \x00\x04\x01\x00\x00\x00\x00\x00\x03\x00\x00\x00\x03\x00\x00\x00\
    \x00\x00\x00\x00\x00\x00\x00\x00\x00\x00\x00\x00\x00\x00\x00\x00\
    \x01\x00\x01\x00\x01\x00\x00\x00\
    \x00\x06\x01\x00\x00\x00\x00\x00\x04\x00\x00\x00\x00\x00\x00\x00\
    \xff\x00\x00\x00\x00\x00\x00\x00\x00\x00\x00\x00\x00\x00\x00\x00";

/// A list with a group of each of these wants.
fn one_list(alloc: Global, wants: &[Want]) -> Result<Reqs, Fail> {
    let mut list = AltList::new(alloc);
    for want in wants {
        let mut group = Group::new(alloc);
        group.push(*want)?;
        list.push(group)?;
    }
    let mut reqs = Reqs::new(alloc);
    reqs.push(list)?;
    Ok(reqs)
}

#[test]
fn an_interrupt_is_written(rt: HostRuntime) -> Result<(), Fail> {
    let want = Want::make(Kind::Irq, 5, 5, 1, 1, false)?;
    let reqs = one_list(rt.alloc(), &[want])?;
    same(&encode(rt.alloc(), &reqs)?, INTERRUPT)
}

/// What is read is written as it was.
#[test]
fn two_lists_are_written(rt: HostRuntime) -> Result<(), Fail> {
    let reqs = decode(rt.alloc(), TWO_LISTS)?;
    same(&encode(rt.alloc(), &reqs)?, TWO_LISTS)
}

/// The second of two groups needs more memory than a descriptor can say.
#[test]
fn a_want_is_too_wide(rt: HostRuntime) -> Result<(), Fail> {
    let narrow = Want::make(Kind::Mem, 0, 0xffff_ffff, 0xffff_ffff, 1, false)?;
    let wide = Want::make(Kind::Mem, 0, 0xffff_ffff, 0x1_0000_0000, 1, false)?;
    let reqs = one_list(rt.alloc(), &[narrow, wide])?;
    match encode(rt.alloc(), &reqs) {
        Err(EncodeError::TooWide { list, group, want }) => must(
            list == 0 && group == 1 && want == 0,
            "which want is too wide",
        ),
        _ => Err(Fail::new("a want that is too wide")),
    }
}
