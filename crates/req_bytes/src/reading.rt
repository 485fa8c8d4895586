//! Requirements from their bytes.
ghost use Rattle.std.specs.Prelude.{◌≡◌, ◌≢◌, ◌≤◌, ◌<◌, ◌*◌, ◌+◌, ◌^◌, ◌++◌, ◌∷◌, [], IsTrue, OnOk, IsOkUnless, length, true, Some};
ghost use Rattle.std.specs.Option.{is_some};
ghost use Rattle.req_bytes.specs.Bytes.{lists_in, shape, closed, reqs_by, reqs_in};
ghost use Rattle.req_bytes.specs.Readings.{Gave, Gives};

use crate::descriptor::u32_at;
use crate::error::BytesError;
use crate::groups::read_items;
use resource_reqs::{AltList, ReqError, Reqs};
use std::alloc::Global;

/// Whether so many lists are within the bytes.
fn are_within(count: u32, bytes: &[u8]) -> bool
    ensures { result ≡ is_some (lists_in count bytes.now) }
{
    let mut rest = bytes;
    for _ in 0..count {
        if rest.len() < 8 {
            return false;
        }
        let size = 8 + 32 * u32_at(rest, 4) as usize;
        if rest.len() < size {
            return false;
        }
        let (_, after) = rest.split_at(size);
        rest = after;
    }
    true
}

/// Whether the sizes are as they are said, and all lists within the bytes.
fn has_shape(bytes: &[u8]) -> bool
    ensures { result ≡ is_some (shape bytes.now) }
{
    if bytes.len() < 32 || u32_at(bytes, 0) as usize != bytes.len() {
        return false;
    }
    let (_, lists) = bytes.split_at(32);
    are_within(u32_at(bytes, 28), lists)
}

/// Appends a list that is not empty to requirements that have room: memory alone can be wanting.
fn push_list(reqs: &mut Reqs, list: AltList) -> Result<(), BytesError>
    requires room { length reqs.old < 8 }
    requires some { list ≢ [] }
    ensures pushed { OnOk result (reqs.new ≡ reqs.old ++ list ∷ []) }
    ensures memory { IsOkUnless result BytesError.WantOfMemory }
{
    match reqs.push(list) {
        Ok(()) => Ok(()),
        Err(ReqError::WantOfMemory) => Err(BytesError::WantOfMemory),
        Err(ReqError::Full | ReqError::EmptyPart) => unreachable!(),
    }
}

/// A list ends.
fn add_list(list: u32, reqs: &mut Reqs, groups: AltList) -> Result<(), BytesError>
    ensures { Gave result (closed list reqs.old groups) reqs.new }
{
    if groups.len() == 0 {
        return Err(BytesError::EmptyList { list });
    }
    if reqs.len() == 8 {
        return Err(BytesError::Full { list });
    }
    push_list(reqs, groups)
}

/// The requirements that so many lists say, all of which are within the bytes.
fn read_lists(alloc: Global, count: u32, bytes: &[u8]) -> Result<Reqs, BytesError>
    requires { is_some (lists_in count bytes.now) ≡ true }
    ensures { Gives result (reqs_by (lists_in count bytes.now)) }
{
    let mut reqs = Reqs::new(alloc);
    let mut rest = bytes;
    for list in 0..count {
        let items = u32_at(rest, 4);
        let (_, descriptors) = rest.split_at(8);
        let groups = match read_items(alloc, list, items, descriptors) {
            Ok(groups) => groups,
            Err(error) => return Err(error),
        };
        match add_list(list, &mut reqs, groups) {
            Ok(()) => {}
            Err(error) => return Err(error),
        }
        let (_, after) = rest.split_at(8 + 32 * items as usize);
        rest = after;
    }
    Ok(reqs)
}

/// The requirements that bytes say (the driver kit, `IO_RESOURCE_REQUIREMENTS_LIST`), or the first refusal. Want of memory may
/// come in its place. Cost: the number of bytes.
pub fn decode(alloc: Global, bytes: &[u8]) -> Result<Reqs, BytesError>
    ensures { Gives result (reqs_in bytes.now) }
{
    if !has_shape(bytes) {
        return Err(BytesError::Size);
    }
    let (_, lists) = bytes.split_at(32);
    read_lists(alloc, u32_at(bytes, 28), lists)
}
