//! The groups of a list that is being read.
ghost use Rattle.std.specs.Prelude.{Ok, ◌≡◌, ◌≢◌, ◌≤◌, ◌<◌, ◌*◌, ◌+◌, ◌++◌, ◌∷◌, [], List, length, true, false, OnOk, IfOk, IsOkUnless};
ghost use Rattle.std.specs.List.{AllByRecursion};
ghost use Rattle.resource_reqs.specs.Resources.{Group, Want};
ghost use Rattle.req_bytes.specs.Bytes.{put, taken, by_sort, placed, is_alternative, want_in, items_in, pieces};
ghost use Rattle.req_bytes.specs.Readings.{opened, IsOpen, Gave, Gives, WantIs};

use crate::descriptor::{Sort, is_alternative, sort_of, want_in};
use crate::error::BytesError;
use resource_reqs::{AltList, Group, ReqError, Want};
use std::alloc::Global;
use std::mem;

/// The most wants of a group.
const WANTS: u32 = 16;

/// The most groups before the last one.
const WHOLE_GROUPS: u32 = 15;

/// The groups to which nothing is added, and the last one, which is empty only before the first.
#[derive(Drop)]
struct OpenGroups {
    whole: AltList,
    last: Group,
}

/// Appends a want to a group that has room: memory alone can be wanting.
fn push_want(group: &mut Group, want: Want) -> Result<(), BytesError>
    requires room { length group.old < 16 }
    ensures pushed { OnOk result (group.new ≡ group.old ++ want ∷ []) }
    ensures memory { IsOkUnless result BytesError.WantOfMemory }
{
    match group.push(want) {
        Ok(()) => Ok(()),
        Err(ReqError::WantOfMemory) => Err(BytesError::WantOfMemory),
        Err(ReqError::Full | ReqError::EmptyPart) => unreachable!(),
    }
}

/// Appends a group that is not empty to a list that has room: memory alone can be wanting.
fn push_group(groups: &mut AltList, group: Group) -> Result<(), BytesError>
    requires room { length groups.old < 16 }
    requires some { group ≢ [] }
    ensures pushed { OnOk result (groups.new ≡ groups.old ++ group ∷ []) }
    ensures memory { IsOkUnless result BytesError.WantOfMemory }
{
    match groups.push(group) {
        Ok(()) => Ok(()),
        Err(ReqError::WantOfMemory) => Err(BytesError::WantOfMemory),
        Err(ReqError::Full | ReqError::EmptyPart) => unreachable!(),
    }
}

/// A further want of the last group.
#[tactic(auto, using(crate::proofs::Put::put_full, crate::proofs::Put::put_more))]
fn add_alternative(list: u32, last: &mut Group, want: Want) -> Result<(), BytesError>
    requires some { last.old ≢ [] }
    ensures gave { (whole : List Group) → Gave result (put list (opened whole last.old) true want) (opened whole last.new) }
    ensures some { OnOk result (last.new ≢ []) }
{
    if last.len() == WANTS {
        return Err(BytesError::Full { list });
    }
    push_want(last, want)
}

/// A group begins with a want.
fn begin_group(
    alloc: Global,
    list: u32,
    groups: &mut OpenGroups,
    want: Want,
) -> Result<(), BytesError>
    requires is_open { IsOpen groups.old.whole groups.old.last }
    ensures gave { Gave result (put list (opened groups.old.whole groups.old.last) false want) (opened groups.new.whole groups.new.last) }
    ensures is_open { OnOk result (IsOpen groups.new.whole groups.new.last) }
{
    if groups.last.len() == 0 {
        return push_want(&mut groups.last, want);
    }
    if groups.whole.len() == WHOLE_GROUPS {
        return Err(BytesError::Full { list });
    }
    let last = mem::replace(&mut groups.last, Group::new(alloc));
    push_group(&mut groups.whole, last)?;
    push_want(&mut groups.last, want)
}

/// Puts the want of a descriptor, or none, where it belongs.
#[tactic(auto, using(crate::proofs::Put::placed_tested, crate::proofs::Put::placed_first))]
fn place(
    alloc: Global,
    list: u32,
    item: u32,
    groups: &mut OpenGroups,
    alternative: bool,
    want: Option<Want>,
) -> Result<(), BytesError>
    requires is_open { IsOpen groups.old.whole groups.old.last }
    ensures gave { (read : Want) → WantIs want read → Gave result (placed list item (opened groups.old.whole groups.old.last) alternative read) (opened groups.new.whole groups.new.last) }
    ensures is_open { OnOk result (IsOpen groups.new.whole groups.new.last) }
{
    if alternative && groups.last.len() == 0 {
        return Err(BytesError::AltFirst { list, item });
    }
    match want {
        None => Err(BytesError::BadWant { list, item }),
        Some(want) => {
            if alternative {
                add_alternative(list, &mut groups.last, want)
            } else {
                begin_group(alloc, list, groups, want)
            }
        }
    }
}

/// What a descriptor adds to the groups.
fn take_item(
    alloc: Global,
    list: u32,
    item: u32,
    groups: &mut OpenGroups,
    piece: &[u8],
) -> Result<(), BytesError>
    requires is_open { IsOpen groups.old.whole groups.old.last }
    requires piece { length piece.now ≡ 32 }
    ensures gave { Gave result (taken list item (opened groups.old.whole groups.old.last) piece.now) (opened groups.new.whole groups.new.last) }
    ensures is_open { OnOk result (IsOpen groups.new.whole groups.new.last) }
{
    match sort_of(piece[1]) {
        Sort::Passed => Ok(()),
        Sort::Unknown => Err(BytesError::BadType { list, item }),
        Sort::Known(kind) => {
            let want = want_in(kind, piece);
            place(alloc, list, item, groups, is_alternative(piece), want)
        }
    }
}

/// The groups, all of them whole.
fn close(groups: OpenGroups) -> Result<AltList, BytesError>
    requires is_open { IsOpen groups.whole groups.last }
    ensures { Gives result (Ok (opened groups.whole groups.last)) }
{
    let OpenGroups { mut whole, last } = groups;
    if last.len() != 0 {
        push_group(&mut whole, last)?;
    }
    Ok(whole)
}

/// The groups that the descriptors of a list say, the first `count` pieces of the bytes.
pub fn read_items(alloc: Global, list: u32, count: u32, bytes: &[u8]) -> Result<AltList, BytesError>
    requires { 32 * count ≤ length bytes.now }
    ensures { Gives result (items_in list 0 [] (pieces count bytes.now)) }
{
    let mut groups = OpenGroups {
        whole: AltList::new(alloc),
        last: Group::new(alloc),
    };
    let mut rest = bytes;
    for item in 0..count {
        let (piece, after) = rest.split_at(32);
        match take_item(alloc, list, item, &mut groups, piece) {
            Ok(()) => rest = after,
            Err(error) => return Err(error),
        }
    }
    close(groups)
}
