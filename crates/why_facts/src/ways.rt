//! Notes on what holds the places that a device needs.
ghost use Rattle.std.specs.Prelude.{◌≡◌, ◌≢◌, ◌≤◌, ◌<◌, ◌%◌, ℕ, IfSome};

use crate::lines::Lines;
use crate::texts::want_text;
use device_ids::WantOfMemory;
use devnode_tree::{Node, Tree};
use pnp_labels::res_text;
use resource_reqs::{AltList, Reqs, Res, ResList, Want, clash};
use std::alloc::Global;

/// The most holders of a want that are told.
const MOST_HOLDERS: u64 = 8;

/// All that a want may come from, as one resource.
pub fn range_of(want: &Want) -> Option<Res> {
    Res::make(want.kind, want.min, want.max, want.shared)
}

/// Those who hold some of a range, as far as they are told, and how many there are.
#[derive(Drop)]
struct Holders {
    text: Vec<u8>,
    count: u64,
}

impl Holders {
    fn add(&mut self, alloc: Global, who: &[u8], res: &Res) -> Result<(), WantOfMemory> {
        if self.count < MOST_HOLDERS {
            if self.count > 0 {
                self.text.extend_from_slice(b", ")?;
            }
            self.text.extend_from_slice(who)?;
            self.text.extend_from_slice(b" holds ")?;
            self.text.extend_from_slice(&res_text(alloc, res)?)?;
        }
        self.count = self.count.saturating_add(1);
        Ok(())
    }

    fn add_clashing(
        &mut self,
        alloc: Global,
        who: &[u8],
        range: &Res,
        held: &ResList,
    ) -> Result<(), WantOfMemory> {
        for at in 0..held.len() {
            let res = held.get(at);
            if clash(range, res) {
                self.add(alloc, who, res)?;
            }
        }
        Ok(())
    }
}

/// Who holds some of a range, but for one device.
fn holders_of(
    alloc: Global,
    reserved: &ResList,
    tree: &Tree,
    serial: u64,
    range: &Res,
) -> Result<Holders, WantOfMemory> {
    let mut holders = Holders {
        text: Vec::new(alloc),
        count: 0,
    };
    holders.add_clashing(alloc, b"`reserve`", range, reserved)?;
    for at in 0..tree.len() {
        if let Some(node) = tree.get(at) {
            if node.serial != serial {
                holders.add_clashing(alloc, node.path.bytes(), range, &node.holds)?;
            }
        }
    }
    Ok(holders)
}

/// The least number that a want may begin at, if it is below 2^64.
#[tactic(auto, using(crate::proofs::Aligning::unaligned_before, crate::proofs::Aligning::aligned_there))]
fn first_of(want: &Want) -> Option<u64>
    ensures found { IfSome result (λ first. (want.now.min ≤ first) × (first % want.now.align ≡ 0)) }
    ensures least { IfSome result (λ first. (t : ℕ) → want.now.min ≤ t → t < first → t % want.now.align ≢ 0) }
{
    if want.align == 0 {
        return None;
    }
    let past = want.min % want.align;
    if past == 0 {
        return Some(want.min);
    }
    want.min.checked_add(want.align - past)
}

/// Whether a want has a place at all.
fn has_place(want: &Want) -> bool {
    let Some(first) = first_of(want) else {
        return false;
    };
    match first.checked_add(want.len.saturating_sub(1)) {
        Some(last) => last <= want.max,
        None => false,
    }
}

/// Tells of those who hold some of a range.
fn tell_holders(alloc: Global, holders: &Holders, lines: &mut Lines) -> Result<(), WantOfMemory> {
    lines.add_two(b": ", &holders.text)?;
    if holders.count == 0 {
        lines.add(b"nobody holds any of it")?;
    }
    if holders.count > MOST_HOLDERS {
        lines.add(b", and ")?;
        lines.add_number(alloc, holders.count.saturating_sub(MOST_HOLDERS))?;
        lines.add(b" more")?;
    }
    lines.say(alloc, b".")
}

/// Tells who holds some of a range that is to be reserved, 8 at most. Cost: what all devices hold. This project's own.
pub fn tell_range(
    alloc: Global,
    reserved: &ResList,
    tree: &Tree,
    range: &Res,
    lines: &mut Lines,
) -> Result<(), WantOfMemory> {
    lines.add(&res_text(alloc, range)?)?;
    let holders = holders_of(alloc, reserved, tree, u64::MAX, range)?;
    tell_holders(alloc, &holders, lines)
}

/// Tells who holds some of what a want may come from.
fn tell_want(
    alloc: Global,
    reserved: &ResList,
    tree: &Tree,
    serial: u64,
    want: &Want,
    lines: &mut Lines,
) -> Result<(), WantOfMemory> {
    if !has_place(want) {
        return lines.say(
            alloc,
            b"has no place: none in its range begins at a multiple as asked, or none of it lies inside the windows above.",
        );
    }
    lines.add(&want_text(alloc, want)?)?;
    let Some(range) = range_of(want) else {
        return lines.end(alloc);
    };
    let holders = holders_of(alloc, reserved, tree, serial, &range)?;
    tell_holders(alloc, &holders, lines)
}

/// Tells who holds some of what a list may come from, group by group.
fn tell_list(
    alloc: Global,
    reserved: &ResList,
    tree: &Tree,
    serial: u64,
    number: u64,
    list: &AltList,
    lines: &mut Lines,
) -> Result<(), WantOfMemory> {
    for place in 0..list.len() {
        let group = list.get(place);
        for at in 0..group.len() {
            lines.add(b"List ")?;
            lines.add_number(alloc, number)?;
            lines.add(b", resource ")?;
            lines.add_number(alloc, place as u64 + 1)?;
            lines.add(b", ")?;
            tell_want(alloc, reserved, tree, serial, group.get(at), lines)?;
        }
    }
    Ok(())
}

/// At `nofit`: for each list, group and want of what a device needs, who holds some of its places, 8 at most. Cost: for each want what all
/// devices hold. This project's own.
pub fn tell_ways(
    alloc: Global,
    reserved: &ResList,
    tree: &Tree,
    node: &Node,
    reqs: &Reqs,
    lines: &mut Lines,
) -> Result<(), WantOfMemory> {
    for at in 0..reqs.len() {
        let number = at as u64 + 1;
        tell_list(
            alloc,
            reserved,
            tree,
            node.serial,
            number,
            reqs.get(at),
            lines,
        )?;
    }
    Ok(())
}
