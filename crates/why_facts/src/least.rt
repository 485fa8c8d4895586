//! The least set of holders without which a device would get what it needs.
use crate::lines::Lines;
use crate::search::{fits, put_all};
use crate::ways::range_of;
use device_ids::WantOfMemory;
use devnode_tree::{Node, Tree};
use resource_reqs::{AltList, Group, Owner, Reqs, ResList, Want, clash};
use std::alloc::Global;
use trial_journal::Arbiters;

/// The most holders among which a least set is looked for.
const MOST: usize = 64;

/// A device that holds some of the places, and whether it is thought away.
#[derive(Clone, Copy)]
struct Holder {
    serial: u64,
    away: bool,
}

/// Whether some of what is held lies where a want may come from.
fn is_in_want(want: &Want, held: &ResList) -> bool {
    let Some(range) = range_of(want) else {
        return false;
    };
    for at in 0..held.len() {
        if clash(&range, held.get(at)) {
            return true;
        }
    }
    false
}

fn is_in_group(group: &Group, held: &ResList) -> bool {
    for at in 0..group.len() {
        if is_in_want(group.get(at), held) {
            return true;
        }
    }
    false
}

fn is_in_list(list: &AltList, held: &ResList) -> bool {
    for at in 0..list.len() {
        if is_in_group(list.get(at), held) {
            return true;
        }
    }
    false
}

/// Whether some of what is held lies where something that is needed may come from.
fn is_in_way(reqs: &Reqs, held: &ResList) -> bool {
    for at in 0..reqs.len() {
        if is_in_list(reqs.get(at), held) {
            return true;
        }
    }
    false
}

/// The devices but for one that hold some of the places, all thought away.
fn holders(
    alloc: Global,
    tree: &Tree,
    serial: u64,
    reqs: &Reqs,
) -> Result<Vec<Holder>, WantOfMemory> {
    let mut found = Vec::new(alloc);
    for at in 0..tree.len() {
        if let Some(node) = tree.get(at) {
            if node.serial != serial && is_in_way(reqs, &node.holds) {
                found.push(Holder {
                    serial: node.serial,
                    away: true,
                })?;
            }
        }
    }
    Ok(found)
}

/// Puts what those hold that are not thought away.
fn put_others(tree: &Tree, holders: &[Holder], board: &mut Arbiters) -> Result<(), WantOfMemory> {
    for holder in holders {
        if !holder.away {
            if let Some(node) = tree.node(holder.serial) {
                put_all(board, Owner::Device(holder.serial), &node.holds)?;
            }
        }
    }
    Ok(())
}

/// The same as `fits_beside`, on arbiters that hold nothing.
fn fits_on(
    alloc: Global,
    reserved: &ResList,
    budget: u64,
    tree: &Tree,
    serial: u64,
    reqs: &Reqs,
    holders: &[Holder],
    board: &mut Arbiters,
) -> Result<Option<bool>, WantOfMemory> {
    put_all(board, Owner::Reserved, reserved)?;
    put_others(tree, holders, board)?;
    fits(alloc, board, serial, reqs, budget)
}

/// Whether the device would get what it needs beside what is reserved and those that are not thought away.
fn fits_beside(
    alloc: Global,
    reserved: &ResList,
    budget: u64,
    tree: &Tree,
    serial: u64,
    reqs: &Reqs,
    holders: &[Holder],
) -> Result<Option<bool>, WantOfMemory> {
    let mut board = Arbiters::new(alloc)?;
    fits_on(
        alloc, reserved, budget, tree, serial, reqs, holders, &mut board,
    )
}

fn set_away(holders: &mut Vec<Holder>, at: usize, away: bool) {
    if let Some(holder) = holders.get_mut(at) {
        holder.away = away;
    }
}

/// Lets stay each holder beside which it fits still, one after another.
fn lessen(
    alloc: Global,
    reserved: &ResList,
    budget: u64,
    tree: &Tree,
    serial: u64,
    reqs: &Reqs,
    holders: &mut Vec<Holder>,
) -> Result<(), WantOfMemory> {
    for at in 0..holders.len() {
        set_away(holders, at, false);
        if fits_beside(alloc, reserved, budget, tree, serial, reqs, holders)? != Some(true) {
            set_away(holders, at, true);
        }
    }
    Ok(())
}

/// The paths of those that are thought away.
fn away_text(alloc: Global, tree: &Tree, holders: &[Holder]) -> Result<Vec<u8>, WantOfMemory> {
    let mut text = Vec::new(alloc);
    for holder in holders {
        if holder.away {
            if let Some(node) = tree.node(holder.serial) {
                if !text.is_empty() {
                    text.extend_from_slice(b", ")?;
                }
                text.extend_from_slice(node.path.bytes())?;
            }
        }
    }
    Ok(text)
}

/// Those that are thought away, without which it would fit.
fn tell_away(
    alloc: Global,
    tree: &Tree,
    holders: &[Holder],
    lines: &mut Lines,
) -> Result<(), WantOfMemory> {
    let away = away_text(alloc, tree, holders)?;
    if away.is_empty() {
        return lines.say(
            alloc,
            b"But for the windows above it it would fit beside what is held now.",
        );
    }
    lines.say_three(
        alloc,
        b"It would fit beside all the others if these held nothing, and not if one of them stayed: ",
        &away,
        b".",
    )
}

/// Without which of the holders it would fit, where it would without all of them.
fn tell_fewest(
    alloc: Global,
    reserved: &ResList,
    budget: u64,
    tree: &Tree,
    serial: u64,
    reqs: &Reqs,
    holders: &mut Vec<Holder>,
    lines: &mut Lines,
) -> Result<(), WantOfMemory> {
    if holders.len() > MOST {
        return lines.say(alloc, b"More than 64 devices hold some of these places.");
    }
    lessen(alloc, reserved, budget, tree, serial, reqs, holders)?;
    tell_away(alloc, tree, holders, lines)
}

/// Without which of the holders it would fit, if it would without all of them.
fn tell_holders(
    alloc: Global,
    reserved: &ResList,
    budget: u64,
    tree: &Tree,
    serial: u64,
    reqs: &Reqs,
    holders: &mut Vec<Holder>,
    lines: &mut Lines,
) -> Result<(), WantOfMemory> {
    match fits_beside(alloc, reserved, budget, tree, serial, reqs, holders)? {
        Some(true) => tell_fewest(alloc, reserved, budget, tree, serial, reqs, holders, lines),
        Some(false) => lines.say(
            alloc,
            b"It would not fit even if no other device held anything: what it needs is reserved, or clashes with itself, or has no place inside the windows above it.",
        ),
        None => Ok(()),
    }
}

/// At `nofit` and at `problem P 12`: without which holders it would fit, of 64 at most. Cost: a search for each of them. This project's own.
pub fn tell_least(
    alloc: Global,
    reserved: &ResList,
    budget: u64,
    tree: &Tree,
    node: &Node,
    reqs: &Reqs,
    lines: &mut Lines,
) -> Result<(), WantOfMemory> {
    let mut holders = holders(alloc, tree, node.serial, reqs)?;
    tell_holders(
        alloc,
        reserved,
        budget,
        tree,
        node.serial,
        reqs,
        &mut holders,
        lines,
    )
}
