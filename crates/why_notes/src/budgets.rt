//! How many places a search would have to try that was given up.
use device_ids::{Text, WantOfMemory};
use devnode_tree::{Node, Tree};
use resource_reqs::{Owner, ResList};
use std::alloc::Global;
use trial_journal::Arbiters;
use why_facts::{Facts, Lines, fits, node_of, put_all};

/// The most places that a search may be allowed.
const MOST: u64 = 1_000_000;

/// How many doublings, and then how many halvings, reach the last number.
const TURNS: u32 = 20;

/// A number of places after which a search is over, and whether it found some.
#[derive(Clone, Copy)]
struct Enough {
    places: u64,
    fits: bool,
}

/// Puts what is reserved, and what all but one device hold.
fn put_others(
    reserved: &ResList,
    tree: &Tree,
    serial: u64,
    board: &mut Arbiters,
) -> Result<(), WantOfMemory> {
    put_all(board, Owner::Reserved, reserved)?;
    for at in 0..tree.len() {
        if let Some(node) = tree.get(at) {
            if node.serial != serial {
                put_all(board, Owner::Device(node.serial), &node.holds)?;
            }
        }
    }
    Ok(())
}

/// The first number, doubled again and again, after which the search is over, with the last after which it is not; none where it is not
/// over after the most.
fn doubled(
    alloc: Global,
    node: &Node,
    budget: u64,
    board: &mut Arbiters,
) -> Result<Option<(u64, Enough)>, WantOfMemory> {
    let mut low = budget;
    for _ in 0..TURNS {
        let places = low.saturating_mul(2).min(MOST);
        if let Some(fits) = fits(alloc, board, node.serial, &node.reqs, places)? {
            return Ok(Some((low, Enough { places, fits })));
        }
        if places == MOST {
            return Ok(None);
        }
        low = places;
    }
    Ok(None)
}

/// The least number after which the search is over.
fn least(
    alloc: Global,
    node: &Node,
    budget: u64,
    board: &mut Arbiters,
) -> Result<Option<Enough>, WantOfMemory> {
    let Some((mut low, mut high)) = doubled(alloc, node, budget, board)? else {
        return Ok(None);
    };
    for _ in 0..TURNS {
        let places = low.saturating_add(high.places.saturating_sub(low) / 2);
        if places <= low {
            return Ok(Some(high));
        }
        match fits(alloc, board, node.serial, &node.reqs, places)? {
            Some(fits) => high = Enough { places, fits },
            None => low = places,
        }
    }
    Ok(Some(high))
}

/// Says which budget suffices.
fn tell_least(alloc: Global, found: Option<Enough>, lines: &mut Lines) -> Result<(), WantOfMemory> {
    let Some(enough) = found else {
        return lines.say(
            alloc,
            b"Beside what is held now it would not be over after 1000000 places either, and no --budget may be greater.",
        );
    };
    lines.add(b"Beside what is held now it is over after ")?;
    lines.add_number(alloc, enough.places)?;
    if enough.fits {
        lines.add(b" places, and finds some: --budget ")?;
    } else {
        lines.add(b" places, and finds none: --budget ")?;
    }
    lines.add_number(alloc, enough.places)?;
    lines.say(alloc, b" suffices.")
}

/// At `spent PATH` before an operation: the least budget that would have sufficed. In an operation it is not told, since the order in
/// which those that may move were asked counts.
pub fn tell_enough(
    alloc: Global,
    facts: &Facts,
    tree: &Tree,
    path: &Text,
    lines: &mut Lines,
) -> Result<(), WantOfMemory> {
    if facts.operation.is_some() {
        return Ok(());
    }
    let Some(node) = node_of(alloc, tree, path)? else {
        return Ok(());
    };
    let mut board = Arbiters::new(alloc)?;
    put_others(&facts.reserved, tree, node.serial, &mut board)?;
    let found = least(alloc, node, facts.budget, &mut board)?;
    tell_least(alloc, found, lines)
}
