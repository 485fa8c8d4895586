//! Notes on what moved.
ghost use Rattle.std.specs.Prelude.{◌≡◌, OnOk, if◌then◌else◌};
ghost use Rattle.std.specs.Str.{bytes_eq};
ghost use Rattle.why_notes.specs.Moving.{moved};

use device_ids::WantOfMemory;
use devnode_tree::{Node, Tree};
use pnp_labels::res_text;
use resource_reqs::ResList;
use std::alloc::Global;
use why_facts::{Holding, Lines};

/// Resources between commas; `nothing` where there is none.
fn held_text(alloc: Global, held: &ResList) -> Result<Vec<u8>, WantOfMemory> {
    let mut text = Vec::new(alloc);
    for at in 0..held.len() {
        if at > 0 {
            text.extend_from_slice(b", ")?;
        }
        text.extend_from_slice(&res_text(alloc, held.get(at))?)?;
    }
    if text.is_empty() {
        text.extend_from_slice(b"nothing")?;
    }
    Ok(text)
}

/// What all devices hold.
pub fn holdings(alloc: Global, tree: &Tree) -> Result<Vec<Holding>, WantOfMemory> {
    let mut all = Vec::new(alloc);
    for at in 0..tree.len() {
        if let Some(node) = tree.get(at) {
            all.push(Holding {
                serial: node.serial,
                held: node.holds.copy(alloc)?,
            })?;
        }
    }
    Ok(all)
}

/// Tells what a device holds and what it held, where that is not the same.
fn tell_change(
    alloc: Global,
    path: &[u8],
    old: &[u8],
    new: &[u8],
    lines: &mut Lines,
) -> Result<(), WantOfMemory>
    ensures { OnOk result (lines.new ≡ (if bytes_eq old.now new.now then lines.old else moved path.now old.now new.now lines.old)) }
{
    if old == new {
        return Ok(());
    }
    lines.add_three(path, b" has now ", new)?;
    lines.say_three(alloc, b"; before: ", old, b".")
}

/// Tells a device whose holdings are other than before.
fn tell_moved(
    alloc: Global,
    before: &Holding,
    node: &Node,
    lines: &mut Lines,
) -> Result<(), WantOfMemory> {
    if before.serial != node.serial {
        return Ok(());
    }
    let old = held_text(alloc, &before.held)?;
    let new = held_text(alloc, &node.holds)?;
    tell_change(alloc, node.path.bytes(), &old, &new, lines)
}

/// At `commit`: the new holdings of those that moved.
pub fn on_commit(
    alloc: Global,
    before: &[Holding],
    tree: &Tree,
    lines: &mut Lines,
) -> Result<(), WantOfMemory> {
    for at in 0..tree.len() {
        if let (Some(old), Some(node)) = (before.get(at), tree.get(at)) {
            tell_moved(alloc, old, node, lines)?;
        }
    }
    Ok(())
}
