//! Notes on devices that lost their drivers with another one.
use device_ids::{Text, WantOfMemory};
use devnode_tree::Tree;
use pnp_labels::{DevState, RelKind};
use std::alloc::Global;
use why_facts::{Lines, Relation, node_of};

/// Whether a device of the path works.
fn works(alloc: Global, tree: &Tree, path: &Text) -> Result<bool, WantOfMemory> {
    match node_of(alloc, tree, path)? {
        Some(node) => Ok(node.state == DevState::Started),
        None => Ok(false),
    }
}

/// A relation by which a device lost its drivers, and the line that made it.
fn tell_relation(
    alloc: Global,
    relation: &Relation,
    lines: &mut Lines,
) -> Result<(), WantOfMemory> {
    let kind: &[u8] = match relation.kind {
        RelKind::Removal => b"removal",
        RelKind::Ejection => b"ejection",
    };
    lines.add_three(
        b"It lost its drivers with ",
        relation.owner.bytes(),
        b", by the line `relate ",
    )?;
    lines.add_three(kind, b" ", relation.owner.bytes())?;
    lines.say_three(alloc, b" ", relation.member.bytes(), b"`.")
}

/// At `problem P 47` and `problem P held`: the relations by which the device lost its drivers.
pub fn on_held(
    alloc: Global,
    relations: &[Relation],
    tree: &Tree,
    path: &Text,
    lines: &mut Lines,
) -> Result<(), WantOfMemory> {
    let mut told = false;
    for relation in relations {
        if relation.member.same(path) && !works(alloc, tree, &relation.owner)? {
            tell_relation(alloc, relation, lines)?;
            told = true;
        }
    }
    if !told {
        lines.say(
            alloc,
            b"It had gone and kept its drivers while a handle was open; now they were removed.",
        )?;
    }
    Ok(())
}
