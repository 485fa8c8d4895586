ghost use Rattle.std.specs.Prelude.{◌≡◌, ◌≤◌, ◌<◌, ◌&&◌, ℕ, not, IfOk, IfSome, IsSome, IsTrue, nat_le, find, get_or, length, option_map};
ghost use Rattle.pnp_model.specs.Cores.{node_at};
ghost use Rattle.pnp_model.specs.Keyed.{those};
ghost use Rattle.pnp_model.specs.Tasks.{has_born, has_path, joins};
ghost use Rattle.script_bus.specs.Differences.{joins_of, gone_of, joins_from, is_new_born, is_lost_serial};
ghost use Rattle.devnode_tree.specs.Trees.{Ascends, IsTree};
ghost use Rattle.script_bus.specs.Worlds.{births_of};

use crate::change::Difference;
use crate::world::World;
use device_ids::{InstancePath, WantOfMemory};
use devnode_tree::Tree;
use pnp_labels::{BornList, SerialList};
use std::alloc::Global;

/// Whether no node has the birth number or the path.
fn is_new(tree: &Tree, born: u64, path: &InstancePath) -> bool
    ensures { result ≡ (not (has_born born tree.now.nodes) && not (has_path path.now tree.now.nodes)) }
{
    if tree.find(path).is_some() {
        return false;
    }
    tree.find_born(born).is_none()
}

/// Whether a device of the world is new to the tree.
fn is_new_born(world: &World, tree: &Tree, born: u64) -> bool
    ensures { result ≡ is_new_born world.now tree.now born }
{
    match world.part(born) {
        Some(part) => is_new(tree, born, &part.path),
        None => false,
    }
}

/// Whether a node's birth number is not in the world.
fn is_lost_serial(world: &World, tree: &Tree, serial: u64) -> bool
    ensures { result ≡ is_lost_serial world.now tree.now serial }
{
    match tree.node(serial) {
        Some(node) => !world.has(node.born),
        None => false,
    }
}

/// The devices that join below a node with a birth number.
fn joins_below(
    alloc: Global,
    world: &World,
    tree: &Tree,
    born: u64,
) -> Result<BornList, WantOfMemory>
    requires { IsTrue (has_born born tree.now.nodes) }
    ensures { IfOk result (λ found. found ≡ births_of (those (joins born tree.now.nodes) world.now.devices)) }
{
    let mut joins = BornList::new(alloc);
    for child in world.children(born) {
        if is_new_born(world, tree, *child) {
            joins.push(*child)?;
        }
    }
    Ok(joins)
}

/// The children of a node that are gone.
fn gone_below(
    alloc: Global,
    world: &World,
    tree: &Tree,
    serial: u64,
) -> Result<SerialList, WantOfMemory>
    requires { IsTree tree.now }
    ensures { IfOk result (λ gone. gone ≡ gone_of world.now tree.now serial) }
{
    let mut gone = SerialList::new(alloc);
    for child in tree.children(serial) {
        if is_lost_serial(world, tree, *child) {
            gone.push(*child)?;
        }
    }
    Ok(gone)
}

/// Who joins below a node and which of its children are gone: the world children of its device, by birth number, for
/// which no node has the birth number and none has the path, up to ASCII case; and its children, by serial, whose birth
/// number is not in the world. Condition: the node is there. Cost: for each child the length of its path and the
/// logarithm of the number of devices; for each that joins also that of `Tree::find_born`. This project's own.
pub fn difference(
    alloc: Global,
    world: &World,
    tree: &Tree,
    serial: u64,
) -> Result<Difference, WantOfMemory>
    requires { IsSome (node_at serial tree.now.nodes) }
    ensures joins { IfSome (node_at serial tree.now.nodes) (λ n. IfOk result (λ d. d.joins ≡ joins_of world.now tree.now n)) }
    ensures gone { IfOk result (λ d. d.gone ≡ gone_of world.now tree.now serial) }
{
    let joins = match tree.node(serial) {
        Some(node) => joins_below(alloc, world, tree, node.born)?,
        None => BornList::new(alloc),
    };
    let gone = gone_below(alloc, world, tree, serial)?;
    Ok(Difference { joins, gone })
}

/// How many ascending numbers are below one; they stand in front. Cost: the logarithm of their number.
fn below_in(numbers: &[u64], from: u64) -> usize
    requires { Ascends 0 numbers.now }
    ensures within { result ≤ length numbers.now }
    ensures below { (k d : ℕ) → k < result → get_or numbers.now k d < from }
{
    numbers.partition_point(|number| *number < from)
}

/// Whether a device of the world has at least a birth number and is new to the tree.
fn is_new_from(world: &World, tree: &Tree, from: u64, born: u64) -> bool
    ensures { result ≡ (nat_le from born && is_new_born world.now tree.now born) }
{
    born >= from && is_new_born(world, tree, born)
}

/// The first device with at least a birth number that joins below a node with a birth number.
fn first_join(world: &World, tree: &Tree, born: u64, from: u64) -> Option<u64>
    requires { IsTrue (has_born born tree.now.nodes) }
    ensures { result ≡ option_map (λ d. d.born) (find (λ d. nat_le from d.born && joins born tree.now.nodes d) world.now.devices) }
{
    let children = world.children(born);
    let first = below_in(children, from);
    'joins: for at in first..children.len() {
        let child = children[at];
        if is_new_from(world, tree, from, child) {
            return Some(child);
        }
    }
    None
}

/// The first device that joins below a node, of those with at least this birth number, and none exactly where none of
/// them joins. Who lists one device a step need not look again at those that did not join. Condition: the node is there.
/// It takes no memory. Cost: for each child from that number on that does not join the length of its path and the
/// logarithm of the number of devices; for the one that joins also that of `Tree::find_born`. This project's own.
pub fn next_join(world: &World, tree: &Tree, serial: u64, from: u64) -> Option<u64>
    requires { IsSome (node_at serial tree.now.nodes) }
    ensures { IfSome (node_at serial tree.now.nodes) (λ n. result ≡ option_map (λ d. d.born) (find (joins_from from tree.now n) world.now.devices)) }
{
    match tree.node(serial) {
        Some(node) => first_join(world, tree, node.born, from),
        None => None,
    }
}
