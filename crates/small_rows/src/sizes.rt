//! Sizes that a body which shifts, copies or goes through whole lists does not end in a minute: a pool of a million values,
//! 300,000 nodes of a tree, and 200,000 nodes each below the last one.
ghost use Rattle.std.specs.Prelude.{◌≡◌, ◌<◌, ◌+◌, ◌^◌, length, IfSome, IfOk, OnOk};
ghost use Rattle.node_pool.specs.Chains.{Stands};

use bridge_windows::{Bridges, clip};
use device_ids::{IdList, InstancePath};
use devnode_tree::Tree;
use node_pool::{Place, Pool};
use resource_reqs::Reqs;
use rows_told::must;
use std::alloc::Global;
use std::test::Fail;

/// Half of the values.
const HALF: u64 = 500_000;

/// Half of those.
const QUARTER: u64 = 250_000;

/// Puts a value in behind a place, or at the front. What stood stands.
fn put(
    pool: &mut Pool<u64>,
    at: Option<Place>,
    other: Option<Place>,
    value: u64,
) -> Result<Place, Fail>
    requires one { length pool.old.chains ≡ 1 }
    requires at { IfSome at (λ p. Stands pool.old 0 p.node) }
    requires other { IfSome other (λ p. Stands pool.old 0 p.node) }
    ensures one { OnOk result (length pool.new.chains ≡ 1) }
    ensures at { IfOk result (λ p. Stands pool.new 0 p.node) }
    ensures other { OnOk result (IfSome other (λ p. Stands pool.new 0 p.node)) }
{
    match pool.insert_after(0, at, value) {
        Ok(place) => Ok(place),
        Err(_) => Err(Fail::new("room")),
    }
}

/// The first half of the values, each behind the one before; the other half each behind the last value of the first quarter.
fn filled(alloc: Global) -> Result<Pool<u64>, Fail>
    ensures { IfOk result (λ pool. length pool.chains ≡ 1) }
{
    let mut pool = Pool::with_capacity(alloc, 1_000_000, 1)?;
    let mut last = None;
    let mut middle = None;
    'ascending: for value in 1..HALF + 1 {
        let place = put(&mut pool, last, middle, value)?;
        last = Some(place);
        if value == QUARTER {
            middle = last;
        }
    }
    'descending: for value in HALF + 1..2 * HALF + 1 {
        put(&mut pool, middle, middle, value)?;
    }
    Ok(pool)
}

/// The value at a position of the chain.
fn value_at(position: u64) -> u64 {
    if position <= QUARTER {
        position
    } else if position <= QUARTER + HALF {
        (QUARTER + 2 * HALF + 1).saturating_sub(position)
    } else {
        position.saturating_sub(HALF)
    }
}

/// How many values of the chain, from its first on, are those that stand there.
fn right_values(pool: &Pool<u64>) -> u64
    requires { length pool.now.chains ≡ 1 }
{
    let mut at = pool.first(0);
    let mut right = 0;
    'places: for position in 1..2 * HALF + 1 {
        let Some(place) = at else {
            break;
        };
        if *pool.get(0, place) != value_at(position) {
            break;
        }
        at = pool.next(0, place);
        right = position;
    }
    right
}

#[test]
fn a_million_values(rt: HostRuntime) -> Result<(), Fail> {
    let pool = filled(rt.alloc())?;
    must(pool.spare() == 0, "room for another value")?;
    must(right_values(&pool) == 2 * HALF, "the values of the chain")
}

/// The path of a device, as it was given or in lower case.
fn path(alloc: Global, device: &str, number: u64) -> Result<InstancePath, Fail> {
    let text = format!(in alloc; "{device}\\{number}")?;
    Ok(InstancePath::read(alloc, text.as_bytes())?)
}

/// One node more below a parent.
fn join(alloc: Global, tree: &mut Tree, parent: u64, number: u64) -> Result<(), Fail>
    requires { tree.old.next < 2 ^ 63 }
    ensures { OnOk result (tree.new.next ≡ tree.old.next + 1) }
{
    let (hw, compat) = (IdList::new(alloc), IdList::new(alloc));
    let path = path(alloc, "OWN\\DEV", number)?;
    tree.join(parent, number, path, hw, compat, Reqs::new(alloc))?;
    Ok(())
}

/// A tree with so many nodes below the root.
fn wide_tree(alloc: Global, count: u32) -> Result<Tree, Fail> {
    let mut tree = Tree::new(alloc)?;
    'nodes: for number in 0..count {
        join(alloc, &mut tree, 0, number as u64 + 1)?;
    }
    Ok(tree)
}

/// Whether the node that was found is this one.
fn is_node(found: Option<u64>, number: u64) -> bool {
    match found {
        Some(serial) => serial == number,
        None => false,
    }
}

#[test]
fn nodes_found_by_their_paths(rt: HostRuntime) -> Result<(), Fail> {
    let alloc = rt.alloc();
    let tree = wide_tree(alloc, 300_000)?;
    for number in 1..300_001u64 {
        let path = path(alloc, "own\\dev", number)?;
        if !is_node(tree.find(&path), number) {
            return Err(Fail::new(number));
        }
    }
    Ok(())
}

/// What a device that requires nothing may require below a node, where no window was set.
fn unclipped(alloc: Global, tree: &Tree, parent: u64) -> Result<u64, Fail> {
    if tree.node(parent).is_none() {
        return Err(Fail::new("the parent"));
    }
    let reqs = Reqs::new(alloc);
    let clipped = clip(alloc, tree, &Bridges::new(alloc), parent, &reqs)?;
    Ok(clipped.len() as u64)
}

/// A tree with so many nodes, each below the last one.
fn deep_tree(alloc: Global, count: u32) -> Result<Tree, Fail> {
    let mut tree = Tree::new(alloc)?;
    'nodes: for number in 0..count {
        unclipped(alloc, &tree, number as u64)?;
        join(alloc, &mut tree, number as u64, number as u64 + 1)?;
    }
    Ok(tree)
}

#[test]
fn no_climb_without_a_window(rt: HostRuntime) -> Result<(), Fail> {
    let tree = deep_tree(rt.alloc(), 200_000)?;
    must(tree.len() == 200_001, "how many nodes")
}
