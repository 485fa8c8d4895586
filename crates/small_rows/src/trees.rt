//! A listing of the root, and a child of a node.
ghost use Rattle.std.specs.Prelude.{◌<◌, ◌^◌};

use device_ids::{IdList, InstancePath};
use devnode_tree::Tree;
use resource_reqs::Reqs;
use rows_told::must;
use script_bus::{World, difference};
use std::alloc::Global;
use std::test::Fail;

/// The path of the device.
fn path(alloc: Global) -> Result<InstancePath, Fail> {
    Ok(InstancePath::read(alloc, b"BUS\\DEV\\1")?)
}

/// The device arrives below the root.
fn plug(alloc: Global, world: &mut World, root: &InstancePath) -> Result<(), Fail>
    requires { world.old.next < 2 ^ 63 }
{
    let path = path(alloc)?;
    let (hw, compat) = (IdList::new(alloc), IdList::new(alloc));
    world.plug(root, path, hw, compat, Reqs::new(alloc))?;
    Ok(())
}

/// A world with one device below the root.
fn one_device(alloc: Global) -> Result<World, Fail> {
    let root = InstancePath::read(alloc, b"HTREE\\ROOT\\0")?;
    let mut world = World::new(alloc)?;
    plug(alloc, &mut world, &root)?;
    Ok(world)
}

/// A listing of the root finds one device that joins and none that is gone.
fn one_joins(alloc: Global, world: &World, tree: &Tree) -> Result<(), Fail> {
    if tree.node(0).is_none() {
        return Err(Fail::new("the root"));
    }
    let found = difference(alloc, world, tree, 0)?;
    must(found.joins.len() == 1, "how many devices join")?;
    must(found.gone.len() == 0, "how many devices are gone")
}

/// The tree has the root alone.
#[test]
fn a_listing_finds_who_joins(rt: HostRuntime) -> Result<(), Fail> {
    let world = one_device(rt.alloc())?;
    let tree = Tree::new(rt.alloc())?;
    one_joins(rt.alloc(), &world, &tree)
}

/// The device joins below the root.
fn join(alloc: Global, tree: &mut Tree) -> Result<(), Fail>
    requires { tree.old.next < 2 ^ 63 }
{
    let path = path(alloc)?;
    let (hw, compat) = (IdList::new(alloc), IdList::new(alloc));
    tree.join(0, 1, path, hw, compat, Reqs::new(alloc))?;
    Ok(())
}

/// A tree with one node below the root.
fn one_node(alloc: Global) -> Result<Tree, Fail> {
    let mut tree = Tree::new(alloc)?;
    join(alloc, &mut tree)?;
    Ok(tree)
}

#[test]
fn the_root_has_a_child(rt: HostRuntime) -> Result<(), Fail> {
    match one_node(rt.alloc())?.child(0, 0) {
        Some(1) => Ok(()),
        _ => Err(Fail::new("the child of the root")),
    }
}
