ghost use Rattle.std.specs.Prelude.{◌≡◌, IfOk};
ghost use Rattle.relations.specs.Edges.{SameSums};
ghost use Rattle.relations.specs.Leaving.{below, over};

use crate::relations::Relations;
use device_ids::WantOfMemory;
use devnode_tree::Tree;
use std::alloc::Global;

/// What depends directly on a device, one for each edge: its children, and its related members that are there.
pub(crate) fn direct(
    alloc: Global,
    tree: &Tree,
    relations: &Relations,
    serial: u64,
) -> Result<Vec<u64>, WantOfMemory>
    ensures { IfOk result (λ found. SameSums found.items (below tree.now.nodes relations.now serial)) }
{
    let mut found = Vec::from_slice(alloc, tree.children(serial))?;
    for edge in relations.owned(serial) {
        if tree.node(edge.to).is_some() {
            found.push(edge.to)?;
        }
    }
    Ok(found)
}

/// What a device depends on directly, one for each edge: its parent, if it is not the root, and its owners.
pub(crate) fn holders(
    alloc: Global,
    tree: &Tree,
    relations: &Relations,
    serial: u64,
) -> Result<Vec<u64>, WantOfMemory>
    ensures { IfOk result (λ found. SameSums found.items (over tree.now.nodes relations.now serial)) }
{
    let mut found = Vec::new(alloc);
    if let Some(node) = tree.node(serial) {
        if node.serial != 0 {
            found.push(node.parent)?;
        }
    }
    for edge in relations.joined(serial) {
        found.push(edge.to)?;
    }
    Ok(found)
}
