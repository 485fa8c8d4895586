ghost use Rattle.std.specs.Prelude.{◌≡◌, ℕ, [], IfOk, IsSome};
ghost use Rattle.pnp_model.specs.Cores.{node_at};
ghost use Rattle.pnp_model.specs.Tests.{has};
ghost use Rattle.pnp_model.specs.Trees.{set_of};
ghost use Rattle.pnp_laws.specs.Kept.{Distinct};
ghost use Rattle.pnp_laws.specs.Rebalanced.{Falling};
ghost use Rattle.devnode_tree.specs.Trees.{IsTree};
ghost use Rattle.relations.specs.Leaving.{base, IsLeaving};

use device_ids::WantOfMemory;
use devnode_tree::Tree;
use pnp_labels::SerialList;
use std::alloc::Global;

/// These serials, the greatest first.
fn falling(alloc: Global, mut serials: Vec<u64>) -> Result<SerialList, WantOfMemory>
    requires { Distinct serials.items }
    ensures falls { IfOk result (λ order. Falling order) }
    ensures same { IfOk result (λ order. (k : ℕ) → has order k ≡ has serials.items k) }
{
    serials.sort_unstable();
    let mut order = SerialList::new(alloc);
    while let Some(serial) = serials.pop() {
        order.push(serial)?;
    }
    Ok(order)
}

/// A device and all below it, in the order in which they were found: nobody is below two devices, so nobody is found twice.
fn all_below(alloc: Global, tree: &Tree, target: u64) -> Result<Vec<u64>, WantOfMemory>
    requires { IsSome (node_at target tree.now.nodes) }
    ensures distinct { IfOk result (λ found. Distinct found.items) }
    ensures all { IfOk result (λ found. (k : ℕ) → has found.items k ≡ has (set_of (base tree.now.nodes []) target) k) }
    ensures tree { IsTree tree.now }
{
    let mut found = Vec::with_capacity(alloc, tree.len())?;
    found.push(target)?;
    let mut at = 0;
    while at < found.len() {
        let serial = found[at];
        found.extend_from_slice(tree.children(serial))?;
        at += 1;
    }
    Ok(found)
}

/// The leaving order of a device where no device is related: what depends on a device joined after it, so of those that are
/// left the one with the greatest serial is free.
pub(crate) fn leave_unrelated(
    alloc: Global,
    tree: &Tree,
    target: u64,
) -> Result<SerialList, WantOfMemory>
    requires { IsSome (node_at target tree.now.nodes) }
    ensures { IfOk result (λ order. IsLeaving tree.now.nodes [] target order) }
{
    let found = all_below(alloc, tree, target)?;
    falling(alloc, found)
}
