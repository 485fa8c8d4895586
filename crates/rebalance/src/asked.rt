ghost use Rattle.std.specs.Prelude.{◌≡◌, reverse, IfOk};
ghost use Rattle.pnp_model.specs.Cores.{node_at, serials_of};
ghost use Rattle.pnp_model.specs.Keyed.{those};
ghost use Rattle.pnp_model.specs.Rebalances.{is_asked};
ghost use Rattle.devnode_tree.specs.Trees.{IsTree};
ghost use Rattle.rebalance.specs.Frames.{is_asked_in};

use device_ids::WantOfMemory;
use devnode_tree::Tree;
use operation_frame::SerialQueue;
use pnp_labels::DevState;
use std::alloc::Global;
use std::collections::BTreeSet;

/// Whether a device is there, is Started and is not the root.
fn is_asked(tree: &Tree, serial: u64) -> bool
    ensures { result ≡ is_asked_in (node_at serial tree.now.nodes) }
{
    match tree.node(serial) {
        Some(node) => node.state == DevState::Started && node.serial != 0,
        None => false,
    }
}

/// The devices that are asked, in the order of their serials.
fn asked_set(alloc: Global, tree: &Tree) -> Result<BTreeSet<u64>, WantOfMemory>
    requires { IsTree tree.now }
    ensures { IfOk result (λ set. set.keys ≡ serials_of (those is_asked tree.now.nodes)) }
{
    let order = tree.print_order(alloc)?;
    let mut set = BTreeSet::new(alloc);
    'order: for at in 0..order.len() {
        let serial = *order.get(at);
        if is_asked(tree, serial) {
            set.insert(serial)?;
        }
    }
    Ok(set)
}

/// The devices that are asked, the greatest serial first: all that are Started but the root. Cost: the number of nodes
/// times its logarithm.
pub(crate) fn asked(alloc: Global, tree: &Tree) -> Result<SerialQueue, WantOfMemory>
    requires { IsTree tree.now }
    ensures { IfOk result (λ queue. queue ≡ reverse (serials_of (those is_asked tree.now.nodes))) }
{
    let mut set = asked_set(alloc, tree)?;
    let mut queue = SerialQueue::new(alloc);
    'set: while let Some(serial) = set.pop_last() {
        queue.push_back(serial)?;
    }
    Ok(queue)
}
