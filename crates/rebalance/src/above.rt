ghost use Rattle.std.specs.Prelude.{◌≡◌, ℕ, not, IfOk};
ghost use Rattle.pnp_model.specs.Keyed.{those};
ghost use Rattle.pnp_model.specs.Tests.{has};
ghost use Rattle.pnp_model.specs.Trees.{is_up, above, stands_up};
ghost use Rattle.pnp_model.specs.Frames.{rest};
ghost use Rattle.pnp_model.specs.Rebalances.{is_not_above, startable};

use crate::queues::take_first;
use device_ids::WantOfMemory;
use devnode_tree::Tree;
use operation_frame::SerialQueue;
use relations::SerialSet;
use std::alloc::Global;

/// Whether each device above a device is Started. It takes no memory. Cost: how deep the device stands, with the
/// logarithm of the number of nodes for each level.
pub(crate) fn stands_up(tree: &Tree, serial: u64) -> bool
    ensures { result ≡ stands_up tree.now.nodes serial }
{
    let mut at = serial;
    'levels: while at != 0 {
        let Some(node) = tree.node(at) else {
            return true;
        };
        let parent = node.parent;
        if !tree.is_up(parent) {
            return false;
        }
        at = parent;
    }
    true
}

/// The devices above a device. Cost: as `stands_up`.
fn all_above(alloc: Global, tree: &Tree, serial: u64) -> Result<SerialSet, WantOfMemory>
    ensures { IfOk result (λ set. (k : ℕ) → has set k ≡ has (above tree.now.nodes serial) k) }
{
    let mut set = SerialSet::new(alloc);
    let mut at = serial;
    'levels: while at != 0 {
        let Some(node) = tree.node(at) else {
            return Ok(set);
        };
        let parent = node.parent;
        set.push(parent)?;
        at = parent;
    }
    Ok(set)
}

/// Those of a queue that are not of a set, which empties the queue.
fn others(
    alloc: Global,
    set: &SerialSet,
    queue: &mut SerialQueue,
) -> Result<SerialQueue, WantOfMemory>
    ensures { IfOk result (λ left. left ≡ those (λ k. not (has set.now k)) queue.old) }
{
    let mut left = SerialQueue::new(alloc);
    'queue: while let Some(serial) = take_first(queue) {
        if !set.has(serial) {
            left.push_back(serial)?;
        }
    }
    Ok(left)
}

/// What is still to ask after a device that refused: all but those above it. Cost: as `stands_up`, and how many there
/// are.
pub(crate) fn left_to_ask(
    alloc: Global,
    tree: &Tree,
    refuser: u64,
    todo: &SerialQueue,
) -> Result<SerialQueue, WantOfMemory>
    ensures { IfOk result (λ left. left ≡ those (is_not_above tree.now.nodes refuser) (rest todo.now)) }
{
    let above = all_above(alloc, tree, refuser)?;
    let mut todo = todo.copy(alloc)?;
    todo.drop_first();
    others(alloc, &above, &mut todo)
}

/// Devices at the front that have one above that is not Started are passed over. It takes no memory. Cost: as
/// `stands_up`, for each device that is passed over and one more.
pub(crate) fn pass_over(tree: &Tree, todo: &mut SerialQueue)
    ensures { todo.new ≡ startable tree.now.nodes todo.old }
{
    'front: while let Some(serial) = todo.get(0) {
        if stands_up(tree, serial) {
            return;
        }
        todo.drop_first();
    }
}
