ghost use Rattle.std.specs.Prelude.{◌≡◌, ◌≤◌, ◌<◌, ℕ, IfOk, IfSome, OnOk, IsSome, nat_eq, [], ◌∷◌};
ghost use Rattle.std.specs.Ordering.{nat_cmp};
ghost use Rattle.std.specs.BinaryHeap.{IsHeap, heap_items};
ghost use Rattle.std.specs.HashMap.{get};
ghost use Rattle.pnp_model.specs.Cores.{node_at};
ghost use Rattle.relations.specs.Leaving.{over, IsLeaving};
ghost use Rattle.relations.specs.Queues.{number, IsLowered, Joins, HasFree};

use crate::graph::holders;
use crate::relations::Relations;
use crate::search::{Found, search};
use device_ids::WantOfMemory;
use devnode_tree::Tree;
use pnp_labels::SerialList;
use std::alloc::Global;
use std::collections::{BinaryHeap, HashMap};

/// The devices that are still to leave.
struct Queue {
    /// For each the number of edges from what depends on it directly and is left.
    counts: HashMap<u64, u64>,
    /// Those of which nothing that depends on them is left.
    free: BinaryHeap<u64>,
}

impl Drop for Queue {
    fn drop(self) {
        let Queue { counts: _, free: _ } = self;
    }
}

impl Queue {
    /// All that were found.
    fn new(alloc: Global, found: Found) -> Result<Queue, WantOfMemory>
        ensures counts { IfOk result (λ queue. queue.counts ≡ found.counts) }
        ensures free { IfOk result (λ queue. HasFree found.counts found.order.items (heap_items queue.free)) }
        ensures heap { IfOk result (λ queue. IsHeap nat_cmp (heap_items queue.free)) }
    {
        let free = free_of(alloc, &found)?;
        Ok(Queue {
            counts: found.counts,
            free,
        })
    }

    /// An edge to a device is gone.
    fn release(&mut self, serial: u64) -> Result<(), WantOfMemory>
        requires { IfSome (get nat_eq self.old.counts serial) (λ n. 0 < n) }
        ensures lowered { OnOk result (IsLowered self.old.counts self.new.counts (serial ∷ [])) }
        ensures joins { OnOk result (Joins self.old.counts (heap_items self.old.free) (heap_items self.new.free) (serial ∷ [])) }
        ensures heap { IsHeap nat_cmp (heap_items self.old.free) → OnOk result (IsHeap nat_cmp (heap_items self.new.free)) }
    {
        if let Some(count) = self.counts.get_mut(&serial) {
            *count -= 1;
            if *count == 0 {
                self.free.push(serial)?;
            }
        }
        Ok(())
    }

    /// These edges are gone.
    fn release_all(&mut self, serials: &[u64]) -> Result<(), WantOfMemory>
        requires enough { (q : ℕ) → IfSome (get nat_eq self.old.counts q) (λ n. number q serials.now ≤ n) }
        requires heap { IsHeap nat_cmp (heap_items self.old.free) }
        ensures lowered { OnOk result (IsLowered self.old.counts self.new.counts serials.now) }
        ensures joins { OnOk result (Joins self.old.counts (heap_items self.old.free) (heap_items self.new.free) serials.now) }
        ensures heap { OnOk result (IsHeap nat_cmp (heap_items self.new.free)) }
    {
        for serial in serials {
            self.release(*serial)?;
        }
        Ok(())
    }

    /// The edges from a device to what it depends on are gone.
    fn release_holders(
        &mut self,
        alloc: Global,
        tree: &Tree,
        relations: &Relations,
        serial: u64,
    ) -> Result<(), WantOfMemory>
        requires enough { (q : ℕ) → IfSome (get nat_eq self.old.counts q) (λ n. number q (over tree.now.nodes relations.now serial) ≤ n) }
        requires heap { IsHeap nat_cmp (heap_items self.old.free) }
        ensures lowered { OnOk result (IsLowered self.old.counts self.new.counts (over tree.now.nodes relations.now serial)) }
        ensures joins { OnOk result (Joins self.old.counts (heap_items self.old.free) (heap_items self.new.free) (over tree.now.nodes relations.now serial)) }
        ensures heap { OnOk result (IsHeap nat_cmp (heap_items self.new.free)) }
    {
        let found = holders(alloc, tree, relations, serial)?;
        self.release_all(&found)
    }
}

/// The devices to which no edge leads.
fn free_of(alloc: Global, found: &Found) -> Result<BinaryHeap<u64>, WantOfMemory>
    ensures free { IfOk result (λ heap. HasFree found.now.counts found.now.order.items (heap_items heap)) }
    ensures heap { IfOk result (λ heap. IsHeap nat_cmp (heap_items heap)) }
{
    let mut free = BinaryHeap::new(alloc);
    for serial in &found.order {
        if found.is_free(*serial) {
            free.push(*serial)?;
        }
    }
    Ok(free)
}

/// The leaving order of a device.
pub(crate) fn leave_all(
    alloc: Global,
    tree: &Tree,
    relations: &Relations,
    target: u64,
) -> Result<SerialList, WantOfMemory>
    requires { IsSome (node_at target tree.now.nodes) }
    ensures { IfOk result (λ order. IsLeaving tree.now.nodes relations.now target order) }
{
    let found = search(alloc, tree, relations, target)?;
    let mut queue = Queue::new(alloc, found)?;
    let mut order = SerialList::new(alloc);
    while let Some(serial) = queue.free.pop() {
        order.push(serial)?;
        queue.release_holders(alloc, tree, relations, serial)?;
    }
    Ok(order)
}
