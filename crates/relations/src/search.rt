ghost use Rattle.std.specs.Prelude.{◌≡◌, ℕ, IfOk, OnOk, IsSome, ◌≢◌, [], ◌∷◌, None, nat_eq};
ghost use Rattle.pnp_model.specs.Cores.{node_at};
ghost use Rattle.pnp_model.specs.Tests.{has};
ghost use Rattle.pnp_model.specs.Trees.{dependents};
ghost use Rattle.devnode_tree.specs.Trees.{IsTree};
ghost use Rattle.relations.specs.Leaving.{base};
ghost use Rattle.std.specs.HashMap.{get};
ghost use Rattle.relations.specs.Queues.{is_zero};
ghost use Rattle.relations.specs.Searches.{IsKept, IsCounted, IsSet, Notes};

use crate::graph::direct;
use crate::relations::Relations;
use device_ids::WantOfMemory;
use devnode_tree::Tree;
use std::alloc::Global;
use std::collections::HashMap;

/// A device and all that depends on it, in the order in which they were found, and for each the number of edges from
/// what depends on it directly.
#[derive(Drop)]
pub(crate) struct Found {
    pub(crate) order: Vec<u64>,
    pub(crate) counts: HashMap<u64, u64>,
}

impl Found {
    /// Appends a device that was not found yet.
    fn note(&mut self, serial: u64) -> Result<(), WantOfMemory>
        requires { IsKept self.old.order.items self.old.counts }
        ensures { OnOk result (Notes self.old.order.items self.new.order.items self.old.counts self.new.counts (serial ∷ [])) }
    {
        if self.counts.get(&serial).is_none() {
            self.order.push(serial)?;
            self.counts.insert(serial, 0)?;
        }
        Ok(())
    }

    /// Appends those of these that were not found yet.
    fn note_all(&mut self, serials: &[u64]) -> Result<(), WantOfMemory>
        requires { IsKept self.old.order.items self.old.counts }
        ensures { OnOk result (Notes self.old.order.items self.new.order.items self.old.counts self.new.counts serials.now) }
    {
        for serial in serials {
            self.note(*serial)?;
        }
        Ok(())
    }

    /// Whether nothing depends on a device.
    pub(crate) fn is_free(&self, serial: u64) -> bool
        ensures { result ≡ is_zero (get nat_eq self.now.counts serial) }
    {
        match self.counts.get(&serial) {
            Some(count) => *count == 0,
            None => false,
        }
    }

    /// Counts the edges to a device.
    fn count(&mut self, serial: u64, edges: u64) -> Result<(), WantOfMemory>
        ensures counted { OnOk result (IsCounted self.old.counts self.new.counts serial edges) }
        ensures order { self.new.order ≡ self.old.order }
    {
        self.counts.insert(serial, edges)?;
        Ok(())
    }
}

/// One search from a device, by what has found nothing yet.
fn search_with(
    alloc: Global,
    tree: &Tree,
    relations: &Relations,
    target: u64,
    found: &mut Found,
) -> Result<(), WantOfMemory>
    requires there { IsSome (node_at target tree.now.nodes) }
    requires tree { IsTree tree.now }
    requires order { found.old.order.items ≡ [] }
    requires counts { (q : ℕ) → get nat_eq found.old.counts q ≡ None }
    ensures { OnOk result (IsSet tree.now.nodes relations.now target found.new.order.items found.new.counts) }
{
    found.note(target)?;
    let mut at = 0;
    while at < found.order.len() {
        let serial = found.order[at];
        let below = direct(alloc, tree, relations, serial)?;
        found.count(serial, below.len() as u64)?;
        found.note_all(&below)?;
        at += 1;
    }
    Ok(())
}

/// One search from a device.
pub(crate) fn search(
    alloc: Global,
    tree: &Tree,
    relations: &Relations,
    target: u64,
) -> Result<Found, WantOfMemory>
    requires { IsSome (node_at target tree.now.nodes) }
    ensures set { IfOk result (λ found. IsSet tree.now.nodes relations.now target found.order.items found.counts) }
    ensures tree { IsTree tree.now }
{
    let mut found = Found {
        order: Vec::with_capacity(alloc, tree.len())?,
        counts: HashMap::new(alloc),
    };
    search_with(alloc, tree, relations, target, &mut found)?;
    Ok(found)
}

/// Whether a device depends on another one, at last.
pub(crate) fn depends_on(
    alloc: Global,
    tree: &Tree,
    relations: &Relations,
    holder: u64,
    serial: u64,
) -> Result<bool, WantOfMemory>
    requires there { IsSome (node_at holder tree.now.nodes) }
    requires other { serial ≢ holder }
    ensures { IfOk result (λ depends. depends ≡ has (dependents (base tree.now.nodes relations.now) holder) serial) }
{
    let found = search(alloc, tree, relations, holder)?;
    Ok(found.counts.contains_key(&serial))
}
