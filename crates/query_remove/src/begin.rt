ghost use Rattle.std.specs.Prelude.{◌≡◌, IfOk, IsSome, true};
ghost use Rattle.pnp_model.specs.Cores.{node_at};
ghost use Rattle.pnp_model.specs.Keyed.{those};
ghost use Rattle.pnp_model.specs.Machine.{is_in_order};
ghost use Rattle.pnp_model.specs.Records.{Core};
ghost use Rattle.pnp_model.specs.Removals.{is_queried_node, begun_with, begun_removal};
ghost use Rattle.devnode_tree.specs.Cores.{at_related};
ghost use Rattle.operation_frame.specs.Steps.{BegunFor};
ghost use Rattle.query_remove.specs.Stages.{kind_by};

use crate::frame::{Removal, Stage, is_eject};
use device_ids::WantOfMemory;
use device_stack::Walk;
use devnode_tree::{Node, Tree};
use operation_frame::SerialQueue;
use pnp_labels::{DevState, Label, Minor, OpKind};
use relations::{Relations, SerialSet};
use std::alloc::Global;

/// Whether a device is asked, or refuses unasked: it is Started, or waits to be finished.
fn is_queried(tree: &Tree, serial: u64) -> bool
    ensures { result ≡ is_queried_node (node_at serial tree.now.nodes) }
{
    match tree.node(serial) {
        Some(node) => matches!(node.state, DevState::Started | DevState::SurpriseRemoved),
        None => false,
    }
}

/// Those of a set that are asked, or refuse unasked.
fn queried(alloc: Global, tree: &Tree, set: &SerialSet) -> Result<SerialQueue, WantOfMemory>
    ensures { IfOk result (λ queue. queue ≡ those (λ k. is_queried_node (node_at k tree.now.nodes)) set.now) }
{
    let mut queue = SerialQueue::new(alloc);
    for at in 0..set.len() {
        let serial = set.get(at);
        if is_queried(tree, serial) {
            queue.push_back(serial)?;
        }
    }
    Ok(queue)
}

impl Removal {
    /// The removal of a device and of the others of this set stands before the first that is to be asked.
    fn of_set(
        alloc: Global,
        tree: &Tree,
        relations: &Relations,
        ejects: bool,
        node: &Node,
        set: SerialSet,
    ) -> Result<Removal, WantOfMemory>
        ensures { IfOk result (λ removal. (around : Core) → removal ≡ begun_with (at_related tree.now.nodes relations.now around) (kind_by ejects) node.now set) }
    {
        let path = node.path.text(alloc)?;
        let ejecting = relations.ejected(alloc, &set)?;
        let todo = queried(alloc, tree, &set)?;
        let all = todo.all_where_none(alloc, &set)?;
        let mut removal = Removal {
            ejects,
            target: node.serial,
            path,
            set,
            ejecting,
            todo,
            agreed: SerialQueue::new(alloc),
            refused: SerialQueue::new(alloc),
            stage: Stage::Ending,
            walk: Walk::begin(Minor::QueryRemove),
        };
        removal.ask_next(tree, all);
        Ok(removal)
    }

    /// The removal of a device begins: its dependents and then it itself are to be asked, those that are Started or wait
    /// to be finished. The line is that of the begin. Conditions: the device is there, and the kind is a disable or an
    /// eject. Cost: that of `Relations::leaving`.
    pub fn begin(
        alloc: Global,
        tree: &Tree,
        relations: &Relations,
        kind: OpKind,
        serial: u64,
    ) -> Result<(Label, Removal), WantOfMemory>
        requires there { IsSome (node_at serial tree.now.nodes) }
        requires order { is_in_order kind ≡ true }
        ensures { IfOk result (λ begun. BegunFor kind (λ c n. begun_removal c kind n) (node_at serial tree.now.nodes) tree.now.nodes relations.now begun.0 begun.1) }
    {
        let node = tree.at(serial);
        let path = node.path.text(alloc)?;
        let order = relations.leaving(alloc, tree, node.serial)?;
        let set = SerialSet::of(alloc, &order)?;
        let ejects = is_eject(kind);
        let removal = Removal::of_set(alloc, tree, relations, ejects, node, set)?;
        Ok((Label::Begin { op: kind, path }, removal))
    }
}
