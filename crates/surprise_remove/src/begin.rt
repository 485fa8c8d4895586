ghost use Rattle.std.specs.Prelude.{◌≡◌, List, IfOk, IsSome};
ghost use Rattle.pnp_model.specs.Cores.{node_at};
ghost use Rattle.pnp_model.specs.Keyed.{those};
ghost use Rattle.pnp_model.specs.Handles.{was_told};
ghost use Rattle.pnp_model.specs.Records.{Core, Relation};
ghost use Rattle.pnp_model.specs.Surprises.{is_told_node, begun_with, begun_surprise};
ghost use Rattle.devnode_tree.specs.Cores.{at_related};
ghost use Rattle.operation_frame.specs.Steps.{BegunFor};
ghost use Rattle.pnp_labels.specs.declared.label.OpKind.{OpKind};

use crate::frame::{Stage, Surprise};
use crate::readiness::was_told;
use device_ids::WantOfMemory;
use device_stack::Walk;
use devnode_tree::{Node, Tree};
use operation_frame::SerialQueue;
use pnp_labels::{DevState, Label, Minor, OpKind};
use relations::{Relations, SerialSet};
use std::alloc::Global;

/// Whether a device is there, and Started or Stopped.
fn is_told(tree: &Tree, serial: u64) -> bool
    ensures { result ≡ is_told_node (node_at serial tree.now.nodes) }
{
    match tree.node(serial) {
        Some(node) => matches!(node.state, DevState::Started | DevState::Stopped),
        None => false,
    }
}

/// Those of a set that are told that they are gone.
fn to_tell(alloc: Global, tree: &Tree, set: &SerialSet) -> Result<SerialQueue, WantOfMemory>
    ensures { IfOk result (λ queue. queue ≡ those (λ k. is_told_node (node_at k tree.now.nodes)) set.now) }
{
    let mut queue = SerialQueue::new(alloc);
    for at in 0..set.len() {
        let serial = set.get(at);
        if is_told(tree, serial) {
            queue.push_back(serial)?;
        }
    }
    Ok(queue)
}

/// Those of a set that were told before.
fn told_before(alloc: Global, tree: &Tree, set: &SerialSet) -> Result<SerialSet, WantOfMemory>
    ensures { IfOk result (λ told. told ≡ those (λ k. was_told (node_at k tree.now.nodes)) set.now) }
{
    let mut told = SerialSet::new(alloc);
    for at in 0..set.len() {
        let member = set.get(at);
        if was_told(tree, member) {
            told.push(member)?;
        }
    }
    Ok(told)
}

impl Surprise {
    /// The surprise removal of a device and of the others of this set stands before the first that is to be told.
    fn of_set(
        alloc: Global,
        tree: &Tree,
        node: &Node,
        set: SerialSet,
    ) -> Result<Surprise, WantOfMemory>
        ensures { IfOk result (λ surprise. (relations : List Relation) (around : Core) → surprise ≡ begun_with (at_related tree.now.nodes relations around) node.now set) }
    {
        let path = node.path.text(alloc)?;
        let told = told_before(alloc, tree, &set)?;
        let todo = to_tell(alloc, tree, &set)?;
        let all = todo.all_where_none(alloc, &set)?;
        let mut surprise = Surprise {
            target: node.serial,
            path,
            set,
            told,
            behind: SerialSet::new(alloc),
            todo,
            stage: Stage::Ending,
            walk: Walk::begin(Minor::SurpriseRemoval),
        };
        surprise.tell_next(all);
        Ok(surprise)
    }

    /// The surprise removal of a device begins: of its dependents and then itself, who is Started or Stopped is to be told,
    /// and who was told before will stay behind. The line is that of the begin. Condition: the device is there. Cost: that of
    /// `Relations::leaving`.
    pub fn begin(
        alloc: Global,
        tree: &Tree,
        relations: &Relations,
        serial: u64,
    ) -> Result<(Label, Surprise), WantOfMemory>
        requires { IsSome (node_at serial tree.now.nodes) }
        ensures { IfOk result (λ begun. BegunFor OpKind.Surprise begun_surprise (node_at serial tree.now.nodes) tree.now.nodes relations.now begun.0 begun.1) }
    {
        let node = tree.at(serial);
        let path = node.path.text(alloc)?;
        let order = relations.leaving(alloc, tree, node.serial)?;
        let set = SerialSet::of(alloc, &order)?;
        let surprise = Surprise::of_set(alloc, tree, node, set)?;
        let op = OpKind::Surprise;
        Ok((Label::Begin { op, path }, surprise))
    }
}
