ghost use Rattle.std.specs.Prelude.{◌≡◌, IfOk, OnErr, IsSome, None, false, option_map};
ghost use Rattle.pnp_model.specs.Frames.{first_node};
ghost use Rattle.pnp_model.specs.Removals.{refuses_unasked, declines, queried};
ghost use Rattle.pnp_model.specs.Records as Records;
ghost use Rattle.pnp_model.specs.Records.{Course, course_of};
ghost use Rattle.device_holdings.specs.Mirrors.{IsMirrored, KeepsMirror};
ghost use Rattle.pnp_labels.specs.declared.label.RemoveStep.TheVariants as steps;
ghost use Rattle.operation_frame.specs.Steps.{Moved, MovesFor, JobSteps};
ghost use Rattle.query_remove.specs.Requests.{begun_query, request};

use crate::frame::{Removal, Stage};
use device_ids::WantOfMemory;
use device_stack::Walk;
use devnode_tree::{Handles, Node, Tree};
use driver_rack::Drivers;
use pnp_labels::{DevState, Label, Minor, RemoveStep};
use relations::Relations;
use std::alloc::Global;
use trial_journal::Arbiters;

/// Whether a device refuses unasked: a handle to it is open, or it waits to be finished.
fn refuses_unasked(handles: &Handles, node: &Node) -> bool
    ensures { result ≡ refuses_unasked handles.now node.now }
{
    handles.is_open(node.serial) || matches!(node.state, DevState::SurpriseRemoved)
}

impl Removal {
    /// The device that is next refuses unasked. Nothing is taken back from it, and all that agreed are told that they
    /// stay, the last one first.
    fn decline(&mut self, alloc: Global, tree: &Tree) -> Result<Label, WantOfMemory>
        requires there { IsSome (first_node tree.now.nodes self.old.todo) }
        ensures declined { IfOk result (λ label. MovesFor Moved (first_node tree.now.nodes self.old.todo) (λ c n. declines c self.old n) tree.now.nodes (steps.Did label) tree.now.nodes self.new) }
        ensures removal { OnErr result (self.new ≡ self.old) }
    {
        let node = tree.at(self.todo.first());
        let path = node.path.text(alloc)?;
        let told = self.agreed.copy(alloc)?;
        self.refused.push_front(node.serial)?;
        self.todo = told;
        self.cancel_next();
        Ok(Label::Handles { path })
    }

    /// The query with which the device that is next is asked; none where it refuses unasked.
    fn next_query(&self, tree: &Tree, handles: &Handles) -> Option<Walk>
        ensures { option_map (λ w. w.walk) result ≡ begun_query handles.now (first_node tree.now.nodes self.now.todo) }
    {
        let node = tree.node(self.todo.get(0)?)?;
        if refuses_unasked(handles, node) {
            return None;
        }
        Some(Walk::begin(Minor::QueryRemove))
    }

    /// The request of which the next step is: the one that is on its way to the device that is next, also where it waits, or
    /// the query with which the device is asked; none exactly where the step is of no request. It takes no memory. Cost: the
    /// logarithms of the numbers of nodes and of devices with an open handle.
    pub fn request(&self, tree: &Tree, handles: &Handles) -> Option<Walk>
        ensures request { option_map (λ w. w.walk) result ≡ request handles.now self.now self.now.walk (first_node tree.now.nodes self.now.todo) }
        ensures course { course_of self.now.kind ≡ Course.Removing }
    {
        match self.stage {
            Stage::Settling | Stage::Ending => None,
            Stage::Next => self.next_query(tree, handles),
            _ => Some(self.walk),
        }
    }

    /// The query of the device that is next begins.
    fn begin_query(&mut self)
        ensures { self.new ≡ queried self.old }
    {
        self.stage = Stage::Asking;
        self.walk = Walk::begin(Minor::QueryRemove);
    }

    /// The device that is next is asked, its first driver at once, or refuses unasked.
    pub(crate) fn query<R: Drivers>(
        &mut self,
        alloc: Global,
        tree: &mut Tree,
        relations: &mut Relations,
        rack: &mut R,
        arbiters: &mut Arbiters,
        handles: &Handles,
    ) -> Result<RemoveStep, WantOfMemory>
        requires there { IsSome (first_node tree.old.nodes self.old.todo) }
        requires next { self.old.stage ≡ Records.Stage.Next }
        requires none { self.old.walk ≡ None }
        requires mirrored { IsMirrored tree.old.nodes arbiters.old }
        ensures removes { IfOk result (λ step. JobSteps Course.Removing tree.old.nodes relations.old (R.rows rack.old) false handles.now self.old step tree.new.nodes relations.new (R.rows rack.new) self.new) }
        ensures removal { OnErr result (self.new ≡ self.old) }
        ensures tree { OnErr result (tree.new ≡ tree.old) }
        ensures relations { OnErr result (relations.new ≡ relations.old) }
        ensures rack { OnErr result (R.rows rack.new ≡ R.rows rack.old) }
        ensures next { tree.new.next ≡ tree.old.next }
        ensures mirrors { KeepsMirror tree.old.nodes arbiters.old tree.new.nodes arbiters.new }
    {
        if refuses_unasked(handles, tree.at(self.todo.first())) {
            return Ok(RemoveStep::Did(self.decline(alloc, tree)?));
        }
        self.begin_query();
        let asked = self.walk_on(alloc, tree, relations, rack, arbiters);
        if asked.is_err() {
            self.stage = Stage::Next;
        }
        asked
    }
}
