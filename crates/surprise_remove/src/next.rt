ghost use Rattle.std.specs.Prelude.{◌≡◌, List, IfOk, IfSome, OnErr, IsSome, Some, true, false};
ghost use Rattle.pnp_model.specs.Machine.{is_waiting};
ghost use Rattle.pnp_model.specs.Surprises.{tell_on, after_end};
ghost use Rattle.pnp_model.specs.Frames.{first_node, rest};
ghost use Rattle.pnp_model.specs.Records as Records;
ghost use Rattle.pnp_model.specs.Records.{Course};
ghost use Rattle.device_holdings.specs.Mirrors.{IsMirrored, KeepsMirror};
ghost use Rattle.operation_frame.specs.Nodes.{IsStripped};
ghost use Rattle.operation_frame.specs.Steps.{JobSteps, HasNext};
ghost use Rattle.surprise_remove.specs.Steps.{DirectSays, SettlesStripped};
ghost use Rattle.surprise_remove.specs.Parts.{is_under_way};

use crate::frame::{Stage, Surprise};
use device_ids::WantOfMemory;
use devnode_tree::{Handles, Tree};
use driver_rack::Drivers;
use operation_frame::{Asked, Walked, end_request, pass_on};
use pnp_labels::RemoveStep;
use relations::Relations;
use std::alloc::Global;
use trial_journal::Arbiters;

impl Surprise {
    /// The device that is next was told; after the last one all are finished.
    fn told(&mut self, alloc: Global) -> Result<(), WantOfMemory>
        ensures told { IfOk result (λ done. self.new ≡ tell_on self.old (rest self.old.todo)) }
        ensures surprise { OnErr result (self.new ≡ self.old) }
    {
        let all = self.todo.all_after_next(alloc, &self.set)?;
        self.todo.drop_first();
        self.tell_next(all);
        Ok(())
    }

    /// The request of the device that is next has ended: how the operation stands then.
    fn after_end(&mut self, alloc: Global) -> Result<(), WantOfMemory>
        requires walking { IsSome self.old.walk }
        ensures stands { IfOk result (λ done. after_end self.old self.old.stage ≡ Some self.new) }
        ensures surprise { OnErr result (self.new ≡ self.old) }
    {
        match self.stage {
            Stage::Telling => self.told(alloc),
            _ => {
                self.stage = Stage::Settling;
                Ok(())
            }
        }
    }

    /// A step of the request of the device that is next.
    fn walk_on<R: Drivers>(
        &mut self,
        alloc: Global,
        tree: &mut Tree,
        relations: &mut Relations,
        rack: &mut R,
        arbiters: &mut Arbiters,
        in_world: bool,
    ) -> Result<RemoveStep, WantOfMemory>
        requires there { IsSome (first_node tree.old.nodes self.old.todo) }
        requires walking { IsSome self.old.walk }
        requires goes { is_waiting self.old.walk ≡ false }
        requires mirrored { IsMirrored tree.old.nodes arbiters.old }
        ensures surprises { IfOk result (λ step. (handles : List Records.Handle) → JobSteps Course.Surprising tree.old.nodes relations.old (R.rows rack.old) in_world handles self.old step tree.new.nodes relations.new (R.rows rack.new) self.new) }
        ensures next { tree.new.next ≡ tree.old.next }
        ensures mirrors { KeepsMirror tree.old.nodes arbiters.old tree.new.nodes arbiters.new }
        ensures surprise { OnErr result (self.new ≡ self.old) }
        ensures tree { OnErr result (tree.new ≡ tree.old) }
        ensures relations { OnErr result (relations.new ≡ relations.old) }
        ensures rack { OnErr result (R.rows rack.new ≡ R.rows rack.old) }
    {
        let serial = self.todo.first();
        let mut walk = self.walk;
        match pass_on(alloc, serial, &mut walk, tree, rack)? {
            Walked::Ended { path, refused } => {
                self.after_end(alloc)?;
                let device = Asked { serial, path };
                let minor = walk.minor();
                Ok(RemoveStep::Did(end_request(minor, refused, device, tree, relations, arbiters)))
            }
            Walked::On(label) => {
                self.walk = walk;
                Ok(RemoveStep::Did(label))
            }
        }
    }

    /// A step of the device that is next, which is being told or finished: of its request, or it is settled.
    pub(crate) fn proceed<R: Drivers>(
        &mut self,
        alloc: Global,
        tree: &mut Tree,
        relations: &mut Relations,
        rack: &mut R,
        arbiters: &mut Arbiters,
        in_world: bool,
    ) -> Result<RemoveStep, WantOfMemory>
        requires there { IsSome (first_node tree.old.nodes self.old.todo) }
        requires under_way { is_under_way self.old.stage ≡ true }
        requires goes { is_waiting self.old.walk ≡ false }
        requires settles { self.old.stage ≡ Records.Stage.Settling → IfSome (first_node tree.old.nodes self.old.todo) (IsStripped tree.old.nodes) }
        requires mirrored { IsMirrored tree.old.nodes arbiters.old }
        ensures surprises { IfOk result (λ step. (handles : List Records.Handle) → JobSteps Course.Surprising tree.old.nodes relations.old (R.rows rack.old) in_world handles self.old step tree.new.nodes relations.new (R.rows rack.new) self.new) }
        ensures next { tree.new.next ≡ tree.old.next }
        ensures mirrors { KeepsMirror tree.old.nodes arbiters.old tree.new.nodes arbiters.new }
        ensures surprise { OnErr result (self.new ≡ self.old) }
        ensures tree { OnErr result (tree.new ≡ tree.old) }
        ensures relations { OnErr result (relations.new ≡ relations.old) }
        ensures rack { OnErr result (R.rows rack.new ≡ R.rows rack.old) }
    {
        match self.stage {
            Stage::Settling => self.settle(alloc, tree, in_world),
            _ => self.walk_on(alloc, tree, relations, rack, arbiters, in_world),
        }
    }

    /// The next step of a surprise removal that does not wait: a driver is told, a request ends, a device stays behind, leaves
    /// or remains, or the operation ends. `in_world` says whether the world has the target still or anew, with its birth
    /// number, and `handles` which devices are held open. The step tells the line that is printed and what the machine has to
    /// do; after `Over` the operation is over. Conditions: but for the end the device that is next is there; where it is to be
    /// finished, something that depends on it stayed behind only where something did that depends on it directly; one that is
    /// settled has no drivers, no holdings and no children, and is not the root; and the arbiters hold just what is reserved
    /// and what devices hold, which is kept. After want of memory all is as before, and no driver was told. Cost: the rules of
    /// one book, the logarithm of the number of nodes, and once the number of devices that are gone; where it is decided
    /// whether a device stays behind, also the number of its children and of the members that are related to it; where drivers
    /// are gone also the number of relations, and where a node leaves the number of nodes.
    pub fn next<R: Drivers>(
        &mut self,
        alloc: Global,
        tree: &mut Tree,
        relations: &mut Relations,
        rack: &mut R,
        arbiters: &mut Arbiters,
        in_world: bool,
        handles: &Handles,
    ) -> Result<RemoveStep, WantOfMemory>
        requires there { HasNext tree.old.nodes self.old self.old.stage }
        requires direct { DirectSays tree.old.nodes relations.old self.old self.old.stage }
        requires settles { SettlesStripped tree.old.nodes relations.old self.old handles.now self.old.stage }
        requires goes { is_waiting self.old.walk ≡ false }
        requires mirrored { IsMirrored tree.old.nodes arbiters.old }
        ensures surprises { IfOk result (λ step. JobSteps Course.Surprising tree.old.nodes relations.old (R.rows rack.old) in_world handles.now self.old step tree.new.nodes relations.new (R.rows rack.new) self.new) }
        ensures next { tree.new.next ≡ tree.old.next }
        ensures mirrors { KeepsMirror tree.old.nodes arbiters.old tree.new.nodes arbiters.new }
        ensures surprise { OnErr result (self.new ≡ self.old) }
        ensures tree { OnErr result (tree.new ≡ tree.old) }
        ensures relations { OnErr result (relations.new ≡ relations.old) }
        ensures rack { OnErr result (R.rows rack.new ≡ R.rows rack.old) }
    {
        match self.stage {
            Stage::Ending => Ok(RemoveStep::Over(self.end_line(alloc)?)),
            Stage::Next => self.decide(alloc, tree, relations, rack, arbiters, in_world, handles),
            _ => self.proceed(alloc, tree, relations, rack, arbiters, in_world),
        }
    }
}
