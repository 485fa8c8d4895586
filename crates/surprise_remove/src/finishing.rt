ghost use Rattle.std.specs.Prelude.{◌≡◌, ◌∷◌, [], Bool, List, None, false, IfOk, OnErr, IsSome, IfSome};
ghost use Rattle.pnp_model.specs.Cores.{node_at};
ghost use Rattle.pnp_model.specs.Machine.{is_waiting};
ghost use Rattle.pnp_model.specs.Finishes as moves;
ghost use Rattle.pnp_model.specs.Records as Records;
ghost use Rattle.pnp_model.specs.Records.{Handle, Course};
ghost use Rattle.trial_journal.specs.ByKind as ByKind;
ghost use Rattle.device_holdings.specs.Mirrors.{IsMirrored, KeepsMirror};
ghost use Rattle.operation_frame.specs.Nodes.{IsStripped};
ghost use Rattle.operation_frame.specs.Steps.{Moved, MovesFor, JobSteps};
ghost use Rattle.surprise_remove.specs.FinishStages.{settled_at};
ghost use Rattle.surprise_remove.specs.FinishSteps.{HasCurrent, LeavesStripped};

use crate::finish::{Finish, Stage};
use crate::readiness::{ready, was_told};
use device_ids::WantOfMemory;
use device_stack::Walk;
use devnode_tree::{Handles, Tree};
use driver_rack::Drivers;
use operation_frame::{Asked, Settled, Walked, end_request, leave, pass_on, remain};
use pnp_labels::{Label, Minor, Problem, RemoveStep};
use relations::Relations;
use std::alloc::Global;
use trial_journal::Arbiters;

/// What becomes of a device that loses its drivers: it leaves where it is gone, or its parent is and waits for it; it remains
/// with the problem that it has; or it is to get one.
fn settled(tree: &Tree, serial: u64, in_world: bool) -> Stage
    requires { IsSome (node_at serial tree.now.nodes) }
    ensures { result ≡ settled_at tree.now.nodes serial (node_at serial tree.now.nodes) in_world }
{
    let node = tree.at(serial);
    if was_told(tree, node.parent) || !in_world {
        Stage::Leaving(serial)
    } else if node.problem.is_some() {
        Stage::Next
    } else {
        Stage::Holding(serial)
    }
}

impl Finish {
    /// The ready device of the greatest serial is taken, and its first driver is asked; where none is ready the end comes.
    fn take<R: Drivers>(
        &mut self,
        alloc: Global,
        tree: &Tree,
        relations: &Relations,
        rack: &mut R,
        handles: &Handles,
    ) -> Result<RemoveStep, WantOfMemory>
        requires stage { self.old.stage ≡ Records.Stage.Next }
        requires none { self.old.walk ≡ None }
        ensures takes { IfOk result (λ step. (in_world : Bool) → JobSteps Course.Finishing tree.now.nodes relations.now (R.rows rack.old) in_world handles.now self.old step tree.now.nodes relations.now (R.rows rack.new) self.new) }
        ensures finish { OnErr result (self.new ≡ self.old) }
        ensures rack { OnErr result (R.rows rack.new ≡ R.rows rack.old) }
    {
        let Some(serial) = ready(tree, relations, handles) else {
            return Ok(RemoveStep::Over(self.end_line(alloc)?));
        };
        let mut walk = Walk::begin(Minor::Remove);
        match pass_on(alloc, serial, &mut walk, tree, rack)? {
            Walked::On(label) => {
                self.stage = Stage::Removing(serial);
                self.walk = walk;
                Ok(RemoveStep::Did(label))
            }
            Walked::Ended { .. } => unreachable!(),
        }
    }

    /// A step of the request that removes the drivers of the current device. With its end they are gone.
    fn walk_on<R: Drivers>(
        &mut self,
        alloc: Global,
        serial: u64,
        tree: &mut Tree,
        relations: &mut Relations,
        rack: &mut R,
        arbiters: &mut Arbiters,
        in_world: bool,
    ) -> Result<RemoveStep, WantOfMemory>
        requires there { IsSome (node_at serial tree.old.nodes) }
        requires todo { self.old.todo ≡ serial ∷ [] }
        requires walking { IsSome self.old.walk }
        requires goes { is_waiting self.old.walk ≡ false }
        requires mirrored { IsMirrored tree.old.nodes arbiters.old }
        ensures finishes { IfOk result (λ step. (handles : List Handle) → JobSteps Course.Finishing tree.old.nodes relations.old (R.rows rack.old) in_world handles self.old step tree.new.nodes relations.new (R.rows rack.new) self.new) }
        ensures next { tree.new.next ≡ tree.old.next }
        ensures mirrors { KeepsMirror tree.old.nodes arbiters.old tree.new.nodes arbiters.new }
        ensures finish { OnErr result (self.new ≡ self.old) }
        ensures tree { OnErr result (tree.new ≡ tree.old) }
        ensures relations { OnErr result (relations.new ≡ relations.old) }
        ensures rack { OnErr result (R.rows rack.new ≡ R.rows rack.old) }
    {
        let mut walk = self.walk;
        match pass_on(alloc, serial, &mut walk, tree, rack)? {
            Walked::On(label) => {
                self.walk = walk;
                Ok(RemoveStep::Did(label))
            }
            Walked::Ended { path, refused } => {
                self.stage = settled(tree, serial, in_world);
                let device = Asked { serial, path };
                let minor = walk.minor();
                Ok(RemoveStep::Did(end_request(minor, refused, device, tree, relations, arbiters)))
            }
        }
    }

    /// The current device, which has no drivers, leaves.
    fn leave(
        &mut self,
        alloc: Global,
        serial: u64,
        tree: &mut Tree,
    ) -> Result<RemoveStep, WantOfMemory>
        requires there { IsSome (node_at serial tree.old.nodes) }
        requires stripped { IfSome (node_at serial tree.old.nodes) (IsStripped tree.old.nodes) }
        ensures moves { IfOk result (λ step. MovesFor Moved (node_at serial tree.old.nodes) (λ c n. moves.leave c self.old n) tree.old.nodes step tree.new.nodes self.new) }
        ensures next { tree.new.next ≡ tree.old.next }
        ensures mirrors { (arbiters : ByKind.Arbiters) → KeepsMirror tree.old.nodes arbiters tree.new.nodes arbiters }
        ensures finish { OnErr result (self.new ≡ self.old) }
        ensures tree { OnErr result (tree.new ≡ tree.old) }
    {
        let device = Settled::of(alloc, tree.at(serial))?;
        self.stage = Stage::Next;
        leave(device.serial, tree);
        let label = Label::Leave { path: device.line };
        Ok(RemoveStep::Left {
            label,
            path: device.path,
            born: device.born,
        })
    }

    /// The current device, which has no drivers and no problem, gets one.
    fn hold(
        &mut self,
        alloc: Global,
        serial: u64,
        tree: &mut Tree,
    ) -> Result<RemoveStep, WantOfMemory>
        requires there { IsSome (node_at serial tree.old.nodes) }
        ensures moves { IfOk result (λ step. MovesFor Moved (node_at serial tree.old.nodes) (λ c n. moves.hold c self.old n) tree.old.nodes step tree.new.nodes self.new) }
        ensures next { tree.new.next ≡ tree.old.next }
        ensures mirrors { (arbiters : ByKind.Arbiters) → KeepsMirror tree.old.nodes arbiters tree.new.nodes arbiters }
        ensures finish { OnErr result (self.new ≡ self.old) }
        ensures tree { OnErr result (tree.new ≡ tree.old) }
    {
        let path = tree.at(serial).path.text(alloc)?;
        let problem = Problem::Held;
        self.stage = Stage::Next;
        remain(serial, problem, tree);
        Ok(RemoveStep::Did(Label::Trouble { path, problem }))
    }

    /// The next step of a finish that does not wait: a ready device is taken and its first driver asked, another driver is
    /// asked, the drivers are gone, the device leaves or gets a problem, or the finish ends, as none is ready. `in_world` says
    /// whether the world has the current device still or anew, with its birth number. The step tells the line that is printed
    /// and what the machine has to do; after `Over` the finish is over. Conditions: the current device, where there is one, is
    /// there; one that leaves has no drivers, no holdings and no children, and is not the root; and the arbiters hold just
    /// what is reserved and what devices hold, which is kept. After want of memory all is as before, and no driver was asked.
    /// Cost: the rules of one book, and the logarithm of the number of nodes; where a device is taken that of `ready`; where
    /// drivers are gone also the number of relations, and where a node leaves the number of nodes.
    pub fn next<R: Drivers>(
        &mut self,
        alloc: Global,
        tree: &mut Tree,
        relations: &mut Relations,
        rack: &mut R,
        arbiters: &mut Arbiters,
        in_world: bool,
        handles: &Handles,
    ) -> Result<RemoveStep, WantOfMemory>
        requires there { HasCurrent tree.old.nodes self.old self.old.stage }
        requires leaves { LeavesStripped tree.old.nodes self.old self.old.stage }
        requires goes { is_waiting self.old.walk ≡ false }
        requires mirrored { IsMirrored tree.old.nodes arbiters.old }
        ensures finishes { IfOk result (λ step. JobSteps Course.Finishing tree.old.nodes relations.old (R.rows rack.old) in_world handles.now self.old step tree.new.nodes relations.new (R.rows rack.new) self.new) }
        ensures next { tree.new.next ≡ tree.old.next }
        ensures mirrors { KeepsMirror tree.old.nodes arbiters.old tree.new.nodes arbiters.new }
        ensures finish { OnErr result (self.new ≡ self.old) }
        ensures tree { OnErr result (tree.new ≡ tree.old) }
        ensures relations { OnErr result (relations.new ≡ relations.old) }
        ensures rack { OnErr result (R.rows rack.new ≡ R.rows rack.old) }
    {
        match self.stage {
            Stage::Next => self.take(alloc, tree, relations, rack, handles),
            Stage::Removing(serial) => {
                self.walk_on(alloc, serial, tree, relations, rack, arbiters, in_world)
            }
            Stage::Leaving(serial) => self.leave(alloc, serial, tree),
            Stage::Holding(serial) => self.hold(alloc, serial, tree),
        }
    }
}
