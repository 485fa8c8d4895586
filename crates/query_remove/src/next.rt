ghost use Rattle.std.specs.Prelude.{◌≡◌, ◌∷◌, List, IfOk, OnErr, IsSome, false};
ghost use Rattle.pnp_model.specs.Cores.{node_at};
ghost use Rattle.pnp_model.specs.Machine.{is_waiting};
ghost use Rattle.pnp_model.specs.Removals.{ask_on, cancel_on, answers};
ghost use Rattle.pnp_model.specs.Frames.{first_node, rest};
ghost use Rattle.pnp_model.specs.Records as Records;
ghost use Rattle.pnp_model.specs.Records.{Core, Course};
ghost use Rattle.devnode_tree.specs.Cores.{at_nodes};
ghost use Rattle.device_holdings.specs.Mirrors.{IsMirrored, KeepsMirror};
ghost use Rattle.operation_frame.specs.Queues.{all_after};
ghost use Rattle.operation_frame.specs.Steps.{JobSteps, HasNext, StandsAfter};
ghost use Rattle.query_remove.specs.Parts.{SettlesStripped};

use crate::frame::{Removal, Stage};
use device_ids::WantOfMemory;
use device_stack::Walk;
use devnode_tree::{Handles, Tree};
use driver_rack::Drivers;
use operation_frame::{Asked, SerialQueue, Walked, end_request, pass_on};
use pnp_labels::{Minor, RemoveStep};
use relations::Relations;
use std::alloc::Global;
use trial_journal::Arbiters;

impl Removal {
    /// The device that is next is asked next, or refuses unasked, and where none is next all are finished.
    pub(crate) fn ask_next(&mut self, tree: &Tree, all: SerialQueue)
        requires { all ≡ all_after self.old.set self.old.todo }
        ensures { self.new ≡ ask_on tree.now.nodes self.old self.old.todo }
    {
        if self.todo.fill(all) {
            return self.finish_next(tree);
        }
        self.stage = Stage::Next;
    }

    /// The device that is next agreed; after the last one all are finished.
    fn agree(&mut self, alloc: Global, tree: &Tree, serial: u64) -> Result<(), WantOfMemory>
        ensures agreed { IfOk result (λ done. self.new ≡ ask_on tree.now.nodes (record self.old { agreed = serial ∷ self.old.agreed }) (rest self.old.todo)) }
        ensures removal { OnErr result (self.new ≡ self.old) }
    {
        let all = self.todo.all_after_next(alloc, &self.set)?;
        self.agreed.push_front(serial)?;
        self.todo.drop_first();
        self.ask_next(tree, all);
        Ok(())
    }

    /// The device that is next has answered: where it refused it is told that it stays.
    fn answered(
        &mut self,
        alloc: Global,
        tree: &Tree,
        serial: u64,
        refused: bool,
    ) -> Result<(), WantOfMemory>
        ensures answered { IfOk result (λ done. (around : Core) (n : Records.Node) → n.serial ≡ serial → self.new ≡ answers (at_nodes tree.now.nodes around) self.old n refused) }
        ensures removal { OnErr result (self.new ≡ self.old) }
    {
        if !refused {
            return self.agree(alloc, tree, serial);
        }
        self.refused.push_front(serial)?;
        self.stage = Stage::TakingBack;
        self.walk = Walk::begin(Minor::CancelRemove);
        Ok(())
    }

    /// All that agreed are told that they stay, the last one first.
    fn stay(&mut self, alloc: Global) -> Result<(), WantOfMemory>
        ensures told { IfOk result (λ done. self.new ≡ cancel_on self.old self.old.agreed) }
        ensures removal { OnErr result (self.new ≡ self.old) }
    {
        self.todo = self.agreed.copy(alloc)?;
        self.cancel_next();
        Ok(())
    }

    /// A device that agreed was told that it stays.
    fn cancel(&mut self)
        ensures { self.new ≡ cancel_on self.old (rest self.old.todo) }
    {
        self.todo.drop_first();
        self.cancel_next();
    }

    /// The request of the device that is next has ended: how the removal stands then.
    fn after_end(
        &mut self,
        alloc: Global,
        tree: &Tree,
        serial: u64,
        refused: bool,
    ) -> Result<(), WantOfMemory>
        requires walking { IsSome self.old.walk }
        ensures stands { IfOk result (λ done. StandsAfter Course.Removing (node_at serial tree.now.nodes) tree.now.nodes self.old false refused self.new) }
        ensures removal { OnErr result (self.new ≡ self.old) }
    {
        match self.stage {
            Stage::Asking => self.answered(alloc, tree, serial, refused),
            Stage::TakingBack => self.stay(alloc),
            Stage::Cancelling => {
                self.cancel();
                Ok(())
            }
            _ => {
                self.stage = Stage::Settling;
                Ok(())
            }
        }
    }

    /// A step of the request of the device that is next.
    pub(crate) fn walk_on<R: Drivers>(
        &mut self,
        alloc: Global,
        tree: &mut Tree,
        relations: &mut Relations,
        rack: &mut R,
        arbiters: &mut Arbiters,
    ) -> Result<RemoveStep, WantOfMemory>
        requires there { IsSome (first_node tree.old.nodes self.old.todo) }
        requires walking { IsSome self.old.walk }
        requires goes { is_waiting self.old.walk ≡ false }
        requires mirrored { IsMirrored tree.old.nodes arbiters.old }
        ensures removes { IfOk result (λ step. (handles : List Records.Handle) → JobSteps Course.Removing tree.old.nodes relations.old (R.rows rack.old) false handles self.old step tree.new.nodes relations.new (R.rows rack.new) self.new) }
        ensures removal { OnErr result (self.new ≡ self.old) }
        ensures tree { OnErr result (tree.new ≡ tree.old) }
        ensures relations { OnErr result (relations.new ≡ relations.old) }
        ensures rack { OnErr result (R.rows rack.new ≡ R.rows rack.old) }
        ensures next { tree.new.next ≡ tree.old.next }
        ensures mirrors { KeepsMirror tree.old.nodes arbiters.old tree.new.nodes arbiters.new }
    {
        let serial = self.todo.first();
        let mut walk = self.walk;
        match pass_on(alloc, serial, &mut walk, tree, rack)? {
            Walked::Ended { path, refused } => {
                self.after_end(alloc, tree, serial, refused)?;
                let device = Asked { serial, path };
                let minor = walk.minor();
                Ok(RemoveStep::Did(end_request(minor, refused, device, tree, relations, arbiters)))
            }
            Walked::On(label) => {
                self.walk = walk;
                Ok(RemoveStep::Did(label))
            }
        }
    }

    /// The next step of a removal that does not wait: a driver is asked, a device refuses unasked, a request ends, a device
    /// leaves or remains, or the removal ends. The step tells the line that is printed and what the machine has to do; after `Over` the removal
    /// is over. Conditions: but for the end the device that is next is there; a device that is settled has no drivers, no
    /// holdings and no children, and is not the root; and the arbiters hold just what is reserved and what devices hold,
    /// which is kept. After want of memory all is as before, and no driver was asked. Cost: the rules of one book, the
    /// logarithms of the numbers of nodes and of devices with an open handle, and once the number of devices that are
    /// removed; where drivers are gone also the number of relations, and where a node leaves the number of nodes.
    pub fn next<R: Drivers>(
        &mut self,
        alloc: Global,
        tree: &mut Tree,
        relations: &mut Relations,
        rack: &mut R,
        arbiters: &mut Arbiters,
        handles: &Handles,
    ) -> Result<RemoveStep, WantOfMemory>
        requires there { HasNext tree.old.nodes self.old self.old.stage }
        requires settles { SettlesStripped tree.old.nodes self.old self.old.stage }
        requires goes { is_waiting self.old.walk ≡ false }
        requires mirrored { IsMirrored tree.old.nodes arbiters.old }
        ensures removes { IfOk result (λ step. JobSteps Course.Removing tree.old.nodes relations.old (R.rows rack.old) false handles.now self.old step tree.new.nodes relations.new (R.rows rack.new) self.new) }
        ensures next { tree.new.next ≡ tree.old.next }
        ensures mirrors { KeepsMirror tree.old.nodes arbiters.old tree.new.nodes arbiters.new }
        ensures removal { OnErr result (self.new ≡ self.old) }
        ensures tree { OnErr result (tree.new ≡ tree.old) }
        ensures relations { OnErr result (relations.new ≡ relations.old) }
        ensures rack { OnErr result (R.rows rack.new ≡ R.rows rack.old) }
    {
        match self.stage {
            Stage::Ending => Ok(RemoveStep::Over(self.end_line(alloc, tree)?)),
            Stage::Settling => self.settle(alloc, tree),
            Stage::Next => self.query(alloc, tree, relations, rack, arbiters, handles),
            _ => self.walk_on(alloc, tree, relations, rack, arbiters),
        }
    }
}
