ghost use Rattle.std.specs.Prelude.{◌≡◌, ◌∷◌, Some, IfOk, OnOk, OnErr, false, true};
ghost use Rattle.pnp_model.specs.Cores.{node_at};
ghost use Rattle.pnp_model.specs.Frames.{rest};
ghost use Rattle.pnp_model.specs.Jobs.{begins, stands};
ghost use Rattle.pnp_model.specs.Keyed.{those};
ghost use Rattle.pnp_model.specs.Records as Records;
ghost use Rattle.pnp_model.specs.Records.{Course, Node};
ghost use Rattle.pnp_model.specs.Rebalances.{answers, ask_on, cancel_on, is_not_above, restart_on, stop_on};
ghost use Rattle.pnp_laws.specs.Kept.{IsOwn};
ghost use Rattle.operation_frame.specs.Nodes.{PathIs};
ghost use Rattle.operation_frame.specs.Steps.{StandsAfter};
ghost use Rattle.operation_frame.specs.Walks.{EndsFor};
ghost use Rattle.rebalance.specs.Parts.{StaysWhole};

use crate::above::left_to_ask;
use crate::frame::{Rebalance, Stage};
use device_ids::{Text, WantOfMemory};
use devnode_tree::Tree;
use operation_frame::{Asked, end_walk};
use pnp_labels::{Label, Minor};
use std::alloc::Global;

/// A request ends: the device gets the state after it, and the line tells it.
fn end(minor: Minor, refused: bool, device: Asked, tree: &mut Tree) -> Label
    requires { PathIs (node_at device.serial tree.old.nodes) device.path }
    ensures ended { EndsFor (node_at device.serial tree.old.nodes) minor refused device.path tree.old.nodes result tree.new.nodes }
    ensures whole { StaysWhole tree.old tree.new }
{
    end_walk(minor, refused, device.path, device.serial, tree)
}

impl Rebalance {
    /// The device that is next agreed: those after it are asked.
    fn agree(&mut self, alloc: Global, serial: u64) -> Result<(), WantOfMemory>
        ensures agreed { OnOk result (self.new ≡ ask_on (record self.old { agreed = serial ∷ self.old.agreed }) (rest self.old.todo)) }
        ensures err { OnErr result (self.new ≡ self.old) }
    {
        self.agreed.push_front(serial)?;
        if let Err(error) = self.ask_rest(alloc) {
            self.agreed.drop_first();
            return Err(error);
        }
        Ok(())
    }

    /// The device that is next refused: it is told that it goes on.
    fn refuse(&mut self, serial: u64) -> Result<(), WantOfMemory>
        ensures refused { OnOk result (self.new ≡ begins (record self.old { refused = serial ∷ self.old.refused }) self.old.todo Records.Stage.TakingBack Minor.CancelStop) }
        ensures err { OnErr result (self.new ≡ self.old) }
    {
        self.refused.push_front(serial)?;
        self.begin_request(Stage::TakingBack, Minor::CancelStop);
        Ok(())
    }

    /// The device that is next has answered whether it may stop.
    fn take_answer(&mut self, alloc: Global, serial: u64, refused: bool) -> Result<(), WantOfMemory>
        ensures answered { OnOk result ((n : Node) → n.serial ≡ serial → self.new ≡ answers self.old n refused) }
        ensures err { OnErr result (self.new ≡ self.old) }
    {
        if refused {
            self.refuse(serial)
        } else {
            self.agree(alloc, serial)
        }
    }

    /// The device that refused was told that it goes on: those above it are not asked.
    fn take_back(&mut self, alloc: Global, serial: u64, tree: &Tree) -> Result<(), WantOfMemory>
        ensures taken { OnOk result (self.new ≡ ask_on self.old (those (is_not_above tree.now.nodes serial) (rest self.old.todo))) }
        ensures err { OnErr result (self.new ≡ self.old) }
    {
        let left = left_to_ask(alloc, tree, serial, &self.todo)?;
        self.ask_all(alloc, left)
    }

    /// A device that agreed was told that it goes on.
    fn cancel(&mut self)
        ensures { self.new ≡ cancel_on self.old (rest self.old.todo) }
    {
        self.todo.drop_first();
        self.cancel_next();
    }

    /// A device has stopped.
    fn stop(&mut self)
        ensures { self.new ≡ stop_on self.old (rest self.old.todo) }
    {
        self.todo.drop_first();
        self.stop_next();
    }

    /// A device is started again, or was not.
    fn restart(&mut self, refused: bool, tree: &Tree)
        ensures failed { refused ≡ true → self.new ≡ stands self.old self.old.todo Records.Stage.Failed }
        ensures started { refused ≡ false → self.new ≡ restart_on tree.now.nodes self.old (rest self.old.todo) }
    {
        if refused {
            self.stand(Stage::Failed);
        } else {
            self.todo.drop_first();
            self.restart_next(tree);
        }
    }

    /// The request of the device that is next has ended.
    pub(crate) fn end_request(
        &mut self,
        alloc: Global,
        minor: Minor,
        refused: bool,
        device: Asked,
        tree: &mut Tree,
    ) -> Result<Label, WantOfMemory>
        requires path { PathIs (node_at device.serial tree.old.nodes) device.path }
        requires asked { IsOwn self.old.walk (Some minor) }
        ensures ended { IfOk result (λ label. EndsFor (node_at device.serial tree.old.nodes) minor refused device.path tree.old.nodes label tree.new.nodes) }
        ensures stands { OnOk result (StandsAfter Course.Rebalancing (node_at device.serial tree.old.nodes) tree.old.nodes self.old false refused self.new) }
        ensures whole { StaysWhole tree.old tree.new }
        ensures rebalance { OnErr result (self.new ≡ self.old) }
        ensures tree { OnErr result (tree.new ≡ tree.old) }
    {
        match &self.stage {
            Stage::Asking => self.take_answer(alloc, device.serial, refused)?,
            Stage::TakingBack => self.take_back(alloc, device.serial, tree)?,
            Stage::Cancelling => self.cancel(),
            Stage::Stopping => self.stop(),
            _ => {
                let label = end(minor, refused, device, tree);
                self.restart(refused, tree);
                return Ok(label);
            }
        }
        Ok(end(minor, refused, device, tree))
    }
}
