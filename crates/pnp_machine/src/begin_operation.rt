ghost use Rattle.std.specs.Prelude.{◌≡◌, [], IfOk, OnErr, Some, IsSome, true};
ghost use Rattle.pnp_model.specs.Cores.{node_at};
ghost use Rattle.pnp_model.specs.Rebalances.{begun_rebalance};
ghost use Rattle.pnp_model.specs.Records.Duty.{Begins};
ghost use Rattle.pnp_model.specs.Finishes.{begun_finish};
ghost use Rattle.pnp_model.specs.Handles.{was_told};
ghost use Rattle.pnp_model.specs.Machine.{is_in_order};
ghost use Rattle.pnp_model.specs.Removals.{begun_removal};
ghost use Rattle.pnp_model.specs.Surprises.{begun_surprise};
ghost use Rattle.pnp_model.specs.Tasks.{begin, begin_step, change_task, skip};
ghost use Rattle.pnp_model.specs.Tests.{operation_word};
ghost use Rattle.surprise_remove.specs.Ready.{is_ready_at};
ghost use Rattle.pnp_machine.specs.Machines.{IsDone, DoneFor, can_change, can_rebalance, begun_with};

use crate::listing::is_surprise_removed;
use crate::machine::Machine;
use crate::operation::Operation;
use crate::step_operation::set_operation;
use device_ids::WantOfMemory;
use driver_rack::Drivers;
use pnp_labels::{DevState, Label, OpKind, TaskKind};

/// The word of an operation's task.
fn word_of(kind: OpKind) -> TaskKind
    ensures { result ≡ operation_word kind }
{
    match kind {
        OpKind::Rebalance => TaskKind::Rebalance,
        OpKind::Disable => TaskKind::Disable,
        OpKind::Eject => TaskKind::Eject,
        OpKind::Surprise => TaskKind::Surprise,
        OpKind::Finish => TaskKind::Finish,
        OpKind::Change => TaskKind::Change,
    }
}

impl<R: Drivers> Machine<R> {
    /// The first task has no operation to begin, and is dropped.
    fn skip_begin(&mut self, kind: OpKind, serial: u64) -> Label
        ensures { IsDone (skip (Begins kind) serial self.old) result self.new }
    {
        self.tasks.drop_first();
        let task = word_of(kind);
        Label::Skip { task, serial }
    }

    /// An operation begins: the first task is dropped, and the line is told.
    fn run(&mut self, label: Label, operation: Operation) -> Label
        ensures label { result ≡ label }
        ensures state { self.new ≡ begun_with operation self.old }
    {
        self.tasks.drop_first();
        set_operation(&mut self.operation, Some(operation));
        label
    }

    /// Whether a device is there and NotStarted: what it needs can be found for it by a rebalance.
    pub(crate) fn can_rebalance(&self, serial: u64) -> bool
        ensures { result ≡ can_rebalance (node_at serial self.now.core.nodes) }
    {
        match self.devices.tree().node(serial) {
            Some(node) => node.state == DevState::NotStarted,
            None => false,
        }
    }

    /// Whether a device is there and was told that it has gone.
    pub(crate) fn was_told(&self, serial: u64) -> bool
        ensures { result ≡ was_told (node_at serial self.now.core.nodes) }
    {
        match self.devices.tree().node(serial) {
            Some(node) => is_surprise_removed(node.state),
            None => false,
        }
    }

    /// Whether a device is there and ready to be finished.
    pub(crate) fn is_ready(&self, serial: u64) -> bool
        ensures { result ≡ is_ready_at self.now.core self.now.handles (node_at serial self.now.core.nodes) }
    {
        self.devices.is_ready(serial)
    }

    /// Whether a device is there, Started and in the world: what it requires can be changed.
    pub(crate) fn can_change(&self, serial: u64) -> bool
        ensures { result ≡ can_change self.now.world (node_at serial self.now.core.nodes) }
    {
        self.devices.tree().is_up(serial) && self.devices.is_in_world(serial)
    }

    /// The rebalance for a device begins.
    fn begin_rebalance(&mut self, serial: u64) -> Result<Label, WantOfMemory>
        requires { IsSome (node_at serial self.old.core.nodes) }
        ensures done { IfOk result (λ label. DoneFor (node_at serial self.old.core.nodes) (λ n. begin self.old OpKind.Rebalance n (begun_rebalance self.old.core n)) label self.new) }
        ensures err { OnErr result (self.new ≡ self.old) }
    {
        let (label, rebalance) = self.devices.begin_rebalance(self.alloc, serial)?;
        Ok(self.run(label, Operation::Rebalancing(rebalance)))
    }

    /// The removal of a device begins.
    fn begin_removal(&mut self, kind: OpKind, serial: u64) -> Result<Label, WantOfMemory>
        requires there { IsSome (node_at serial self.old.core.nodes) }
        requires order { is_in_order kind ≡ true }
        ensures done { IfOk result (λ label. DoneFor (node_at serial self.old.core.nodes) (λ n. begin self.old kind n (begun_removal self.old.core kind n)) label self.new) }
        ensures err { OnErr result (self.new ≡ self.old) }
    {
        let (label, removal) = self.devices.begin_removal(self.alloc, kind, serial)?;
        Ok(self.run(label, Operation::Removing(removal)))
    }

    /// The surprise removal of a device begins.
    fn begin_surprise(&mut self, serial: u64) -> Result<Label, WantOfMemory>
        requires { IsSome (node_at serial self.old.core.nodes) }
        ensures done { IfOk result (λ label. DoneFor (node_at serial self.old.core.nodes) (λ n. begin self.old OpKind.Surprise n (begun_surprise self.old.core n)) label self.new) }
        ensures err { OnErr result (self.new ≡ self.old) }
    {
        let (label, surprise) = self.devices.begin_surprise(self.alloc, serial)?;
        Ok(self.run(label, Operation::Surprising(surprise)))
    }

    /// The end of surprise removals begins with a device that is ready.
    fn begin_finish(&mut self, serial: u64) -> Result<Label, WantOfMemory>
        requires { IsSome (node_at serial self.old.core.nodes) }
        ensures done { IfOk result (λ label. DoneFor (node_at serial self.old.core.nodes) (λ n. begin self.old OpKind.Finish n (begun_finish n)) label self.new) }
        ensures err { OnErr result (self.new ≡ self.old) }
    {
        let (label, finish) = self.devices.begin_finish(self.alloc, serial)?;
        Ok(self.run(label, Operation::Finishing(finish)))
    }

    /// The change of a device begins, or there is nothing to do: the device is not Started, or in the world no more.
    fn begin_change(&mut self, serial: u64) -> Result<Label, WantOfMemory>
        requires { IsSome (node_at serial self.old.core.nodes) }
        ensures done { IfOk result (λ label. DoneFor (node_at serial self.old.core.nodes) (λ n. change_task self.old n n.state) label self.new) }
        ensures err { OnErr result (self.new ≡ self.old) }
    {
        let Some(wanted) = self.devices.wanted(self.alloc, serial)? else {
            return Ok(self.skip_begin(OpKind::Change, serial));
        };
        let (label, change) = self.devices.begin_change(self.alloc, serial, wanted)?;
        Ok(self.run(label, Operation::Rebalancing(change)))
    }

    /// The task that begins an operation: it begins, or there is nothing to do. Condition: no device is being started.
    /// After want of memory all is as before.
    pub(crate) fn begin(&mut self, kind: OpKind, serial: u64) -> Result<Label, WantOfMemory>
        requires { self.old.activities ≡ [] }
        ensures done { IfOk result (λ label. IsDone (begin_step self.old kind serial (node_at serial self.old.core.nodes)) label self.new) }
        ensures err { OnErr result (self.new ≡ self.old) }
    {
        if self.devices.tree().node(serial).is_none() {
            return Ok(self.skip_begin(kind, serial));
        }
        match kind {
            OpKind::Rebalance if self.can_rebalance(serial) => self.begin_rebalance(serial),
            OpKind::Rebalance => Ok(self.skip_begin(kind, serial)),
            OpKind::Disable if self.is_disabled(serial) => Ok(self.skip_begin(kind, serial)),
            OpKind::Disable | OpKind::Eject => self.begin_removal(kind, serial),
            OpKind::Surprise if self.was_told(serial) => Ok(self.skip_begin(kind, serial)),
            OpKind::Surprise => self.begin_surprise(serial),
            OpKind::Finish if self.is_ready(serial) => self.begin_finish(serial),
            OpKind::Finish => Ok(self.skip_begin(kind, serial)),
            OpKind::Change => self.begin_change(serial),
        }
    }
}
