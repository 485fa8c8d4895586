ghost use Rattle.std.specs.Prelude.{◌≡◌, ◌≤◌, ℕ, IfOk, OnErr, length};
ghost use Rattle.pnp_model.specs.Cores.{node_at};
ghost use Rattle.pnp_model.specs.Records.Duty.{Starting};
ghost use Rattle.pnp_model.specs.Tasks.{start_step, skip};
ghost use Rattle.pnp_model.specs.Tests.{has_same};
ghost use Rattle.start_sequence.specs.Begins.{settings_of};
ghost use Rattle.pnp_machine.specs.Ids.{AreFewIds};
ghost use Rattle.pnp_machine.specs.Machines.{IsDone, can_start, is_disabled};

use crate::machine::Machine;
use device_ids::WantOfMemory;
use driver_rack::Drivers;
use inf_reader::Inf;
use pnp_labels::{DevState, Label, TaskKind};

impl<R: Drivers> Machine<R> {
    /// The first task has nothing to start, and is dropped.
    fn skip_start(&mut self, serial: u64) -> Label
        ensures { IsDone (skip Starting serial self.old) result self.new }
    {
        self.tasks.drop_first();
        let task = TaskKind::Start;
        Label::Skip { task, serial }
    }

    /// Whether a device is there, without drivers, and without a start.
    fn can_start(&self, serial: u64) -> bool
        ensures { result ≡ can_start serial self.now }
    {
        match self.devices.tree().node(serial) {
            Some(node) => node.state == DevState::NoStack && self.starts.work(serial).is_none(),
            None => false,
        }
    }

    /// Whether a device is there and its path is disabled.
    pub(crate) fn is_disabled(&self, serial: u64) -> bool
        ensures { result ≡ is_disabled serial self.now }
    {
        match self.devices.tree().node(serial) {
            Some(node) => self.disabled.has(&node.path),
            None => false,
        }
    }

    /// The task that starts a device: its drivers are chosen and its start begins, or it gets its problem. Conditions: at
    /// most 64 INFs, and each node has at most 64 IDs of each sort. After want of memory all is as before.
    pub(crate) fn start(&mut self, infs: &[Inf], serial: u64) -> Result<Label, WantOfMemory>
        requires few { length infs.now ≤ 64 }
        requires ids { AreFewIds self.old }
        ensures done { IfOk result (λ label. (budget : ℕ) → IsDone (start_step (settings_of infs.now budget) self.old serial (node_at serial self.old.core.nodes)) label self.new) }
        ensures err { OnErr result (self.new ≡ self.old) }
    {
        if !self.can_start(serial) {
            return Ok(self.skip_start(serial));
        }
        let disabled = self.is_disabled(serial);
        self.starts.make_room()?;
        let (label, work) = self
            .devices
            .begin(self.alloc, &self.rack, infs, serial, disabled)?;
        self.tasks.drop_first();
        match work {
            Some(work) => {
                self.starts.put(work);
                Ok(label)
            }
            None => Ok(label),
        }
    }
}
