ghost use Rattle.std.specs.Prelude.{◌≡◌, ◌<◌, ◌^◌, IfOk, OnErr};
ghost use Rattle.pnp_model.specs.Machine.{Steps};
ghost use Rattle.pnp_model.specs.Cores.{node_at};
ghost use Rattle.pnp_model.specs.Records.{Settings};
ghost use Rattle.pnp_model.specs.Records.Duty.{Listing};
ghost use Rattle.pnp_model.specs.Tasks.{list_step, skip};
ghost use Rattle.pnp_model.specs.Tests.{is_started, is_surprise_removed};
ghost use Rattle.pnp_machine.specs.Machines.{IsDone, gone_or_listed_at};

use crate::machine::Machine;
use crate::tasks::Duty;
use device_ids::{Text, WantOfMemory};
use driver_rack::Drivers;
use pnp_labels::{DevState, Label, OpKind, TaskKind};

/// Whether a device is up.
pub(crate) fn is_started(state: DevState) -> bool
    ensures { result ≡ is_started state }
{
    matches!(state, DevState::Started)
}

/// Whether a device was told that it has gone, and has its drivers still.
pub(crate) fn is_surprise_removed(state: DevState) -> bool
    ensures { result ≡ is_surprise_removed state }
{
    matches!(state, DevState::SurpriseRemoved)
}

impl<R: Drivers> Machine<R> {
    /// The first task has nothing to list, and is dropped.
    fn skip_list(&mut self, serial: u64) -> Label
        ensures { IsDone (skip Listing serial self.old) result self.new }
    {
        self.tasks.drop_first();
        let task = TaskKind::List;
        Label::Skip { task, serial }
    }

    /// A child of the device is gone from the world and its surprise removal becomes due; or the listing ends.
    fn list_gone(&mut self, serial: u64, path: Text) -> Result<Label, WantOfMemory>
        ensures done { IfOk result (λ label. IsDone (gone_or_listed_at self.old serial path) label self.new) }
        ensures err { OnErr result (self.new ≡ self.old) }
    {
        self.tasks.make_room()?;
        let Some(child) = self.devices.gone_below(&self.tasks, serial) else {
            self.tasks.drop_first();
            return Ok(Label::Listed { path });
        };
        let Some(node) = self.devices.tree().node(child) else {
            unreachable!()
        };
        let path = node.path.text(self.alloc)?;
        self.tasks.append(Duty::Begin(OpKind::Surprise), child);
        Ok(Label::Gone { path })
    }

    /// A step of the task that lists the children of a device: one of the world joins, or one that is gone is found, or the
    /// listing ends. Condition: fewer than 2^63 nodes joined. After want of memory all is as before.
    pub(crate) fn list(&mut self, serial: u64) -> Result<Label, WantOfMemory>
        requires { self.old.next_serial < 2 ^ 63 }
        ensures done { IfOk result (λ label. IsDone (list_step self.old serial (node_at serial self.old.core.nodes)) label self.new) }
        ensures err { OnErr result (self.new ≡ self.old) }
    {
        let Some(node) = self.devices.tree().node(serial) else {
            return Ok(self.skip_list(serial));
        };
        if !is_started(node.state) {
            return Ok(self.skip_list(serial));
        }
        let path = node.path.text(self.alloc)?;
        self.tasks.make_room()?;
        match self.devices.join_next(self.alloc, serial)? {
            Some((serial, path)) => {
                self.tasks.append(Duty::Start, serial);
                Ok(Label::Join { serial, path })
            }
            None => self.list_gone(serial, path),
        }
    }
}
