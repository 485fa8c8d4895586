ghost use Rattle.std.specs.Prelude.{◌≡◌, ◌<◌, ◌&&◌, ◌++◌, ◌∷◌, [], if◌then◌else◌, not, IfOk, IsTrue, OnOk, OnErr, find, nat_lt};
ghost use Rattle.pnp_labels.specs.declared.event.Event.TheVariants as Event;
ghost use Rattle.pnp_model.specs.Cores.{node_at};
ghost use Rattle.pnp_model.specs.Events.{happens};
ghost use Rattle.pnp_model.specs.Handles.{is_handle_of, is_open, opened, closed_with};
ghost use Rattle.devnode_tree.specs.Counts.{count_of, handle_with};
ghost use Rattle.pnp_model.specs.Tests.{is_surprise_removed};
ghost use Rattle.pnp_machine.specs.Machines.{IsDone};
ghost use Rattle.pnp_machine.specs.TaskLists.{task_of};
ghost use Rattle.pnp_machine.specs.declared.tasks.Duty.TheVariants as duties;

use crate::devices::Devices;
use crate::events::refusal;
use crate::listing::{is_started, is_surprise_removed};
use crate::machine::Machine;
use crate::tasks::{Duty, Tasks};
use device_ids::{InstancePath, WantOfMemory};
use driver_rack::Drivers;
use pnp_labels::{Deed, DevState, EventWord, Label, OpKind, Reason};

impl Devices {
    /// How many handles to a device are open. It takes no memory.
    pub(crate) fn handles_to(&self, serial: u64) -> u64
        ensures count { result ≡ count_of self.now.handles serial }
        ensures handle { find (is_handle_of serial) self.now.handles ≡ handle_with serial result }
        ensures there { is_open self.now.handles serial ≡ nat_lt 0 result }
    {
        self.handles.count(serial)
    }

    /// One more handle to a device is open.
    pub(crate) fn open(&mut self, serial: u64) -> Result<(), WantOfMemory>
        ensures opened { OnOk result (self.new ≡ record self.old { handles = opened serial self.old.handles }) }
        ensures err { OnErr result (self.new ≡ self.old) }
    {
        self.handles.add_one(serial)
    }

    /// One handle less to a device is open. Condition: one is. It takes no memory.
    pub(crate) fn close(&mut self, serial: u64)
        requires { IsTrue (is_open self.old.handles serial) }
        ensures { self.new ≡ record self.old { handles = closed_with serial self.old.handles (nat_lt 1 (count_of self.old.handles serial)) } }
    {
        self.handles.drop_one(serial);
    }
}

/// Whether a device is to be finished as one of so many handles to it is closed: it was the last one, and the device was told
/// that it has gone.
fn is_due(count: u64, state: DevState) -> bool
    ensures { result ≡ (not (nat_lt 1 count) && is_surprise_removed state) }
{
    count <= 1 && is_surprise_removed(state)
}

/// A device is to be finished, if it is due. Condition: there is room for a task. It takes no memory.
fn finish_if(tasks: &mut Tasks, serial: u64, due: bool)
    requires { 0 < tasks.old.room }
    ensures { tasks.new.tasks ≡ (if due then tasks.old.tasks ++ task_of (duties.Begin OpKind.Finish, serial) ∷ [] else tasks.old.tasks) }
{
    if due {
        tasks.append(Duty::Begin(OpKind::Finish), serial);
    }
}

impl<R: Drivers> Machine<R> {
    /// A handle to a device is opened.
    pub(crate) fn open(&mut self, path: &InstancePath) -> Result<Label, WantOfMemory>
        ensures done { IfOk result (λ label. IsDone (happens self.old (Event.OpenHandle path.now)) label self.new) }
        ensures err { OnErr result (self.new ≡ self.old) }
    {
        let word = EventWord::HandleOpen;
        let Some(serial) = self.devices.tree().find(path) else {
            return Ok(refusal(word, Reason::NoDevice));
        };
        if serial == 0 {
            return Ok(refusal(word, Reason::RootStays));
        }
        if self.operation.is_some() {
            return Ok(refusal(word, Reason::Busy));
        }
        if !is_started(self.devices.tree().at(serial).state) {
            return Ok(refusal(word, Reason::NotStarted));
        }
        let path = self.own_path(serial)?;
        self.devices.open(serial)?;
        Ok(Label::Did(Deed::HandleOpened { path }))
    }

    /// A handle to a device is closed; where it was the last one of a device that was told that it has gone, the device is
    /// to be finished.
    pub(crate) fn close(&mut self, path: &InstancePath) -> Result<Label, WantOfMemory>
        ensures done { IfOk result (λ label. IsDone (happens self.old (Event.CloseHandle path.now)) label self.new) }
        ensures err { OnErr result (self.new ≡ self.old) }
    {
        let word = EventWord::HandleClose;
        let Some(serial) = self.devices.tree().find(path) else {
            return Ok(refusal(word, Reason::NoDevice));
        };
        let count = self.devices.handles_to(serial);
        if count == 0 {
            return Ok(refusal(word, Reason::NoHandle));
        }
        let path = self.own_path(serial)?;
        self.tasks.make_room()?;
        let due = is_due(count, self.devices.tree().at(serial).state);
        self.devices.close(serial);
        finish_if(&mut self.tasks, serial, due);
        Ok(Label::Did(Deed::HandleClosed { path }))
    }
}
