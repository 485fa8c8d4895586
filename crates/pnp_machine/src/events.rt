ghost use Rattle.std.specs.Prelude.{◌≡◌, ◌<◌, ◌^◌, IfOk, OnErr};
ghost use Rattle.pnp_labels.specs.declared.event.Event.TheVariants as Event;
ghost use Rattle.pnp_labels.specs.declared.label.Label.TheVariants as Label;
ghost use Rattle.pnp_model.specs.Events.{happens, answer_of};
ghost use Rattle.pnp_machine.specs.Machines.{IsDone, IsAnswered};

use crate::machine::Machine;
use crate::step_operation::list_again;
use device_ids::{IdList, InstancePath, Text, WantOfMemory};
use device_stack::{driver_name, shown_of};
use driver_rack::{Drivers, NameError, TeachError};
use pnp_labels::{Answer, Deed, DriverKind, Event, EventWord, Label, Minor, Reason, Rule};
use resource_reqs::Reqs;
use script_bus::{PlugError, PullError};
use std::alloc::AllocError;

/// The label of an event that is refused.
pub(crate) fn refusal(word: EventWord, reason: Reason) -> Label
    ensures { result ≡ Label.Refused word reason }
{
    Label::Refused { word, reason }
}

/// The answer that a completion gives.
fn answer_of(ok: bool) -> Answer
    ensures { result ≡ answer_of ok }
{
    if ok { Answer::Ok } else { Answer::Fail }
}

impl<R: Drivers> Machine<R> {
    /// A device arrives in the world; where its parent has a node, that node is to be listed.
    fn plug(
        &mut self,
        parent: &InstancePath,
        path: InstancePath,
        hw: IdList,
        compat: IdList,
        reqs: Reqs,
    ) -> Result<Label, WantOfMemory>
        requires { self.old.next_born < 2 ^ 63 }
        ensures done { IfOk result (λ label. IsDone (happens self.old (Event.Plug parent.now path hw compat reqs)) label self.new) }
        ensures err { OnErr result (self.new ≡ self.old) }
    {
        let own = path.text(self.alloc)?;
        self.tasks.make_room()?;
        let over = self.devices.node_of_device(parent);
        let word = EventWord::Plug;
        match self.devices.plug(parent, path, hw, compat, reqs) {
            Ok(_) => {
                list_again(&mut self.tasks, over);
                Ok(Label::Did(Deed::Plugged { path: own }))
            }
            Err(PlugError::NoParent) => Ok(refusal(word, Reason::NoParent)),
            Err(PlugError::SameId) => Ok(refusal(word, Reason::SameId)),
            Err(PlugError::WorldFull) => Ok(refusal(word, Reason::WorldFull)),
            Err(PlugError::WantOfMemory) => Err(AllocError),
        }
    }

    /// A device goes, with all below it; where its parent has a node, that node is to be listed.
    fn pull(&mut self, path: &InstancePath) -> Result<Label, WantOfMemory>
        ensures done { IfOk result (λ label. IsDone (happens self.old (Event.Pull path.now)) label self.new) }
        ensures err { OnErr result (self.new ≡ self.old) }
    {
        let word = EventWord::Pull;
        let Some(own) = self.devices.path_in_world(path) else {
            return Ok(refusal(word, Reason::NoDevice));
        };
        let own = own.text(self.alloc)?;
        self.tasks.make_room()?;
        match self.devices.pull(path) {
            Ok(over) => {
                list_again(&mut self.tasks, over);
                Ok(Label::Did(Deed::Pulled { path: own }))
            }
            Err(PullError::NoDevice) => Ok(refusal(word, Reason::NoDevice)),
            Err(PullError::RootStays) => Ok(refusal(word, Reason::RootStays)),
        }
    }

    /// A driver of the rack gets a name.
    fn name(&mut self, name: Text, kind: DriverKind) -> Result<Label, WantOfMemory>
        ensures done { IfOk result (λ label. IsDone (happens self.old (Event.Name name kind)) label self.new) }
        ensures err { OnErr result (self.new ≡ self.old) }
    {
        let word = EventWord::Name;
        match self.rack.name(kind, &name) {
            Ok(_) => Ok(Label::Did(Deed::Named { driver: name })),
            Err(NameError::SameName) => Ok(refusal(word, Reason::SameName)),
            Err(NameError::RackEmpty) => Ok(refusal(word, Reason::RackEmpty)),
            Err(NameError::WantOfMemory) => Err(AllocError),
        }
    }

    /// A named driver learns a rule.
    fn teach(&mut self, name: &Text, rule: Rule) -> Result<Label, WantOfMemory>
        ensures done { IfOk result (λ label. IsDone (happens self.old (Event.Teach name.now rule)) label self.new) }
        ensures err { OnErr result (self.new ≡ self.old) }
    {
        let word = EventWord::Teach;
        let Some(number) = self.rack.find(name) else {
            return Ok(refusal(word, Reason::NoDriver));
        };
        let driver = driver_name(self.alloc, &self.rack, number)?;
        match self.rack.teach(number, rule) {
            Ok(()) => Ok(Label::Did(Deed::Taught { driver })),
            Err(TeachError::NotTeachable) => Ok(refusal(word, Reason::NotTeachable)),
            Err(TeachError::BookFull) => Ok(refusal(word, Reason::BookFull)),
        }
    }

    /// Whether a request of the minor waited at the device for this answer, which it got.
    fn answer(&mut self, serial: u64, minor: Minor, ok: bool) -> bool
        ensures { IsAnswered self.old serial minor ok result self.new }
    {
        if let Some(operation) = &mut self.operation
            && operation.complete(serial, minor, ok)
        {
            return true;
        }
        self.starts.complete(serial, minor, ok)
    }

    /// The request of a minor that waits at the device of a path gets its answer.
    fn complete(
        &mut self,
        path: &InstancePath,
        minor: Minor,
        ok: bool,
    ) -> Result<Label, WantOfMemory>
        ensures done { IfOk result (λ label. IsDone (happens self.old (Event.Complete path.now minor ok)) label self.new) }
        ensures err { OnErr result (self.new ≡ self.old) }
    {
        let word = EventWord::Complete;
        let tree = self.devices.tree();
        let Some(serial) = tree.find(path) else {
            return Ok(refusal(word, Reason::NoSuchRequest));
        };
        let Some(node) = tree.node(serial) else {
            unreachable!()
        };
        let path = node.path.text(self.alloc)?;
        let shown = shown_of(minor, answer_of(ok));
        if self.answer(serial, minor, ok) {
            Ok(Label::Did(Deed::Completed { path, minor, shown }))
        } else {
            Ok(refusal(word, Reason::NoSuchRequest))
        }
    }

    /// An event happens, as the machine's definition says; a refusal changes nothing and its label names the reason. The
    /// machine knows no clients: what they ask is refused.
    /// Condition: fewer than 2^63 devices were born. After want of memory all is as before.
    pub(crate) fn apply(&mut self, event: Event) -> Result<Label, WantOfMemory>
        requires { self.old.next_born < 2 ^ 63 }
        ensures done { IfOk result (λ label. IsDone (happens self.old event) label self.new) }
        ensures err { OnErr result (self.new ≡ self.old) }
    {
        match event {
            Event::Plug {
                parent,
                path,
                hw,
                compat,
                reqs,
            } => self.plug(&parent, path, hw, compat, reqs),
            Event::Pull { path } => self.pull(&path),
            Event::Name { name, kind } => self.name(name, kind),
            Event::Teach { name, rule } => self.teach(&name, rule),
            Event::Disable { path } => self.disable(&path),
            Event::Enable { path } => self.enable(&path),
            Event::Eject { path } => self.eject(&path),
            Event::Relate {
                kind,
                owner,
                member,
            } => self.relate(kind, &owner, &member),
            Event::Reserve { res } => self.reserve(res),
            Event::Complete { path, minor, ok } => self.complete(&path, minor, ok),
            Event::Window { path, res } => self.window(&path, res),
            Event::Change { path, reqs } => self.change(&path, reqs),
            Event::OpenHandle { path } => self.open(&path),
            Event::CloseHandle { path } => self.close(&path),
            Event::Watch { .. } => Ok(refusal(EventWord::Watch, Reason::NoDevice)),
            Event::Unwatch { .. } => Ok(refusal(EventWord::Unwatch, Reason::NoDevice)),
        }
    }
}
