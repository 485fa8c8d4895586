ghost use Rattle.std.specs.Prelude.{◌≡◌, IfOk, OnErr, true};
ghost use Rattle.pnp_labels.specs.declared.label.Label.TheVariants as Label;
ghost use Rattle.pnp_model.specs.States.{node_of};
ghost use Rattle.pnp_model.specs.Tests.{is_started};
ghost use Rattle.notify_front.specs.Desks.{IsAnswered, IsFrontDone, front_of, is_of_client, machine_events};
ghost use Rattle.notify_front.specs.Fronts.{front_happens, watch_at, unwatch_at};

use crate::desk::Desk;
use crate::registration::Registration;
use device_ids::{InstancePath, Text, WantOfMemory};
use driver_rack::Drivers;
use pnp_labels::{Deed, DevState, Event, EventWord, Label, Reason};

/// The label of an event that is refused.
fn refusal(word: EventWord, reason: Reason) -> Label
    ensures { result ≡ Label.Refused word reason }
{
    Label::Refused { word, reason }
}

/// Whether a device with this state has started.
fn is_started(state: DevState) -> bool
    ensures { result ≡ is_started state }
{
    matches!(state, DevState::Started)
}

impl<R: Drivers> Desk<R> {
    /// A client is to be asked before a device is removed, and to hear of the end.
    pub(crate) fn watch(
        &mut self,
        client: Text,
        path: &InstancePath,
        agrees: bool,
    ) -> Result<Label, WantOfMemory>
        ensures done { IfOk result (λ label. IsAnswered (watch_at (front_of self.old) client agrees (node_of path.now self.old.manager.state.core.nodes)) label (front_of self.new)) }
        ensures same { self.new.manager ≡ self.old.manager }
        ensures err { OnErr result (self.new ≡ self.old) }
    {
        let word = EventWord::Watch;
        let Some(device) = self.manager.tree().find(path) else {
            return Ok(refusal(word, Reason::NoDevice));
        };
        if self.manager.busy() {
            return Ok(refusal(word, Reason::Busy));
        }
        let node = self.manager.tree().at(device);
        if !is_started(node.state) {
            return Ok(refusal(word, Reason::NotStarted));
        }
        if self.registrations.has(&client, device) {
            return Ok(refusal(word, Reason::SameWatch));
        }
        let name = client.copy(self.alloc)?;
        let own = node.path.text(self.alloc)?;
        let path = node.path.text(self.alloc)?;
        self.registrations.put(Registration {
            client,
            device,
            path,
            agrees,
        })?;
        Ok(Label::Did(Deed::Watched {
            client: name,
            path: own,
        }))
    }

    /// A client is to hear no more of a device.
    pub(crate) fn unwatch(
        &mut self,
        client: &Text,
        path: &InstancePath,
    ) -> Result<Label, WantOfMemory>
        ensures done { IfOk result (λ label. IsAnswered (unwatch_at (front_of self.old) client.now (node_of path.now self.old.manager.state.core.nodes)) label (front_of self.new)) }
        ensures same { self.new.manager ≡ self.old.manager }
        ensures err { OnErr result (self.new ≡ self.old) }
    {
        let word = EventWord::Unwatch;
        let Some(device) = self.manager.tree().find(path) else {
            return Ok(refusal(word, Reason::NoDevice));
        };
        if self.manager.busy() {
            return Ok(refusal(word, Reason::Busy));
        }
        if !self.registrations.has(client, device) {
            return Ok(refusal(word, Reason::NoWatch));
        }
        let node = self.manager.tree().at(device);
        let path = node.path.text(self.alloc)?;
        let name = client.copy(self.alloc)?;
        self.registrations.take(client, device);
        Ok(Label::Did(Deed::Unwatched { client: name, path }))
    }

    /// An event of a client happens, as the front's definition says: it changes the registrations alone. Condition: it is one of
    /// a client. It has a call of its own, so that any other event is handed on to the manager as it stands.
    #[inline(never)]
    pub(crate) fn apply_of_client(&mut self, event: Event) -> Result<Label, WantOfMemory>
        requires { is_of_client event ≡ true }
        ensures done { IfOk result (λ label. IsFrontDone (front_happens (front_of self.old) event) label (front_of self.new)) }
        ensures same { self.new.manager ≡ self.old.manager }
        ensures count { machine_events event self.old.manager.events ≡ self.old.manager.events }
        ensures err { OnErr result (self.new ≡ self.old) }
    {
        match event {
            Event::Watch {
                client,
                path,
                agrees,
            } => self.watch(client, &path, agrees),
            Event::Unwatch { client, path } => self.unwatch(&client, &path),
            _ => unreachable!(),
        }
    }
}
