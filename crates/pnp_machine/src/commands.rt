ghost use Rattle.std.specs.Prelude.{◌≡◌, IfOk, OnErr, IsSome};
ghost use Rattle.pnp_labels.specs.declared.deed.Deed.TheVariants as Deed;
ghost use Rattle.pnp_labels.specs.declared.event.Event.TheVariants as Event;
ghost use Rattle.pnp_labels.specs.declared.label.Label.TheVariants as Label;
ghost use Rattle.pnp_model.specs.Cores.{node_at, path_of, serials_of};
ghost use Rattle.pnp_model.specs.Events.{happens};
ghost use Rattle.devnode_tree.specs.Trees.{Ascends};
ghost use Rattle.pnp_machine.specs.Machines.{IsDone};

use crate::events::refusal;
use crate::listing::is_started;
use crate::machine::Machine;
use crate::tasks::Duty;
use device_ids::{InstancePath, Text, WantOfMemory};
use driver_rack::Drivers;
use pnp_labels::{Deed, EventWord, Label, OpKind, Reason, RelKind};
use relations::RelateError;
use resource_reqs::{Reqs, Res};
use std::alloc::AllocError;

impl<R: Drivers> Machine<R> {
    /// A device is to be disabled.
    pub(crate) fn disable(&mut self, path: &InstancePath) -> Result<Label, WantOfMemory>
        ensures done { IfOk result (λ label. IsDone (happens self.old (Event.Disable path.now)) label self.new) }
        ensures err { OnErr result (self.new ≡ self.old) }
    {
        let word = EventWord::Disable;
        let tree = self.devices.tree();
        let Some(serial) = tree.find(path) else {
            return Ok(refusal(word, Reason::NoDevice));
        };
        if serial == 0 {
            return Ok(refusal(word, Reason::RootStays));
        }
        if self.disabled.has(path) {
            return Ok(refusal(word, Reason::AlreadyDisabled));
        }
        let path = self.own_path(serial)?;
        self.tasks.make_room()?;
        self.tasks.append(Duty::Begin(OpKind::Disable), serial);
        Ok(Label::Did(Deed::Disabled { path }))
    }

    /// A path is no longer disabled, and its device is to be started.
    pub(crate) fn enable(&mut self, path: &InstancePath) -> Result<Label, WantOfMemory>
        ensures done { IfOk result (λ label. IsDone (happens self.old (Event.Enable path.now)) label self.new) }
        ensures err { OnErr result (self.new ≡ self.old) }
    {
        let word = EventWord::Enable;
        let Some(own) = self.disabled.find(path) else {
            return Ok(refusal(word, Reason::NotDisabled));
        };
        let own = own.text(self.alloc)?;
        self.tasks.make_room()?;
        self.disabled.take(path);
        if let Some(serial) = self.devices.tree().find(path) {
            self.tasks.append(Duty::Start, serial);
        }
        Ok(Label::Did(Deed::Enabled { path: own }))
    }

    /// A device is to be ejected.
    pub(crate) fn eject(&mut self, path: &InstancePath) -> Result<Label, WantOfMemory>
        ensures done { IfOk result (λ label. IsDone (happens self.old (Event.Eject path.now)) label self.new) }
        ensures err { OnErr result (self.new ≡ self.old) }
    {
        let word = EventWord::Eject;
        let Some(serial) = self.devices.tree().find(path) else {
            return Ok(refusal(word, Reason::NoDevice));
        };
        if serial == 0 {
            return Ok(refusal(word, Reason::RootStays));
        }
        let path = self.own_path(serial)?;
        self.tasks.make_room()?;
        self.tasks.append(Duty::Begin(OpKind::Eject), serial);
        Ok(Label::Did(Deed::Ejected { path }))
    }

    /// A device that runs requires something else from now on.
    pub(crate) fn change(&mut self, path: &InstancePath, reqs: Reqs) -> Result<Label, WantOfMemory>
        ensures done { IfOk result (λ label. IsDone (happens self.old (Event.Change path.now reqs)) label self.new) }
        ensures err { OnErr result (self.new ≡ self.old) }
    {
        let word = EventWord::Change;
        let Some(serial) = self.devices.tree().find(path) else {
            return Ok(refusal(word, Reason::NoDevice));
        };
        if !self.devices.is_in_world(serial) {
            return Ok(refusal(word, Reason::NoDevice));
        }
        if serial == 0 {
            return Ok(refusal(word, Reason::RootStays));
        }
        if !is_started(self.devices.tree().at(serial).state) {
            return Ok(refusal(word, Reason::NotStarted));
        }
        let path = self.own_path(serial)?;
        self.tasks.make_room()?;
        self.devices.require(serial, reqs);
        self.tasks.append(Duty::Begin(OpKind::Change), serial);
        Ok(Label::Did(Deed::Changed { path }))
    }

    /// The path of a node, as the tree spells it.
    pub(crate) fn own_path(&self, serial: u64) -> Result<Text, WantOfMemory>
        requires { IsSome (node_at serial self.now.core.nodes) }
        ensures path { IfOk result (λ path. path ≡ path_of (node_at serial self.now.core.nodes)) }
        ensures order { Ascends 0 (serials_of self.now.core.nodes) }
    {
        let node = self.devices.tree().at(serial);
        node.path.text(self.alloc)
    }

    /// The label of a new relation.
    fn related(&self, kind: RelKind, owner: u64, member: u64) -> Result<Label, WantOfMemory>
        requires owner { IsSome (node_at owner self.now.core.nodes) }
        requires member { IsSome (node_at member self.now.core.nodes) }
        ensures label { IfOk result (λ label. label ≡ Label.Did (Deed.Related kind (path_of (node_at owner self.now.core.nodes)) (path_of (node_at member self.now.core.nodes)))) }
        ensures order { Ascends 0 (serials_of self.now.core.nodes) }
    {
        let owner = self.own_path(owner)?;
        let member = self.own_path(member)?;
        Ok(Label::Did(Deed::Related {
            kind,
            owner,
            member,
        }))
    }

    /// A member is related to an owner.
    pub(crate) fn relate(
        &mut self,
        kind: RelKind,
        owner: &InstancePath,
        member: &InstancePath,
    ) -> Result<Label, WantOfMemory>
        ensures done { IfOk result (λ label. IsDone (happens self.old (Event.Relate kind owner.now member.now)) label self.new) }
        ensures err { OnErr result (self.new ≡ self.old) }
    {
        let word = EventWord::Relate;
        let tree = self.devices.tree();
        let (Some(owner), Some(member)) = (tree.find(owner), tree.find(member)) else {
            return Ok(refusal(word, Reason::NoDevice));
        };
        if self.operation.is_some() {
            return Ok(refusal(word, Reason::Busy));
        }
        let label = self.related(kind, owner, member)?;
        match self.devices.relate(kind, owner, member) {
            Ok(()) => Ok(label),
            Err(RelateError::SelfRelation) => Ok(refusal(word, Reason::SelfRelation)),
            Err(RelateError::SameRelation) => Ok(refusal(word, Reason::SameRelation)),
            Err(RelateError::RelationCycle) => Ok(refusal(word, Reason::RelationCycle)),
            Err(RelateError::NotStarted) => Ok(refusal(word, Reason::NotStarted)),
            Err(RelateError::WantOfMemory) => Err(AllocError),
        }
    }

    /// A range is reserved.
    pub(crate) fn reserve(&mut self, res: Res) -> Result<Label, WantOfMemory>
        ensures done { IfOk result (λ label. IsDone (happens self.old (Event.Reserve res)) label self.new) }
        ensures err { OnErr result (self.new ≡ self.old) }
    {
        let word = EventWord::Reserve;
        if self.operation.is_some() {
            return Ok(refusal(word, Reason::Busy));
        }
        if self.devices.is_in_use(&res) {
            return Ok(refusal(word, Reason::InUse));
        }
        self.devices.reserve(res)?;
        Ok(Label::Did(Deed::Reserved { res }))
    }

    /// A device of the world passes on only what lies in a range of its kind from now on.
    pub(crate) fn window(&mut self, path: &InstancePath, res: Res) -> Result<Label, WantOfMemory>
        ensures done { IfOk result (λ label. IsDone (happens self.old (Event.Window path.now res)) label self.new) }
        ensures err { OnErr result (self.new ≡ self.old) }
    {
        let word = EventWord::Window;
        let Some(own) = self.devices.path_in_world(path) else {
            return Ok(refusal(word, Reason::NoDevice));
        };
        let own = own.text(self.alloc)?;
        if let Some(reason) = self.devices.set_window(path, res)? {
            return Ok(refusal(word, reason));
        }
        Ok(Label::Did(Deed::Windowed { path: own, res }))
    }
}
