ghost use Rattle.std.specs.Prelude.{◌≡◌, ◌==◌, slice_get, option_map};
ghost use Rattle.pnp_model.specs.Tests.{has, is_eject};
ghost use Rattle.pnp_model.specs.Records.{Course, course_of};
ghost use Rattle.pnp_model.specs.Removals.{finish_on, cancel_on};
ghost use Rattle.device_stack.specs.Waiting.{minor_of};
ghost use Rattle.operation_frame.specs.Steps.{Completed};
ghost use Rattle.query_remove.specs.Stages.{kind_by, finishing};
ghost use Rattle.query_remove.specs.Parts.{is_settling};

use device_ids::Text;
use device_stack::{NoSuchRequest, Walk};
use devnode_tree::Tree;
use operation_frame::{Finish, SerialQueue, finish_of};
use pnp_labels::{Minor, OpKind};
use relations::SerialSet;
use std::marker::Model;

/// What is done with the device that is next: this project's own.
#[derive(Clone, Copy, PartialEq, Eq)]
pub(crate) enum Stage {
    /// It is asked next, or refuses unasked.
    Next,
    /// It is asked whether its drivers may be removed.
    Asking,
    /// It refused, and is told that it stays.
    TakingBack,
    /// It agreed, and is told that it stays.
    Cancelling,
    /// Its drivers are being removed.
    Removing,
    /// It has no drivers: it leaves or remains.
    Settling,
    /// None is next.
    Ending,
}

/// A removal in order, with veto: a device is disabled or ejected (the driver kit, IRP_MN_QUERY_REMOVE_DEVICE and
/// IRP_MN_REMOVE_DEVICE; that each step is one of the machine's is this project's own). A contract sees the record of
/// where it stands.
pub struct Removal {
    /// The device is ejected, and not disabled.
    pub(crate) ejects: bool,
    pub(crate) target: u64,
    pub(crate) path: Text,
    pub(crate) set: SerialSet,
    pub(crate) ejecting: SerialSet,
    pub(crate) todo: SerialQueue,
    pub(crate) agreed: SerialQueue,
    pub(crate) refused: SerialQueue,
    pub(crate) stage: Stage,
    pub(crate) walk: Walk,
}

impl Drop for Removal {
    fn drop(self) {
        let Removal {
            ejects: _,
            target: _,
            path: _,
            set: _,
            ejecting: _,
            todo: _,
            agreed: _,
            refused: _,
            stage: _,
            walk: _,
        } = self;
    }
}

impl Model for Removal {
    ghost use Rattle.std.specs.Prelude.{None, []};
    ghost use Rattle.resource_reqs.specs.Spelling.Answer.{no_fit};
    ghost use Rattle.pnp_model.specs.Records.{Job};
    ghost use Rattle.query_remove.specs.Stages.{kind_by, stage_of, walk_at};

    ghost Value = { Job };

    ghost view = { λ r. record { kind = kind_by r.ejects; target = r.target; path = r.path; wanted = None; set = r.set; ejecting = r.ejecting; told = []; todo = r.todo; agreed = r.agreed; refused = r.refused; behind = []; found = no_fit; stage = stage_of r.stage; walk = walk_at r.stage r.walk.walk } };
}

impl Removal {
    /// The request that waits for a driver; none exactly where none waits.
    pub fn waits(&self) -> Option<Minor>
        ensures { result ≡ minor_of self.now.walk }
    {
        match self.stage {
            Stage::Next | Stage::Settling | Stage::Ending => None,
            _ => self.walk.waiting_minor(),
        }
    }

    /// Whether the device that is next is settled with the next step: it leaves or remains.
    pub fn settles(&self) -> bool
        ensures settles { result ≡ is_settling self.now.stage }
        ensures course { course_of self.now.kind ≡ Course.Removing }
    {
        matches!(&self.stage, Stage::Settling)
    }

    /// The driver at which the request waits completes it: Ok, or Fail. `NoSuchRequest` exactly where none waits; then
    /// nothing changes. It takes no memory.
    pub fn complete(&mut self, ok: bool) -> Result<(), NoSuchRequest>
        ensures { Completed result self.old ok self.new }
    {
        match self.stage {
            Stage::Next | Stage::Settling | Stage::Ending => Err(NoSuchRequest),
            _ => self.walk.complete_waiting(ok),
        }
    }

    /// The device that is next; none exactly where none is.
    pub fn first(&self) -> Option<u64>
        ensures { result ≡ slice_get self.now.todo 0 }
    {
        self.todo.get(0)
    }

    /// The request that is on its way through the drivers of the device that is next; none exactly where none is.
    pub fn walk(&self) -> Option<&Walk>
        ensures { option_map (λ w. w.now.walk) result ≡ self.now.walk }
    {
        match self.stage {
            Stage::Next | Stage::Settling | Stage::Ending => None,
            _ => Some(&self.walk),
        }
    }

    /// Whether a device is of those that are removed.
    pub(crate) fn removes(&self, serial: u64) -> bool
        ensures { result ≡ has self.now.set serial }
    {
        self.set.has(serial)
    }

    /// Whether a device is the one that is disabled or ejected.
    pub fn is_target(&self, serial: u64) -> bool
        ensures { result ≡ (serial == self.now.target) }
    {
        serial == self.target
    }

    /// Whether the device is ejected.
    pub(crate) fn is_eject(&self) -> bool
        ensures { result ≡ is_eject self.now.kind }
    {
        self.ejects
    }

    /// The device that is next is finished: where it has drivers they are removed first, and where none is next the end is.
    pub(crate) fn finish_next(&mut self, tree: &Tree)
        ensures { self.new ≡ finish_on tree.now.nodes self.old self.old.todo }
    {
        self.stage = finishing(finish_of(tree, &self.todo));
        self.walk = Walk::begin(Minor::Remove);
    }

    /// The device that is next is told that it stays, and where none is next the end is.
    pub(crate) fn cancel_next(&mut self)
        ensures { self.new ≡ cancel_on self.old self.old.todo }
    {
        if self.todo.get(0).is_some() {
            self.stage = Stage::Cancelling;
            self.walk = Walk::begin(Minor::CancelRemove);
        } else {
            self.stage = Stage::Ending;
        }
    }
}

/// Whether a kind is that of an eject.
pub(crate) fn is_eject(kind: OpKind) -> bool
    ensures { result ≡ is_eject kind }
{
    matches!(kind, OpKind::Eject)
}

/// The kind of a removal by whether it ejects.
pub(crate) fn kind_by(ejects: bool) -> OpKind
    ensures { result ≡ kind_by ejects }
{
    if ejects {
        OpKind::Eject
    } else {
        OpKind::Disable
    }
}

/// The word for how a device is finished.
fn finishing(finish: Finish) -> Stage
    ensures { result ≡ finishing finish }
{
    match finish {
        Finish::Removing => Stage::Removing,
        Finish::Settling => Stage::Settling,
        Finish::Ending => Stage::Ending,
    }
}
