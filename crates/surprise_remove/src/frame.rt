ghost use Rattle.std.specs.Prelude.{◌≡◌, ◌==◌, slice_get, option_map};
ghost use Rattle.pnp_model.specs.Tests.{has};
ghost use Rattle.pnp_model.specs.Records.{Course, course_of};
ghost use Rattle.pnp_model.specs.Surprises.{finish_on, tell_on};
ghost use Rattle.operation_frame.specs.Queues.{all_after};
ghost use Rattle.device_stack.specs.Waiting.{minor_of};
ghost use Rattle.operation_frame.specs.Steps.{Completed};

use device_ids::Text;
use device_stack::{NoSuchRequest, Walk};
use operation_frame::SerialQueue;
use pnp_labels::Minor;
use relations::SerialSet;
use std::marker::Model;

/// What is done with the device that is next: this project's own.
#[derive(Clone, Copy, PartialEq, Eq)]
pub(crate) enum Stage {
    /// It is told that it is gone.
    Telling,
    /// It stays behind, or is finished.
    Next,
    /// Its drivers are being removed.
    Removing,
    /// It has no drivers: it leaves or remains.
    Settling,
    /// None is next.
    Ending,
}

/// A surprise removal, without veto: a device is gone from its bus (the driver kit, IRP_MN_SURPRISE_REMOVAL; that each step
/// is one of the machine's is this project's own). A contract sees the record of where it stands.
pub struct Surprise {
    pub(crate) target: u64,
    pub(crate) path: Text,
    pub(crate) set: SerialSet,
    /// Those of the set that were told before it began.
    pub(crate) told: SerialSet,
    /// Those that stayed behind, the first one first.
    pub(crate) behind: SerialSet,
    pub(crate) todo: SerialQueue,
    pub(crate) stage: Stage,
    pub(crate) walk: Walk,
}

impl Drop for Surprise {
    fn drop(self) {
        let Surprise {
            target: _,
            path: _,
            set: _,
            told: _,
            behind: _,
            todo: _,
            stage: _,
            walk: _,
        } = self;
    }
}

impl Model for Surprise {
    ghost use Rattle.std.specs.Prelude.{None, [], reverse};
    ghost use Rattle.resource_reqs.specs.Spelling.Answer.{no_fit};
    ghost use Rattle.pnp_labels.specs.declared.label.OpKind.{OpKind};
    ghost use Rattle.pnp_model.specs.Records.{Job};
    ghost use Rattle.surprise_remove.specs.Stages.{stage_of, walk_at};

    ghost Value = { Job };

    ghost view = { λ r. record { kind = OpKind.Surprise; target = r.target; path = r.path; wanted = None; set = r.set; ejecting = []; told = r.told; todo = r.todo; agreed = []; refused = []; behind = reverse r.behind; found = no_fit; stage = stage_of r.stage; walk = walk_at r.stage r.walk.walk } };
}

impl Surprise {
    /// The request that waits for a driver; none exactly where none waits.
    pub fn waits(&self) -> Option<Minor>
        ensures { result ≡ minor_of self.now.walk }
    {
        match self.stage {
            Stage::Next | Stage::Settling | Stage::Ending => None,
            _ => self.walk.waiting_minor(),
        }
    }

    /// The device that the bus has lost.
    pub fn target(&self) -> u64
        ensures target { result ≡ self.now.target }
        ensures course { course_of self.now.kind ≡ Course.Surprising }
    {
        self.target
    }

    /// The request that is on its way through the drivers of the device that is next; none exactly where none is.
    pub fn walk(&self) -> Option<&Walk>
        ensures { option_map (λ w. w.now.walk) result ≡ self.now.walk }
    {
        match self.stage {
            Stage::Next | Stage::Settling | Stage::Ending => None,
            _ => Some(&self.walk),
        }
    }

    /// The device that is next; none exactly where none is.
    pub fn first(&self) -> Option<u64>
        ensures { result ≡ slice_get self.now.todo 0 }
    {
        self.todo.get(0)
    }

    /// The driver at which the request waits completes it: Ok, or Fail. `NoSuchRequest` exactly where none waits; then
    /// nothing changes. It takes no memory.
    pub fn complete(&mut self, ok: bool) -> Result<(), NoSuchRequest>
        ensures { Completed result self.old ok self.new }
    {
        match self.stage {
            Stage::Next | Stage::Settling | Stage::Ending => Err(NoSuchRequest),
            _ => self.walk.complete_waiting(ok),
        }
    }

    /// Whether a device is of those that are gone.
    pub(crate) fn removes(&self, serial: u64) -> bool
        ensures { result ≡ has self.now.set serial }
    {
        self.set.has(serial)
    }

    /// Whether a device is the one that its bus has lost.
    pub(crate) fn is_target(&self, serial: u64) -> bool
        ensures { result ≡ (serial == self.now.target) }
    {
        serial == self.target
    }

    /// What comes next: the device that is next is finished or stays behind, and where there is none the end is.
    pub(crate) fn finish_next(&mut self)
        ensures { self.new ≡ finish_on self.old self.old.todo }
    {
        self.stage = match self.todo.get(0) {
            Some(_) => Stage::Next,
            None => Stage::Ending,
        };
    }

    /// The device that is next is told, and where there is none all are finished.
    pub(crate) fn tell_next(&mut self, all: SerialQueue)
        requires { all ≡ all_after self.old.set self.old.todo }
        ensures { self.new ≡ tell_on self.old self.old.todo }
    {
        if self.todo.fill(all) {
            return self.finish_next();
        }
        self.stage = Stage::Telling;
        self.walk = Walk::begin(Minor::SurpriseRemoval);
    }
}
