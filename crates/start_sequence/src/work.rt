ghost use Rattle.std.specs.Prelude.{◌≡◌, option_map};
ghost use Rattle.pnp_model.specs.Machine.{phase_walk};
ghost use Rattle.pnp_model.specs.Walks.{walk_of};
ghost use Rattle.pnp_model.specs.Records.Phase.{Starting, Removing};
ghost use Rattle.pnp_labels.specs.declared.words.Minor.TheVariants.{Start, Remove};
ghost use Rattle.start_sequence.specs.Works.{minor_that_waits, phase_of, CompletedWork};

use crate::pending::Pending;
use device_stack::{NoSuchRequest, Walk};
use pnp_labels::{Minor, Problem};
use std::marker::Model;

/// Where the start of a device stands: this project's own.
pub(crate) enum Phase {
    /// These drivers are still to be asked to add it.
    Adding(Pending),
    /// Resources are to be found for it.
    Searching,
    /// It is being started.
    Starting(Walk),
    /// Its drivers are being removed.
    Removing(Walk),
    /// It is to get this problem.
    Due(Problem),
}

impl Drop for Phase {
    fn drop(self) {
        match self {
            Phase::Adding(_) => {}
            Phase::Searching => {}
            Phase::Starting(_) => {}
            Phase::Removing(_) => {}
            Phase::Due(_) => {}
        }
    }
}

/// The start of one device, from the choice of its drivers to the end of the request that starts it, or to the end
/// of the request that removes them (Oney, on AddDevice and IRP_MN_START_DEVICE; that each step is one of the
/// machine's is this project's own). A contract sees the device's serial and where the start stands.
pub struct StartWork {
    pub(crate) serial: u64,
    pub(crate) phase: Phase,
}

impl Drop for StartWork {
    fn drop(self) {
        let StartWork {
            serial: _,
            phase: _,
        } = self;
    }
}

impl Model for StartWork {
    ghost use Rattle.pnp_model.specs.Records.{Activity};
    ghost use Rattle.start_sequence.specs.Works.{phase_of};

    ghost Value = { Activity };

    ghost view = { λ w. record { serial = w.serial; phase = phase_of w.phase } };
}

impl StartWork {
    /// A start that stands before the request that starts the device.
    pub fn resume(serial: u64) -> StartWork
        ensures { result ≡ record { serial = serial; phase = Starting (walk_of Start) } }
    {
        let phase = Phase::Starting(Walk::begin(Minor::Start));
        StartWork { serial, phase }
    }

    /// A start that stands before the request that removes the device's drivers.
    pub fn undo(serial: u64) -> StartWork
        ensures { result ≡ record { serial = serial; phase = Removing (walk_of Remove) } }
    {
        let phase = Phase::Removing(Walk::begin(Minor::Remove));
        StartWork { serial, phase }
    }

    /// The device.
    pub fn serial(&self) -> u64
        ensures { result ≡ self.now.serial }
    {
        self.serial
    }

    /// The start goes on from this phase.
    pub(crate) fn enter(&mut self, phase: Phase)
        ensures { self.new ≡ record self.old { phase = phase_of phase } }
    {
        self.phase = phase;
    }

    /// The request that is on its way through the device's drivers; none exactly where none is.
    pub fn walk(&self) -> Option<&Walk>
        ensures { option_map (λ w. w.now.walk) result ≡ phase_walk self.now.phase }
    {
        match &self.phase {
            Phase::Starting(walk) | Phase::Removing(walk) => Some(walk),
            _ => None,
        }
    }

    /// The request that waits for a driver; none exactly where none waits.
    pub fn waits(&self) -> Option<Minor>
        ensures { result ≡ minor_that_waits self.now.phase }
    {
        match &self.phase {
            Phase::Starting(walk) | Phase::Removing(walk) => walk.waiting_minor(),
            _ => None,
        }
    }

    /// The driver at which the request waits completes it: Ok, or Fail. `NoSuchRequest` exactly where none waits;
    /// then nothing changes. It takes no memory.
    #[tactic(auto, using(crate::proofs::Completing::completed_start, crate::proofs::Completing::completed_remove))]
    pub fn complete(&mut self, ok: bool) -> Result<(), NoSuchRequest>
        ensures { CompletedWork result self.old ok self.new }
    {
        match &mut self.phase {
            Phase::Starting(walk) => walk.complete_waiting(ok),
            Phase::Removing(walk) => walk.complete_waiting(ok),
            _ => Err(NoSuchRequest),
        }
    }
}
