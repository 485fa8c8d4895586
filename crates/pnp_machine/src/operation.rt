ghost use Rattle.std.specs.Prelude.{◌≡◌, true, IfOk, option_map, slice_get};
ghost use Rattle.pnp_model.specs.Events.{operation_waits, completed, answer_of};
ghost use Rattle.pnp_model.specs.Machine.{is_waiting};
ghost use Rattle.pnp_model.specs.Records.{Course, course_of};
ghost use Rattle.device_stack.specs.Waiting.{minor_of};
ghost use Rattle.pnp_machine.specs.Operations.{operation_of};
ghost use Rattle.pnp_machine.specs.Machines.{settled_path, CompletesOperation};

use crate::devices::Devices;
use device_ids::{InstancePath, WantOfMemory};
use device_stack::{NoSuchRequest, Walk};
use pnp_labels::Minor;
use query_remove::Removal;
use rebalance::Rebalance;
use std::alloc::Global;
use surprise_remove::{Finish, Surprise};

/// The operation that runs: this project's own.
pub(crate) enum Operation {
    /// Devices stop so that one more can have its resources.
    Rebalancing(Rebalance),
    /// A device is disabled or ejected.
    Removing(Removal),
    /// A device is gone from its bus.
    Surprising(Surprise),
    /// Devices that stayed behind when they had gone lose their drivers.
    Finishing(Finish),
}

impl Drop for Operation {
    fn drop(self) {
        match self {
            Operation::Rebalancing(_) => {}
            Operation::Removing(_) => {}
            Operation::Surprising(_) => {}
            Operation::Finishing(_) => {}
        }
    }
}

/// Where a removal settles the device for which it runs with its next step, the device's path, ready to be disabled.
pub(crate) fn settled_path(
    alloc: Global,
    devices: &Devices,
    removal: &Removal,
) -> Result<Option<InstancePath>, WantOfMemory>
    ensures course { course_of removal.now.kind ≡ Course.Removing }
    ensures path { IfOk result (λ path. path ≡ settled_path removal.now devices.now.tree.nodes) }
{
    if !removal.settles() {
        return Ok(None);
    }
    let Some(serial) = removal.first() else {
        return Ok(None);
    };
    match devices.tree().node(serial) {
        Some(node) if removal.is_target(node.serial) => Ok(Some(node.path.copy(alloc)?)),
        _ => Ok(None),
    }
}

impl Operation {
    /// The device of the request that is on its way, or of the step that is next.
    pub(crate) fn device(&self) -> Option<u64>
        ensures { result ≡ slice_get (operation_of self.now).todo 0 }
    {
        match self {
            Operation::Rebalancing(rebalance) => rebalance.first(),
            Operation::Removing(removal) => removal.first(),
            Operation::Surprising(surprise) => surprise.first(),
            Operation::Finishing(finish) => finish.current(),
        }
    }

    /// The request that is on its way through a device's drivers; none exactly where none is.
    pub(crate) fn walk(&self) -> Option<&Walk>
        ensures { option_map (λ w. w.now.walk) result ≡ (operation_of self.now).walk }
    {
        match self {
            Operation::Rebalancing(rebalance) => rebalance.walk(),
            Operation::Removing(removal) => removal.walk(),
            Operation::Surprising(surprise) => surprise.walk(),
            Operation::Finishing(finish) => finish.walk(),
        }
    }

    /// The request that waits for a driver; none exactly where none waits.
    pub(crate) fn waits(&self) -> Option<Minor>
        ensures { result ≡ minor_of (operation_of self.now).walk }
    {
        match self {
            Operation::Rebalancing(rebalance) => rebalance.waits(),
            Operation::Removing(removal) => removal.waits(),
            Operation::Surprising(surprise) => surprise.waits(),
            Operation::Finishing(finish) => finish.waits(),
        }
    }

    /// Whether a request of the minor waits at a device.
    fn waits_for(&self, minor: Minor, serial: u64) -> bool
        ensures { result ≡ operation_waits minor serial (operation_of self.now) }
    {
        self.device() == Some(serial) && self.waits() == Some(minor)
    }

    /// The driver at which the request waits completes it.
    fn answer(&mut self, ok: bool) -> Result<(), NoSuchRequest>
        ensures { is_waiting (operation_of self.old).walk ≡ true → operation_of self.new ≡ completed (answer_of ok) (operation_of self.old) }
    {
        match self {
            Operation::Rebalancing(rebalance) => rebalance.complete(ok),
            Operation::Removing(removal) => removal.complete(ok),
            Operation::Surprising(surprise) => surprise.complete(ok),
            Operation::Finishing(finish) => finish.complete(ok),
        }
    }

    /// Where a request of the minor waits at the device it gets its answer: Ok, or Fail. Whether one did is told. It takes
    /// no memory.
    pub(crate) fn complete(&mut self, serial: u64, minor: Minor, ok: bool) -> bool
        ensures { CompletesOperation (operation_waits minor serial (operation_of self.old)) (operation_of self.old) ok result (operation_of self.new) }
    {
        if !self.waits_for(minor, serial) {
            return false;
        }
        let _ = self.answer(ok);
        true
    }
}
