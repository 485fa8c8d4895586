ghost use Rattle.std.specs.Prelude.{◌≡◌, ◌<◌, ◌≤◌, IfOk, OnErr, List, None, option_map};
ghost use Rattle.inf_reader.specs.declared.parts.Inf.{Inf};
ghost use Rattle.pnp_labels.specs.Texts.{Text};
ghost use Rattle.pnp_model.specs.Machine.{Steps};
ghost use Rattle.pnp_model.specs.Records.{Activity, Driver};
ghost use Rattle.pnp_model.specs.States.{activity_at};
ghost use Rattle.start_sequence.specs.Begins.{settings_of};
ghost use Rattle.pnp_machine.specs.Devices as parts;
ghost use Rattle.pnp_machine.specs.Machines.{IsTurn, state_of, beside, beside_made, label_of, IsLabelOf, IsNoRoot, IsNew, tasks_over};
ghost use Rattle.pnp_machine.specs.Managers.{IsOfRun};
ghost use Rattle.pnp_machine.specs.Operations.{operation_of};
ghost use Rattle.pnp_machine.specs.Rebalanced.{rebalance_label, beside_rebalance};
ghost use Rattle.pnp_machine.specs.declared.turn.Turn.TheVariants as turns;

use crate::devices::Devices;
use crate::disabled::DisabledPaths;
use crate::machine::Machine;
use crate::operation::{Operation, settled_path};
use crate::starts::Starts;
use crate::tasks::{Duty, Tasks};
use device_ids::{InstancePath, WantOfMemory};
use driver_rack::Drivers;
use pnp_labels::{Label, OpKind, RemoveStep};
use rebalance::RebalanceStep;
use start_sequence::StartWork;

/// The children of a node are to be listed, if there is one. Condition: there is room. It takes no memory.
pub(crate) fn list_again(tasks: &mut Tasks, serial: Option<u64>)
    requires { 0 < tasks.old.room }
    ensures { tasks.new.tasks ≡ tasks_over serial tasks.old.tasks }
{
    if let Some(serial) = serial {
        tasks.append(Duty::List, serial);
    }
}

/// This operation runs from now on, or none; the one before is let go. It has a call of its own, so that what is let go is taken
/// apart here alone.
#[inline(never)]
pub(crate) fn set_operation(operation: &mut Option<Operation>, next: Option<Operation>)
    ensures { operation.new ≡ next }
{
    *operation = next;
}

/// What the machine does beside a step of an operation that removes devices: where a node left, the world may have another
/// device of its path; a path is disabled; the world loses who was ejected; or the operation is over. Conditions: there
/// is room, who is ejected is not the root, and a path that is disabled was not. It takes no memory.
fn apply_effect(
    devices: &mut Devices,
    disabled: &mut DisabledPaths,
    operation: &mut Option<Operation>,
    tasks: &mut Tasks,
    step: RemoveStep,
    settled: Option<InstancePath>,
) -> Label
    requires tasks { 0 < tasks.old.room }
    requires disabled { 0 < disabled.old.room }
    requires root { IsNoRoot step }
    requires new { IsNew step settled disabled.old.paths }
    ensures label { result ≡ label_of step }
    ensures state { (rack : List Driver) (works : List Activity) → state_of devices.new rack disabled.new.paths works (option_map operation_of operation.new) tasks.new.tasks ≡ beside step settled (state_of devices.old rack disabled.old.paths works (option_map operation_of operation.old) tasks.old.tasks) }
{
    match step {
        RemoveStep::Did(label) => label,
        RemoveStep::Left { label, path, born } => {
            list_again(tasks, devices.relisted(&path, born));
            label
        }
        RemoveStep::Disabled(label) => {
            if let Some(path) = settled {
                disabled.put(path);
            }
            label
        }
        RemoveStep::Ejected { label, path, born } => {
            devices.unplug(born);
            list_again(tasks, devices.relisted(&path, born));
            label
        }
        RemoveStep::Over(label) => {
            set_operation(operation, None);
            label
        }
    }
}

/// The label of a step of an operation that removes devices, once what the machine does beside it is done; most have nothing
/// beside them. Conditions: those of `apply_effect`, of a step that was made. It takes no memory; after want of memory all is as before.
fn after_step(
    devices: &mut Devices,
    disabled: &mut DisabledPaths,
    operation: &mut Option<Operation>,
    tasks: &mut Tasks,
    moved: Result<RemoveStep, WantOfMemory>,
    settled: Option<InstancePath>,
) -> Result<Label, WantOfMemory>
    requires tasks { 0 < tasks.old.room }
    requires disabled { 0 < disabled.old.room }
    requires root { IfOk moved (λ step. IsNoRoot step) }
    requires new { IfOk moved (λ step. IsNew step settled disabled.old.paths) }
    ensures label { IsLabelOf moved result }
    ensures state { (rack : List Driver) (works : List Activity) → state_of devices.new rack disabled.new.paths works (option_map operation_of operation.new) tasks.new.tasks ≡ beside_made moved settled (state_of devices.old rack disabled.old.paths works (option_map operation_of operation.old) tasks.old.tasks) }
{
    match moved {
        Ok(RemoveStep::Did(label)) => Ok(label),
        Ok(step) => Ok(apply_effect(devices, disabled, operation, tasks, step, settled)),
        Err(error) => Err(error),
    }
}

/// What the machine does beside a step of a rebalance: the device for which it ran starts or gives up, one that failed its
/// restart is gone, or the operation is over. Conditions: there is room, and the device does not start. It takes no memory.
fn apply_rebalance(
    operation: &mut Option<Operation>,
    starts: &mut Starts,
    tasks: &mut Tasks,
    step: RebalanceStep,
    target: u64,
) -> Label
    requires starts { 0 < starts.old.room }
    requires tasks { 0 < tasks.old.room }
    requires new { activity_at target starts.old.works ≡ None }
    ensures label { result ≡ rebalance_label step }
    ensures state { (devices : parts.Devices) (rack : List Driver) (disabled : List Text) → state_of devices rack disabled starts.new.works (option_map operation_of operation.new) tasks.new.tasks ≡ beside_rebalance step target (state_of devices rack disabled starts.old.works (option_map operation_of operation.old) tasks.old.tasks) }
{
    match step {
        RebalanceStep::Did(label) => label,
        RebalanceStep::FailedRestart { label, serial } => {
            tasks.put_first(Duty::Begin(OpKind::Surprise), serial);
            label
        }
        RebalanceStep::OverStart(label) => {
            set_operation(operation, None);
            starts.put(StartWork::resume(target));
            label
        }
        RebalanceStep::OverUndo(label) => {
            set_operation(operation, None);
            starts.put(StartWork::undo(target));
            label
        }
        RebalanceStep::Over(label) => {
            set_operation(operation, None);
            label
        }
    }
}

impl<R: Drivers> Machine<R> {
    /// The next step of the operation that runs. After want of memory all is as before, and no driver was asked.
    pub(crate) fn operate(&mut self, budget: u64) -> Result<Label, WantOfMemory>
        requires run { IsOfRun self.old }
        requires turn { IsTurn turns.Operate self.old }
        requires budget { budget ≤ 1000000 }
        ensures done { IfOk result (λ label. (infs : List Inf) → Steps (settings_of infs budget) self.old label self.new) }
        ensures err { OnErr result (self.new ≡ self.old) }
    {
        self.starts.make_room()?;
        self.disabled.make_room()?;
        self.tasks.make_room()?;
        let Machine {
            alloc,
            devices,
            rack,
            disabled,
            starts,
            operation,
            tasks,
        } = self;
        match operation {
            Some(Operation::Rebalancing(rebalance)) => {
                let step = devices.rebalance(*alloc, rebalance, rack, budget)?;
                let target = rebalance.target();
                Ok(apply_rebalance(operation, starts, tasks, step, target))
            }
            Some(Operation::Removing(removal)) => {
                let settled = settled_path(*alloc, devices, removal)?;
                let moved = devices.remove(*alloc, removal, rack);
                after_step(devices, disabled, operation, tasks, moved, settled)
            }
            Some(Operation::Surprising(surprise)) => {
                let in_world = devices.is_target_in_world(surprise);
                let moved = devices.surprise(*alloc, surprise, rack, in_world);
                after_step(devices, disabled, operation, tasks, moved, None)
            }
            Some(Operation::Finishing(finish)) => {
                let in_world = devices.is_current_in_world(finish);
                let moved = devices.finish(*alloc, finish, rack, in_world);
                after_step(devices, disabled, operation, tasks, moved, None)
            }
            None => unreachable!(),
        }
    }
}
