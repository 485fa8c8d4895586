ghost use Rattle.std.specs.Prelude.{◌≡◌, ◌≤◌, IfOk, OnErr, List};
ghost use Rattle.inf_reader.specs.declared.parts.Inf.{Inf};
ghost use Rattle.pnp_model.specs.Machine.{Steps};
ghost use Rattle.start_sequence.specs.Begins.{settings_of};
ghost use Rattle.pnp_machine.specs.Machines.{IsTurn};
ghost use Rattle.pnp_machine.specs.Managers.{IsOfRun};
ghost use Rattle.pnp_machine.specs.declared.turn.Turn.TheVariants as turns;

use crate::machine::Machine;
use crate::tasks::Duty;
use device_ids::WantOfMemory;
use driver_rack::Drivers;
use pnp_labels::{Label, OpKind};
use start_sequence::StartStep;

impl<R: Drivers> Machine<R> {
    /// The next step of the lowest start that does not wait, which is that of this device. After want of memory all is as
    /// before, and no driver was asked.
    pub(crate) fn act(&mut self, serial: u64, budget: u64) -> Result<Label, WantOfMemory>
        requires run { IsOfRun self.old }
        requires turn { IsTurn (turns.Act serial) self.old }
        requires budget { budget ≤ 1000000 }
        ensures done { IfOk result (λ label. (infs : List Inf) → Steps (settings_of infs budget) self.old label self.new) }
        ensures err { OnErr result (self.new ≡ self.old) }
    {
        self.tasks.make_room()?;
        let devices = &mut self.devices;
        match self
            .starts
            .act(self.alloc, serial, devices, &mut self.rack, budget)?
        {
            StartStep::Did(label) => Ok(label),
            StartStep::Needs(label) => {
                self.tasks.append(Duty::Begin(OpKind::Rebalance), serial);
                Ok(label)
            }
            StartStep::Up(label) => {
                self.tasks.append(Duty::List, serial);
                Ok(label)
            }
            StartStep::Over(label) => Ok(label),
        }
    }
}
