ghost use Rattle.std.specs.Prelude.{◌≡◌, ◌<◌, ◌≤◌, ◌^◌, ℕ, IfOk, OnOk, OnErr, List, length};
ghost use Rattle.pnp_model.specs.Runs.{opening};
ghost use Rattle.free_model.specs.Frees.{with_rack};
ghost use Rattle.start_sequence.specs.Begins.{settings_of};
ghost use Rattle.pnp_machine.specs.Machines.{Moves};
ghost use Rattle.pnp_machine.specs.Managers.{IfQuiet, IsOfRun};
ghost use Rattle.pnp_machine.specs.Ids.{AreFewIds};
ghost use Rattle.inf_reader.specs.declared.parts.Inf.{Inf};

use crate::devices::Devices;
use crate::disabled::DisabledPaths;
use crate::manager::Moved;
use crate::operation::Operation;
use crate::starts::Starts;
use crate::tasks::{Duty, Tasks};
use crate::turn::Turn;
use device_ids::WantOfMemory;
use driver_rack::Drivers;
use inf_reader::Inf;
use std::alloc::Global;
use std::marker::Model;
use std::mem;

/// The machine between two steps. A contract sees its whole state.
pub(crate) struct Machine<R: Drivers> {
    pub(crate) alloc: Global,
    pub(crate) devices: Devices,
    pub(crate) rack: R,
    pub(crate) disabled: DisabledPaths,
    pub(crate) starts: Starts,
    pub(crate) operation: Option<Operation>,
    pub(crate) tasks: Tasks,
}

impl<R: Drivers> Drop for Machine<R> {
    fn drop(self) {
        let Machine {
            alloc: _,
            devices: _,
            rack: _,
            disabled: _,
            starts: _,
            operation: _,
            tasks: _,
        } = self;
    }
}

impl<R: Drivers> Model for Machine<R> {
    ghost use Rattle.std.specs.Prelude.{option_map};
    ghost use Rattle.pnp_model.specs.Records.{State};
    ghost use Rattle.pnp_machine.specs.Machines.{state_of};
    ghost use Rattle.pnp_machine.specs.Operations.{operation_of};

    ghost Value = { State };

    ghost view = { λ m. state_of m.devices (R.rows m.rack) m.disabled.paths m.starts.works (option_map operation_of m.operation) m.tasks.tasks };
}

impl<R: Drivers> Machine<R> {
    /// The root alone, with the drivers of a rack.
    pub(crate) fn new(alloc: Global, rack: R) -> Result<Machine<R>, WantOfMemory>
        ensures { IfOk result (λ m. m ≡ opening (R.rows rack)) }
    {
        Ok(Machine {
            alloc,
            devices: Devices::new(alloc)?,
            rack,
            disabled: DisabledPaths::new(alloc),
            starts: Starts::new(alloc),
            operation: None,
            tasks: Tasks::new(alloc),
        })
    }

    /// Whether no step is next. Condition: the state is one of a run.
    pub(crate) fn is_quiet(&self) -> bool
        requires { IsOfRun self.now }
        ensures { (infs : List Inf) (budget : ℕ) → IfQuiet result (settings_of infs budget) self.now }
    {
        matches!(self.turn(), Turn::Quiet)
    }

    /// The next step, exactly as the machine's definition says; Quiet comes exactly where none is next. Conditions: the state
    /// is one of a run, in which each node has at most 64 IDs of each sort, there are at most 64 INFs, the budget is at most
    /// 1,000,000, and fewer than 2^63 nodes joined. After want of memory all is as before, and no driver was asked.
    pub(crate) fn step(&mut self, infs: &[Inf], budget: u64) -> Result<Moved, WantOfMemory>
        requires run { IsOfRun self.old }
        requires ids { AreFewIds self.old }
        requires few { length infs.now ≤ 64 }
        requires budget { budget ≤ 1000000 }
        requires room { self.old.next_serial < 2 ^ 63 }
        ensures moves { IfOk result (λ moved. Moves (settings_of infs.now budget) self.old moved self.new) }
        ensures err { OnErr result (self.new ≡ self.old) }
    {
        match self.turn() {
            Turn::Quiet => Ok(Moved::Quiet),
            Turn::Operate => Ok(Moved::Label(self.operate(budget)?)),
            Turn::Act(serial) => Ok(Moved::Label(self.act(serial, budget)?)),
            Turn::Do(Duty::List, serial) => Ok(Moved::Label(self.list(serial)?)),
            Turn::Do(Duty::Start, serial) => Ok(Moved::Label(self.start(infs, serial)?)),
            Turn::Do(Duty::Begin(kind), serial) => Ok(Moved::Label(self.begin(kind, serial)?)),
        }
    }

    /// The root alone again, over another rack; the drivers that were there are handed back. After want of memory all is as before.
    pub(crate) fn restart(&mut self, rack: &mut R) -> Result<(), WantOfMemory>
        ensures opens { OnOk result (self.new ≡ opening (R.rows rack.old)) }
        ensures back { OnOk result (R.rows rack.new ≡ self.old.core.rack) }
        ensures err { OnErr result (self.new ≡ self.old) }
        ensures kept { OnErr result (R.rows rack.new ≡ R.rows rack.old) }
    {
        self.devices = Devices::new(self.alloc)?;
        self.disabled = DisabledPaths::new(self.alloc);
        self.starts = Starts::new(self.alloc);
        self.operation = None;
        self.tasks = Tasks::new(self.alloc);
        mem::swap(rack, &mut self.rack);
        Ok(())
    }

    /// Another rack takes the place of the drivers, which are handed back. It takes no memory.
    pub(crate) fn swap_rack(&mut self, rack: &mut R)
        ensures given { self.new ≡ with_rack (R.rows rack.old) self.old }
        ensures back { R.rows rack.new ≡ self.old.core.rack }
    {
        mem::swap(&mut self.rack, rack);
    }
}
