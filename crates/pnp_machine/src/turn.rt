ghost use Rattle.pnp_machine.specs.Machines.{IsTurn};

use crate::machine::Machine;
use crate::tasks::Duty;
use driver_rack::Drivers;

/// Which step is next: this project's own.
#[derive(Clone, Copy, PartialEq, Eq)]
pub(crate) enum Turn {
    /// None.
    Quiet,
    /// That of the operation that runs.
    Operate,
    /// That of the start of this device.
    Act(u64),
    /// That of the first task.
    Do(Duty, u64),
}

impl<R: Drivers> Machine<R> {
    /// Which step is next: of the operation that runs, which may wait; or of the lowest start that does not wait; or of the
    /// first task, which waits if it begins an operation and a device is being started. It takes no memory.
    pub(crate) fn turn(&self) -> Turn
        ensures { IsTurn result self.now }
    {
        if let Some(operation) = &self.operation {
            return match operation.waits() {
                Some(_) => Turn::Quiet,
                None => Turn::Operate,
            };
        }
        if let Some(serial) = self.starts.first_ready() {
            return Turn::Act(serial);
        }
        match self.tasks.first() {
            None => Turn::Quiet,
            Some((Duty::Begin(_), _)) if !self.starts.works().is_empty() => Turn::Quiet,
            Some((duty, serial)) => Turn::Do(duty, serial),
        }
    }
}
