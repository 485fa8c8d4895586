ghost use Rattle.std.specs.Prelude.{◌≡◌, [], option_map};
ghost use Rattle.pnp_model.specs.Cores.{node_at};
ghost use Rattle.pnp_model.specs.Machine.{due, is_begin};
ghost use Rattle.pnp_model.specs.States.{drop_task};
ghost use Rattle.pnp_model.specs.Tasks.{begin_step};
ghost use Rattle.pnp_machine.specs.Dues.{beginning_of};

use crate::machine::Machine;
use crate::tasks::Duty;
use driver_rack::Drivers;
use pnp_labels::OpKind;

impl<R: Drivers> Machine<R> {
    /// Whether the task of an operation begins it, and is not skipped. Condition: no device is being started. It takes no
    /// memory.
    fn begins(&self, kind: OpKind, serial: u64) -> bool
        requires { self.now.activities ≡ [] }
        ensures { result ≡ is_begin (begin_step self.now kind serial (node_at serial self.now.core.nodes)).label }
    {
        if self.devices.tree().node(serial).is_none() {
            return false;
        }
        match kind {
            OpKind::Rebalance => self.can_rebalance(serial),
            OpKind::Disable => !self.is_disabled(serial),
            OpKind::Eject => true,
            OpKind::Surprise => !self.was_told(serial),
            OpKind::Finish => self.is_ready(serial),
            OpKind::Change => self.can_change(serial),
        }
    }

    /// The operation that the next step begins, and for which device; none exactly where it begins none. It takes no memory.
    pub(crate) fn due(&self) -> Option<(OpKind, u64)>
        ensures { option_map beginning_of result ≡ due self.now }
    {
        if self.operation.is_some() || !self.starts.works().is_empty() {
            return None;
        }
        match self.tasks.first()? {
            (Duty::Begin(kind), serial) if self.begins(kind, serial) => Some((kind, serial)),
            (Duty::Begin(_) | Duty::List | Duty::Start, _) => None,
        }
    }

    /// The first task is dropped, and all else stays. It takes no memory.
    pub(crate) fn drop_due(&mut self)
        ensures { self.new ≡ drop_task self.old }
    {
        self.tasks.drop_first();
    }
}
