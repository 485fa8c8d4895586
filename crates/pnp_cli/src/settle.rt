ghost use Rattle.std.specs.Prelude.{◌≡◌, ◌<◌, ◌≤◌, ◌^◌, [], OnOk, IsErrOf};
ghost use Rattle.pnp_io.specs.Outside.{Rose};
ghost use Rattle.pnp_machine.specs.Machines.{HasFewIds};
ghost use Rattle.notify_front.specs.Desks.{IsOfFrontRun, front_of, told_of};
ghost use Rattle.pnp_cli.specs.Turns.{Settled, Answered, AnsweredSoFar, Awaits, SettledSoFar, SettlesFront, FollowsFront, WroteSoFar};

use crate::tally::Tally;
use crate::tell::{Lines, tell_answer, tell_moved};
use crate::turn::WriteError;
use driver_rack::Drivers;
use notify_front::Front;
use pnp_io::Sink;
use pnp_labels::Event;

/// The front steps until it is quiet, and the line of each label comes behind those that wait.
fn settle<R: Drivers, K: Sink>(
    front: &mut Front<R>,
    lines: &mut Lines,
    sink: &mut K,
    tally: &mut Tally,
) -> Result<(), WriteError>
    requires run { IsOfFrontRun (told_of front.old) front.old.manager.events (front_of front.old) }
    requires events { front.old.manager.events ≤ 2 ^ 24 }
    ensures ok { OnOk result (Settled front.old (K.taken sink.old) lines.old.waiting.items tally.old front.new (K.taken sink.new) lines.new.waiting.items tally.new) }
    ensures so_far { IsErrOf result WriteError.WantOfMemory → SettledSoFar (told_of front.old) (front_of front.old) (K.taken sink.old) lines.old.waiting.items (front_of front.new) (K.taken sink.new) lines.new.waiting.items }
    ensures front { SettlesFront front.old lines.old.waiting.items (K.taken sink.old) (K.taken sink.new) }
    ensures failed { IsErrOf result WriteError.WriteFault → Rose (K.faults sink.old) (K.faults sink.new) }
    ensures counts { K.faults sink.old ≤ K.faults sink.new }
{
    if front.is_quiet() {
        return Ok(());
    }
    'steps: while tell_moved(sink, lines, tally, front.step())? {}
    Ok(())
}

/// An event happens, and the front does all that follows from it; the line of each label comes behind those that wait.
fn gather_lines<R: Drivers, K: Sink>(
    front: &mut Front<R>,
    event: Event,
    lines: &mut Lines,
    sink: &mut K,
    tally: &mut Tally,
) -> Result<(), WriteError>
    requires awaits { Awaits front.old }
    requires few { HasFewIds event }
    requires events { front.old.manager.events < 2 ^ 24 }
    ensures ok { OnOk result (Answered front.old event (K.taken sink.old) lines.old.waiting.items tally.old front.new (K.taken sink.new) lines.new.waiting.items tally.new) }
    ensures so_far { IsErrOf result WriteError.WantOfMemory → AnsweredSoFar (told_of front.old) (front_of front.old) event (K.taken sink.old) lines.old.waiting.items (front_of front.new) (K.taken sink.new) lines.new.waiting.items }
    ensures front { FollowsFront front.old event lines.old.waiting.items (K.taken sink.old) (K.taken sink.new) }
    ensures failed { IsErrOf result WriteError.WriteFault → Rose (K.faults sink.old) (K.faults sink.new) }
    ensures counts { K.faults sink.old ≤ K.faults sink.new }
{
    tell_answer(sink, lines, tally, front.apply(event))?;
    settle(front, lines, sink, tally)
}

/// An event happens, and the front does all that follows from it. Before it nothing waits, and after it nothing waits again: the lines of
/// all its labels were written, together, where they have fewer than 16,384 bytes. At want of memory the lines of the steps before the one that
/// failed were written.
pub fn answer_event<R: Drivers, K: Sink>(
    front: &mut Front<R>,
    event: Event,
    lines: &mut Lines,
    sink: &mut K,
    tally: &mut Tally,
) -> Result<(), WriteError>
    requires awaits { Awaits front.old }
    requires few { HasFewIds event }
    requires events { front.old.manager.events < 2 ^ 24 }
    requires none { lines.old.waiting.items ≡ [] }
    ensures ok { OnOk result (Answered front.old event (K.taken sink.old) [] tally.old front.new (K.taken sink.new) [] tally.new) }
    ensures none { OnOk result (lines.new.waiting.items ≡ []) }
    ensures so_far { IsErrOf result WriteError.WantOfMemory → WroteSoFar (told_of front.old) (front_of front.old) event (K.taken sink.old) (front_of front.new) (K.taken sink.new) }
    ensures front { FollowsFront front.old event [] (K.taken sink.old) (K.taken sink.new) }
    ensures failed { IsErrOf result WriteError.WriteFault → Rose (K.faults sink.old) (K.faults sink.new) }
    ensures counts { K.faults sink.old ≤ K.faults sink.new }
{
    match gather_lines(front, event, lines, sink, tally) {
        Ok(()) => Ok(lines.write(sink)?),
        Err(WriteError::WantOfMemory) => {
            lines.write(sink)?;
            Err(WriteError::WantOfMemory)
        }
        Err(WriteError::WriteFault) => Err(WriteError::WriteFault),
    }
}
