ghost use Rattle.std.specs.Prelude.{◌≡◌, ◌≤◌, ◌<◌, ◌+◌, ◌^◌, [], false, IfOk, IsErrOf, length};
ghost use Rattle.pnp_io.specs.Outside.{Rose};
ghost use Rattle.pnp_cli.specs.Turns.{Awaits, Taken, TakenBad, TakenFront, fed_with, shut};

use crate::settle::answer_event;
use crate::tally::Tally;
use crate::tell::Lines;
use crate::turn::{Ending, PieceError, WriteError};
use driver_rack::Drivers;
use notify_front::Front;
use pnp_io::Sink;
use script_reader::{Next, Reader};
use std::alloc::Global;

/// All events that the bytes fed so far give happen, one after another, and how the reader then stands. Whenever an event is read nothing
/// waits: the lines of all labels before it were written.
fn answer_events<R: Drivers, K: Sink>(
    front: &mut Front<R>,
    reader: &mut Reader,
    lines: &mut Lines,
    sink: &mut K,
    tally: &mut Tally,
) -> Result<Ending, WriteError>
    requires awaits { Awaits front.old }
    requires room { front.old.manager.events + length reader.old.rest ≤ 2 ^ 24 }
    requires none { lines.old.waiting.items ≡ [] }
    ensures ok { IfOk result (λ ending_. Taken front.old reader.old (K.taken sink.old) [] tally.old ending_ front.new reader.new (K.taken sink.new) [] tally.new) }
    ensures front { TakenFront front.old reader.old [] (K.taken sink.old) (K.taken sink.new) }
    ensures failed { IsErrOf result WriteError.WriteFault → Rose (K.faults sink.old) (K.faults sink.new) }
    ensures counts { K.faults sink.old ≤ K.faults sink.new }
{
    'events: loop {
        match reader.next_event()? {
            Next::Event(event) => answer_event(front, event, lines, sink, tally)?,
            Next::NeedMore => return Ok(Ending::NeedsMore),
            Next::End => return Ok(Ending::Over),
            Next::Bad { line } => return Ok(Ending::Bad(line)),
        }
    }
}

/// The same, where nothing waits at first.
fn take_events<R: Drivers, K: Sink>(
    alloc: Global,
    front: &mut Front<R>,
    reader: &mut Reader,
    sink: &mut K,
    tally: &mut Tally,
) -> Result<Ending, WriteError>
    requires awaits { Awaits front.old }
    requires room { front.old.manager.events + length reader.old.rest ≤ 2 ^ 24 }
    ensures ok { IfOk result (λ ending_. Taken front.old reader.old (K.taken sink.old) [] tally.old ending_ front.new reader.new (K.taken sink.new) [] tally.new) }
    ensures front { TakenFront front.old reader.old [] (K.taken sink.old) (K.taken sink.new) }
    ensures failed { IsErrOf result WriteError.WriteFault → Rose (K.faults sink.old) (K.faults sink.new) }
    ensures counts { K.faults sink.old ≤ K.faults sink.new }
{
    let mut lines = Lines::new(alloc);
    answer_events(front, reader, &mut lines, sink, tally)
}

/// A piece is fed, and all events that it gives happen; the number of a bad line, if there is one.
pub fn take_piece<R: Drivers, K: Sink>(
    alloc: Global,
    front: &mut Front<R>,
    reader: &mut Reader,
    piece: &[u8],
    sink: &mut K,
    tally: &mut Tally,
) -> Result<Option<u64>, PieceError>
    requires open { reader.old.finished ≡ false }
    requires small { reader.old.fed + length piece.now < 2 ^ 63 }
    requires awaits { Awaits front.old }
    requires room { front.old.manager.events + length reader.old.rest + length piece.now ≤ 2 ^ 24 }
    ensures ok { IfOk result (λ bad. TakenBad bad front.old (fed_with piece.now reader.old) (K.taken sink.old) tally.old front.new reader.new (K.taken sink.new) tally.new) }
    ensures front { TakenFront front.old (fed_with piece.now reader.old) [] (K.taken sink.old) (K.taken sink.new) }
    ensures no_read { IsErrOf result PieceError.ReadFault → ⊥ }
    ensures no_size { IsErrOf result PieceError.TooLarge → ⊥ }
    ensures failed { IsErrOf result PieceError.WriteFault → Rose (K.faults sink.old) (K.faults sink.new) }
    ensures counts { K.faults sink.old ≤ K.faults sink.new }
{
    reader.feed(piece)?;
    let ending = take_events(alloc, front, reader, sink, tally)?;
    Ok(ending.bad())
}

/// No more is fed, and all events that are left happen; the number of a bad line, if there is one.
pub fn take_last<R: Drivers, K: Sink>(
    alloc: Global,
    front: &mut Front<R>,
    reader: &mut Reader,
    sink: &mut K,
    tally: &mut Tally,
) -> Result<Option<u64>, PieceError>
    requires awaits { Awaits front.old }
    requires room { front.old.manager.events + length reader.old.rest ≤ 2 ^ 24 }
    ensures ok { IfOk result (λ bad. TakenBad bad front.old (shut reader.old) (K.taken sink.old) tally.old front.new reader.new (K.taken sink.new) tally.new) }
    ensures front { TakenFront front.old (shut reader.old) [] (K.taken sink.old) (K.taken sink.new) }
    ensures no_read { IsErrOf result PieceError.ReadFault → ⊥ }
    ensures no_size { IsErrOf result PieceError.TooLarge → ⊥ }
    ensures failed { IsErrOf result PieceError.WriteFault → Rose (K.faults sink.old) (K.faults sink.new) }
    ensures counts { K.faults sink.old ≤ K.faults sink.new }
{
    reader.finish();
    let ending = take_events(alloc, front, reader, sink, tally)?;
    Ok(ending.bad())
}
