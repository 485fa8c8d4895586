//! The next line at a quiet state: what the script gives.
ghost use Rattle.std.specs.Prelude.{◌≡◌, ◌≤◌, ◌<◌, ◌+◌, ◌^◌, ◌++◌, ◌∷◌, [], true, IfOk, length};
ghost use Rattle.pnp_model.specs.Events.{happens};
ghost use Rattle.pnp_model.specs.Machine.{IsQuiet};
ghost use Rattle.script_reader.specs.Script.{ends, stops, trace};
ghost use Rattle.free_model.specs.Checks.{Runs, bad_line};
ghost use Rattle.free_run.specs.FreeRuns.{HasFewIds, settings};
ghost use Rattle.trace_check.specs.Clients.{IfOfMachine};
ghost use Rattle.trace_check.specs.Turns.{HasPrinted};
ghost use Rattle.trace_hint.specs.Spots.{IsEventMove, IsMove};

use crate::spot::{Move, Spot, end_move};
use device_ids::WantOfMemory;
use free_run::FreeRun;
use pnp_labels::{Answer, Event, label_line, push_decimal};
use script_reader::{Next, Reader};
use std::alloc::Global;

/// Whether it happens to the machine itself, and not to a client.
fn is_of_machine(event: &Event) -> bool
    ensures { IfOfMachine result event.now }
{
    !matches!(event, Event::Watch { .. } | Event::Unwatch { .. })
}

/// An event happens, at a quiet state, and this is its line.
fn event_line(alloc: Global, run: &mut FreeRun, event: Event) -> Result<Vec<u8>, WantOfMemory>
    requires quiet { IsQuiet (settings run.old) run.old.state }
    requires ids { HasFewIds event }
    requires events { run.old.events < 2 ^ 24 }
    ensures { IfOk result (λ line. HasPrinted (happens run.old.state event) run.old run.new line.items) }
{
    let label = run.apply(event)?;
    label_line(alloc, &label)
}

/// The line of an event, at a quiet state.
fn event_move(
    alloc: Global,
    run: FreeRun,
    reader: Reader,
    event: Event,
) -> Result<Move, WantOfMemory>
    requires quiet { IsQuiet (settings run) run.state }
    requires ids { HasFewIds event }
    requires events { run.events < 2 ^ 24 }
    ensures { IfOk result (λ next. IsEventMove run reader event next) }
{
    if !is_of_machine(&event) {
        drop(event);
        drop(run);
        return Ok(Move::Nothing);
    }
    let mut run = run;
    match event_line(alloc, &mut run, event) {
        Ok(line) => Ok(Move::Line {
            line,
            spot: Spot::Runs { run, reader },
        }),
        // by `?` the whole machine would be let go here, part by part, which makes a long proof
        Err(refused) => {
            drop(run);
            Err(refused)
        }
    }
}

/// The line that tells of a bad line, with its LF. Cost: its length.
fn bad_line(alloc: Global, number: u64) -> Result<Vec<u8>, WantOfMemory>
    ensures { IfOk result (λ line. line.items ≡ bad_line number ++ 10 ∷ []) }
{
    let mut line = Vec::from_slice(alloc, b"script error line ")?;
    push_decimal(&mut line, number)?;
    line.push(b'\n')?;
    Ok(line)
}

/// The line that tells of a bad line, behind which the end of the output is due.
fn bad_move(alloc: Global, run: &FreeRun, number: u64, answer: Answer) -> Result<Move, WantOfMemory>
    requires quiet { IsQuiet (settings run.now) run.now.state }
    ensures { IfOk result (λ next. IsMove answer (settings run.now) (Runs run.now.state (stops number)) next) }
{
    let line = bad_line(alloc, number)?;
    let due = run.ending(alloc)?;
    Ok(Move::Line {
        line,
        spot: Spot::Ends { due, at: 0 },
    })
}

/// The first line of the end of the output.
fn over_move(alloc: Global, run: &FreeRun, answer: Answer) -> Result<Move, WantOfMemory>
    requires quiet { IsQuiet (settings run.now) run.now.state }
    ensures { IfOk result (λ next. IsMove answer (settings run.now) (Runs run.now.state ends) next) }
{
    let due = run.ending(alloc)?;
    end_move(alloc, due, 0)
}

/// What the script gives next, at a quiet state. The answer says nothing here.
pub(crate) fn rest_move(
    alloc: Global,
    run: FreeRun,
    reader: Reader,
    answer: Answer,
) -> Result<Move, WantOfMemory>
    requires quiet { IsQuiet (settings run) run.state }
    requires finished { reader.finished ≡ true }
    requires events { run.events + length reader.rest ≤ 2 ^ 24 }
    ensures { IfOk result (λ next. IsMove answer (settings run) (Runs run.state (trace true reader.passed reader.rest)) next) }
{
    let mut reader = reader;
    match reader.next_event() {
        Ok(Next::Event(event)) => event_move(alloc, run, reader, event),
        Ok(Next::Bad { line }) => {
            let next = bad_move(alloc, &run, line, answer);
            drop(run);
            next
        }
        Ok(Next::End) => {
            let next = over_move(alloc, &run, answer);
            drop(run);
            next
        }
        // a reader that was finished needs no more
        Ok(Next::NeedMore) => unreachable!(),
        Err(refused) => {
            drop(run);
            Err(refused)
        }
    }
}
