//! The next line at a quiet front: what the script gives.
ghost use Rattle.std.specs.Prelude.{◌≡◌, ◌≤◌, ◌<◌, ◌+◌, ◌^◌, ◌++◌, ◌∷◌, [], true, IfOk, length};
ghost use Rattle.script_reader.specs.Script.{ends, stops, trace};
ghost use Rattle.free_model.specs.Checks.{bad_line};
ghost use Rattle.pnp_machine.specs.Machines.{HasFewIds};
ghost use Rattle.notify_front.specs.Desks.{front_of, told_of};
ghost use Rattle.notify_front.specs.Fronts.{IsFrontQuiet};
ghost use Rattle.front_check.specs.FrontChecks.{Runs};
ghost use Rattle.front_check.specs.Turns.{HasPrinted};
ghost use Rattle.front_hint.specs.Spots.{IsEventMove, IsMove};

use crate::spot::{Move, Spot, end_move};
use device_ids::WantOfMemory;
use free_front::FreeFront;
use pnp_labels::{Answer, Event, label_line, push_decimal};
use script_reader::{Next, Reader};
use std::alloc::Global;

/// An event happens, at a quiet front, and this is its line.
fn event_line(alloc: Global, run: &mut FreeFront, event: Event) -> Result<Vec<u8>, WantOfMemory>
    requires quiet { IsFrontQuiet (told_of run.old) (front_of run.old) }
    requires ids { HasFewIds event }
    requires events { run.old.manager.events < 2 ^ 24 }
    ensures { IfOk result (λ line. HasPrinted event run.old run.new line.items) }
{
    let label = run.apply(event)?;
    label_line(alloc, &label)
}

/// The line of an event, at a quiet front.
fn event_move(
    alloc: Global,
    run: FreeFront,
    reader: Reader,
    event: Event,
) -> Result<Move, WantOfMemory>
    requires quiet { IsFrontQuiet (told_of run) (front_of run) }
    requires ids { HasFewIds event }
    requires events { run.manager.events < 2 ^ 24 }
    ensures { IfOk result (λ next. IsEventMove run reader event next) }
{
    let mut run = run;
    match event_line(alloc, &mut run, event) {
        Ok(line) => Ok(Move::Line {
            line,
            spot: Spot::Runs { run, reader },
        }),
        // by `?` the whole machine would be let go here, part by part, which makes a long proof
        Err(refused) => {
            drop(run);
            Err(refused)
        }
    }
}

/// The line that tells of a bad line, with its LF. Cost: its length.
fn bad_line(alloc: Global, number: u64) -> Result<Vec<u8>, WantOfMemory>
    ensures { IfOk result (λ line. line.items ≡ bad_line number ++ 10 ∷ []) }
{
    let mut line = Vec::from_slice(alloc, b"script error line ")?;
    push_decimal(&mut line, number)?;
    line.push(b'\n')?;
    Ok(line)
}

/// The line that tells of a bad line, behind which the end of the output is due.
fn bad_move(
    alloc: Global,
    run: &FreeFront,
    number: u64,
    answer: Answer,
) -> Result<Move, WantOfMemory>
    requires quiet { IsFrontQuiet (told_of run.now) (front_of run.now) }
    ensures { IfOk result (λ next. IsMove answer (told_of run.now) (Runs (front_of run.now) (stops number)) next) }
{
    let line = bad_line(alloc, number)?;
    let due = run.ending(alloc)?;
    Ok(Move::Line {
        line,
        spot: Spot::Ends { due, at: 0 },
    })
}

/// The first line of the end of the output.
fn over_move(alloc: Global, run: &FreeFront, answer: Answer) -> Result<Move, WantOfMemory>
    requires quiet { IsFrontQuiet (told_of run.now) (front_of run.now) }
    ensures { IfOk result (λ next. IsMove answer (told_of run.now) (Runs (front_of run.now) ends) next) }
{
    let due = run.ending(alloc)?;
    end_move(alloc, due, 0)
}

/// What the script gives next, at a quiet front. The answer says nothing here.
pub(crate) fn rest_move(
    alloc: Global,
    run: FreeFront,
    reader: Reader,
    answer: Answer,
) -> Result<Move, WantOfMemory>
    requires quiet { IsFrontQuiet (told_of run) (front_of run) }
    requires finished { reader.finished ≡ true }
    requires events { run.manager.events + length reader.rest ≤ 2 ^ 24 }
    ensures { IfOk result (λ next. IsMove answer (told_of run) (Runs (front_of run) (trace true reader.passed reader.rest)) next) }
{
    let mut reader = reader;
    match reader.next_event() {
        Ok(Next::Event(event)) => event_move(alloc, run, reader, event),
        Ok(Next::Bad { line }) => {
            let next = bad_move(alloc, &run, line, answer);
            drop(run);
            next
        }
        Ok(Next::End) => {
            let next = over_move(alloc, &run, answer);
            drop(run);
            next
        }
        // a reader that was finished needs no more
        Ok(Next::NeedMore) => unreachable!(),
        Err(refused) => {
            drop(run);
            Err(refused)
        }
    }
}
