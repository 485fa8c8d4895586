//! One turn of the check: the next line of the trace against what the run may do next. A run is let go by a call: where a `?` lets it
//! go, that is done part by part, which makes a long proof.
ghost use Rattle.std.specs.Prelude.{◌≡◌, ◌+◌, ◌<◌, ◌≤◌, ◌^◌, ℕ, true, IfOk, length};
ghost use Rattle.script_reader.specs.Script.{Trace, gives, stops};
ghost use Rattle.pnp_machine.specs.Machines.{HasFewIds};
ghost use Rattle.notify_front.specs.Desks.{front_of, told_of};
ghost use Rattle.notify_front.specs.Fronts.{IsFrontQuiet};
ghost use Rattle.front_check.specs.FrontChecks.{Runs};
ghost use Rattle.front_check.specs.Turns.{Finds, GoesOn, HasPrinted, IsTurn, Tells, TellsEnd};

use crate::due::{bad_line, held_against};
use crate::front::begins_with;
use crate::lines::line_of;
use crate::step::{Found, take_step};
use device_ids::WantOfMemory;
use free_front::FreeFront;
use pnp_labels::Event;
use script_reader::{Next, Reader};
use std::alloc::Global;
use trace_check::Checked;

/// What a turn finds.
#[derive(Drop)]
pub(crate) enum Turn {
    /// A line of so many bytes, with its LF, is allowed, and the run goes on.
    Line { run: FreeFront, count: usize },
    /// What is left has its verdict.
    Over(Checked),
}

/// An event happens, at a quiet front, and this is its line.
fn event_line(alloc: Global, run: &mut FreeFront, event: Event) -> Result<Vec<u8>, WantOfMemory>
    requires quiet { IsFrontQuiet (told_of run.old) (front_of run.old) }
    requires ids { HasFewIds event }
    requires events { run.old.manager.events < 2 ^ 24 }
    ensures { IfOk result (λ line. HasPrinted event run.old run.new line.items) }
{
    let label = run.apply(event)?;
    line_of(alloc, label)
}

/// The line of an event, at a quiet front. After want of memory the run is gone, as after each function below.
fn take_event(
    alloc: Global,
    run: FreeFront,
    event: Event,
    rest: &[u8],
    lines: u64,
) -> Result<Turn, WantOfMemory>
    requires quiet { IsFrontQuiet (told_of run) (front_of run) }
    requires ids { HasFewIds event }
    requires events { run.manager.events < 2 ^ 24 }
    requires room { lines + length rest.now < 2 ^ 63 }
    ensures finds { IfOk result (λ turn. (number : ℕ) (script : Trace)
        → Finds turn (told_of run) (Runs (front_of run) (gives number event script)) rest.now lines (λ next. Runs (front_of next) script)) }
    ensures on { IfOk result (λ turn. GoesOn turn run (run.manager.events + 1)) }
{
    let mut run = run;
    let line = match event_line(alloc, &mut run, event) {
        Ok(line) => line,
        Err(refused) => {
            drop(run);
            return Err(refused);
        }
    };
    if begins_with(rest, &line) {
        Ok(Turn::Line {
            run,
            count: line.len(),
        })
    } else {
        drop(run);
        Ok(Turn::Over(Checked::No { line: lines + 1 }))
    }
}

/// The end of the output is due.
fn take_end(
    alloc: Global,
    run: &FreeFront,
    rest: &[u8],
    lines: u64,
) -> Result<Checked, WantOfMemory>
    requires room { lines + length rest.now < 2 ^ 63 }
    ensures { IfOk result (λ checked. TellsEnd checked (front_of run.now) rest.now lines) }
{
    let due = run.ending(alloc)?;
    Ok(held_against(&due, rest, lines))
}

/// The line of a bad line is due, and then the end of the output.
fn take_bad(
    alloc: Global,
    run: &FreeFront,
    number: u64,
    rest: &[u8],
    lines: u64,
) -> Result<Checked, WantOfMemory>
    requires quiet { IsFrontQuiet (told_of run.now) (front_of run.now) }
    requires room { lines + length rest.now < 2 ^ 63 }
    ensures { IfOk result (λ checked. Tells checked (told_of run.now) (Runs (front_of run.now) (stops number)) rest.now lines) }
{
    let line = bad_line(alloc, number)?;
    if !begins_with(rest, &line) {
        return Ok(Checked::No { line: lines + 1 });
    }
    take_end(alloc, run, &rest[line.len()..], lines + 1)
}

/// What the script gives next, at a quiet front.
fn take_rest(
    alloc: Global,
    run: FreeFront,
    reader: &mut Reader,
    rest: &[u8],
    lines: u64,
) -> Result<Turn, WantOfMemory>
    requires quiet { IsFrontQuiet (told_of run) (front_of run) }
    requires finished { reader.old.finished ≡ true }
    requires events { run.manager.events + length reader.old.rest ≤ 2 ^ 24 }
    requires room { lines + length rest.now < 2 ^ 63 }
    ensures { IfOk result (λ turn. IsTurn turn run reader.old rest.now lines reader.new) }
{
    match reader.next_event() {
        Ok(Next::Event(event)) => take_event(alloc, run, event, rest, lines),
        Ok(Next::Bad { line }) => {
            let checked = take_bad(alloc, &run, line, rest, lines);
            drop(run);
            Ok(Turn::Over(checked?))
        }
        Ok(Next::End) => {
            let checked = take_end(alloc, &run, rest, lines);
            drop(run);
            Ok(Turn::Over(checked?))
        }
        // a reader that was finished needs no more
        Ok(Next::NeedMore) => {
            drop(run);
            Ok(Turn::Over(Checked::No { line: lines + 1 }))
        }
        Err(refused) => {
            drop(run);
            Err(refused)
        }
    }
}

/// The line of the step that is next; or, where none is, of what the script gives.
pub(crate) fn take_line(
    alloc: Global,
    run: FreeFront,
    reader: &mut Reader,
    rest: &[u8],
    lines: u64,
) -> Result<Turn, WantOfMemory>
    requires finished { reader.old.finished ≡ true }
    requires events { run.manager.events + length reader.old.rest ≤ 2 ^ 24 }
    requires room { lines + length rest.now < 2 ^ 63 }
    ensures { IfOk result (λ turn. IsTurn turn run reader.old rest.now lines reader.new) }
{
    let mut run = run;
    match take_step(alloc, &mut run, rest, lines) {
        Ok(Found::Line(count)) => Ok(Turn::Line { run, count }),
        Ok(Found::Over(checked)) => {
            drop(run);
            Ok(Turn::Over(checked))
        }
        Ok(Found::Quiet) => take_rest(alloc, run, reader, rest, lines),
        Err(refused) => {
            drop(run);
            Err(refused)
        }
    }
}
