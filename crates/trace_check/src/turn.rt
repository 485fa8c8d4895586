//! One turn of the check: the next line of the trace against what the run may do next. A run is let go by a call: where a `?` lets it
//! go, that is done part by part, which makes a long proof.
ghost use Rattle.std.specs.Prelude.{◌≡◌, ◌+◌, ◌<◌, ◌≤◌, ◌^◌, ℕ, true, IfOk, length};
ghost use Rattle.pnp_model.specs.Events.{happens};
ghost use Rattle.pnp_model.specs.Machine.{IsQuiet};
ghost use Rattle.script_reader.specs.Script.{Trace, gives, stops};
ghost use Rattle.free_model.specs.Checks.{Runs};
ghost use Rattle.free_run.specs.FreeRuns.{settings, HasFewIds};
ghost use Rattle.trace_check.specs.Turns.{Finds, GoesOn, HasPrinted, IsTurn, Tells, TellsEnd};
ghost use Rattle.trace_check.specs.Clients.{IfOfMachine};

use crate::check::Checked;
use crate::due::{bad_line, held_against};
use crate::front::begins_with;
use crate::lines::line_of;
use crate::step::{Found, take_step};
use device_ids::WantOfMemory;
use free_run::FreeRun;
use pnp_labels::Event;
use script_reader::{Next, Reader};
use std::alloc::Global;

/// What a turn finds.
#[derive(Drop)]
pub(crate) enum Turn {
    /// A line of so many bytes, with its LF, is allowed, and the run goes on.
    Line { run: FreeRun, count: usize },
    /// What is left has its verdict.
    Over(Checked),
}

/// Whether it happens to the machine itself, and not to a client.
fn is_of_machine(event: &Event) -> bool
    ensures { IfOfMachine result event.now }
{
    !matches!(event, Event::Watch { .. } | Event::Unwatch { .. })
}

/// An event happens, at a quiet state, and this is its line.
fn event_line(alloc: Global, run: &mut FreeRun, event: Event) -> Result<Vec<u8>, WantOfMemory>
    requires quiet { IsQuiet (settings run.old) run.old.state }
    requires ids { HasFewIds event }
    requires events { run.old.events < 2 ^ 24 }
    ensures { IfOk result (λ line. HasPrinted (happens run.old.state event) run.old run.new line.items) }
{
    let label = run.apply(event)?;
    line_of(alloc, label)
}

/// The line of an event, at a quiet state. After want of memory the run is gone, as after each function below.
fn take_event(
    alloc: Global,
    run: FreeRun,
    event: Event,
    rest: &[u8],
    lines: u64,
) -> Result<Turn, WantOfMemory>
    requires quiet { IsQuiet (settings run) run.state }
    requires ids { HasFewIds event }
    requires events { run.events < 2 ^ 24 }
    requires room { lines + length rest.now < 2 ^ 63 }
    ensures finds { IfOk result (λ turn. (number : ℕ) (script : Trace)
        → Finds turn (settings run) (Runs run.state (gives number event script)) rest.now lines (λ next. Runs next.state script)) }
    ensures on { IfOk result (λ turn. GoesOn turn run (run.events + 1)) }
{
    if !is_of_machine(&event) {
        drop(event);
        drop(run);
        return Ok(Turn::Over(Checked::No { line: lines + 1 }));
    }
    let mut run = run;
    let line = match event_line(alloc, &mut run, event) {
        Ok(line) => line,
        Err(refused) => {
            drop(run);
            return Err(refused);
        }
    };
    if begins_with(rest, &line) {
        Ok(Turn::Line {
            run,
            count: line.len(),
        })
    } else {
        drop(run);
        Ok(Turn::Over(Checked::No { line: lines + 1 }))
    }
}

/// The end of the output is due.
fn take_end(alloc: Global, run: &FreeRun, rest: &[u8], lines: u64) -> Result<Checked, WantOfMemory>
    requires room { lines + length rest.now < 2 ^ 63 }
    ensures { IfOk result (λ checked. TellsEnd checked run.now.state rest.now lines) }
{
    let due = run.ending(alloc)?;
    Ok(held_against(&due, rest, lines))
}

/// The line of a bad line is due, and then the end of the output.
fn take_bad(
    alloc: Global,
    run: &FreeRun,
    number: u64,
    rest: &[u8],
    lines: u64,
) -> Result<Checked, WantOfMemory>
    requires quiet { IsQuiet (settings run.now) run.now.state }
    requires room { lines + length rest.now < 2 ^ 63 }
    ensures { IfOk result (λ checked. Tells checked (settings run.now) (Runs run.now.state (stops number)) rest.now lines) }
{
    let line = bad_line(alloc, number)?;
    if !begins_with(rest, &line) {
        return Ok(Checked::No { line: lines + 1 });
    }
    take_end(alloc, run, &rest[line.len()..], lines + 1)
}

/// What the script gives next, at a quiet state.
fn take_rest(
    alloc: Global,
    run: FreeRun,
    reader: &mut Reader,
    rest: &[u8],
    lines: u64,
) -> Result<Turn, WantOfMemory>
    requires quiet { IsQuiet (settings run) run.state }
    requires finished { reader.old.finished ≡ true }
    requires events { run.events + length reader.old.rest ≤ 2 ^ 24 }
    requires room { lines + length rest.now < 2 ^ 63 }
    ensures { IfOk result (λ turn. IsTurn turn run reader.old rest.now lines reader.new) }
{
    match reader.next_event() {
        Ok(Next::Event(event)) => take_event(alloc, run, event, rest, lines),
        Ok(Next::Bad { line }) => {
            let checked = take_bad(alloc, &run, line, rest, lines);
            drop(run);
            Ok(Turn::Over(checked?))
        }
        Ok(Next::End) => {
            let checked = take_end(alloc, &run, rest, lines);
            drop(run);
            Ok(Turn::Over(checked?))
        }
        // a reader that was finished needs no more
        Ok(Next::NeedMore) => {
            drop(run);
            Ok(Turn::Over(Checked::No { line: lines + 1 }))
        }
        Err(refused) => {
            drop(run);
            Err(refused)
        }
    }
}

/// The line of the step that is next; or, where none is, of what the script gives.
pub(crate) fn take_line(
    alloc: Global,
    run: FreeRun,
    reader: &mut Reader,
    rest: &[u8],
    lines: u64,
) -> Result<Turn, WantOfMemory>
    requires finished { reader.old.finished ≡ true }
    requires events { run.events + length reader.old.rest ≤ 2 ^ 24 }
    requires room { lines + length rest.now < 2 ^ 63 }
    ensures { IfOk result (λ turn. IsTurn turn run reader.old rest.now lines reader.new) }
{
    let mut run = run;
    match take_step(alloc, &mut run, rest, lines) {
        Ok(Found::Line(count)) => Ok(Turn::Line { run, count }),
        Ok(Found::Over(checked)) => {
            drop(run);
            Ok(Turn::Over(checked))
        }
        Ok(Found::Quiet) => take_rest(alloc, run, reader, rest, lines),
        Err(refused) => {
            drop(run);
            Err(refused)
        }
    }
}
