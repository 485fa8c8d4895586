//! The step that is next against the next line of the trace.
ghost use Rattle.std.specs.Prelude.{◌≡◌, ◌+◌, ◌<◌, ◌^◌, IfOk, length};
ghost use Rattle.notify_front.specs.Desks.{front_of, told_of};
ghost use Rattle.front_check.specs.Turns.{FindsStep};

use crate::asks::could_be_other;
use crate::front::standing;
use device_ids::WantOfMemory;
use free_front::FreeFront;
use pnp_labels::label_line;
use std::alloc::{AllocError, Global};
use trace_check::{Checked, answer_of};

/// What the step finds that is next.
#[derive(Clone, Copy)]
pub(crate) enum Found {
    /// Its line, of so many bytes with its LF, is allowed, and it was made.
    Line(usize),
    /// What is left has its verdict.
    Over(Checked),
    /// No step is next.
    Quiet,
}

/// The step where the drivers answer as the next line tells, and whether this line is its own. Where its line has an LF inside and
/// stands there with another answer, which no script brings about, the answer is want of memory: the step cannot be taken back.
pub(crate) fn take_step(
    alloc: Global,
    run: &mut FreeFront,
    rest: &[u8],
    lines: u64,
) -> Result<Found, WantOfMemory>
    requires room { lines + length rest.now < 2 ^ 63 }
    ensures finds { IfOk result (λ found. FindsStep found (told_of run.old) (front_of run.old) (front_of run.new) rest.now lines) }
    ensures told { told_of run.new ≡ told_of run.old }
    ensures events { run.new.manager.events ≡ run.old.manager.events }
{
    let not = Checked::No { line: lines + 1 };
    let Some(answer) = answer_of(rest) else {
        return Ok(Found::Over(not));
    };
    let Some(label) = run.step(answer)? else {
        return Ok(Found::Quiet);
    };
    let line = label_line(alloc, &label)?;
    if let Some(count) = standing(rest, &line) {
        return Ok(Found::Line(count));
    }
    if could_be_other(alloc, rest, &label, &line)? {
        return Err(AllocError);
    }
    Ok(Found::Over(not))
}
