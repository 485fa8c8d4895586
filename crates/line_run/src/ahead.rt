//! What a run does ahead of its line, since no line decides it.
ghost use Rattle.std.specs.Prelude.{◌≡◌, ◌<◌, ◌^◌, IfOk, IfSome, OnErr, None};
ghost use Rattle.free_model.specs.Asks.{next_query};
ghost use Rattle.free_run.specs.FreeRuns.{HasFewIds};
ghost use Rattle.line_run.specs.Lines.{GoesAhead, IfDue, after_due};

use crate::telling::is_line;
use device_ids::WantOfMemory;
use free_run::FreeRun;
use pnp_labels::{Answer, Event, Label};
use std::alloc::Global;
use std::snapshot::Snapshot;

/// What a run did ahead of its line, since it could not do anything else. This project's own.
pub(crate) enum Ahead {
    /// Nothing.
    Nothing,
    /// A step that asks nobody, of this label.
    Step {
        label: Label,
        before: Snapshot<FreeRun>,
    },
    /// This event happened, with this label.
    Event {
        label: Label,
        event: Snapshot<Event>,
        before: Snapshot<FreeRun>,
    },
}

impl Drop for Ahead {
    fn drop(self) {
        match self {
            Ahead::Nothing => {}
            Ahead::Step {
                label: _,
                before: _,
            } => {}
            Ahead::Event {
                label: _,
                event: _,
                before: _,
            } => {}
        }
    }
}

/// The step that asks nobody; or, where none is next, the event happens. Condition: nobody is asked. After want of memory all is as
/// before.
pub(crate) fn go_ahead(run: &mut FreeRun, event: Option<Event>) -> Result<Ahead, WantOfMemory>
    requires silent { next_query run.old.state ≡ None }
    requires ids { IfSome event HasFewIds }
    requires events { run.old.events < 2 ^ 24 }
    ensures ahead { IfOk result (λ ahead. GoesAhead run.old event run.new ahead) }
    ensures err { OnErr result (run.new ≡ run.old) }
{
    let before = Snapshot::of(run);
    if let Some(label) = run.step(Answer::Ok)? {
        return Ok(Ahead::Step { label, before });
    }
    let Some(event) = event else {
        return Ok(Ahead::Nothing);
    };
    let own = Snapshot::of(&event);
    let label = run.apply(event)?;
    Ok(Ahead::Event {
        label,
        event: own,
        before,
    })
}

/// Whether the line is that of what was done ahead.
fn is_due(alloc: Global, ahead: &Ahead, line: &[u8]) -> Result<bool, WantOfMemory>
    ensures { IfOk result (λ due. IfDue due line.now ahead.now) }
{
    match ahead {
        Ahead::Nothing => Ok(false),
        Ahead::Step { label, .. } => is_line(alloc, line, label),
        Ahead::Event { label, .. } => is_line(alloc, line, label),
    }
}

/// Whether the line is that of what was done ahead, which then is ahead no more. After want of memory it is as before.
pub(crate) fn take_ahead(
    alloc: Global,
    ahead: &mut Ahead,
    line: &[u8],
) -> Result<bool, WantOfMemory>
    ensures due { IfOk result (λ due. IfDue due line.now ahead.old) }
    ensures after { IfOk result (λ due. ahead.new ≡ after_due due ahead.old) }
    ensures err { OnErr result (ahead.new ≡ ahead.old) }
{
    let due = is_due(alloc, ahead, line)?;
    if due {
        *ahead = Ahead::Nothing;
    }
    Ok(due)
}
