//! The labels of a run are drawn, and the states behind them told.
ghost use Rattle.std.specs.Prelude.{◌≡◌, ◌++◌, OnOk};
ghost use Rattle.notify_front.specs.Fronts.{IsFrontQuiet};
ghost use Rattle.notify_front.specs.Desks.{front_of, told_of};
ghost use Rattle.script_play.specs.Playing.{Playing};
ghost use Rattle.view_trace.specs.Rows.{row_of, rows};
ghost use Rattle.view_cli.specs.Viewed.{Drawing, Drawn, TellsNext};

use crate::sketch::Sketch;
use device_ids::WantOfMemory;
use driver_rack::Drivers;
use pnp_labels::Label;
use script_play::{Happened, Play};
use std::alloc::Global;
use view_page::Page;
use view_states::States;

/// The state that is there now is told.
fn tell_now<R: Drivers>(play: &Play<R>, states: &mut States) -> Result<(), WantOfMemory>
    ensures { OnOk result (TellsNext states.old play.now states.new) }
{
    let text = play.ending()?;
    states.tell(text)?;
    Ok(())
}

/// The state that is there now is told, where it is due.
fn tell_state<R: Drivers>(play: &Play<R>, states: &mut States) -> Result<(), WantOfMemory>
    ensures { OnOk result (TellsNext states.old play.now states.new) }
{
    if states.is_due() {
        tell_now(play, states)
    } else {
        states.pass()
    }
}

/// A label is drawn, and the state behind it told.
fn draw_label<R: Drivers>(
    alloc: Global,
    play: &Play<R>,
    sketch: &mut Sketch,
    page: &mut Page,
    label: Label,
) -> Result<(), WantOfMemory>
    ensures elements { OnOk result (page.new.elements ≡ page.old.elements) }
    ensures marks { OnOk result (page.new.marks ++ rows sketch.new.rows ≡ (page.old.marks ++ rows sketch.old.rows) ++ row_of label) }
    ensures states { OnOk result (TellsNext sketch.old.states play.now sketch.new.states) }
{
    sketch.draw(alloc, play.tree(), page, label)?;
    tell_state(play, &mut sketch.states)
}

/// What happened is drawn.
fn draw_event<R: Drivers>(
    alloc: Global,
    play: &Play<R>,
    sketch: &mut Sketch,
    page: &mut Page,
    happened: Happened,
) -> Result<(), WantOfMemory>
    ensures elements { OnOk result (page.new.elements ≡ page.old.elements) }
    ensures marks { OnOk result (page.new.marks ++ rows sketch.new.rows ≡ (page.old.marks ++ rows sketch.old.rows) ++ row_of happened.label) }
    ensures states { OnOk result (TellsNext sketch.old.states play.now sketch.new.states) }
{
    let Happened { label, said } = happened;
    drop(said);
    draw_label(alloc, play, sketch, page, label)
}

/// All that follows by itself is drawn.
fn draw_steps<R: Drivers>(
    alloc: Global,
    play: &mut Play<R>,
    sketch: &mut Sketch,
    page: &mut Page,
) -> Result<(), WantOfMemory>
    ensures drawing { OnOk result ((start : Playing) → Drawing start (page.old.marks ++ rows sketch.old.rows) sketch.old.states play.old → Drawing start (page.new.marks ++ rows sketch.new.rows) sketch.new.states play.new) }
    ensures elements { OnOk result (page.new.elements ≡ page.old.elements) }
    ensures quiet { OnOk result (IsFrontQuiet (told_of play.new.desk) (front_of play.new.desk)) }
    ensures reading { OnOk result (play.new.reading ≡ play.old.reading) }
{
    'steps: loop {
        match play.step()? {
            Some(label) => draw_label(alloc, play, sketch, page, label)?,
            None => return Ok(()),
        }
    }
}

/// All events of the script happen, and all labels are drawn.
pub fn draw_all<R: Drivers>(
    alloc: Global,
    play: &mut Play<R>,
    sketch: &mut Sketch,
    page: &mut Page,
) -> Result<(), WantOfMemory>
    ensures drawn { OnOk result ((start : Playing) → Drawing start (page.old.marks ++ rows sketch.old.rows) sketch.old.states play.old → Drawn start (page.new.marks ++ rows sketch.new.rows) sketch.new.states play.new) }
    ensures elements { OnOk result (page.new.elements ≡ page.old.elements) }
{
    'events: loop {
        draw_steps(alloc, play, sketch, page)?;
        match play.event()? {
            Some(happened) => draw_event(alloc, play, sketch, page, happened)?,
            None => return Ok(()),
        }
    }
}
