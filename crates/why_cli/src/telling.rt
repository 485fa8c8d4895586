//! The labels of a run are told with their notes.
ghost use Rattle.std.specs.Prelude.{◌≡◌, ◌++◌, ◌∷◌, [], List, OnOk, true};
ghost use Rattle.notify_front.specs.Fronts.{IsFrontQuiet};
ghost use Rattle.notify_front.specs.Desks.{front_of, told_of};
ghost use Rattle.pnp_cli.specs.Outputs.{text_of};
ghost use Rattle.pnp_labels.specs.Texts.{label_line};
ghost use Rattle.pnp_labels.specs.declared.label.Label.{Label as Labels};
ghost use Rattle.script_play.specs.Playing.{Playing};
ghost use Rattle.why_cli.specs.Woven.{HasNotes, note_lines};
ghost use Rattle.why_cli.specs.Explained.{Writing, Written, is_refused};

use crate::script_lines::{ScriptLine, ScriptLines};
use crate::weave::{push_label, push_notes};
use device_ids::WantOfMemory;
use devnode_tree::Tree;
use driver_rack::Drivers;
use pnp_labels::{Deed, EventWord, Label, Reason, Shown};
use resource_reqs::Res;
use script_play::{Happened, Play, Said};
use std::alloc::Global;
use why_facts::{Facts, Lines};
use why_notes::{RefusedLine, notes_on, on_refused};

/// What notes are made from: what is known, the lines of the script that are left, and whether the line of each event is told.
#[derive(Drop)]
pub struct Telling<'a> {
    pub facts: Facts,
    pub lines: ScriptLines<'a>,
    pub all_lines: bool,
}

/// A label is told, and then these notes.
fn tell_with(
    alloc: Global,
    label: &Label,
    notes: &Lines,
    text: &mut Vec<u8>,
) -> Result<(), WantOfMemory>
    ensures behind { OnOk result (text.new.items ≡ text.old.items ++ ((label_line label.now ++ 10 ∷ []) ++ note_lines notes.now.lines)) }
    ensures notes { OnOk result ((labels : List Labels) → HasNotes (text_of labels) text.old.items → HasNotes (text_of (labels ++ label.now ∷ [])) text.new.items) }
{
    push_label(alloc, text, label)?;
    push_notes(alloc, text, notes)
}

/// What an event said is kept, where a later note may have to know it and its label does not have it.
fn learn(alloc: Global, facts: &mut Facts, deed: &Deed, said: Said) -> Result<(), WantOfMemory> {
    match (deed, said) {
        (Deed::Related { kind, .. }, Said::Relate { owner, member }) => {
            facts.related(*kind, owner, member)
        }
        (Deed::Completed { minor, shown, .. }, Said::Complete { path }) => {
            if *shown != Shown::Ok {
                facts.failed(alloc, &path, *minor)?;
            }
            facts.completed(&path, *minor);
            Ok(())
        }
        (Deed::Changed { path }, Said::Change { reqs }) => facts.changes(path.copy(alloc)?, reqs),
        _ => Ok(()),
    }
}

/// What an event said is kept, if it was not refused.
fn learn_from(
    alloc: Global,
    facts: &mut Facts,
    label: &Label,
    said: Said,
) -> Result<(), WantOfMemory>
    ensures { OnOk result (is_refused label.now ≡ true → facts.new ≡ facts.old) }
{
    match label {
        Label::Did(deed) => learn(alloc, facts, deed, said),
        _ => Ok(()),
    }
}

/// The same, and then the label is let go.
fn tell(
    alloc: Global,
    telling: &mut Telling,
    tree: &Tree,
    label: Label,
    text: &mut Vec<u8>,
) -> Result<(), WantOfMemory>
    ensures { OnOk result ((labels : List Labels) → HasNotes (text_of labels) text.old.items → HasNotes (text_of (labels ++ label ∷ [])) text.new.items) }
{
    let told = tell_step(alloc, telling, tree, &label, text);
    drop(label);
    told
}

/// A label is told, and then the note on it.
fn tell_step(
    alloc: Global,
    telling: &mut Telling,
    tree: &Tree,
    label: &Label,
    text: &mut Vec<u8>,
) -> Result<(), WantOfMemory>
    ensures { OnOk result ((labels : List Labels) → HasNotes (text_of labels) text.old.items → HasNotes (text_of (labels ++ label.now ∷ [])) text.new.items) }
{
    let notes = notes_on(alloc, &mut telling.facts, tree, label)?;
    tell_with(alloc, label, &notes, text)
}

/// Adds the number of a line, and its text.
fn add_line(alloc: Global, line: &ScriptLine, notes: &mut Lines) -> Result<(), WantOfMemory> {
    notes.add(b"Line ")?;
    notes.add_number(alloc, line.number)?;
    notes.say_two(alloc, b": ", line.text)
}

/// Adds the notes on an event that was refused: its line, the cause in words, and what would go.
fn add_refusal(
    alloc: Global,
    facts: &Facts,
    tree: &Tree,
    event: EventWord,
    reason: Reason,
    line: &ScriptLine,
    range: Option<Res>,
    notes: &mut Lines,
) -> Result<(), WantOfMemory> {
    let refused = RefusedLine {
        event,
        words: &line.words,
        range,
    };
    on_refused(alloc, facts, tree, reason, &refused, notes)
}

/// Adds what is told of the line of an event: it itself, where all are told or the event was refused, and then why it was.
fn add_line_notes(
    alloc: Global,
    telling: &Telling,
    tree: &Tree,
    label: &Label,
    line: &ScriptLine,
    range: Option<Res>,
    notes: &mut Lines,
) -> Result<(), WantOfMemory> {
    match label {
        Label::Refused { word, reason } => {
            add_line(alloc, line, notes)?;
            add_refusal(
                alloc,
                &telling.facts,
                tree,
                *word,
                *reason,
                line,
                range,
                notes,
            )
        }
        _ => {
            if telling.all_lines {
                add_line(alloc, line, notes)?;
            }
            Ok(())
        }
    }
}

/// The range that is to be reserved, if one is.
fn range_of(said: &Said) -> Option<Res> {
    match said {
        Said::Reserve { res } => Some(*res),
        _ => None,
    }
}

/// The notes on an event: on its line, and on its label.
fn event_notes(
    alloc: Global,
    telling: &mut Telling,
    tree: &Tree,
    label: &Label,
    range: Option<Res>,
) -> Result<Lines, WantOfMemory> {
    let mut notes = Lines::new(alloc);
    if let Some(line) = telling.lines.next_event(alloc)? {
        add_line_notes(alloc, telling, tree, label, &line, range, &mut notes)?;
    }
    notes.take(notes_on(alloc, &mut telling.facts, tree, label)?)?;
    Ok(notes)
}

/// What an event said is kept, and its label is told.
fn tell_said(
    alloc: Global,
    telling: &mut Telling,
    tree: &Tree,
    label: &Label,
    said: Said,
    text: &mut Vec<u8>,
) -> Result<(), WantOfMemory>
    ensures { OnOk result ((labels : List Labels) → HasNotes (text_of labels) text.old.items → HasNotes (text_of (labels ++ label.now ∷ [])) text.new.items) }
{
    let range = range_of(&said);
    learn_from(alloc, &mut telling.facts, label, said)?;
    let notes = event_notes(alloc, telling, tree, label, range)?;
    tell_with(alloc, label, &notes, text)
}

/// The same of what happened, which is then let go.
fn tell_event(
    alloc: Global,
    telling: &mut Telling,
    tree: &Tree,
    happened: Happened,
    text: &mut Vec<u8>,
) -> Result<(), WantOfMemory>
    ensures { OnOk result ((labels : List Labels) → HasNotes (text_of labels) text.old.items → HasNotes (text_of (labels ++ happened.label ∷ [])) text.new.items) }
{
    let Happened { label, said } = happened;
    let told = tell_said(alloc, telling, tree, &label, said, text);
    drop(label);
    told
}

/// All that follows by itself is told, with notes.
fn tell_steps<R: Drivers>(
    alloc: Global,
    play: &mut Play<R>,
    telling: &mut Telling,
    text: &mut Vec<u8>,
) -> Result<(), WantOfMemory>
    ensures written { OnOk result ((start : Playing) → Writing start text.old.items play.old → Writing start text.new.items play.new) }
    ensures quiet { OnOk result (IsFrontQuiet (told_of play.new.desk) (front_of play.new.desk)) }
    ensures reading { OnOk result (play.new.reading ≡ play.old.reading) }
{
    'steps: loop {
        match play.step()? {
            Some(label) => tell(alloc, telling, play.tree(), label, text)?,
            None => return Ok(()),
        }
    }
}

/// All events of the script happen, and all labels are told, with notes.
pub fn tell_all<R: Drivers>(
    alloc: Global,
    play: &mut Play<R>,
    telling: &mut Telling,
    text: &mut Vec<u8>,
) -> Result<(), WantOfMemory>
    ensures { OnOk result ((start : Playing) → Writing start text.old.items play.old → Written start text.new.items play.new) }
{
    'events: loop {
        tell_steps(alloc, play, telling, text)?;
        match play.event()? {
            Some(happened) => tell_event(alloc, telling, play.tree(), happened, text)?,
            None => return Ok(()),
        }
    }
}
