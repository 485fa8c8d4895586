//! The note on a bad line of a script.
ghost use Rattle.std.specs.Prelude.{OnOk};
ghost use Rattle.pnp_labels.specs.Texts.{Text};
ghost use Rattle.why_cli.specs.Woven.{HasNotes};

use crate::weave::push_notes;
use device_ids::WantOfMemory;
use lint_cli::fault_words;
use script_lint::{BadLine, faults_of};
use std::alloc::Global;
use why_facts::Lines;

/// Says of a bad line its number, its word, and the cause.
fn say_bad(alloc: Global, bad: &BadLine, notes: &mut Lines) -> Result<(), WantOfMemory> {
    notes.add(b"Line ")?;
    notes.add_number(alloc, bad.line)?;
    notes.add(b" of the script: ")?;
    notes.add(&fault_words(alloc, &bad.fault)?)?;
    notes.say(alloc, b".")
}

/// The note on the first bad line of a script.
fn bad_note(alloc: Global, script: &[u8]) -> Result<Lines, WantOfMemory> {
    let mut notes = Lines::new(alloc);
    let bad = faults_of(alloc, script)?;
    if let Some(first) = bad.first() {
        say_bad(alloc, first, &mut notes)?;
    }
    Ok(notes)
}

/// Appends the note on the bad line at which a script ended, if it did.
pub fn push_bad_note(
    alloc: Global,
    text: &mut Vec<u8>,
    script: &[u8],
    bad: Option<u64>,
) -> Result<(), WantOfMemory>
    ensures { OnOk result ((lines : Text) → HasNotes lines text.old.items → HasNotes lines text.new.items) }
{
    if bad.is_none() {
        return Ok(());
    }
    let notes = bad_note(alloc, script)?;
    push_notes(alloc, text, &notes)
}
