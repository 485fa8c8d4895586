//! Notes are put between the lines of a text.
ghost use Rattle.std.specs.Prelude.{◌≡◌, ◌++◌, ◌∷◌, [], List, IfOk, OnOk, map};
ghost use Rattle.pnp_cli.specs.Outputs.{text_of};
ghost use Rattle.pnp_labels.specs.Texts.{Text, label_line};
ghost use Rattle.pnp_labels.specs.declared.label.Label.{Label as Labels};
ghost use Rattle.why_cli.specs.Woven.{HasNotes, shown, note_line, note_lines};

use device_ids::WantOfMemory;
use pnp_labels::{Label, label_line};
use std::alloc::Global;
use why_facts::Lines;

/// A byte of a note as it is written: nothing in it ends a line.
fn shown(byte: u8) -> u8
    ensures { result ≡ shown byte }
{
    if byte == b'\n' { b'?' } else { byte }
}

/// The bytes of a note as they are written.
fn shown_all(alloc: Global, note: &[u8]) -> Result<Vec<u8>, WantOfMemory>
    ensures { IfOk result (λ words. words.items ≡ map shown note.now) }
{
    note.iter().map(|byte| shown(*byte)).collect(alloc)
}

/// Appends a line of a note.
fn push_note(alloc: Global, text: &mut Vec<u8>, note: &Vec<u8>) -> Result<(), WantOfMemory>
    ensures { OnOk result (text.new.items ≡ text.old.items ++ note_line (map shown note.now.items)) }
{
    let words = shown_all(alloc, note)?;
    text.extend_from_slice(b"# ")?;
    text.extend_from_slice(&words)?;
    text.push(b'\n')?;
    Ok(())
}

/// Appends lines of a note.
fn push_all(alloc: Global, text: &mut Vec<u8>, notes: &[Vec<u8>]) -> Result<(), WantOfMemory>
    ensures { OnOk result (text.new.items ≡ text.old.items ++ note_lines (map (λ note. note.items) notes.now)) }
{
    for note in notes {
        push_note(alloc, text, note)?;
    }
    Ok(())
}

/// Appends the lines of a note.
pub fn push_notes(alloc: Global, text: &mut Vec<u8>, notes: &Lines) -> Result<(), WantOfMemory>
    ensures behind { OnOk result (text.new.items ≡ text.old.items ++ note_lines notes.now.lines) }
    ensures notes { OnOk result ((lines : Text) → HasNotes lines text.old.items → HasNotes lines text.new.items) }
{
    push_all(alloc, text, notes.all())?;
    Ok(())
}

/// Appends the line of a label.
pub fn push_label(alloc: Global, text: &mut Vec<u8>, label: &Label) -> Result<(), WantOfMemory>
    ensures behind { OnOk result (text.new.items ≡ text.old.items ++ (label_line label.now ++ 10 ∷ [])) }
    ensures notes { OnOk result ((labels : List Labels) → HasNotes (text_of labels) text.old.items → HasNotes (text_of (labels ++ label.now ∷ [])) text.new.items) }
{
    let line = label_line(alloc, label)?;
    text.extend_from_slice(&line)?;
    Ok(())
}
