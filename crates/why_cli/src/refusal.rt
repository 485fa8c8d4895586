//! The text for an INF that is refused.
ghost use Rattle.std.specs.Prelude.{◌≡◌, ◌++◌, ◌∷◌, [], IfOk};
ghost use Rattle.pnp_labels.specs.Texts.{Text};
ghost use Rattle.pnp_cli.specs.Infs.{refusal_line};
ghost use Rattle.pnp_cli.specs.declared.status.Status.{Status};
ghost use Rattle.why_cli.specs.Refusals.{refusal_words};
ghost use Rattle.why_cli.specs.Woven.{IsWoven};

use crate::explained::Explained;
use crate::weave::push_notes;
use device_ids::{TextList, WantOfMemory};
use inf_reader::InfError;
use pnp_cli::{Status, refusal_line};
use std::alloc::Global;
use why_facts::Lines;

/// Why an INF is refused, in words.
fn refusal_words(error: InfError) -> &'static [u8]
    ensures { result.now ≡ refusal_words error }
{
    match error {
        InfError::NoSignature => { b"[Version] has no Signature of $Windows NT$ or $CHICAGO$." }
        InfError::OpenHeader { .. } => b"A header has no ].",
        InfError::LineTooLong { .. } => b"A line has more than 4096 bytes.",
        InfError::BadDate { .. } => {
            b"The first DriverVer of [Version] is no date, or its version is none."
        }
        InfError::BadScore { .. } => b"A FeatureScore is no number up to 255.",
        InfError::WantOfMemory => b"Memory was refused.",
    }
}

/// The note on a refused INF: its name, and the error in words.
fn refusal_note(
    alloc: Global,
    number: u64,
    error: InfError,
    names: &TextList,
) -> Result<Lines, WantOfMemory>
    ensures { IfOk result (λ notes. (front : Text) × (notes.lines ≡ (front ++ refusal_words error) ∷ [])) }
{
    let mut notes = Lines::new(alloc);
    if 0 < number && number <= names.len() {
        notes.add(names.get(number - 1).bytes())?;
        notes.add(b": ")?;
    }
    notes.say(alloc, refusal_words(error))?;
    Ok(notes)
}

/// The line of a refused INF, and a note on it.
fn refusal(
    alloc: Global,
    number: u64,
    error: InfError,
    names: &TextList,
) -> Result<Vec<u8>, WantOfMemory>
    ensures { IfOk result (λ text. IsWoven (refusal_line number error) text.items) }
{
    let mut text = refusal_line(alloc, number, error)?;
    let notes = refusal_note(alloc, number, error, names)?;
    push_notes(alloc, &mut text, &notes)?;
    Ok(text)
}

/// The text for a refused INF, and the answer.
pub fn explain_refusal(
    alloc: Global,
    number: u64,
    error: InfError,
    names: &TextList,
) -> Result<Explained, WantOfMemory>
    ensures woven { IfOk result (λ e. IsWoven (refusal_line number error) e.text.items) }
    ensures answer { IfOk result (λ e. e.status ≡ Status.BadInf) }
{
    let text = refusal(alloc, number, error, names)?;
    let status = Status::BadInf;
    Ok(Explained { text, status })
}
