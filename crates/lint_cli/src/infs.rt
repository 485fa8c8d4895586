//! What is written of an INF.
ghost use Rattle.std.specs.Prelude.{◌≡◌, ◌≤◌, ◌++◌, IfOk, OnOk, Ok, length};
ghost use Rattle.inf_reader.specs.Meaning.{inf};
ghost use Rattle.lint_cli.specs.Reports.{error_text, error_line, inf_text, line_text, IsFront};
ghost use Rattle.lint_cli.specs.Warnings.{told};
ghost use Rattle.lint_cli.specs.Lints.{is_bad_inf, AddsInf};

use crate::mend::{line_of, mended};
use crate::notes::{encoding_note, notes_of};
use crate::shown::{push_error_head, push_shown};
use crate::warnings::{Known, push_warnings};
use inf_reader::{Inf, InfError, read};
use inf_sections::plain_text;
use std::alloc::{AllocError, Global};

/// The most faults of an INF that are told.
const MOST_FAULTS: u32 = 32;

/// The most bytes of an INF.
const LIMIT: usize = 16_777_216;

/// What is said of an error.
fn error_text(error: InfError) -> &'static [u8]
    ensures { result.now ≡ error_text error }
{
    match error {
        InfError::NoSignature => b"[Version] has no Signature of $Windows NT$ or $CHICAGO$",
        InfError::OpenHeader { .. } => b"a header has no ]",
        InfError::LineTooLong { .. } => b"the line has more than 4096 bytes",
        InfError::BadDate { .. } => {
            b"DriverVer is no date MM/DD/YYYY, or the version behind it is none"
        }
        InfError::BadScore { .. } => b"FeatureScore is no number up to 255",
        InfError::WantOfMemory => b"out of memory",
    }
}

/// The line that an error stands on, and the first where it is of the whole file.
fn error_line(error: InfError) -> u32
    ensures { result ≡ error_line error }
{
    match error {
        InfError::OpenHeader { line }
        | InfError::LineTooLong { line }
        | InfError::BadDate { line }
        | InfError::BadScore { line } => line,
        InfError::NoSignature | InfError::WantOfMemory => 1,
    }
}

/// Appends what is wrong with an INF.
fn push_error(
    alloc: Global,
    out: &mut Vec<u8>,
    name: &[u8],
    error: InfError,
) -> Result<(), AllocError>
    ensures { OnOk result (out.new.items ≡ out.old.items ++ inf_text name.now error) }
{
    push_error_head(alloc, out, name, error_line(error) as u64)?;
    out.extend_from_slice(error_text(error))?;
    Ok(())
}

/// Appends a line of an INF between quotes, if it has some bytes, and ends the line.
fn push_line(alloc: Global, out: &mut Vec<u8>, line: &[u8]) -> Result<(), AllocError>
    ensures { OnOk result (out.new.items ≡ out.old.items ++ line_text line.now) }
{
    if line.is_empty() {
        out.push(b'\n')?;
        return Ok(());
    }
    out.extend_from_slice(b": \"")?;
    push_shown(alloc, out, line)?;
    out.extend_from_slice(b"\"\n")?;
    Ok(())
}

/// What is wrong with a text, if it is no longer than an INF may be.
fn next_error(alloc: Global, text: &[u8]) -> Result<Option<InfError>, AllocError> {
    if text.len() > LIMIT {
        return Ok(None);
    }
    match read(alloc, text) {
        Ok(_) => Ok(None),
        Err(InfError::WantOfMemory) => Err(AllocError),
        Err(error) => Ok(Some(error)),
    }
}

/// Appends the line of the first error, and the errors that are left once it is mended, each in its turn.
#[tactic(auto, using(crate::proofs::Steps::front_same, crate::proofs::Steps::front_more))]
fn push_others(
    alloc: Global,
    out: &mut Vec<u8>,
    name: &[u8],
    bytes: &[u8],
    first: InfError,
) -> Result<(), AllocError>
    ensures { OnOk result (IsFront out.old.items out.new.items) }
{
    let mut text = plain_text(alloc, bytes)?;
    let mut error = first;
    push_line(alloc, out, line_of(&text, error))?;
    for _ in 1..MOST_FAULTS {
        text = mended(alloc, &text, error)?;
        let Some(next) = next_error(alloc, &text)? else {
            return Ok(());
        };
        if next == error {
            return Ok(());
        }
        push_error(alloc, out, name, next)?;
        push_line(alloc, out, line_of(&text, next))?;
        error = next;
    }
    Ok(())
}

/// Appends the faults of an INF that are left once the first is mended, and a word on bytes that are read otherwise than they were meant.
#[tactic(auto, using(crate::proofs::Steps::front_more))]
fn push_behind(
    alloc: Global,
    out: &mut Vec<u8>,
    name: &[u8],
    bytes: &[u8],
    first: InfError,
) -> Result<(), AllocError>
    ensures { OnOk result (IsFront out.old.items out.new.items) }
{
    push_others(alloc, out, name, bytes, first)?;
    out.extend_from_slice(&encoding_note(alloc, name, bytes)?)?;
    Ok(())
}

/// Appends the warnings of an INF that is read: those that follow from what it means, and then those that name causes.
#[tactic(auto, using(crate::proofs::Steps::adds_read))]
fn push_lacks(
    alloc: Global,
    out: &mut Vec<u8>,
    name: &[u8],
    bytes: &[u8],
    known: &Known,
    read: &Inf,
) -> Result<(), AllocError>
    ensures { OnOk result (AddsInf name.now (told known.now) (Ok read.now) out.old.items out.new.items) }
{
    push_warnings(alloc, out, name, known, read)?;
    out.extend_from_slice(&notes_of(alloc, name, bytes, known.ids.as_ref())?)?;
    Ok(())
}

/// Appends the faults of an INF, first that for which it is refused, or where it has none its warnings, by what the script tells;
/// whether it is refused.
#[tactic(auto, using(crate::proofs::Steps::adds_ok, crate::proofs::Steps::adds_more))]
pub fn report_inf(
    alloc: Global,
    name: &[u8],
    bytes: &[u8],
    known: &Known,
    out: &mut Vec<u8>,
) -> Result<bool, AllocError>
    requires { length bytes.now ≤ 16777216 }
    ensures text { OnOk result (AddsInf name.now (told known.now) (inf bytes.now) out.old.items out.new.items) }
    ensures bad { IfOk result (λ bad. bad ≡ is_bad_inf bytes.now) }
{
    match read(alloc, bytes) {
        Ok(inf) => {
            push_lacks(alloc, out, name, bytes, known, &inf)?;
            Ok(false)
        }
        Err(InfError::WantOfMemory) => Err(AllocError),
        Err(error) => {
            push_error(alloc, out, name, error)?;
            push_behind(alloc, out, name, bytes, error)?;
            Ok(true)
        }
    }
}
