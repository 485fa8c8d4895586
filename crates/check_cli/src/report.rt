//! What is written of a trace.
use crate::lines::{Place, line_at, push_line};
use device_ids::cut;
use inf_reader::InfError;
use pnp_labels::decimal;
use std::alloc::{AllocError, Global};
use trace_hint::Seen;

/// What is said behind a line that stands there with its LF: where a carriage return is its last byte, that one is there.
fn behind(line: &[u8]) -> &'static [u8] {
    if ends_with_return(line) {
        b" (a carriage return at the line's end)"
    } else {
        b""
    }
}

/// Whether the last byte of a line is a carriage return.
fn ends_with_return(line: &[u8]) -> bool {
    matches!(line, [.., b'\r'])
}

/// The line without a carriage return at its end.
fn without_return(line: &[u8]) -> &[u8] {
    match line {
        [front @ .., b'\r'] => front,
        _ => line,
    }
}

/// Whether each line of a trace that was cut into its lines has a carriage return at its end: the last one has no LF.
fn all_return(lines: &[&[u8]]) -> bool {
    let mut all = lines.len() > 1;
    for at in 0..lines.len() {
        if at + 1 < lines.len() && !ends_with_return(lines[at]) {
            all = false;
        }
    }
    all
}

/// Appends what stands in the trace at the line that is not allowed, and before it the line that is the last allowed one: where it
/// tells an answer, that may be the wrong one.
fn push_there(out: &mut Vec<u8>, lines: &[&[u8]], number: u64) -> Result<(), AllocError> {
    if let Place::Line(line) = line_at(lines, number.saturating_sub(1)) {
        push_line(out, b"before:  ", line, b"")?;
    }
    match line_at(lines, number) {
        Place::Line(line) => push_line(out, b"there:   ", without_return(line), behind(line))?,
        Place::Open(line) => push_line(out, b"there:   ", line, b" (without a line feed)")?,
        Place::Over => push_line(out, b"the trace ends here", b"", b"")?,
    }
    if all_return(lines) {
        push_line(
            out,
            b"each line of the trace has a carriage return at its end: the program writes none",
            b"",
            b"",
        )?;
    }
    Ok(())
}

/// Whether one of the lines before this place is the same.
fn stands_before(allowed: &[Vec<u8>], at: usize) -> bool {
    let mut found = false;
    for other in 0..at {
        if other < allowed.len() && at < allowed.len() && allowed[other] == allowed[at] {
            found = true;
        }
    }
    found
}

/// Appends the lines that are allowed, each once.
fn push_allowed(out: &mut Vec<u8>, allowed: &[Vec<u8>]) -> Result<(), AllocError> {
    for at in 0..allowed.len() {
        if !stands_before(allowed, at) {
            push_line(out, b"allowed: ", &allowed[at], b"")?;
        }
    }
    Ok(())
}

/// The text of what was seen of a trace. Where no line is allowed the output is over.
pub(crate) fn report(alloc: Global, seen: &Seen, trace: &[u8]) -> Result<Vec<u8>, AllocError> {
    let mut out = Vec::new(alloc);
    match seen {
        Seen::Yes => out.extend_from_slice(b"yes\n")?,
        Seen::No { line, allowed } => {
            let lines = cut(alloc, trace, b'\n')?;
            push_line(
                &mut out,
                b"no line ",
                decimal(alloc, *line)?.as_bytes(),
                b"",
            )?;
            push_there(&mut out, &lines, *line)?;
            push_allowed(&mut out, allowed)?;
            if allowed.is_empty() {
                push_line(&mut out, b"nothing more is due", b"", b"")?;
            }
        }
    }
    Ok(out)
}

/// The number of an error of an INF, as pnpmgr prints it. That of want of memory is never printed.
fn error_number(error: InfError) -> u64 {
    match error {
        InfError::NoSignature => 1,
        InfError::OpenHeader { .. } => 2,
        InfError::LineTooLong { .. } => 3,
        InfError::BadDate { .. } => 4,
        InfError::BadScore { .. } => 5,
        InfError::WantOfMemory => 6,
    }
}

/// The line of an error of an INF, 0 where it has none.
fn error_at(error: InfError) -> u64 {
    match error {
        InfError::OpenHeader { line }
        | InfError::LineTooLong { line }
        | InfError::BadDate { line }
        | InfError::BadScore { line } => line as u64,
        InfError::NoSignature | InfError::WantOfMemory => 0,
    }
}

/// The line that tells of a refused INF, as pnpmgr prints it: its number, counted from 1, the error's number and its line.
pub(crate) fn refusal(alloc: Global, number: u64, error: InfError) -> Result<Vec<u8>, AllocError> {
    let mut line = Vec::from_slice(alloc, b"inf ")?;
    line.extend_from_slice(decimal(alloc, number)?.as_bytes())?;
    line.extend_from_slice(b" error ")?;
    line.extend_from_slice(decimal(alloc, error_number(error))?.as_bytes())?;
    line.extend_from_slice(b" line ")?;
    line.extend_from_slice(decimal(alloc, error_at(error))?.as_bytes())?;
    line.push(b'\n')?;
    Ok(line)
}
