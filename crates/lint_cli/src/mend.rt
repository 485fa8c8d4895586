//! The text of an INF with a fault mended, so that the next one shows. Nothing is claimed of it.
ghost use Rattle.std.specs.Prelude.{◌≤◌, length};

use inf_reader::InfError;
use inf_sections::bare;
use std::alloc::{AllocError, Global};

/// The most bytes of a line.
const LONGEST: usize = 4096;

/// The line that an error stands on.
fn line_number(error: InfError) -> Option<u32> {
    match error {
        InfError::OpenHeader { line }
        | InfError::LineTooLong { line }
        | InfError::BadDate { line }
        | InfError::BadScore { line } => Some(line),
        InfError::NoSignature | InfError::WantOfMemory => None,
    }
}

/// Where the line of a number, counted from 1, begins.
fn start_of(text: &[u8], number: u32) -> usize
    ensures { result ≤ length text.now }
{
    let mut line = 1u32;
    for at in 0..text.len() {
        if line == number {
            return at;
        }
        if text[at] == b'\n' {
            line = line.saturating_add(1);
        }
    }
    text.len()
}

/// The front of a text up to its line feed.
fn front_of(text: &[u8]) -> &[u8]
    ensures { length result.now ≤ length text.now }
{
    for at in 0..text.len() {
        if text[at] == b'\n' {
            return &text[..at];
        }
    }
    text
}

/// The line that an error stands on; nothing where it has none.
pub fn line_of(text: &[u8], error: InfError) -> &[u8] {
    match line_number(error) {
        Some(number) => bare(front_of(&text[start_of(text, number)..])),
        None => &[],
    }
}

/// What stands in place of the line of an error: a header that ends, the front of a line that is too long, and else nothing.
fn instead(line: &[u8], error: InfError) -> &[u8] {
    match error {
        InfError::OpenHeader { .. } => b"[]",
        InfError::LineTooLong { .. } => &line[..line.len().min(LONGEST)],
        _ => &[],
    }
}

/// The text with the line of an error mended.
pub fn mended(alloc: Global, text: &[u8], error: InfError) -> Result<Vec<u8>, AllocError> {
    let Some(number) = line_number(error) else {
        return Vec::from_slice(alloc, text);
    };
    let start = start_of(text, number);
    let line = front_of(&text[start..]);
    let mut all = Vec::from_slice(alloc, &text[..start])?;
    all.extend_from_slice(instead(line, error))?;
    all.extend_from_slice(&text[start + line.len()..])?;
    Ok(all)
}
