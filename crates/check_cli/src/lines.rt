//! The lines of a trace, as they are printed.
use std::alloc::{AllocError, Global};

/// The most bytes of a line that are printed: this project's own.
const MOST_SHOWN: usize = 1_000;

/// What stands in a trace at the line of a number.
#[derive(Clone, Copy)]
pub(crate) enum Place<'a> {
    /// This line, with its LF behind it.
    Line(&'a [u8]),
    /// These bytes, behind which there is no LF.
    Open(&'a [u8]),
    /// The trace has ended.
    Over,
}

/// What stands at the line of this number, counted from 1, of a trace that was cut into its lines: the last one has no LF.
pub(crate) fn line_at<'a>(lines: &[&'a [u8]], number: u64) -> Place<'a> {
    if number == 0 || number > lines.len() as u64 {
        return Place::Over;
    }
    let at = number as usize - 1;
    let line = lines[at];
    if at + 1 < lines.len() {
        Place::Line(line)
    } else if line.is_empty() {
        Place::Over
    } else {
        Place::Open(line)
    }
}

/// A byte as it is printed: those that are no printable ASCII are shown as question marks.
fn shown_byte(byte: u8) -> u8 {
    if byte < 0x20 || byte > 0x7E {
        b'?'
    } else {
        byte
    }
}

/// Appends a word, a line as it is printed, and an LF. Of a line that is too long the front is shown, and dots.
pub(crate) fn push_line(
    out: &mut Vec<u8>,
    word: &[u8],
    line: &[u8],
    behind: &[u8],
) -> Result<(), AllocError> {
    out.extend_from_slice(word)?;
    let mut left = MOST_SHOWN;
    for byte in line {
        if left > 0 {
            out.push(shown_byte(*byte))?;
            left -= 1;
        }
    }
    if line.len() > MOST_SHOWN {
        out.extend_from_slice(b"..")?;
    }
    out.extend_from_slice(behind)?;
    out.push(b'\n')?;
    Ok(())
}
