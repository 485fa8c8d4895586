ghost use Rattle.std.specs.Prelude.{◌<◌, length, IfSome};

use crate::encoding::{bare, plain_text};
use std::alloc::{AllocError, Global};

/// An entry: the number of its line, its key, which is empty where there is none, and its values.
#[derive(Drop)]
pub struct Entry {
    /// The number of the line, counted from 1.
    pub line: u32,
    /// What stands before the `=`.
    pub key: Vec<u8>,
    /// What stands behind it between commas.
    pub values: Vec<Vec<u8>>,
}

/// A section: the number of its header's line, its name, and the entries below this header.
#[derive(Drop)]
pub struct Section {
    /// The number of the line, counted from 1; 0 of what stands before any header.
    pub line: u32,
    /// The name.
    pub name: Vec<u8>,
    /// The entries.
    pub entries: Vec<Entry>,
}

/// A line with those that continue it: its number, and its text without comments.
#[derive(Drop)]
struct Whole {
    line: u32,
    text: Vec<u8>,
}

/// The text without blanks at its ends.
fn trimmed(text: &[u8]) -> &[u8] {
    text.trim_ascii()
}

/// How much of a line stands before its comment, and whether a quoted part is open there.
fn plain_end(line: &[u8]) -> (usize, bool) {
    let mut quoted = false;
    for at in 0..line.len() {
        if line[at] == b'"' {
            quoted = !quoted;
        } else if line[at] == b';' && !quoted {
            return (at, false);
        }
    }
    (line.len(), quoted)
}

/// What a line says, without its comment, and whether the next one continues it.
fn said(line: &[u8]) -> (&[u8], bool) {
    let (end, quoted) = plain_end(line);
    let text = match line.get(..end) {
        Some(front) => trimmed(front),
        None => line,
    };
    match text {
        [b'[', ..] => (text, false),
        [front @ .., b'\\'] if !quoted => (front, true),
        _ => (text, false),
    }
}

/// Appends the lines of a text, each with those that continue it.
fn push_whole_lines(alloc: Global, all: &mut Vec<Whole>, text: &[u8]) -> Result<(), AllocError> {
    let mut current = Vec::new(alloc);
    let mut line = 1u32;
    let mut first = 1u32;
    for part in text.split(|byte| *byte == b'\n') {
        let (body, goes_on) = said(bare(part));
        current.extend_from_slice(body)?;
        line = line.saturating_add(1);
        if !goes_on {
            all.push(Whole {
                line: first,
                text: current,
            })?;
            current = Vec::new(alloc);
            first = line;
        }
    }
    all.push(Whole {
        line: first,
        text: current,
    })?;
    Ok(())
}

/// The lines of a text, each with those that continue it.
fn whole_lines(alloc: Global, text: &[u8]) -> Result<Vec<Whole>, AllocError> {
    let mut all = Vec::new(alloc);
    push_whole_lines(alloc, &mut all, text)?;
    Ok(all)
}

/// The text without blanks at its ends and without its quotes; of two quotes in a quoted part one stays.
fn unquoted(alloc: Global, text: &[u8]) -> Result<Vec<u8>, AllocError> {
    let mut all = Vec::new(alloc);
    let mut quoted = false;
    let mut before = false;
    for byte in trimmed(text) {
        if *byte == b'"' {
            if before && !quoted {
                all.push(b'"')?;
            }
            quoted = !quoted;
            before = !quoted;
        } else {
            all.push(*byte)?;
            before = false;
        }
    }
    Ok(all)
}

/// What stands before and behind the first such byte outside quotes.
fn cut_plain(text: &[u8], mark: u8) -> Option<(&[u8], &[u8])>
    ensures { IfSome result (λ parts. length parts.1.now < length text.now) }
{
    let mut quoted = false;
    for at in 0..text.len() {
        if text[at] == b'"' {
            quoted = !quoted;
        } else if text[at] == mark && !quoted {
            return Some((&text[..at], &text[at + 1..]));
        }
    }
    None
}

/// Appends a value without its quotes.
fn push_value(alloc: Global, values: &mut Vec<Vec<u8>>, text: &[u8]) -> Result<(), AllocError> {
    values.push(unquoted(alloc, text)?)?;
    Ok(())
}

/// Appends the values between commas outside quotes.
fn push_values(alloc: Global, values: &mut Vec<Vec<u8>>, text: &[u8]) -> Result<(), AllocError> {
    let mut rest = text;
    while let Some((part, after)) = cut_plain(rest, b',') {
        push_value(alloc, values, part)?;
        rest = after;
    }
    push_value(alloc, values, rest)
}

/// The values between commas outside quotes.
fn values_of(alloc: Global, text: &[u8]) -> Result<Vec<Vec<u8>>, AllocError> {
    let mut values = Vec::new(alloc);
    push_values(alloc, &mut values, text)?;
    Ok(values)
}

/// The entry of a line.
fn entry_of(alloc: Global, line: u32, text: &[u8]) -> Result<Entry, AllocError> {
    let (key, list) = cut_plain(text, b'=').unwrap_or((&[], text));
    let key = unquoted(alloc, key)?;
    let values = values_of(alloc, list)?;
    Ok(Entry { line, key, values })
}

/// The name in a header.
fn header_name(text: &[u8]) -> &[u8] {
    let behind = text.get(1..).unwrap_or(&[]);
    for at in 0..behind.len() {
        if behind[at] == b']' {
            return trimmed(behind.get(..at).unwrap_or(&[]));
        }
    }
    trimmed(behind)
}

/// A section of that name, with no entry.
fn begun(alloc: Global, line: u32, name: &[u8]) -> Result<Section, AllocError> {
    let name = Vec::from_slice(alloc, name)?;
    let entries = Vec::new(alloc);
    Ok(Section {
        line,
        name,
        entries,
    })
}

/// A line begins a section, or is an entry of the last one.
fn push_line(
    alloc: Global,
    all: &mut Vec<Section>,
    line: u32,
    text: &[u8],
) -> Result<(), AllocError> {
    if text.starts_with(b"[") {
        all.push(begun(alloc, line, header_name(text))?)?;
        return Ok(());
    }
    if let Some(last) = all.last_mut() {
        if !text.is_empty() {
            last.entries.push(entry_of(alloc, line, text)?)?;
        }
    }
    Ok(())
}

/// Appends the sections of lines in order, of which the first stands before any header.
fn push_sections(alloc: Global, all: &mut Vec<Section>, lines: &[Whole]) -> Result<(), AllocError> {
    all.push(begun(alloc, 0, b"")?)?;
    for whole in lines {
        push_line(alloc, all, whole.line, &whole.text)?;
    }
    Ok(())
}

/// The sections of lines in order, of which the first stands before any header.
fn sections_in(alloc: Global, lines: &[Whole]) -> Result<Vec<Section>, AllocError> {
    let mut all = Vec::new(alloc);
    push_sections(alloc, &mut all, lines)?;
    Ok(all)
}

/// The sections of an INF in order, of which the first stands before any header.
pub fn sections_of(alloc: Global, bytes: &[u8]) -> Result<Vec<Section>, AllocError> {
    let text = plain_text(alloc, bytes)?;
    let plain = text.strip_prefix(&[0xEF, 0xBB, 0xBF]).unwrap_or(&text);
    sections_in(alloc, &whole_lines(alloc, plain)?)
}
