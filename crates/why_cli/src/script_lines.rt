//! The lines of a script that events come from.
use device_ids::{WantOfMemory, split_once};
use std::alloc::Global;

/// A line of a script: its number, counted from 1, its text, and its words.
#[derive(Drop)]
pub struct ScriptLine<'a> {
    pub number: u64,
    pub text: &'a [u8],
    pub words: Vec<&'a [u8]>,
}

/// The lines of a script that are left.
#[derive(Drop)]
pub struct ScriptLines<'a> {
    rest: &'a [u8],
    passed: u64,
}

/// Whether the byte stands between words.
fn is_blank(byte: u8) -> bool {
    byte == b' ' || byte == b'\t'
}

/// The words of a line.
fn words_of(alloc: Global, line: &[u8]) -> Result<Vec<&[u8]>, WantOfMemory> {
    line.split(|byte| is_blank(*byte))
        .filter(|part| !part.is_empty())
        .collect(alloc)
}

/// A line without a CR at its end.
fn without_return(line: &[u8]) -> &[u8] {
    match line {
        [front @ .., b'\r'] => front,
        _ => line,
    }
}

/// Whether the words are those of an event, and neither none nor a comment.
fn is_event(words: &[&[u8]]) -> bool {
    match words {
        [] => false,
        [word, ..] => !word.starts_with(b"#"),
    }
}

/// A line, if it is neither empty nor a comment.
fn event_line(
    alloc: Global,
    number: u64,
    line: &[u8],
) -> Result<Option<ScriptLine<'_>>, WantOfMemory> {
    let text = without_return(line);
    let words = words_of(alloc, text)?;
    if !is_event(&words) {
        return Ok(None);
    }
    Ok(Some(ScriptLine {
        number,
        text,
        words,
    }))
}

/// The first line that is neither empty nor a comment, and what stands behind it; so many lines stand before.
fn first_event<'a>(
    alloc: Global,
    script: &'a [u8],
    before: u64,
) -> Result<Option<(ScriptLine<'a>, &'a [u8])>, WantOfMemory> {
    let mut rest = script;
    let mut number = before;
    while let Some((line, after)) = split_once(rest, b'\n') {
        number = number.saturating_add(1);
        rest = after;
        if let Some(found) = event_line(alloc, number, line)? {
            return Ok(Some((found, rest)));
        }
    }
    match event_line(alloc, number.saturating_add(1), rest)? {
        Some(found) => Ok(Some((found, &[]))),
        None => Ok(None),
    }
}

impl<'a> ScriptLines<'a> {
    /// All lines of a script are left.
    pub fn new(script: &'a [u8]) -> ScriptLines<'a> {
        ScriptLines {
            rest: script,
            passed: 0,
        }
    }

    /// The next line that is neither empty nor a comment: the one that the next event comes from.
    pub fn next_event(&mut self, alloc: Global) -> Result<Option<ScriptLine<'a>>, WantOfMemory> {
        match first_event(alloc, self.rest, self.passed)? {
            Some((line, rest)) => {
                self.rest = rest;
                self.passed = line.number;
                Ok(Some(line))
            }
            None => {
                self.rest = &[];
                Ok(None)
            }
        }
    }
}
