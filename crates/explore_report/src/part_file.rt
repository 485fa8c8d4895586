//! A part is read again: what it tells of its scripts, if it is a part of this exploration, and as it is written.
ghost use Rattle.std.specs.Prelude.{◌≡◌, IfOk, IfSome, length, true};
ghost use Rattle.ending_tally.specs.Steps.{told};
ghost use Rattle.explore_report.specs.Scripts.{IsPart};
ghost use Rattle.explore_report.specs.Reports.{part_text};

use crate::expected::Expected;
use crate::parts::Part;
use crate::report::part_report;
use crate::words::{number_of, part_of};
use device_ids::{WantOfMemory, split_once};
use ending_tally::{Mark, Tally, plain_ending};
use std::alloc::Global;

/// What a part is to be of.
#[derive(Clone, Copy)]
pub(crate) struct Of<'a> {
    pub(crate) mark: &'a [u8; 32],
    /// How many scripts the family has.
    pub(crate) count: u64,
    /// How many of them are run in all parts.
    pub(crate) below: u64,
    pub(crate) exact: bool,
    pub(crate) expected: &'a Expected,
}

/// The lines of a part that are still to be read.
#[derive(Drop)]
struct Lines<'a> {
    rest: &'a [u8],
}

impl<'a> Lines<'a> {
    /// The next line, without its line feed.
    fn next(&mut self) -> Option<&'a [u8]> {
        let (line, rest) = split_once(self.rest, b'\n')?;
        self.rest = rest;
        Some(line)
    }

    /// The number behind these words, which are all else that the next line has.
    fn number(&mut self, words: &[u8]) -> Option<u64> {
        number_of(self.next()?.strip_prefix(words)?)
    }

    /// So many lines, with their line feeds.
    fn take(&mut self, count: u64) -> Option<&'a [u8]> {
        let all = self.rest;
        for _ in 0..count {
            self.next()?;
        }
        all.get(..all.len().checked_sub(self.rest.len())?)
    }
}

/// How many scripts a part has.
pub(crate) fn scripts_in(part: Part, below: u64) -> u64 {
    if part.number > below || part.number == 0 || part.of == 0 {
        0
    } else {
        ((below - part.number) / part.of).saturating_add(1)
    }
}

/// The part that a line `part I/N MARK` names.
fn named(line: &[u8]) -> Option<Part>
    ensures { IfSome result IsPart }
{
    let (part, _) = split_once(line.strip_prefix(b"part ".as_slice())?, b' ')?;
    part_of(part)
}

/// What `C first N` tells: how many scripts, and the number of the first, from 0.
fn mark_in(told: &[u8]) -> Option<Mark> {
    let (scripts, told) = split_once(told, b' ')?;
    let first = number_of(told.strip_prefix(b"first ".as_slice())?)?;
    Some(Mark {
        scripts: number_of(scripts)?,
        first: first.checked_sub(1)?,
    })
}

/// What a line tells of an expectation, behind its word and number.
fn broken_of(line: &[u8]) -> Option<Mark> {
    let (_, told) = split_once(line, b' ')?;
    let (_, told) = split_once(told, b' ')?;
    let told = told.strip_prefix(b"broken by ".as_slice())?;
    if number_of(told) == Some(0) {
        return Some(Mark {
            scripts: 0,
            first: 0,
        });
    }
    mark_in(told)
}

/// What a line `ending J scripts C first N` tells.
fn ending_of(line: &[u8]) -> Option<Mark> {
    let (_, told) = split_once(line.strip_prefix(b"ending ".as_slice())?, b' ')?;
    mark_in(told.strip_prefix(b"scripts ".as_slice())?)
}

/// Reads what is told of the expectations; whether all of it stands there.
fn read_broken(lines: &mut Lines, expected: &Expected, tally: &mut Tally) -> bool {
    for at in 0..expected.never() + expected.always() {
        let Some(line) = lines.next() else {
            return false;
        };
        match broken_of(line) {
            Some(broken) => tally.add_broken(at, broken),
            None => return false,
        }
    }
    true
}

/// Whether a part has the script of this number, counted from 0.
fn has(part: Part, below: u64, number: u64) -> bool {
    part.of > 0 && number < below && number % part.of == part.number.saturating_sub(1)
}

/// Reads an ending; how many scripts lead to it.
fn read_ending(
    alloc: Global,
    lines: &mut Lines,
    part: Part,
    of: Of,
    tally: &mut Tally,
) -> Result<Option<u64>, WantOfMemory> {
    let Some(mark) = told_ending(lines) else {
        return Ok(None);
    };
    if mark.scripts == 0 || !has(part, of.below, mark.first) {
        return Ok(None);
    }
    let Some(text) = told_text(lines) else {
        return Ok(None);
    };
    if of.exact {
        tally.add_ending(text, mark, text)?;
    } else {
        let plain = plain_ending(alloc, text)?;
        tally.add_ending(&plain, mark, text)?;
    }
    Ok(Some(mark.scripts))
}

/// What the next line tells of an ending.
fn told_ending(lines: &mut Lines) -> Option<Mark> {
    ending_of(lines.next()?)
}

/// The lines of an ending, behind the line that says how many there are.
fn told_text<'a>(lines: &mut Lines<'a>) -> Option<&'a [u8]> {
    let count = lines.number(b"lines ")?;
    lines.take(count)
}

/// Reads all endings; how many scripts lead to one.
fn read_endings(
    alloc: Global,
    lines: &mut Lines,
    part: Part,
    of: Of,
    tally: &mut Tally,
) -> Result<Option<u64>, WantOfMemory> {
    let Some(endings) = lines.number(b"endings ") else {
        return Ok(None);
    };
    let mut scripts = 0u64;
    for _ in 0..endings {
        match read_ending(alloc, lines, part, of, tally)? {
            Some(more) => scripts = scripts.saturating_add(more),
            None => return Ok(None),
        }
    }
    Ok(Some(scripts))
}

/// Reads what stands behind the first line, up to the last one; whether it is what a part tells.
fn read_tally(
    alloc: Global,
    lines: &mut Lines,
    part: Part,
    of: Of,
    tally: &mut Tally,
) -> Result<bool, WantOfMemory> {
    let _ = lines.next();
    let run = lines.number(b"run ");
    if run != Some(scripts_in(part, of.below)) {
        return Ok(false);
    }
    if !read_broken(lines, of.expected, tally) {
        return Ok(false);
    }
    let scripts = read_endings(alloc, lines, part, of, tally)?;
    tally.add_scripts(run.unwrap_or(0));
    Ok(scripts == run)
}

/// What a part tells. This project's own.
#[derive(Drop)]
pub(crate) struct PartRead {
    pub(crate) part: Part,
    pub(crate) tally: Tally,
}

/// Whether a text is just what is written of what was read from it.
fn is_written(
    alloc: Global,
    text: &[u8],
    of: Of,
    part: Part,
    tally: &Tally,
) -> Result<bool, WantOfMemory>
    ensures { IfOk result (λ is. is ≡ true → text.now ≡ part_text part of.entry.mark.now of.entry.count (length of.entry.expected.now.never.items) (told tally.now)) }
{
    let written = part_report(alloc, of.count, part, of.mark, of.expected.never(), tally)?;
    Ok(written.as_slice() == text)
}

/// What a text tells, where it is a part of this exploration, and just as it is written. Cost: its bytes.
pub(crate) fn read_part(
    alloc: Global,
    text: &[u8],
    of: Of,
) -> Result<Option<PartRead>, WantOfMemory>
    ensures part { IfOk result (λ found. IfSome found (λ read. IsPart read.part)) }
    ensures written { IfOk result (λ found. IfSome found (λ read. text.now ≡ part_text read.part of.entry.mark.now of.entry.count (length of.entry.expected.now.never.items) (told read.tally))) }
{
    let mut lines = Lines { rest: text };
    let Some(first) = lines.next() else {
        return Ok(None);
    };
    let Some(part) = named(first) else {
        return Ok(None);
    };
    let mut tally = Tally::new(alloc, of.expected.never() + of.expected.always())?;
    if read_tally(alloc, &mut lines, part, of, &mut tally)?
        && is_written(alloc, text, of, part, &tally)?
    {
        Ok(Some(PartRead { part, tally }))
    } else {
        Ok(None)
    }
}
