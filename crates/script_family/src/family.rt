//! A family of scripts.
ghost use Rattle.std.specs.Prelude.{◌≡◌, ◌+◌, ◌<◌, ◌≤◌, ◌++◌, ◌∷◌, [], IfOk, OnOk, MatchResult, length, get_or};
ghost use Rattle.script_family.specs.Families.{scripts, most};
ghost use Rattle.script_family.specs.Counts.{count, sums, total, capped};
ghost use Rattle.script_family.specs.Steps.{shape};
ghost use Rattle.script_family.specs.Texts.{is_ended, ended, line_at, text_of};
ghost use Rattle.script_family.specs.Loops.{IsDraftOf, RefusesLines};
ghost use Rattle.script_family.specs.Reads.{IsRead, Refuses};

use crate::draft::Draft;
use crate::error::FamilyError;
use crate::lines::sort_of;
use crate::making::script_of;
use crate::parts::Parts;
use device_ids::{WantOfMemory, split_once};
use std::alloc::Global;
use std::marker::Model;

/// The most bytes of a text, with the line feed of its last line.
const MOST_BYTES: usize = 16_777_216;

/// A family of scripts, that was read from a text. A contract sees the text, with the line feed of its last line, and the family. This
/// project's own.
#[derive(Drop)]
pub struct ScriptFamily {
    alloc: Global,
    text: Vec<u8>,
    parts: Parts,
    root: usize,
    count: u64,
}

impl Model for ScriptFamily {
    ghost use Rattle.std.specs.Prelude.{get_or};
    ghost use Rattle.script_family.specs.Families.{Silent};
    ghost use Rattle.script_family.specs.Reads.{Told, IsWhole};
    ghost use Rattle.script_family.specs.ToldCodes.{told_code};

    ghost Value = { Told };

    ghost coded = { told_code };

    ghost view = { λ f. record { text = f.text.items; family = get_or f.parts.families f.root Silent } };

    ghost invariant = { λ f. IsWhole f.text.items f.parts.families f.root f.count };
}

/// Whether the last line has its line feed.
#[tactic(auto, using(crate::proofs::Ending::last_byte, crate::proofs::Ending::no_byte))]
fn is_ended(text: &[u8]) -> bool
    ensures { result ≡ is_ended text.now }
{
    text.is_empty() || text[text.len() - 1] == b'\n'
}

/// The text with the line feed of its last line.
fn with_feed(text: Vec<u8>) -> Result<Vec<u8>, WantOfMemory>
    ensures { IfOk result (λ whole. whole.items ≡ ended text.items) }
{
    if is_ended(&text) {
        return Ok(text);
    }
    let mut text = text;
    text.push(b'\n')?;
    Ok(text)
}

/// Reads the lines of a text that has its last line feed.
fn read_lines(alloc: Global, text: &[u8]) -> Result<Draft, FamilyError>
    requires { length text.now ≤ 16777216 }
    ensures { MatchResult result (λ d. IsDraftOf text.now d) (λ e. RefusesLines e text.now) }
{
    let mut draft = Draft::new(alloc)?;
    let mut rest = text;
    let mut passed = 0;
    while let Some((line, after)) = split_once(rest, b'\n') {
        passed += 1;
        let sort = sort_of(alloc, line, &rest[..line.len() + 1])?;
        draft.take(sort, passed, text.len() - rest.len())?;
        rest = after;
    }
    match draft.open_line() {
        Some(line) => Err(FamilyError::BadLine { line }),
        None => Ok(draft),
    }
}

/// How many scripts a part has in all, up to 2^64 - 1.
fn total_of(parts: &Parts, part: usize) -> u64
    requires { part < length parts.now.families }
    ensures { result ≡ capped (total (shape parts.now part)) }
{
    let mut sum: u64 = 0;
    for lines in 0..parts.most(part) + 1 {
        sum = sum.saturating_add(parts.count(part, lines));
    }
    sum
}

/// How many lines the script of this number of a part has, and how many scripts of so many lines are before it.
fn lines_of(parts: &Parts, part: usize, number: u64) -> (usize, u64)
    requires there { part < length parts.now.families }
    requires below { number < capped (total (shape parts.now part)) }
    ensures inside { result.0 ≤ most (shape parts.now part) }
    ensures number { sums (count (shape parts.now part)) result.0 + result.1 ≡ number }
    ensures one { result.1 < count (shape parts.now part) result.0 }
{
    let mut rest = number;
    for lines in 0..parts.most(part) + 1 {
        let many = parts.count(part, lines);
        if rest < many {
            return (lines, rest);
        }
        rest -= many;
    }
    unreachable!()
}

/// The line that begins at this place, without its line feed. Cost: its length.
fn line_at(text: &[u8], at: usize) -> &[u8]
    ensures { result.now ≡ line_at text.now at }
{
    if text.len() <= at {
        return &[];
    }
    let rest = &text[at..];
    match split_once(rest, b'\n') {
        Some((line, _)) => line,
        None => rest,
    }
}

/// Appends a line with a line feed.
fn push_line(lines: &mut Vec<u8>, line: &[u8]) -> Result<(), WantOfMemory>
    ensures { OnOk result (lines.new.items ≡ lines.old.items ++ (line.now ++ 0x0A ∷ [])) }
{
    lines.extend_from_slice(line)?;
    lines.push(b'\n')?;
    Ok(())
}

/// The lines that begin at these places, with a line feed each. Cost: their length.
fn text_of(alloc: Global, text: &[u8], places: &[usize]) -> Result<Vec<u8>, WantOfMemory>
    ensures { IfOk result (λ lines. lines.items ≡ text_of text.now places.now) }
{
    let mut lines = Vec::new(alloc);
    for at in places {
        push_line(&mut lines, line_at(text, *at))?;
    }
    Ok(lines)
}

impl ScriptFamily {
    /// The family of a text; or the number of its first bad line, or that it is too large, whichever comes first as the lines are read,
    /// or want of memory. It keeps the text. Cost: the length, and for each line the different numbers of lines that the scripts of its
    /// part have; for parts that are put together the product of these.
    pub fn read(alloc: Global, text: Vec<u8>) -> Result<ScriptFamily, FamilyError>
        ensures { MatchResult result (λ f. IsRead f text.items) (λ e. Refuses e text.items) }
    {
        let text = with_feed(text)?;
        if text.len() > MOST_BYTES {
            return Err(FamilyError::TooLarge);
        }
        let Draft { parts, current, .. } = read_lines(alloc, &text)?;
        let count = total_of(&parts, current);
        Ok(ScriptFamily {
            alloc,
            text,
            parts,
            root: current,
            count,
        })
    }

    /// How many scripts the family has; 2^64 - 1 stands for all numbers from there on.
    pub fn count(&self) -> u64
        ensures { result ≡ capped (length (scripts self.now.family)) }
    {
        self.count
    }

    /// The text of the script of this number, counted from 0: shorter scripts first. Condition: the number is below the count. Cost: the
    /// lines of the script, for each part the different numbers of lines that its own parts may have, and for each block of lines that
    /// are woven the lines.
    pub fn script(&self, number: u64) -> Result<Vec<u8>, WantOfMemory>
        requires { number < capped (length (scripts self.now.family)) }
        ensures text { IfOk result (λ text. text.items ≡ text_of self.now.text (get_or (scripts self.now.family) number [])) }
        ensures short { IfOk result (λ text. length text.items ≤ 16777216) }
    {
        let (lines, rest) = lines_of(&self.parts, self.root, number);
        let places = script_of(self.alloc, &self.parts, self.root, lines, rest)?;
        text_of(self.alloc, &self.text, &places)
    }
}
