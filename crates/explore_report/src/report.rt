//! What is written of a tally.
ghost use Rattle.std.specs.Prelude.{◌≡◌, ◌<◌, ◌∷◌, ◌++◌, [], IfOk, OnOk, length, map, codes, reverse};
ghost use Rattle.std.specs.Fmt.{decimal};
ghost use Rattle.sha2.specs.Sha256.{sha256};
ghost use Rattle.script_family.specs.Families.{scripts};
ghost use Rattle.script_family.specs.Counts.{capped};
ghost use Rattle.ending_tally.specs.Steps.{told, ended};
ghost use Rattle.explore_report.specs.Fronts.{Found, AreFrontsOf};
ghost use Rattle.explore_report.specs.Reports.{line, number_line, count_line, broken_line, broken_lines, head, endings_line, ending_line, is_blank, without_blanks, trimmed, lines_of, numbered_text, line_at, differs_at, difference, script_lines, scripts_of, ending_text, endings_text, report_text, feeds, digest_line, part_line, part_ending, part_endings, part_text};

use crate::fronts::{Fronts, Together};
use crate::mark::push_digest_line;
use crate::parts::Part;
use device_ids::{WantOfMemory, cut};
use ending_tally::{Ending, Mark, Tally};
use pnp_labels::push_decimal;
use script_family::ScriptFamily;
use sha2::{Digest, Sha256};
use std::alloc::Global;

/// From this count on all counts are told alike.
const MANY: u64 = u64::MAX;

/// Appends words and a number.
pub(crate) fn push_told(out: &mut Vec<u8>, words: &[u8], number: u64) -> Result<(), WantOfMemory>
    ensures { OnOk result (out.new.items ≡ out.old.items ++ (words.now ++ decimal number)) }
{
    out.extend_from_slice(words)?;
    push_decimal(out, number)
}

/// Appends a line of words and a number.
pub(crate) fn push_number_line(
    out: &mut Vec<u8>,
    words: &[u8],
    number: u64,
) -> Result<(), WantOfMemory>
    ensures { OnOk result (out.new.items ≡ out.old.items ++ number_line words.now number) }
{
    push_told(out, words, number)?;
    out.push(b'\n')?;
    Ok(())
}

/// Appends the line that tells how many scripts a family has.
pub(crate) fn push_count(out: &mut Vec<u8>, count: u64) -> Result<(), WantOfMemory>
    ensures { OnOk result (out.new.items ≡ out.old.items ++ count_line count) }
{
    if count == MANY {
        push_number_line(out, b"scripts more than ", MANY - 1)
    } else {
        push_number_line(out, b"scripts ", count)
    }
}

/// Appends the line of an expectation: by how many scripts it is broken, and by which first.
fn push_broken(
    out: &mut Vec<u8>,
    word: &[u8],
    place: usize,
    broken: Mark,
) -> Result<(), WantOfMemory>
    ensures { OnOk result (out.new.items ≡ out.old.items ++ broken_line word.now place broken) }
{
    push_told(out, word, (place as u64).saturating_add(1))?;
    push_told(out, b" broken by ", broken.scripts)?;
    if broken.scripts > 0 {
        push_told(out, b" first ", broken.first.saturating_add(1))?;
    }
    out.push(b'\n')?;
    Ok(())
}

/// Appends the lines of the expectations of a word.
fn push_all_broken(out: &mut Vec<u8>, word: &[u8], broken: &[Mark]) -> Result<(), WantOfMemory>
    ensures { OnOk result (out.new.items ≡ out.old.items ++ broken_lines word.now 0 broken.now) }
{
    for at in 0..broken.len() {
        push_broken(out, word, at, broken[at])?;
    }
    Ok(())
}

/// Appends the lines on the scripts that were run and on the expectations, of which so many are of lines that are not to come.
fn push_head(out: &mut Vec<u8>, count: u64, never: usize, tally: &Tally) -> Result<(), WantOfMemory>
    ensures { OnOk result (out.new.items ≡ out.old.items ++ head count never (told tally.now)) }
{
    push_count(out, count)?;
    push_number_line(out, b"run ", tally.scripts())?;
    let broken = tally.broken();
    let (nevers, always) = broken.split_at(never.min(broken.len()));
    push_all_broken(out, b"never ", nevers)?;
    push_all_broken(out, b"always ", always)
}

/// Appends the line that begins an ending.
fn push_ending(out: &mut Vec<u8>, at: usize, mark: Mark) -> Result<(), WantOfMemory>
    ensures { OnOk result (out.new.items ≡ out.old.items ++ ending_line at mark) }
{
    push_told(out, b"ending ", (at as u64).saturating_add(1))?;
    push_told(out, b" scripts ", mark.scripts)?;
    push_number_line(out, b" first ", mark.first.saturating_add(1))
}

/// Whether a byte at an end of a line says nothing: a blank, or a carriage return.
fn is_blank(byte: u8) -> bool
    ensures { result ≡ is_blank byte }
{
    byte == b' ' || byte == b'\t' || byte == b'\r'
}

/// A line without the blanks at its front.
fn without_blanks(line: &[u8]) -> &[u8]
    ensures { result.now ≡ without_blanks line.now }
{
    for at in 0..line.len() {
        if !is_blank(line[at]) {
            return &line[at..];
        }
    }
    &[]
}

/// A line without the blanks at its end.
fn without_end(line: &[u8]) -> &[u8]
    ensures { result.now ≡ reverse (without_blanks (reverse line.now)) }
{
    let mut rest = line;
    'bytes: while let [front @ .., last] = rest {
        if !is_blank(*last) {
            return rest;
        }
        rest = front;
    }
    rest
}

/// A line without the blanks at its ends, which say nothing, and without a carriage return there.
fn trimmed(line: &[u8]) -> &[u8]
    ensures { result.now ≡ trimmed line.now }
{
    without_end(without_blanks(line))
}

/// The lines of a text each of which has its line feed.
fn lines_of(alloc: Global, text: &[u8]) -> Result<Vec<&[u8]>, WantOfMemory>
    ensures { IfOk result (λ lines. map (λ line. line.now) lines.items ≡ lines_of text.now) }
{
    let parts = cut(alloc, text, b'\n')?;
    let mut lines = Vec::new(alloc);
    for at in 0..parts.len().saturating_sub(1) {
        lines.push(trimmed(parts[at]))?;
    }
    Ok(lines)
}

/// The script of a number, where the family has one.
fn script_of(alloc: Global, family: &ScriptFamily, number: u64) -> Result<Vec<u8>, WantOfMemory>
    ensures { IfOk result (λ text. text.items ≡ numbered_text family.now number) }
{
    if number < family.count() {
        family.script(number)
    } else {
        Ok(Vec::new(alloc))
    }
}

/// Appends a sign and the line that stands at a place of a script; where the script is over, `end`, which is no line of a script.
fn push_place(
    out: &mut Vec<u8>,
    sign: &[u8],
    lines: &[&[u8]],
    at: usize,
) -> Result<(), WantOfMemory>
    ensures { OnOk result (out.new.items ≡ out.old.items ++ line (sign.now ++ line_at (map (λ line. line.now) lines.now) at)) }
{
    out.extend_from_slice(sign)?;
    match lines.get(at) {
        Some(line) => out.extend_from_slice(line)?,
        None => out.extend_from_slice(b"end")?,
    }
    out.push(b'\n')?;
    Ok(())
}

/// Appends how a script differs from an earlier one: at which line, and both lines.
fn push_differs(
    out: &mut Vec<u8>,
    together: Together,
    others: &[&[u8]],
    lines: &[&[u8]],
) -> Result<(), WantOfMemory>
    ensures { OnOk result (out.new.items ≡ out.old.items ++ differs_at (map (λ line. line.now) others.now) together.other (map (λ line. line.now) lines.now) together.lines) }
{
    push_told(
        out,
        b"differs from ",
        (together.other as u64).saturating_add(1),
    )?;
    push_number_line(out, b" line ", (together.lines as u64).saturating_add(1))?;
    push_place(out, b"< ", others, together.lines)?;
    push_place(out, b"> ", lines, together.lines)
}

/// Appends how the first script of an ending differs from that of an earlier one, so far as they go together.
fn push_difference(
    alloc: Global,
    out: &mut Vec<u8>,
    family: &ScriptFamily,
    earlier: &[&Ending],
    lines: &[&[u8]],
    together: Together,
) -> Result<(), WantOfMemory>
    requires { 0 < length earlier.now → Found (scripts_of family.now (map (λ e. ended e.now) earlier.now)) (map (λ line. line.now) lines.now) together.other together.lines }
    ensures { OnOk result (out.new.items ≡ out.old.items ++ difference (scripts_of family.now (map (λ e. ended e.now) earlier.now)) (map (λ line. line.now) lines.now)) }
{
    if earlier.is_empty() {
        return Ok(());
    }
    let other = script_of(alloc, family, earlier[together.other].mark.first)?;
    let others = lines_of(alloc, &other)?;
    push_differs(out, together, &others, lines)
}

/// Appends the ending at a place: its line, from the second ending on how its first script differs from that of an earlier one, the one
/// with which it goes together longest, and its text. Condition: the fronts are those of the first scripts of the endings before.
fn push_ending_whole(
    alloc: Global,
    out: &mut Vec<u8>,
    family: &ScriptFamily,
    earlier: &[&Ending],
    ending: &Ending,
    fronts: &mut Fronts,
) -> Result<(), WantOfMemory>
    requires { AreFrontsOf (scripts_of family.now (map (λ e. ended e.now) earlier.now)) fronts.old }
    ensures text { OnOk result (out.new.items ≡ out.old.items ++ ending_text family.now (map (λ e. ended e.now) earlier.now) (ended ending.now)) }
    ensures fronts { OnOk result (AreFrontsOf (scripts_of family.now (map (λ e. ended e.now) earlier.now) ++ script_lines family.now ending.now.mark.first ∷ []) fronts.new) }
{
    push_ending(out, earlier.len(), ending.mark)?;
    let script = script_of(alloc, family, ending.mark.first)?;
    let lines = lines_of(alloc, &script)?;
    let together = fronts.take(alloc, earlier.len(), &lines)?;
    push_difference(alloc, out, family, earlier, &lines, together)?;
    out.extend_from_slice(&ending.text)?;
    Ok(())
}

/// Appends all endings.
fn push_all_endings(
    alloc: Global,
    out: &mut Vec<u8>,
    family: &ScriptFamily,
    endings: &[&Ending],
) -> Result<(), WantOfMemory>
    ensures { OnOk result (out.new.items ≡ out.old.items ++ endings_text family.now [] (map (λ e. ended e.now) endings.now)) }
{
    let mut fronts = Fronts::new(alloc)?;
    for at in 0..endings.len() {
        let earlier = &endings[..at];
        push_ending_whole(alloc, out, family, earlier, endings[at], &mut fronts)?;
    }
    Ok(())
}

/// Appends the line that tells how many endings there are.
fn push_endings(out: &mut Vec<u8>, endings: usize) -> Result<(), WantOfMemory>
    ensures { OnOk result (out.new.items ≡ out.old.items ++ endings_line endings) }
{
    push_number_line(out, b"endings ", endings as u64)
}

/// The report on a tally of all scripts that were run, of whose expectations so many are of lines that are not to come.
pub(crate) fn report(
    alloc: Global,
    family: &ScriptFamily,
    never: usize,
    tally: &Tally,
) -> Result<Vec<u8>, WantOfMemory>
    ensures { IfOk result (λ text. text.items ≡ report_text family.now (capped (length (scripts family.now.family))) never (told tally.now)) }
{
    let mut out = Vec::new(alloc);
    push_head(&mut out, family.count(), never, tally)?;
    let endings = tally.endings()?;
    push_endings(&mut out, endings.len())?;
    push_all_endings(alloc, &mut out, family, &endings)?;
    Ok(out)
}

/// How many line feeds a text has.
fn feeds(text: &[u8]) -> usize
    ensures { result ≡ feeds text.now }
{
    text.iter().filter(|byte| **byte == b'\n').count()
}

/// Appends the line that names a part and the exploration that it belongs to.
fn push_part(out: &mut Vec<u8>, part: Part, mark: &[u8; 32]) -> Result<(), WantOfMemory>
    ensures { OnOk result (out.new.items ≡ out.old.items ++ part_line part mark.now) }
{
    push_told(out, b"part ", part.number)?;
    push_told(out, b"/", part.of)?;
    push_digest_line(out, b" ", mark)
}

/// Appends an ending of a part.
fn push_part_ending(out: &mut Vec<u8>, at: usize, ending: &Ending) -> Result<(), WantOfMemory>
    ensures { OnOk result (out.new.items ≡ out.old.items ++ part_ending at (ended ending.now)) }
{
    push_ending(out, at, ending.mark)?;
    push_number_line(out, b"lines ", feeds(&ending.text) as u64)?;
    out.extend_from_slice(&ending.text)?;
    Ok(())
}

/// Appends the endings of a part.
fn push_part_endings(out: &mut Vec<u8>, endings: &[&Ending]) -> Result<(), WantOfMemory>
    ensures { OnOk result (out.new.items ≡ out.old.items ++ part_endings 0 (map (λ e. ended e.now) endings.now)) }
{
    for at in 0..endings.len() {
        push_part_ending(out, at, endings[at])?;
    }
    Ok(())
}

/// Appends the last line of a part: the digest of all that stands before it.
fn push_sum(out: &mut Vec<u8>) -> Result<(), WantOfMemory>
    ensures { OnOk result (out.new.items ≡ out.old.items ++ digest_line (codes "sum ") (sha256 out.old.items)) }
{
    let digest = Sha256::digest(out.as_slice());
    push_digest_line(out, b"sum ", &digest)
}

/// What is written of the tally of a part: all that is needed to put it together with those of the other parts.
pub(crate) fn part_report(
    alloc: Global,
    count: u64,
    part: Part,
    mark: &[u8; 32],
    never: usize,
    tally: &Tally,
) -> Result<Vec<u8>, WantOfMemory>
    ensures { IfOk result (λ text. text.items ≡ part_text part mark.now count never (told tally.now)) }
{
    let mut out = Vec::new(alloc);
    push_part(&mut out, part, mark)?;
    push_head(&mut out, count, never, tally)?;
    let endings = tally.endings()?;
    push_endings(&mut out, endings.len())?;
    push_part_endings(&mut out, &endings)?;
    push_sum(&mut out)?;
    Ok(out)
}
