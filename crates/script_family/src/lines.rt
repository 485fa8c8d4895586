//! What a line of a family is.
ghost use Rattle.std.specs.Prelude.{◌≡◌, ◌∷◌, [], ℕ, List, IfOk, map};
ghost use Rattle.device_ids.specs.Cuts.{parts};
ghost use Rattle.std.specs.Str.Lines.{strip_carriage_return};
ghost use Rattle.script_reader.specs.Tables.{among};
ghost use Rattle.script_reader.specs.Words.{is_blank, words_of};
ghost use Rattle.script_reader.specs.Script.{whole_line};
ghost use Rattle.script_family.specs.Lines.{keyword_of, by_meaning, tells, or_else, by_words, sort_of};
ghost use Rattle.script_family.specs.declared.sort.LineSort.{LineSort as LineSorts};

use crate::sort::{BlockKind, LineSort};
use device_ids::WantOfMemory;
use script_reader::{Line, ScriptEnd, read_events};
use std::alloc::Global;

/// The most bytes of a line before its line feed.
const LONGEST: usize = 4096;

const KEYWORDS: [(&[u8], LineSort); 5] = [
    (b"either", LineSort::Opens(BlockKind::Either)),
    (b"together", LineSort::Opens(BlockKind::Together)),
    (b"or", LineSort::Parts(BlockKind::Either)),
    (b"and", LineSort::Parts(BlockKind::Together)),
    (b"end", LineSort::Closes),
];

/// What stands beside the word in the first row that has it.
fn among<T: Copy>(rows: &[(&[u8], T)], word: &[u8]) -> Option<T>
    ensures { result ≡ among (map (λ row. (row.0.now, row.1)) rows.now) word.now }
{
    for row in rows {
        if row.0 == word {
            return Some(row.1);
        }
    }
    None
}

/// What a line is that has this word alone, if that is one of the five.
fn keyword_of(word: &[u8]) -> Option<LineSort>
    ensures { result ≡ keyword_of word.now }
{
    among(&KEYWORDS, word)
}

/// Whether the byte stands between words.
fn is_blank(byte: u8) -> bool
    ensures { result ≡ is_blank byte }
{
    byte == b' ' || byte == b'\t'
}

/// The words of a line.
fn words(alloc: Global, line: &[u8]) -> Result<Vec<&[u8]>, WantOfMemory>
    ensures { IfOk result (λ v. map (λ w. w.now) v.items ≡ words_of line.now) }
{
    line.split(|byte| is_blank(*byte))
        .filter(|part| !part.is_empty())
        .collect(alloc)
}

/// The line without a carriage return at its end.
fn without_return(line: &[u8]) -> &[u8]
    ensures { result.now ≡ strip_carriage_return line.now }
{
    if line.is_empty() {
        return line;
    }
    let last = line.len() - 1;
    if line[last] == b'\r' {
        &line[..last]
    } else {
        line
    }
}

/// What the events of a script of one line, and its end, tell of the line.
#[tactic(auto, using(crate::proofs::Sorting::tells_nothing, crate::proofs::Sorting::tells_said))]
fn sort_told(lines: &[Line], ends: ScriptEnd) -> LineSort
    ensures { result ≡ tells lines.now ends }
{
    match ends {
        ScriptEnd::Bad { .. } => LineSort::Bad,
        ScriptEnd::End => {
            if lines.len() == 0 {
                LineSort::Nothing
            } else {
                LineSort::Said
            }
        }
    }
}

/// What a line is that is no keyword, from what a reader of scripts gives that is fed it alone, with its line feed.
fn meaning_of(alloc: Global, fed: &[u8]) -> Result<LineSort, WantOfMemory>
    ensures { IfOk result (λ sort. (line : List ℕ) → parts 0x0A fed.now ≡ line ∷ ([] ∷ []) → sort ≡ by_meaning (whole_line line)) }
{
    let script = read_events(alloc, fed)?;
    Ok(sort_told(&script.lines, script.ends))
}

/// Which keyword stands alone on a line, if one does.
fn lone_keyword(alloc: Global, line: &[u8]) -> Result<Option<LineSort>, WantOfMemory>
    ensures { IfOk result (λ found. (sort : LineSorts) → by_words (words_of line.now) sort ≡ or_else sort found) }
{
    let words = words(alloc, line)?;
    let [word] = words.as_slice() else {
        return Ok(None);
    };
    Ok(keyword_of(word))
}

/// What a line is. `fed` is the line with its line feed. Cost: its length.
pub(crate) fn sort_of(alloc: Global, line: &[u8], fed: &[u8]) -> Result<LineSort, WantOfMemory>
    requires { parts 0x0A fed.now ≡ line.now ∷ ([] ∷ []) }
    ensures { IfOk result (λ sort. sort ≡ sort_of line.now) }
{
    if line.len() > LONGEST {
        return Ok(LineSort::Bad);
    }
    match lone_keyword(alloc, without_return(line))? {
        Some(sort) => Ok(sort),
        None => meaning_of(alloc, fed),
    }
}
