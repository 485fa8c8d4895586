//! The mark of an exploration, by which parts of the same one are known.
ghost use Rattle.std.specs.Prelude.{◌≡◌, ◌<◌, ◌++◌, IfOk, OnOk};
ghost use Rattle.sha2.specs.Sha256.{sha256};
ghost use Rattle.explore_report.specs.Reports.{glyph, hexadecimal, digest_line};
ghost use Rattle.explore_report.specs.Marks.{inf_lines, pattern_lines, words_text, mark_text};

use crate::parts::Exploration;
use crate::report::push_number_line;
use device_ids::{TextList, WantOfMemory};
use sha2::{Digest, Sha256};
use std::alloc::Global;

/// The digit of a number below 16.
fn glyph(digit: u8) -> u8
    requires { digit < 16 }
    ensures { result ≡ glyph digit }
{
    const GLYPHS: [u8; 16] = *b"0123456789abcdef";
    GLYPHS[digit as usize]
}

/// Appends a digest, in lower-case hexadecimal digits.
fn push_digest(out: &mut Vec<u8>, digest: &[u8]) -> Result<(), WantOfMemory>
    ensures { OnOk result (out.new.items ≡ out.old.items ++ hexadecimal digest.now) }
{
    for byte in digest {
        out.push(glyph(*byte / 16))?;
        out.push(glyph(*byte % 16))?;
    }
    Ok(())
}

/// Appends a line of words and a digest.
pub(crate) fn push_digest_line(
    out: &mut Vec<u8>,
    words: &[u8],
    digest: &[u8; 32],
) -> Result<(), WantOfMemory>
    ensures { OnOk result (out.new.items ≡ out.old.items ++ digest_line words.now digest.now) }
{
    out.extend_from_slice(words)?;
    push_digest(out, digest)?;
    out.push(b'\n')?;
    Ok(())
}

/// Appends a line for each INF, with its digest.
fn push_infs(out: &mut Vec<u8>, infs: &[[u8; 32]]) -> Result<(), WantOfMemory>
    ensures { OnOk result (out.new.items ≡ out.old.items ++ inf_lines infs.now) }
{
    for digest in infs {
        push_digest_line(out, b"inf ", digest)?;
    }
    Ok(())
}

/// Appends for each pattern a line of a word and the digest of the pattern, which may have bytes of any kind.
fn push_patterns(out: &mut Vec<u8>, word: &[u8], patterns: &TextList) -> Result<(), WantOfMemory>
    ensures { OnOk result (out.new.items ≡ out.old.items ++ pattern_lines word.now patterns.now) }
{
    for at in 0..patterns.len() {
        push_digest_line(out, word, &Sha256::digest(patterns.get(at).bytes()))?;
    }
    Ok(())
}

/// Appends what the words of an exploration say that a part depends on.
fn push_words(out: &mut Vec<u8>, exploration: &Exploration) -> Result<(), WantOfMemory>
    ensures { OnOk result (out.new.items ≡ out.old.items ++ words_text exploration.now) }
{
    push_number_line(out, b"budget ", exploration.budget)?;
    push_number_line(out, b"first ", exploration.first)?;
    push_number_line(out, b"exact ", exploration.exact as u64)?;
    push_patterns(out, b"never ", &exploration.never)?;
    push_patterns(out, b"always ", &exploration.always)
}

/// The mark: the digest of a text that names the family and the INFs by their digests, and all words that a part depends on. How many
/// endings there may be is not among them, since that is looked at where the parts are put together.
pub(crate) fn mark_of(
    alloc: Global,
    family: &[u8; 32],
    infs: &[[u8; 32]],
    exploration: &Exploration,
) -> Result<[u8; 32], WantOfMemory>
    ensures { IfOk result (λ mark. mark ≡ sha256 (mark_text family.now infs.now exploration.now)) }
{
    let mut text = Vec::from_slice(alloc, b"pnpexplore 1\n")?;
    push_digest_line(&mut text, b"family ", family)?;
    push_infs(&mut text, infs)?;
    push_words(&mut text, exploration)?;
    Ok(Sha256::digest(&text))
}
