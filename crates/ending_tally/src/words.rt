//! Words between blanks.
ghost use Rattle.std.specs.Prelude.{◌≡◌, IfOk, map};
ghost use Rattle.ending_tally.specs.Patterns.{is_blank, words_of};

use device_ids::WantOfMemory;
use std::alloc::Global;

/// Whether the byte stands between words.
fn is_blank(byte: u8) -> bool
    ensures { result ≡ is_blank byte }
{
    byte == b' ' || byte == b'\t'
}

/// The words of a line.
pub(crate) fn words_of(alloc: Global, line: &[u8]) -> Result<Vec<&[u8]>, WantOfMemory>
    ensures { IfOk result (λ v. map (λ w. w.now) v.items ≡ words_of line.now) }
{
    line.split(|byte| is_blank(*byte))
        .filter(|part| !part.is_empty())
        .collect(alloc)
}

/// Copies of texts.
pub(crate) fn copied(alloc: Global, found: &[&[u8]]) -> Result<Vec<Vec<u8>>, WantOfMemory>
    ensures { IfOk result (λ words. map (λ w. w.items) words.items ≡ map (λ w. w.now) found.now) }
{
    let mut words = Vec::new(alloc);
    for word in found {
        words.push(Vec::from_slice(alloc, word)?)?;
    }
    Ok(words)
}
