//! A pattern of words.
ghost use Rattle.std.specs.Prelude.{◌≡◌, IfOk, MatchOption, map};
ghost use Rattle.ending_tally.specs.Patterns.{words_of, word_fits, begins_with, fits, IsPattern};

use crate::words::{copied, words_of};
use device_ids::WantOfMemory;
use std::alloc::Global;
use std::marker::Model;

/// The most words of a pattern.
const MOST_WORDS: usize = 16;

/// What a line of a trace has to begin with: 1 to 16 words, of which `*` is any one word. A contract sees the words. This project's own.
#[derive(Drop)]
pub struct Pattern {
    alloc: Global,
    words: Vec<Vec<u8>>,
}

impl Model for Pattern {
    ghost use Rattle.std.specs.Prelude.{List, ℕ, map};

    ghost Value = { List (List ℕ) };

    ghost view = { λ p. map (λ w. w.items) p.words.items };
}

/// Whether a word of a pattern is a star, or the word.
fn word_fits(pattern: &[u8], word: &[u8]) -> bool
    ensures { result ≡ word_fits pattern.now word.now }
{
    pattern == b"*".as_slice() || pattern == word
}

/// Whether the first of these words are those of a pattern, one by one.
fn begins_with(pattern: &[Vec<u8>], words: &[&[u8]]) -> bool
    ensures { result ≡ begins_with (map (λ w. w.items) pattern.now) (map (λ w. w.now) words.now) }
{
    let mut rest = words;
    for word in pattern {
        let [first, more @ ..] = rest else {
            return false;
        };
        if !word_fits(word, first) {
            return false;
        }
        rest = more;
    }
    true
}

impl Pattern {
    /// The pattern of a text's words; none where there are not 1 to 16. Cost: the length.
    pub fn read(alloc: Global, text: &[u8]) -> Result<Option<Pattern>, WantOfMemory>
        ensures { IfOk result (λ found. MatchOption found (IsPattern (words_of text.now) → ⊥) (λ p. (p ≡ words_of text.now) × IsPattern p)) }
    {
        let found = words_of(alloc, text)?;
        if found.is_empty() || found.len() > MOST_WORDS {
            return Ok(None);
        }
        let words = copied(alloc, &found)?;
        Ok(Some(Pattern { alloc, words }))
    }

    /// Whether the first words of a line are those of the pattern, one by one. Cost: the length of the line.
    pub fn fits(&self, line: &[u8]) -> Result<bool, WantOfMemory>
        ensures { IfOk result (λ found. found ≡ fits self.now line.now) }
    {
        let words = words_of(self.alloc, line)?;
        Ok(begins_with(&self.words, &words))
    }
}
