ghost use Rattle.std.specs.Prelude.{◌≡◌, ◌<◌, ◌≤◌, ◌∷◌, [], length, map, not, take, IfOk, IfSome, MatchOption};
ghost use Rattle.std.specs.List.{list_all, position};
ghost use Rattle.std.specs.Str.{bytes_eq};
ghost use Rattle.script_reader.specs.Words.{is_blank, words_of, is_name, is_name_byte};

use std::alloc::{AllocError, Global};

/// The most bytes of a name.
const LONGEST_NAME: usize = 64;

/// Whether two words are the same. Byte by byte: words are short, and `==` of slices compares long ones fast.
/// Cost: the bytes that are the same, where the words are equally long.
pub fn is_same(word: &[u8], other: &[u8]) -> bool
    ensures { result ≡ bytes_eq word.now other.now }
{
    if word.len() != other.len() {
        return false;
    }
    for (at, byte) in word.iter().enumerate() {
        if *byte != other[at] {
            return false;
        }
    }
    true
}

/// Whether the byte stands between words.
pub fn is_blank(byte: u8) -> bool
    ensures { result ≡ is_blank byte }
{
    byte == b' ' || byte == b'\t'
}

/// The place at which the first word begins.
pub fn word_start(line: &[u8]) -> Option<usize>
    ensures { result ≡ position (λ byte. not (is_blank byte)) line.now }
{
    line.iter().position(|byte| !is_blank(*byte))
}

/// The place of the first blank.
fn first_blank(text: &[u8]) -> Option<usize>
    ensures { result ≡ position is_blank text.now }
{
    text.iter().position(|byte| is_blank(*byte))
}

/// The first word, and what stands behind it; none where there is no word. Cost: the bytes up to its end.
#[tactic(auto, using(crate::proofs::Wording::no_word))]
pub fn next_word(line: &[u8]) -> Option<(&[u8], &[u8])>
    ensures word { MatchOption result (words_of line.now ≡ []) (λ x. words_of line.now ≡ x.0.now ∷ words_of x.1.now) }
    ensures shorter { IfSome result (λ x. length x.1.now < length line.now) }
{
    let start = word_start(line)?;
    let text = &line[start..];
    let end = first_blank(text).unwrap_or(text.len());
    Some(text.split_at(end))
}

/// Writes the words of a line to the front, and answers how many they are; none where there is no room for
/// them. Cost: the length.
#[tactic(auto, using(crate::proofs::Wording::written_none, crate::proofs::Wording::written_next, crate::proofs::Wording::written_full, crate::proofs::Wording::written_all))]
pub fn write_words<'a>(line: &'a [u8], words: &mut [&'a [u8]]) -> Option<usize>
    ensures room { length words.new ≡ length words.old }
    ensures count { MatchOption result (length words.old < length (words_of line.now)) (λ count. count ≤ length words.old) }
    ensures words { IfSome result (λ count. map (λ w. w.now) (take count words.new) ≡ words_of line.now) }
{
    let mut rest = line;
    let mut count = 0;
    while let Some((word, more)) = next_word(rest) {
        if count == words.len() {
            return None;
        }
        words[count] = word;
        count += 1;
        rest = more;
    }
    Some(count)
}

/// The words of a line, however many. Cost: the length.
pub fn all_words(alloc: Global, line: &[u8]) -> Result<Vec<&[u8]>, AllocError>
    ensures { IfOk result (λ v. map (λ w. w.now) v.items ≡ words_of line.now) }
{
    line.split(|byte| is_blank(*byte))
        .filter(|part| !part.is_empty())
        .collect(alloc)
}

/// Whether the byte is one of a name.
fn is_name_byte(byte: u8) -> bool
    ensures { result ≡ is_name_byte byte }
{
    byte.is_ascii_alphanumeric() || byte == b'_' || byte == b'-' || byte == b'.'
}

/// Whether each byte is one of a name.
fn are_name_bytes(word: &[u8]) -> bool
    ensures { result ≡ list_all is_name_byte word.now }
{
    word.iter().all(|byte| is_name_byte(*byte))
}

/// Whether the word is a name: 1 to 64 letters, digits and marks.
pub fn is_name(word: &[u8]) -> bool
    ensures { result ≡ is_name word.now }
{
    if word.is_empty() || word.len() > LONGEST_NAME {
        return false;
    }
    are_name_bytes(word)
}
