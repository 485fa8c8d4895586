//! The lines of the answers.
ghost use Rattle.std.specs.Prelude.{◌≡◌, IfOk, MatchOption, map, option_map, true, false};
ghost use Rattle.std.specs.List.{list_all};
ghost use Rattle.std.specs.Str.{bytes_eq};
ghost use Rattle.device_ids.specs.Ids.{is_path};
ghost use Rattle.script_reader.specs.Words.{is_name};
ghost use Rattle.live_model.specs.Answers.{are_tags, behind, is_taken, words_in};

use device_ids::{InstancePath, PathError, WantOfMemory, cut};
use pnp_labels::{Answer, decimal};
use script_reader::is_name;
use std::alloc::{AllocError, Global};

/// Whether a word is this one.
pub(crate) fn is_word(word: &[u8], own: &[u8]) -> bool
    ensures { result ≡ bytes_eq word.now own.now }
{
    word == own
}

/// The words behind the first, where that is this one.
fn behind<'a>(
    alloc: Global,
    words: &[&'a [u8]],
    number: &[u8],
) -> Result<Option<Vec<&'a [u8]>>, WantOfMemory>
    ensures { IfOk result (λ more. option_map (λ v. map (λ w. w.now) v.items) more ≡ behind number.now (map (λ w. w.now) words.now)) }
{
    match words {
        [first, more @ ..] if is_word(first, number) => Ok(Some(Vec::from_slice(alloc, more)?)),
        _ => Ok(None),
    }
}

/// The words of a line behind the number of its ask; none where it begins with no such number.
pub(crate) fn words_of(
    alloc: Global,
    line: &[u8],
    number: u64,
) -> Result<Option<Vec<&[u8]>>, WantOfMemory>
    ensures { IfOk result (λ words. option_map (λ v. map (λ w. w.now) v.items) words ≡ words_in number line.now) }
{
    let words = cut(alloc, line, b' ')?;
    let own = decimal(alloc, number)?;
    behind(alloc, &words, own.as_bytes())
}

/// Whether each word is a name.
fn are_names(words: &[&[u8]]) -> bool
    ensures { result ≡ list_all (λ w. is_name w.now) words.now }
{
    words.iter().all(|word| is_name(word))
}

/// Whether each word has the form of a tag, which is that of a name.
pub(crate) fn are_tags(words: &[&[u8]]) -> bool
    ensures { result ≡ are_tags (map (λ w. w.now) words.now) }
{
    are_names(words)
}

/// Whether an answer may be given: AddDevice is not pended.
pub(crate) fn is_taken(may_pend: bool, answer: Answer) -> bool
    ensures { result ≡ is_taken may_pend answer }
{
    match answer {
        Answer::Pend => may_pend,
        _ => true,
    }
}

/// The path that a word is, if it is one.
pub(crate) fn path_of(alloc: Global, word: &[u8]) -> Result<Option<InstancePath>, WantOfMemory>
    ensures { IfOk result (λ path. MatchOption path (is_path word.now ≡ false) (λ p. (p ≡ word.now) × (is_path word.now ≡ true))) }
{
    match InstancePath::read(alloc, word) {
        Ok(path) => Ok(Some(path)),
        Err(PathError::WantOfMemory) => Err(AllocError),
        Err(_) => Ok(None),
    }
}
