ghost use Rattle.std.specs.Prelude.{◌≡◌, map, IfOk, ◌∷◌, [], slice_index_or};
ghost use Rattle.std.specs.Option.{option_map};
ghost use Rattle.script_reader.specs.Faults.{Gives};
ghost use Rattle.script_reader.specs.declared.cause.Cause.{Cause};
ghost use Rattle.script_reader.specs.Wants.{all_of, list_of};
ghost use Rattle.script_reader.specs.Lines.{value_at, values, is_need, is_attribute, each_is, reqs_from, reqs_of};

use crate::bytes::reqs_by_bytes;
use crate::cause::Cause;
use crate::fault::{LineError, fault};
use crate::pushes::push_list;
use crate::wants::list_of;
use resource_reqs::Reqs;
use std::alloc::{AllocError, Global};

/// The most attributes `need`.
const MOST_NEEDS: usize = 8;

/// What follows the attribute's name, where the word is one of that name.
pub fn value_at<'a>(name: &[u8], word: &'a [u8]) -> Option<&'a [u8]>
    ensures { option_map (λ x. x.now) result ≡ value_at name.now word.now }
{
    word.strip_prefix(name)
}

/// The values of the attributes of this name, in order.
pub fn values<'a>(
    alloc: Global,
    name: &[u8],
    words: &[&'a [u8]],
) -> Result<Vec<&'a [u8]>, AllocError>
    ensures { IfOk result (λ v. map (λ x. x.now) v.items ≡ values name.now (map (λ w. w.now) words.now)) }
{
    let mut found = Vec::new(alloc);
    for word in words {
        if let Some(value) = value_at(name, word) {
            found.push(value)?;
        }
    }
    Ok(found)
}

/// Whether the word says what the device requires.
fn is_need(word: &[u8]) -> bool
    ensures { result ≡ is_need word.now }
{
    if let Some(_) = value_at(b"need=", word) {
        return true;
    }
    match value_at(b"reqs=", word) {
        Some(_) => true,
        None => false,
    }
}

/// Whether the word is an attribute of `plug`.
fn is_attribute(word: &[u8]) -> bool
    ensures { result ≡ is_attribute word.now }
{
    if let Some(_) = value_at(b"hw=", word) {
        return true;
    }
    if let Some(_) = value_at(b"compat=", word) {
        return true;
    }
    is_need(word)
}

/// That each word says what the device requires.
pub fn are_needs<'a>(words: &[&'a [u8]]) -> Result<(), LineError<'a>>
    ensures { Gives result (each_is is_need Cause.NotNeed (map (λ w. w.now) words.now)) }
{
    for word in words {
        if !is_need(word) {
            return Err(LineError::Bad(fault(Cause::NotNeed, word)));
        }
    }
    Ok(())
}

/// That each word is an attribute of `plug`.
pub fn are_attributes<'a>(words: &[&'a [u8]]) -> Result<(), LineError<'a>>
    ensures { Gives result (each_is is_attribute Cause.NotAttribute (map (λ w. w.now) words.now)) }
{
    for word in words {
        if !is_attribute(word) {
            return Err(LineError::Bad(fault(Cause::NotAttribute, word)));
        }
    }
    Ok(())
}

/// The requirements that these alternative lists make.
fn lists_of<'a>(alloc: Global, values: &[&'a [u8]]) -> Result<Reqs, LineError<'a>>
    ensures { Gives result (reqs_from [] (map (λ w. w.now) values.now)) }
{
    if values.len() > MOST_NEEDS {
        return Err(LineError::Bad(fault(Cause::ManyNeeds, values[MOST_NEEDS])));
    }
    let mut reqs = Reqs::new(alloc);
    for value in values {
        push_list(&mut reqs, list_of(alloc, value)?)?;
    }
    Ok(reqs)
}

/// The requirements that the bytes say, where no `need` stands beside them.
fn bytes_alone<'a>(alloc: Global, text: &'a [u8], needs: &[&'a [u8]]) -> Result<Reqs, LineError<'a>>
    ensures { Gives result (reqs_from (text.now ∷ []) (map (λ w. w.now) needs.now)) }
{
    match needs {
        [] => reqs_by_bytes(alloc, text),
        [need, ..] => Err(LineError::Bad(fault(Cause::BesideBytes, need))),
    }
}

/// The requirements that the values of `reqs` and of `need` are.
fn reqs_from<'a>(
    alloc: Global,
    bytes: &[&'a [u8]],
    needs: &[&'a [u8]],
) -> Result<Reqs, LineError<'a>>
    ensures { Gives result (reqs_from (map (λ w. w.now) bytes.now) (map (λ w. w.now) needs.now)) }
{
    match bytes {
        [] => lists_of(alloc, needs),
        [text] => bytes_alone(alloc, text, needs),
        [_, second, ..] => Err(LineError::Bad(fault(Cause::Twice, second))),
    }
}

/// The requirements: an alternative list for each `need`, or the bytes that stand in place of them.
pub fn reqs_of<'a>(alloc: Global, attributes: &[&'a [u8]]) -> Result<Reqs, LineError<'a>>
    ensures { Gives result (reqs_of (map (λ w. w.now) attributes.now)) }
{
    let needs = values(alloc, b"need=", attributes)?;
    let bytes = values(alloc, b"reqs=", attributes)?;
    reqs_from(alloc, &bytes, &needs)
}
