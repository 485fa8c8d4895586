//! Tokens, and what stands for them.
ghost use Rattle.std.specs.Prelude.{◌≡◌, ◌++◌, ◌∷◌, [], IfOk, OnOk, option_map};
ghost use Rattle.device_ids.specs.Folding.{folded};
ghost use Rattle.inf_reader.specs.Tokens.{token, replaced, text_with};
ghost use Rattle.inf_reader.specs.Found.{text_found};

use crate::texts::folded_bytes;
use device_ids::{Text, split_once};
use std::alloc::{AllocError, Global};
use std::collections::BTreeMap;

/// What the folded names of tokens stand for.
pub struct Strings {
    pub texts: BTreeMap<Vec<u8>, Text>,
}

impl Drop for Strings {
    fn drop(self) {
        let Strings { texts: _ } = self;
    }
}

impl Strings {
    /// What a name stands for; it is folded here. Cost: its length for each of a logarithm of names.
    fn get(&self, alloc: Global, name: &[u8]) -> Result<Option<&Text>, AllocError>
        ensures { IfOk result (λ found. option_map (λ t. t.now) found ≡ text_found self.now (folded name.now)) }
    {
        let folded = folded_bytes(alloc, name)?;
        Ok(self.texts.get(folded.as_slice()))
    }
}

/// Adds a name between its marks, as it is written.
fn push_written(name: &[u8], out: &mut Vec<u8>) -> Result<(), AllocError>
    ensures { OnOk result (out.new.items ≡ out.old.items ++ 0x25 ∷ name.now ++ 0x25 ∷ []) }
{
    out.push(b'%')?;
    out.extend_from_slice(name)?;
    out.push(b'%')?;
    Ok(())
}

/// Adds what stands for a name between two marks.
fn push_token(
    alloc: Global,
    strings: &Strings,
    name: &[u8],
    out: &mut Vec<u8>,
) -> Result<(), AllocError>
    ensures { OnOk result (out.new.items ≡ out.old.items ++ token (text_found strings.now) name.now) }
{
    if name.is_empty() {
        out.push(b'%')?;
        return Ok(());
    }
    match strings.get(alloc, name)? {
        Some(text) => out.extend_from_slice(text.bytes()),
        None => push_written(name, out),
    }
}

/// Adds a text with its tokens replaced.
fn push_replaced(
    alloc: Global,
    strings: &Strings,
    text: &[u8],
    out: &mut Vec<u8>,
) -> Result<(), AllocError>
    ensures { OnOk result (out.new.items ≡ out.old.items ++ replaced (text_found strings.now) text.now) }
{
    let mut rest = text;
    while let Some((plain, name_on)) = split_once(rest, b'%') {
        out.extend_from_slice(plain)?;
        let Some((name, after)) = split_once(name_on, b'%') else {
            out.push(b'%')?;
            return out.extend_from_slice(name_on);
        };
        push_token(alloc, strings, name, out)?;
        rest = after;
    }
    out.extend_from_slice(rest)
}

/// A text with its tokens replaced, or as it is written.
pub fn text_with(alloc: Global, strings: Option<&Strings>, text: &[u8]) -> Result<Text, AllocError>
    ensures { IfOk result (λ made. made ≡ text_with (option_map (λ s. text_found s.now) strings.entry) text.now) }
{
    match strings {
        Some(strings) => {
            let mut bytes = Vec::new(alloc);
            push_replaced(alloc, strings, text, &mut bytes)?;
            Text::make(alloc, &bytes)
        }
        None => Text::make(alloc, text),
    }
}
