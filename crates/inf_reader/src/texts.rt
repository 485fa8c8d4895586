//! Texts as a slice, and single texts: folded, joined, with blanks cut off.
ghost use Rattle.std.specs.Prelude.{◌≡◌, ◌++◌, ◌∷◌, [], length, drop, IfOk, OnOk, List, ℕ};
ghost use Rattle.device_ids.specs.Folding.{folded, same};
ghost use Rattle.inf_reader.specs.Entries.{value_at};

use device_ids::Text;
use std::alloc::{AllocError, Global};
use std::marker::Model;

/// Texts in order, with room for as many as were told of at first: most entries of an INF have one value.
/// A contract sees the list of their bytes.
pub struct Texts {
    texts: Vec<Text>,
}

impl Drop for Texts {
    fn drop(self) {
        let Texts { texts: _ } = self;
    }
}

impl Model for Texts {
    ghost use Rattle.std.specs.Prelude.{List, ℕ};

    ghost Value = { List (List ℕ) };

    ghost view = { λ t. t.texts.items };
}

impl Texts {
    /// No text, with room for so many.
    pub fn with_room(alloc: Global, room: usize) -> Result<Texts, AllocError>
        ensures { IfOk result (λ texts. texts ≡ []) }
    {
        let texts = Vec::with_capacity(alloc, room)?;
        Ok(Texts { texts })
    }

    /// Appends a text.
    pub fn push(&mut self, text: Text) -> Result<(), AllocError>
        ensures { OnOk result (self.new ≡ self.old ++ text ∷ []) }
    {
        self.texts.push(text)?;
        Ok(())
    }

    /// The texts in order.
    pub fn as_slice(&self) -> &[Text]
        ensures { result.now ≡ self.now }
    {
        self.texts.as_slice()
    }
}

/// The text at a place, or nothing.
pub fn value_at(texts: &Texts, at: usize) -> &[u8]
    ensures { result.now ≡ value_at texts.now at }
{
    let texts = texts.as_slice();
    if at < texts.len() {
        texts[at].bytes()
    } else {
        &[]
    }
}

/// The texts from a place on.
pub fn texts_from(texts: &Texts, at: usize) -> &[Text]
    ensures { result.now ≡ drop at texts.now }
{
    let texts = texts.as_slice();
    if at < texts.len() { &texts[at..] } else { &[] }
}

/// The folded bytes.
pub fn folded_bytes(alloc: Global, bytes: &[u8]) -> Result<Vec<u8>, AllocError>
    ensures { IfOk result (λ all. all.items ≡ folded bytes.now) }
{
    let mut all = Vec::from_slice(alloc, bytes)?;
    all.make_ascii_lowercase();
    Ok(all)
}

/// A text with another behind it.
pub fn joined(alloc: Global, front: &[u8], end: &[u8]) -> Result<Vec<u8>, AllocError>
    ensures { IfOk result (λ all. all.items ≡ front.now ++ end.now) }
{
    let mut all = Vec::from_slice(alloc, front)?;
    all.extend_from_slice(end)?;
    Ok(all)
}

/// Whether both agree after ASCII letters are folded.
pub fn is_word(word: &[u8], text: &[u8]) -> bool
    ensures { result ≡ same text.now word.now }
{
    text.eq_ignore_ascii_case(word)
}
