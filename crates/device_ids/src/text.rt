ghost use Rattle.std.specs.Prelude.{◌≡◌, ◌≤◌, ◌<◌, ◌++◌, ℕ, List, [], ◌∷◌, length, take, slice_get, slice_index_or, Some, IfOk, OnOk, OnErr};
ghost use Rattle.device_ids.specs.Folding.{same, folded};
ghost use Rattle.device_ids.specs.Kept.{text_of, padded, HasText, HasFolded};

use std::alloc::{AllocError, Global};
use std::marker::Model;
use std::rc::Rc;

/// The one refusal of a call that takes memory and nothing else.
pub type WantOfMemory = AllocError;

/// The most bytes that a text keeps in one piece of memory with their number.
pub(crate) const FEW: usize = 32;

/// Bytes that several texts keep, the first `len` of them theirs.
#[derive(Drop)]
pub(crate) struct Kept {
    pub(crate) bytes: Bytes,
    pub(crate) len: usize,
}

/// Few bytes beside the same with ASCII letters folded, or many in memory of their own.
#[derive(Drop)]
pub(crate) enum Bytes {
    Few { text: [u8; FEW], folded: [u8; FEW] },
    Many(Vec<u8>),
}

/// Few bytes, and backslashes after them.
#[inline]
pub(crate) fn padded(bytes: &[u8]) -> [u8; FEW]
    requires { length bytes.now ≤ 32 }
    ensures { result ≡ padded bytes.now }
{
    let mut text = [b'\\'; FEW];
    text[..bytes.len()].copy_from_slice(bytes);
    text
}

impl Kept {
    /// The first bytes of a text, which are few.
    #[inline(never)]
    pub(crate) fn few(text: [u8; FEW], len: usize) -> Kept
        requires { len ≤ 32 }
        ensures { HasFolded result × (text_of result ≡ take len text) }
    {
        let mut folded = text;
        folded.make_ascii_lowercase();
        Kept {
            bytes: Bytes::Few { text, folded },
            len,
        }
    }

    /// The bytes of the texts.
    pub(crate) fn text(&self) -> &[u8]
        requires { HasText self.now }
        ensures { result.now ≡ text_of self.now }
    {
        match &self.bytes {
            Bytes::Few { text, .. } => &text[..self.len],
            Bytes::Many(bytes) => &bytes[..self.len],
        }
    }

    /// The same bytes with ASCII letters folded.
    pub(crate) fn folded(&self) -> &[u8]
        requires { HasFolded self.now }
        ensures { result.now ≡ folded (text_of self.now) }
    {
        match &self.bytes {
            Bytes::Few { folded, .. } => &folded[..self.len],
            Bytes::Many(bytes) => &bytes[self.len..],
        }
    }
}

/// Bytes of any kind, as a driver's name or a value of an INF. A contract sees the list of the bytes.
/// They are kept once for a text and all its copies. This project's own.
pub struct Text {
    kept: Rc<Kept>,
}

impl Drop for Text {
    fn drop(self) {
        let Text { kept: _ } = self;
    }
}

impl Model for Text {
    ghost use Rattle.std.specs.Prelude.{List, ℕ};
    ghost use Rattle.device_ids.specs.Kept.{text_of, HasText};

    ghost Value = { List ℕ };

    ghost view = { λ t. text_of t.kept.value };

    ghost invariant = { λ t. HasText t.kept.value };
}

impl Text {
    /// The text of these bytes. Cost: their number.
    pub fn make(alloc: Global, bytes: &[u8]) -> Result<Text, WantOfMemory>
        ensures { IfOk result (λ t. t ≡ bytes.now) }
    {
        let len = bytes.len();
        let kept = if len <= FEW {
            Kept::few(padded(bytes), len)
        } else {
            let bytes = Bytes::Many(Vec::from_slice(alloc, bytes)?);
            Kept { bytes, len }
        };
        let kept = Rc::new(alloc, kept)?;
        Ok(Text { kept })
    }

    /// The text of the first bytes of those that are kept. Where they have as many owners as there may be, they are copied.
    pub(crate) fn front(alloc: Global, kept: &Rc<Kept>) -> Result<Text, WantOfMemory>
        requires { HasText kept.now.value }
        ensures { IfOk result (λ t. t ≡ text_of kept.now.value) }
    {
        match kept.clone() {
            Ok(kept) => Ok(Text { kept }),
            Err(_) => Text::make(alloc, kept.text()),
        }
    }

    /// The bytes.
    pub fn bytes(&self) -> &[u8]
        ensures { result.now ≡ self.now }
    {
        self.kept.text()
    }

    /// Whether both agree after ASCII letters are folded, as Windows compares names. Cost: the length.
    pub fn same(&self, other: &Text) -> bool
        ensures { result ≡ same self.now other.now }
    {
        self.bytes().eq_ignore_ascii_case(other.bytes())
    }

    /// An equal text, which keeps the same bytes.
    pub fn copy(&self, alloc: Global) -> Result<Text, WantOfMemory>
        ensures { IfOk result (λ t. t ≡ self.now) }
    {
        Text::front(alloc, &self.kept)
    }

    /// How many bytes there are.
    pub fn len(&self) -> u64
        ensures { result ≡ length self.now }
    {
        self.bytes().len() as u64
    }

    /// The byte at a place.
    pub fn get(&self, at: u64) -> &u8
        requires { at < length self.now }
        ensures { slice_get self.now at ≡ Some result.now }
    {
        &self.bytes()[at as usize]
    }
}

/// Texts in order, as the IDs of a models line. A contract sees the list of their bytes. This project's own.
pub struct TextList {
    texts: Vec<Text>,
}

impl Drop for TextList {
    fn drop(self) {
        let TextList { texts: _ } = self;
    }
}

impl Model for TextList {
    ghost use Rattle.std.specs.Prelude.{List, ℕ};

    ghost Value = { List (List ℕ) };

    ghost view = { λ l. l.texts.items };
}

impl TextList {
    /// No text. It takes no memory.
    pub fn new(alloc: Global) -> TextList
        ensures { result ≡ [] }
    {
        TextList {
            texts: Vec::new(alloc),
        }
    }

    /// No text, with room for so many.
    pub fn with_room(alloc: Global, room: u64) -> Result<TextList, WantOfMemory>
        ensures { IfOk result (λ texts. texts ≡ []) }
    {
        let texts = Vec::with_capacity(alloc, room as usize)?;
        Ok(TextList { texts })
    }

    /// Appends a text; after want of memory the list is as before.
    pub fn push(&mut self, part: Text) -> Result<(), WantOfMemory>
        ensures pushed { OnOk result (self.new ≡ self.old ++ part ∷ []) }
        ensures err { OnErr result (self.new ≡ self.old) }
    {
        self.texts.push(part)?;
        Ok(())
    }

    /// How many texts there are.
    pub fn len(&self) -> u64
        ensures { result ≡ length self.now }
    {
        self.texts.len() as u64
    }

    /// The text at a place.
    pub fn get(&self, at: u64) -> &Text
        requires { at < length self.now }
        ensures part { slice_get self.now at ≡ Some result.now }
        ensures item { (d : List ℕ) → slice_index_or self.now at d ≡ result.now }
    {
        &self.texts[at as usize]
    }
}
