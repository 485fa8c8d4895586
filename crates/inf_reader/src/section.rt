//! What a section holds of use to the reader.
ghost use Rattle.std.specs.Prelude.{◌≡◌, ◌++◌, ◌∷◌, [], not, ◌==◌, bit_and, OnOk};
ghost use Rattle.std.specs.List.{filter};
ghost use Rattle.inf_reader.specs.Entries.{is_keyed};
ghost use Rattle.inf_reader.specs.Filters.{has_bit, is_some_text, word_of, adds_filters, filters_of};

use crate::entries::{Entry, is_keyed};
use crate::numbers::flags_of;
use crate::texts::{is_word, texts_from, value_at};
use device_ids::{Text, TextList};
use std::alloc::{AllocError, Global};
use std::marker::Model;

/// Where filters stand: below or above the function driver.
#[derive(Clone, Copy, PartialEq, Eq)]
pub enum Kind {
    Lower,
    Upper,
}

/// What a section holds: its entries with a key, and the filters that its lines add. It is made as the
/// lines are read, so that no line is read again. A contract sees its `Contents`.
pub struct Section {
    keyed: Vec<Entry>,
    lower: TextList,
    upper: TextList,
}

impl Drop for Section {
    fn drop(self) {
        let Section {
            keyed: _,
            lower: _,
            upper: _,
        } = self;
    }
}

impl Model for Section {
    ghost use Rattle.inf_reader.specs.Sections.{Contents};

    ghost Value = { Contents };

    ghost view = { λ s. record { keyed = s.keyed.items; lower = s.lower; upper = s.upper } };
}

impl Section {
    ghost use Rattle.std.specs.Prelude.{◌≡◌, ◌∷◌, [], OnOk};
    ghost use Rattle.inf_reader.specs.Sections.{no_contents, added, filters_at};

    /// No line yet. It takes no memory.
    pub fn new(alloc: Global) -> Section
        ensures { result ≡ no_contents }
    {
        Section {
            keyed: Vec::new(alloc),
            lower: TextList::new(alloc),
            upper: TextList::new(alloc),
        }
    }

    /// Adds what an entry gives.
    pub fn add(&mut self, alloc: Global, entry: Entry) -> Result<(), AllocError>
        ensures { OnOk result (self.new ≡ added self.old (entry ∷ [])) }
    {
        push_filters(alloc, &entry, Kind::Lower, &mut self.lower)?;
        push_filters(alloc, &entry, Kind::Upper, &mut self.upper)?;
        push_keyed(&mut self.keyed, entry)
    }

    /// The entries with a key, in order.
    pub fn keyed(&self) -> &[Entry]
        ensures { result.now ≡ self.now.keyed }
    {
        self.keyed.as_slice()
    }

    /// The filters of a kind, in order.
    pub fn filters(&self, kind: Kind) -> &TextList
        ensures { result.now ≡ filters_at kind self.now }
    {
        match kind {
            Kind::Lower => &self.lower,
            Kind::Upper => &self.upper,
        }
    }
}

/// Adds an entry that has a key.
fn push_keyed(keyed: &mut Vec<Entry>, entry: Entry) -> Result<(), AllocError>
    ensures { OnOk result (keyed.new.items ≡ keyed.old.items ++ filter is_keyed (entry ∷ [])) }
{
    if is_keyed(&entry) {
        keyed.push(entry)?;
    }
    Ok(())
}

/// Whether a text, as a number, has a bit.
pub fn has_bit(bit: u32, text: &[u8]) -> bool
    ensures { result ≡ has_bit bit text.now }
{
    flags_of(text) & bit != 0
}

/// The word of a kind of filters.
fn word_of(kind: Kind) -> &'static [u8]
    ensures { result.now ≡ word_of kind }
{
    match kind {
        Kind::Lower => b"LowerFilters",
        Kind::Upper => b"UpperFilters",
    }
}

/// Whether a line adds filters of a kind.
fn adds_filters(entry: &Entry, kind: Kind) -> bool
    ensures { result ≡ adds_filters kind entry.now }
{
    !is_keyed(entry)
        && is_word(b"HKR", value_at(&entry.values, 0))
        && value_at(&entry.values, 1).is_empty()
        && is_word(word_of(kind), value_at(&entry.values, 2))
        && has_bit(0x0001_0000, value_at(&entry.values, 3))
}

/// Adds a filter that is not empty.
fn push_filter(alloc: Global, value: &Text, filters: &mut TextList) -> Result<(), AllocError>
    ensures { OnOk result (filters.new ≡ filters.old ++ filter is_some_text (value.now ∷ [])) }
{
    if !value.bytes().is_empty() {
        filters.push(value.copy(alloc)?)?;
    }
    Ok(())
}

/// Adds the filters that an entry adds, if it is of the kind.
fn push_filters(
    alloc: Global,
    entry: &Entry,
    kind: Kind,
    filters: &mut TextList,
) -> Result<(), AllocError>
    ensures { OnOk result (filters.new ≡ filters.old ++ filters_of kind entry.now) }
{
    if !adds_filters(entry, kind) {
        return Ok(());
    }
    for value in texts_from(&entry.values, 4) {
        push_filter(alloc, value, filters)?;
    }
    Ok(())
}
