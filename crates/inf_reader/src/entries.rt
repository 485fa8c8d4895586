//! The entry that a joined line is.
ghost use Rattle.std.specs.Prelude.{◌≡◌, ◌++◌, IfOk, OnOk, option_map};
ghost use Rattle.inf_reader.specs.Found.{text_found};
ghost use Rattle.inf_reader.specs.Entries.{sides, part_text, values_of, known_key, key_of, is_keyed, is_signature_key, is_driver_key, is_score_key, is_service_key, is_registry_key, entry_of};

use crate::symbols::{Symbol, bare, count_of_plain, cut_plain};
use crate::texts::{Texts, is_word};
use crate::tokens::{Strings, text_with};
use device_ids::Text;
use std::alloc::{AllocError, Global};

/// A key: none, one that has a meaning, or another.
#[derive(Clone, Copy, PartialEq, Eq)]
pub enum Key {
    Absent,
    Signature,
    DriverVer,
    FeatureScore,
    AddService,
    AddReg,
    Other,
}

/// An entry of a section, with the number of its line.
pub struct Entry {
    pub line: u32,
    pub key: Key,
    pub values: Texts,
}

impl Drop for Entry {
    fn drop(self) {
        let Entry {
            line: _,
            key: _,
            values: _,
        } = self;
    }
}

/// The key's side of a line, and the values'.
pub fn sides(symbols: &[Symbol]) -> (&[Symbol], &[Symbol])
    ensures { (result.0.now, result.1.now) ≡ sides symbols.now }
{
    match cut_plain(b'=', symbols) {
        Some((key, list)) => (key, list),
        None => (&[], symbols),
    }
}

/// A key or a value, with its tokens replaced or as it is written.
pub fn part_text(
    alloc: Global,
    strings: Option<&Strings>,
    part: &[Symbol],
) -> Result<Text, AllocError>
    ensures { IfOk result (λ text. text ≡ part_text (option_map (λ s. text_found s.now) strings.entry) part.now) }
{
    let bytes = bare(alloc, part)?;
    text_with(alloc, strings, &bytes)
}

/// Adds the values of a list.
fn push_values(
    alloc: Global,
    strings: Option<&Strings>,
    symbols: &[Symbol],
    values: &mut Texts,
) -> Result<(), AllocError>
    ensures { OnOk result (values.new ≡ values.old ++ values_of (option_map (λ s. text_found s.now) strings.entry) symbols.now) }
{
    let mut rest = symbols;
    while let Some((part, after)) = cut_plain(b',', rest) {
        values.push(part_text(alloc, strings, part)?)?;
        rest = after;
    }
    values.push(part_text(alloc, strings, rest)?)
}

/// The values of a list, separated by commas outside quotes.
pub fn values_of(
    alloc: Global,
    strings: Option<&Strings>,
    symbols: &[Symbol],
) -> Result<Texts, AllocError>
    ensures { IfOk result (λ values. values ≡ values_of (option_map (λ s. text_found s.now) strings.entry) symbols.now) }
{
    let mut values = Texts::with_room(alloc, count_of_plain(b',', symbols) + 1)?;
    push_values(alloc, strings, symbols, &mut values)?;
    Ok(values)
}

/// What a key that is not empty means.
fn known_key(text: &[u8]) -> Key
    ensures { result ≡ known_key text.now }
{
    if is_word(b"Signature", text) {
        Key::Signature
    } else if is_word(b"DriverVer", text) {
        Key::DriverVer
    } else if is_word(b"FeatureScore", text) {
        Key::FeatureScore
    } else if is_word(b"AddService", text) {
        Key::AddService
    } else if is_word(b"AddReg", text) {
        Key::AddReg
    } else {
        Key::Other
    }
}

/// What a key means.
#[tactic(auto, unfolding(crate::specs::Entries::key_of))]
fn key_of(text: &[u8]) -> Key
    ensures { result ≡ key_of text.now }
{
    if text.is_empty() {
        return Key::Absent;
    }
    known_key(text)
}

/// The entry that a joined line is.
#[tactic(auto, unfolding(crate::specs::Entries::entry_of))]
pub fn entry_of(
    alloc: Global,
    strings: Option<&Strings>,
    line: u32,
    symbols: &[Symbol],
) -> Result<Entry, AllocError>
    ensures { IfOk result (λ entry. entry ≡ entry_of (option_map (λ s. text_found s.now) strings.entry) line symbols.now) }
{
    let (key, list) = sides(symbols);
    let key = part_text(alloc, strings, key)?;
    let values = values_of(alloc, strings, list)?;
    Ok(Entry {
        line,
        key: key_of(key.bytes()),
        values,
    })
}

/// Whether an entry has a key.
pub fn is_keyed(entry: &Entry) -> bool
    ensures { result ≡ is_keyed entry.now }
{
    !matches!(entry.key, Key::Absent)
}

impl Key {
    /// Whether it is `Signature`.
    pub fn is_signature(self) -> bool
        ensures { result ≡ is_signature_key self }
    {
        matches!(self, Key::Signature)
    }

    /// Whether it is `DriverVer`.
    pub fn is_driver(self) -> bool
        ensures { result ≡ is_driver_key self }
    {
        matches!(self, Key::DriverVer)
    }

    /// Whether it is `FeatureScore`.
    pub fn is_score(self) -> bool
        ensures { result ≡ is_score_key self }
    {
        matches!(self, Key::FeatureScore)
    }

    /// Whether it is `AddService`.
    pub fn is_service(self) -> bool
        ensures { result ≡ is_service_key self }
    {
        matches!(self, Key::AddService)
    }

    /// Whether it is `AddReg`.
    pub fn is_registry(self) -> bool
        ensures { result ≡ is_registry_key self }
    {
        matches!(self, Key::AddReg)
    }
}
