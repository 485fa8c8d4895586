//! The meaning of an INF: a refusal, or its date, version and models lines.
ghost use Rattle.std.specs.Prelude.{◌≡◌, ◌≤◌, ◌++◌, IfOk, option_map, length};
ghost use Rattle.std.specs.List.{list_any, find};
ghost use Rattle.inf_reader.specs.Sections.{keyed_in};
ghost use Rattle.inf_reader.specs.Meaning.{driver_version, dated, date_fault, least_of, earlier, is_driver, is_signature, driver_entry, judged, meaning_of, inf, version_in, Gives};
ghost use Rattle.inf_reader.specs.Found.{section_found};

use crate::entries::Entry;
use crate::faults::{earlier, first_mark};
use crate::items::{Item, items_of};
use crate::models::all_models;
use crate::numbers::{date_of, version_of};
use crate::parts::{Inf, InfError};
use crate::reading::{index_of, strings_of};
use crate::sections::Sections;
use crate::text::text_of;
use crate::texts::{Texts, is_word, value_at};
use std::alloc::Global;

/// The version that a text writes, 0 where it is empty.
fn version_in(text: &[u8]) -> Option<u64>
    ensures { result ≡ version_in text.now }
{
    if text.is_empty() {
        Some(0)
    } else {
        version_of(text)
    }
}

/// The date and the version of an entry.
#[tactic(auto, unfolding(crate::specs::Meaning::driver_version))]
fn driver_version(entry: &Entry) -> Option<(u32, u64)>
    ensures { result ≡ driver_version entry.now }
{
    let date = date_of(value_at(&entry.values, 0))?;
    let version = version_in(value_at(&entry.values, 1))?;
    Some((date, version))
}

/// The first `DriverVer`.
fn first_driver(entries: &[Entry]) -> Option<&Entry>
    ensures { option_map (λ e. e.now) result ≡ find is_driver entries.now }
{
    entries.iter().find(|entry| entry.key.is_driver())
}

/// Whether an entry is a signature.
fn is_signature(entry: &Entry) -> bool
    ensures { result ≡ is_signature entry.now }
{
    let value = value_at(&entry.values, 0);
    entry.key.is_signature() && (is_word(b"$Windows NT$", value) || is_word(b"$CHICAGO$", value))
}

/// Whether some entry is a signature.
fn has_signature(entries: &[Entry]) -> bool
    ensures { result ≡ list_any is_signature entries.now }
{
    entries.iter().any(|entry| is_signature(entry))
}

/// The refusal of an entry that is no date and version.
fn date_fault(entry: Option<&Entry>) -> Option<InfError>
    ensures { result ≡ least_of (date_fault (option_map (λ e. e.now) entry.entry)) }
{
    match entry {
        None => None,
        Some(entry) => {
            if driver_version(entry).is_none() {
                Some(InfError::BadDate { line: entry.line })
            } else {
                None
            }
        }
    }
}

/// The date and the version of an entry, 0 where there is none.
fn dated(entry: Option<&Entry>) -> Option<(u32, u64)>
    ensures { result ≡ dated (option_map (λ e. e.now) entry.entry) }
{
    match entry {
        None => Some((0, 0)),
        Some(entry) => driver_version(entry),
    }
}

/// The first refusal, else that no signature is there, else the value.
fn judged(
    alloc: Global,
    sections: &Sections,
    makers: &Texts,
    fault: Option<InfError>,
) -> Result<Inf, InfError>
    ensures { Gives result (judged (section_found sections.now) makers.now (earlier fault (least_of (date_fault (driver_entry (section_found sections.now)))))) }
{
    let entries = sections.keyed(alloc, b"Version")?;
    let driver = first_driver(entries);
    if let Some(fault) = earlier(fault, date_fault(driver)) {
        return Err(fault);
    }
    if !has_signature(entries) {
        return Err(InfError::NoSignature);
    }
    let (date, version) = dated(driver).unwrap_or((0, 0));
    let lines = all_models(alloc, sections, makers)?;
    Ok(Inf {
        date,
        version,
        lines,
    })
}

/// The meaning of a text's items.
fn meaning_of(alloc: Global, items: Vec<Item>) -> Result<Inf, InfError>
    ensures { Gives result (meaning_of items.items) }
{
    let strings = strings_of(alloc, &items)?;
    let mark = first_mark(&items);
    let index = index_of(alloc, &strings, items)?;
    let fault = earlier(mark, index.gathered.fault);
    judged(alloc, &index.sections, &index.gathered.makers, fault)
}

/// Reads an INF of at most 16,777,216 bytes, a limit of this project's own, as is that it is read leniently:
/// unknown sections, entries and directives are read over (the driver kit, "General Syntax Rules for INF
/// Files"). Errors: the fault on the first line that has one, as `InfError` tells; without a fault
/// `NoSignature`, where the signature is missing; and `WantOfMemory`, at any time. Cost: the bytes, what
/// tokens stand for and what is given, times a logarithm of the sections for each look-up.
pub fn read(alloc: Global, bytes: &[u8]) -> Result<Inf, InfError>
    requires { length bytes.now ≤ 16777216 }
    ensures { Gives result (inf bytes.now) }
{
    let text = text_of(alloc, bytes)?;
    meaning_of(alloc, items_of(alloc, text.as_bytes())?)
}
