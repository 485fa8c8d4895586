//! The passes over a text's items: what tokens stand for, and what each section holds.
ghost use Rattle.std.specs.Prelude.{◌≡◌, ◌++◌, ◌∷◌, [], IfOk, OnOk, Some, None, codes, option_map, if◌then◌else◌, List, ℕ};
ghost use Rattle.std.specs.List.{flat_map};
ghost use Rattle.std.specs.Str.{bytes_eq};
ghost use Rattle.device_ids.specs.Folding.{folded};
ghost use Rattle.inf_reader.specs.Entries.{part_text, values_of, value_at};
ghost use Rattle.inf_reader.specs.Found.{text_found, section_found};
ghost use Rattle.inf_reader.specs.Maps.{by_key};
ghost use Rattle.inf_reader.specs.Numbers.{or_else};
ghost use Rattle.inf_reader.specs.Sections.{string_in, strings_of, sections_of, entries_of, entry_at, tokens_in, added};
ghost use Rattle.inf_reader.specs.Meaning.{score_fault, makers_of, earlier, least_of};
ghost use Rattle.inf_reader.specs.Reading.{seen_by, under, under_after, after_header, after_item, entries_at, makers_from, maker_name, placed, is_strings};

use crate::entries::{Entry, entry_of, part_text, sides, values_of};
use crate::faults::{earlier, score_fault};
use crate::items::Item;
use crate::models::models_name;
use crate::parts::InfError;
use crate::section::Section;
use crate::sections::Sections;
use crate::symbols::{Symbol, Symbols};
use crate::texts::{Texts, folded_bytes, value_at};
use crate::tokens::Strings;
use device_ids::Text;
use std::alloc::{AllocError, Global};
use std::collections::BTreeMap;

/// A section that is being read, with its folded name.
#[derive(Drop)]
pub struct Current {
    pub name: Vec<u8>,
    pub section: Section,
}

/// What is gathered beside the sections: the names of the models sections, by the entries of [Manufacturer],
/// and the first bad score.
pub struct Gathered {
    pub makers: Texts,
    pub fault: Option<InfError>,
}

impl Drop for Gathered {
    fn drop(self) {
        let Gathered {
            makers: _,
            fault: _,
        } = self;
    }
}

/// What the lines of a text give.
pub struct Index {
    pub sections: Sections,
    pub gathered: Gathered,
}

impl Drop for Index {
    fn drop(self) {
        let Index {
            sections: _,
            gathered: _,
        } = self;
    }
}

/// Whether two texts are equal.
fn is_text(a: &[u8], b: &[u8]) -> bool
    ensures { result ≡ bytes_eq a.now b.now }
{
    a == b
}

/// Whether lines stand under [Strings].
fn is_strings(section: Option<&[u8]>) -> bool
    ensures { result ≡ is_strings (option_map (λ s. s.now) section.entry) }
{
    match section {
        Some(name) => is_text(b"strings", name),
        None => false,
    }
}

/// A key under [Strings], folded.
fn string_key(alloc: Global, key: &[Symbol]) -> Result<Vec<u8>, AllocError>
    ensures { IfOk result (λ name. name.items ≡ folded (part_text None key.now)) }
{
    let key = part_text(alloc, None, key)?;
    folded_bytes(alloc, key.bytes())
}

/// The first value of a list under [Strings].
fn string_value(alloc: Global, list: &[Symbol]) -> Result<Text, AllocError>
    ensures { IfOk result (λ text. text ≡ value_at (values_of None list.now) 0) }
{
    let values = values_of(alloc, None, list)?;
    Text::make(alloc, value_at(&values, 0))
}

/// Adds what a line under [Strings] gives, if its key is new.
fn add_string(
    alloc: Global,
    texts: &mut BTreeMap<Vec<u8>, Text>,
    symbols: &[Symbol],
) -> Result<(), AllocError>
    ensures { OnOk result ((name : List ℕ) → by_key texts.new name ≡ or_else (by_key texts.old name) (string_in name symbols.now)) }
{
    let (key, list) = sides(symbols);
    let key = string_key(alloc, key)?;
    if texts.contains_key(key.as_slice()) {
        return Ok(());
    }
    texts.insert(key, string_value(alloc, list)?)?;
    Ok(())
}

/// What the tokens stand for. Cost: the items.
pub fn strings_of(alloc: Global, items: &[Item]) -> Result<Strings, AllocError>
    ensures { IfOk result (λ strings. (name : List ℕ) → text_found strings name ≡ strings_of items.now name) }
{
    let mut texts = BTreeMap::new(alloc);
    let mut section: Option<&[u8]> = None;
    for item in items {
        match item {
            Item::TooLong(_) => {}
            Item::OpenHeader(_) => section = None,
            Item::Header(name) => section = Some(name.bytes()),
            Item::Line(_, symbols) => {
                if is_strings(section) {
                    add_string(alloc, &mut texts, symbols.as_slice())?;
                }
            }
        }
    }
    Ok(Strings { texts })
}

/// Puts the current section back among the others.
fn put_back(
    sections: &mut BTreeMap<Vec<u8>, Section>,
    current: Option<Current>,
) -> Result<(), AllocError>
    ensures { OnOk result ((name : List ℕ) → by_key sections.new name ≡ seen_by current (by_key sections.old) name) }
{
    match current {
        Some(current) => {
            sections.insert(current.name, current.section)?;
            Ok(())
        }
        None => Ok(()),
    }
}

/// Takes the section of a header out, if it is there already.
fn current_of(
    alloc: Global,
    sections: &mut BTreeMap<Vec<u8>, Section>,
    name: &Text,
) -> Result<Current, AllocError>
    ensures under { IfOk result (λ current. current.name.items ≡ name.now) }
    ensures seen { IfOk result (λ current. (q : List ℕ) → seen_by (Some current) (by_key sections.new) q ≡ after_header (bytes_eq q name.now) (by_key sections.old q)) }
{
    let name = Vec::from_slice(alloc, name.bytes())?;
    match sections.remove(name.as_slice()) {
        Some(section) => Ok(Current { name, section }),
        None => Ok(Current {
            name,
            section: Section::new(alloc),
        }),
    }
}

/// The strings that replace tokens under a section's name.
fn tokens_in<'a>(strings: &'a Strings, section: &[u8]) -> Option<&'a Strings>
    ensures { option_map (λ s. text_found s.now) result ≡ tokens_in (text_found strings.now) section.now }
{
    if is_text(section, b"strings") {
        None
    } else {
        Some(strings)
    }
}

/// Adds the name that an entry of [Manufacturer] gives.
fn push_maker(
    alloc: Global,
    makers: &mut Texts,
    section: &[u8],
    entry: &Entry,
) -> Result<(), AllocError>
    ensures { OnOk result (makers.new ≡ makers.old ++ maker_name section.now entry.now) }
{
    if is_text(b"manufacturer", section) {
        let name = models_name(alloc, &entry.values)?;
        makers.push(Text::make(alloc, &name)?)?;
    }
    Ok(())
}

/// Adds a line to the current section.
fn add_line(
    alloc: Global,
    strings: &Strings,
    gathered: &mut Gathered,
    current: &mut Current,
    number: u32,
    symbols: &Symbols,
) -> Result<(), AllocError>
    ensures name { OnOk result (current.new.name.items ≡ current.old.name.items) }
    ensures section { OnOk result (current.new.section ≡ added current.old.section (entry_at (text_found strings.now) (placed current.old.name.items number symbols.now) ∷ [])) }
    ensures makers { OnOk result (gathered.new.makers ≡ gathered.old.makers ++ maker_name current.old.name.items (entry_at (text_found strings.now) (placed current.old.name.items number symbols.now))) }
    ensures fault { OnOk result (gathered.new.fault ≡ earlier gathered.old.fault (least_of (score_fault (entry_at (text_found strings.now) (placed current.old.name.items number symbols.now))))) }
{
    let tokens = tokens_in(strings, &current.name);
    let entry = entry_of(alloc, tokens, number, symbols.as_slice())?;
    gathered.fault = earlier(gathered.fault, score_fault(&entry));
    push_maker(alloc, &mut gathered.makers, &current.name, &entry)?;
    current.section.add(alloc, entry)
}

/// Takes in the next item.
fn take_in(
    alloc: Global,
    strings: &Strings,
    sections: &mut BTreeMap<Vec<u8>, Section>,
    gathered: &mut Gathered,
    current: Option<Current>,
    item: Item,
) -> Result<Option<Current>, AllocError>
    ensures under { IfOk result (λ next. under next ≡ under_after (under current) item) }
    ensures seen { IfOk result (λ next. (name : List ℕ) → seen_by next (by_key sections.new) name ≡ after_item (text_found strings.now) (under current) name item (seen_by current (by_key sections.old) name)) }
    ensures makers { OnOk result (gathered.new.makers ≡ gathered.old.makers ++ makers_from (text_found strings.now) (under current) (item ∷ [])) }
    ensures fault { OnOk result (gathered.new.fault ≡ earlier gathered.old.fault (least_of (flat_map score_fault (entries_at (text_found strings.now) (under current) (item ∷ []))))) }
{
    match item {
        Item::TooLong(_) => Ok(current),
        Item::OpenHeader(_) => {
            put_back(sections, current)?;
            Ok(None)
        }
        Item::Header(name) => {
            put_back(sections, current)?;
            Ok(Some(current_of(alloc, sections, &name)?))
        }
        Item::Line(number, symbols) => match current {
            Some(mut current) => {
                add_line(alloc, strings, gathered, &mut current, number, &symbols)?;
                Ok(Some(current))
            }
            None => Ok(None),
        },
    }
}

/// What the lines of a text give. The items are used up, and freed one by one. Cost: the items.
pub fn index_of(alloc: Global, strings: &Strings, mut items: Vec<Item>) -> Result<Index, AllocError>
    ensures sections { IfOk result (λ index. (name : List ℕ) → section_found index.sections name ≡ sections_of (text_found strings.now) items.items name) }
    ensures makers { IfOk result (λ index. index.gathered.makers ≡ makers_of (text_found strings.now) items.items) }
    ensures fault { IfOk result (λ index. index.gathered.fault ≡ least_of (flat_map score_fault (entries_of (text_found strings.now) items.items))) }
{
    let mut sections = BTreeMap::new(alloc);
    let mut gathered = Gathered {
        makers: Texts::with_room(alloc, 0)?,
        fault: None,
    };
    let mut current = None;
    items.reverse();
    while let Some(item) = items.pop() {
        current = take_in(alloc, strings, &mut sections, &mut gathered, current, item)?;
    }
    put_back(&mut sections, current)?;
    Ok(Index {
        sections: Sections { sections },
        gathered,
    })
}
