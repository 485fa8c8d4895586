//! The models lines of an INF, and what their install sections give.
ghost use Rattle.std.specs.Prelude.{◌≡◌, ◌++◌, IfOk, OnOk, Some, None, if◌then◌else◌, option_map, take, drop, map};
ghost use Rattle.std.specs.List.{find};
ghost use Rattle.device_ids.specs.Folding.{folded};
ghost use Rattle.inf_reader.specs.Filters.{has_bit};
ghost use Rattle.inf_reader.specs.Sections.{keyed_in, filters_at, contents_at, is_there};
ghost use Rattle.inf_reader.specs.Found.{section_found, IsKept};
ghost use Rattle.inf_reader.specs.Models.{begins, is_word, decoration_of, models_name, install_name, is_score, score_in, is_function_service, service_in, filters_in_all, filters_by, filters_in, install_service, install_filters, install_of, line_with, model_line, models_of, all_models};

use crate::entries::Entry;
use crate::numbers::score_of;
use crate::parts::{ModelLine, ModelLines};
use crate::section::{Kind, has_bit};
use crate::sections::Sections;
use crate::texts::{Texts, folded_bytes, is_word, joined, texts_from, value_at};
use device_ids::{Text, TextList};
use std::alloc::{AllocError, Global};
use std::collections::BTreeMap;

/// What an install section gives.
pub struct Install {
    pub score: u8,
    pub service: Option<Text>,
    pub lower: TextList,
    pub upper: TextList,
}

impl Drop for Install {
    fn drop(self) {
        let Install {
            score: _,
            service: _,
            lower: _,
            upper: _,
        } = self;
    }
}

/// What the install sections gave that were met, by their folded names: many models lines may share one.
pub struct Installs {
    pub kept: BTreeMap<Vec<u8>, Install>,
}

impl Drop for Installs {
    fn drop(self) {
        let Installs { kept: _ } = self;
    }
}

/// Whether a text begins with a word, after folding.
fn begins(word: &[u8], text: &[u8]) -> bool
    ensures { result ≡ begins word.now text.now }
{
    word.len() <= text.len() && is_word(word, &text[..word.len()])
}

/// The first text that is a word.
fn first_word<'a>(texts: &'a [Text], word: &[u8]) -> Option<&'a Text>
    ensures { option_map (λ t. t.now) result ≡ find (is_word word.now) texts.now }
{
    for text in texts {
        if is_word(word, text.bytes()) {
            return Some(text);
        }
    }
    None
}

/// The first text that begins with a word.
fn first_beginning<'a>(texts: &'a [Text], word: &[u8]) -> Option<&'a Text>
    ensures { option_map (λ t. t.now) result ≡ find (begins word.now) texts.now }
{
    for text in texts {
        if begins(word, text.bytes()) {
            return Some(text);
        }
    }
    None
}

/// The decoration that is taken, if any.
#[tactic(auto, unfolding(crate::specs::Models::decoration_of))]
fn decoration_of(texts: &[Text]) -> Option<&Text>
    ensures { option_map (λ t. t.now) result ≡ decoration_of texts.now }
{
    match first_word(texts, b"NTamd64") {
        Some(decoration) => Some(decoration),
        None => match first_beginning(texts, b"NTamd64.") {
            Some(decoration) => Some(decoration),
            None => first_word(texts, b"NT"),
        },
    }
}

/// The name of the models section that an entry of [Manufacturer] gives.
#[tactic(auto, unfolding(crate::specs::Models::models_name))]
pub fn models_name(alloc: Global, values: &Texts) -> Result<Vec<u8>, AllocError>
    ensures { IfOk result (λ name. name.items ≡ models_name values.now) }
{
    let mut name = Vec::from_slice(alloc, value_at(values, 0))?;
    if let Some(decoration) = decoration_of(texts_from(values, 1)) {
        name.push(b'.')?;
        name.extend_from_slice(decoration.bytes())?;
    }
    Ok(name)
}

/// The folded name with an end behind it, if a section of that name is there.
fn name_with(
    alloc: Global,
    sections: &Sections,
    name: &[u8],
    end: &[u8],
) -> Result<Option<Vec<u8>>, AllocError>
    ensures { IfOk result (λ found. option_map (λ f. f.items) found ≡ if is_there (section_found sections.now) (name.now ++ end.now) then Some (folded (name.now ++ end.now)) else None) }
{
    let mut decorated = joined(alloc, name, end)?;
    if !sections.is_there(alloc, &decorated)? {
        return Ok(None);
    }
    decorated.make_ascii_lowercase();
    Ok(Some(decorated))
}

/// The folded name of the install section: the first that is there, else the bare one.
#[tactic(auto, unfolding(crate::specs::Models::install_name))]
fn install_name(alloc: Global, sections: &Sections, name: &[u8]) -> Result<Vec<u8>, AllocError>
    ensures { IfOk result (λ install. install.items ≡ install_name (section_found sections.now) name.now) }
{
    if let Some(install) = name_with(alloc, sections, name, b".NTamd64")? {
        return Ok(install);
    }
    if let Some(install) = name_with(alloc, sections, name, b".NT")? {
        return Ok(install);
    }
    folded_bytes(alloc, name)
}

/// The first `FeatureScore`.
fn first_score(entries: &[Entry]) -> Option<&Entry>
    ensures { option_map (λ e. e.now) result ≡ find is_score entries.now }
{
    entries.iter().find(|entry| entry.key.is_score())
}

/// The score that a section gives.
#[tactic(auto, unfolding(crate::specs::Models::score_in))]
fn score_in(entries: &[Entry]) -> u8
    ensures { result ≡ score_in entries.now }
{
    match first_score(entries) {
        Some(entry) => score_of(value_at(&entry.values, 0)).unwrap_or(255),
        None => 255,
    }
}

/// Whether an entry adds the service of the device's function.
fn is_function_service(entry: &Entry) -> bool
    ensures { result ≡ is_function_service entry.now }
{
    entry.key.is_service() && has_bit(2, value_at(&entry.values, 1))
}

/// The first entry that adds such a service.
fn first_service(entries: &[Entry]) -> Option<&Entry>
    ensures { option_map (λ e. e.now) result ≡ find is_function_service entries.now }
{
    entries.iter().find(|entry| is_function_service(entry))
}

/// The service that a section of services gives.
#[tactic(auto, unfolding(crate::specs::Models::service_in))]
fn service_in(alloc: Global, entries: &[Entry]) -> Result<Option<Text>, AllocError>
    ensures { IfOk result (λ service. service ≡ service_in entries.now) }
{
    let Some(entry) = first_service(entries) else {
        return Ok(None);
    };
    let name = value_at(&entry.values, 0);
    if name.is_empty() {
        return Ok(None);
    }
    Ok(Some(Text::make(alloc, name)?))
}

/// Appends copies of texts.
fn push_copies(alloc: Global, from: &TextList, filters: &mut TextList) -> Result<(), AllocError>
    ensures { OnOk result (filters.new ≡ filters.old ++ from.now) }
{
    for at in 0..from.len() {
        filters.push(from.get(at).copy(alloc)?)?;
    }
    Ok(())
}

/// Adds the filters of the section of a name.
fn push_filters_of(
    alloc: Global,
    sections: &Sections,
    kind: Kind,
    name: &[u8],
    filters: &mut TextList,
) -> Result<(), AllocError>
    ensures { OnOk result (filters.new ≡ filters.old ++ filters_at kind (contents_at (section_found sections.now) name.now)) }
{
    match sections.get(alloc, name)? {
        Some(section) => push_copies(alloc, section.filters(kind), filters),
        None => Ok(()),
    }
}

/// Adds the filters of the sections that an entry names.
fn push_named_filters(
    alloc: Global,
    sections: &Sections,
    kind: Kind,
    entry: &Entry,
    filters: &mut TextList,
) -> Result<(), AllocError>
    ensures { OnOk result (filters.new ≡ filters.old ++ filters_by (section_found sections.now) kind entry.now) }
{
    if !entry.key.is_registry() {
        return Ok(());
    }
    for name in entry.values.as_slice() {
        push_filters_of(alloc, sections, kind, name.bytes(), filters)?;
    }
    Ok(())
}

/// The filters of a kind.
#[tactic(auto, unfolding(crate::specs::Models::filters_in))]
fn filters_in(
    alloc: Global,
    sections: &Sections,
    kind: Kind,
    entries: &[Entry],
) -> Result<TextList, AllocError>
    ensures { IfOk result (λ filters. filters ≡ filters_in (section_found sections.now) kind entries.now) }
{
    let mut filters = TextList::new(alloc);
    for entry in entries {
        push_named_filters(alloc, sections, kind, entry, &mut filters)?;
    }
    Ok(filters)
}

/// The service that an install section gives.
#[tactic(auto, unfolding(crate::specs::Models::install_service))]
fn install_service(
    alloc: Global,
    sections: &Sections,
    name: &[u8],
) -> Result<Option<Text>, AllocError>
    ensures { IfOk result (λ service. service ≡ install_service (section_found sections.now) name.now) }
{
    let services = joined(alloc, name, b".Services")?;
    service_in(alloc, sections.keyed(alloc, &services)?)
}

/// The filters of a kind that an install section gives.
#[tactic(auto, unfolding(crate::specs::Models::install_filters))]
fn install_filters(
    alloc: Global,
    sections: &Sections,
    kind: Kind,
    name: &[u8],
) -> Result<TextList, AllocError>
    ensures { IfOk result (λ filters. filters ≡ install_filters (section_found sections.now) kind name.now) }
{
    let hardware = joined(alloc, name, b".HW")?;
    filters_in(alloc, sections, kind, sections.keyed(alloc, &hardware)?)
}

/// What an install section gives.
fn install_of(alloc: Global, sections: &Sections, name: &[u8]) -> Result<Install, AllocError>
    ensures { IfOk result (λ install. install ≡ install_of (section_found sections.now) name.now) }
{
    let score = score_in(sections.keyed(alloc, name)?);
    let service = install_service(alloc, sections, name)?;
    let lower = install_filters(alloc, sections, Kind::Lower, name)?;
    let upper = install_filters(alloc, sections, Kind::Upper, name)?;
    Ok(Install {
        score,
        service,
        lower,
        upper,
    })
}

/// Texts copied.
fn copied_all(alloc: Global, texts: &TextList) -> Result<TextList, AllocError>
    ensures { IfOk result (λ all. all ≡ texts.now) }
{
    let mut all = TextList::with_room(alloc, texts.len())?;
    push_copies(alloc, texts, &mut all)?;
    Ok(all)
}

/// A text copied, if there is one.
fn copied_text(alloc: Global, text: &Option<Text>) -> Result<Option<Text>, AllocError>
    ensures { IfOk result (λ copy. copy ≡ text.now) }
{
    match text {
        Some(text) => Ok(Some(text.copy(alloc)?)),
        None => Ok(None),
    }
}

/// The IDs of a models line: up to eight, behind the install name.
fn ids_of(alloc: Global, values: &Texts) -> Result<TextList, AllocError>
    ensures { IfOk result (λ ids. ids ≡ take 8 (drop 1 values.now)) }
{
    let texts = texts_from(values, 1);
    let count = texts.len().min(8);
    let mut ids = TextList::with_room(alloc, count as u64)?;
    for at in 0..count {
        ids.push(texts[at].copy(alloc)?)?;
    }
    Ok(ids)
}

/// A models line with what its install section gives.
fn line_with(alloc: Global, entry: &Entry, install: &Install) -> Result<ModelLine, AllocError>
    ensures { IfOk result (λ line. line ≡ line_with entry.now install.now) }
{
    let ids = ids_of(alloc, &entry.values)?;
    let service = copied_text(alloc, &install.service)?;
    let lower = copied_all(alloc, &install.lower)?;
    let upper = copied_all(alloc, &install.upper)?;
    Ok(ModelLine {
        line: entry.line,
        ids,
        score: install.score,
        service,
        lower,
        upper,
    })
}

/// A models line whose install section is met first: what that gives is kept under its folded name.
fn first_line_with(
    alloc: Global,
    sections: &Sections,
    installs: &mut Installs,
    entry: &Entry,
    name: Vec<u8>,
) -> Result<ModelLine, AllocError>
    requires { IsKept (section_found sections.now) installs.old }
    ensures line { IfOk result (λ line. line ≡ line_with entry.now (install_of (section_found sections.now) name.items)) }
    ensures kept { OnOk result (IsKept (section_found sections.now) installs.new) }
{
    let install = install_of(alloc, sections, &name)?;
    let line = line_with(alloc, entry, &install)?;
    installs.kept.insert(name, install)?;
    Ok(line)
}

/// The models line that an entry is. What its install section gives is kept for the next line that names it.
#[tactic(auto, unfolding(crate::specs::Models::model_line))]
fn model_line(
    alloc: Global,
    sections: &Sections,
    installs: &mut Installs,
    entry: &Entry,
) -> Result<ModelLine, AllocError>
    requires { IsKept (section_found sections.now) installs.old }
    ensures line { IfOk result (λ line. line ≡ model_line (section_found sections.now) entry.now) }
    ensures kept { OnOk result (IsKept (section_found sections.now) installs.new) }
{
    let name = install_name(alloc, sections, value_at(&entry.values, 0))?;
    if let Some(install) = installs.kept.get(name.as_slice()) {
        return line_with(alloc, entry, install);
    }
    first_line_with(alloc, sections, installs, entry, name)
}

/// Adds the models lines of a section.
fn push_models(
    alloc: Global,
    sections: &Sections,
    installs: &mut Installs,
    entries: &[Entry],
    lines: &mut ModelLines,
) -> Result<(), AllocError>
    requires { IsKept (section_found sections.now) installs.old }
    ensures lines { OnOk result (lines.new ≡ lines.old ++ map (model_line (section_found sections.now)) entries.now) }
    ensures kept { OnOk result (IsKept (section_found sections.now) installs.new) }
{
    for entry in entries {
        lines.push(model_line(alloc, sections, installs, entry)?)?;
    }
    Ok(())
}

/// Adds the models lines of all sections.
#[tactic(auto, unfolding(crate::specs::Models::all_models))]
fn push_all_models(
    alloc: Global,
    sections: &Sections,
    makers: &Texts,
    installs: &mut Installs,
    lines: &mut ModelLines,
) -> Result<(), AllocError>
    requires { IsKept (section_found sections.now) installs.old }
    ensures { OnOk result (lines.new ≡ lines.old ++ all_models (section_found sections.now) makers.now) }
{
    for name in makers.as_slice() {
        let entries = sections.keyed(alloc, name.bytes())?;
        lines.reserve(entries.len())?;
        push_models(alloc, sections, installs, entries, lines)?;
    }
    Ok(())
}

/// All models lines, in the order of [Manufacturer]. Cost: what the named sections hold, and what is given.
pub fn all_models(
    alloc: Global,
    sections: &Sections,
    makers: &Texts,
) -> Result<ModelLines, AllocError>
    ensures { IfOk result (λ lines. lines ≡ all_models (section_found sections.now) makers.now) }
{
    let mut lines = ModelLines::new(alloc);
    let mut installs = Installs {
        kept: BTreeMap::new(alloc),
    };
    push_all_models(alloc, sections, makers, &mut installs, &mut lines)?;
    Ok(lines)
}
