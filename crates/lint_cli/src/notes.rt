//! What is told of an INF by its sections: how its bytes look, what is read over, and what its models and install sections lack. Nothing
//! is claimed of it, and it is tested.

use crate::installs::push_install;
use crate::names::Names;
use crate::over::{push_class_filters, push_unread_models, push_version};
use crate::shown::{push_shown, push_warning_head};
use inf_sections::{
    Encoding, Entry, Maker, Section, begins, encoding_of, has_section, joined, maker_of, replaced,
    sections_of, value,
};
use std::alloc::{AllocError, Global};

/// The most install sections of an INF that are looked at.
const MOST_INSTALLS: usize = 1024;

/// The most sections that are told in one warning.
const MOST_TOLD: usize = 8;

/// The most IDs of a models line.
const MOST_IDS: usize = 8;

/// An INF that is looked at: its name, its sections, and the IDs of which a line must have one to be told of, if there are some.
#[derive(Drop)]
pub struct Looked<'a> {
    pub file: &'a [u8],
    pub sections: &'a [Section],
    pub ids: Option<&'a Names<'a>>,
}

/// Appends a name between brackets.
pub fn push_section(alloc: Global, out: &mut Vec<u8>, name: &[u8]) -> Result<(), AllocError> {
    out.push(b'[')?;
    push_shown(alloc, out, name)?;
    out.push(b']')?;
    Ok(())
}

/// Appends names between brackets, a blank between any two, as far as they are told.
pub fn push_names(alloc: Global, out: &mut Vec<u8>, names: &[Vec<u8>]) -> Result<(), AllocError> {
    for at in 0..names.len().min(MOST_TOLD) {
        if at > 0 {
            out.push(b' ')?;
        }
        push_section(alloc, out, &names[at])?;
    }
    if names.len() > MOST_TOLD {
        out.extend_from_slice(b" ..")?;
    }
    Ok(())
}

/// The sections of a name with any decoration.
fn decorated_names(
    alloc: Global,
    sections: &[Section],
    name: &[u8],
) -> Result<Vec<Vec<u8>>, AllocError> {
    let front = joined(alloc, name, &[])?;
    let mut names = Vec::new(alloc);
    for section in sections {
        if section.name.eq_ignore_ascii_case(name) || begins(&section.name, &front) {
            names.push(Vec::from_slice(alloc, &section.name)?)?;
        }
    }
    Ok(names)
}

/// Appends why no models line is read for an entry of `[Manufacturer]`.
fn push_absent_models(
    alloc: Global,
    out: &mut Vec<u8>,
    inf: &Looked,
    entry: &Entry,
    maker: &Maker,
    models: &[u8],
) -> Result<(), AllocError> {
    push_warning_head(alloc, out, inf.file, entry.line)?;
    out.extend_from_slice(b"there is no models section ")?;
    push_section(alloc, out, models)?;
    let names = decorated_names(alloc, inf.sections, &maker.name)?;
    if !names.is_empty() {
        out.extend_from_slice(b", and ")?;
        push_names(alloc, out, &names)?;
        out.extend_from_slice(b" is not read")?;
    }
    if !maker.decorations.is_empty() && maker.taken().is_none() {
        out.extend_from_slice(b": no decoration is NTamd64, NT, or begins with NTamd64.")?;
    }
    out.push(b'\n')?;
    Ok(())
}

/// Whether the name is one of these, in any letters.
fn is_among(names: &[Vec<u8>], name: &[u8]) -> bool {
    for known in names {
        if known.eq_ignore_ascii_case(name) {
            return true;
        }
    }
    false
}

/// Whether one of the IDs of a models line is one of these.
fn has_id(alloc: Global, inf: &Looked, ids: &Names, entry: &Entry) -> Result<bool, AllocError> {
    for at in 1..=MOST_IDS {
        let id = replaced(alloc, inf.sections, value(entry, at))?;
        if !id.is_empty() && ids.has(alloc, &id)? {
            return Ok(true);
        }
    }
    Ok(false)
}

/// Whether an entry is a models line that counts.
fn counts(alloc: Global, inf: &Looked, entry: &Entry) -> Result<bool, AllocError> {
    if entry.key.is_empty() {
        return Ok(false);
    }
    match inf.ids {
        None => Ok(true),
        Some(ids) => has_id(alloc, inf, ids, entry),
    }
}

/// Appends what is told of the install section of an entry, unless it was named before.
fn push_model(
    alloc: Global,
    out: &mut Vec<u8>,
    inf: &Looked,
    entry: &Entry,
    passed: &mut Vec<Vec<u8>>,
) -> Result<(), AllocError> {
    if passed.len() >= MOST_INSTALLS || !counts(alloc, inf, entry)? {
        return Ok(());
    }
    let name = replaced(alloc, inf.sections, value(entry, 0))?;
    if is_among(passed, &name) {
        return Ok(());
    }
    push_install(alloc, out, inf, entry.line, &name)?;
    passed.push(name)?;
    Ok(())
}

/// Appends what is told of the install sections of a models section, of each the first time that it is named.
fn push_models(
    alloc: Global,
    out: &mut Vec<u8>,
    inf: &Looked,
    models: &[u8],
    passed: &mut Vec<Vec<u8>>,
) -> Result<(), AllocError> {
    for section in inf.sections {
        if section.name.eq_ignore_ascii_case(models) {
            for entry in &section.entries {
                push_model(alloc, out, inf, entry, passed)?;
            }
        }
    }
    Ok(())
}

/// Appends what is told of an entry of `[Manufacturer]`.
fn push_maker(
    alloc: Global,
    out: &mut Vec<u8>,
    inf: &Looked,
    entry: &Entry,
    passed: &mut Vec<Vec<u8>>,
) -> Result<(), AllocError> {
    let maker = maker_of(alloc, inf.sections, entry)?;
    let models = maker.read_name(alloc)?;
    if !has_section(inf.sections, &models) {
        return push_absent_models(alloc, out, inf, entry, &maker, &models);
    }
    push_unread_models(alloc, out, inf, entry.line, &maker, &models)?;
    push_models(alloc, out, inf, &models, passed)
}

/// Appends what is told of the entries of `[Manufacturer]`.
fn push_makers(alloc: Global, out: &mut Vec<u8>, inf: &Looked) -> Result<(), AllocError> {
    let mut passed = Vec::new(alloc);
    for section in inf.sections {
        if section.name.eq_ignore_ascii_case(b"Manufacturer") {
            for entry in &section.entries {
                push_maker(alloc, out, inf, entry, &mut passed)?;
            }
        }
    }
    Ok(())
}

/// What is told of bytes that are read otherwise than they were meant.
pub fn encoding_note(alloc: Global, file: &[u8], bytes: &[u8]) -> Result<Vec<u8>, AllocError> {
    let mut out = Vec::new(alloc);
    let text = match encoding_of(bytes) {
        Encoding::Read => return Ok(out),
        Encoding::Unmarked => {
            b"the file looks like UTF-16 without the mark FF FE, and is not read as such\n".as_slice()
        }
        Encoding::HigherFirst => {
            b"the file looks like UTF-16 with the higher byte first, which is not read\n".as_slice()
        }
    };
    push_warning_head(alloc, &mut out, file, 1)?;
    out.extend_from_slice(text)?;
    Ok(out)
}

/// What is told of an INF that is read, by its bytes and its sections.
pub fn notes_of(
    alloc: Global,
    file: &[u8],
    bytes: &[u8],
    ids: Option<&Names>,
) -> Result<Vec<u8>, AllocError> {
    let sections = sections_of(alloc, bytes)?;
    let inf = Looked {
        file,
        sections: &sections,
        ids,
    };
    let mut out = encoding_note(alloc, file, bytes)?;
    push_version(alloc, &mut out, &inf)?;
    push_class_filters(alloc, &mut out, &inf)?;
    push_makers(alloc, &mut out, &inf)?;
    Ok(out)
}
