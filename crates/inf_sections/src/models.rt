use crate::sections::{Entry, Section};
use crate::tokens::{begins, has_section, joined, replaced, value};
use std::alloc::{AllocError, Global};

/// What an entry of `[Manufacturer]` names.
#[derive(Drop)]
pub struct Maker {
    /// The name of the models sections without a decoration.
    pub name: Vec<u8>,
    /// The decorations, in order.
    pub decorations: Vec<Vec<u8>>,
}

/// Whether a decoration is one of those that are taken: `NTamd64`, `NTamd64.` and more, `NT`.
fn is_taken(decoration: &[u8]) -> bool {
    decoration.eq_ignore_ascii_case(b"NTamd64")
        || begins(decoration, b"NTamd64.")
        || decoration.eq_ignore_ascii_case(b"NT")
}

impl Maker {
    /// The decoration that is taken, if one is.
    pub fn taken(&self) -> Option<&[u8]> {
        for decoration in &self.decorations {
            if decoration.eq_ignore_ascii_case(b"NTamd64") {
                return Some(decoration);
            }
        }
        for decoration in &self.decorations {
            if begins(decoration, b"NTamd64.") {
                return Some(decoration);
            }
        }
        for decoration in &self.decorations {
            if decoration.eq_ignore_ascii_case(b"NT") {
                return Some(decoration);
            }
        }
        None
    }

    /// The name of the models section that is read.
    pub fn read_name(&self, alloc: Global) -> Result<Vec<u8>, AllocError> {
        match self.taken() {
            Some(decoration) => joined(alloc, &self.name, decoration),
            None => Vec::from_slice(alloc, &self.name),
        }
    }

    /// The names of the models sections that are there and are not read: first the bare one, and then one for each decoration that
    /// could be taken, or with `others` for each that could not.
    pub fn unread_names(
        &self,
        alloc: Global,
        sections: &[Section],
        others: bool,
    ) -> Result<Vec<Vec<u8>>, AllocError> {
        let read = self.read_name(alloc)?;
        let mut names = Vec::new(alloc);
        if others {
            push_other(
                &mut names,
                sections,
                &read,
                Vec::from_slice(alloc, &self.name)?,
            )?;
        }
        for decoration in &self.decorations {
            if is_taken(decoration) != others {
                push_other(
                    &mut names,
                    sections,
                    &read,
                    joined(alloc, &self.name, decoration)?,
                )?;
            }
        }
        Ok(names)
    }
}

/// Appends a name, if it is another than that of the section that is read, not among the names, and its section is there and has entries.
fn push_other(
    names: &mut Vec<Vec<u8>>,
    sections: &[Section],
    read: &[u8],
    name: Vec<u8>,
) -> Result<(), AllocError> {
    if name.eq_ignore_ascii_case(read) || !has_entries(sections, &name) || is_among(names, &name) {
        return Ok(());
    }
    names.push(name)?;
    Ok(())
}

/// Whether a section of the name has some entry.
fn has_entries(sections: &[Section], name: &[u8]) -> bool {
    for section in sections {
        if section.name.eq_ignore_ascii_case(name) && !section.entries.is_empty() {
            return true;
        }
    }
    false
}

/// Whether the name is one of these, in any letters.
fn is_among(names: &[Vec<u8>], name: &[u8]) -> bool {
    for known in names {
        if known.eq_ignore_ascii_case(name) {
            return true;
        }
    }
    false
}

/// What an entry of `[Manufacturer]` names.
pub fn maker_of(alloc: Global, sections: &[Section], entry: &Entry) -> Result<Maker, AllocError> {
    let mut decorations = Vec::new(alloc);
    for text in entry.values.get(1..).unwrap_or(&[]) {
        decorations.push(replaced(alloc, sections, text)?)?;
    }
    let name = replaced(alloc, sections, value(entry, 0))?;
    Ok(Maker { name, decorations })
}

/// A name with this decoration, if a section has it.
fn decorated(
    alloc: Global,
    sections: &[Section],
    name: &[u8],
    decoration: &[u8],
) -> Result<Option<Vec<u8>>, AllocError> {
    let decorated = joined(alloc, name, decoration)?;
    if has_section(sections, &decorated) {
        Ok(Some(decorated))
    } else {
        Ok(None)
    }
}

/// The name of the install section that is taken, and the bare name where none is there.
pub fn install_name(
    alloc: Global,
    sections: &[Section],
    name: &[u8],
) -> Result<Vec<u8>, AllocError> {
    if let Some(first) = decorated(alloc, sections, name, b"NTamd64")? {
        return Ok(first);
    }
    if let Some(second) = decorated(alloc, sections, name, b"NT")? {
        return Ok(second);
    }
    Vec::from_slice(alloc, name)
}
