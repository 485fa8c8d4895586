use crate::models::maker_of;
use crate::sections::{Entry, Section, sections_of};
use crate::tokens::replaced;
use std::alloc::{AllocError, Global};

/// The most IDs of a models line.
const MOST_IDS: usize = 8;

/// A header: the number of its line, and its name.
#[derive(Drop)]
struct Header {
    line: u32,
    name: Vec<u8>,
}

/// A models line of a section that is not read.
#[derive(Drop)]
pub struct UnreadLine {
    /// The number of the line, counted from 1.
    pub line: u32,
    /// The name of its section.
    pub section: Vec<u8>,
    /// Its IDs.
    pub ids: Vec<Vec<u8>>,
}

/// Where the lines of an INF stand.
#[derive(Drop)]
pub struct InfPlaces {
    headers: Vec<Header>,
    /// The models lines that are not read, by the entries of `[Manufacturer]`.
    pub unread: Vec<UnreadLine>,
}

impl InfPlaces {
    /// Of an INF without lines. It takes no memory.
    pub fn none(alloc: Global) -> InfPlaces {
        InfPlaces {
            headers: Vec::new(alloc),
            unread: Vec::new(alloc),
        }
    }

    /// The name of the section in which a line stands, if some header stands before it. Cost: the headers.
    pub fn section_of(&self, line: u32) -> Option<&[u8]> {
        let mut found = None;
        for header in &self.headers {
            if header.line <= line {
                found = Some(header.name.as_slice());
            }
        }
        found
    }
}

/// The IDs of a models line.
fn ids_of(alloc: Global, sections: &[Section], entry: &Entry) -> Result<Vec<Vec<u8>>, AllocError> {
    let mut ids = Vec::new(alloc);
    for text in entry.values.iter().skip(1).take(MOST_IDS) {
        ids.push(replaced(alloc, sections, text)?)?;
    }
    Ok(ids)
}

/// Appends the models lines of a section.
fn push_lines(
    alloc: Global,
    unread: &mut Vec<UnreadLine>,
    sections: &[Section],
    section: &Section,
) -> Result<(), AllocError> {
    for entry in &section.entries {
        if !entry.key.is_empty() {
            unread.push(UnreadLine {
                line: entry.line,
                section: Vec::from_slice(alloc, &section.name)?,
                ids: ids_of(alloc, sections, entry)?,
            })?;
        }
    }
    Ok(())
}

/// Appends the models lines of the sections of these names.
fn push_named(
    alloc: Global,
    unread: &mut Vec<UnreadLine>,
    sections: &[Section],
    names: &[Vec<u8>],
) -> Result<(), AllocError> {
    for name in names {
        for section in sections {
            if section.name.eq_ignore_ascii_case(name) {
                push_lines(alloc, unread, sections, section)?;
            }
        }
    }
    Ok(())
}

/// Appends the models lines that an entry of `[Manufacturer]` names and that are not read.
fn push_unread(
    alloc: Global,
    unread: &mut Vec<UnreadLine>,
    sections: &[Section],
    entry: &Entry,
) -> Result<(), AllocError> {
    let maker = maker_of(alloc, sections, entry)?;
    push_named(
        alloc,
        unread,
        sections,
        &maker.unread_names(alloc, sections, false)?,
    )?;
    push_named(
        alloc,
        unread,
        sections,
        &maker.unread_names(alloc, sections, true)?,
    )
}

/// The models lines that are not read.
fn unread_in(alloc: Global, sections: &[Section]) -> Result<Vec<UnreadLine>, AllocError> {
    let mut unread = Vec::new(alloc);
    for section in sections {
        if section.name.eq_ignore_ascii_case(b"Manufacturer") {
            for entry in &section.entries {
                push_unread(alloc, &mut unread, sections, entry)?;
            }
        }
    }
    Ok(unread)
}

/// The headers with a line.
fn headers_in(alloc: Global, sections: &[Section]) -> Result<Vec<Header>, AllocError> {
    let mut headers = Vec::new(alloc);
    for section in sections {
        if section.line > 0 {
            headers.push(Header {
                line: section.line,
                name: Vec::from_slice(alloc, &section.name)?,
            })?;
        }
    }
    Ok(headers)
}

/// Where the lines of an INF stand. Cost: the bytes, and for each entry of `[Manufacturer]` and each of its decorations the sections.
pub fn places_of(alloc: Global, bytes: &[u8]) -> Result<InfPlaces, AllocError> {
    let sections = sections_of(alloc, bytes)?;
    Ok(InfPlaces {
        headers: headers_in(alloc, &sections)?,
        unread: unread_in(alloc, &sections)?,
    })
}
