use crate::sections::{Entry, Section};
use device_ids::split_once;
use std::alloc::{AllocError, Global};

/// Whether a section of the name is there, in any letters.
pub fn has_section(sections: &[Section], name: &[u8]) -> bool {
    for section in sections {
        if section.name.eq_ignore_ascii_case(name) {
            return true;
        }
    }
    false
}

/// A value of an entry, empty where it is not there.
pub fn value(entry: &Entry, at: usize) -> &[u8] {
    match entry.values.get(at) {
        Some(text) => text,
        None => &[],
    }
}

/// Appends what a token stands for.
fn push_token(text: &mut Vec<u8>, sections: &[Section], token: &[u8]) -> Result<(), AllocError> {
    for section in sections {
        if section.name.eq_ignore_ascii_case(b"Strings") {
            for entry in &section.entries {
                if !token.is_empty() && entry.key.eq_ignore_ascii_case(token) {
                    return text.extend_from_slice(value(entry, 0));
                }
            }
        }
    }
    text.push(b'%')?;
    if !token.is_empty() {
        text.extend_from_slice(token)?;
        text.push(b'%')?;
    }
    Ok(())
}

/// Appends a text with its tokens replaced.
fn push_replaced(all: &mut Vec<u8>, sections: &[Section], text: &[u8]) -> Result<(), AllocError> {
    let mut rest = text;
    while let Some((plain, behind)) = split_once(rest, b'%') {
        all.extend_from_slice(plain)?;
        let Some((token, after)) = split_once(behind, b'%') else {
            all.push(b'%')?;
            return all.extend_from_slice(behind);
        };
        push_token(all, sections, token)?;
        rest = after;
    }
    all.extend_from_slice(rest)
}

/// A text with its tokens replaced. Cost: its length, and for each token the entries of `[Strings]`.
pub fn replaced(alloc: Global, sections: &[Section], text: &[u8]) -> Result<Vec<u8>, AllocError> {
    let mut all = Vec::new(alloc);
    push_replaced(&mut all, sections, text)?;
    Ok(all)
}

/// A name, a point, and what follows it.
pub fn joined(alloc: Global, name: &[u8], more: &[u8]) -> Result<Vec<u8>, AllocError> {
    let mut all = Vec::from_slice(alloc, name)?;
    all.push(b'.')?;
    all.extend_from_slice(more)?;
    Ok(all)
}

/// Whether a text begins with another, in any letters.
pub fn begins(text: &[u8], front: &[u8]) -> bool {
    match text.get(..front.len()) {
        Some(begun) => begun.eq_ignore_ascii_case(front),
        None => false,
    }
}
