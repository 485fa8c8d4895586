use std::alloc::{AllocError, Global};

/// How the bytes of a file look, where an INF of them is not read as it was meant.
#[derive(Clone, Copy, PartialEq, Eq)]
pub enum Encoding {
    /// UTF-16 with its mark, the lower byte first; UTF-8; or Latin-1.
    Read,
    /// UTF-16, the lower byte first, without the mark FF FE.
    Unmarked,
    /// UTF-16, the higher byte first.
    HigherFirst,
}

/// How the bytes of a file look, by their first two.
pub fn encoding_of(bytes: &[u8]) -> Encoding {
    match bytes {
        [0xFE, 0xFF, ..] => Encoding::HigherFirst,
        [0, second, ..] if *second != 0 => Encoding::HigherFirst,
        [first, 0, ..] if *first != 0 => Encoding::Unmarked,
        _ => Encoding::Read,
    }
}

/// The units of UTF-16, the lower byte first.
fn units(alloc: Global, bytes: &[u8]) -> Result<Vec<u16>, AllocError> {
    let mut all = Vec::new(alloc);
    for at in 0..bytes.len() / 2 {
        all.push(bytes[2 * at] as u16 + 256 * (bytes[2 * at + 1] as u16))?;
    }
    Ok(all)
}

/// The bytes of a file, as UTF-8 where they are UTF-16.
pub fn plain_text(alloc: Global, bytes: &[u8]) -> Result<Vec<u8>, AllocError> {
    if bytes.starts_with(&[0xFF, 0xFE]) {
        let units = units(alloc, &bytes[2..])?;
        let text = String::from_utf16_lossy(alloc, &units)?;
        Vec::from_slice(alloc, text.as_bytes())
    } else {
        Vec::from_slice(alloc, bytes)
    }
}

/// A line without a carriage return at its end.
pub fn bare(line: &[u8]) -> &[u8] {
    match line {
        [front @ .., b'\r'] => front,
        _ => line,
    }
}
