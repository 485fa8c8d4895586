//! Texts of files as they are printed.
ghost use Rattle.std.specs.Prelude.{◌≡◌, ◌++◌, OnOk, IfOk, map};
ghost use Rattle.lint_cli.specs.Reports.{shown_byte, shown, quoted, name_byte, shown_name, place_text, error_head, warning_head};

use pnp_labels::decimal;
use std::alloc::{AllocError, Global};

/// The most bytes of a text that are printed.
const MOST_SHOWN: usize = 80;

/// A byte as it is printed: those that are no printable ASCII are shown as question marks.
fn shown_byte(byte: u8) -> u8
    ensures { result ≡ shown_byte byte }
{
    if byte < 0x20 || byte > 0x7E {
        b'?'
    } else {
        byte
    }
}

/// The bytes as they are printed.
fn shown_bytes(alloc: Global, text: &[u8]) -> Result<Vec<u8>, AllocError>
    ensures { IfOk result (λ bytes. bytes.items ≡ map shown_byte text.now) }
{
    let mut bytes = Vec::new(alloc);
    for byte in text {
        bytes.push(shown_byte(*byte))?;
    }
    Ok(bytes)
}

/// Appends the front of a text, and dots where that is not all.
pub fn push_shown(alloc: Global, out: &mut Vec<u8>, text: &[u8]) -> Result<(), AllocError>
    ensures { OnOk result (out.new.items ≡ out.old.items ++ shown text.now) }
{
    if text.len() > MOST_SHOWN {
        let (front, _) = text.split_at(MOST_SHOWN);
        let bytes = shown_bytes(alloc, front)?;
        out.extend_from_slice(&bytes)?;
        out.extend_from_slice(b"..")?;
        return Ok(());
    }
    let bytes = shown_bytes(alloc, text)?;
    out.extend_from_slice(&bytes)?;
    Ok(())
}

/// Appends a word between quotes and a blank behind it.
pub fn push_quoted(alloc: Global, out: &mut Vec<u8>, word: &[u8]) -> Result<(), AllocError>
    ensures { OnOk result (out.new.items ≡ out.old.items ++ quoted word.now) }
{
    out.push(b'"')?;
    push_shown(alloc, out, word)?;
    out.extend_from_slice(b"\" ")?;
    Ok(())
}

/// A byte of a file's name as it is printed.
fn name_byte(byte: u8) -> u8
    ensures { result ≡ name_byte byte }
{
    if byte < 0x20 || byte == 0x7F {
        b'?'
    } else {
        byte
    }
}

/// Appends the name of a file.
fn push_name(out: &mut Vec<u8>, name: &[u8]) -> Result<(), AllocError>
    ensures { OnOk result (out.new.items ≡ out.old.items ++ shown_name name.now) }
{
    for byte in name {
        out.push(name_byte(*byte))?;
    }
    Ok(())
}

/// Appends the name of a file and the number of a line.
fn push_place(alloc: Global, out: &mut Vec<u8>, file: &[u8], line: u64) -> Result<(), AllocError>
    ensures { OnOk result (out.new.items ≡ out.old.items ++ place_text file.now line) }
{
    push_name(out, file)?;
    out.extend_from_slice(b":")?;
    out.extend_from_slice(decimal(alloc, line)?.as_bytes())?;
    out.extend_from_slice(b": ")?;
    Ok(())
}

/// Appends the front of an error of a line.
pub fn push_error_head(
    alloc: Global,
    out: &mut Vec<u8>,
    file: &[u8],
    line: u64,
) -> Result<(), AllocError>
    ensures { OnOk result (out.new.items ≡ out.old.items ++ error_head file.now line) }
{
    push_place(alloc, out, file, line)?;
    out.extend_from_slice(b"error: ")?;
    Ok(())
}

/// Appends the front of a warning of a line.
pub fn push_warning_head(
    alloc: Global,
    out: &mut Vec<u8>,
    file: &[u8],
    line: u32,
) -> Result<(), AllocError>
    ensures { OnOk result (out.new.items ≡ out.old.items ++ warning_head file.now line) }
{
    push_place(alloc, out, file, line as u64)?;
    out.extend_from_slice(b"warning: ")?;
    Ok(())
}
