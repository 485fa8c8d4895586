//! What the sections of a driver's installation lack, and what of them is read over. Nothing is claimed of it, and it is tested.

use crate::notes::{Looked, push_section};
use crate::over::{is_extension, push_install_over};
use crate::shown::{push_quoted, push_warning_head};
use inf_sections::{Entry, has_section, install_name, joined, replaced, value};
use std::alloc::{AllocError, Global};

/// Appends that a section is not there.
fn push_absent(
    alloc: Global,
    out: &mut Vec<u8>,
    inf: &Looked,
    line: u32,
    name: &[u8],
    why: &[u8],
) -> Result<(), AllocError> {
    push_warning_head(alloc, out, inf.file, line)?;
    out.extend_from_slice(b"there is no section ")?;
    push_section(alloc, out, name)?;
    out.extend_from_slice(why)?;
    out.push(b'\n')?;
    Ok(())
}

/// The value of a digit, if the byte is one.
fn digit(byte: u8) -> Option<u64> {
    match byte {
        b'0'..=b'9' => Some((byte - b'0') as u64),
        b'a'..=b'f' => Some((byte - b'a') as u64 + 10),
        b'A'..=b'F' => Some((byte - b'A') as u64 + 10),
        _ => None,
    }
}

/// Whether the flags are a number below 2^32 that has the bit 2.
fn is_function_driver(flags: &[u8]) -> bool {
    let (digits, base) = match flags {
        [b'0', b'x', digits @ ..] => (digits, 16u64),
        _ => (flags, 10u64),
    };
    let mut number = 0u64;
    for byte in digits {
        match digit(*byte) {
            Some(one) if one < base => {
                number = number.saturating_mul(base).saturating_add(one);
            }
            _ => return false,
        }
    }
    number <= 0xFFFF_FFFF && number % 4 >= 2
}

/// Appends that a service is no function driver.
fn push_no_driver(
    alloc: Global,
    out: &mut Vec<u8>,
    inf: &Looked,
    entry: &Entry,
) -> Result<(), AllocError> {
    push_warning_head(alloc, out, inf.file, entry.line)?;
    push_quoted(alloc, out, value(entry, 0))?;
    out.extend_from_slice(b"is no function driver: its flags have not the bit 2\n")
}

/// Whether the flags of an entry make its service the function driver.
fn adds_driver(alloc: Global, inf: &Looked, entry: &Entry) -> Result<bool, AllocError> {
    let flags = replaced(alloc, inf.sections, value(entry, 1))?;
    Ok(is_function_driver(&flags))
}

/// Appends the services of entries that are no function drivers, up to one that is; whether there is one.
fn push_entry_flags(
    alloc: Global,
    lines: &mut Vec<u8>,
    inf: &Looked,
    entries: &[Entry],
) -> Result<bool, AllocError> {
    for entry in entries {
        if entry.key.eq_ignore_ascii_case(b"AddService") {
            if adds_driver(alloc, inf, entry)? {
                return Ok(true);
            }
            push_no_driver(alloc, lines, inf, entry)?;
        }
    }
    Ok(false)
}

/// Appends the services of a section that are no function drivers, where none is one. Those of an extension INF must be none.
fn push_flags(
    alloc: Global,
    out: &mut Vec<u8>,
    inf: &Looked,
    name: &[u8],
) -> Result<(), AllocError> {
    let mut lines = Vec::new(alloc);
    for section in inf.sections {
        if section.name.eq_ignore_ascii_case(name)
            && push_entry_flags(alloc, &mut lines, inf, &section.entries)?
        {
            return Ok(());
        }
    }
    if is_extension(alloc, inf)? {
        return Ok(());
    }
    out.extend_from_slice(&lines)
}

/// Appends that the section of filters that a value names is not there.
fn push_filter(
    alloc: Global,
    out: &mut Vec<u8>,
    inf: &Looked,
    line: u32,
    text: &[u8],
) -> Result<(), AllocError> {
    let named = replaced(alloc, inf.sections, text)?;
    if named.is_empty() || has_section(inf.sections, &named) {
        return Ok(());
    }
    push_absent(alloc, out, inf, line, &named, b", which AddReg names")
}

/// Appends the sections of filters that an entry names and that are not there.
fn push_entry_filters(
    alloc: Global,
    out: &mut Vec<u8>,
    inf: &Looked,
    entry: &Entry,
) -> Result<(), AllocError> {
    if !entry.key.eq_ignore_ascii_case(b"AddReg") {
        return Ok(());
    }
    for text in &entry.values {
        push_filter(alloc, out, inf, entry.line, text)?;
    }
    Ok(())
}

/// Appends the sections of filters that are not there.
fn push_filters(
    alloc: Global,
    out: &mut Vec<u8>,
    inf: &Looked,
    name: &[u8],
) -> Result<(), AllocError> {
    for section in inf.sections {
        if section.name.eq_ignore_ascii_case(name) {
            for entry in &section.entries {
                push_entry_filters(alloc, out, inf, entry)?;
            }
        }
    }
    Ok(())
}

/// Appends what the section of services lacks, or that it is not there.
fn push_services(
    alloc: Global,
    out: &mut Vec<u8>,
    inf: &Looked,
    line: u32,
    name: &[u8],
    taken: &[u8],
) -> Result<(), AllocError> {
    let services = joined(alloc, taken, b"Services")?;
    if has_section(inf.sections, &services) {
        return push_flags(alloc, out, inf, &services);
    }
    if !has_section(inf.sections, taken) {
        push_absent(alloc, out, inf, line, name, b", which this line installs")?;
    }
    push_absent(
        alloc,
        out,
        inf,
        line,
        &services,
        b", which gives the driver",
    )
}

/// Appends what the install section of a models line lacks, and what of it is read over. A section that would be empty need not be there.
pub fn push_install(
    alloc: Global,
    out: &mut Vec<u8>,
    inf: &Looked,
    line: u32,
    name: &[u8],
) -> Result<(), AllocError> {
    let taken = install_name(alloc, inf.sections, name)?;
    push_services(alloc, out, inf, line, name, &taken)?;
    push_filters(alloc, out, inf, &joined(alloc, &taken, b"HW")?)?;
    push_install_over(alloc, out, inf, &taken)
}
