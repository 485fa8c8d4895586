//! What an INF has that Windows would heed and that is read over here, each as a warning. Nothing is claimed of it, and it is tested.

use crate::notes::{Looked, push_names, push_section};
use crate::shown::{push_shown, push_warning_head};
use inf_sections::{Entry, Maker, begins, joined, replaced, value};
use std::alloc::{AllocError, Global};

/// Appends which models section is read for an entry of `[Manufacturer]`, and which are not, where others could be taken. Those of other
/// machines are told beside them; alone they are told where every line counts, or where no decoration is taken.
pub fn push_unread_models(
    alloc: Global,
    out: &mut Vec<u8>,
    inf: &Looked,
    line: u32,
    maker: &Maker,
    models: &[u8],
) -> Result<(), AllocError> {
    let mut names = maker.unread_names(alloc, inf.sections, false)?;
    let own = names.len();
    if own > 0 || inf.ids.is_none() || maker.taken().is_none() {
        for name in maker.unread_names(alloc, inf.sections, true)? {
            names.push(name)?;
        }
    }
    if names.is_empty() {
        return Ok(());
    }
    push_warning_head(alloc, out, inf.file, line)?;
    push_section(alloc, out, models)?;
    out.extend_from_slice(b" is read, and not ")?;
    push_names(alloc, out, &names)?;
    out.extend_from_slice(if own > 0 {
        b": of the decorations NTamd64 is taken, else the first that begins with NTamd64., else NT\n"
    } else {
        b": they are for other machines\n"
    })
}

/// Whether an entry of `[Version]` says that the INF is an extension.
fn says_extension(alloc: Global, inf: &Looked, entry: &Entry) -> Result<bool, AllocError> {
    Ok(
        entry.key.eq_ignore_ascii_case(b"Class")
            && replaced(alloc, inf.sections, value(entry, 0))?.eq_ignore_ascii_case(b"Extension"),
    )
}

/// The number of the line that says that an INF is an extension, if one does.
fn extension_line(alloc: Global, inf: &Looked) -> Result<Option<u32>, AllocError> {
    for section in inf.sections {
        if section.name.eq_ignore_ascii_case(b"Version") {
            for entry in &section.entries {
                if says_extension(alloc, inf, entry)? {
                    return Ok(Some(entry.line));
                }
            }
        }
    }
    Ok(None)
}

/// Whether an INF is an extension of others.
pub fn is_extension(alloc: Global, inf: &Looked) -> Result<bool, AllocError> {
    Ok(extension_line(alloc, inf)?.is_some())
}

/// Appends that an INF is an extension and is taken for another one.
pub fn push_version(alloc: Global, out: &mut Vec<u8>, inf: &Looked) -> Result<(), AllocError> {
    let Some(line) = extension_line(alloc, inf)? else {
        return Ok(());
    };
    push_warning_head(alloc, out, inf.file, line)?;
    out.extend_from_slice(
        b"Class = Extension is read over: the INF is taken for a rival of the one that it extends, and adds nothing to it\n",
    )
}

/// Whether an entry adds filters, by its last value that counts.
fn adds_filters(entry: &Entry) -> bool {
    entry.key.is_empty()
        && value(entry, 0).eq_ignore_ascii_case(b"HKR")
        && value(entry, 1).is_empty()
        && (value(entry, 2).eq_ignore_ascii_case(b"UpperFilters")
            || value(entry, 2).eq_ignore_ascii_case(b"LowerFilters"))
}

/// Appends the filters of a class that the section of a name adds.
fn push_class_lines(
    alloc: Global,
    out: &mut Vec<u8>,
    inf: &Looked,
    name: &[u8],
) -> Result<(), AllocError> {
    for section in inf.sections {
        if section.name.eq_ignore_ascii_case(name) {
            for entry in &section.entries {
                if adds_filters(entry) {
                    push_warning_head(alloc, out, inf.file, entry.line)?;
                    push_shown(alloc, out, value(entry, 2))?;
                    out.extend_from_slice(
                        b" of a class is read over: no device of the class has these filters\n",
                    )?;
                }
            }
        }
    }
    Ok(())
}

/// Appends the filters of a class that an entry adds.
fn push_class_entry(
    alloc: Global,
    out: &mut Vec<u8>,
    inf: &Looked,
    entry: &Entry,
) -> Result<(), AllocError> {
    if !entry.key.eq_ignore_ascii_case(b"AddReg") {
        return Ok(());
    }
    for text in &entry.values {
        push_class_lines(alloc, out, inf, &replaced(alloc, inf.sections, text)?)?;
    }
    Ok(())
}

/// Appends the filters of a class, which are read over.
pub fn push_class_filters(
    alloc: Global,
    out: &mut Vec<u8>,
    inf: &Looked,
) -> Result<(), AllocError> {
    for section in inf.sections {
        if section.name.eq_ignore_ascii_case(b"ClassInstall32")
            || begins(&section.name, b"ClassInstall32.")
        {
            for entry in &section.entries {
                push_class_entry(alloc, out, inf, entry)?;
            }
        }
    }
    Ok(())
}

/// Appends the values of an entry, commas between them.
fn push_values(
    alloc: Global,
    out: &mut Vec<u8>,
    inf: &Looked,
    entry: &Entry,
) -> Result<(), AllocError> {
    for at in 0..entry.values.len() {
        out.extend_from_slice(if at == 0 { b"" } else { b", " })?;
        push_shown(
            alloc,
            out,
            &replaced(alloc, inf.sections, value(entry, at))?,
        )?;
    }
    Ok(())
}

/// Appends that what an entry asks for is read over.
fn push_entry_over(
    alloc: Global,
    out: &mut Vec<u8>,
    inf: &Looked,
    entry: &Entry,
    why: &[u8],
) -> Result<(), AllocError> {
    push_warning_head(alloc, out, inf.file, entry.line)?;
    push_shown(alloc, out, &entry.key)?;
    out.extend_from_slice(b" = ")?;
    push_values(alloc, out, inf, entry)?;
    out.extend_from_slice(b" is read over: ")?;
    out.extend_from_slice(why)
}

/// Appends the entries of a section that name others and are read over.
fn push_needs(
    alloc: Global,
    out: &mut Vec<u8>,
    inf: &Looked,
    name: &[u8],
) -> Result<(), AllocError> {
    for section in inf.sections {
        if section.name.eq_ignore_ascii_case(name) {
            for entry in &section.entries {
                if entry.key.eq_ignore_ascii_case(b"Needs") {
                    push_entry_over(
                        alloc,
                        out,
                        inf,
                        entry,
                        b"nothing of these sections counts here\n",
                    )?;
                } else if entry.key.eq_ignore_ascii_case(b"Include") {
                    push_entry_over(alloc, out, inf, entry, b"no other INF counts here\n")?;
                }
            }
        }
    }
    Ok(())
}

/// Appends the entries of a section of this key, which are read over.
fn push_keyed(
    alloc: Global,
    out: &mut Vec<u8>,
    inf: &Looked,
    name: &[u8],
    key: &[u8],
    why: &[u8],
) -> Result<(), AllocError> {
    for section in inf.sections {
        if section.name.eq_ignore_ascii_case(name) {
            for entry in &section.entries {
                if entry.key.eq_ignore_ascii_case(key) {
                    push_entry_over(alloc, out, inf, entry, why)?;
                }
            }
        }
    }
    Ok(())
}

/// Appends what of the sections of an installation is read over: other sections and INFs that it needs, filters by `AddFilter`, and IDs
/// that it excludes.
pub fn push_install_over(
    alloc: Global,
    out: &mut Vec<u8>,
    inf: &Looked,
    taken: &[u8],
) -> Result<(), AllocError> {
    push_needs(alloc, out, inf, taken)?;
    let excluded = b"its devices are matched all the same\n";
    push_keyed(alloc, out, inf, taken, b"ExcludeID", excluded)?;
    push_needs(alloc, out, inf, &joined(alloc, taken, b"Services")?)?;
    push_needs(alloc, out, inf, &joined(alloc, taken, b"HW")?)?;
    let filters = joined(alloc, taken, b"Filters")?;
    push_needs(alloc, out, inf, &filters)?;
    let added =
        b"the filter is not added; UpperFilters and LowerFilters by AddReg of the section .HW add some\n";
    push_keyed(alloc, out, inf, &filters, b"AddFilter", added)
}
