//! What is written of an INF that is read and yet leaves a device without a driver.
ghost use Rattle.std.specs.Prelude.{◌≡◌, ◌++◌, ◌∷◌, [], ◌==◌, IfOk, OnOk, None, map, not, length};
ghost use Rattle.std.specs.Option.{option_map};
ghost use Rattle.std.specs.List.{flat_map, filter, find, list_any};
ghost use Rattle.lint_cli.specs.Warnings.{seen, is_told, text_by, passed_by, missing, missing_text, missing_texts, no_service_text, unserved_by, unserved_text, no_lines_text, is_some_of, counts, names_in, missing_by, warnings_of, told, warnings_text};

use crate::drivers::{Named, push_line};
use crate::names::Names;
use crate::shown::{push_quoted, push_warning_head};
use device_ids::{Text, TextList};
use inf_reader::{Inf, ModelLine, ModelLines};
use std::alloc::{AllocError, Global};

/// What the script tells: the drivers that it names, if there is one, and the IDs of its devices, if only lines that match one are told of.
#[derive(Drop)]
pub struct Known<'a> {
    /// The drivers.
    pub drivers: Option<Names<'a>>,
    /// The identifiers.
    pub ids: Option<Names<'a>>,
}

/// Whether an ID is one of these, and not empty.
fn is_some_of(alloc: Global, ids: &Names, id: &[u8]) -> Result<bool, AllocError>
    ensures { IfOk result (λ found. found ≡ is_some_of ids.now id.now) }
{
    if id.is_empty() {
        return Ok(false);
    }
    ids.has(alloc, id)
}

/// Whether one of a line's IDs is one of these.
fn matches_some(alloc: Global, ids: &Names, line: &TextList) -> Result<bool, AllocError>
    ensures { IfOk result (λ found. found ≡ list_any (is_some_of ids.now) line.now) }
{
    for at in 0..line.len() {
        if is_some_of(alloc, ids, line.get(at).bytes())? {
            return Ok(true);
        }
    }
    Ok(false)
}

/// Whether a line counts.
fn counts(alloc: Global, ids: Option<&Names>, line: &ModelLine) -> Result<bool, AllocError>
    ensures { IfOk result (λ it. it ≡ counts (option_map (λ n. n.now) ids.entry) line.now) }
{
    match ids {
        None => Ok(true),
        Some(ids) => matches_some(alloc, ids, &line.ids),
    }
}

/// Appends a line, if it counts.
fn push_counting<'a>(
    alloc: Global,
    all: &mut Vec<&'a ModelLine>,
    ids: Option<&Names>,
    line: &'a ModelLine,
) -> Result<(), AllocError>
    ensures { OnOk result (map (λ l. l.now) all.new.items ≡ map (λ l. l.now) all.old.items ++ filter (counts (option_map (λ n. n.now) ids.entry)) (line.now ∷ [])) }
{
    if counts(alloc, ids, line)? {
        all.push(line)?;
    }
    Ok(())
}

/// The lines that count.
fn counting<'a>(
    alloc: Global,
    ids: Option<&Names>,
    lines: &'a ModelLines,
) -> Result<Vec<&'a ModelLine>, AllocError>
    ensures { IfOk result (λ all. map (λ l. l.now) all.items ≡ filter (counts (option_map (λ n. n.now) ids.entry)) lines.now) }
{
    let mut all = Vec::new(alloc);
    for at in 0..lines.len() {
        push_counting(alloc, &mut all, ids, lines.get(at))?;
    }
    Ok(all)
}

/// Appends the warning of a driver that no line of the script names.
fn push_missing(
    alloc: Global,
    out: &mut Vec<u8>,
    file: &[u8],
    named: &Named,
) -> Result<(), AllocError>
    ensures { OnOk result (out.new.items ≡ out.old.items ++ missing_text file.now (seen named.now)) }
{
    push_warning_head(alloc, out, file, named.line)?;
    push_quoted(alloc, out, named.name)?;
    out.extend_from_slice(b"is named by no driver line of the script (problem 39)\n")?;
    Ok(())
}

/// Whether a driver is one of the script or one that was told.
fn is_told(alloc: Global, drivers: &Names, passed: &Names, name: &[u8]) -> Result<bool, AllocError>
    ensures { IfOk result (λ told. told ≡ is_told drivers.now passed.now name.now) }
{
    if drivers.has(alloc, name)? {
        return Ok(true);
    }
    passed.has(alloc, name)
}

/// Appends the warning of a driver, unless a line of the script names it or it was told.
fn push_once<'a>(
    alloc: Global,
    out: &mut Vec<u8>,
    file: &[u8],
    drivers: &Names,
    passed: &mut Names<'a>,
    named: &Named<'a>,
) -> Result<(), AllocError>
    ensures text { OnOk result (out.new.items ≡ out.old.items ++ text_by file.now (seen named.now) (is_told drivers.now passed.old named.now.name.now)) }
    ensures passed { OnOk result (passed.new ≡ passed_by passed.old named.now.name.now (is_told drivers.now passed.old named.now.name.now)) }
{
    if is_told(alloc, drivers, passed, named.name)? {
        return Ok(());
    }
    push_missing(alloc, out, file, named)?;
    passed.push(alloc, named.name)
}

/// Appends the warnings of drivers that no line of the script names, each name once.
fn push_missing_all(
    alloc: Global,
    out: &mut Vec<u8>,
    file: &[u8],
    drivers: &Names,
    named: &[Named],
) -> Result<(), AllocError>
    ensures { OnOk result (out.new.items ≡ out.old.items ++ missing_texts file.now (missing drivers.now [] (map seen named.now))) }
{
    let mut passed = Names::new(alloc);
    for one in named {
        push_once(alloc, out, file, drivers, &mut passed, one)?;
    }
    Ok(())
}

/// Appends the warnings of drivers that no line of the script names, if there is one.
fn push_missing_by(
    alloc: Global,
    out: &mut Vec<u8>,
    file: &[u8],
    drivers: Option<&Names>,
    named: &[Named],
) -> Result<(), AllocError>
    ensures { OnOk result (out.new.items ≡ out.old.items ++ missing_by file.now (option_map (λ n. n.now) drivers.entry) (map seen named.now)) }
{
    match drivers {
        None => Ok(()),
        Some(drivers) => push_missing_all(alloc, out, file, drivers, named),
    }
}

/// The drivers that models lines name, line by line.
fn names_in<'a>(alloc: Global, lines: &[&'a ModelLine]) -> Result<Vec<Named<'a>>, AllocError>
    ensures { IfOk result (λ named. map seen named.items ≡ names_in (map (λ l. l.now) lines.now)) }
{
    let mut named = Vec::new(alloc);
    for line in lines {
        push_line(&mut named, *line)?;
    }
    Ok(named)
}

/// The first ID that matches something.
fn matching_id(ids: &TextList) -> Option<&Text>
    ensures { option_map (λ id. id.now) result ≡ find (λ id. not (length id == 0)) ids.now }
{
    for at in 0..ids.len() {
        let id = ids.get(at);
        if id.len() != 0 {
            return Some(id);
        }
    }
    None
}

/// Appends that the line with this ID has no service.
fn push_no_service(
    alloc: Global,
    out: &mut Vec<u8>,
    file: &[u8],
    line: u32,
    id: &[u8],
) -> Result<(), AllocError>
    ensures { OnOk result (out.new.items ≡ out.old.items ++ no_service_text file.now line id.now) }
{
    push_warning_head(alloc, out, file, line)?;
    push_quoted(alloc, out, id)?;
    out.extend_from_slice(
        b"gets no driver: its models line has no service, which an AddService with the flag 2 gives (problem 28)\n",
    )?;
    Ok(())
}

/// Appends the warning of a line without a service, by its first ID that matches something.
fn push_unserved_id(
    alloc: Global,
    out: &mut Vec<u8>,
    file: &[u8],
    line: u32,
    id: Option<&Text>,
) -> Result<(), AllocError>
    ensures { OnOk result (out.new.items ≡ out.old.items ++ unserved_by file.now line None (option_map (λ id. id.now) id.entry)) }
{
    match id {
        None => Ok(()),
        Some(id) => push_no_service(alloc, out, file, line, id.bytes()),
    }
}

/// Appends the warning of a line, if it has no service.
fn push_unserved(
    alloc: Global,
    out: &mut Vec<u8>,
    file: &[u8],
    line: &ModelLine,
) -> Result<(), AllocError>
    ensures { OnOk result (out.new.items ≡ out.old.items ++ unserved_text file.now line.now) }
{
    match &line.service {
        Some(_) => Ok(()),
        None => push_unserved_id(alloc, out, file, line.line, matching_id(&line.ids)),
    }
}

/// Appends the warnings of lines without a service.
fn push_unserved_all(
    alloc: Global,
    out: &mut Vec<u8>,
    file: &[u8],
    lines: &[&ModelLine],
) -> Result<(), AllocError>
    ensures { OnOk result (out.new.items ≡ out.old.items ++ flat_map (unserved_text file.now) (map (λ l. l.now) lines.now)) }
{
    for line in lines {
        push_unserved(alloc, out, file, *line)?;
    }
    Ok(())
}

/// Appends the warning of an INF without lines.
fn push_no_lines(
    alloc: Global,
    out: &mut Vec<u8>,
    file: &[u8],
    lines: &ModelLines,
) -> Result<(), AllocError>
    ensures { OnOk result (out.new.items ≡ out.old.items ++ no_lines_text file.now lines.now) }
{
    if lines.len() != 0 {
        return Ok(());
    }
    push_warning_head(alloc, out, file, 1)?;
    out.extend_from_slice(
        b"no models line is read, so no device gets a driver from it (problem 28)\n",
    )?;
    Ok(())
}

/// Appends the warnings of lines that count.
fn push_warnings_of(
    alloc: Global,
    out: &mut Vec<u8>,
    file: &[u8],
    drivers: Option<&Names>,
    lines: &[&ModelLine],
) -> Result<(), AllocError>
    ensures { OnOk result (out.new.items ≡ out.old.items ++ warnings_of file.now (option_map (λ n. n.now) drivers.entry) (map (λ l. l.now) lines.now)) }
{
    push_unserved_all(alloc, out, file, lines)?;
    let named = names_in(alloc, lines)?;
    push_missing_by(alloc, out, file, drivers, &named)
}

/// Appends the warnings of an INF that is read.
pub fn push_warnings(
    alloc: Global,
    out: &mut Vec<u8>,
    file: &[u8],
    known: &Known,
    read: &Inf,
) -> Result<(), AllocError>
    ensures { OnOk result (out.new.items ≡ out.old.items ++ warnings_text file.now (told known.now) read.now) }
{
    push_no_lines(alloc, out, file, &read.lines)?;
    let lines = counting(alloc, known.ids.as_ref(), &read.lines)?;
    push_warnings_of(alloc, out, file, known.drivers.as_ref(), &lines)
}
