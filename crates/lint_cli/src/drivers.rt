//! What the lines of a script name: drivers, and the identifiers of devices. And the drivers that an INF names.
ghost use Rattle.std.specs.Prelude.{◌≡◌, ◌∷◌, ◌++◌, [], IfOk, OnOk, map, codes};
ghost use Rattle.std.specs.Option.{option_map};
ghost use Rattle.std.specs.Str.{bytes_eq};
ghost use Rattle.std.specs.List.{flat_map};
ghost use Rattle.device_ids.specs.Cuts.{parts};
ghost use Rattle.script_reader.specs.Words.{is_blank, words_of};
ghost use Rattle.script_reader.specs.Lines.{value_at};
ghost use Rattle.lint_cli.specs.Warnings.{seen, name_in, driver_names, ids_at, ids_of, ids_in, script_ids, service_of, names_of};

use crate::names::Names;
use device_ids::{Text, TextList, split_once};
use inf_reader::ModelLine;
use std::alloc::{AllocError, Global};

/// Whether the byte stands between words.
fn is_blank(byte: u8) -> bool
    ensures { result ≡ is_blank byte }
{
    byte == b' ' || byte == b'\t'
}

/// The words of a line.
fn words(alloc: Global, line: &[u8]) -> Result<Vec<&[u8]>, AllocError>
    ensures { IfOk result (λ v. map (λ w. w.now) v.items ≡ words_of line.now) }
{
    line.split(|byte| is_blank(*byte))
        .filter(|part| !part.is_empty())
        .collect(alloc)
}

/// Whether a word is the keyword of a line that names a driver.
fn is_driver(word: &[u8]) -> bool
    ensures { result ≡ bytes_eq word.now (codes "driver") }
{
    word == b"driver".as_slice()
}

/// Whether a word is the keyword of a line that a device arrives.
fn is_plug(word: &[u8]) -> bool
    ensures { result ≡ bytes_eq word.now (codes "plug") }
{
    word == b"plug".as_slice()
}

/// Appends the name that the words of a line give a driver, if they do.
fn push_second<'a>(
    alloc: Global,
    names: &mut Names<'a>,
    words: &[&'a [u8]],
) -> Result<(), AllocError>
    ensures { OnOk result (names.new ≡ names.old ++ name_in (map (λ w. w.now) words.now)) }
{
    let [word, name, ..] = words else {
        return Ok(());
    };
    if is_driver(word) {
        names.push(alloc, *name)?;
    }
    Ok(())
}

/// Appends the name that a line gives a driver, if it does.
fn push_name<'a>(alloc: Global, names: &mut Names<'a>, line: &'a [u8]) -> Result<(), AllocError>
    ensures { OnOk result (names.new ≡ names.old ++ name_in (words_of line.now)) }
{
    let words = words(alloc, line)?;
    push_second(alloc, names, &words)
}

/// The drivers that the lines of a script name. Cost: its length, and that of the names for each of a logarithm of them.
pub fn driver_names(alloc: Global, script: &[u8]) -> Result<Names<'_>, AllocError>
    ensures { IfOk result (λ names. names ≡ driver_names script.now) }
{
    let mut names = Names::new(alloc);
    let mut rest = script;
    while let Some((line, after)) = split_once(rest, b'\n') {
        push_name(alloc, &mut names, line)?;
        rest = after;
    }
    push_name(alloc, &mut names, rest)?;
    Ok(names)
}

/// Appends names between commas.
fn push_parts<'a>(alloc: Global, names: &mut Names<'a>, text: &'a [u8]) -> Result<(), AllocError>
    ensures { OnOk result (names.new ≡ names.old ++ parts 0x2C text.now) }
{
    let mut rest = text;
    while let Some((part, after)) = split_once(rest, b',') {
        names.push(alloc, part)?;
        rest = after;
    }
    names.push(alloc, rest)
}

/// What follows the attribute's name, where the word is one of that name.
fn value_at<'a>(name: &[u8], word: &'a [u8]) -> Option<&'a [u8]>
    ensures { option_map (λ x. x.now) result ≡ value_at name.now word.now }
{
    word.strip_prefix(name)
}

/// Appends the identifiers of a value, if there is one.
fn push_value<'a>(
    alloc: Global,
    names: &mut Names<'a>,
    value: Option<&'a [u8]>,
) -> Result<(), AllocError>
    ensures { OnOk result (names.new ≡ names.old ++ ids_at (option_map (λ x. x.now) value.entry)) }
{
    match value {
        None => Ok(()),
        Some(value) => push_parts(alloc, names, value),
    }
}

/// Appends the identifiers that an attribute writes.
fn push_ids<'a>(alloc: Global, names: &mut Names<'a>, word: &'a [u8]) -> Result<(), AllocError>
    ensures { OnOk result (names.new ≡ names.old ++ ids_of word.now) }
{
    push_value(alloc, names, value_at(b"hw=", word))?;
    push_value(alloc, names, value_at(b"compat=", word))
}

/// Appends the identifiers that attributes write.
fn push_all_ids<'a>(
    alloc: Global,
    names: &mut Names<'a>,
    words: &[&'a [u8]],
) -> Result<(), AllocError>
    ensures { OnOk result (names.new ≡ names.old ++ flat_map ids_of (map (λ w. w.now) words.now)) }
{
    for word in words {
        push_ids(alloc, names, *word)?;
    }
    Ok(())
}

/// Appends the identifiers that the words of a line write for a device, if they do.
fn push_device_words<'a>(
    alloc: Global,
    names: &mut Names<'a>,
    words: &[&'a [u8]],
) -> Result<(), AllocError>
    ensures { OnOk result (names.new ≡ names.old ++ ids_in (map (λ w. w.now) words.now)) }
{
    let [word, _, device, attributes @ ..] = words else {
        return Ok(());
    };
    if is_plug(word) {
        names.push(alloc, *device)?;
        push_all_ids(alloc, names, attributes)?;
    }
    Ok(())
}

/// Appends the identifiers that a line writes for a device, if it does.
fn push_device<'a>(alloc: Global, names: &mut Names<'a>, line: &'a [u8]) -> Result<(), AllocError>
    ensures { OnOk result (names.new ≡ names.old ++ ids_in (words_of line.now)) }
{
    let words = words(alloc, line)?;
    push_device_words(alloc, names, &words)
}

/// The identifiers that the lines of a script write for its devices. Cost: its length, and that of the identifiers for each of a
/// logarithm of them.
pub fn script_ids(alloc: Global, script: &[u8]) -> Result<Names<'_>, AllocError>
    ensures { IfOk result (λ names. names ≡ script_ids script.now) }
{
    let mut names = Names::new(alloc);
    let mut rest = script;
    while let Some((line, after)) = split_once(rest, b'\n') {
        push_device(alloc, &mut names, line)?;
        rest = after;
    }
    push_device(alloc, &mut names, rest)?;
    Ok(names)
}

/// A driver that a models line names, with the number of the line.
#[derive(Clone, Copy)]
pub struct Named<'a> {
    /// The number of the line.
    pub line: u32,
    /// The driver's name.
    pub name: &'a [u8],
}

/// Appends a name of a line.
fn push_one<'a>(named: &mut Vec<Named<'a>>, line: u32, name: &'a [u8]) -> Result<(), AllocError>
    ensures { OnOk result (map seen named.new.items ≡ map seen named.old.items ++ (line, name.now) ∷ []) }
{
    named.push(Named { line, name })?;
    Ok(())
}

/// Appends names of a line.
fn push_names<'a>(
    named: &mut Vec<Named<'a>>,
    line: u32,
    names: &'a TextList,
) -> Result<(), AllocError>
    ensures { OnOk result (map seen named.new.items ≡ map seen named.old.items ++ map (λ name. (line, name)) names.now) }
{
    for at in 0..names.len() {
        push_one(named, line, names.get(at).bytes())?;
    }
    Ok(())
}

/// Appends the service of a line, if it has one.
fn push_service<'a>(
    named: &mut Vec<Named<'a>>,
    line: u32,
    service: &'a Option<Text>,
) -> Result<(), AllocError>
    ensures { OnOk result (map seen named.new.items ≡ map seen named.old.items ++ map (λ name. (line, name)) (service_of service.now)) }
{
    match service {
        Some(service) => push_one(named, line, service.bytes()),
        None => Ok(()),
    }
}

/// Appends the service and the filters of a line.
pub fn push_line<'a>(named: &mut Vec<Named<'a>>, line: &'a ModelLine) -> Result<(), AllocError>
    ensures { OnOk result (map seen named.new.items ≡ map seen named.old.items ++ names_of line.now) }
{
    push_service(named, line.line, &line.service)?;
    push_names(named, line.line, &line.lower)?;
    push_names(named, line.line, &line.upper)
}
