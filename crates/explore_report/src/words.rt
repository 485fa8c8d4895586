//! The words of the command line, read by one simple command.
ghost use Rattle.std.specs.Prelude.{◌≤◌, IfOk, IfSome, length};
ghost use Rattle.explore_report.specs.Scripts.{IsPart, IsShare, IsWithin, IsTask};

use crate::error::ReportError;
use crate::expected::Expected;
use crate::parts::{Exploration, Part, Share, Task, Words};
use clap::error::ErrorKind;
use clap::{Arg, ArgAction, ArgMatches, Command};
use device_ids::{Text, TextList, WantOfMemory, split_once};
use std::alloc::Global;

/// The most INFs that the words may name: this project's own.
const MOST_INFS: usize = 64;

/// The most patterns of a sort: this project's own.
const MOST_PATTERNS: usize = 16;

/// The most parts that there may be: this project's own.
const MOST_PARTS: usize = 1_000_000;

/// The budget where none is given: this project's own.
const BUDGET: u64 = 20_000;

/// The greatest budget: this project's own.
const MOST_BUDGET: u64 = 1_000_000;

/// How many scripts are run at most where the words do not say: this project's own.
const FIRST: u64 = 1_000_000;

/// The options, and what each does with its value, or that it is a flag.
const OPTIONS: [(&str, ArgAction); 10] = [
    ("budget", ArgAction::Set),
    ("never", ArgAction::Append),
    ("always", ArgAction::Append),
    ("endings", ArgAction::Set),
    ("exact", ArgAction::SetTrue),
    ("first", ArgAction::Set),
    ("part", ArgAction::Set),
    ("from", ArgAction::Append),
    ("script", ArgAction::Set),
    ("count", ArgAction::SetTrue),
];

/// The command with the options.
fn with_options<'a>(alloc: Global, command: Command<'a>) -> Result<Command<'a>, WantOfMemory> {
    let mut command = command;
    for (name, action) in OPTIONS {
        command = command.arg(Arg::new(alloc, name).long(name).action(action))?;
    }
    Ok(command)
}

/// The command: options, one word for the family, and then any number of words for INFs.
fn command<'a>(alloc: Global) -> Result<Command<'a>, WantOfMemory> {
    let plain = Command::new(alloc, "pnpexplore").disable_help_flag(true);
    with_options(alloc, plain)?
        .arg(Arg::new(alloc, "family"))?
        .arg(Arg::new(alloc, "inf").action(ArgAction::Append))
}

/// What the command finds in the words.
fn matches<'a>(alloc: Global, words: &'a [String]) -> Result<ArgMatches<'a>, ReportError> {
    let command = command(alloc)?;
    match command.try_get_matches_from(words) {
        Ok(matches) => Ok(matches),
        Err(error) => match error.kind() {
            ErrorKind::OutOfMemory => Err(ReportError::WantOfMemory),
            _ => Err(ReportError::BadWords),
        },
    }
}

/// The value of a decimal digit.
fn digit(byte: u8) -> Option<u64> {
    if b'0' <= byte && byte <= b'9' {
        Some((byte - b'0') as u64)
    } else {
        None
    }
}

/// The number that decimal digits write, if it is below 2^64.
pub(crate) fn number_of(text: &[u8]) -> Option<u64> {
    if text.is_empty() {
        return None;
    }
    let mut number = 0u64;
    for byte in text {
        number = number.checked_mul(10)?.checked_add(digit(*byte)?)?;
    }
    Some(number)
}

/// A number from 1 to this one.
fn within(most: u64, text: &[u8]) -> Option<u64>
    ensures { IfSome result (λ number. (1 ≤ number) × (number ≤ most)) }
{
    match number_of(text) {
        Some(number) => {
            if 1 <= number && number <= most {
                Some(number)
            } else {
                None
            }
        }
        None => None,
    }
}

/// The number of an option, from 1 to this one; none where the option is not there.
fn option_number(found: &ArgMatches, name: &str, most: u64) -> Result<Option<u64>, ReportError>
    ensures { IfOk result (λ found. IfSome found (λ number. (1 ≤ number) × (number ≤ most))) }
{
    match found.get_str(name) {
        None => Ok(None),
        Some(text) => match within(most, text.as_bytes()) {
            Some(number) => Ok(Some(number)),
            None => Err(ReportError::BadWords),
        },
    }
}

/// The texts of an option or of words at the end, at most so many.
fn texts(
    alloc: Global,
    found: &ArgMatches,
    name: &str,
    most: usize,
) -> Result<TextList, ReportError>
    ensures { IfOk result (λ texts. length texts ≤ most) }
{
    let mut all = TextList::new(alloc);
    let Some(texts) = found.get_strs(name) else {
        return Ok(all);
    };
    if texts.len() > most {
        return Err(ReportError::BadWords);
    }
    for text in texts {
        all.push(Text::make(alloc, text.as_bytes())?)?;
    }
    Ok(all)
}

/// The part that `I/N` writes.
pub(crate) fn part_of(text: &[u8]) -> Option<Part>
    ensures { IfSome result IsPart }
{
    let (number, of) = split_once(text, b'/')?;
    let of = within(MOST_PARTS as u64, of)?;
    let number = within(of, number)?;
    Some(Part { number, of })
}

/// Which scripts are run.
fn share(alloc: Global, found: &ArgMatches) -> Result<Share, ReportError>
    ensures { IfOk result IsShare }
{
    let from = texts(alloc, found, "from", MOST_PARTS)?;
    match (found.get_str("part"), from.len()) {
        (None, 0) => Ok(Share::Whole),
        (None, _) => Ok(Share::Merged(from)),
        (Some(text), 0) => match part_of(text.as_bytes()) {
            Some(part) => Ok(Share::Part(part)),
            None => Err(ReportError::BadWords),
        },
        _ => Err(ReportError::BadWords),
    }
}

/// What is to be found out.
fn exploration(alloc: Global, found: &ArgMatches) -> Result<Exploration, ReportError>
    ensures { IfOk result IsWithin }
{
    let budget = option_number(found, "budget", MOST_BUDGET)?.unwrap_or(BUDGET);
    let endings = option_number(found, "endings", u64::MAX)?;
    let first = option_number(found, "first", u64::MAX)?.unwrap_or(FIRST);
    let exact = found.get_flag("exact");
    let never = texts(alloc, found, "never", MOST_PATTERNS)?;
    let always = texts(alloc, found, "always", MOST_PATTERNS)?;
    let infs = texts(alloc, found, "inf", MOST_INFS)?;
    let share = share(alloc, found)?;
    let Some(expected) = Expected::read(alloc, &never, &always)? else {
        return Err(ReportError::BadWords);
    };
    Ok(Exploration {
        infs,
        budget,
        never,
        always,
        expected,
        endings,
        exact,
        first,
        share,
    })
}

/// Whether no word says anything of runs: a count and a script have none.
fn is_plain(found: &ArgMatches) -> bool {
    !found.get_flag("exact")
        && found.get_strs("never").is_none()
        && found.get_strs("always").is_none()
        && found.get_strs("from").is_none()
        && found.get_strs("inf").is_none()
        && found.get_str("budget").is_none()
        && found.get_str("endings").is_none()
        && found.get_str("first").is_none()
        && found.get_str("part").is_none()
}

/// What is asked.
fn task(alloc: Global, found: &ArgMatches) -> Result<Task, ReportError>
    ensures { IfOk result IsTask }
{
    let script = option_number(found, "script", u64::MAX)?;
    match (found.get_flag("count"), script) {
        (false, None) => Ok(Task::Explore(exploration(alloc, found)?)),
        (true, None) if is_plain(found) => Ok(Task::Count),
        (false, Some(number)) if is_plain(found) => Ok(Task::Script(number)),
        _ => Err(ReportError::BadWords),
    }
}

/// What was found says.
fn words_in(alloc: Global, found: &ArgMatches) -> Result<Words, ReportError>
    ensures { IfOk result (λ words. IsTask words.task) }
{
    let Some(name) = found.get_str("family") else {
        return Err(ReportError::BadWords);
    };
    let family = Text::make(alloc, name.as_bytes())?;
    let task = task(alloc, found)?;
    Ok(Words { family, task })
}

/// What the words say, of which the first is the program's name, and is not looked at:
/// `[--budget N] [--never W].. [--always W].. [--endings N] [--exact] [--first N] [--part I/N] FAMILY [INF ..]`, or with `--from PART ..` in place of
/// `--part`, or `--script N FAMILY`, or `--count FAMILY`. Other words are refused.
pub fn words_of(alloc: Global, words: &[String]) -> Result<Words, ReportError>
    ensures { IfOk result (λ words. IsTask words.task) }
{
    if words.is_empty() {
        return Err(ReportError::BadWords);
    }
    let found = matches(alloc, words)?;
    words_in(alloc, &found)
}
