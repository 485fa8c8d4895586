//! The words of the command line.
ghost use Rattle.std.specs.Prelude.{◌≡◌, ◌≤◌};
ghost use Rattle.drive_cli.specs.Runs.{budget_of};

use crate::fault::DriveFault;
use live_run::LiveDrivers;
use script_reader::is_name;
use std::alloc::{AllocError, Global};

/// The budget where none is given: this project's own.
const BUDGET: u64 = 20_000;

/// The greatest budget: this project's own.
const MOST_BUDGET: u64 = 1_000_000;

/// The most digits of a number: this project's own.
const MOST_DIGITS: usize = 7;

/// What the words name: the names of the answers, the script and the INFs, in this order, the drivers that are live, and the
/// budget.
pub(crate) struct Words {
    pub(crate) names: Vec<Vec<u8>>,
    pub(crate) live: LiveDrivers,
    pub(crate) budget: Option<u64>,
}

impl Drop for Words {
    fn drop(self) {
        let Words {
            names: _,
            live: _,
            budget: _,
        } = self;
    }
}

/// An option with a value.
#[derive(Clone, Copy)]
enum Key {
    Budget,
    Live,
}

/// What one word says.
#[derive(Clone, Copy)]
enum Word<'a> {
    Name,
    /// An option whose value is the next word.
    Option(Key),
    /// An option with its value.
    OptionHere(Key, &'a [u8]),
    /// `--probes`.
    Probes,
    /// `--`, which ends the options.
    Dashes,
    /// Another option; there is none.
    Other,
}

/// The value of one digit, if it is one.
fn digit(byte: u8) -> Option<u64> {
    if b'0' <= byte && byte <= b'9' {
        Some((byte - b'0') as u64)
    } else {
        None
    }
}

/// The number that one to seven decimal digits write.
fn number(bytes: &[u8]) -> Option<u64> {
    if bytes.is_empty() || bytes.len() > MOST_DIGITS {
        return None;
    }
    let mut number = 0u64;
    for byte in bytes {
        number = number.checked_mul(10)?.checked_add(digit(*byte)?)?;
    }
    Some(number)
}

/// A budget of these digits, from 1 to 1,000,000.
fn budget(bytes: &[u8]) -> Option<u64> {
    match number(bytes) {
        Some(n) if 1 <= n && n <= MOST_BUDGET => Some(n),
        _ => None,
    }
}

/// The option of a name.
fn key_of(name: &[u8]) -> Option<Key> {
    match name {
        b"--budget" => Some(Key::Budget),
        b"--live" => Some(Key::Live),
        _ => None,
    }
}

/// The option that a word sets behind a `=`, and the value.
fn option_here(word: &[u8]) -> Option<(Key, &[u8])> {
    let at = word.iter().position(|byte| *byte == b'=')?;
    let key = key_of(&word[..at])?;
    Some((key, &word[at + 1..]))
}

/// What one word says, where options are not ended.
fn word_of(word: &[u8]) -> Word<'_> {
    if let Some(key) = key_of(word) {
        return Word::Option(key);
    }
    if let Some((key, value)) = option_here(word) {
        return Word::OptionHere(key, value);
    }
    match word {
        b"--" => Word::Dashes,
        b"--probes" => Word::Probes,
        [b'-', _, ..] => Word::Other,
        _ => Word::Name,
    }
}

impl Words {
    /// An option's value is taken: a budget once, and any number of live drivers.
    fn set(&mut self, alloc: Global, key: Key, value: &[u8]) -> Result<(), DriveFault> {
        match key {
            Key::Budget => match (self.budget, budget(value)) {
                (None, Some(n)) => {
                    self.budget = Some(n);
                    Ok(())
                }
                _ => Err(DriveFault::BadWords),
            },
            Key::Live => {
                if !is_name(value) {
                    return Err(DriveFault::BadWords);
                }
                Ok(self.live.add(alloc, value)?)
            }
        }
    }

    /// Appends a name.
    fn add_name(&mut self, alloc: Global, word: &[u8]) -> Result<(), AllocError> {
        let name = Vec::from_slice(alloc, word)?;
        self.names.push(name)?;
        Ok(())
    }

    /// How many places a search may try.
    pub(crate) fn budget(&self) -> u64
        ensures at_most { result ≤ 1000000 }
        ensures budget { result ≡ budget_of self.now.budget }
    {
        self.budget.unwrap_or(BUDGET).min(MOST_BUDGET)
    }
}

/// Takes the words behind the program's name.
fn take_words(alloc: Global, given: &mut Words, words: &[String]) -> Result<(), DriveFault> {
    let mut awaited = None;
    let mut ended = false;
    for word in words {
        let word = word.as_bytes();
        if let Some(key) = awaited {
            given.set(alloc, key, word)?;
            awaited = None;
        } else if ended {
            given.add_name(alloc, word)?;
        } else {
            match word_of(word) {
                Word::Name => given.add_name(alloc, word)?,
                Word::Option(key) => awaited = Some(key),
                Word::OptionHere(key, value) => given.set(alloc, key, value)?,
                Word::Probes => given.live.probe(),
                Word::Dashes => ended = true,
                Word::Other => return Err(DriveFault::BadWords),
            }
        }
    }
    if awaited.is_some() {
        return Err(DriveFault::BadWords);
    }
    Ok(())
}

/// What the words give, of which the first is the program's name, and is not looked at: the names of the answers, a script and the INFs,
/// `--live NAME` or `--live=NAME` at least once, and perhaps `--probes` and, once, `--budget N` or `--budget=N`, anywhere before `--`. A name
/// that begins with a dash stands behind `--`. Other words are refused.
pub(crate) fn words_of(alloc: Global, words: &[String]) -> Result<Words, DriveFault> {
    let mut given = Words {
        names: Vec::new(alloc),
        live: LiveDrivers::new(alloc),
        budget: None,
    };
    if let [_, words @ ..] = words {
        take_words(alloc, &mut given, words)?;
    }
    if given.live.is_empty() {
        return Err(DriveFault::BadWords);
    }
    Ok(given)
}
