//! The words of the command line.
ghost use Rattle.std.specs.Prelude.{◌≤◌, IfOk, IfSome};

use crate::error::CheckError;
use std::alloc::{AllocError, Global};

/// The budget where none is given: this project's own.
const BUDGET: u64 = 20_000;

/// The greatest budget: this project's own.
const MOST_BUDGET: u64 = 1_000_000;

/// The most digits of a number: this project's own.
const MOST_DIGITS: usize = 7;

/// What the words name: the names of the trace, the script and the INFs, in this order, and the budget.
#[derive(Drop)]
pub(crate) struct Words {
    pub(crate) names: Vec<Vec<u8>>,
    pub(crate) budget: u64,
}

/// What one word says.
#[derive(Clone, Copy)]
enum Word<'a> {
    Name,
    /// `--budget`, whose value is the next word.
    Budget,
    /// `--budget=N`, with its value.
    BudgetHere(&'a [u8]),
    /// `--`, which ends the options.
    Dashes,
    /// Another option; there is none.
    Other,
}

/// The value of one digit, if it is one.
fn digit(byte: u8) -> Option<u64> {
    if b'0' <= byte && byte <= b'9' {
        Some((byte - b'0') as u64)
    } else {
        None
    }
}

/// The number that one to seven decimal digits write.
fn number(bytes: &[u8]) -> Option<u64> {
    if bytes.is_empty() || bytes.len() > MOST_DIGITS {
        return None;
    }
    let mut number = 0u64;
    for byte in bytes {
        number = number.checked_mul(10)?.checked_add(digit(*byte)?)?;
    }
    Some(number)
}

/// A budget of these digits, from 1 to 1,000,000.
fn budget(bytes: &[u8]) -> Option<u64>
    ensures { IfSome result (λ n. n ≤ 1000000) }
{
    match number(bytes) {
        None => None,
        Some(n) => {
            if 1 <= n && n <= MOST_BUDGET {
                Some(n)
            } else {
                None
            }
        }
    }
}

/// What one word says, where options are not ended.
fn word_of<'a>(word: &'a [u8]) -> Word<'a> {
    if word == b"--".as_slice() {
        Word::Dashes
    } else if word == b"--budget".as_slice() {
        Word::Budget
    } else {
        match word {
            [
                b'-',
                b'-',
                b'b',
                b'u',
                b'd',
                b'g',
                b'e',
                b't',
                b'=',
                value @ ..,
            ] => { Word::BudgetHere(value) }
            [b'-', _, ..] => Word::Other,
            _ => Word::Name,
        }
    }
}

/// Takes a budget, unless one was given before.
fn set_budget(given: &mut Option<u64>, bytes: &[u8]) -> Result<(), CheckError>
    ensures { IfSome given.old (λ n. n ≤ 1000000) → IfSome given.new (λ n. n ≤ 1000000) }
{
    match (*given, budget(bytes)) {
        (None, Some(n)) => {
            *given = Some(n);
            Ok(())
        }
        _ => Err(CheckError::BadWords),
    }
}

/// Appends a name.
fn add_name(alloc: Global, names: &mut Vec<Vec<u8>>, word: &[u8]) -> Result<(), AllocError> {
    let name = Vec::from_slice(alloc, word)?;
    names.push(name)?;
    Ok(())
}

/// What the words give, of which the first is the program's name, and is not looked at: the names of a trace, a script and up to 64 INFs,
/// and perhaps `--budget N` or `--budget=N`, once, anywhere before `--`. A name that begins with a dash stands behind `--`. Other words
/// are refused.
pub(crate) fn words_of(alloc: Global, words: &[String]) -> Result<Words, CheckError>
    ensures { IfOk result (λ w. w.budget ≤ 1000000) }
{
    let mut names = Vec::new(alloc);
    let mut given = None;
    let mut first = true;
    let mut awaited = false;
    let mut ended = false;
    for word in words {
        let word = word.as_bytes();
        if first {
            first = false;
        } else if awaited {
            set_budget(&mut given, word)?;
            awaited = false;
        } else if ended {
            add_name(alloc, &mut names, word)?;
        } else {
            match word_of(word) {
                Word::Name => add_name(alloc, &mut names, word)?,
                Word::Budget => awaited = true,
                Word::BudgetHere(value) => set_budget(&mut given, value)?,
                Word::Dashes => ended = true,
                Word::Other => return Err(CheckError::BadWords),
            }
        }
    }
    let budget = given.unwrap_or(BUDGET);
    if awaited || budget > MOST_BUDGET {
        return Err(CheckError::BadWords);
    }
    Ok(Words { names, budget })
}
