//! The words of the command line, read by one simple command.
ghost use Rattle.std.specs.Prelude.{◌≡◌, ◌≤◌, ◌<◌, Some, None, IfOk, IsErrOf, map, option_map, true, false, length};
ghost use Rattle.clap.specs.Simple.{app_of, matches_of};
ghost use Rattle.clap.specs.Walk.{rows_of, first_of, all_of};
ghost use Rattle.clap.specs.Matches.{found_of};
ghost use Rattle.pnp_cli.specs.Words.{options, pnpmgr, is_accepted, number_of, within, budget_of, made_of, given, parts_of, infs_of, settings_of, texts};
ghost use Rattle.pnp_cli.specs.declared.parts.WordsError.TheVariants.{BadWords};

use crate::parts::{Settings, WordsError};
use clap::error::ErrorKind;
use clap::{Arg, ArgAction, ArgMatches, Command};
use device_ids::{Text, TextList, WantOfMemory};
use std::alloc::Global;

/// The most INFs that the words may name: this project's own.
const MOST_INFS: usize = 64;

/// The budget where none is given: this project's own.
const BUDGET: u64 = 20_000;

/// The greatest budget: this project's own.
const MOST_BUDGET: u64 = 1_000_000;

/// The most devices that are generated: this project's own.
const MOST_MADE: u64 = 400;

/// The most digits of a number: this project's own.
const MOST_DIGITS: usize = 7;

/// The options of the command: `[--budget N] [--gen N] [--check TRACE]`.
fn options<'a>(alloc: Global) -> Result<Command<'a>, WantOfMemory>
    ensures { IfOk result (λ c. app_of c ≡ options) }
{
    let budget = Arg::new(alloc, "budget").long("budget");
    let made = Arg::new(alloc, "gen").long("gen");
    let plain = Command::new(alloc, "pnpmgr").disable_help_flag(true);
    let check = Arg::new(alloc, "check").long("check");
    let with_budget = plain.arg(budget)?;
    let with_made = with_budget.arg(made)?;
    with_made.arg(check)
}

/// The command: `pnpmgr [--budget N] [--gen N] [--check TRACE] [SCRIPT [INF ...]]`.
fn command<'a>(alloc: Global) -> Result<Command<'a>, WantOfMemory>
    ensures { IfOk result (λ c. app_of c ≡ pnpmgr) }
{
    let script = Arg::new(alloc, "script");
    let inf = Arg::new(alloc, "inf").action(ArgAction::Append);
    let with_options = options(alloc)?;
    let with_script = with_options.arg(script)?;
    with_script.arg(inf)
}

/// What the command finds in the words.
fn matches<'a>(alloc: Global, words: &'a [String]) -> Result<ArgMatches<'a>, WordsError>
    ensures ok { IfOk result (λ m. (is_accepted (texts words.now) ≡ true) × (rows_of (found_of m) ≡ matches_of pnpmgr (texts words.now))) }
    ensures bad { IsErrOf result BadWords → is_accepted (texts words.now) ≡ false }
{
    let command = command(alloc)?;
    match command.try_get_matches_from(words) {
        Ok(matches) => Ok(matches),
        Err(error) => match error.kind() {
            ErrorKind::OutOfMemory => Err(WordsError::WantOfMemory),
            _ => Err(WordsError::BadWords),
        },
    }
}

/// The number that a text of one to seven decimal digits writes.
fn number(text: &str) -> Option<u64>
    ensures { result ≡ number_of text.now }
{
    let bytes = text.as_bytes();
    if bytes.is_empty() || bytes.len() > MOST_DIGITS {
        return None;
    }
    let mut n = 0u64;
    for b in bytes {
        if !(b'0' <= *b && *b <= b'9') {
            return None;
        }
        n = n * 10 + (*b - b'0') as u64;
    }
    Some(n)
}

/// A number, if it is from 1 to this one.
fn within(most: u64, number: Option<u64>) -> Option<u64>
    ensures { result ≡ within most number }
{
    match number {
        None => None,
        Some(n) => { if 1 <= n && n <= most { Some(n) } else { None } }
    }
}

/// The budget of the option's value.
fn budget_of(text: Option<&str>) -> Option<u64>
    ensures { result ≡ budget_of (option_map (λ t. t.now) text.entry) }
{
    match text {
        None => Some(BUDGET),
        Some(text) => within(MOST_BUDGET, number(text)),
    }
}

/// How many devices are to be generated, where the option is given; none where its value is bad.
fn made_of(text: Option<&str>) -> Option<Option<u64>>
    ensures { result ≡ made_of (option_map (λ t. t.now) text.entry) }
{
    match text {
        None => Some(None),
        Some(text) => match within(MOST_MADE, number(text)) {
            None => None,
            Some(n) => Some(Some(n)),
        },
    }
}

/// The first text that was found for an argument.
fn text_found<'a>(found: &ArgMatches<'a>, id: &str) -> Option<&'a str>
    ensures { option_map (λ t. t.now) result ≡ first_of id.now (rows_of (found_of found.now)) }
{
    found.get_str(id)
}

/// All texts that were found for an argument.
fn texts_found<'b, 'a>(found: &'b ArgMatches<'a>, id: &str) -> Option<&'b [&'a str]>
    ensures { option_map (λ all. map (λ t. t.now) all.now) result ≡ all_of id.now (rows_of (found_of found.now)) }
{
    found.get_strs(id)
}

/// A list of texts, copied.
fn copied(alloc: Global, texts: &[&str]) -> Result<TextList, WantOfMemory>
    ensures { IfOk result (λ all. all ≡ map (λ t. t.now) texts.now) }
{
    let mut all = TextList::new(alloc);
    for text in texts {
        all.push(Text::make(alloc, text.as_bytes())?)?;
    }
    Ok(all)
}

/// The INFs that were found, where they are at most 64.
fn infs_found(alloc: Global, found: &ArgMatches) -> Result<TextList, WordsError>
    ensures ok { IfOk result (λ all. (all ≡ infs_of (rows_of (found_of found.now))) × (length (infs_of (rows_of (found_of found.now))) ≤ 64)) }
    ensures bad { IsErrOf result BadWords → 64 < length (infs_of (rows_of (found_of found.now))) }
{
    match texts_found(found, "inf") {
        None => Ok(TextList::new(alloc)),
        Some(texts) => {
            if texts.len() > MOST_INFS {
                return Err(WordsError::BadWords);
            }
            let infs = copied(alloc, texts)?;
            Ok(infs)
        }
    }
}

/// A text, if there is one, copied.
fn text_of(alloc: Global, text: Option<&str>) -> Result<Option<Text>, WantOfMemory>
    ensures { IfOk result (λ copy. copy ≡ option_map (λ t. t.now) text.entry) }
{
    match text {
        None => Ok(None),
        Some(text) => Ok(Some(Text::make(alloc, text.as_bytes())?)),
    }
}

/// The settings of good parts without a script: devices are to be generated, and no trace is to be checked.
fn generated(
    infs: TextList,
    budget: u64,
    made: Option<u64>,
    check: Option<&str>,
) -> Result<Settings, WordsError>
    ensures ok { IfOk result (λ s. given None infs (Some budget) (Some made) (option_map (λ t. t.now) check.entry) ≡ Some s) }
    ensures bad { IsErrOf result BadWords → given None infs (Some budget) (Some made) (option_map (λ t. t.now) check.entry) ≡ None }
{
    match (made, check) {
        (Some(n), None) => Ok(Settings {
            script: None,
            infs,
            budget,
            made: Some(n),
            check: None,
        }),
        _ => Err(WordsError::BadWords),
    }
}

/// The settings of good parts: a script is named, and perhaps a trace to check; or devices are to be generated.
fn with_source(
    alloc: Global,
    script: Option<&str>,
    infs: TextList,
    budget: u64,
    made: Option<u64>,
    check: Option<&str>,
) -> Result<Settings, WordsError>
    ensures ok { IfOk result (λ s. given (option_map (λ t. t.now) script.entry) infs (Some budget) (Some made) (option_map (λ t. t.now) check.entry) ≡ Some s) }
    ensures bad { IsErrOf result BadWords → given (option_map (λ t. t.now) script.entry) infs (Some budget) (Some made) (option_map (λ t. t.now) check.entry) ≡ None }
{
    match script {
        Some(name) => {
            if made.is_some() {
                return Err(WordsError::BadWords);
            }
            let script = Some(Text::make(alloc, name.as_bytes())?);
            let check = text_of(alloc, check)?;
            Ok(Settings {
                script,
                infs,
                budget,
                made: None,
                check,
            })
        }
        None => generated(infs, budget, made, check),
    }
}

/// The settings by what was found.
fn settings_from(alloc: Global, found: &ArgMatches) -> Result<Settings, WordsError>
    ensures ok { IfOk result (λ s. parts_of (rows_of (found_of found.now)) ≡ Some s) }
    ensures bad { IsErrOf result BadWords → parts_of (rows_of (found_of found.now)) ≡ None }
{
    let infs = infs_found(alloc, found)?;
    let Some(budget) = budget_of(text_found(found, "budget")) else {
        return Err(WordsError::BadWords);
    };
    let Some(made) = made_of(text_found(found, "gen")) else {
        return Err(WordsError::BadWords);
    };
    let check = text_found(found, "check");
    with_source(
        alloc,
        text_found(found, "script"),
        infs,
        budget,
        made,
        check,
    )
}

/// The settings that the words give: the program's name, which is not looked at, and then
/// `[--budget N] [--gen N] [--check TRACE] [SCRIPT [INF ...]]`, as one simple command. `BadWords` comes only where the command refuses
/// the words, a script is named beside `--gen` or neither is, a number is not one to seven decimal digits, the budget is outside 1 to
/// 1,000,000, the number of devices outside 1 to 400, more than 64 INFs are named, or `--gen` and `--check` are both given; and there
/// nothing but `WantOfMemory` may come in its place. Cost: the words' bytes. This project's own.
pub fn settings(alloc: Global, words: &[String]) -> Result<Settings, WordsError>
    ensures ok { IfOk result (λ s. settings_of (texts words.now) ≡ Some s) }
    ensures bad { IsErrOf result BadWords → settings_of (texts words.now) ≡ None }
{
    if words.is_empty() {
        return Err(WordsError::BadWords);
    }
    let found = matches(alloc, words)?;
    settings_from(alloc, &found)
}
