//! What the words behind a keyword say, or the first of them that says nothing.
ghost use Rattle.std.specs.Prelude.{◌≡◌, ◌<◌, ◌∷◌, length, map, IfOk, IsTrue, true};
ghost use Rattle.device_ids.specs.Ids.{is_path};
ghost use Rattle.script_reader.specs.Faults.{Gives, seen};
ghost use Rattle.script_reader.specs.Lines.{count_fault, path_of, lone_path, name_of, named, driver_of, rule_path_of, is_answerable, uses_by, rule_of, teach_of, related, relate_of, res_of, reserve_of, completed, complete_of, has_windows, window_res_of, windowed, window_of, change_of, watched, watch_of, unwatched, unwatch_of};
ghost use Rattle.script_reader.specs.Words.{words_of};

use crate::cause::Cause;
use crate::fault::{LineError, LineFault, fault};
use crate::needs::{are_needs, reqs_of};
use crate::numbers::uses_of;
use crate::tables::{
    agrees_of, answer_of, ask_of, driver_kind_of, kind_of, minor_of, ok_of, rel_kind_of,
};
use crate::wants::range_at;
use crate::words::{is_name, next_word, word_start};
use device_ids::{InstancePath, PathError, Text, split_once};
use pnp_labels::{Answer, AskWhat, Event, Rule};
use resource_reqs::{Kind, Res};
use std::alloc::Global;

/// That there are fewer words than these, or that this one is too many.
fn count_fault<'a>(keyword: &'a [u8], n: usize, words: &[&'a [u8]]) -> LineFault<'a>
    ensures { seen result ≡ count_fault keyword.now n (map (λ w. w.now) words.now) }
{
    if words.len() < n {
        return LineFault {
            cause: Cause::FewWords,
            word: keyword,
        };
    }
    let word: &[u8] = if n < words.len() { words[n] } else { &[] };
    LineFault {
        cause: Cause::ManyWords,
        word,
    }
}

/// The path that the word is.
pub fn path_of<'a>(alloc: Global, word: &'a [u8]) -> Result<InstancePath, LineError<'a>>
    ensures { Gives result (path_of word.now) }
{
    match InstancePath::read(alloc, word) {
        Ok(path) => Ok(path),
        Err(PathError::WantOfMemory) => Err(LineError::WantOfMemory),
        Err(_) => Err(LineError::Bad(fault(Cause::NotPath, word))),
    }
}

/// The path that is the one word of a line, by its words.
fn only_path<'a>(
    alloc: Global,
    keyword: &'a [u8],
    line: &'a [u8],
) -> Result<InstancePath, LineError<'a>>
    ensures { Gives result (lone_path keyword.now (words_of line.now)) }
{
    let Some((word, rest)) = next_word(line) else {
        return Err(LineError::Bad(fault(Cause::FewWords, keyword)));
    };
    if let Some((second, _)) = next_word(rest) {
        return Err(LineError::Bad(fault(Cause::ManyWords, second)));
    }
    path_of(alloc, word)
}

/// Whether these are the bytes of a path.
fn has_bytes(path: &InstancePath, text: &[u8]) -> bool
    ensures { result ≡ true → (path.now ≡ text.now) × IsTrue (is_path path.now) }
{
    path.bytes() == text
}

/// The path that is the one word of a line. A path has no blanks, so that all that follows the blanks in front is taken as
/// one first. `recent` is the path that was read so last: where the bytes are the same, both share them.
#[tactic(auto, using(crate::proofs::Paths::no_path, crate::proofs::Paths::path_behind))]
pub fn lone_path<'a>(
    alloc: Global,
    keyword: &'a [u8],
    line: &'a [u8],
    recent: &mut Option<InstancePath>,
) -> Result<InstancePath, LineError<'a>>
    ensures { Gives result (lone_path keyword.now (words_of line.now)) }
{
    let Some(start) = word_start(line) else {
        return Err(LineError::Bad(fault(Cause::FewWords, keyword)));
    };
    let text = &line[start..];
    if let Some(path) = recent
        && has_bytes(path, text)
    {
        return Ok(path.copy(alloc)?);
    }
    match InstancePath::read(alloc, text) {
        Ok(path) => {
            *recent = Some(path.copy(alloc)?);
            Ok(path)
        }
        Err(PathError::WantOfMemory) => Err(LineError::WantOfMemory),
        Err(_) => only_path(alloc, keyword, line),
    }
}

/// The name that the word is.
fn name_of<'a>(alloc: Global, word: &'a [u8]) -> Result<Text, LineError<'a>>
    ensures { Gives result (name_of word.now) }
{
    if !is_name(word) {
        return Err(LineError::Bad(fault(Cause::NotName, word)));
    }
    Ok(Text::make(alloc, word)?)
}

/// The driver of this name is of this kind.
fn named<'a>(alloc: Global, name: &'a [u8], kind: &'a [u8]) -> Result<Event, LineError<'a>>
    ensures { Gives result (named name.now kind.now) }
{
    let name = name_of(alloc, name)?;
    match driver_kind_of(kind) {
        Some(kind) => Ok(Event::Name { name, kind }),
        None => Err(LineError::Bad(fault(Cause::NotDriverKind, kind))),
    }
}

/// `driver NAME KIND`.
pub fn driver_of<'a>(
    alloc: Global,
    keyword: &'a [u8],
    words: &[&'a [u8]],
) -> Result<Event, LineError<'a>>
    ensures { Gives result (driver_of keyword.now (map (λ w. w.now) words.now)) }
{
    let [name, kind] = words else {
        return Err(LineError::Bad(count_fault(keyword, 2, words)));
    };
    named(alloc, name, kind)
}

/// The path of a rule, none for every path.
fn rule_path_of<'a>(alloc: Global, word: &'a [u8]) -> Result<Option<InstancePath>, LineError<'a>>
    ensures { Gives result (rule_path_of word.now) }
{
    if word == b"*".as_slice() {
        return Ok(None);
    }
    let path = path_of(alloc, word)?;
    Ok(Some(path))
}

/// Whether what is asked may be answered so: only a request may be left unanswered.
fn is_answerable(what: AskWhat, answer: Answer) -> bool
    ensures { result ≡ is_answerable what answer }
{
    match what {
        AskWhat::Add => match answer {
            Answer::Pend => false,
            _ => true,
        },
        AskWhat::Irp(_) => true,
    }
}

/// The uses that end a `teach`, none where there is no word for them.
fn uses_by<'a>(words: &[&'a [u8]]) -> Result<Option<u32>, LineError<'a>>
    ensures { Gives result (uses_by (map (λ w. w.now) words.now)) }
{
    match words {
        [] => Ok(None),
        [word] => match uses_of(word) {
            Some(uses) => Ok(Some(uses)),
            None => Err(LineError::Bad(fault(Cause::NotUses, word))),
        },
        [_, second, ..] => Err(LineError::Bad(fault(Cause::ManyWords, second))),
    }
}

/// The rule of `teach`, by its words.
fn rule_of<'a>(
    alloc: Global,
    ask: &'a [u8],
    path: &'a [u8],
    answer: &'a [u8],
    uses: &[&'a [u8]],
) -> Result<Rule, LineError<'a>>
    ensures { Gives result (rule_of ask.now path.now answer.now (map (λ w. w.now) uses.now)) }
{
    let Some(what) = ask_of(ask) else {
        return Err(LineError::Bad(fault(Cause::NotAsk, ask)));
    };
    let path = rule_path_of(alloc, path)?;
    let Some(given) = answer_of(answer) else {
        return Err(LineError::Bad(fault(Cause::NotAnswer, answer)));
    };
    if !is_answerable(what, given) {
        return Err(LineError::Bad(fault(Cause::AddPended, answer)));
    }
    let uses = uses_by(uses)?;
    Ok(Rule {
        what,
        path,
        answer: given,
        uses,
    })
}

/// `teach NAME ASK PATH ANSWER` and, if wanted, `N`.
pub fn teach_of<'a>(
    alloc: Global,
    keyword: &'a [u8],
    words: &[&'a [u8]],
) -> Result<Event, LineError<'a>>
    ensures { Gives result (teach_of keyword.now (map (λ w. w.now) words.now)) }
{
    let [name, ask, path, answer, uses @ ..] = words else {
        return Err(LineError::Bad(fault(Cause::FewWords, keyword)));
    };
    let name = name_of(alloc, name)?;
    let rule = rule_of(alloc, ask, path, answer, uses)?;
    Ok(Event::Teach { name, rule })
}

/// The relation that the words name.
fn related<'a>(
    alloc: Global,
    kind: &'a [u8],
    owner: &'a [u8],
    member: &'a [u8],
) -> Result<Event, LineError<'a>>
    ensures { Gives result (related kind.now owner.now member.now) }
{
    let Some(kind) = rel_kind_of(kind) else {
        return Err(LineError::Bad(fault(Cause::NotRelation, kind)));
    };
    let owner = path_of(alloc, owner)?;
    let member = path_of(alloc, member)?;
    Ok(Event::Relate {
        kind,
        owner,
        member,
    })
}

/// `relate KIND OWNER MEMBER`.
pub fn relate_of<'a>(
    alloc: Global,
    keyword: &'a [u8],
    words: &[&'a [u8]],
) -> Result<Event, LineError<'a>>
    ensures { Gives result (relate_of keyword.now (map (λ w. w.now) words.now)) }
{
    let [kind, owner, member] = words else {
        return Err(LineError::Bad(count_fault(keyword, 3, words)));
    };
    related(alloc, kind, owner, member)
}

/// The resource that the word names.
fn res_of(word: &[u8]) -> Result<Res, LineError<'_>>
    ensures { Gives result (res_of word.now) }
{
    let Some((kind, range)) = split_once(word, b':') else {
        return Err(LineError::Bad(fault(Cause::NoKind, word)));
    };
    let Some(kind) = kind_of(kind) else {
        return Err(LineError::Bad(fault(Cause::NotKind, word)));
    };
    let (lo, hi) = range_at(word, kind, range)?;
    Ok(Res::make(kind, lo, hi, false).unwrap())
}

/// `reserve KIND:RANGE`.
pub fn reserve_of<'a>(keyword: &'a [u8], words: &[&'a [u8]]) -> Result<Event, LineError<'a>>
    ensures { Gives result (reserve_of keyword.now (map (λ w. w.now) words.now)) }
{
    let [res] = words else {
        return Err(LineError::Bad(count_fault(keyword, 1, words)));
    };
    let res = res_of(res)?;
    Ok(Event::Reserve { res })
}

/// The request that the words name is completed so.
fn completed<'a>(
    alloc: Global,
    path: &'a [u8],
    minor: &'a [u8],
    ok: &'a [u8],
) -> Result<Event, LineError<'a>>
    ensures { Gives result (completed path.now minor.now ok.now) }
{
    let path = path_of(alloc, path)?;
    let Some(minor) = minor_of(minor) else {
        return Err(LineError::Bad(fault(Cause::NotRequest, minor)));
    };
    let Some(ok) = ok_of(ok) else {
        return Err(LineError::Bad(fault(Cause::NotOk, ok)));
    };
    Ok(Event::Complete { path, minor, ok })
}

/// `complete PATH MINOR ok` or `complete PATH MINOR fail`.
pub fn complete_of<'a>(
    alloc: Global,
    keyword: &'a [u8],
    words: &[&'a [u8]],
) -> Result<Event, LineError<'a>>
    ensures { Gives result (complete_of keyword.now (map (λ w. w.now) words.now)) }
{
    let [path, minor, ok] = words else {
        return Err(LineError::Bad(count_fault(keyword, 3, words)));
    };
    completed(alloc, path, minor, ok)
}

/// Whether a bridge has windows of the kind: it has them of ports and of memory.
fn has_windows(kind: Kind) -> bool
    ensures { result ≡ has_windows kind }
{
    match kind {
        Kind::Port | Kind::Mem => true,
        _ => false,
    }
}

/// The range of a window.
fn window_res_of(word: &[u8]) -> Result<Res, LineError<'_>>
    ensures { Gives result (window_res_of word.now) }
{
    let res = res_of(word)?;
    if has_windows(res.kind) {
        Ok(res)
    } else {
        Err(LineError::Bad(fault(Cause::NotWindow, word)))
    }
}

/// The bridge of this path has this window.
fn windowed<'a>(alloc: Global, path: &'a [u8], res: &'a [u8]) -> Result<Event, LineError<'a>>
    ensures { Gives result (windowed path.now res.now) }
{
    let path = path_of(alloc, path)?;
    let res = window_res_of(res)?;
    Ok(Event::Window { path, res })
}

/// `window PATH KIND:RANGE`.
pub fn window_of<'a>(
    alloc: Global,
    keyword: &'a [u8],
    words: &[&'a [u8]],
) -> Result<Event, LineError<'a>>
    ensures { Gives result (window_of keyword.now (map (λ w. w.now) words.now)) }
{
    let [path, res] = words else {
        return Err(LineError::Bad(count_fault(keyword, 2, words)));
    };
    windowed(alloc, path, res)
}

/// `change PATH` and what the device requires from now on.
pub fn change_of<'a>(
    alloc: Global,
    keyword: &'a [u8],
    words: &[&'a [u8]],
) -> Result<Event, LineError<'a>>
    ensures { Gives result (change_of keyword.now (map (λ w. w.now) words.now)) }
{
    let [path, needs @ ..] = words else {
        return Err(LineError::Bad(fault(Cause::FewWords, keyword)));
    };
    let path = path_of(alloc, path)?;
    are_needs(needs)?;
    let reqs = reqs_of(alloc, needs)?;
    Ok(Event::Change { path, reqs })
}

/// The client of these words is asked before the device is removed, and answers so.
fn watched<'a>(
    alloc: Global,
    client: &'a [u8],
    path: &'a [u8],
    agrees: &'a [u8],
) -> Result<Event, LineError<'a>>
    ensures { Gives result (watched client.now path.now agrees.now) }
{
    let client = name_of(alloc, client)?;
    let path = path_of(alloc, path)?;
    let Some(agrees) = agrees_of(agrees) else {
        return Err(LineError::Bad(fault(Cause::NotAgreement, agrees)));
    };
    Ok(Event::Watch {
        client,
        path,
        agrees,
    })
}

/// `watch CLIENT PATH ok` or `watch CLIENT PATH refuse`.
pub fn watch_of<'a>(
    alloc: Global,
    keyword: &'a [u8],
    words: &[&'a [u8]],
) -> Result<Event, LineError<'a>>
    ensures { Gives result (watch_of keyword.now (map (λ w. w.now) words.now)) }
{
    let [client, path, agrees] = words else {
        return Err(LineError::Bad(count_fault(keyword, 3, words)));
    };
    watched(alloc, client, path, agrees)
}

/// The client of this name is asked no more of the device.
fn unwatched<'a>(alloc: Global, client: &'a [u8], path: &'a [u8]) -> Result<Event, LineError<'a>>
    ensures { Gives result (unwatched client.now path.now) }
{
    let client = name_of(alloc, client)?;
    let path = path_of(alloc, path)?;
    Ok(Event::Unwatch { client, path })
}

/// `unwatch CLIENT PATH`.
pub fn unwatch_of<'a>(
    alloc: Global,
    keyword: &'a [u8],
    words: &[&'a [u8]],
) -> Result<Event, LineError<'a>>
    ensures { Gives result (unwatch_of keyword.now (map (λ w. w.now) words.now)) }
{
    let [client, path] = words else {
        return Err(LineError::Bad(count_fault(keyword, 2, words)));
    };
    unwatched(alloc, client, path)
}
