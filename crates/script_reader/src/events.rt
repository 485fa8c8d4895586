//! What a line says: its keyword, and what the words behind it say.
ghost use Rattle.std.specs.Prelude.{◌≡◌, true, false, map};
ghost use Rattle.script_reader.specs.Faults.{Gives};
ghost use Rattle.script_reader.specs.Openings.{GivesOpening};
ghost use Rattle.script_reader.specs.Lines.{takes_one_path, event_at, read_by, read_line};
ghost use Rattle.script_reader.specs.Words.{words_of};

use crate::cause::Cause;
use crate::fault::{LineError, fault};
use crate::lines::{
    change_of, complete_of, driver_of, lone_path, relate_of, reserve_of, teach_of, unwatch_of,
    watch_of, window_of,
};
use crate::plug::plug_of;
use crate::tables::keyword_of;
use crate::words::{all_words, next_word, write_words};
use device_ids::InstancePath;
use pnp_labels::{Event, EventWord};
use std::alloc::Global;

/// The words for which there is room without memory: as many as an event can have after its keyword, since a device arrives with
/// identifiers of both kinds and eight needs.
const MOST_WORDS: usize = 13;

/// Whether a keyword is followed by one path alone.
fn takes_one_path(event: EventWord) -> bool
    ensures { result ≡ takes_one_path event }
{
    matches!(
        event,
        EventWord::Pull
            | EventWord::Disable
            | EventWord::Enable
            | EventWord::Eject
            | EventWord::HandleOpen
            | EventWord::HandleClose
    )
}

/// The first word of a line, and what was read behind it.
pub enum Opening<'a> {
    /// A keyword that is followed by one path alone, and the path.
    At(EventWord, InstancePath),
    /// Any other keyword, its word, and what follows it.
    By(EventWord, &'a [u8], &'a [u8]),
}

/// The first word of a line, with the path where it is followed by one path alone. `recent` is the path of the last such line,
/// if there is one.
pub fn opening_of<'a>(
    alloc: Global,
    line: &'a [u8],
    recent: &mut Option<InstancePath>,
) -> Result<Opening<'a>, LineError<'a>>
    ensures { GivesOpening result (read_line (words_of line.now)) }
{
    let Some((keyword, rest)) = next_word(line) else {
        return Err(LineError::Bad(fault(Cause::FewWords, &[])));
    };
    let Some(event) = keyword_of(keyword) else {
        return Err(LineError::Bad(fault(Cause::NotKeyword, keyword)));
    };
    if takes_one_path(event) {
        Ok(Opening::At(event, lone_path(alloc, keyword, rest, recent)?))
    } else {
        Ok(Opening::By(event, keyword, rest))
    }
}

/// The event of a keyword that is followed by one path alone.
#[inline(always)]
pub fn event_at(event: EventWord, path: InstancePath) -> Event
    requires { takes_one_path event ≡ true }
    ensures { result ≡ event_at event path }
{
    match event {
        EventWord::Pull => Event::Pull { path },
        EventWord::Disable => Event::Disable { path },
        EventWord::Enable => Event::Enable { path },
        EventWord::Eject => Event::Eject { path },
        EventWord::HandleOpen => Event::OpenHandle { path },
        _ => Event::CloseHandle { path },
    }
}

/// What any other keyword says of its words.
fn read_words<'a>(
    alloc: Global,
    event: EventWord,
    keyword: &'a [u8],
    words: &[&'a [u8]],
) -> Result<Event, LineError<'a>>
    requires { takes_one_path event ≡ false }
    ensures { Gives result (read_by event keyword.now (map (λ w. w.now) words.now)) }
{
    match event {
        EventWord::Plug => plug_of(alloc, keyword, words),
        EventWord::Name => driver_of(alloc, keyword, words),
        EventWord::Teach => teach_of(alloc, keyword, words),
        EventWord::Relate => relate_of(alloc, keyword, words),
        EventWord::Reserve => reserve_of(keyword, words),
        EventWord::Complete => complete_of(alloc, keyword, words),
        EventWord::Window => window_of(alloc, keyword, words),
        EventWord::Change => change_of(alloc, keyword, words),
        EventWord::Watch => watch_of(alloc, keyword, words),
        _ => unwatch_of(alloc, keyword, words),
    }
}

/// What any other keyword says of what follows it.
pub fn read_by<'a>(
    alloc: Global,
    event: EventWord,
    keyword: &'a [u8],
    line: &'a [u8],
) -> Result<Event, LineError<'a>>
    requires { takes_one_path event ≡ false }
    ensures { Gives result (read_by event keyword.now (words_of line.now)) }
{
    let mut words = [line; MOST_WORDS];
    match write_words(line, &mut words) {
        Some(count) => read_words(alloc, event, keyword, &words[..count]),
        None => read_words(alloc, event, keyword, &all_words(alloc, line)?),
    }
}

/// What a line says, which is no comment; else why it says nothing, or want of memory. Cost: the length.
pub fn read_line<'a>(alloc: Global, line: &'a [u8]) -> Result<Event, LineError<'a>>
    ensures { Gives result (read_line (words_of line.now)) }
{
    match opening_of(alloc, line, &mut None)? {
        Opening::At(event, path) => Ok(event_at(event, path)),
        Opening::By(event, keyword, rest) => read_by(alloc, event, keyword, rest),
    }
}
