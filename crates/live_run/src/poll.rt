//! Whether a request that waits at a live driver completes.
ghost use Rattle.std.specs.Prelude.{◌≡◌, ◌≤◌, ◌∷◌, IfOk, IsErrOf, OnOk, Some, map};
ghost use Rattle.pnp_io.specs.Outside.{Rose};
ghost use Rattle.live_model.specs.Answers.{polled_in, polled_words};
ghost use Rattle.live_model.specs.Notes.{poll_words};
ghost use Rattle.live_model.specs.Outputs.{asked};
ghost use Rattle.live_run.specs.declared.stop.DriveError.TheVariants.{ReadFault, WriteFault};
ghost use Rattle.live_run.specs.Polls.{HasCompleted, HasPolled, TakesPolled};
ghost use Rattle.live_run.specs.Talks.{told};
ghost use Rattle.live_run.specs.Views.{trail_of};

use crate::answers::{are_tags, is_word, path_of, words_of};
use crate::notes::{push_done, push_tags};
use crate::stop::Stop;
use crate::talk::Talk;
use crate::trail::Trail;
use device_ids::{Text, WantOfMemory};
use live_io::Peer;
use pnp_labels::{Event, Minor};
use script_reader::{minor_of, ok_of};
use std::alloc::Global;

/// What the other side says when it is asked whether a request completes.
#[derive(Drop)]
pub(crate) enum Polled {
    /// None does.
    Nothing,
    /// This event happens, by which one does.
    Completes(Event),
    /// It is no answer.
    Bad,
}

/// The completion of the request of these words, if it waits at a live driver; that it does, and which rules were broken, is to be said.
fn complete(
    alloc: Global,
    said: &mut Vec<u8>,
    ask: u64,
    trail: &Trail,
    path: &[u8],
    minor: Minor,
    ok: bool,
    tags: &[&[u8]],
) -> Result<Polled, WantOfMemory>
    ensures { IfOk result (λ polled. HasCompleted polled ask (trail_of trail.now) path.now minor ok (map (λ t. t.now) tags.now) said.old.items said.new.items) }
{
    let name = Text::make(alloc, path)?;
    let Some(path) = path_of(alloc, path)? else {
        return Ok(Polled::Bad);
    };
    let Some(driver) = trail.driver_at(&name, minor) else {
        drop(path);
        return Ok(Polled::Bad);
    };
    push_done(said, ask, driver.bytes())?;
    push_tags(said, ask, driver.bytes(), tags)?;
    Ok(Polled::Completes(Event::Complete { path, minor, ok }))
}

/// The completion that four words and more tell, if they tell that of a request that waits at a live driver; that it completes, and which rules
/// were broken, is to be said.
fn take_completion(
    alloc: Global,
    said: &mut Vec<u8>,
    ask: u64,
    trail: &Trail,
    word: &[u8],
    path: &[u8],
    minor: &[u8],
    ok: &[u8],
    tags: &[&[u8]],
) -> Result<Polled, WantOfMemory>
    ensures { IfOk result (λ polled. TakesPolled polled (polled_words (Some (word.now ∷ path.now ∷ minor.now ∷ ok.now ∷ map (λ t. t.now) tags.now))) ask (trail_of trail.now) said.old.items said.new.items) }
{
    if !is_word(word, b"complete") {
        return Ok(Polled::Bad);
    }
    if !are_tags(tags) {
        return Ok(Polled::Bad);
    }
    let Some(minor) = minor_of(minor) else {
        return Ok(Polled::Bad);
    };
    let Some(ok) = ok_of(ok) else {
        return Ok(Polled::Bad);
    };
    complete(alloc, said, ask, trail, path, minor, ok, tags)
}

/// What a word and those behind it tell, as the answer to a poll: `none` alone, or a completion.
fn take_words(
    alloc: Global,
    said: &mut Vec<u8>,
    ask: u64,
    trail: &Trail,
    word: &[u8],
    more: &[&[u8]],
) -> Result<Polled, WantOfMemory>
    ensures { IfOk result (λ polled. TakesPolled polled (polled_words (Some (word.now ∷ map (λ t. t.now) more.now))) ask (trail_of trail.now) said.old.items said.new.items) }
{
    if let [path, minor, ok, tags @ ..] = more {
        return take_completion(alloc, said, ask, trail, word, path, minor, ok, tags);
    }
    if more.len() > 0 {
        return Ok(Polled::Bad);
    }
    if is_word(word, b"none") {
        Ok(Polled::Nothing)
    } else {
        Ok(Polled::Bad)
    }
}

impl Talk {
    /// Takes the line that was heard as the answer to a poll.
    fn take_polled(&mut self, alloc: Global, trail: &Trail) -> Result<Polled, WantOfMemory>
        ensures takes { IfOk result (λ polled. TakesPolled polled (polled_in self.old.asks self.old.line.items) self.old.asks (trail_of trail.now) self.old.said.items self.new.said.items) }
        ensures line { OnOk result (self.new.line ≡ self.old.line) }
        ensures asks { OnOk result (self.new.asks ≡ self.old.asks) }
    {
        let Some(words) = words_of(alloc, &self.line, self.asks)? else {
            return Ok(Polled::Bad);
        };
        let [word, more @ ..] = words.as_slice() else {
            return Ok(Polled::Bad);
        };
        take_words(alloc, &mut self.said, self.asks, trail, word, more)
    }

    /// Asks whether one of the requests that wait completes: the event that it does, and what is to be said before its line; or none.
    #[tactic(auto, using(crate::proofs::Faults::rose_behind))]
    pub(crate) fn poll<P: Peer>(
        &mut self,
        alloc: Global,
        trail: &Trail,
        peer: &mut P,
    ) -> Result<Option<Event>, Stop>
        ensures polled { HasPolled result (trail_of trail.now) (asked poll_words (told self.old (P.past peer.old) (P.taken peer.old) (P.answers peer.old))) (told self.new (P.past peer.new) (P.taken peer.new) (P.answers peer.new)) (P.past peer.new) (P.taken peer.new) }
        ensures write_fault { IsErrOf result (Stop.Fault WriteFault) → Rose (P.write_faults peer.old) (P.write_faults peer.new) }
        ensures read_fault { IsErrOf result (Stop.Fault ReadFault) → Rose (P.read_faults peer.old) (P.read_faults peer.new) }
        ensures writes { P.write_faults peer.old ≤ P.write_faults peer.new }
        ensures reads { P.read_faults peer.old ≤ P.read_faults peer.new }
    {
        self.ask(b"poll", peer)?;
        match self.take_polled(alloc, trail)? {
            Polled::Nothing => Ok(None),
            Polled::Completes(event) => Ok(Some(event)),
            Polled::Bad => Err(Stop::Bad),
        }
    }
}
