//! What is said, and what is heard.
ghost use Rattle.std.specs.Prelude.{◌≡◌, ◌≤◌, ◌++◌, ◌∷◌, [], OnErr, OnOk, IfOk, IsErrOf};
ghost use Rattle.pnp_io.specs.Outside.{Rose};
ghost use Rattle.pnp_labels.specs.Texts.{label_line};
ghost use Rattle.live_model.specs.Answers.{hello, reply_in};
ghost use Rattle.live_model.specs.Fronts.{IsFront};
ghost use Rattle.live_model.specs.Outputs.{asked, says};
ghost use Rattle.live_run.specs.declared.stop.DriveError.TheVariants.{ReadFault, WriteFault};
ghost use Rattle.live_run.specs.Talks.{HasAnswered, HasGreeted, IsSaid, IsTurn, TakesReply, told};

use crate::answers::{are_tags, is_taken, words_of};
use crate::notes::{push_ask, push_tags};
use crate::stop::{DriveError, Stop};
use device_ids::{Text, WantOfMemory};
use live_io::{Heard, Peer, PeerError};
use pnp_labels::{Answer, Label, push_line};
use script_reader::answer_of;
use std::alloc::Global;

/// The first line of the answers.
const HELLO: &[u8] = b"live 1";

/// So many bytes are said before the next ask.
const ENOUGH: usize = 32_768;

/// A talk with the other side: what is still to be said, the line that was heard last, and how many asks there were.
pub(crate) struct Talk {
    pub(crate) said: Vec<u8>,
    pub(crate) line: Vec<u8>,
    pub(crate) asks: u64,
}

impl Drop for Talk {
    fn drop(self) {
        let Talk {
            said: _,
            line: _,
            asks: _,
        } = self;
    }
}

impl Talk {
    /// A talk in which nothing was said.
    pub(crate) fn new(alloc: Global) -> Talk
        ensures said { result.said.items ≡ [] }
        ensures asks { result.asks ≡ 0 }
    {
        Talk {
            said: Vec::new(alloc),
            line: Vec::new(alloc),
            asks: 0,
        }
    }

    /// Says all that is to be said, and hears a line.
    #[tactic(auto, using(crate::proofs::Faults::rose_behind))]
    fn turn<P: Peer>(&mut self, peer: &mut P) -> Result<(), Stop>
        ensures turn { IsTurn result (told self.old (P.past peer.old) (P.taken peer.old) (P.answers peer.old)) (told self.new (P.past peer.new) (P.taken peer.new) (P.answers peer.new)) self.new.line.items (P.past peer.new) (P.taken peer.new) }
        ensures all { OnOk result (self.new.said.items ≡ []) }
        ensures write_fault { IsErrOf result (Stop.Fault WriteFault) → Rose (P.write_faults peer.old) (P.write_faults peer.new) }
        ensures read_fault { IsErrOf result (Stop.Fault ReadFault) → Rose (P.read_faults peer.old) (P.read_faults peer.new) }
        ensures writes { P.write_faults peer.old ≤ P.write_faults peer.new }
        ensures reads { P.read_faults peer.old ≤ P.read_faults peer.new }
    {
        let heard = peer.turn(&self.said, &mut self.line)?;
        self.said.clear();
        match heard {
            Heard::Line => Ok(()),
            Heard::LongLine => Err(Stop::Bad),
            Heard::Over => Err(Stop::End),
        }
    }

    /// Hears the first line, before anything is said.
    #[tactic(auto, using(crate::proofs::Faults::rose_behind))]
    pub(crate) fn hear_hello<P: Peer>(&mut self, peer: &mut P) -> Result<(), Stop>
        requires said { self.old.said.items ≡ [] }
        ensures greeted { HasGreeted result (told self.old (P.past peer.old) (P.taken peer.old) (P.answers peer.old)) (told self.new (P.past peer.new) (P.taken peer.new) (P.answers peer.new)) (P.past peer.new) (P.taken peer.new) }
        ensures all { OnOk result (self.new.said.items ≡ []) }
        ensures write_fault { IsErrOf result (Stop.Fault WriteFault) → Rose (P.write_faults peer.old) (P.write_faults peer.new) }
        ensures read_fault { IsErrOf result (Stop.Fault ReadFault) → Rose (P.read_faults peer.old) (P.read_faults peer.new) }
        ensures writes { P.write_faults peer.old ≤ P.write_faults peer.new }
        ensures reads { P.read_faults peer.old ≤ P.read_faults peer.new }
    {
        self.turn(peer)?;
        if self.line.as_slice() == HELLO {
            Ok(())
        } else {
            Err(Stop::Bad)
        }
    }

    /// Says all that is to be said.
    #[tactic(auto, using(crate::proofs::Faults::rose_behind))]
    pub(crate) fn flush<P: Peer>(&mut self, peer: &mut P) -> Result<(), PeerError>
        ensures said { OnOk result ((told self.new (P.past peer.new) (P.taken peer.new) (P.answers peer.new)) ≡ (told self.old (P.past peer.old) (P.taken peer.old) (P.answers peer.old))) }
        ensures done { OnOk result (IsSaid (told self.old (P.past peer.old) (P.taken peer.old) (P.answers peer.old)) (P.past peer.new) (P.taken peer.new)) }
        ensures front { OnErr result (IsFront (told self.old (P.past peer.old) (P.taken peer.old) (P.answers peer.old)) (P.past peer.new) (P.taken peer.new)) }
        ensures write_fault { IsErrOf result PeerError.WriteFault → Rose (P.write_faults peer.old) (P.write_faults peer.new) }
        ensures read_fault { IsErrOf result PeerError.ReadFault → Rose (P.read_faults peer.old) (P.read_faults peer.new) }
        ensures writes { P.write_faults peer.old ≤ P.write_faults peer.new }
        ensures reads { P.read_faults peer.old ≤ P.read_faults peer.new }
    {
        peer.say(&self.said)?;
        self.said.clear();
        Ok(())
    }

    /// The line of a label is to be said.
    #[tactic(auto, using(crate::proofs::Faults::rose_behind))]
    pub(crate) fn add_label<P: Peer>(
        &mut self,
        label: &Label,
        peer: &mut P,
    ) -> Result<(), DriveError>
        ensures said { OnOk result ((told self.new (P.past peer.new) (P.taken peer.new) (P.answers peer.new)) ≡ says (label_line label.now ++ 10 ∷ []) (told self.old (P.past peer.old) (P.taken peer.old) (P.answers peer.old))) }
        ensures front { OnErr result (IsFront (says (label_line label.now ++ 10 ∷ []) (told self.old (P.past peer.old) (P.taken peer.old) (P.answers peer.old))) (P.past peer.new) (P.taken peer.new)) }
        ensures write_fault { IsErrOf result WriteFault → Rose (P.write_faults peer.old) (P.write_faults peer.new) }
        ensures read_fault { IsErrOf result ReadFault → Rose (P.read_faults peer.old) (P.read_faults peer.new) }
        ensures writes { P.write_faults peer.old ≤ P.write_faults peer.new }
        ensures reads { P.read_faults peer.old ≤ P.read_faults peer.new }
    {
        push_line(&mut self.said, label)?;
        if self.said.len() >= ENOUGH {
            self.flush(peer)?;
        }
        Ok(())
    }

    /// The next ask, of these words, is said, and its answer is heard.
    #[tactic(auto, using(crate::proofs::Faults::rose_behind))]
    pub(crate) fn ask<P: Peer>(&mut self, words: &[u8], peer: &mut P) -> Result<(), Stop>
        ensures turn { IsTurn result (asked words.now (told self.old (P.past peer.old) (P.taken peer.old) (P.answers peer.old))) (told self.new (P.past peer.new) (P.taken peer.new) (P.answers peer.new)) self.new.line.items (P.past peer.new) (P.taken peer.new) }
        ensures write_fault { IsErrOf result (Stop.Fault WriteFault) → Rose (P.write_faults peer.old) (P.write_faults peer.new) }
        ensures read_fault { IsErrOf result (Stop.Fault ReadFault) → Rose (P.read_faults peer.old) (P.read_faults peer.new) }
        ensures writes { P.write_faults peer.old ≤ P.write_faults peer.new }
        ensures reads { P.read_faults peer.old ≤ P.read_faults peer.new }
    {
        let Some(asks) = self.asks.checked_add(1) else {
            return Err(Stop::Fault(DriveError::TooLarge));
        };
        push_ask(&mut self.said, asks, words)?;
        self.asks = asks;
        self.turn(peer)
    }

    /// Takes the line that was heard as a driver's answer: which rules it broke is to be said. None where it is no answer.
    fn take_reply(
        &mut self,
        alloc: Global,
        driver: &Text,
        may_pend: bool,
    ) -> Result<Option<Answer>, WantOfMemory>
        ensures takes { IfOk result (λ answer. TakesReply answer (reply_in self.old.asks may_pend self.old.line.items) self.old.asks driver.now self.old.said.items self.new.said.items) }
        ensures line { OnOk result (self.new.line ≡ self.old.line) }
        ensures asks { OnOk result (self.new.asks ≡ self.old.asks) }
    {
        let Some(words) = words_of(alloc, &self.line, self.asks)? else {
            return Ok(None);
        };
        let [word, tags @ ..] = words.as_slice() else {
            return Ok(None);
        };
        match answer_of(word) {
            Some(answer) if is_taken(may_pend, answer) && are_tags(tags) => {
                push_tags(&mut self.said, self.asks, driver.bytes(), tags)?;
                Ok(Some(answer))
            }
            _ => Ok(None),
        }
    }

    /// Asks a driver, and hears what it answers; which rules it broke is to be said.
    #[tactic(auto, using(crate::proofs::Faults::rose_behind))]
    pub(crate) fn ask_driver<P: Peer>(
        &mut self,
        alloc: Global,
        words: &[u8],
        driver: &Text,
        may_pend: bool,
        peer: &mut P,
    ) -> Result<Answer, Stop>
        ensures answered { HasAnswered result may_pend driver.now (asked words.now (told self.old (P.past peer.old) (P.taken peer.old) (P.answers peer.old))) (told self.new (P.past peer.new) (P.taken peer.new) (P.answers peer.new)) (P.past peer.new) (P.taken peer.new) }
        ensures write_fault { IsErrOf result (Stop.Fault WriteFault) → Rose (P.write_faults peer.old) (P.write_faults peer.new) }
        ensures read_fault { IsErrOf result (Stop.Fault ReadFault) → Rose (P.read_faults peer.old) (P.read_faults peer.new) }
        ensures writes { P.write_faults peer.old ≤ P.write_faults peer.new }
        ensures reads { P.read_faults peer.old ≤ P.read_faults peer.new }
    {
        self.ask(words, peer)?;
        match self.take_reply(alloc, driver, may_pend)? {
            Some(answer) => Ok(answer),
            None => Err(Stop::Bad),
        }
    }
}
