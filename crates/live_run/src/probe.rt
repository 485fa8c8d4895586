//! Whether drivers take requests of programs as they may.
ghost use Rattle.std.specs.Prelude.{◌≡◌, ◌≤◌, ◌++◌, IfOk, IsErrOf, OnOk, map, true};
ghost use Rattle.pnp_io.specs.Outside.{Rose};
ghost use Rattle.live_model.specs.Answers.{reply_in};
ghost use Rattle.live_model.specs.Notes.{answer_text, fits, misfit_tag, probe_lines};
ghost use Rattle.live_model.specs.Outputs.{asked};
ghost use Rattle.live_run.specs.declared.stop.DriveError.TheVariants.{ReadFault, WriteFault};
ghost use Rattle.live_run.specs.Probes.{HasProbed, TakesProbed};
ghost use Rattle.live_run.specs.Talks.{told};

use crate::answers::{are_tags, words_of};
use crate::notes::{push_broke, push_tags};
use crate::stop::Stop;
use crate::talk::Talk;
use device_ids::{Text, WantOfMemory};
use live_io::Peer;
use pnp_labels::{Answer, DevState, state_text};
use script_reader::answer_of;
use std::alloc::Global;

/// The word of an answer.
fn answer_text(answer: Answer) -> &'static [u8]
    ensures { result.now ≡ answer_text answer }
{
    match answer {
        Answer::Ok => b"ok",
        Answer::Fail => b"fail",
        Answer::Pend => b"pend",
    }
}

/// Whether a driver of a device in this state may do so with a create request (Oney, on the states of a device): take it, refuse it or keep
/// it for later. Of one that is NotStarted nothing is asked: where a driver above failed the start, those below had started.
fn fits(state: DevState, answer: Answer) -> bool
    ensures { result ≡ fits state answer }
{
    match state {
        DevState::Started => !matches!(answer, Answer::Fail),
        DevState::StopPending | DevState::RemovePending | DevState::NotStarted => true,
        DevState::Stopped => !matches!(answer, Answer::Ok),
        DevState::SurpriseRemoved | DevState::NoStack => matches!(answer, Answer::Fail),
    }
}

/// The tag of an answer that does not fit the state.
fn misfit_tag(alloc: Global, state: DevState, answer: Answer) -> Result<Vec<u8>, WantOfMemory>
    ensures { IfOk result (λ tag. tag.items ≡ misfit_tag state answer) }
{
    let mut tag = Vec::from_slice(alloc, b"probe-")?;
    tag.extend_from_slice(state_text(state))?;
    tag.push(b'-')?;
    tag.extend_from_slice(answer_text(answer))?;
    Ok(tag)
}

/// Appends a note for each rule that is broken by an answer to a probe in this state, and for each tag.
fn push_probed(
    alloc: Global,
    out: &mut Vec<u8>,
    ask: u64,
    driver: &[u8],
    state: DevState,
    answer: Answer,
    tags: &[&[u8]],
) -> Result<(), WantOfMemory>
    ensures { OnOk result (out.new.items ≡ out.old.items ++ probe_lines ask driver.now state answer (map (λ t. t.now) tags.now)) }
{
    if fits(state, answer) {
        return push_tags(out, ask, driver, tags);
    }
    let tag = misfit_tag(alloc, state, answer)?;
    push_broke(out, ask, driver, &tag)?;
    push_tags(out, ask, driver, tags)
}

impl Talk {
    /// Takes the line that was heard as the answer to a probe of a device in this state, if it is one: which rules were broken is to be said.
    fn take_probed(
        &mut self,
        alloc: Global,
        driver: &Text,
        state: DevState,
    ) -> Result<bool, WantOfMemory>
        ensures takes { IfOk result (λ taken. TakesProbed taken (reply_in self.old.asks true self.old.line.items) self.old.asks driver.now state self.old.said.items self.new.said.items) }
        ensures line { OnOk result (self.new.line ≡ self.old.line) }
        ensures asks { OnOk result (self.new.asks ≡ self.old.asks) }
    {
        let Some(words) = words_of(alloc, &self.line, self.asks)? else {
            return Ok(false);
        };
        let [word, tags @ ..] = words.as_slice() else {
            return Ok(false);
        };
        match answer_of(word) {
            Some(answer) if are_tags(tags) => {
                push_probed(
                    alloc,
                    &mut self.said,
                    self.asks,
                    driver.bytes(),
                    state,
                    answer,
                    tags,
                )?;
                Ok(true)
            }
            _ => Ok(false),
        }
    }

    /// Asks a driver what it does with a create request now; which rules it broke is to be said.
    #[tactic(auto, using(crate::proofs::Faults::rose_behind))]
    pub(crate) fn probe_driver<P: Peer>(
        &mut self,
        alloc: Global,
        words: &[u8],
        driver: &Text,
        state: DevState,
        peer: &mut P,
    ) -> Result<(), Stop>
        ensures probed { HasProbed result driver.now state (asked words.now (told self.old (P.past peer.old) (P.taken peer.old) (P.answers peer.old))) (told self.new (P.past peer.new) (P.taken peer.new) (P.answers peer.new)) (P.past peer.new) (P.taken peer.new) }
        ensures write_fault { IsErrOf result (Stop.Fault WriteFault) → Rose (P.write_faults peer.old) (P.write_faults peer.new) }
        ensures read_fault { IsErrOf result (Stop.Fault ReadFault) → Rose (P.read_faults peer.old) (P.read_faults peer.new) }
        ensures writes { P.write_faults peer.old ≤ P.write_faults peer.new }
        ensures reads { P.read_faults peer.old ≤ P.read_faults peer.new }
    {
        self.ask(words, peer)?;
        if self.take_probed(alloc, driver, state)? {
            Ok(())
        } else {
            Err(Stop::Bad)
        }
    }
}
