//! The loop of a live run.
ghost use Rattle.pnp_io.specs.Outside.{Rose};
ghost use Rattle.live_run.specs.declared.stop.DriveError.TheVariants.{ReadFault, WriteFault};
ghost use Rattle.std.specs.Prelude.{◌+◌, ◌<◌, ◌^◌, ◌≡◌, ◌≤◌, ◌++◌, ◌∷◌, [], IfOk, IsErrOf, List, OnErr, OnOk, option_map, true};
ghost use Rattle.std.specs.Fmt.{decimal};
ghost use Rattle.pnp_model.specs.Machine.{IsQuiet};
ghost use Rattle.free_model.specs.Outputs.{end_text, error_line};
ghost use Rattle.live_model.specs.Fronts.{HasBegun, HasLived, GreetsFront, IsFront};
ghost use Rattle.live_model.specs.Moves.{HasFewIds};
ghost use Rattle.live_model.specs.Outputs.{Acts, Greets, Rests, beginning, says, untalked};
ghost use Rattle.live_model.specs.Trails as trails;
ghost use Rattle.live_model.specs.Lives.{Lives};
ghost use Rattle.live_run.specs.Runs.{HasFollowed, HasPlayed, HasSettled, IsNext, how, scene, script_of};
ghost use Rattle.live_run.specs.Talks.{IsSaid, told};
ghost use Rattle.live_run.specs.Views.{lives_of, trail_of};

use crate::live::LiveDrivers;
use crate::machine::Machine;
use crate::notes::push_numbered;
use crate::step::take_step;
use crate::stop::{DriveError, Ended, Stop};
use crate::talk::Talk;
use crate::trail::Trail;
use live_io::Peer;
use pnp_labels::Event;
use script_reader::{Next, Reader};
use std::alloc::Global;

/// The most events that happen, the script's and those that are heard: this project's own.
const MOST_EVENTS: u64 = 16_777_216;

/// The most IDs of a sort: those of a line of a script.
const MOST_IDS: u64 = 64;

/// Whether an event has at most 64 IDs of each sort, as each event of a script has.
fn has_few_ids(event: &Event) -> bool
    ensures { result ≡ true → HasFewIds event.now }
{
    match event {
        Event::Plug {
            parent: _,
            path: _,
            hw,
            compat,
            reqs: _,
        } => hw.len() <= MOST_IDS && compat.len() <= MOST_IDS,
        _ => true,
    }
}

/// The machine steps until no step is next.
#[tactic(auto, using(crate::proofs::Faults::rose_behind))]
fn settle<M: Machine, P: Peer>(
    alloc: Global,
    machine: &mut M,
    live: &LiveDrivers,
    trail: &mut Trail,
    talk: &mut Talk,
    peer: &mut P,
) -> Result<(), Stop>
    ensures settled { HasSettled result (lives_of live.now) (M.settings machine.old) (scene (M.state machine.old) (trail_of trail.old) (told talk.old (P.past peer.old) (P.taken peer.old) (P.answers peer.old))) (scene (M.state machine.new) (trail_of trail.new) (told talk.new (P.past peer.new) (P.taken peer.new) (P.answers peer.new))) (P.past peer.new) (P.taken peer.new) }
    ensures same { M.settings machine.new ≡ M.settings machine.old }
    ensures events { M.events machine.new ≡ M.events machine.old }
    ensures write_fault { IsErrOf result (Stop.Fault WriteFault) → Rose (P.write_faults peer.old) (P.write_faults peer.new) }
    ensures read_fault { IsErrOf result (Stop.Fault ReadFault) → Rose (P.read_faults peer.old) (P.read_faults peer.new) }
    ensures writes { P.write_faults peer.old ≤ P.write_faults peer.new }
    ensures reads { P.read_faults peer.old ≤ P.read_faults peer.new }
{
    'steps: for _ in 0..u64::MAX {
        if !take_step(alloc, machine, live, trail, talk, peer)? {
            return Ok(());
        }
    }
    Err(Stop::Fault(DriveError::TooLarge))
}

/// An event happens, and the machine steps until no step is next.
#[tactic(auto, using(crate::proofs::Faults::rose_behind))]
fn happen<M: Machine, P: Peer>(
    alloc: Global,
    machine: &mut M,
    event: Event,
    live: &LiveDrivers,
    trail: &mut Trail,
    talk: &mut Talk,
    peer: &mut P,
) -> Result<(), Stop>
    requires quiet { IsQuiet (M.settings machine.old) (M.state machine.old) }
    requires events { M.events machine.old < 2 ^ 24 }
    ensures followed { HasFollowed result (lives_of live.now) (M.settings machine.old) (scene (M.state machine.old) (trail_of trail.old) (told talk.old (P.past peer.old) (P.taken peer.old) (P.answers peer.old))) event (scene (M.state machine.new) (trail_of trail.new) (told talk.new (P.past peer.new) (P.taken peer.new) (P.answers peer.new))) (P.past peer.new) (P.taken peer.new) }
    ensures same { M.settings machine.new ≡ M.settings machine.old }
    ensures events { OnOk result (M.events machine.new ≡ M.events machine.old + 1) }
    ensures write_fault { IsErrOf result (Stop.Fault WriteFault) → Rose (P.write_faults peer.old) (P.write_faults peer.new) }
    ensures read_fault { IsErrOf result (Stop.Fault ReadFault) → Rose (P.read_faults peer.old) (P.read_faults peer.new) }
    ensures writes { P.write_faults peer.old ≤ P.write_faults peer.new }
    ensures reads { P.read_faults peer.old ≤ P.read_faults peer.new }
{
    if !has_few_ids(&event) {
        drop(event);
        return Err(Stop::Fault(DriveError::TooLarge));
    }
    let label = machine.apply(event)?;
    talk.add_label(&label, peer)?;
    trail.follow(alloc, live, &label)?;
    settle(alloc, machine, live, trail, talk, peer)
}

/// The end of the output is said.
#[tactic(auto, using(crate::proofs::Faults::rose_behind))]
fn end<M: Machine, P: Peer>(
    alloc: Global,
    machine: &M,
    talk: &mut Talk,
    peer: &mut P,
) -> Result<(), DriveError>
    ensures said { OnOk result (IsSaid (says (end_text (M.state machine.now)) (told talk.old (P.past peer.old) (P.taken peer.old) (P.answers peer.old))) (P.past peer.new) (P.taken peer.new)) }
    ensures front { OnErr result (IsFront (says (end_text (M.state machine.now)) (told talk.old (P.past peer.old) (P.taken peer.old) (P.answers peer.old))) (P.past peer.new) (P.taken peer.new)) }
    ensures write_fault { IsErrOf result WriteFault → Rose (P.write_faults peer.old) (P.write_faults peer.new) }
    ensures read_fault { IsErrOf result ReadFault → Rose (P.read_faults peer.old) (P.read_faults peer.new) }
    ensures writes { P.write_faults peer.old ≤ P.write_faults peer.new }
    ensures reads { P.read_faults peer.old ≤ P.read_faults peer.new }
{
    let ending = machine.ending(alloc)?;
    talk.said.extend_from_slice(&ending)?;
    talk.flush(peer)?;
    Ok(())
}

/// The line of a bad line is said, and the end of the output.
#[tactic(auto, using(crate::proofs::Faults::rose_behind))]
fn end_badly<M: Machine, P: Peer>(
    alloc: Global,
    machine: &M,
    line: u64,
    talk: &mut Talk,
    peer: &mut P,
) -> Result<(), DriveError>
    ensures said { OnOk result (IsSaid (says (error_line line ++ end_text (M.state machine.now)) (told talk.old (P.past peer.old) (P.taken peer.old) (P.answers peer.old))) (P.past peer.new) (P.taken peer.new)) }
    ensures front { OnErr result (IsFront (says (error_line line ++ end_text (M.state machine.now)) (told talk.old (P.past peer.old) (P.taken peer.old) (P.answers peer.old))) (P.past peer.new) (P.taken peer.new)) }
    ensures write_fault { IsErrOf result WriteFault → Rose (P.write_faults peer.old) (P.write_faults peer.new) }
    ensures read_fault { IsErrOf result ReadFault → Rose (P.read_faults peer.old) (P.read_faults peer.new) }
    ensures writes { P.write_faults peer.old ≤ P.write_faults peer.new }
    ensures reads { P.read_faults peer.old ≤ P.read_faults peer.new }
{
    push_numbered(&mut talk.said, b"script error line ", line)?;
    end(alloc, machine, talk, peer)
}

/// What comes next at a quiet state.
#[derive(Drop)]
enum Happening {
    /// This event happens.
    Event(Event),
    /// The run has ended so, and that was said.
    End(Ended),
}

/// What the script gives next, at a quiet state.
#[tactic(auto, using(crate::proofs::Faults::rose_behind))]
fn next_of_script<M: Machine, P: Peer>(
    alloc: Global,
    machine: &M,
    reader: &mut Reader,
    talk: &mut Talk,
    peer: &mut P,
) -> Result<Happening, Stop>
    requires finished { reader.old.finished ≡ true }
    ensures next { (lives : Lives) (trail : trails.Trail) → IsNext result lives (M.settings machine.now) Rests (scene (M.state machine.now) trail (told talk.old (P.past peer.old) (P.taken peer.old) (P.answers peer.old))) (told talk.new (P.past peer.new) (P.taken peer.new) (P.answers peer.new)) (script_of reader.old) (script_of reader.new) (P.past peer.new) (P.taken peer.new) }
    ensures finished { OnOk result (reader.new.finished ≡ true) }
    ensures write_fault { IsErrOf result (Stop.Fault WriteFault) → Rose (P.write_faults peer.old) (P.write_faults peer.new) }
    ensures read_fault { IsErrOf result (Stop.Fault ReadFault) → Rose (P.read_faults peer.old) (P.read_faults peer.new) }
    ensures writes { P.write_faults peer.old ≤ P.write_faults peer.new }
    ensures reads { P.read_faults peer.old ≤ P.read_faults peer.new }
{
    match reader.next_event()? {
        Next::Event(event) => Ok(Happening::Event(event)),
        Next::Bad { line } => {
            end_badly(alloc, machine, line, talk, peer)?;
            Ok(Happening::End(Ended::BadLine))
        }
        Next::End => {
            end(alloc, machine, talk, peer)?;
            Ok(Happening::End(Ended::Done))
        }
        // a reader that was finished needs no more
        Next::NeedMore => unreachable!(),
    }
}

/// What comes next, at a quiet state: a request that waits at a live driver completes, or the next line of the script happens.
#[tactic(auto, using(crate::proofs::Faults::rose_behind))]
fn next_happening<M: Machine, P: Peer>(
    alloc: Global,
    machine: &M,
    reader: &mut Reader,
    trail: &Trail,
    talk: &mut Talk,
    peer: &mut P,
) -> Result<Happening, Stop>
    requires quiet { IsQuiet (M.settings machine.now) (M.state machine.now) }
    requires finished { reader.old.finished ≡ true }
    ensures next { (lives : Lives) → IsNext result lives (M.settings machine.now) Acts (scene (M.state machine.now) (trail_of trail.now) (told talk.old (P.past peer.old) (P.taken peer.old) (P.answers peer.old))) (told talk.new (P.past peer.new) (P.taken peer.new) (P.answers peer.new)) (script_of reader.old) (script_of reader.new) (P.past peer.new) (P.taken peer.new) }
    ensures finished { OnOk result (reader.new.finished ≡ true) }
    ensures write_fault { IsErrOf result (Stop.Fault WriteFault) → Rose (P.write_faults peer.old) (P.write_faults peer.new) }
    ensures read_fault { IsErrOf result (Stop.Fault ReadFault) → Rose (P.read_faults peer.old) (P.read_faults peer.new) }
    ensures writes { P.write_faults peer.old ≤ P.write_faults peer.new }
    ensures reads { P.read_faults peer.old ≤ P.read_faults peer.new }
{
    if !trail.waits() {
        return next_of_script(alloc, machine, reader, talk, peer);
    }
    match talk.poll(alloc, trail, peer)? {
        Some(event) => Ok(Happening::Event(event)),
        None => next_of_script(alloc, machine, reader, talk, peer),
    }
}

/// The events happen, one after another, to the end.
#[tactic(auto, using(crate::proofs::Faults::rose_behind))]
fn play<M: Machine, P: Peer>(
    alloc: Global,
    machine: &mut M,
    reader: &mut Reader,
    live: &LiveDrivers,
    trail: &mut Trail,
    talk: &mut Talk,
    peer: &mut P,
) -> Result<Ended, Stop>
    requires events { M.events machine.old ≡ 0 }
    requires finished { reader.old.finished ≡ true }
    ensures played { HasPlayed result (lives_of live.now) (M.settings machine.old) (scene (M.state machine.old) (trail_of trail.old) (told talk.old (P.past peer.old) (P.taken peer.old) (P.answers peer.old))) (script_of reader.old) (told talk.new (P.past peer.new) (P.taken peer.new) (P.answers peer.new)) (P.past peer.new) (P.taken peer.new) }
    ensures write_fault { IsErrOf result (Stop.Fault WriteFault) → Rose (P.write_faults peer.old) (P.write_faults peer.new) }
    ensures read_fault { IsErrOf result (Stop.Fault ReadFault) → Rose (P.read_faults peer.old) (P.read_faults peer.new) }
    ensures writes { P.write_faults peer.old ≤ P.write_faults peer.new }
    ensures reads { P.read_faults peer.old ≤ P.read_faults peer.new }
{
    settle(alloc, machine, live, trail, talk, peer)?;
    let mut events = 0;
    'events: while events < MOST_EVENTS {
        match next_happening(alloc, machine, reader, trail, talk, peer)? {
            Happening::Event(event) => happen(alloc, machine, event, live, trail, talk, peer)?,
            Happening::End(ended) => return Ok(ended),
        }
        events += 1;
    }
    match next_happening(alloc, machine, reader, trail, talk, peer)? {
        Happening::Event(event) => {
            drop(event);
            Err(Stop::Fault(DriveError::TooLarge))
        }
        Happening::End(ended) => Ok(ended),
    }
}

/// Says where the answers end, or are bad: these words, and the number of the last ask.
#[tactic(auto, using(crate::proofs::Faults::rose_behind))]
fn say_where<P: Peer>(words: &[u8], talk: &mut Talk, peer: &mut P) -> Result<(), DriveError>
    ensures said { OnOk result (untalked (P.past peer.new) (P.taken peer.new) (P.answers peer.new) ≡ record (says (words.now ++ decimal talk.old.asks ++ 10 ∷ []) (told talk.old (P.past peer.old) (P.taken peer.old) (P.answers peer.old))) { asks = 0 }) }
    ensures front { OnErr result (IsFront (says (words.now ++ decimal talk.old.asks ++ 10 ∷ []) (told talk.old (P.past peer.old) (P.taken peer.old) (P.answers peer.old))) (P.past peer.new) (P.taken peer.new)) }
    ensures write_fault { IsErrOf result WriteFault → Rose (P.write_faults peer.old) (P.write_faults peer.new) }
    ensures read_fault { IsErrOf result ReadFault → Rose (P.read_faults peer.old) (P.read_faults peer.new) }
    ensures writes { P.write_faults peer.old ≤ P.write_faults peer.new }
    ensures reads { P.read_faults peer.old ≤ P.read_faults peer.new }
{
    let asks = talk.asks;
    push_numbered(&mut talk.said, words, asks)?;
    talk.flush(peer)?;
    Ok(())
}

/// Hears the first line of the answers, before anything is said: none where it is `live 1`; else how the run ended, which was said. `ReadFault`
/// and `WriteFault` come only where the count of read faults, or of write faults, rose in this call; what was said is then a front.
#[tactic(auto, using(crate::proofs::Faults::rose_behind))]
pub fn greet<P: Peer>(alloc: Global, peer: &mut P) -> Result<Option<Ended>, DriveError>
    ensures greets { IfOk result (λ ended. Greets (untalked (P.past peer.old) (P.taken peer.old) (P.answers peer.old)) (option_map how ended) (untalked (P.past peer.new) (P.taken peer.new) (P.answers peer.new))) }
    ensures front { OnErr result (GreetsFront (untalked (P.past peer.old) (P.taken peer.old) (P.answers peer.old)) (P.past peer.new) (P.taken peer.new)) }
    ensures write_fault { IsErrOf result WriteFault → Rose (P.write_faults peer.old) (P.write_faults peer.new) }
    ensures read_fault { IsErrOf result ReadFault → Rose (P.read_faults peer.old) (P.read_faults peer.new) }
    ensures writes { P.write_faults peer.old ≤ P.write_faults peer.new }
    ensures reads { P.read_faults peer.old ≤ P.read_faults peer.new }
{
    let mut talk = Talk::new(alloc);
    match talk.hear_hello(peer) {
        Ok(()) => Ok(None),
        Err(Stop::Fault(error)) => Err(error),
        Err(Stop::End) => {
            say_where(b"answers end at ask ", &mut talk, peer)?;
            Ok(Some(Ended::AnswersEnd))
        }
        Err(Stop::Bad) => {
            say_where(b"answers bad at ask ", &mut talk, peer)?;
            Ok(Some(Ended::AnswersBad))
        }
    }
}

/// Runs a script, which was fed whole, on a machine of which some drivers are live, against the other side, which was greeted: how the run
/// ended, which was said, exactly as the definition of a live run has it. `ReadFault` and `WriteFault` come only where the count of read
/// faults, or of write faults, rose in this call; what was said after an error is a front. Conditions: the machine is as before its first event,
/// and the reader was finished. Cost: that of the steps and events; for each line of a state, with probes, the number of live drivers that are
/// attached.
#[tactic(auto, using(crate::proofs::Faults::rose_behind))]
pub fn drive<M: Machine, P: Peer>(
    alloc: Global,
    machine: &mut M,
    reader: &mut Reader,
    live: &LiveDrivers,
    peer: &mut P,
) -> Result<Ended, DriveError>
    requires events { M.events machine.old ≡ 0 }
    requires finished { reader.old.finished ≡ true }
    ensures lives { IfOk result (λ ended. HasLived (lives_of live.now) (M.settings machine.old) (beginning (M.state machine.old) (untalked (P.past peer.old) (P.taken peer.old) (P.answers peer.old)) (script_of reader.old)) (how ended) (P.past peer.new) (P.taken peer.new)) }
    ensures front { OnErr result (HasBegun (lives_of live.now) (M.settings machine.old) (Acts (beginning (M.state machine.old) (untalked (P.past peer.old) (P.taken peer.old) (P.answers peer.old)) (script_of reader.old))) (P.past peer.new) (P.taken peer.new)) }
    ensures write_fault { IsErrOf result WriteFault → Rose (P.write_faults peer.old) (P.write_faults peer.new) }
    ensures read_fault { IsErrOf result ReadFault → Rose (P.read_faults peer.old) (P.read_faults peer.new) }
    ensures writes { P.write_faults peer.old ≤ P.write_faults peer.new }
    ensures reads { P.read_faults peer.old ≤ P.read_faults peer.new }
{
    let mut trail = Trail::new(alloc);
    let mut talk = Talk::new(alloc);
    match play(alloc, machine, reader, live, &mut trail, &mut talk, peer) {
        Ok(ended) => Ok(ended),
        Err(Stop::Fault(error)) => Err(error),
        Err(Stop::End) => {
            say_where(b"answers end at ask ", &mut talk, peer)?;
            Ok(Ended::AnswersEnd)
        }
        Err(Stop::Bad) => {
            say_where(b"answers bad at ask ", &mut talk, peer)?;
            Ok(Ended::AnswersBad)
        }
    }
}
