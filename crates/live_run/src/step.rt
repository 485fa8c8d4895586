//! One step of a live run.
ghost use Rattle.std.specs.Prelude.{◌≡◌, ◌≤◌, IsErrOf};
ghost use Rattle.pnp_io.specs.Outside.{Rose};
ghost use Rattle.pnp_model.specs.Records.{Settings};
ghost use Rattle.live_model.specs.Lives.{Lives};
ghost use Rattle.live_model.specs.Trails.{drivers_of};
ghost use Rattle.live_run.specs.declared.stop.DriveError.TheVariants.{ReadFault, WriteFault};
ghost use Rattle.live_run.specs.Runs.{HasLooked, HasProbedAll, HasStepped, NextIs, scene};
ghost use Rattle.live_run.specs.Talks.{told};
ghost use Rattle.live_run.specs.Views.{lives_of, trail_of};

use crate::asks::ask_words;
use crate::live::LiveDrivers;
use crate::machine::Machine;
use crate::stop::Stop;
use crate::talk::Talk;
use crate::trail::Trail;
use device_ids::Text;
use live_io::Peer;
use pnp_labels::{DevState, Label};
use std::alloc::Global;

/// The label of the next step, in which a live driver answers what is heard and another one by its book; none where no step is next.
#[tactic(auto, using(crate::proofs::Faults::rose_behind))]
fn next_label<M: Machine, P: Peer>(
    alloc: Global,
    machine: &mut M,
    live: &LiveDrivers,
    talk: &mut Talk,
    peer: &mut P,
) -> Result<Option<Label>, Stop>
    ensures next { NextIs result (lives_of live.now) (M.settings machine.old) (M.state machine.old) (M.state machine.new) (told talk.old (P.past peer.old) (P.taken peer.old) (P.answers peer.old)) (told talk.new (P.past peer.new) (P.taken peer.new) (P.answers peer.new)) (P.past peer.new) (P.taken peer.new) }
    ensures same { M.settings machine.new ≡ M.settings machine.old }
    ensures events { M.events machine.new ≡ M.events machine.old }
    ensures write_fault { IsErrOf result (Stop.Fault WriteFault) → Rose (P.write_faults peer.old) (P.write_faults peer.new) }
    ensures read_fault { IsErrOf result (Stop.Fault ReadFault) → Rose (P.read_faults peer.old) (P.read_faults peer.new) }
    ensures writes { P.write_faults peer.old ≤ P.write_faults peer.new }
    ensures reads { P.read_faults peer.old ≤ P.read_faults peer.new }
{
    match machine.live_ask(alloc, live)? {
        Some(ask) => {
            let answer = talk.ask_driver(alloc, &ask.words, &ask.driver, ask.may_pend, peer)?;
            Ok(machine.step_by(answer)?)
        }
        None => Ok(machine.step_own()?),
    }
}

/// Asks each of these live drivers of a device that has come to a state whether it takes a create request, the lowest first.
#[tactic(auto, using(crate::proofs::Faults::rose_behind))]
fn probe<P: Peer>(
    alloc: Global,
    path: &Text,
    state: DevState,
    trail: &Trail,
    talk: &mut Talk,
    peer: &mut P,
) -> Result<(), Stop>
    ensures probed { (lives : Lives) (settings : Settings) → HasProbedAll result lives settings path.now state (drivers_of path.now (trail_of trail.now)) (told talk.old (P.past peer.old) (P.taken peer.old) (P.answers peer.old)) (told talk.new (P.past peer.new) (P.taken peer.new) (P.answers peer.new)) (P.past peer.new) (P.taken peer.new) }
    ensures write_fault { IsErrOf result (Stop.Fault WriteFault) → Rose (P.write_faults peer.old) (P.write_faults peer.new) }
    ensures read_fault { IsErrOf result (Stop.Fault ReadFault) → Rose (P.read_faults peer.old) (P.read_faults peer.new) }
    ensures writes { P.write_faults peer.old ≤ P.write_faults peer.new }
    ensures reads { P.read_faults peer.old ≤ P.read_faults peer.new }
{
    let drivers = trail.drivers_of(alloc, path)?;
    for driver in &drivers {
        let words = ask_words(alloc, b"probe", path.bytes(), driver)?;
        talk.probe_driver(alloc, &words, driver, state, peer)?;
    }
    Ok(())
}

/// What is behind a line: where it is one of a state, and live drivers are probed, those of the device are.
#[tactic(auto, using(crate::proofs::Faults::rose_behind))]
fn look_behind<P: Peer>(
    alloc: Global,
    label: &Label,
    live: &LiveDrivers,
    trail: &Trail,
    talk: &mut Talk,
    peer: &mut P,
) -> Result<(), Stop>
    ensures behind { (settings : Settings) → HasLooked result (lives_of live.now) settings label.now (trail_of trail.now) (told talk.old (P.past peer.old) (P.taken peer.old) (P.answers peer.old)) (told talk.new (P.past peer.new) (P.taken peer.new) (P.answers peer.new)) (P.past peer.new) (P.taken peer.new) }
    ensures write_fault { IsErrOf result (Stop.Fault WriteFault) → Rose (P.write_faults peer.old) (P.write_faults peer.new) }
    ensures read_fault { IsErrOf result (Stop.Fault ReadFault) → Rose (P.read_faults peer.old) (P.read_faults peer.new) }
    ensures writes { P.write_faults peer.old ≤ P.write_faults peer.new }
    ensures reads { P.read_faults peer.old ≤ P.read_faults peer.new }
{
    if !live.are_probed() {
        return Ok(());
    }
    match label {
        Label::State { path, state } => probe(alloc, path, *state, trail, talk, peer),
        _ => Ok(()),
    }
}

/// Makes the next step, and answers whether there was one: its line is to be said, and, where live drivers are probed, they are behind a
/// line of a state.
#[tactic(auto, using(crate::proofs::Faults::rose_behind))]
pub(crate) fn take_step<M: Machine, P: Peer>(
    alloc: Global,
    machine: &mut M,
    live: &LiveDrivers,
    trail: &mut Trail,
    talk: &mut Talk,
    peer: &mut P,
) -> Result<bool, Stop>
    ensures stepped { HasStepped result (lives_of live.now) (M.settings machine.old) (scene (M.state machine.old) (trail_of trail.old) (told talk.old (P.past peer.old) (P.taken peer.old) (P.answers peer.old))) (scene (M.state machine.new) (trail_of trail.new) (told talk.new (P.past peer.new) (P.taken peer.new) (P.answers peer.new))) (P.past peer.new) (P.taken peer.new) }
    ensures same { M.settings machine.new ≡ M.settings machine.old }
    ensures events { M.events machine.new ≡ M.events machine.old }
    ensures write_fault { IsErrOf result (Stop.Fault WriteFault) → Rose (P.write_faults peer.old) (P.write_faults peer.new) }
    ensures read_fault { IsErrOf result (Stop.Fault ReadFault) → Rose (P.read_faults peer.old) (P.read_faults peer.new) }
    ensures writes { P.write_faults peer.old ≤ P.write_faults peer.new }
    ensures reads { P.read_faults peer.old ≤ P.read_faults peer.new }
{
    let Some(label) = next_label(alloc, machine, live, talk, peer)? else {
        return Ok(false);
    };
    talk.add_label(&label, peer)?;
    trail.follow(alloc, live, &label)?;
    look_behind(alloc, &label, live, trail, talk, peer)?;
    Ok(true)
}
