//! Scripts are run one after another, each over the drivers of the program as they are at first.
ghost use Rattle.std.specs.Prelude.{◌≡◌, ◌≤◌, ◌∷◌, ◌++◌, [], ℕ, List, IfOk, OnOk, length};
ghost use Rattle.pnp_labels.specs.Texts.{label_line};
ghost use Rattle.pnp_model.specs.Runs.{opening};
ghost use Rattle.start_sequence.specs.Begins.{settings_of};
ghost use Rattle.notify_front.specs.Desks.{IsAtStart, opening_desk, front_of, told_of};
ghost use Rattle.notify_front.specs.Fronts.{IsFrontQuiet};
ghost use Rattle.pnp_machine.specs.Managers.{settings};
ghost use Rattle.pnp_cli.specs.Racks.{program_rack};
ghost use Rattle.script_play.specs.Playing.{Playing, Begins, Played};
ghost use Rattle.explore_report.specs.Expectations.{HasSeen};
ghost use Rattle.explore_cli.specs.Playing.{Shows, SawPlayed, SawEnded};

use device_ids::WantOfMemory;
use driver_rack::{Drivers, Rack};
use explore_report::{Expected, Runs, Seen};
use inf_reader::Inf;
use notify_front::Front;
use pnp_cli::{ProgramDriver, program_drivers};
use pnp_labels::Label;
use pnp_machine::Manager;
use script_play::{Happened, Play};
use std::alloc::Global;

/// A label is looked at, and then let go.
fn see(seen: &mut Seen, expected: &Expected, label: Label) -> Result<(), WantOfMemory>
    requires { (lines : List (List ℕ)) × HasSeen expected.now lines seen.old }
    ensures { OnOk result ((lines : List (List ℕ)) → HasSeen expected.now lines seen.old → HasSeen expected.now (lines ++ label_line label ∷ []) seen.new) }
{
    let looked = seen.see(expected, &label);
    drop(label);
    looked
}

/// The same of what happened.
fn see_event(seen: &mut Seen, expected: &Expected, happened: Happened) -> Result<(), WantOfMemory>
    requires { (lines : List (List ℕ)) × HasSeen expected.now lines seen.old }
    ensures { OnOk result ((lines : List (List ℕ)) → HasSeen expected.now lines seen.old → HasSeen expected.now (lines ++ label_line happened.label ∷ []) seen.new) }
{
    let Happened { label, said } = happened;
    drop(said);
    see(seen, expected, label)
}

/// All that follows by itself is looked at.
fn see_steps<R: Drivers>(
    play: &mut Play<R>,
    seen: &mut Seen,
    expected: &Expected,
) -> Result<(), WantOfMemory>
    requires { (lines : List (List ℕ)) × HasSeen expected.now lines seen.old }
    ensures quiet { OnOk result (IsFrontQuiet (told_of play.new.desk) (front_of play.new.desk)) }
    ensures reading { OnOk result (play.new.reading ≡ play.old.reading) }
    ensures settings { OnOk result (told_of play.new.desk ≡ told_of play.old.desk) }
    ensures saw { OnOk result ((start : Playing) → SawPlayed start expected.now play.old seen.old → SawPlayed start expected.now play.new seen.new) }
    ensures seen { OnOk result ((lines : List (List ℕ)) × HasSeen expected.now lines seen.new) }
{
    'steps: loop {
        match play.step()? {
            Some(label) => see(seen, expected, label)?,
            None => return Ok(()),
        }
    }
}

/// All events of the script happen, and all labels are looked at.
fn see_all<R: Drivers>(
    play: &mut Play<R>,
    seen: &mut Seen,
    expected: &Expected,
) -> Result<(), WantOfMemory>
    requires { (lines : List (List ℕ)) × HasSeen expected.now lines seen.old }
    ensures settings { OnOk result (told_of play.new.desk ≡ told_of play.old.desk) }
    ensures saw { OnOk result ((start : Playing) → SawPlayed start expected.now play.old seen.old → SawEnded start expected.now play.new seen.new) }
{
    'events: loop {
        see_steps(play, seen, expected)?;
        match play.event()? {
            Some(happened) => see_event(seen, expected, happened)?,
            None => return Ok(()),
        }
    }
}

/// The drivers of the program as they are at first.
fn first_rack(alloc: Global) -> Result<Rack<ProgramDriver>, WantOfMemory>
    ensures { IfOk result (λ rack. rack ≡ program_rack) }
{
    Rack::make(alloc, program_drivers(alloc)?)
}

/// A run that is put on one script after another.
#[derive(Drop)]
pub(crate) struct Player {
    alloc: Global,
    play: Play<Rack<ProgramDriver>>,
}

impl Player {
    /// A run over a manager to which nothing happened.
    fn over(alloc: Global, manager: Manager<Rack<ProgramDriver>>) -> Result<Player, WantOfMemory>
        requires { IsAtStart manager }
        ensures { IfOk result (λ player. told_of player.play.desk ≡ settings manager) }
    {
        let front = Front::new(alloc, manager);
        match Play::new(alloc, front, b"") {
            Ok(play) => Ok(Player { alloc, play }),
            Err(error) => Err(error),
        }
    }

    /// Runs with these INFs and this budget. Conditions: at most 64 INFs, and a budget of at most 1,000,000.
    pub(crate) fn new(alloc: Global, infs: Vec<Inf>, budget: u64) -> Result<Player, WantOfMemory>
        requires infs { length infs.items ≤ 64 }
        requires budget { budget ≤ 1000000 }
        ensures { IfOk result (λ player. told_of player.play.desk ≡ settings_of infs.items budget) }
    {
        let rack = first_rack(alloc)?;
        match Manager::new(alloc, infs, rack, budget) {
            Ok(manager) => Player::over(alloc, manager),
            Err(error) => Err(error),
        }
    }

    /// The run is put on a script, over the drivers of the program as they are at first.
    fn restart(&mut self, script: &[u8]) -> Result<(), WantOfMemory>
        requires { length script.now ≤ 16777216 }
        ensures begins { OnOk result (Begins (opening_desk (record self.old.play.desk.manager { events = 0; state = opening program_rack })) script.now self.new.play) }
        ensures none { OnOk result (Played self.new.play [] self.new.play) }
    {
        let mut rack = first_rack(self.alloc)?;
        self.play.restart(&mut rack, script)
    }
}

impl Runs for Player {
    ghost use Rattle.notify_front.specs.Desks.{told_of};
    ghost use Rattle.explore_cli.specs.Playing.{Shows};

    ghost shows = { λ player. Shows (told_of player.play.desk) };

    fn run(
        &mut self,
        script: &[u8],
        expected: &Expected,
        seen: &mut Seen,
    ) -> Result<Vec<u8>, WantOfMemory> {
        self.restart(script)?;
        see_all(&mut self.play, seen, expected)?;
        self.play.ending()
    }

    ghost use Rattle.explore_cli.specs.Laws.{one_run};

    ghost one = { λ player. one_run (told_of player.play.desk) };
}
