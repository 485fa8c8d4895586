//! The whole text for a script: the lines of all labels with notes, and the end of the output.
ghost use Rattle.std.specs.Prelude.{◌≡◌, ◌≤◌, ◌++◌, [], IfOk, OnOk, length};
ghost use Rattle.notify_front.specs.Desks.{IsAtStart};
ghost use Rattle.notify_front.specs.Fronts.{opening_front};
ghost use Rattle.pnp_cli.specs.Outputs.{end_text, error_line};
ghost use Rattle.pnp_cli.specs.Pieces.{line_of_bad, answer_by};
ghost use Rattle.pnp_cli.specs.Contents.{events_of};
ghost use Rattle.pnp_cli.specs.Runs.{machine};
ghost use Rattle.pnp_machine.specs.Managers.{settings};
ghost use Rattle.pnp_model.specs.Runs.{opening};
ghost use Rattle.script_play.specs.Playing.{Played};
ghost use Rattle.why_cli.specs.Explained.{IsExplanation, ExplainsPlay};

use crate::bad_line::push_bad_note;
use crate::script_lines::ScriptLines;
use crate::telling::{Telling, tell_all};
use device_ids::{TextList, WantOfMemory};
use driver_rack::Drivers;
use inf_reader::Inf;
use inf_sections::InfPlaces;
use notify_front::Front;
use pnp_cli::Status;
use pnp_labels::decimal;
use pnp_machine::Manager;
use script_play::Play;
use std::alloc::Global;
use why_facts::{Facts, Sources, copied_infs};

/// A text that is to be written, and the answer.
#[derive(Drop)]
pub struct Explained {
    pub text: Vec<u8>,
    pub status: Status,
}

/// The line that tells of a bad line.
fn bad_line(alloc: Global, line: u64) -> Result<Vec<u8>, WantOfMemory>
    ensures { IfOk result (λ text. text.items ≡ error_line line) }
{
    let mut text = Vec::from_slice(alloc, b"script error line ")?;
    text.extend_from_slice(decimal(alloc, line)?.as_bytes())?;
    text.push(b'\n')?;
    Ok(text)
}

/// Appends the line that tells of a bad line, if there is one.
fn push_bad(alloc: Global, text: &mut Vec<u8>, bad: Option<u64>) -> Result<(), WantOfMemory>
    ensures { OnOk result (text.new.items ≡ text.old.items ++ line_of_bad bad) }
{
    let Some(line) = bad else {
        return Ok(());
    };
    let line = bad_line(alloc, line)?;
    text.extend_from_slice(&line)
}

/// The answer by the number of the bad line, if there is one.
fn answer(bad: Option<u64>) -> Status
    ensures { result ≡ answer_by bad }
{
    match bad {
        None => Status::Done,
        Some(_) => Status::BadScript,
    }
}

/// All of a play is told, with notes, and then the end of the output.
fn explain_play<R: Drivers>(
    alloc: Global,
    play: &mut Play<R>,
    script: &[u8],
    telling: &mut Telling,
) -> Result<Explained, WantOfMemory>
    requires { Played play.old [] play.old }
    ensures { IfOk result (λ e. ExplainsPlay play.old e.text.items e.status) }
{
    let mut text = Vec::new(alloc);
    tell_all(alloc, play, telling, &mut text)?;
    let bad = play.bad_line();
    push_bad(alloc, &mut text, bad)?;
    push_bad_note(alloc, &mut text, script, bad)?;
    text.extend_from_slice(&play.ending()?)?;
    let status = answer(bad);
    Ok(Explained { text, status })
}

/// The same of a front over a manager to which nothing happened. The play is made here and handed on, since the checker is slow where
/// a function holds one.
fn explain_machine<R: Drivers>(
    alloc: Global,
    manager: Manager<R>,
    script: &[u8],
    telling: &mut Telling,
) -> Result<Explained, WantOfMemory>
    requires start { IsAtStart manager }
    requires small { length script.now ≤ 16777216 }
    ensures { IfOk result (λ e. IsExplanation (settings manager) (opening_front manager.state) (events_of script.now) e.text.items e.status) }
{
    let front = Front::new(alloc, manager);
    match Play::new(alloc, front, script) {
        Ok(mut play) => explain_play(alloc, &mut play, script, telling),
        Err(error) => Err(error),
    }
}

/// The same of a manager that is made of these INFs and this rack. It is made here and handed on, for the same reason.
fn explain_infs<R: Drivers>(
    alloc: Global,
    script: &[u8],
    infs: Vec<Inf>,
    budget: u64,
    rack: R,
    telling: &mut Telling,
) -> Result<Explained, WantOfMemory>
    requires infs { length infs.items ≤ 64 }
    requires budget { budget ≤ 1000000 }
    requires small { length script.now ≤ 16777216 }
    ensures { IfOk result (λ e. IsExplanation (machine infs.items budget) (opening_front (opening (R.rows rack))) (events_of script.now) e.text.items e.status) }
{
    match Manager::new(alloc, infs, rack, budget) {
        Ok(manager) => explain_machine(alloc, manager, script, telling),
        Err(error) => Err(error),
    }
}

/// The names of the INFs, copied.
fn copied_names(alloc: Global, names: &TextList) -> Result<TextList, WantOfMemory> {
    let mut copies = TextList::new(alloc);
    for at in 0..names.len() {
        copies.push(names.get(at).copy(alloc)?)?;
    }
    Ok(copies)
}

/// What notes know before anything happened.
fn first_facts(
    alloc: Global,
    infs: &[Inf],
    names: &TextList,
    places: Vec<InfPlaces>,
    budget: u64,
) -> Result<Facts, WantOfMemory> {
    let names = copied_names(alloc, names)?;
    match copied_infs(alloc, infs) {
        Ok(infs) => {
            let sources = Sources {
                infs,
                names,
                places,
            };
            Ok(Facts::new(alloc, sources, budget))
        }
        Err(error) => Err(error),
    }
}

/// The text for a script: the lines of all labels with the notes on them, and the end of the output.
pub fn explain<R: Drivers>(
    alloc: Global,
    script: &[u8],
    infs: Vec<Inf>,
    names: &TextList,
    places: Vec<InfPlaces>,
    budget: u64,
    all_lines: bool,
    rack: R,
) -> Result<Explained, WantOfMemory>
    requires infs { length infs.items ≤ 64 }
    requires budget { budget ≤ 1000000 }
    requires small { length script.now ≤ 16777216 }
    ensures { IfOk result (λ e. IsExplanation (machine infs.items budget) (opening_front (opening (R.rows rack))) (events_of script.now) e.text.items e.status) }
{
    match first_facts(alloc, &infs, names, places, budget) {
        Ok(facts) => {
            let lines = ScriptLines::new(script);
            let mut telling = Telling {
                facts,
                lines,
                all_lines,
            };
            explain_infs(alloc, script, infs, budget, rack, &mut telling)
        }
        Err(error) => Err(error),
    }
}
