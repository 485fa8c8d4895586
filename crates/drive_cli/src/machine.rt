ghost use Rattle.std.specs.Prelude.{◌≡◌, ◌++◌, IfOk, OnOk, Some, map};
ghost use Rattle.pnp_labels.specs.Texts.{after_spaces, res_text};
ghost use Rattle.live_model.specs.Lived.{IsLived};
ghost use Rattle.live_model.specs.Notes.{ask_words, held_by, may_pend, what_text};
ghost use Rattle.free_run.specs.FreeRuns.{settings};

use device_ids::{Text, WantOfMemory};
use devnode_tree::Node;
use free_run::FreeRun;
use live_run::{LiveAsk, LiveDrivers, Machine, ask_words};
use pnp_labels::{Answer, AskWhat, Event, Label, Minor, minor_text, push_res};
use pnp_machine::Query;
use resource_reqs::ResList;
use std::alloc::Global;
use std::marker::Model;

/// The machine of the program. Its state is, but for books, one of a run of the machine whatever its drivers answer.
pub(crate) struct ProgramMachine {
    run: FreeRun,
}

impl Drop for ProgramMachine {
    fn drop(self) {
        let ProgramMachine { run: _ } = self;
    }
}

impl Model for ProgramMachine {
    ghost use Rattle.free_run.specs.FreeRuns.{Free, settings};
    ghost use Rattle.live_model.specs.Lived.{IsLived};

    ghost Value = { Free };

    ghost view = { λ m. m.run };

    ghost invariant = { λ m. IsLived (settings m.run) m.run.state };
}

/// Appends the resources that a device holds, each behind a blank.
fn push_held(words: &mut Vec<u8>, held: &ResList) -> Result<(), WantOfMemory>
    ensures { OnOk result (words.new.items ≡ words.old.items ++ after_spaces (map res_text held.now)) }
{
    for at in 0..held.len() {
        words.push(b' ')?;
        push_res(words, held.get(at))?;
    }
    Ok(())
}

/// The word of what is asked.
fn what_text(what: AskWhat) -> &'static [u8]
    ensures { result.now ≡ what_text what }
{
    match what {
        AskWhat::Add => b"add",
        AskWhat::Irp(minor) => minor_text(minor),
    }
}

/// Appends what a request tells of a device: a start tells what it holds.
fn push_told(words: &mut Vec<u8>, minor: Minor, node: &Node) -> Result<(), WantOfMemory>
    ensures { OnOk result (words.new.items ≡ words.old.items ++ after_spaces (map res_text (held_by (AskWhat.Irp minor) (Some node.now)))) }
{
    match minor {
        Minor::Start => push_held(words, &node.holds),
        _ => Ok(()),
    }
}

/// The words of a query.
fn query_words(alloc: Global, query: &Query<'_>, driver: &Text) -> Result<Vec<u8>, WantOfMemory>
    ensures { IfOk result (λ words. words.items ≡ ask_words (what_text query.now.what) query.now.node.now.path driver.now (map res_text (held_by query.now.what (Some query.now.node.now)))) }
{
    let node = query.node;
    let mut words = ask_words(alloc, what_text(query.what), node.path.bytes(), driver)?;
    match query.what {
        AskWhat::Add => Ok(words),
        AskWhat::Irp(minor) => {
            push_told(&mut words, minor, node)?;
            Ok(words)
        }
    }
}

/// Whether the answer may be that it is pending: AddDevice is not pended.
fn may_pend(what: AskWhat) -> bool
    ensures { result ≡ may_pend what }
{
    match what {
        AskWhat::Add => false,
        AskWhat::Irp(_) => true,
    }
}

/// The ask of a query of the driver of a name.
fn ask_of(alloc: Global, query: &Query<'_>, driver: &Text) -> Result<LiveAsk, WantOfMemory>
    ensures words { IfOk result (λ ask. ask.words.items ≡ ask_words (what_text query.now.what) query.now.node.now.path driver.now (map res_text (held_by query.now.what (Some query.now.node.now)))) }
    ensures driver { IfOk result (λ ask. ask.driver ≡ driver.now) }
    ensures may_pend { IfOk result (λ ask. ask.may_pend ≡ may_pend query.now.what) }
{
    let words = query_words(alloc, query, driver)?;
    let driver = driver.copy(alloc)?;
    let may_pend = may_pend(query.what);
    Ok(LiveAsk {
        words,
        driver,
        may_pend,
    })
}

impl ProgramMachine {
    /// The machine of a run. Condition: its state is one of a live run.
    pub(crate) fn new(run: FreeRun) -> ProgramMachine
        requires { IsLived (settings run) run.state }
        ensures { result ≡ run }
    {
        ProgramMachine { run }
    }
}

impl Machine for ProgramMachine {
    ghost use Rattle.free_run.specs.FreeRuns.{settings};

    ghost settings = { λ m. settings m };

    ghost state = { λ m. m.state };

    ghost events = { λ m. m.events };

    #[tactic(auto, using(crate::proofs::Asking::nobody, crate::proofs::Asking::unnamed, crate::proofs::Asking::another, crate::proofs::Asking::somebody))]
    fn live_ask(&self, alloc: Global, live: &LiveDrivers) -> Result<Option<LiveAsk>, WantOfMemory> {
        let Some(query) = self.run.query() else {
            return Ok(None);
        };
        // a driver that is asked has a name
        let Some(driver) = self.run.driver_name(query.driver) else {
            return Ok(None);
        };
        if !live.has(driver) {
            return Ok(None);
        }
        let ask = ask_of(alloc, &query, driver)?;
        Ok(Some(ask))
    }

    fn step_by(&mut self, answer: Answer) -> Result<Option<Label>, WantOfMemory> {
        self.run.step(answer)
    }

    fn step_own(&mut self) -> Result<Option<Label>, WantOfMemory> {
        self.run.step_own()
    }

    fn apply(&mut self, event: Event) -> Result<Label, WantOfMemory> {
        self.run.apply(event)
    }

    fn ending(&self, alloc: Global) -> Result<Vec<u8>, WantOfMemory> {
        self.run.ending(alloc)
    }
}
