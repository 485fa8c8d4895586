ghost use Rattle.std.specs.Prelude.{◌≡◌, ◌≤◌, ◌^◌, [], List, IfOk, OnOk, OnErr, length};
ghost use Rattle.notify_front.specs.Desks.{front_of, opening_desk, told_of};
ghost use Rattle.notify_front.specs.Fronts.{IsFrontQuiet};
ghost use Rattle.pnp_labels.specs.declared.label.Label.{Label};
ghost use Rattle.pnp_model.specs.Endings.{ending, joined};
ghost use Rattle.pnp_model.specs.Runs.{opening};
ghost use Rattle.pnp_cli.specs.Turns.{Awaits};
ghost use Rattle.script_play.specs.Playing.{Playing, Begins, Played, Stepped, Came, StepTold, EventTold};

use crate::said::{Said, said_of};
use device_ids::WantOfMemory;
use devnode_tree::Tree;
use driver_rack::Drivers;
use notify_front::Front;
use pnp_labels::Label;
use pnp_machine::Moved;
use script_reader::{Next, Reader};
use std::alloc::Global;
use std::marker::Model;

/// The label of an event, and what the event said beside it. This project's own.
#[derive(Drop)]
pub struct Happened {
    pub label: Label,
    pub said: Said,
}

/// A run of a script that is there whole: a front, and a reader to which all of it was fed. A contract sees the front, what is left
/// of the script, and the number of its bad line, once that was met. This project's own.
#[derive(Drop)]
pub struct Play<R: Drivers> {
    alloc: Global,
    front: Front<R>,
    reader: Reader,
    bad: Option<u64>,
}

impl<R: Drivers> Model for Play<R> {
    ghost use Rattle.script_play.specs.Playing.{Playing, IsPlaying};

    ghost Value = { Playing };

    ghost view = { λ p. record { desk = p.front; reading = p.reader; bad = p.bad } };

    ghost invariant = { λ p. IsPlaying (record { desk = p.front; reading = p.reader; bad = p.bad }) };
}

impl<R: Drivers> Play<R> {
    /// A script is to happen to a front. Conditions: nothing is next, the machine took no event before, and the script has at most
    /// 16,777,216 bytes. Cost: its bytes.
    pub fn new(alloc: Global, front: Front<R>, script: &[u8]) -> Result<Play<R>, WantOfMemory>
        requires awaits { Awaits front }
        requires events { front.manager.events ≡ 0 }
        requires small { length script.now ≤ 2 ^ 24 }
        ensures begins { IfOk result (λ play. Begins front script.now play) }
        ensures none { IfOk result (λ play. Played play [] play) }
    {
        let mut reader = Reader::new(alloc);
        reader.feed(script)?;
        reader.finish();
        Ok(Play {
            alloc,
            front,
            reader,
            bad: None,
        })
    }

    /// Another script is to happen, to the front as it was at first: it restarts over another rack, whose place the drivers that were there
    /// take. Condition: the script has at most 16,777,216 bytes. After want of memory play and rack are as before. Cost: the bytes of the
    /// script, and that of the front's restart.
    pub fn restart(&mut self, rack: &mut R, script: &[u8]) -> Result<(), WantOfMemory>
        requires { length script.now ≤ 2 ^ 24 }
        ensures begins { OnOk result (Begins (opening_desk (record self.old.desk.manager { events = 0; state = opening (R.rows rack.old) })) script.now self.new) }
        ensures none { OnOk result (Played self.new [] self.new) }
        ensures back { OnOk result (R.rows rack.new ≡ self.old.desk.manager.state.core.rack) }
        ensures err { OnErr result (self.new ≡ self.old) }
        ensures kept { OnErr result (R.rows rack.new ≡ R.rows rack.old) }
    {
        let mut reader = Reader::new(self.alloc);
        reader.feed(script)?;
        reader.finish();
        self.front.restart(rack)?;
        self.reader = reader;
        self.bad = None;
        Ok(())
    }

    /// The next label of what follows by itself; none exactly where nothing is next. After want of
    /// memory all is as before. Cost: that of the front's step.
    pub fn step(&mut self) -> Result<Option<Label>, WantOfMemory>
        ensures moves { IfOk result (λ label. Stepped label self.old self.new) }
        ensures settings { OnOk result (told_of self.new.desk ≡ told_of self.old.desk) }
        ensures played { IfOk result (λ label. (start : Playing) (labels : List Label) → Played start labels self.old → StepTold start labels label self.new) }
    {
        match self.front.step()? {
            Moved::Label(label) => Ok(Some(label)),
            Moved::Quiet => Ok(None),
        }
    }

    /// The label of the script's next event; none at its end and at its bad line. Condition: nothing is next. After want of memory
    /// the play is of no more use. Cost: the bytes of the lines passed, and that of the front's call.
    pub fn event(&mut self) -> Result<Option<Happened>, WantOfMemory>
        requires { IsFrontQuiet (told_of self.old.desk) (front_of self.old.desk) }
        ensures came { IfOk result (λ happened. Came happened self.old self.new) }
        ensures settings { OnOk result (told_of self.new.desk ≡ told_of self.old.desk) }
        ensures played { IfOk result (λ happened. (start : Playing) (labels : List Label) → Played start labels self.old → EventTold start labels happened self.new) }
    {
        match self.reader.next_event()? {
            Next::Event(event) => {
                let said = said_of(self.alloc, &event)?;
                let label = self.front.apply(event)?;
                Ok(Some(Happened { label, said }))
            }
            Next::Bad { line } => {
                self.bad = Some(line);
                Ok(None)
            }
            Next::End => {
                self.bad = None;
                Ok(None)
            }
            Next::NeedMore => unreachable!(),
        }
    }

    /// The number of the script's bad line, once it was met.
    pub fn bad_line(&self) -> Option<u64>
        ensures { result ≡ self.now.bad }
    {
        self.bad
    }

    /// The device nodes as they are now.
    pub fn tree(&self) -> &Tree
        ensures { result.now.nodes ≡ self.now.desk.manager.state.core.nodes }
    {
        self.front.tree()
    }

    /// The end of the output, of the state that is there now.
    pub fn ending(&self) -> Result<Vec<u8>, WantOfMemory>
        ensures { IfOk result (λ text. text.items ≡ joined (ending self.now.desk.manager.state)) }
    {
        self.front.ending(self.alloc)
    }
}
