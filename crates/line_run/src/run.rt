ghost use Rattle.std.specs.Prelude.{◌≡◌, ◌<◌, ◌^◌, true, IfOk, IfSome, OnErr, Ok, Some, None};
ghost use Rattle.pnp_model.specs.Endings.{ending, joined};
ghost use Rattle.pnp_model.specs.Machine.{IsQuiet};
ghost use Rattle.free_run.specs.FreeRuns.{settings, HasFewIds, IfQuiet};
ghost use Rattle.line_run.specs.Lines.{Tries};

use crate::ahead::{Ahead, go_ahead, take_ahead};
use crate::telling::try_ask;
use device_ids::WantOfMemory;
use free_run::FreeRun;
use pnp_labels::Event;
use std::alloc::Global;
use std::marker::Model;

/// A run of the machine whatever its drivers answer, told by its lines: each is taken or not. A step that asks nobody is decided
/// by no line, and neither is an event: it is made, and kept with its label until its line comes. A contract sees the run before it.
pub struct LineRun {
    run: FreeRun,
    ahead: Ahead,
}

impl Drop for LineRun {
    fn drop(self) {
        let LineRun { run: _, ahead: _ } = self;
    }
}

impl Model for LineRun {
    ghost use Rattle.line_run.specs.Lines.{Lines, IsAhead, offered_by, seen};

    ghost Value = { Lines };

    ghost view = { λ r. record { run = seen r.run r.ahead; offered = offered_by r.ahead } };

    ghost invariant = { λ r. IsAhead r.run r.ahead };
}

impl LineRun {
    /// A run that did nothing ahead of its lines.
    pub fn new(run: FreeRun) -> LineRun
        ensures { result ≡ record { run = run; offered = None } }
    {
        LineRun {
            run,
            ahead: Ahead::Nothing,
        }
    }

    /// Whether no step is next.
    pub fn is_quiet(&self) -> bool
        ensures { IfQuiet result (settings self.now.run) self.now.run.state }
    {
        match &self.ahead {
            Ahead::Nothing => self.run.is_quiet(),
            Ahead::Step { .. } => false,
            Ahead::Event { .. } => true,
        }
    }

    /// Whether a line, with its LF, is allowed next as the line of a label: that of the next step, whatever the driver answers that it
    /// asks; or, where no step is next, that of the event. After true the run has gone on, after false it is as before. The event is
    /// looked at exactly where no step is next; it is the next one of the script, so where the line of one was not told yet it is that
    /// one again. Conditions: the event has at most 64 IDs of each sort, and fewer than 2^24 events happened before. After want of memory
    /// the run is as before. Cost: that of the step or of the event once, however many lines are tried; and for each line its length.
    pub fn try_line(
        &mut self,
        alloc: Global,
        event: Option<Event>,
        line: &[u8],
    ) -> Result<bool, WantOfMemory>
        requires same { IfSome self.old.offered (λ own. event ≡ Some own) }
        requires ids { IfSome event HasFewIds }
        requires events { self.old.run.events < 2 ^ 24 }
        ensures tried { IfOk result (λ taken. Tries taken self.old.run event line.now self.new.run) }
        ensures offered { IfSome self.new.offered (λ own. event ≡ Some own) }
        ensures told { result ≡ Ok true → self.new.offered ≡ None }
        ensures err { OnErr result (self.new.run ≡ self.old.run) }
    {
        if let Ahead::Nothing = &self.ahead {
            if self.run.query().is_some() {
                return try_ask(alloc, &mut self.run, line);
            }
            self.ahead = go_ahead(&mut self.run, event)?;
            return take_ahead(alloc, &mut self.ahead, line);
        }
        take_ahead(alloc, &mut self.ahead, line)
    }

    /// The end of the output, which is due where no step is next: the tree, what is held, the requests that are outstanding, and the
    /// handles that are open. Conditions: no step is next, and no event was looked at whose line was not told. Cost: as
    /// `Manager::ending`.
    pub fn ending(&self, alloc: Global) -> Result<Vec<u8>, WantOfMemory>
        requires quiet { IsQuiet (settings self.now.run) self.now.run.state }
        requires offered { self.now.offered ≡ None }
        ensures { IfOk result (λ text. text.items ≡ joined (ending self.now.run.state)) }
    {
        self.run.ending(alloc)
    }
}
