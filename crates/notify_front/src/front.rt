ghost use Rattle.std.specs.Prelude.{◌≡◌, ◌<◌, ◌^◌, ◌++◌, IfOk, IfSome, OnOk, OnErr, Some, option_map};
ghost use Rattle.pnp_laws.specs.Printed.{TreeIsPrinted};
ghost use Rattle.pnp_laws.specs.Stacks.{IsNamed};
ghost use Rattle.pnp_machine.specs.Machines.{HasFewIds};
ghost use Rattle.pnp_machine.specs.Queries.{query_of};
ghost use Rattle.pnp_model.specs.Cores.{node_at};
ghost use Rattle.pnp_model.specs.Endings.{ending, joined};
ghost use Rattle.pnp_model.specs.Runs.{opening};
ghost use Rattle.notify_front.specs.Fronts.{IsFrontQuiet, front_happens};
ghost use Rattle.notify_front.specs.Desks.{IsAtStart, IsFrontDone, IsOfFrontRun, IfFrontQuiet, FrontLawsOf, FrontMoves, front_of, machine_events, opening_desk, told_of};
ghost use Rattle.notify_front.specs.Queries.{front_query};

use crate::desk::Desk;
use device_ids::WantOfMemory;
use devnode_tree::Tree;
use driver_rack::Drivers;
use pnp_labels::{Event, Label};
use pnp_machine::{EndParts, Manager, Moved, Query, needs_are_few};
use std::alloc::Global;
use std::marker::Model;

/// The front over a manager: clients are asked before a removal and hear of its end, after the driver kit's notices of a target
/// device; the order and the rules are this project's own. A contract sees the manager, who is registered and what is at hand.
pub struct Front<R: Drivers> {
    desk: Desk<R>,
}

impl<R: Drivers> Drop for Front<R> {
    fn drop(self) {
        let Front { desk: _ } = self;
    }
}

impl<R: Drivers> Model for Front<R> {
    ghost use Rattle.notify_front.specs.Desks.{Desk, front_of, told_of, IsOfFrontRun};

    ghost Value = { Desk };

    ghost view = { λ f. f.desk };

    ghost invariant = { λ f. IsOfFrontRun (told_of f.desk) f.desk.manager.events (front_of f.desk) };
}

impl<R: Drivers> Front<R> {
    /// The front over a manager, without registrations. It takes no memory. Condition: nothing has happened to the manager, and it
    /// has made no step.
    pub fn new(alloc: Global, manager: Manager<R>) -> Front<R>
        requires { IsAtStart manager }
        ensures { result ≡ opening_desk manager }
    {
        Front {
            desk: Desk::new(alloc, manager),
        }
    }

    /// As a new one over a new manager of the same INFs and budget and another rack, whose place the drivers that were there take. After
    /// want of memory front and rack are as before. Cost: that of letting go what the machine held.
    pub fn restart(&mut self, rack: &mut R) -> Result<(), WantOfMemory>
        ensures opens { OnOk result (self.new ≡ opening_desk (record self.old.manager { events = 0; state = opening (R.rows rack.old) })) }
        ensures back { OnOk result (R.rows rack.new ≡ self.old.manager.state.core.rack) }
        ensures err { OnErr result (self.new ≡ self.old) }
        ensures kept { OnErr result (R.rows rack.new ≡ R.rows rack.old) }
    {
        self.desk.restart(rack)
    }

    /// An event happens, at a quiet front: exactly what the front's definition says. Those of clients change the registrations
    /// alone, all others are the manager's. Conditions: the front is quiet, the event has at most 64 IDs of each sort, and the
    /// manager took fewer than 2^24 events before. After want of memory the front is as before. Cost: that of the manager's
    /// call; for an event of a client the look-up by path, and the number of registrations.
    pub fn apply(&mut self, event: Event) -> Result<Label, WantOfMemory>
        requires quiet { IsFrontQuiet (told_of self.old) (front_of self.old) }
        requires ids { HasFewIds event }
        requires events { self.old.manager.events < 2 ^ 24 }
        ensures done { IfOk result (λ label. IsFrontDone (front_happens (front_of self.old) event) label (front_of self.new)) }
        ensures settings { told_of self.new ≡ told_of self.old }
        ensures count { OnOk result (self.new.manager.events ≡ machine_events event self.old.manager.events) }
        ensures run { OnOk result (IsOfFrontRun (told_of self.new) self.new.manager.events (front_of self.new)) }
        ensures err { OnErr result (self.new ≡ self.old) }
    {
        needs_are_few(&event);
        self.desk.apply(event)
    }

    /// The next step of the front, exactly as its definition says: notices of an operation that is due or has ended come before
    /// any step of the machine. Quiet comes exactly where no step is next, and then nothing changes. After want of memory the
    /// front, the manager and every book are as before, no driver was asked, and the same step can be tried again. Cost: where
    /// nobody is registered that of the manager's step; the first notice of an operation costs what depends on its device, and
    /// the number of clients on these.
    #[inline(always)]
    pub fn step(&mut self) -> Result<Moved, WantOfMemory>
        ensures moves { IfOk result (λ moved. FrontMoves (told_of self.old) (front_of self.old) moved (front_of self.new)) }
        ensures settings { told_of self.new ≡ told_of self.old }
        ensures events { self.new.manager.events ≡ self.old.manager.events }
        ensures laws { IfOk result (λ moved. FrontLawsOf (told_of self.old) (front_of self.old) (front_of self.new)) }
        ensures run { IsOfFrontRun (told_of self.new) self.new.manager.events (front_of self.new) }
        ensures err { OnErr result (self.new ≡ self.old) }
    {
        self.desk.step()
    }

    /// Whether no step is next.
    pub fn is_quiet(&self) -> bool
        ensures { IfFrontQuiet result (told_of self.now) (front_of self.now) }
    {
        self.desk.is_quiet()
    }

    /// What the next step asks, of which driver and for which device; none exactly where the next step asks nobody, as where a
    /// client is told, or none is next. It takes no memory. Cost: as `Manager::query`.
    pub fn query(&self) -> Option<Query<'_>>
        ensures query { option_map query_of result ≡ front_query (front_of self.now) }
        ensures node { IfSome result (λ query. node_at query.node.now.serial self.now.manager.state.core.nodes ≡ Some query.node.now) }
        ensures named { IfSome result (λ query. IsNamed self.now.manager.state.core.rack query.driver) }
    {
        self.desk.query()
    }

    /// The device nodes.
    pub fn tree(&self) -> &Tree
        ensures { result.now.nodes ≡ self.now.manager.state.core.nodes }
    {
        self.desk.manager.tree()
    }

    /// The end of the output, which is the manager's.
    pub fn ending(&self, alloc: Global) -> Result<Vec<u8>, WantOfMemory>
        ensures text { IfOk result (λ text. text.items ≡ joined (ending self.now.manager.state)) }
        ensures tree { TreeIsPrinted self.now.manager.state.core.nodes }
    {
        self.desk.manager.ending(alloc)
    }

    /// The same in parts: appends the first line of it, and answers the rest. It is the manager's.
    pub fn end_parts(&self, out: &mut Vec<u8>) -> Result<EndParts<'_, R>, WantOfMemory>
        ensures text { IfOk result (λ rest. out.new.items ++ rest ≡ out.old.items ++ joined (ending self.now.manager.state)) }
        ensures tree { TreeIsPrinted self.now.manager.state.core.nodes }
    {
        self.desk.manager.end_parts(out)
    }
}
