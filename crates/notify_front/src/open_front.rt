ghost use Rattle.std.specs.Prelude.{◌≡◌, ◌<◌, ◌^◌, IfOk, IfSome, OnOk, OnErr, Some, option_map};
ghost use Rattle.driver_rack.specs.Rows.{name_in};
ghost use Rattle.free_model.specs.Frees.{with_rack};
ghost use Rattle.free_model.specs.Shapes.{faces};
ghost use Rattle.pnp_laws.specs.Stacks.{IsNamed};
ghost use Rattle.pnp_machine.specs.Machines.{HasFewIds};
ghost use Rattle.pnp_machine.specs.Queries.{query_of};
ghost use Rattle.pnp_model.specs.Cores.{node_at};
ghost use Rattle.pnp_model.specs.Endings.{ending, joined};
ghost use Rattle.notify_front.specs.Fronts.{IsFrontQuiet, front_happens};
ghost use Rattle.notify_front.specs.Desks.{IsFrontDone, IfFrontQuiet, FrontMoves, front_of, machine_events, opening_desk, told_of};
ghost use Rattle.notify_front.specs.Queries.{front_query};

use crate::desk::Desk;
use device_ids::{Text, WantOfMemory};
use driver_rack::Drivers;
use pnp_labels::{Event, Label};
use pnp_machine::{Manager, Moved, Query};
use std::alloc::Global;
use std::marker::Model;

/// A front whose drivers may be exchanged for others of the same kinds and names. It does what a `Front` does; but what leads to it is
/// no one run over one rack, so it promises each step and event alone. This project's own: a check of traces asks drivers that answer
/// as a line says. A contract sees the manager, who is registered and what is at hand.
pub struct OpenFront<R: Drivers> {
    desk: Desk<R>,
}

impl<R: Drivers> Drop for OpenFront<R> {
    fn drop(self) {
        let OpenFront { desk: _ } = self;
    }
}

impl<R: Drivers> Model for OpenFront<R> {
    ghost use Rattle.notify_front.specs.Desks.{Desk};
    ghost use Rattle.notify_front.specs.Hands.{Fits};

    ghost Value = { Desk };

    ghost view = { λ f. f.desk };

    ghost invariant = { λ f. Fits f.desk.manager.state f.desk.hand };
}

impl<R: Drivers> OpenFront<R> {
    /// The front over a manager, without registrations. It takes no memory.
    pub fn new(alloc: Global, manager: Manager<R>) -> OpenFront<R>
        ensures { result ≡ opening_desk manager }
    {
        OpenFront {
            desk: Desk::new(alloc, manager),
        }
    }

    /// Another rack takes the place of the drivers, which are handed back. Condition: kind and name of each driver, by number, are those
    /// of the driver whose place it takes; their books may differ. It takes no memory. Cost: constant.
    pub fn swap_rack(&mut self, rack: &mut R)
        requires faces { faces (R.rows rack.old) ≡ faces self.old.manager.state.core.rack }
        ensures given { self.new ≡ record self.old { manager = record self.old.manager { state = with_rack (R.rows rack.old) self.old.manager.state } } }
        ensures back { R.rows rack.new ≡ self.old.manager.state.core.rack }
    {
        self.desk.swap_rack(rack);
    }

    /// An event happens, at a quiet front, as `Front::apply` says. Conditions, cost and what holds after want of memory: those of that call.
    pub fn apply(&mut self, event: Event) -> Result<Label, WantOfMemory>
        requires quiet { IsFrontQuiet (told_of self.old) (front_of self.old) }
        requires ids { HasFewIds event }
        requires events { self.old.manager.events < 2 ^ 24 }
        ensures done { IfOk result (λ label. IsFrontDone (front_happens (front_of self.old) event) label (front_of self.new)) }
        ensures settings { told_of self.new ≡ told_of self.old }
        ensures count { OnOk result (self.new.manager.events ≡ machine_events event self.old.manager.events) }
        ensures err { OnErr result (self.new ≡ self.old) }
    {
        self.desk.apply(event)
    }

    /// The next step, over the drivers that are there, as `Front::step` says. Quiet comes exactly where no step is next. After want of memory
    /// all is as before, and no driver was asked. Cost: as `Front::step`.
    pub fn step(&mut self) -> Result<Moved, WantOfMemory>
        ensures moves { IfOk result (λ moved. FrontMoves (told_of self.old) (front_of self.old) moved (front_of self.new)) }
        ensures same { self.new.manager ≡ record self.old.manager { state = self.new.manager.state } }
        ensures err { OnErr result (self.new ≡ self.old) }
    {
        self.desk.step()
    }

    /// Whether no step is next.
    pub fn is_quiet(&self) -> bool
        ensures { IfFrontQuiet result (told_of self.now) (front_of self.now) }
    {
        self.desk.is_quiet()
    }

    /// What the next step asks, as `Front::query` says. It takes no memory.
    pub fn query(&self) -> Option<Query<'_>>
        ensures query { option_map query_of result ≡ front_query (front_of self.now) }
        ensures node { IfSome result (λ query. node_at query.node.now.serial self.now.manager.state.core.nodes ≡ Some query.node.now) }
        ensures named { IfSome result (λ query. IsNamed self.now.manager.state.core.rack query.driver) }
    {
        self.desk.query()
    }

    /// The name of a driver, by its number, as it was given; none exactly where the number names no driver with a name. It takes no memory.
    pub fn driver_name(&self, driver: u32) -> Option<&Text>
        ensures { option_map (λ text. text.now) result ≡ name_in self.now.manager.state.core.rack driver }
    {
        self.desk.manager.driver_name(driver)
    }

    /// The end of the output, which is the manager's.
    pub fn ending(&self, alloc: Global) -> Result<Vec<u8>, WantOfMemory>
        ensures { IfOk result (λ text. text.items ≡ joined (ending self.now.manager.state)) }
    {
        self.desk.manager.ending(alloc)
    }
}
