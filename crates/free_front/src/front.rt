ghost use Rattle.std.specs.Prelude.{◌≡◌, ◌<◌, ◌≤◌, ◌^◌, IfOk, IfSome, OnOk, OnErr, Some, length, option_map};
ghost use Rattle.pnp_model.specs.Cores.{node_at};
ghost use Rattle.pnp_model.specs.Endings.{ending, joined};
ghost use Rattle.pnp_laws.specs.Stacks.{IsNamed};
ghost use Rattle.driver_rack.specs.Rows.{name_in};
ghost use Rattle.free_model.specs.Frees.{free_opening};
ghost use Rattle.pnp_machine.specs.Machines.{HasFewIds};
ghost use Rattle.pnp_machine.specs.Queries.{query_of};
ghost use Rattle.notify_front.specs.Desks.{IfFrontQuiet, IsFrontDone, front_of, machine_events, opening_desk, told_of};
ghost use Rattle.notify_front.specs.Fronts.{IsFrontQuiet, front_happens};
ghost use Rattle.notify_front.specs.Queries.{front_query};
ghost use Rattle.free_front.specs.FreeFronts.{FrontMovesBy};

use crate::driver::FreeDriver;
use crate::racks::own_rack;
use crate::told::ToldRacks;
use device_ids::{Text, WantOfMemory};
use driver_rack::Rack;
use inf_reader::Inf;
use notify_front::OpenFront;
use pnp_labels::{Answer, DriverKind, Event, Label};
use pnp_machine::{Manager, Query};
use std::alloc::Global;
use std::marker::Model;

/// A run of what stands before the machine, with its clients, whatever the drivers answer. Beside the front it has a rack for each answer,
/// which takes the place of the front's own for a step. A contract sees the manager, who is registered and what is at hand; in the
/// manager's state a driver's book is what it was taught.
pub struct FreeFront {
    front: OpenFront<Rack<FreeDriver>>,
    told: ToldRacks,
}

impl Drop for FreeFront {
    fn drop(self) {
        let FreeFront { front: _, told: _ } = self;
    }
}

impl Model for FreeFront {
    ghost use Rattle.notify_front.specs.Desks.{Desk};
    ghost use Rattle.free_front.specs.ToldRacks.{AreTold};

    ghost Value = { Desk };

    ghost view = { λ r. r.front };

    ghost invariant = { λ r. AreTold r.front.manager.state.core.rack r.told };
}

impl FreeFront {
    /// The root alone, with a driver of each kind, by number, to which nothing was taught, in no one's name; and nobody is registered.
    /// Conditions: there are at most 64 INFs, fewer than 2^32 kinds, and the budget of a search is at most 1,000,000. Cost: the number of
    /// kinds.
    pub fn new(
        alloc: Global,
        infs: Vec<Inf>,
        kinds: &[DriverKind],
        budget: u64,
    ) -> Result<FreeFront, WantOfMemory>
        requires few { length infs.items ≤ 64 }
        requires kinds { length kinds.now < 2 ^ 32 }
        requires budget { budget ≤ 1000000 }
        ensures { IfOk result (λ front. front ≡ opening_desk (record { infs = infs.items; budget = budget; events = 0; state = free_opening kinds.now })) }
    {
        let rack = own_rack(alloc, kinds)?;
        let told = ToldRacks::make(alloc, kinds)?;
        let manager = Manager::new(alloc, infs, rack, budget)?;
        let front = OpenFront::new(alloc, manager);
        Ok(FreeFront { front, told })
    }

    /// Whether no step is next.
    pub fn is_quiet(&self) -> bool
        ensures { IfFrontQuiet result (told_of self.now) (front_of self.now) }
    {
        self.front.is_quiet()
    }

    /// An event happens, at a quiet front: exactly what the front's definition says. Conditions: the front is quiet, the event has at most 64
    /// IDs of each sort, and the manager took fewer than 2^24 events before. After want of memory all is as before. Cost: as
    /// `Front::apply`, and for a name four times the look-up.
    pub fn apply(&mut self, event: Event) -> Result<Label, WantOfMemory>
        requires quiet { IsFrontQuiet (told_of self.old) (front_of self.old) }
        requires ids { HasFewIds event }
        requires events { self.old.manager.events < 2 ^ 24 }
        ensures done { IfOk result (λ label. IsFrontDone (front_happens (front_of self.old) event) label (front_of self.new)) }
        ensures settings { told_of self.new ≡ told_of self.old }
        ensures count { OnOk result (self.new.manager.events ≡ machine_events event self.old.manager.events) }
        ensures err { OnErr result (self.new ≡ self.old) }
    {
        self.told.apply(event, &mut self.front)
    }

    /// The step where all drivers that are asked answer so, exactly as the front's definition says; none exactly where no step is next, and
    /// then nothing changes. A client answers as it registered. What drivers were taught stays. After want of memory all is as before.
    /// Cost: that of the step.
    pub fn step(&mut self, answer: Answer) -> Result<Option<Label>, WantOfMemory>
        ensures moves { IfOk result (λ label. FrontMovesBy answer (told_of self.old) (front_of self.old) label (front_of self.new)) }
        ensures same { self.new.manager ≡ record self.old.manager { state = self.new.manager.state } }
        ensures err { OnErr result (self.new ≡ self.old) }
    {
        self.told.step(answer, &mut self.front)
    }

    /// What the next step asks, of which driver and for which device, as `Front::query` says; none exactly where it asks nobody, as where a
    /// client is told, or none is next. It takes no memory. Cost: as `Front::query`.
    pub fn query(&self) -> Option<Query<'_>>
        ensures query { option_map query_of result ≡ front_query (front_of self.now) }
        ensures node { IfSome result (λ query. node_at query.node.now.serial self.now.manager.state.core.nodes ≡ Some query.node.now) }
        ensures named { IfSome result (λ query. IsNamed self.now.manager.state.core.rack query.driver) }
    {
        self.front.query()
    }

    /// The name of a driver, by its number, as it was given; none exactly where the number names no driver with a name. It takes no memory.
    pub fn driver_name(&self, driver: u32) -> Option<&Text>
        ensures { option_map (λ text. text.now) result ≡ name_in self.now.manager.state.core.rack driver }
    {
        self.front.driver_name(driver)
    }

    /// The end of the output: the tree, what is held, the requests that are outstanding, and the handles that are open. Cost: as
    /// `Manager::ending`.
    pub fn ending(&self, alloc: Global) -> Result<Vec<u8>, WantOfMemory>
        ensures { IfOk result (λ text. text.items ≡ joined (ending self.now.manager.state)) }
    {
        self.front.ending(alloc)
    }
}
