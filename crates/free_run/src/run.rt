ghost use Rattle.std.specs.Prelude.{◌≡◌, ◌<◌, ◌≤◌, ◌^◌, IfOk, IfSome, OnErr, Some, length, option_map};
ghost use Rattle.pnp_model.specs.Cores.{node_at};
ghost use Rattle.pnp_model.specs.Endings.{ending, joined};
ghost use Rattle.pnp_model.specs.Events.{happens};
ghost use Rattle.pnp_model.specs.Machine.{IsQuiet};
ghost use Rattle.pnp_laws.specs.Stacks.{IsNamed};
ghost use Rattle.driver_rack.specs.Rows.{name_in};
ghost use Rattle.free_model.specs.Asks.{next_query};
ghost use Rattle.free_model.specs.Frees.{free_opening};
ghost use Rattle.pnp_machine.specs.Queries.{query_of};
ghost use Rattle.free_run.specs.FreeRuns.{settings, MovesBy, MovesOwn, HasFewIds, HasHappened, IfQuiet};

use crate::driver::FreeDriver;
use crate::racks::own_rack;
use crate::told::ToldRacks;
use device_ids::{Text, WantOfMemory};
use driver_rack::Rack;
use inf_reader::Inf;
use pnp_labels::{Answer, DriverKind, Event, Label};
use pnp_machine::{Manager, Query};
use std::alloc::Global;
use std::marker::Model;

/// A run of the machine whatever its drivers answer. Beside the machine it has a rack for each answer, which takes the place
/// of the machine's own for a step. A contract sees the INFs, the budget, how many events happened and the state, in which a
/// driver's book is what it was taught.
pub struct FreeRun {
    manager: Manager<Rack<FreeDriver>>,
    told: ToldRacks,
}

impl Drop for FreeRun {
    fn drop(self) {
        let FreeRun {
            manager: _,
            told: _,
        } = self;
    }
}

impl Model for FreeRun {
    ghost use Rattle.free_run.specs.FreeRuns.{Free};
    ghost use Rattle.free_run.specs.ToldRacks.{AreTold};

    ghost Value = { Free };

    ghost view = { λ r. record { infs = r.manager.infs; budget = r.manager.budget; events = r.manager.events; state = r.manager.state } };

    ghost invariant = { λ r. AreTold r.manager.state.core.rack r.told };
}

impl FreeRun {
    /// The root alone, with a driver of each kind, by number, to which nothing was taught; in no one's name. Conditions: there are at most 64 INFs,
    /// fewer than 2^32 kinds, and the budget of a search is at most 1,000,000. Cost: the number of kinds.
    pub fn new(
        alloc: Global,
        infs: Vec<Inf>,
        kinds: &[DriverKind],
        budget: u64,
    ) -> Result<FreeRun, WantOfMemory>
        requires few { length infs.items ≤ 64 }
        requires kinds { length kinds.now < 2 ^ 32 }
        requires budget { budget ≤ 1000000 }
        ensures { IfOk result (λ run. run ≡ record { infs = infs.items; budget = budget; events = 0; state = free_opening kinds.now }) }
    {
        let rack = own_rack(alloc, kinds)?;
        let told = ToldRacks::make(alloc, kinds)?;
        let manager = Manager::new(alloc, infs, rack, budget)?;
        Ok(FreeRun { manager, told })
    }

    /// Whether no step is next.
    pub fn is_quiet(&self) -> bool
        ensures { IfQuiet result (settings self.now) self.now.state }
    {
        self.manager.is_quiet()
    }

    /// An event happens, at a quiet state: exactly what the machine's definition says. Conditions: the state is quiet, the event has at
    /// most 64 IDs of each sort, and fewer than 2^24 events happened before. After want of memory all is as before. Cost: as
    /// `Manager::apply`, and for a name four times the look-up.
    pub fn apply(&mut self, event: Event) -> Result<Label, WantOfMemory>
        requires quiet { IsQuiet (settings self.old) self.old.state }
        requires ids { HasFewIds event }
        requires events { self.old.events < 2 ^ 24 }
        ensures happened { IfOk result (λ label. HasHappened (happens self.old.state event) self.old self.new label) }
        ensures err { OnErr result (self.new ≡ self.old) }
    {
        self.told.apply(event, &mut self.manager)
    }

    /// The step where all drivers that are asked answer so, exactly as the machine's definition says; none exactly where no step is next,
    /// and then nothing changes. What drivers were taught stays. After want of memory all is as before. Cost: that of the step.
    pub fn step(&mut self, answer: Answer) -> Result<Option<Label>, WantOfMemory>
        ensures moves { IfOk result (λ label. MovesBy answer (settings self.old) self.old.state label self.new.state) }
        ensures same { self.new ≡ record self.old { state = self.new.state } }
        ensures err { OnErr result (self.new ≡ self.old) }
    {
        self.told.step(answer, &mut self.manager)
    }

    /// The step in which drivers answer by their books, of which one loses a use, exactly as the machine's definition says; none exactly where
    /// no step is next, and then nothing changes. After want of memory all is as before. Cost: that of the step.
    pub fn step_own(&mut self) -> Result<Option<Label>, WantOfMemory>
        ensures moves { IfOk result (λ label. MovesOwn (settings self.old) self.old.state label self.new.state) }
        ensures same { self.new ≡ record self.old { state = self.new.state } }
        ensures err { OnErr result (self.new ≡ self.old) }
    {
        self.told.step_own(&mut self.manager)
    }

    /// What the next step asks, of which driver and for which device, as `Manager::query` says; none exactly where it asks nobody, or none
    /// is next. It takes no memory. Cost: as `Manager::query`.
    pub fn query(&self) -> Option<Query<'_>>
        ensures query { option_map query_of result ≡ next_query self.now.state }
        ensures node { IfSome result (λ query. node_at query.node.now.serial self.now.state.core.nodes ≡ Some query.node.now) }
        ensures named { IfSome result (λ query. IsNamed self.now.state.core.rack query.driver) }
    {
        self.manager.query()
    }

    /// The name of a driver, by its number, as it was given; none exactly where the number names no driver with a name. It takes no memory.
    pub fn driver_name(&self, driver: u32) -> Option<&Text>
        ensures { option_map (λ text. text.now) result ≡ name_in self.now.state.core.rack driver }
    {
        self.manager.driver_name(driver)
    }

    /// The end of the output: the tree, what is held, the requests that are outstanding, and the handles that are open. Cost: as
    /// `Manager::ending`.
    pub fn ending(&self, alloc: Global) -> Result<Vec<u8>, WantOfMemory>
        ensures { IfOk result (λ text. text.items ≡ joined (ending self.now.state)) }
    {
        self.manager.ending(alloc)
    }
}
