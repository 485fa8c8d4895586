ghost use Rattle.std.specs.Prelude.{◌≡◌, ◌≤◌, ℕ, IfOk, IfSome, OnErr, IsSome, List, [], Some, None, true, false, length};
ghost use Rattle.devnode_tree.specs.Trees.{IsTree};
ghost use Rattle.pnp_model.specs.Cores.{node_at};
ghost use Rattle.pnp_model.specs.Frames.{first_node};
ghost use Rattle.pnp_model.specs.Handles.{was_told};
ghost use Rattle.pnp_model.specs.Machine.{phase_walk, is_in_order, is_waiting, is_born};
ghost use Rattle.pnp_model.specs.Finishes.{begun_finish};
ghost use Rattle.pnp_model.specs.Records.{Course, Driver, State, course_of};
ghost use Rattle.pnp_model.specs.Removals.{begun_removal};
ghost use Rattle.pnp_model.specs.Surprises.{begun_surprise};
ghost use Rattle.start_sequence.specs.Begins.{settings_of, BegunFor, HasFewIds};
ghost use Rattle.rebalance.specs.Begins as rebalanced;
ghost use Rattle.rebalance.specs.Steps as rebalances;
ghost use Rattle.operation_frame.specs.Steps.{BegunFor as JobBegun, HasNext};
ghost use Rattle.query_remove.specs.Parts as removes;
ghost use Rattle.surprise_remove.specs.Steps as surprises;
ghost use Rattle.surprise_remove.specs.FinishSteps as finishes;
ghost use Rattle.surprise_remove.specs.Ready.{is_ready_at};
ghost use Rattle.pnp_machine.specs.Doings.{Acts, Rebalances, Removes, core_with};

use crate::devices::Devices;
use device_ids::WantOfMemory;
use driver_rack::Drivers;
use inf_reader::Inf;
use pnp_labels::{Label, OpKind, RemoveStep};
use query_remove::Removal;
use rebalance::{Rebalance, RebalanceStep};
use resource_reqs::Reqs;
use start_sequence::{StartStep, StartWork};
use std::alloc::Global;
use surprise_remove::{Finish, Surprise, is_ready};

impl Devices {
    /// The start of a device begins, as `StartWork::begin` says.
    pub(crate) fn begin<R: Drivers>(
        &mut self,
        alloc: Global,
        rack: &R,
        infs: &[Inf],
        serial: u64,
        disabled: bool,
    ) -> Result<(Label, Option<StartWork>), WantOfMemory>
        requires there { IsSome (node_at serial self.old.tree.nodes) }
        requires untold { was_told (node_at serial self.old.tree.nodes) ≡ false }
        requires ids { HasFewIds (node_at serial self.old.tree.nodes) }
        requires few { length infs.now ≤ 64 }
        ensures begun { IfOk result (λ r. (budget : ℕ) (s : State) → s.core.rack ≡ R.rows rack.now → s.core.nodes ≡ self.old.tree.nodes → BegunFor (settings_of infs.now budget) s (node_at serial self.old.tree.nodes) disabled r.0 r.1 self.new.tree.nodes) }
        ensures device { IfOk result (λ r. IfSome r.1 (λ work. work.serial ≡ serial)) }
        ensures same { self.new ≡ record self.old { tree = record self.old.tree { nodes = self.new.tree.nodes } } }
        ensures err { OnErr result (self.new ≡ self.old) }
    {
        StartWork::begin(alloc, &mut self.tree, rack, infs, serial, disabled)
    }

    /// The next step of the start of a device, as `StartWork::next` says.
    pub(crate) fn act<R: Drivers>(
        &mut self,
        alloc: Global,
        work: &mut StartWork,
        rack: &mut R,
        budget: u64,
    ) -> Result<StartStep, WantOfMemory>
        requires there { IsSome (node_at work.old.serial self.old.tree.nodes) }
        requires untold { was_told (node_at work.old.serial self.old.tree.nodes) ≡ false }
        requires goes { is_waiting (phase_walk work.old.phase) ≡ false }
        requires budget { budget ≤ 1000000 }
        ensures acts { IfOk result (λ step. Acts budget self.old work.old.serial (R.rows rack.old) work.old.phase step self.new (R.rows rack.new) work.new.phase) }
        ensures serial { work.new.serial ≡ work.old.serial }
        ensures work { OnErr result (work.new ≡ work.old) }
        ensures rack { OnErr result (R.rows rack.new ≡ R.rows rack.old) }
        ensures err { OnErr result (self.new ≡ self.old) }
    {
        work.next(alloc, &mut self.tree, rack, &mut self.arbiters, budget)
    }

    /// The rebalance for a device begins, as `Rebalance::begin` says.
    pub(crate) fn begin_rebalance(
        &self,
        alloc: Global,
        serial: u64,
    ) -> Result<(Label, Rebalance), WantOfMemory>
        requires { IsSome (node_at serial self.now.tree.nodes) }
        ensures { IfOk result (λ begun. rebalanced.BegunFor None (node_at serial self.now.tree.nodes) self.now.tree.nodes begun.0 begun.1) }
    {
        Rebalance::begin(alloc, &self.tree, serial)
    }

    /// The change of a device begins, as `Rebalance::begin_change` says.
    pub(crate) fn begin_change(
        &self,
        alloc: Global,
        serial: u64,
        wanted: Reqs,
    ) -> Result<(Label, Rebalance), WantOfMemory>
        requires { IsSome (node_at serial self.now.tree.nodes) }
        ensures { IfOk result (λ begun. rebalanced.BegunFor (Some wanted) (node_at serial self.now.tree.nodes) self.now.tree.nodes begun.0 begun.1) }
    {
        Rebalance::begin_change(alloc, &self.tree, serial, wanted)
    }

    /// The next step of a rebalance, as `Rebalance::next` says.
    pub(crate) fn rebalance<R: Drivers>(
        &mut self,
        alloc: Global,
        rebalance: &mut Rebalance,
        rack: &mut R,
        budget: u64,
    ) -> Result<RebalanceStep, WantOfMemory>
        requires there { rebalances.HasNext (first_node self.old.tree.nodes rebalance.old.todo) rebalance.old.walk rebalance.old.stage }
        requires goes { is_waiting rebalance.old.walk ≡ false }
        requires budget { budget ≤ 1000000 }
        ensures course { course_of rebalance.old.kind ≡ Course.Rebalancing }
        ensures rebalances { IfOk result (λ step. Rebalances budget self.old (R.rows rack.old) rebalance.old step self.new (R.rows rack.new) rebalance.new) }
        ensures rebalance { OnErr result (rebalance.new ≡ rebalance.old) }
        ensures rack { OnErr result (R.rows rack.new ≡ R.rows rack.old) }
        ensures err { OnErr result (self.new ≡ self.old) }
    {
        self.whole = None;
        rebalance.next(alloc, &mut self.tree, rack, &mut self.arbiters, budget)
    }

    /// The removal of a device begins, as `Removal::begin` says.
    pub(crate) fn begin_removal(
        &self,
        alloc: Global,
        kind: OpKind,
        serial: u64,
    ) -> Result<(Label, Removal), WantOfMemory>
        requires there { IsSome (node_at serial self.now.tree.nodes) }
        requires order { is_in_order kind ≡ true }
        ensures { IfOk result (λ begun. JobBegun kind (λ c n. begun_removal c kind n) (node_at serial self.now.tree.nodes) self.now.tree.nodes self.now.relations begun.0 begun.1) }
    {
        Removal::begin(alloc, &self.tree, &self.relations, kind, serial)
    }

    /// The surprise removal of a device begins, as `Surprise::begin` says.
    pub(crate) fn begin_surprise(
        &self,
        alloc: Global,
        serial: u64,
    ) -> Result<(Label, Surprise), WantOfMemory>
        requires { IsSome (node_at serial self.now.tree.nodes) }
        ensures { IfOk result (λ begun. JobBegun OpKind.Surprise begun_surprise (node_at serial self.now.tree.nodes) self.now.tree.nodes self.now.relations begun.0 begun.1) }
    {
        Surprise::begin(alloc, &self.tree, &self.relations, serial)
    }

    /// The next step of a removal, as `Removal::next` says.
    pub(crate) fn remove<R: Drivers>(
        &mut self,
        alloc: Global,
        removal: &mut Removal,
        rack: &mut R,
    ) -> Result<RemoveStep, WantOfMemory>
        requires there { HasNext self.old.tree.nodes removal.old removal.old.stage }
        requires settles { removes.SettlesStripped self.old.tree.nodes removal.old removal.old.stage }
        requires goes { is_waiting removal.old.walk ≡ false }
        ensures removes { IfOk result (λ step. Removes Course.Removing self.old (R.rows rack.old) false removal.old step self.new (R.rows rack.new) removal.new) }
        ensures removal { OnErr result (removal.new ≡ removal.old) }
        ensures rack { OnErr result (R.rows rack.new ≡ R.rows rack.old) }
        ensures err { OnErr result (self.new ≡ self.old) }
    {
        self.from = 0;
        self.whole = None;
        removal.next(
            alloc,
            &mut self.tree,
            &mut self.relations,
            rack,
            &mut self.arbiters,
            &self.handles,
        )
    }

    /// Whether the node of a device is there and its birth number is in the world.
    pub(crate) fn is_in_world(&self, serial: u64) -> bool
        ensures born { result ≡ is_born self.now.world.devices (node_at serial self.now.tree.nodes) }
        ensures tree { IsTree self.now.tree }
    {
        match self.tree.node(serial) {
            Some(node) => self.world.has(node.born),
            None => false,
        }
    }

    /// Whether the device that a surprise removal is for is in the world.
    pub(crate) fn is_target_in_world(&self, surprise: &Surprise) -> bool
        ensures course { course_of surprise.now.kind ≡ Course.Surprising }
        ensures born { result ≡ is_born self.now.world.devices (node_at surprise.now.target self.now.tree.nodes) }
    {
        self.is_in_world(surprise.target())
    }

    /// The next step of a surprise removal, as `Surprise::next` says.
    pub(crate) fn surprise<R: Drivers>(
        &mut self,
        alloc: Global,
        surprise: &mut Surprise,
        rack: &mut R,
        in_world: bool,
    ) -> Result<RemoveStep, WantOfMemory>
        requires there { HasNext self.old.tree.nodes surprise.old surprise.old.stage }
        requires direct { surprises.DirectSays self.old.tree.nodes self.old.relations surprise.old surprise.old.stage }
        requires settles { surprises.SettlesStripped self.old.tree.nodes self.old.relations surprise.old self.old.handles surprise.old.stage }
        requires goes { is_waiting surprise.old.walk ≡ false }
        ensures removes { IfOk result (λ step. Removes Course.Surprising self.old (R.rows rack.old) in_world surprise.old step self.new (R.rows rack.new) surprise.new) }
        ensures surprise { OnErr result (surprise.new ≡ surprise.old) }
        ensures rack { OnErr result (R.rows rack.new ≡ R.rows rack.old) }
        ensures err { OnErr result (self.new ≡ self.old) }
    {
        self.from = 0;
        self.whole = None;
        surprise.next(
            alloc,
            &mut self.tree,
            &mut self.relations,
            rack,
            &mut self.arbiters,
            in_world,
            &self.handles,
        )
    }

    /// Whether a device is there and ready to be finished, as `surprise_remove::is_ready` says.
    pub(crate) fn is_ready(&self, serial: u64) -> bool
        ensures { (rack : List Driver) → result ≡ is_ready_at (core_with self.now rack) self.now.handles (node_at serial self.now.tree.nodes) }
    {
        is_ready(&self.tree, &self.relations, &self.handles, serial)
    }

    /// The end of surprise removals begins, as `Finish::begin` says.
    pub(crate) fn begin_finish(
        &self,
        alloc: Global,
        serial: u64,
    ) -> Result<(Label, Finish), WantOfMemory>
        requires { IsSome (node_at serial self.now.tree.nodes) }
        ensures { IfOk result (λ begun. JobBegun OpKind.Finish (λ c n. begun_finish n) (node_at serial self.now.tree.nodes) self.now.tree.nodes [] begun.0 begun.1) }
    {
        Finish::begin(alloc, &self.tree, serial)
    }

    /// Whether the device that is being finished, if one is, is in the world.
    pub(crate) fn is_current_in_world(&self, finish: &Finish) -> bool
        ensures course { course_of finish.now.kind ≡ Course.Finishing }
        ensures born { result ≡ is_born self.now.world.devices (first_node self.now.tree.nodes finish.now.todo) }
    {
        match finish.current() {
            Some(serial) => self.is_in_world(serial),
            None => false,
        }
    }

    /// The next step of the end of surprise removals, as `Finish::next` says.
    pub(crate) fn finish<R: Drivers>(
        &mut self,
        alloc: Global,
        finish: &mut Finish,
        rack: &mut R,
        in_world: bool,
    ) -> Result<RemoveStep, WantOfMemory>
        requires there { finishes.HasCurrent self.old.tree.nodes finish.old finish.old.stage }
        requires leaves { finishes.LeavesStripped self.old.tree.nodes finish.old finish.old.stage }
        requires goes { is_waiting finish.old.walk ≡ false }
        ensures removes { IfOk result (λ step. Removes Course.Finishing self.old (R.rows rack.old) in_world finish.old step self.new (R.rows rack.new) finish.new) }
        ensures finish { OnErr result (finish.new ≡ finish.old) }
        ensures rack { OnErr result (R.rows rack.new ≡ R.rows rack.old) }
        ensures err { OnErr result (self.new ≡ self.old) }
    {
        self.from = 0;
        self.whole = None;
        finish.next(
            alloc,
            &mut self.tree,
            &mut self.relations,
            rack,
            &mut self.arbiters,
            in_world,
            &self.handles,
        )
    }
}
