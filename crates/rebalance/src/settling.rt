ghost use Rattle.std.specs.Prelude.{◌≡◌, length, map, IfOk, OnOk, OnErr, IsSome};
ghost use Rattle.assign_search.specs.Fixed.{answer_of};
ghost use Rattle.pnp_model.specs.Frames.{first_node};
ghost use Rattle.pnp_model.specs.Rebalances.{trouble_of, end_of, has_refused, movers, plan_of, committed, stuck, commit_step, failed, close};
ghost use Rattle.pnp_model.specs.Rebalances as Rebalances;
ghost use Rattle.devnode_tree.specs.Identities.{identities};
ghost use Rattle.device_holdings.specs.Giving.{with_part};
ghost use Rattle.device_holdings.specs.Mirrors.{IsMirrored, KeepsMirror};
ghost use Rattle.rebalance.specs.declared.next.RebalanceStep.TheVariants as steps;
ghost use Rattle.operation_frame.specs.Steps.{MovesFor};
ghost use Rattle.rebalance.specs.Steps.{Moved};
ghost use Rattle.rebalance.specs.Parts.{Moves, StaysWhole, required};

use crate::above::{pass_over, stands_up};
use crate::frame::{Rebalance, Stage};
use crate::next::RebalanceStep;
use assign_search::Found;
use device_holdings::assign_all;
use device_ids::WantOfMemory;
use devnode_tree::Tree;
use operation_frame::SerialQueue;
use pnp_labels::{Label, OpEnd, Problem};
use resource_reqs::Reqs;
use std::alloc::Global;
use trial_journal::Arbiters;

/// The problem of a device for which nothing was found.
fn trouble_of(found: &Found) -> Problem
    ensures { result ≡ trouble_of (answer_of found.now) }
{
    match found {
        Found::Spent => Problem::Budget,
        _ => Problem::NormalConflict,
    }
}

/// How it ends by what was found.
fn end_of(found: &Found) -> OpEnd
    ensures { result ≡ end_of (answer_of found.now) }
{
    match found {
        Found::Assignment(_) => OpEnd::Moved,
        Found::NoFit => OpEnd::NoFit,
        Found::Spent => OpEnd::Spent,
    }
}

/// What is wanted once more.
fn copied(alloc: Global, wanted: &Option<Reqs>) -> Result<Option<Reqs>, WantOfMemory>
    ensures { IfOk result (λ copy. copy ≡ wanted.now) }
{
    match wanted {
        Some(reqs) => Ok(Some(reqs.copy(alloc)?)),
        None => Ok(None),
    }
}

/// A device requires from now on what is wanted, if something is.
fn require(tree: &mut Tree, serial: u64, wanted: Option<Reqs>)
    ensures required { tree.new ≡ record tree.old { nodes = map (required wanted serial) tree.old.nodes } }
    ensures mirrors { (arbiters : Arbiters) → KeepsMirror tree.old.nodes arbiters tree.new.nodes arbiters }
{
    if let Some(reqs) = wanted {
        let _ = tree.swap_reqs(serial, reqs);
    }
}

impl Rebalance {
    /// Nothing was found: the target gets a problem.
    pub(crate) fn stick(&mut self, alloc: Global, tree: &mut Tree) -> Result<Label, WantOfMemory>
        ensures stuck { IfOk result (λ label. Moves (λ c. stuck c self.old) tree.old.nodes (steps.Did label) tree.new.nodes self.new) }
        ensures whole { StaysWhole tree.old tree.new }
        ensures rebalance { OnErr result (self.new ≡ self.old) }
        ensures tree { OnErr result (tree.new ≡ tree.old) }
    {
        let path = self.path.copy(alloc)?;
        let problem = trouble_of(&self.found);
        tree.set_problem(self.target, Some(problem));
        self.todo = SerialQueue::new(alloc);
        self.stand(Stage::Ending);
        Ok(Label::Trouble { path, problem })
    }

    /// These devices get what was found, all at once.
    fn give_found(
        &self,
        alloc: Global,
        tree: &mut Tree,
        arbiters: &mut Arbiters,
        movers: &[u64],
    ) -> Result<(), WantOfMemory>
        requires { IsMirrored tree.old.nodes arbiters.old }
        ensures given { OnOk result (tree.new ≡ record tree.old { nodes = map (with_part movers.now (plan_of self.now.found)) tree.old.nodes }) }
        ensures mirrors { KeepsMirror tree.old.nodes arbiters.old tree.new.nodes arbiters.new }
        ensures tree { OnErr result (tree.new ≡ tree.old) }
    {
        match &self.found {
            Found::Assignment(plan) => assign_all(alloc, tree, arbiters, movers, plan),
            _ => Ok(()),
        }
    }

    /// The target and all others that agreed get what was found, and the target of a change requires what it wants, at
    /// once; how many they are is told.
    fn give(
        &self,
        alloc: Global,
        tree: &mut Tree,
        arbiters: &mut Arbiters,
    ) -> Result<u64, WantOfMemory>
        requires { IsMirrored tree.old.nodes arbiters.old }
        ensures count { IfOk result (λ count. count ≡ length (movers self.now)) }
        ensures given { OnOk result (tree.new ≡ record tree.old { nodes = map (committed self.now.wanted self.now.target (movers self.now) (plan_of self.now.found)) tree.old.nodes }) }
        ensures mirrors { KeepsMirror tree.old.nodes arbiters.old tree.new.nodes arbiters.new }
        ensures tree { OnErr result (tree.new ≡ tree.old) }
    {
        let movers = self.movers(alloc)?;
        let wanted = copied(alloc, &self.wanted)?;
        self.give_found(alloc, tree, arbiters, &movers)?;
        require(tree, self.target, wanted);
        Ok(movers.len() as u64)
    }

    /// All movers get what was found; then those that stopped are started again, the least serial first.
    pub(crate) fn commit(
        &mut self,
        alloc: Global,
        tree: &mut Tree,
        arbiters: &mut Arbiters,
    ) -> Result<Label, WantOfMemory>
        requires { IsMirrored tree.old.nodes arbiters.old }
        ensures committed { IfOk result (λ label. Moves (λ c. commit_step c self.old) tree.old.nodes (steps.Did label) tree.new.nodes self.new) }
        ensures next { tree.new.next ≡ tree.old.next }
        ensures keeps { identities tree.new.nodes ≡ identities tree.old.nodes }
        ensures mirrors { KeepsMirror tree.old.nodes arbiters.old tree.new.nodes arbiters.new }
        ensures rebalance { OnErr result (self.new ≡ self.old) }
        ensures tree { OnErr result (tree.new ≡ tree.old) }
    {
        let mut todo = self.agreed.copy(alloc)?;
        pass_over(tree, &mut todo);
        let movers = self.give(alloc, tree, arbiters)?;
        self.todo = todo;
        self.restart_first();
        Ok(Label::Commit { movers })
    }

    /// The device that is next was not started again: it gets a problem, and its surprise removal is to come.
    pub(crate) fn fail(
        &mut self,
        alloc: Global,
        tree: &mut Tree,
    ) -> Result<RebalanceStep, WantOfMemory>
        requires { IsSome (first_node tree.old.nodes self.old.todo) }
        ensures failed { IfOk result (λ step. MovesFor Moved (first_node tree.old.nodes self.old.todo) (λ c n. failed c self.old n) tree.old.nodes step tree.new.nodes self.new) }
        ensures whole { StaysWhole tree.old tree.new }
        ensures rebalance { OnErr result (self.new ≡ self.old) }
        ensures tree { OnErr result (tree.new ≡ tree.old) }
    {
        let node = tree.at(self.todo.first());
        let serial = node.serial;
        let path = node.path.text(alloc)?;
        let problem = Problem::FailedStart;
        self.todo.drop_first();
        self.restart_next(tree);
        tree.set_problem(serial, Some(problem));
        let label = Label::Trouble { path, problem };
        Ok(RebalanceStep::FailedRestart { label, serial })
    }

    /// How it ends.
    fn result(&self) -> OpEnd
        ensures { result ≡ Rebalances.result self.now.found (has_refused self.now) }
    {
        if self.has_refused() {
            return OpEnd::Refused;
        }
        end_of(&self.found)
    }

    /// The rebalance ends, or the change.
    pub(crate) fn close(&self, alloc: Global, tree: &Tree) -> Result<RebalanceStep, WantOfMemory>
        ensures { IfOk result (λ step. Moves (λ c. close c self.now) tree.now.nodes step tree.now.nodes self.now) }
    {
        let label = Label::End {
            op: self.kind(),
            path: self.path.copy(alloc)?,
            result: self.result(),
        };
        if self.wanted.is_some() {
            return Ok(RebalanceStep::Over(label));
        }
        match &self.found {
            Found::Assignment(_) => {
                if stands_up(tree, self.target) {
                    Ok(RebalanceStep::OverStart(label))
                } else {
                    Ok(RebalanceStep::Over(label))
                }
            }
            _ => Ok(RebalanceStep::OverUndo(label)),
        }
    }
}
