ghost use Rattle.std.specs.Prelude.{◌≡◌, ◌≤◌, List, IfOk, OnOk, OnErr, IsSome};
ghost use Rattle.pnp_labels.specs.declared.label.Label.TheVariants.{Assign};
ghost use Rattle.pnp_labels.specs.declared.words.Minor.TheVariants.{Start};
ghost use Rattle.pnp_model.specs.Cores.{node_at, set_rack, with_holds};
ghost use Rattle.pnp_model.specs.Records.{Core, Driver};
ghost use Rattle.pnp_model.specs.Records.Phase.{Starting};
ghost use Rattle.pnp_model.specs.Starts.{own_part};
ghost use Rattle.pnp_model.specs.Walks.{walk_of};
ghost use Rattle.devnode_tree.specs.Cores.{at_nodes};
ghost use Rattle.devnode_tree.specs.Identities.{identities};
ghost use Rattle.devnode_tree.specs.Trees.{changed};
ghost use Rattle.device_holdings.specs.Mirrors.{Mirrors, IsMirrored, KeepsMirror};
ghost use Rattle.start_sequence.specs.Parts.{SearchedFor};
ghost use Rattle.start_sequence.specs.declared.next.StartStep.TheVariants.{Did};

use crate::next::StartStep;
use crate::work::{Phase, StartWork};
use assign_search::{Found, Plan};
use device_holdings::{assign, search};
use device_ids::{Text, WantOfMemory};
use device_stack::Walk;
use devnode_tree::Tree;
use pnp_labels::{Label, Minor, Problem};
use resource_reqs::ResList;
use std::alloc::Global;
use trial_journal::Arbiters;

/// The resources of the one mover of a plan.
fn own_part(alloc: Global, plan: Plan) -> ResList
    ensures { result ≡ own_part plan }
{
    plan.into_first(alloc)
}

impl StartWork {
    /// The device gets these resources, in tree and arbiters, and is to be started.
    #[tactic(auto, using(devnode_tree::proofs::Identities::holds_keep))]
    fn give(
        &mut self,
        alloc: Global,
        tree: &mut Tree,
        arbiters: &mut Arbiters,
        path: Text,
        holds: ResList,
    ) -> Result<StartStep, WantOfMemory>
        requires there { IsSome (node_at self.old.serial tree.old.nodes) }
        requires mirrored { IsMirrored tree.old.nodes arbiters.old }
        ensures told { IfOk result (λ step. step ≡ Did (Assign path holds)) }
        ensures given { OnOk result (tree.new ≡ changed self.old.serial (with_holds holds) tree.old) }
        ensures starts { OnOk result (self.new ≡ record self.old { phase = Starting (walk_of Start) }) }
        ensures next { tree.new.next ≡ tree.old.next }
        ensures keeps { identities tree.new.nodes ≡ identities tree.old.nodes }
        ensures mirrors { KeepsMirror tree.old.nodes arbiters.old tree.new.nodes arbiters.new }
        ensures start { OnErr result (self.new ≡ self.old) }
        ensures tree { OnErr result (tree.new ≡ tree.old) }
    {
        let held = holds.copy(alloc)?;
        assign(tree, arbiters, self.serial, holds)?;
        self.enter(Phase::Starting(Walk::begin(Minor::Start)));
        Ok(StartStep::Did(Label::Assign { path, held }))
    }

    /// Resources are searched for the device, beside all that others hold and what is reserved: it gets what is found, in
    /// tree and arbiters, and is to be started; or a rebalance is needed; or the budget was too small, which is the problem
    /// that is due. A device that requires nothing gets nothing, whatever is held and whatever the budget is, so nothing is
    /// searched for it.
    #[tactic(auto, using(devnode_tree::proofs::Identities::holds_keep))]
    pub(crate) fn search(
        &mut self,
        alloc: Global,
        tree: &mut Tree,
        arbiters: &mut Arbiters,
        budget: u64,
    ) -> Result<StartStep, WantOfMemory>
        requires there { IsSome (node_at self.old.serial tree.old.nodes) }
        requires mirrored { IsMirrored tree.old.nodes arbiters.old }
        requires budget { budget ≤ 1000000 }
        ensures searched { IfOk result (λ step. (rack : List Driver) (around : Core) → Mirrors around.reserved tree.old.nodes arbiters.old → SearchedFor budget (node_at self.old.serial tree.old.nodes) (at_nodes tree.old.nodes (set_rack rack around)) step (at_nodes tree.new.nodes (set_rack rack around)) self.new.phase) }
        ensures serial { self.new.serial ≡ self.old.serial }
        ensures next { tree.new.next ≡ tree.old.next }
        ensures keeps { identities tree.new.nodes ≡ identities tree.old.nodes }
        ensures mirrors { KeepsMirror tree.old.nodes arbiters.old tree.new.nodes arbiters.new }
        ensures start { OnErr result (self.new ≡ self.old) }
        ensures tree { OnErr result (tree.new ≡ tree.old) }
    {
        let node = tree.at(self.serial);
        let path = node.path.text(alloc)?;
        if node.reqs.len() == 0 {
            return self.give(alloc, tree, arbiters, path, ResList::new(alloc));
        }
        match search(alloc, tree, arbiters, &[self.serial], budget)? {
            Found::Assignment(plan) => {
                self.give(alloc, tree, arbiters, path, own_part(alloc, plan))
            }
            Found::NoFit => Ok(StartStep::Needs(Label::NoFit { path })),
            Found::Spent => {
                self.enter(Phase::Due(Problem::Budget));
                Ok(StartStep::Did(Label::Spent { path }))
            }
        }
    }
}
