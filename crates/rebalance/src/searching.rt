ghost use Rattle.std.specs.Prelude.{◌≡◌, ◌≤◌, reverse, IfOk, OnOk, OnErr};
ghost use Rattle.resource_reqs.specs.Spelling.Answer.{assignment};
ghost use Rattle.assign_search.specs.Fixed.{answer_of};
ghost use Rattle.trial_journal.specs.ByKind.{lists_of};
ghost use Rattle.pnp_model.specs.Rebalances.{movers, stop_on, cancel_on};
ghost use Rattle.device_holdings.specs.Mirrors.{IsMirrored};
ghost use Rattle.rebalance.specs.Parts.{Searched, Takes};

use crate::frame::Rebalance;
use crate::queues::{reversed, with_first};
use assign_search::{Found, Plan};
use device_holdings::search_for;
use device_ids::{Text, WantOfMemory};
use devnode_tree::Tree;
use pnp_labels::Label;
use std::alloc::Global;
use trial_journal::Arbiters;

impl Rebalance {
    /// The target, and then all others that agreed.
    pub(crate) fn movers(&self, alloc: Global) -> Result<Vec<u64>, WantOfMemory>
        ensures { IfOk result (λ all. all.items ≡ movers self.now) }
    {
        with_first(alloc, self.target, &self.agreed)
    }

    /// An assignment was found: all that agreed are stopped, the greatest serial first.
    fn stop_all(&mut self, alloc: Global, plan: Plan) -> Result<(), WantOfMemory>
        ensures stops { OnOk result (self.new ≡ stop_on (record self.old { found = assignment plan }) (reverse self.old.agreed)) }
        ensures err { OnErr result (self.new ≡ self.old) }
    {
        self.todo = reversed(alloc, &self.agreed)?;
        self.found = Found::Assignment(plan);
        self.stop_next();
        Ok(())
    }

    /// None was found: all that agreed are told that they go on, the least serial first.
    fn cancel_all(&mut self, alloc: Global, found: Found) -> Result<(), WantOfMemory>
        ensures cancels { OnOk result (self.new ≡ cancel_on (record self.old { found = answer_of found }) self.old.agreed) }
        ensures err { OnErr result (self.new ≡ self.old) }
    {
        self.cancel_agreed(alloc)?;
        self.found = found;
        Ok(())
    }

    /// What was found is taken.
    fn take_found(&mut self, alloc: Global, found: Found, path: Text) -> Result<Label, WantOfMemory>
        requires path { path ≡ self.old.path }
        ensures takes { IfOk result (λ label. Takes self.old (answer_of found) label self.new) }
        ensures err { OnErr result (self.new ≡ self.old) }
    {
        match found {
            Found::Assignment(plan) => {
                self.stop_all(alloc, plan)?;
                Ok(Label::Fits { path })
            }
            Found::NoFit => {
                self.cancel_all(alloc, Found::NoFit)?;
                Ok(Label::NoFit { path })
            }
            Found::Spent => {
                self.cancel_all(alloc, Found::Spent)?;
                Ok(Label::Spent { path })
            }
        }
    }

    /// Resources are searched for, for the target and all others that agreed; the target of a change asks for what it
    /// wants.
    pub(crate) fn look(
        &mut self,
        alloc: Global,
        tree: &Tree,
        arbiters: &mut Arbiters,
        budget: u64,
    ) -> Result<Label, WantOfMemory>
        requires mirrored { IsMirrored tree.now.nodes arbiters.old }
        requires budget { budget ≤ 1000000 }
        ensures searched { IfOk result (λ label. Searched tree.now.nodes arbiters.old self.old budget label self.new) }
        ensures same { lists_of arbiters.new ≡ lists_of arbiters.old }
        ensures rebalance { OnErr result (self.new ≡ self.old) }
    {
        let path = self.path.copy(alloc)?;
        let movers = self.movers(alloc)?;
        let wanted = self.wanted.as_ref();
        let found = search_for(alloc, tree, arbiters, wanted, &movers, budget)?;
        self.take_found(alloc, found, path)
    }
}
