ghost use Rattle.std.specs.Prelude.{◌≡◌, ◌≤◌, ℕ, Bool, IfOk, List, OnErr, IsSome, is_some, true, false};
ghost use Rattle.pnp_model.specs.Frames.{first_node};
ghost use Rattle.pnp_model.specs.Records.{Core, Course, Handle, course_of};
ghost use Rattle.pnp_model.specs.Cores.{set_rack};
ghost use Rattle.pnp_model.specs.Machine.{is_waiting, job_step};
ghost use Rattle.devnode_tree.specs.Cores.{at_nodes};
ghost use Rattle.devnode_tree.specs.Identities.{identities};
ghost use Rattle.device_holdings.specs.Mirrors.{IsMirrored, KeepsMirror};
ghost use Rattle.rebalance.specs.Steps.{HasNext, MovedBy, Rebalances};
ghost use Rattle.rebalance.specs.Parts.{StaysWhole};

use crate::frame::{Rebalance, Stage};
use device_ids::WantOfMemory;
use devnode_tree::Tree;
use driver_rack::Drivers;
use operation_frame::{Asked, Walked, pass_on};
use pnp_labels::Label;
use std::alloc::Global;
use trial_journal::Arbiters;

/// A step of a rebalance or of a change, with what the machine has to do beside it. This project's own.
#[derive(Drop)]
pub enum RebalanceStep {
    /// Nothing: the rebalance goes on.
    Did(Label),
    /// The device of that serial was not started again: its surprise removal is to be the next task.
    FailedRestart { label: Label, serial: u64 },
    /// The rebalance is over, and the target is to be started.
    OverStart(Label),
    /// The rebalance is over, and the target is to lose its drivers.
    OverUndo(Label),
    /// The rebalance or the change is over, and nothing is done with the target.
    Over(Label),
}

impl Rebalance {
    /// A step of the request of the device that is next.
    fn walk_on<R: Drivers>(
        &mut self,
        alloc: Global,
        tree: &mut Tree,
        rack: &mut R,
    ) -> Result<RebalanceStep, WantOfMemory>
        requires there { IsSome (first_node tree.old.nodes self.old.todo) }
        requires walking { is_some self.old.walk ≡ true }
        requires goes { is_waiting self.old.walk ≡ false }
        ensures rebalances { IfOk result (λ step. (budget : ℕ) (around : Core) (in_world : Bool) (handles : List Handle) → MovedBy budget (job_step (at_nodes tree.old.nodes (set_rack (R.rows rack.old) around)) self.old Course.Rebalancing in_world handles self.old.walk (first_node tree.old.nodes self.old.todo)) step (at_nodes tree.new.nodes (set_rack (R.rows rack.new) around)) self.new) }
        ensures whole { StaysWhole tree.old tree.new }
        ensures rebalance { OnErr result (self.new ≡ self.old) }
        ensures tree { OnErr result (tree.new ≡ tree.old) }
        ensures rack { OnErr result (R.rows rack.new ≡ R.rows rack.old) }
    {
        let serial = self.todo.first();
        let mut walk = self.walk;
        match pass_on(alloc, serial, &mut walk, tree, rack)? {
            Walked::On(label) => {
                self.walk = walk;
                Ok(RebalanceStep::Did(label))
            }
            Walked::Ended { path, refused } => {
                let device = Asked { serial, path };
                let label = self.end_request(alloc, walk.minor(), refused, device, tree)?;
                Ok(RebalanceStep::Did(label))
            }
        }
    }

    /// The next step of a rebalance or change that does not wait: a driver is asked, a request ends, resources are searched for or
    /// given, a device gets a problem, or the rebalance ends. The step tells the line that is printed and what the machine
    /// has to do; after the four that begin with `Over` the rebalance is over. Conditions: where the step is one for a
    /// device, the device that is next is there; the arbiters hold just what is reserved and what devices hold, which is
    /// kept; and the budget, which is the most prefixes that a search may try, is at most 1,000,000. After want of memory
    /// rebalance, tree and rack are as before, and no driver was asked. Cost: the rules of one book, and the logarithm of
    /// the number of nodes; once for each device that refused the number of devices still to ask; for each device that is
    /// started again or passed over how deep it stands; and once the number of devices that agreed, and that of
    /// `device_holdings::search_for` and `assign_all`.
    pub fn next<R: Drivers>(
        &mut self,
        alloc: Global,
        tree: &mut Tree,
        rack: &mut R,
        arbiters: &mut Arbiters,
        budget: u64,
    ) -> Result<RebalanceStep, WantOfMemory>
        requires there { HasNext (first_node tree.old.nodes self.old.todo) self.old.walk self.old.stage }
        requires goes { is_waiting self.old.walk ≡ false }
        requires mirrored { IsMirrored tree.old.nodes arbiters.old }
        requires budget { budget ≤ 1000000 }
        ensures rebalances { IfOk result (λ step. Rebalances tree.old.nodes arbiters.old (R.rows rack.old) self.old budget step tree.new.nodes (R.rows rack.new) self.new) }
        ensures course { course_of self.old.kind ≡ Course.Rebalancing }
        ensures next { tree.new.next ≡ tree.old.next }
        ensures keeps { identities tree.new.nodes ≡ identities tree.old.nodes }
        ensures mirrors { KeepsMirror tree.old.nodes arbiters.old tree.new.nodes arbiters.new }
        ensures rebalance { OnErr result (self.new ≡ self.old) }
        ensures tree { OnErr result (tree.new ≡ tree.old) }
        ensures rack { OnErr result (R.rows rack.new ≡ R.rows rack.old) }
    {
        match &self.stage {
            Stage::Searching => {
                let label = self.look(alloc, tree, arbiters, budget)?;
                Ok(RebalanceStep::Did(label))
            }
            Stage::Stuck => Ok(RebalanceStep::Did(self.stick(alloc, tree)?)),
            Stage::Committing => {
                let label = self.commit(alloc, tree, arbiters)?;
                Ok(RebalanceStep::Did(label))
            }
            Stage::Failed => self.fail(alloc, tree),
            Stage::Ending => self.close(alloc, tree),
            _ => self.walk_on(alloc, tree, rack),
        }
    }
}
