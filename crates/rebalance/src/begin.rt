ghost use Rattle.std.specs.Prelude.{◌≡◌, Some, None, IfOk, IsSome};
ghost use Rattle.pnp_model.specs.Cores.{node_at};
ghost use Rattle.pnp_model.specs.Records.{Core};
ghost use Rattle.pnp_model.specs.Rebalances.{begun_with};
ghost use Rattle.pnp_laws.specs.Kept.{kind_by};
ghost use Rattle.devnode_tree.specs.Cores.{at_nodes};
ghost use Rattle.devnode_tree.specs.Trees.{IsTree};
ghost use Rattle.rebalance.specs.Begins.{BegunFor};

use crate::asked::asked;
use crate::frame::{Rebalance, Stage};
use assign_search::Found;
use device_ids::WantOfMemory;
use device_stack::Walk;
use devnode_tree::{Node, Tree};
use operation_frame::SerialQueue;
use pnp_labels::{Label, Minor};
use resource_reqs::Reqs;
use std::alloc::Global;

impl Rebalance {
    /// The rebalance for a device begins: each Started device but the root is to be asked, the greatest serial first. The
    /// line is that of the begin. Condition: the device is there. Cost: the number of nodes times its logarithm.
    pub fn begin(
        alloc: Global,
        tree: &Tree,
        serial: u64,
    ) -> Result<(Label, Rebalance), WantOfMemory>
        requires { IsSome (node_at serial tree.now.nodes) }
        ensures { IfOk result (λ begun. BegunFor None (node_at serial tree.now.nodes) tree.now.nodes begun.0 begun.1) }
    {
        Rebalance::begin_with(alloc, tree, serial, None)
    }

    /// The change of a device begins: it is to require what is wanted, and is asked to stop as all others are. Where it
    /// does not agree, or nothing is found, it goes on with what it has. The line is that of the begin. Condition: the
    /// device is there. Cost: as `begin`. This project's own.
    pub fn begin_change(
        alloc: Global,
        tree: &Tree,
        serial: u64,
        wanted: Reqs,
    ) -> Result<(Label, Rebalance), WantOfMemory>
        requires { IsSome (node_at serial tree.now.nodes) }
        ensures { IfOk result (λ begun. BegunFor (Some wanted) (node_at serial tree.now.nodes) tree.now.nodes begun.0 begun.1) }
    {
        Rebalance::begin_with(alloc, tree, serial, Some(wanted))
    }

    /// A rebalance stands before the first device that is to be asked, or the change to what is wanted.
    fn of_wanted(
        alloc: Global,
        tree: &Tree,
        node: &Node,
        wanted: Option<Reqs>,
    ) -> Result<Rebalance, WantOfMemory>
        requires { IsTree tree.now }
        ensures { IfOk result (λ rebalance. (around : Core) → rebalance ≡ begun_with (at_nodes tree.now.nodes around) (kind_by wanted) node.now wanted) }
    {
        let path = node.path.text(alloc)?;
        let todo = asked(alloc, tree)?;
        let mut rebalance = Rebalance {
            target: node.serial,
            path,
            wanted,
            todo: SerialQueue::new(alloc),
            agreed: SerialQueue::new(alloc),
            refused: SerialQueue::new(alloc),
            found: Found::NoFit,
            stage: Stage::Searching,
            walk: Walk::begin(Minor::QueryStop),
        };
        rebalance.ask_all(alloc, todo)?;
        Ok(rebalance)
    }

    /// A rebalance begins, or the change to what is wanted.
    fn begin_with(
        alloc: Global,
        tree: &Tree,
        serial: u64,
        wanted: Option<Reqs>,
    ) -> Result<(Label, Rebalance), WantOfMemory>
        requires { IsSome (node_at serial tree.now.nodes) }
        ensures { IfOk result (λ begun. BegunFor wanted (node_at serial tree.now.nodes) tree.now.nodes begun.0 begun.1) }
    {
        let node = tree.at(serial);
        let path = node.path.text(alloc)?;
        let rebalance = Rebalance::of_wanted(alloc, tree, node, wanted)?;
        let op = rebalance.kind();
        Ok((Label::Begin { op, path }, rebalance))
    }
}
