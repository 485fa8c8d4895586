ghost use Rattle.std.specs.Prelude.{◌≡◌, IfOk};
ghost use Rattle.pnp_model.specs.Cores.{node_at, with_problem};
ghost use Rattle.trial_journal.specs.ByKind as ByKind;
ghost use Rattle.device_holdings.specs.Mirrors.{KeepsMirror};
ghost use Rattle.devnode_tree.specs.Trees.{CanLeave, changed, without_node};
ghost use Rattle.operation_frame.specs.Nodes.{HoldsNothing, has_drivers};
ghost use Rattle.operation_frame.specs.Finishes.{finish_of};

use crate::queue::SerialQueue;
use device_ids::{InstancePath, Text, WantOfMemory};
use devnode_tree::{Node, Tree};
use pnp_labels::Problem;
use std::alloc::Global;

/// Whether a device is there and has drivers. It takes no memory. Cost: the logarithm of the number of nodes.
pub fn has_drivers(tree: &Tree, serial: u64) -> bool
    ensures { result ≡ has_drivers (node_at serial tree.now.nodes) }
{
    match tree.node(serial) {
        Some(node) => node.stack.len() > 0,
        None => false,
    }
}

/// How a device is finished.
#[derive(Clone, Copy, Debug, PartialEq, Eq)]
pub enum Finish {
    /// Its drivers are removed first.
    Removing,
    /// It has no drivers: it leaves or remains.
    Settling,
    /// There is none.
    Ending,
}

/// How the device that is next is finished: where it has drivers they are removed first. It takes no memory. Cost: the
/// logarithm of the number of nodes.
pub fn finish_of(tree: &Tree, todo: &SerialQueue) -> Finish
    ensures { result ≡ finish_of tree.now.nodes todo.now }
{
    let Some(serial) = todo.get(0) else {
        return Finish::Ending;
    };
    if has_drivers(tree, serial) {
        Finish::Removing
    } else {
        Finish::Settling
    }
}

/// A device that is settled, with what tells it and what the machine has to know of it.
#[derive(Drop)]
pub struct Settled {
    pub serial: u64,
    pub parent: u64,
    pub born: u64,
    /// Its path, for the line that is printed.
    pub line: Text,
    /// Its path, for the machine.
    pub path: InstancePath,
}

impl Settled {
    /// A node that is settled.
    pub fn of(alloc: Global, node: &Node) -> Result<Settled, WantOfMemory>
        ensures serial { IfOk result (λ s. s.serial ≡ node.now.serial) }
        ensures parent { IfOk result (λ s. s.parent ≡ node.now.parent) }
        ensures born { IfOk result (λ s. s.born ≡ node.now.born) }
        ensures line { IfOk result (λ s. s.line ≡ node.now.path) }
        ensures path { IfOk result (λ s. s.path ≡ node.now.path) }
    {
        Ok(Settled {
            serial: node.serial,
            parent: node.parent,
            born: node.born,
            line: node.path.text(alloc)?,
            path: node.path.copy(alloc)?,
        })
    }
}

/// A device leaves. Conditions: those of `Tree::leave`, and that it holds nothing. It takes no memory. Cost: the number of
/// nodes.
pub fn leave(serial: u64, tree: &mut Tree)
    requires may_leave { CanLeave serial tree.old.nodes }
    requires bare { HoldsNothing (node_at serial tree.old.nodes) }
    ensures left { tree.new ≡ without_node serial tree.old }
    ensures mirrors { (arbiters : ByKind.Arbiters) → KeepsMirror tree.old.nodes arbiters tree.new.nodes arbiters }
{
    tree.leave(serial);
}

/// A device remains, with a problem. It takes no memory. Cost: the logarithm of the number of nodes.
pub fn remain(serial: u64, problem: Problem, tree: &mut Tree)
    ensures changed { tree.new ≡ changed serial (with_problem (Some problem)) tree.old }
    ensures mirrors { (arbiters : ByKind.Arbiters) → KeepsMirror tree.old.nodes arbiters tree.new.nodes arbiters }
{
    tree.set_problem(serial, Some(problem));
}
