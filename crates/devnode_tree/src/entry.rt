ghost use Rattle.std.specs.Prelude.{◌≡◌, ◌++◌, [], ◌∷◌, OnOk, OnErr};
ghost use Rattle.pnp_model.specs.Cores.{with_state, with_problem, with_holds, with_drivers, with_stack, bare};
ghost use Rattle.pnp_model.specs.Tests.{is_surprise_removed};
ghost use Rattle.devnode_tree.specs.Bottoms.{is_full_child};
ghost use Rattle.devnode_tree.specs.Entries.{with_child, without_child, changed_node};
ghost use Rattle.devnode_tree.specs.Trees.{Ascends, with_reqs};

use crate::births::place_in;
use crate::node::Node;
use device_ids::WantOfMemory;
use pnp_labels::{DevState, Problem, Stack};
use resource_reqs::{Reqs, ResList};
use std::alloc::Global;
use std::marker::Model;
use std::mem;

/// A node with the serials of its children in order. A contract sees the record of both.
#[derive(Drop)]
pub(crate) struct Entry {
    pub(crate) node: Node,
    pub(crate) children: Vec<u64>,
}

impl Model for Entry {
    ghost use Rattle.devnode_tree.specs.Entries.{Entry};

    ghost Value = { Entry };

    ghost view = { λ e. record { node = e.node; children = e.children.items } };
}

impl Entry {
    pub(crate) fn serial(&self) -> u64
        ensures { result ≡ self.now.node.serial }
    {
        self.node.serial
    }

    pub(crate) fn parent(&self) -> u64
        ensures { result ≡ self.now.node.parent }
    {
        self.node.parent
    }

    /// Appends a child.
    pub(crate) fn add_child(&mut self, serial: u64) -> Result<(), WantOfMemory>
        ensures added { OnOk result (self.new ≡ with_child serial self.old) }
        ensures err { OnErr result (self.new ≡ self.old) }
    {
        self.children.push(serial)?;
        Ok(())
    }

    /// Takes a child away, where it is one.
    pub(crate) fn forget_child(&mut self, serial: u64)
        requires { Ascends 0 self.old.children }
        ensures { self.new ≡ without_child serial self.old }
    {
        if let Some(place) = place_in(&self.children, serial) {
            self.children.remove(place);
        }
    }

    pub(crate) fn set_state(&mut self, state: DevState)
        ensures { self.new ≡ changed_node (with_state state) self.old }
    {
        self.node.state = state;
    }

    pub(crate) fn set_problem(&mut self, problem: Option<Problem>)
        ensures { self.new ≡ changed_node (with_problem problem) self.old }
    {
        self.node.problem = problem;
    }

    /// Gives back the holdings that were there.
    pub(crate) fn swap_holds(&mut self, holds: ResList) -> ResList
        ensures new { self.new ≡ changed_node (with_holds holds) self.old }
        ensures old { result ≡ self.old.node.holds }
    {
        mem::replace(&mut self.node.holds, holds)
    }

    /// Gives back the requirements that were there.
    pub(crate) fn swap_reqs(&mut self, reqs: Reqs) -> Reqs
        ensures new { self.new ≡ changed_node (with_reqs reqs) self.old }
        ensures old { result ≡ self.old.node.reqs }
    {
        mem::replace(&mut self.node.reqs, reqs)
    }

    /// Gives back the drivers that were there.
    pub(crate) fn swap_stack(&mut self, stack: Stack) -> Stack
        ensures new { self.new ≡ changed_node (with_drivers stack) self.old }
        ensures old { result ≡ self.old.node.stack }
    {
        mem::replace(&mut self.node.stack, stack)
    }

    pub(crate) fn set_stack(&mut self, stack: Stack, state: DevState)
        ensures { self.new ≡ changed_node (with_stack stack state) self.old }
    {
        self.node.stack = stack;
        self.node.state = state;
    }

    /// Gives back the holdings that were there.
    pub(crate) fn strip(&mut self, alloc: Global) -> ResList
        ensures new { self.new ≡ changed_node bare self.old }
        ensures old { result ≡ self.old.node.holds }
    {
        self.node.state = DevState::NoStack;
        self.node.stack = Stack::new(alloc);
        mem::replace(&mut self.node.holds, ResList::new(alloc))
    }

    /// Whether the node was told that it has gone.
    pub(crate) fn was_told(&self) -> bool
        ensures { result ≡ is_surprise_removed self.now.node.state }
    {
        matches!(self.node.state, DevState::SurpriseRemoved)
    }

    /// Whether the node is a child of another one, and has drivers.
    pub(crate) fn is_full_child(&self, parent: u64) -> bool
        ensures { result ≡ is_full_child parent self.now.node }
    {
        self.node.parent == parent && self.node.serial != 0 && self.node.stack.len() > 0
    }
}
