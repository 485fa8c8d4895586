ghost use Rattle.std.specs.Prelude.{◌≡◌, ◌<◌, ◌^◌, ◌↔◌, [], ◌∷◌, None, IfOk, OnErr, IsErrOf, IsSome, IsTrue, length, option_map, option_copied, slice_get, unwrap_or};
ghost use Rattle.pnp_model.specs.Cores.{node_at, with_state, with_problem, with_holds, with_drivers, with_stack, bare, fresh_node};
ghost use Rattle.pnp_model.specs.States.{node_of, node_born};
ghost use Rattle.pnp_model.specs.Tasks.{has_path};
ghost use Rattle.pnp_model.specs.Trees.{children, is_up};
ghost use Rattle.pnp_model.specs.Runs.{root_node};
ghost use Rattle.devnode_tree.specs.Bottoms.{BottomsFrom};
ghost use Rattle.devnode_tree.specs.Entries.{child_serials};
ghost use Rattle.devnode_tree.specs.Trees.{changed, with_node, without_node, CanLeave, IsTree, with_reqs};

use crate::births::Births;
use crate::bottoms::{lowered, lowest_left};
use crate::entries::{add, forget_child, place_of};
use crate::entry::Entry;
use crate::error::JoinError;
use crate::node::{Node, fresh, root};
use device_ids::{IdList, InstancePath, WantOfMemory};
use indexmap::IndexSet;
use pnp_labels::{DevState, Problem, Stack};
use resource_reqs::{Reqs, ResList};
use std::alloc::Global;
use std::marker::Model;

/// The device nodes, the root at the head, looked up by serial and by path without a scan (the driver kit,
/// "Device Nodes and Device Stacks"). A contract sees the nodes in the order in which they joined, which is that
/// of their serials, and the next serial.
pub struct Tree {
    /// Copies of the paths of the nodes, in the order of the entries.
    paths: IndexSet<InstancePath>,
    /// The birth numbers of the nodes, in the order of the entries.
    births: Births,
    /// A serial below which no node is a bottom: was told that it has gone, and has no child with drivers.
    lowest: u64,
    entries: Vec<Entry>,
    next: u64,
}

impl Drop for Tree {
    fn drop(self) {
        let Tree {
            paths: _,
            births: _,
            lowest: _,
            entries: _,
            next: _,
        } = self;
    }
}

impl Model for Tree {
    ghost use Rattle.std.specs.Prelude.{map};
    ghost use Rattle.device_ids.specs.Folding.{folded};
    ghost use Rattle.devnode_tree.specs.Trees.{Tree};
    ghost use Rattle.devnode_tree.specs.Entries.{tree_of, IsIndexed};

    ghost Value = { Tree };

    ghost view = { λ t. tree_of t.entries.items t.next };

    ghost invariant = { λ t. IsIndexed (map folded t.paths.keys) t.births t.lowest t.entries.items t.next };
}

impl Tree {
    /// The root alone: serial 0, born 0, started, with no identifiers, requirements, problem, drivers or holdings.
    pub fn new(alloc: Global) -> Result<Tree, WantOfMemory>
        ensures root { IfOk result (λ t. t ≡ record { nodes = root_node ∷ []; next = 1 }) }
        ensures tree { IfOk result (λ t. IsTree t) }
    {
        let root = root(alloc)?;
        let mut paths = IndexSet::new(alloc);
        let mut births = Births::new(alloc);
        let mut entries = Vec::new(alloc);
        add(&mut paths, &mut births, &mut entries, root)?;
        Ok(Tree {
            paths,
            births,
            lowest: u64::MAX,
            entries,
            next: 1,
        })
    }

    /// A node joins below a parent, without drivers, holdings or a problem, and its serial is given. Serials ascend
    /// from 1 and no serial is given twice. Condition: fewer than 2^63 were given. Errors, the first that holds:
    /// `NoParent` where no node has the serial of the parent, `SamePath` where a node has the path, up to ASCII
    /// case; and `WantOfMemory`. After an error the tree is as before. Cost: the length of the path and the
    /// logarithm of the number of nodes.
    pub fn join(
        &mut self,
        parent: u64,
        born: u64,
        path: InstancePath,
        hw: IdList,
        compat: IdList,
        reqs: Reqs,
    ) -> Result<u64, JoinError>
        requires room { self.old.next < 2 ^ 63 }
        ensures serial { IfOk result (λ serial. serial ≡ self.old.next) }
        ensures joined { IfOk result (λ serial. self.new ≡ with_node (fresh_node serial parent born path hw compat reqs) self.old) }
        ensures no_parent { IsErrOf result JoinError.NoParent ↔ (node_at parent self.old.nodes ≡ None) }
        ensures same_path { IsErrOf result JoinError.SamePath ↔ (IsSome (node_at parent self.old.nodes) × IsTrue (has_path path self.old.nodes)) }
        ensures err { OnErr result (self.new ≡ self.old) }
        ensures tree { IsTree self.new }
    {
        if place_of(&self.entries, parent).is_none() {
            return Err(JoinError::NoParent);
        }
        if self.paths.contains(&path) {
            return Err(JoinError::SamePath);
        }
        let serial = self.next;
        let alloc = *self.entries.allocator();
        let node = fresh(alloc, serial, parent, born, path, hw, compat, reqs);
        match add(&mut self.paths, &mut self.births, &mut self.entries, node) {
            Ok(()) => {
                self.next += 1;
                Ok(serial)
            }
            Err(_) => Err(JoinError::WantOfMemory),
        }
    }

    /// A node leaves, and all else stays. Conditions: it is there and `NoStack`, is not the root, and has no
    /// children. It takes no memory. Cost: the number of nodes.
    pub fn leave(&mut self, serial: u64)
        requires { CanLeave serial self.old.nodes }
        ensures { self.new ≡ without_node serial self.old }
    {
        if let Some(place) = place_of(&self.entries, serial) {
            let parent = self.entries[place].parent();
            forget_child(&mut self.entries, parent, serial);
            self.paths.shift_remove_index(place);
            self.births.remove(place);
            self.entries.remove(place);
            self.lowest = lowest_left(&self.entries, self.lowest, serial, parent);
        }
    }

    /// A node gets a state, and all else stays; nothing changes where no node has the serial. It takes no memory.
    /// Cost: the logarithm of the number of nodes.
    pub fn set_state(&mut self, serial: u64, state: DevState)
        ensures { self.new ≡ changed serial (with_state state) self.old }
    {
        if let Some(place) = place_of(&self.entries, serial) {
            let parent = self.entries[place].parent();
            self.entries[place].set_state(state);
            self.lowest = lowered(&self.entries, self.lowest, serial, parent);
        }
    }

    /// A node gets a problem, or none, and all else stays; nothing changes where no node has the serial. It takes
    /// no memory. Cost: the logarithm of the number of nodes.
    pub fn set_problem(&mut self, serial: u64, problem: Option<Problem>)
        ensures { self.new ≡ changed serial (with_problem problem) self.old }
    {
        if let Some(place) = place_of(&self.entries, serial) {
            self.entries[place].set_problem(problem);
        }
    }

    /// A node gets these holdings and the old ones are given back, and all else stays. Where no node has the
    /// serial, nothing changes and these come back. It takes no memory. Cost: the logarithm of the number of nodes.
    pub fn swap_holds(&mut self, serial: u64, holds: ResList) -> ResList
        ensures set { self.new ≡ changed serial (with_holds holds) self.old }
        ensures old { result ≡ unwrap_or (option_map (λ n. n.holds) (node_at serial self.old.nodes)) holds }
    {
        match place_of(&self.entries, serial) {
            Some(place) => self.entries[place].swap_holds(holds),
            None => holds,
        }
    }

    /// A node requires this from now on and what it required is given back, and all else stays. Where no node has the
    /// serial, nothing changes and these come back. It takes no memory. Cost: the logarithm of the number of nodes.
    pub fn swap_reqs(&mut self, serial: u64, reqs: Reqs) -> Reqs
        ensures set { self.new ≡ changed serial (with_reqs reqs) self.old }
        ensures old { result ≡ unwrap_or (option_map (λ n. n.reqs) (node_at serial self.old.nodes)) reqs }
        ensures tree { IsTree self.old }
    {
        match place_of(&self.entries, serial) {
            Some(place) => self.entries[place].swap_reqs(reqs),
            None => reqs,
        }
    }

    /// A node gets these drivers and the old ones are given back, and all else stays, its state too. Where no node
    /// has the serial, nothing changes and these come back. It takes no memory. Cost: the logarithm of the number
    /// of nodes.
    pub fn swap_stack(&mut self, serial: u64, stack: Stack) -> Stack
        ensures set { self.new ≡ changed serial (with_drivers stack) self.old }
        ensures old { result ≡ unwrap_or (option_map (λ n. n.stack) (node_at serial self.old.nodes)) stack }
    {
        match place_of(&self.entries, serial) {
            Some(place) => {
                let parent = self.entries[place].parent();
                let old = self.entries[place].swap_stack(stack);
                self.lowest = lowered(&self.entries, self.lowest, serial, parent);
                old
            }
            None => stack,
        }
    }

    /// A node gets these drivers and this state at once, and all else stays; nothing changes where no node has the
    /// serial. It takes no memory. Cost: the logarithm of the number of nodes.
    pub fn set_stack(&mut self, serial: u64, stack: Stack, state: DevState)
        ensures { self.new ≡ changed serial (with_stack stack state) self.old }
    {
        if let Some(place) = place_of(&self.entries, serial) {
            let parent = self.entries[place].parent();
            self.entries[place].set_stack(stack, state);
            self.lowest = lowered(&self.entries, self.lowest, serial, parent);
        }
    }

    /// A node loses its drivers and its holdings, which are given back, and is `NoStack`; all else stays, its
    /// problem too. Where no node has the serial, nothing changes and nothing is given back. It takes no memory.
    /// Cost: the logarithm of the number of nodes.
    pub fn strip(&mut self, serial: u64) -> ResList
        ensures set { self.new ≡ changed serial bare self.old }
        ensures old { result ≡ unwrap_or (option_map (λ n. n.holds) (node_at serial self.old.nodes)) [] }
    {
        let alloc = *self.entries.allocator();
        match place_of(&self.entries, serial) {
            Some(place) => {
                let parent = self.entries[place].parent();
                let holds = self.entries[place].strip(alloc);
                self.lowest = lowered(&self.entries, self.lowest, serial, parent);
                holds
            }
            None => ResList::new(alloc),
        }
    }

    /// The node with a serial, and none exactly where no node has it. It takes no memory. Cost: the logarithm of
    /// the number of nodes.
    pub fn node(&self, serial: u64) -> Option<&Node>
        ensures node { option_copied result ≡ node_at serial self.now.nodes }
        ensures tree { IsTree self.now }
    {
        let place = place_of(&self.entries, serial)?;
        Some(&self.entries[place].node)
    }

    /// The node with a serial. Condition: there is one. It takes no memory. Cost: the logarithm of the number of nodes.
    pub fn at(&self, serial: u64) -> &Node
        requires { IsSome (node_at serial self.now.nodes) }
        ensures node { Some result.now ≡ node_at serial self.now.nodes }
        ensures tree { IsTree self.now }
    {
        match self.node(serial) {
            Some(node) => node,
            None => unreachable!(),
        }
    }

    /// Whether the node with a serial is there and Started. It takes no memory. Cost: the logarithm of the number of
    /// nodes.
    pub fn is_up(&self, serial: u64) -> bool
        ensures { result ≡ is_up (node_at serial self.now.nodes) }
    {
        match self.node(serial) {
            Some(node) => node.state == DevState::Started,
            None => false,
        }
    }

    /// The serial of the node with a path, up to ASCII case, and none exactly where no node has it. It takes no
    /// memory. Cost: the length of the path.
    pub fn find(&self, path: &InstancePath) -> Option<u64>
        ensures { result ≡ option_map (λ n. n.serial) (node_of path.now self.now.nodes) }
    {
        let place = self.paths.get_index_of(path)?;
        Some(self.entries[place].serial())
    }

    /// The serial of the child at a place, in the order of serials, and none exactly past the last or where no node
    /// has the serial. It takes no memory. Cost: the logarithm of the number of nodes.
    pub fn child(&self, serial: u64, at: u64) -> Option<u64>
        ensures { result ≡ option_map (λ n. n.serial) (slice_get (children serial self.now.nodes) at) }
    {
        self.children(serial).get(at as usize).copied()
    }

    /// The serial of the first node with a birth number, and none exactly where no node has it. It takes no memory.
    /// Cost: the logarithm of the number of nodes, while each device that joined was born after the last one that was there;
    /// else one look at the birth number of each.
    pub fn find_born(&self, born: u64) -> Option<u64>
        ensures { result ≡ option_map (λ n. n.serial) (node_born born self.now.nodes) }
    {
        let place = self.births.find(born)?;
        Some(self.entries[place].serial())
    }

    /// The node at a place, in the order in which they joined, and none exactly past the last. It takes no memory. Cost:
    /// constant.
    pub fn get(&self, at: usize) -> Option<&Node>
        ensures node { option_copied result ≡ slice_get self.now.nodes at }
        ensures tree { IsTree self.now }
    {
        let entry = self.entries.get(at)?;
        Some(&entry.node)
    }

    /// A serial below which no node is a bottom: was told that it has gone, and has no child with drivers. It takes no memory.
    /// Cost: constant.
    pub fn lowest_bottom(&self) -> u64
        ensures { BottomsFrom result self.now.nodes }
    {
        self.lowest
    }

    /// How many nodes there are, the root among them.
    pub fn len(&self) -> usize
        ensures len { result ≡ length self.now.nodes }
        ensures tree { IsTree self.now }
    {
        self.entries.len()
    }

    /// The serials of the children of a node in order, and none of them where no node has the serial. Cost: the
    /// logarithm of the number of nodes.
    pub fn children(&self, serial: u64) -> &[u64]
        ensures { result.now ≡ child_serials self.now.nodes serial }
    {
        match place_of(&self.entries, serial) {
            Some(place) => &self.entries[place].children,
            None => &[],
        }
    }
}
