ghost use Rattle.std.specs.Prelude.{◌≡◌, ◌≢◌, ◌==◌, if◌then◌else◌, ◌<◌, ◌≤◌, ◌^◌, true, IfOk, IfSome, OnErr, IsSome, option_map};
ghost use Rattle.std.specs.List.{AllByRecursion};
ghost use Rattle.pnp_labels.specs.Texts.{Text as Letters};
ghost use Rattle.devnode_tree.specs.Trees.{IsTree};
ghost use Rattle.devnode_tree.specs.declared.error.JoinError.TheVariants as JoinError;
ghost use Rattle.pnp_model.specs.Cores.{node_at};
ghost use Rattle.pnp_model.specs.Windows.{clip};
ghost use Rattle.pnp_model.specs.States.{device_of};
ghost use Rattle.script_bus.specs.Worlds.{without_device};
ghost use Rattle.pnp_machine.specs.Devices.{Arrives, Departs, JoinedFor, joins_next, serial_born, relisted, gone_below, has_any_below, is_gone_at, is_here, is_here_at, window_refusal, with_window, IsHere, IsTold};

use crate::devices::Devices;
use crate::listing::is_surprise_removed;
use crate::tasks::Tasks;
use bridge_windows::{Bridges, WindowError, clip};
use device_ids::{IdList, InstancePath, Text, WantOfMemory};
use devnode_tree::{JoinError, Node, Tree};
use pnp_labels::Reason;
use resource_reqs::{Reqs, Res};
use script_bus::{Device, PlugError, PullError, next_join};
use std::alloc::{AllocError, Global};

/// What a device of the world shows to the node below which it joins, copied: it requires only what comes through to it.
fn clipped(
    alloc: Global,
    tree: &Tree,
    bridges: &Bridges,
    parent: u64,
    device: &Device,
) -> Result<Device, WantOfMemory>
    requires { IsSome (node_at parent tree.now.nodes) }
    ensures { IfOk result (λ copy. copy ≡ record device.now { reqs = clip bridges.now tree.now.nodes parent device.now.reqs }) }
{
    Ok(Device {
        path: device.path.copy(alloc)?,
        hw: device.hw.copy(alloc)?,
        compat: device.compat.copy(alloc)?,
        reqs: clip(alloc, tree, bridges, parent, &device.reqs)?,
    })
}

/// A join that can be refused for want of memory alone.
fn only_memory(error: JoinError) -> WantOfMemory
    requires { error ≡ JoinError.WantOfMemory }
{
    match error {
        JoinError::WantOfMemory => AllocError,
        JoinError::NoParent | JoinError::SamePath => unreachable!(),
    }
}

/// Whether a window was refused because the device has one of the kind, or was set.
fn told(set: Result<(), WindowError>) -> Result<Option<Reason>, WantOfMemory>
    ensures { IsTold set result }
{
    match set {
        Ok(()) => Ok(None),
        Err(WindowError::SameWindow) => Ok(Some(Reason::SameWindow)),
        Err(WindowError::WantOfMemory) => Err(AllocError),
    }
}

/// From which birth number on the children of a device are looked at, where of those of the last one they are looked at
/// from some number on.
fn from_at(over: u64, last: u64, from: u64) -> u64
    ensures { result ≡ (if over == last then from else 0) }
{
    if over == last { from } else { 0 }
}

impl Devices {
    /// The node of the device of a path of the world.
    pub(crate) fn node_of_device(&self, path: &InstancePath) -> Option<u64>
        ensures { IfSome (device_of path.now self.now.world.devices) (λ d. result ≡ serial_born d.born self.now.tree.nodes) }
    {
        let born = self.world.born_of(path)?;
        self.tree.find_born(born)
    }

    /// The path of a device as the world spells it; none exactly where the world has no such device.
    pub(crate) fn path_in_world(&self, path: &InstancePath) -> Option<&InstancePath>
        ensures { option_map (λ p. p.now) result ≡ option_map (λ d. d.path) (device_of path.now self.now.world.devices) }
    {
        let born = self.world.born_of(path)?;
        match self.world.part(born) {
            Some(part) => Some(&part.path),
            None => None,
        }
    }

    /// A device arrives, as `World::plug` says.
    pub(crate) fn plug(
        &mut self,
        parent: &InstancePath,
        path: InstancePath,
        hw: IdList,
        compat: IdList,
        reqs: Reqs,
    ) -> Result<u64, PlugError>
        requires room { self.old.world.next < 2 ^ 63 }
        ensures arrives { Arrives self.old.world parent.now path hw compat reqs result self.new.world }
        ensures same { self.new ≡ record self.old { world = self.new.world } }
    {
        self.world.plug(parent, path, hw, compat, reqs)
    }

    /// The device of a path goes, with all below it, as `World::pull` says; the node of its parent is told. It takes no
    /// memory. Cost: as `World::pull`, and that of `Tree::find_born`.
    pub(crate) fn pull(&mut self, path: &InstancePath) -> Result<Option<u64>, PullError>
        ensures { Departs self.old path.now result self.new }
    {
        let parent = self.world.pull(path)?;
        self.from = 0;
        self.whole = None;
        Ok(self.tree.find_born(parent))
    }

    /// The device with a birth number goes, with all below it, as `World::unplug` says.
    pub(crate) fn unplug(&mut self, born: u64)
        requires { born ≢ 0 }
        ensures { self.new ≡ record self.old { world = without_device born self.old.world } }
    {
        self.world.unplug(born);
        self.from = 0;
        self.whole = None;
    }

    /// Whether a device of the world, or a node, stands below the device of a birth number. Cost: that of
    /// `Tree::find_born`.
    fn has_any_below(&self, born: u64) -> bool
        ensures { result ≡ has_any_below self.now born }
    {
        if self.world.has_child(born) {
            return true;
        }
        match self.tree.find_born(born) {
            Some(serial) => !self.tree.children(serial).is_empty(),
            None => false,
        }
    }

    /// The device of a path passes on only what lies in a range of its kind from now on; else the reason why not is told,
    /// the first that holds: the world has no such device, it is the root, a device stands below it, or it has a window
    /// of the kind; and nothing changes. After want of memory all is as before. Cost: the length of the path, and that of
    /// `Tree::find_born`.
    pub(crate) fn set_window(
        &mut self,
        path: &InstancePath,
        res: Res,
    ) -> Result<Option<Reason>, WantOfMemory>
        ensures refused { IfOk result (λ refused. refused ≡ window_refusal self.old res (device_of path.now self.old.world.devices)) }
        ensures set { IfOk result (λ refused. self.new ≡ with_window self.old res (device_of path.now self.old.world.devices) refused) }
        ensures err { OnErr result (self.new ≡ self.old) }
    {
        let Some(born) = self.world.born_of(path) else {
            return Ok(Some(Reason::NoDevice));
        };
        if born == 0 {
            return Ok(Some(Reason::RootStays));
        }
        if self.has_any_below(born) {
            return Ok(Some(Reason::HasChildren));
        }
        let set = self.bridges.set(born, res);
        told(set)
    }

    /// Where the world has another device of a path than the one with the birth number, the node of its parent. Cost: the
    /// length of the path, and where there is one that of `Tree::find_born`.
    pub(crate) fn relisted(&self, path: &InstancePath, born: u64) -> Option<u64>
        ensures { result ≡ relisted path.now born self.now }
    {
        let other = self.world.born_of(path)?;
        if other == born {
            return None;
        }
        let parent = self.world.parent_of(other).unwrap_or(0);
        self.tree.find_born(parent)
    }

    /// The first device that is to join below a node. Below the node where one joined last it looks on from that one.
    fn next_to_join(&self, serial: u64) -> Option<u64>
        requires { IsSome (node_at serial self.now.tree.nodes) }
        ensures { result ≡ joins_next (node_at serial self.now.tree.nodes) self.now }
    {
        let node = self.tree.at(serial);
        let from = from_at(node.born, self.over, self.from);
        next_join(&self.world, &self.tree, serial, from)
    }

    /// The first device that is to join below a node joins, and its serial and path are told; none where none is to.
    /// Conditions: the node is there, and fewer than 2^63 nodes joined. After want of memory all is as before. Cost: what
    /// the device shows, the climb of `bridge_windows::clip`, and that of `Tree::find_born`.
    pub(crate) fn join_next(
        &mut self,
        alloc: Global,
        serial: u64,
    ) -> Result<Option<(u64, Text)>, WantOfMemory>
        requires there { IsSome (node_at serial self.old.tree.nodes) }
        requires room { self.old.tree.next < 2 ^ 63 }
        ensures joined { IfOk result (λ joined. JoinedFor (node_at serial self.old.tree.nodes) joined self.old self.new) }
        ensures err { OnErr result (self.new ≡ self.old) }
    {
        let Some(born) = self.next_to_join(serial) else {
            return Ok(None);
        };
        let Some(node) = self.tree.node(serial) else {
            unreachable!()
        };
        let over = node.born;
        let Some(part) = self.world.part(born) else {
            unreachable!()
        };
        let path = part.path.text(alloc)?;
        let device = clipped(alloc, &self.tree, &self.bridges, serial, part)?;
        let joined = self.tree.join(
            serial,
            born,
            device.path,
            device.hw,
            device.compat,
            device.reqs,
        );
        match joined {
            Ok(joined) => {
                self.over = over;
                self.from = born + 1;
                Ok(Some((joined, path)))
            }
            Err(error) => Err(only_memory(error)),
        }
    }

    /// Whether the device of a node is in the world, or was told that it has gone.
    fn stays(&self, node: &Node) -> bool
        ensures { result ≡ is_here self.now.world.devices node.now }
    {
        is_surprise_removed(node.state) || self.world.has(node.born)
    }

    /// Whether the device of a node is gone from the world, was not told so, and no surprise removal of it is due.
    fn is_gone(&self, tasks: &Tasks, serial: u64) -> bool
        ensures gone { result ≡ is_gone_at self.now tasks.now.tasks serial }
        ensures tree { IsTree self.now.tree }
    {
        match self.tree.node(serial) {
            Some(node) => !self.stays(node) && !tasks.has_surprise(serial),
            None => false,
        }
    }

    /// Whether each child of a node is known to be in the world or SurpriseRemoved.
    fn is_whole(&self, serial: u64) -> bool
        ensures { result ≡ true → AllByRecursion (IsHere serial self.now.world.devices) self.now.tree.nodes }
    {
        match self.whole {
            Some(whole) => whole == serial,
            None => false,
        }
    }

    /// Whether a node is there and its device is in the world or SurpriseRemoved.
    fn is_here(&self, serial: u64) -> bool
        ensures here { result ≡ is_here_at self.now.world.devices (node_at serial self.now.tree.nodes) }
        ensures tree { IsTree self.now.tree }
    {
        match self.tree.node(serial) {
            Some(node) => self.stays(node),
            None => false,
        }
    }

    /// Whether a node has children, and each of them is in the world or SurpriseRemoved.
    fn has_all(&self, serial: u64) -> bool
        ensures { result ≡ true → AllByRecursion (IsHere serial self.now.world.devices) self.now.tree.nodes }
    {
        for child in self.tree.children(serial) {
            if !self.is_here(*child) {
                return false;
            }
        }
        !self.tree.children(serial).is_empty()
    }

    /// The first child of a node that is gone from the world, was not told so and has no surprise task.
    fn first_gone(&self, tasks: &Tasks, serial: u64) -> Option<u64>
        ensures { result ≡ option_map (λ n. n.serial) (gone_below self.now tasks.now.tasks serial) }
    {
        for child in self.tree.children(serial) {
            if self.is_gone(tasks, *child) {
                return Some(*child);
            }
        }
        None
    }

    /// The first child of a node that is gone from the world, was not told so and has no surprise task. It takes no memory. Cost: the number of
    /// children; nothing for the node with children for which this was asked last, where none was gone and no device went since.
    pub(crate) fn gone_below(&mut self, tasks: &Tasks, serial: u64) -> Option<u64>
        ensures gone { result ≡ option_map (λ n. n.serial) (gone_below self.old tasks.now.tasks serial) }
        ensures same { self.new ≡ self.old }
    {
        if self.is_whole(serial) {
            return None;
        }
        if self.has_all(serial) {
            self.whole = Some(serial);
            return None;
        }
        self.first_gone(tasks, serial)
    }
}
