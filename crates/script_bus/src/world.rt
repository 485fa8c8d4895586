ghost use Rattle.std.specs.Prelude.{◌≡◌, ◌≢◌, ◌+◌, ◌<◌, ◌≤◌, ◌^◌, ◌↔◌, [], ◌∷◌, None, IfOk, IfSome, OnOk, OnErr, IsErrOf, IsSome, IsTrue, Bool, true, false, ℕ, Some, length, nat_eq, option_map, option_copied};
ghost use Rattle.std.specs.HashMap.{get};
ghost use Rattle.pnp_model.specs.Cores.{fresh_node, node_at};
ghost use Rattle.pnp_model.specs.Tasks.{has_path};
ghost use Rattle.pnp_model.specs.Runs.{root_device, root_node};
ghost use Rattle.pnp_model.specs.States.{device_born, device_of, has_below, is_in_world};
ghost use Rattle.devnode_tree.specs.Trees.{IsTree, with_node};
ghost use Rattle.script_bus.specs.Worlds.{with_device, without_device, plugged, changed, part_of, parent_in, child_births, IsWorld, PassesDown, without_leaf};

use crate::device::Device;
use crate::error::{PlugError, PullError};
use device_ids::{IdList, InstancePath, WantOfMemory};
use devnode_tree::{JoinError, Tree};
use resource_reqs::Reqs;
use std::alloc::{AllocError, Global};
use std::collections::HashMap;
use std::marker::Model;

/// The most devices besides the root. This project's own.
const MOST_DEVICES: usize = 4096;

/// The devices that a script has plugged and not pulled, the root at the head, looked up by birth number and by path
/// without a scan. Birth numbers ascend and none is given twice. A contract sees the devices in the order of their
/// births, and the next birth number. This project's own.
pub struct World {
    /// Who stands below whom, with the birth numbers as serials; these nodes have no drivers and no IDs.
    places: Tree,
    /// What each device shows, by its birth number.
    parts: HashMap<u64, Device>,
    alloc: Global,
}

impl Drop for World {
    fn drop(self) {
        let World {
            places: _,
            parts: _,
            alloc: _,
        } = self;
    }
}

impl Model for World {
    ghost use Rattle.script_bus.specs.Worlds.{World};
    ghost use Rattle.script_bus.specs.Kept.{world_of, IsKept};

    ghost Value = { World };

    ghost view = { λ w. world_of w.places w.parts };

    ghost invariant = { λ w. IsKept w.places w.parts };
}

impl World {
    /// The root alone: birth number 0, the root's path, no identifiers and no requirements.
    pub fn new(alloc: Global) -> Result<World, WantOfMemory>
        ensures { IfOk result (λ w. w ≡ record { devices = root_device ∷ []; next = 1 }) }
    {
        let places = Tree::new(alloc)?;
        let parts = root_part(alloc, &places)?;
        Ok(World {
            places,
            parts,
            alloc,
        })
    }

    /// A device is born below another, and its birth number is given. Condition: fewer than 2^63 were given. Errors, the
    /// first that holds: `NoParent` where no device has the path of the parent, `SameId` where one has the path, both up
    /// to ASCII case, `WorldFull` at 4,096 devices besides the root; and `WantOfMemory`. After an error the world is as
    /// before. Cost: the lengths of the paths and the logarithm of the number of devices.
    pub fn plug(
        &mut self,
        parent: &InstancePath,
        path: InstancePath,
        hw: IdList,
        compat: IdList,
        reqs: Reqs,
    ) -> Result<u64, PlugError>
        requires room { self.old.next < 2 ^ 63 }
        ensures born { IfOk result (λ born. born ≡ self.old.next) }
        ensures plugged { IfSome (device_of parent.now self.old.devices) (λ over. OnOk result (self.new ≡ plugged over.born path hw compat reqs self.old)) }
        ensures next { OnOk result (self.new.next ≡ self.old.next + 1) }
        ensures no_parent { IsErrOf result PlugError.NoParent ↔ (device_of parent.now self.old.devices ≡ None) }
        ensures same_id { IsErrOf result PlugError.SameId ↔ (IsSome (device_of parent.now self.old.devices) × IsSome (device_of path self.old.devices)) }
        ensures full { IsErrOf result PlugError.WorldFull ↔ (IsSome (device_of parent.now self.old.devices) × (device_of path self.old.devices ≡ None) × (4096 < length self.old.devices)) }
        ensures err { OnErr result (self.new ≡ self.old) }
    {
        let Some(over) = self.born_of(parent) else {
            return Err(PlugError::NoParent);
        };
        if self.born_of(&path).is_some() {
            return Err(PlugError::SameId);
        }
        if self.places.len() > MOST_DEVICES {
            return Err(PlugError::WorldFull);
        }
        let device = Device {
            path,
            hw,
            compat,
            reqs,
        };
        match self.add(over, device) {
            Ok(born) => Ok(born),
            Err(_) => Err(PlugError::WantOfMemory),
        }
    }

    /// A device is born below another.
    fn add(&mut self, parent: u64, device: Device) -> Result<u64, WantOfMemory>
        requires room { self.old.next < 2 ^ 63 }
        requires parent { IsSome (device_born parent self.old.devices) }
        requires path { device_of device.path self.old.devices ≡ None }
        ensures born { IfOk result (λ born. born ≡ self.old.next) }
        ensures added { OnOk result (self.new ≡ plugged parent device.path device.hw device.compat device.reqs self.old) }
        ensures err { OnErr result (self.new ≡ self.old) }
    {
        self.parts.reserve(1)?;
        let born = place(self.alloc, &mut self.places, parent, &device.path)?;
        let _ = self.parts.insert(born, device);
        Ok(born)
    }

    /// Takes the device of a path and all below it out of the world, and gives its parent's birth number. Errors, the
    /// first that holds: `NoDevice` where no device has the path, up to ASCII case, and `RootStays` at the root's. After
    /// an error the world is as before. It takes no memory. Cost: for each device that goes the logarithm of the number
    /// of devices and the number of those that were born later.
    pub fn pull(&mut self, path: &InstancePath) -> Result<u64, PullError>
        ensures pulled { IfSome (device_of path.now self.old.devices) (λ d. IfOk result (λ parent. (parent ≡ d.parent) × (self.new ≡ without_device d.born self.old))) }
        ensures no_device { IsErrOf result PullError.NoDevice ↔ (device_of path.now self.old.devices ≡ None) }
        ensures root_stays { IsErrOf result PullError.RootStays ↔ (option_map (λ d. d.born) (device_of path.now self.old.devices) ≡ Some 0) }
        ensures err { OnErr result (self.new ≡ self.old) }
    {
        let Some(born) = self.born_of(path) else {
            return Err(PullError::NoDevice);
        };
        match self.parent_of(born) {
            Some(parent) => {
                self.unplug(born);
                Ok(parent)
            }
            None => Err(PullError::RootStays),
        }
    }

    /// Takes a device and all below it out of the world, where it is there. Condition: it is not the root. It takes no
    /// memory. Cost: as `pull`.
    pub fn unplug(&mut self, born: u64)
        requires { born ≢ 0 }
        ensures { self.new ≡ without_device born self.old }
    {
        if !self.has(born) {
            return;
        }
        let mut at = born;
        while self.has(born) {
            let leaf = self.last_below(at);
            at = self.parent_of(leaf).unwrap_or(born);
            self.take_leaf(leaf);
        }
    }

    /// A device requires this from now on; nothing changes where no device has the birth number. It takes no memory. Cost:
    /// constant on average.
    pub fn change_reqs(&mut self, born: u64, reqs: Reqs)
        ensures { self.new ≡ changed born reqs self.old }
    {
        let Some(device) = self.parts.get_mut(&born) else {
            return;
        };
        device.reqs = reqs;
    }

    /// From a device downwards, the last child of each, to one without children.
    fn last_below(&self, born: u64) -> u64
        requires { IsTrue (is_in_world self.now.devices born) }
        ensures there { IsTrue (is_in_world self.now.devices result) }
        ensures leaf { child_births self.now.devices result ≡ [] }
        ensures passes { (p : ℕ → Bool) → PassesDown self.now.devices p → p born ≡ true → p result ≡ true }
    {
        let mut at = born;
        while let Some(child) = self.children(at).last() {
            at = *child;
        }
        at
    }

    /// Takes a device without children out of the world.
    fn take_leaf(&mut self, born: u64)
        requires no_root { born ≢ 0 }
        requires there { IsTrue (is_in_world self.old.devices born) }
        requires leaf { child_births self.old.devices born ≡ [] }
        ensures { self.new ≡ without_leaf born self.old }
    {
        self.places.leave(born);
        self.parts.remove(&born);
    }

    /// Whether a device has the birth number. Cost: the logarithm of the number of devices.
    pub fn has(&self, born: u64) -> bool
        ensures has { result ≡ is_in_world self.now.devices born }
        ensures world { IsWorld self.now }
    {
        self.places.node(born).is_some()
    }

    /// Whether a device stands directly below the one with a birth number; none stands below a number that no device
    /// has. It takes no memory. Cost: the logarithm of the number of devices.
    pub fn has_child(&self, born: u64) -> bool
        ensures child { result ≡ has_below born self.now.devices }
        ensures world { IsWorld self.now }
    {
        !self.children(born).is_empty()
    }

    /// The birth number of the device of a path, up to ASCII case, and none exactly where no device has it. Cost: the
    /// length of the path.
    pub fn born_of(&self, path: &InstancePath) -> Option<u64>
        ensures { result ≡ option_map (λ d. d.born) (device_of path.now self.now.devices) }
    {
        self.places.find(path)
    }

    /// The birth number of a device's parent, and none exactly where no device has the birth number, and at the root.
    /// Cost: the logarithm of the number of devices.
    pub fn parent_of(&self, born: u64) -> Option<u64>
        ensures parent { result ≡ parent_in self.now.devices born }
        ensures world { IsWorld self.now }
    {
        let place = self.places.node(born);
        if born == 0 {
            return None;
        }
        match place {
            Some(node) => Some(node.parent),
            None => None,
        }
    }

    /// What the device with a birth number shows, and none exactly where no device has it. Cost: the logarithm of the
    /// number of devices.
    pub fn part(&self, born: u64) -> Option<&Device>
        ensures part { option_copied result ≡ option_map part_of (device_born born self.now.devices) }
        ensures world { IsWorld self.now }
    {
        match self.places.node(born) {
            Some(_) => self.parts.get(&born),
            None => None,
        }
    }

    /// The birth numbers of the devices below a device, in order. Cost: the logarithm of the number of devices.
    pub(crate) fn children(&self, born: u64) -> &[u64]
        ensures children { result.now ≡ child_births self.now.devices born }
        ensures world { IsWorld self.now }
    {
        self.places.children(born)
    }
}

/// What the root shows, by its birth number.
fn root_part(alloc: Global, places: &Tree) -> Result<HashMap<u64, Device>, WantOfMemory>
    requires { places.now ≡ record { nodes = root_node ∷ []; next = 1 } }
    ensures { IfOk result (λ parts. get nat_eq parts 0 ≡ Some (part_of root_device)) }
{
    let path = places.at(0).path.copy(alloc)?;
    let mut parts = HashMap::new(alloc);
    parts.insert(0, bare(alloc, path))?;
    Ok(parts)
}

/// Gives a device a place below another, and its birth number. Conditions: the parent has a place, and no place has the
/// path; so memory alone can be wanting.
fn place(
    alloc: Global,
    places: &mut Tree,
    parent: u64,
    path: &InstancePath,
) -> Result<u64, WantOfMemory>
    requires room { places.old.next < 2 ^ 63 }
    requires parent { IsSome (node_at parent places.old.nodes) }
    requires path { has_path path.now places.old.nodes ≡ false }
    ensures born { IfOk result (λ born. born ≡ places.old.next) }
    ensures joined { OnOk result (places.new ≡ with_node (fresh_node places.old.next parent 0 path.now [] [] []) places.old) }
    ensures tree { OnOk result (IsTree places.new) }
    ensures err { OnErr result (places.new ≡ places.old) }
{
    let copy = path.copy(alloc)?;
    let ids = IdList::new(alloc);
    let compat = IdList::new(alloc);
    match places.join(parent, 0, copy, ids, compat, Reqs::new(alloc)) {
        Ok(born) => Ok(born),
        Err(JoinError::WantOfMemory) => Err(AllocError),
        Err(JoinError::NoParent | JoinError::SamePath) => unreachable!(),
    }
}

/// A device without identifiers and requirements.
fn bare(alloc: Global, path: InstancePath) -> Device
    ensures { result ≡ record { path = path; hw = []; compat = []; reqs = [] } }
{
    Device {
        path,
        hw: IdList::new(alloc),
        compat: IdList::new(alloc),
        reqs: Reqs::new(alloc),
    }
}
