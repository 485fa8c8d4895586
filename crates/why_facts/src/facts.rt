//! What notes have to know besides the tree: what was said that it does not show, and what was seen since an operation began.
use crate::sources::Sources;
use device_ids::{Text, TextList, WantOfMemory};
use pnp_labels::{Minor, OpKind, RelKind};
use resource_reqs::{Reqs, ResList};
use std::alloc::Global;

/// Two devices that were related. This project's own.
#[derive(Drop)]
pub struct Relation {
    pub kind: RelKind,
    pub owner: Text,
    pub member: Text,
}

/// A driver that was asked for a device. This project's own.
#[derive(Drop)]
pub struct AskedDriver {
    pub minor: Minor,
    pub path: Text,
    pub driver: Text,
}

/// A device that got a node of this serial. This project's own.
#[derive(Drop)]
pub struct Joined {
    pub serial: u64,
    pub path: Text,
}

/// A driver that did not add a device. This project's own.
pub struct FailedAdd {
    pub path: Text,
    pub driver: Text,
}

impl Drop for FailedAdd {
    fn drop(self) {
        let FailedAdd { path: _, driver: _ } = self;
    }
}

/// The lines that were told at the last `nofit` of a device outside a rebalance. This project's own.
pub struct InTheWay {
    pub path: Text,
    pub lines: Vec<Vec<u8>>,
}

impl Drop for InTheWay {
    fn drop(self) {
        let InTheWay { path: _, lines: _ } = self;
    }
}

/// What a device of this serial held at some time. This project's own.
#[derive(Drop)]
pub struct Holding {
    pub serial: u64,
    pub held: ResList,
}

/// What a running device is to require from now on. This project's own.
#[derive(Drop)]
pub struct Change {
    pub path: Text,
    pub reqs: Reqs,
}

/// All that notes know besides the tree. This project's own.
pub struct Facts {
    /// The INFs.
    pub sources: Sources,
    /// How many places a search may try.
    pub budget: u64,
    /// The names that drivers got.
    pub drivers: TextList,
    /// The relations that were made, also those that ended.
    pub relations: Vec<Relation>,
    /// The ranges that nobody is given.
    pub reserved: ResList,
    /// What devices are to require from now on.
    pub changes: Vec<Change>,
    /// The drivers that pended a request which no line completed.
    pub pended: Vec<AskedDriver>,
    /// The drivers that refused since the last operation began.
    pub refused: Vec<AskedDriver>,
    /// Whether a window was set.
    pub windows: bool,
    /// The operation that runs, and the path of its device.
    pub operation: Option<OpKind>,
    pub target: Vec<u8>,
    /// The nodes that joined, also those that left.
    pub joined: Vec<Joined>,
    /// The paths of the handles that are open, one for each handle.
    pub handles: Vec<Text>,
    /// The device for which a client refused last.
    pub refused_on: Option<Text>,
    /// The driver that did not add a device last.
    pub failed_add: Option<FailedAdd>,
    /// What was told to be in the way of a device last.
    pub in_the_way: Option<InTheWay>,
    /// What all devices held when a rebalance found that it fits.
    pub before: Vec<Holding>,
}

impl Drop for Facts {
    fn drop(self) {
        let Facts {
            sources: _,
            budget: _,
            drivers: _,
            relations: _,
            reserved: _,
            changes: _,
            pended: _,
            refused: _,
            windows: _,
            operation: _,
            target: _,
            joined: _,
            handles: _,
            refused_on: _,
            failed_add: _,
            in_the_way: _,
            before: _,
        } = self;
    }
}

/// Takes out what stands at a place, if something does.
fn remove_at<T: Drop>(all: &mut Vec<T>, at: usize) {
    if at < all.len() {
        let _ = all.remove(at);
    }
}

impl Facts {
    /// Nothing was said yet. It takes no memory.
    pub fn new(alloc: Global, sources: Sources, budget: u64) -> Facts {
        Facts {
            sources,
            budget,
            drivers: TextList::new(alloc),
            relations: Vec::new(alloc),
            reserved: ResList::new(alloc),
            changes: Vec::new(alloc),
            pended: Vec::new(alloc),
            refused: Vec::new(alloc),
            windows: false,
            operation: None,
            target: Vec::new(alloc),
            joined: Vec::new(alloc),
            handles: Vec::new(alloc),
            refused_on: None,
            failed_add: None,
            in_the_way: None,
            before: Vec::new(alloc),
        }
    }

    /// Two devices were related.
    pub fn related(
        &mut self,
        kind: RelKind,
        owner: Text,
        member: Text,
    ) -> Result<(), WantOfMemory> {
        self.relations.push(Relation {
            kind,
            owner,
            member,
        })?;
        Ok(())
    }

    /// A device is to require something else.
    pub fn changes(&mut self, path: Text, reqs: Reqs) -> Result<(), WantOfMemory> {
        self.changes.push(Change { path, reqs })?;
        Ok(())
    }

    /// A request that a driver pended was failed by it.
    pub fn failed(&mut self, alloc: Global, path: &Text, minor: Minor) -> Result<(), WantOfMemory> {
        let mut driver = None;
        for asked in &self.pended {
            if asked.minor == minor && asked.path.same(path) {
                driver = Some(asked.driver.copy(alloc)?);
            }
        }
        if let Some(driver) = driver {
            let path = path.copy(alloc)?;
            self.refused.push(AskedDriver {
                minor,
                path,
                driver,
            })?;
        }
        Ok(())
    }

    /// A request that a driver pended was completed.
    pub fn completed(&mut self, path: &Text, minor: Minor) {
        let mut last = None;
        for at in 0..self.pended.len() {
            if self.pended[at].minor == minor && self.pended[at].path.same(path) {
                last = Some(at);
            }
        }
        if let Some(at) = last {
            remove_at(&mut self.pended, at);
        }
    }

    /// A handle to the device of a path was opened.
    pub fn opened(&mut self, path: Text) -> Result<(), WantOfMemory> {
        self.handles.push(path)?;
        Ok(())
    }

    /// One was closed.
    pub fn closed(&mut self, path: &Text) {
        let mut last = None;
        for at in 0..self.handles.len() {
            if self.handles[at].same(path) {
                last = Some(at);
            }
        }
        if let Some(at) = last {
            remove_at(&mut self.handles, at);
        }
    }
}
