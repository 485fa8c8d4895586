use device_ids::{InstancePath, Text, WantOfMemory};
use devnode_tree::Tree;
use std::alloc::{AllocError, Global};
use std::collections::BTreeMap;

/// The names of drivers by their numbers in the rack, as far as a run told them. This project's own.
#[derive(Drop)]
pub struct DriverNames {
    names: BTreeMap<u32, Text>,
}

impl DriverNames {
    /// No name. It takes no memory.
    pub fn new(alloc: Global) -> DriverNames {
        DriverNames {
            names: BTreeMap::new(alloc),
        }
    }

    /// The driver of this number has this name. Cost: the logarithm of the number of names.
    pub fn put(&mut self, alloc: Global, number: u32, name: &Text) -> Result<(), WantOfMemory> {
        let name = name.copy(alloc)?;
        match self.names.insert(number, name) {
            Ok(_) => Ok(()),
            Err(_) => Err(AllocError),
        }
    }

    /// A driver was added to the device of a path: in the tree behind that label it is the topmost of the device's drivers. Nothing
    /// changes where the tree has no such device. Cost: the length of the path.
    pub fn note_added(
        &mut self,
        alloc: Global,
        tree: &Tree,
        path: &Text,
        driver: &Text,
    ) -> Result<(), WantOfMemory> {
        let Ok(path) = InstancePath::read(alloc, path.bytes()) else {
            return Ok(());
        };
        let Some(node) = tree.find(&path).and_then(|serial| tree.node(serial)) else {
            return Ok(());
        };
        let drivers = node.stack.len();
        if drivers == 0 {
            return Ok(());
        }
        let number = *node.stack.get(drivers - 1);
        self.put(alloc, number, driver)
    }

    /// The name of a driver, if it was told.
    pub fn of(&self, number: u32) -> Option<&Text> {
        self.names.get(&number)
    }
}
