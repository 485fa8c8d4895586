ghost use Rattle.std.specs.Prelude.{◌≡◌, ◌<◌, ◌++◌, [], ◌∷◌, length, slice_get, Some, OnOk, OnErr};

use device_ids::WantOfMemory;
use std::alloc::Global;
use std::marker::Model;

/// Serial numbers of nodes in some order. A contract sees the list of the numbers. This project's own.
pub struct SerialList {
    serials: Vec<u64>,
}

impl Drop for SerialList {
    fn drop(self) {
        let SerialList { serials: _ } = self;
    }
}

impl Model for SerialList {
    ghost use Rattle.std.specs.Prelude.{List, ℕ};

    ghost Value = { List ℕ };

    ghost view = { λ l. l.serials.items };
}

impl SerialList {
    /// No number. It takes no memory.
    pub fn new(alloc: Global) -> SerialList
        ensures { result ≡ [] }
    {
        SerialList {
            serials: Vec::new(alloc),
        }
    }

    /// Appends a number; after want of memory the list is as before.
    pub fn push(&mut self, part: u64) -> Result<(), WantOfMemory>
        ensures pushed { OnOk result (self.new ≡ self.old ++ part ∷ []) }
        ensures err { OnErr result (self.new ≡ self.old) }
    {
        self.serials.push(part)?;
        Ok(())
    }

    /// How many numbers there are.
    pub fn len(&self) -> u64
        ensures { result ≡ length self.now }
    {
        self.serials.len() as u64
    }

    /// The number at a place.
    pub fn get(&self, at: u64) -> &u64
        requires { at < length self.now }
        ensures { slice_get self.now at ≡ Some result.now }
    {
        &self.serials[at as usize]
    }
}

/// Birth numbers of world devices in some order. A contract sees the list of the numbers. This project's own.
pub struct BornList {
    births: Vec<u64>,
}

impl Drop for BornList {
    fn drop(self) {
        let BornList { births: _ } = self;
    }
}

impl Model for BornList {
    ghost use Rattle.std.specs.Prelude.{List, ℕ};

    ghost Value = { List ℕ };

    ghost view = { λ l. l.births.items };
}

impl BornList {
    /// No number. It takes no memory.
    pub fn new(alloc: Global) -> BornList
        ensures { result ≡ [] }
    {
        BornList {
            births: Vec::new(alloc),
        }
    }

    /// Appends a number; after want of memory the list is as before.
    pub fn push(&mut self, part: u64) -> Result<(), WantOfMemory>
        ensures pushed { OnOk result (self.new ≡ self.old ++ part ∷ []) }
        ensures err { OnErr result (self.new ≡ self.old) }
    {
        self.births.push(part)?;
        Ok(())
    }

    /// How many numbers there are.
    pub fn len(&self) -> u64
        ensures { result ≡ length self.now }
    {
        self.births.len() as u64
    }

    /// The number at a place.
    pub fn get(&self, at: u64) -> &u64
        requires { at < length self.now }
        ensures { slice_get self.now at ≡ Some result.now }
    {
        &self.births[at as usize]
    }
}

/// The drivers of a device by their numbers in the rack, from the bottom: lower filters, function driver, upper
/// filters (the driver kit, "Device Nodes and Device Stacks"). A contract sees the list of the numbers.
pub struct Stack {
    drivers: Vec<u32>,
}

impl Drop for Stack {
    fn drop(self) {
        let Stack { drivers: _ } = self;
    }
}

impl Model for Stack {
    ghost use Rattle.std.specs.Prelude.{List, ℕ};

    ghost Value = { List ℕ };

    ghost view = { λ l. l.drivers.items };
}

impl Stack {
    /// No driver. It takes no memory.
    pub fn new(alloc: Global) -> Stack
        ensures { result ≡ [] }
    {
        Stack {
            drivers: Vec::new(alloc),
        }
    }

    /// Puts a driver on top; after want of memory the stack is as before.
    pub fn push(&mut self, part: u32) -> Result<(), WantOfMemory>
        ensures pushed { OnOk result (self.new ≡ self.old ++ part ∷ []) }
        ensures err { OnErr result (self.new ≡ self.old) }
    {
        self.drivers.push(part)?;
        Ok(())
    }

    /// How many drivers there are.
    pub fn len(&self) -> u64
        ensures { result ≡ length self.now }
    {
        self.drivers.len() as u64
    }

    /// The driver at a place, counted from the bottom.
    pub fn get(&self, at: u64) -> &u32
        requires { at < length self.now }
        ensures { slice_get self.now at ≡ Some result.now }
    {
        &self.drivers[at as usize]
    }
}
