ghost use Rattle.std.specs.Prelude.{◌≡◌, ◌<◌, ◌++◌, [], ◌∷◌, length, slice_get, Some, IfOk, OnOk, OnErr};
ghost use Rattle.pnp_model.specs.Tests.{has};

use device_ids::WantOfMemory;
use pnp_labels::SerialList;
use std::alloc::Global;
use std::collections::HashSet;
use std::marker::Model;

/// Serials in an order, looked up by a hash. Each call costs the same whatever there is in it, except where it says
/// more. A contract sees the list. This project's own.
pub struct SerialSet {
    serials: Vec<u64>,
    index: HashSet<u64>,
}

impl Drop for SerialSet {
    fn drop(self) {
        let SerialSet {
            serials: _,
            index: _,
        } = self;
    }
}

impl Model for SerialSet {
    ghost use Rattle.std.specs.Prelude.{List, ℕ};
    ghost use Rattle.relations.specs.SerialSets.{IsIndexOf};

    ghost Value = { List ℕ };

    ghost view = { λ s. s.serials.items };

    ghost invariant = { λ s. IsIndexOf s.index s.serials.items };
}

impl SerialSet {
    /// No serial. It takes no memory.
    pub fn new(alloc: Global) -> SerialSet
        ensures { result ≡ [] }
    {
        SerialSet {
            serials: Vec::new(alloc),
            index: HashSet::new(alloc),
        }
    }

    /// No serial, with room for so many.
    fn with_capacity(alloc: Global, capacity: usize) -> Result<SerialSet, WantOfMemory>
        ensures { IfOk result (λ set. set ≡ []) }
    {
        Ok(SerialSet {
            serials: Vec::with_capacity(alloc, capacity)?,
            index: HashSet::with_capacity(alloc, capacity)?,
        })
    }

    /// These serials. Cost: their number.
    pub fn of(alloc: Global, serials: &SerialList) -> Result<SerialSet, WantOfMemory>
        ensures { IfOk result (λ set. set ≡ serials.now) }
    {
        let mut set = SerialSet::with_capacity(alloc, serials.len() as usize)?;
        for at in 0..serials.len() {
            set.push(*serials.get(at))?;
        }
        Ok(set)
    }

    /// Appends a serial. After want of memory the set is as before. The cost is constant on average, since the room grows by
    /// doubling.
    pub fn push(&mut self, serial: u64) -> Result<(), WantOfMemory>
        ensures pushed { OnOk result (self.new ≡ self.old ++ serial ∷ []) }
        ensures err { OnErr result (self.new ≡ self.old) }
    {
        self.serials.reserve(1)?;
        self.index.insert(serial)?;
        let _ = self.serials.push(serial);
        Ok(())
    }

    /// Whether a serial is one of these. It takes no memory.
    pub fn has(&self, serial: u64) -> bool
        ensures { result ≡ has self.now serial }
    {
        self.index.contains(&serial)
    }

    /// How many there are.
    pub fn len(&self) -> u64
        ensures { result ≡ length self.now }
    {
        self.serials.len() as u64
    }

    /// The serial at a place.
    pub fn get(&self, at: u64) -> u64
        requires { at < length self.now }
        ensures { slice_get self.now at ≡ Some result }
    {
        self.serials[at as usize]
    }
}
