ghost use Rattle.std.specs.Prelude.{◌≡◌, ℕ, [], IfOk, OnOk, OnErr, IsTrue, find, nat_lt};
ghost use Rattle.pnp_model.specs.Handles.{is_handle_of, is_open, opened, closed_with};
ghost use Rattle.pnp_model.specs.Tests.{has};
ghost use Rattle.devnode_tree.specs.Counts.{count_of, handle_with};

use crate::handle_walk::HandleWalk;
use device_ids::WantOfMemory;
use std::alloc::{AllocError, Global};
use std::collections::BTreeMap;
use std::marker::Model;

/// How many handles to a device are open. A contract sees the record of the fields.
#[derive(Clone, Copy, PartialEq, Eq)]
pub struct HandleRow {
    /// The node of the device.
    pub serial: u64,
    /// How many are open.
    pub count: u64,
}

impl Model for HandleRow {
    ghost use Rattle.pnp_model.specs.Records.{Handle};

    ghost Value = { Handle };

    ghost view = { λ h. record { serial = h.serial; count = h.count } };

    ghost inverse = { λ h. record { serial = h.serial; count = h.count } };
}

/// The handles that are open to devices: how many to each, a device without one left out. A contract sees the list in
/// order of serial.
pub struct Handles {
    /// How many are open, by serial: at least one.
    counts: BTreeMap<u64, u64>,
}

impl Drop for Handles {
    fn drop(self) {
        let Handles { counts: _ } = self;
    }
}

impl Model for Handles {
    ghost use Rattle.std.specs.Prelude.{List};
    ghost use Rattle.pnp_model.specs.Records.{Handle};
    ghost use Rattle.devnode_tree.specs.Counts.{handles_of, AreOpen};

    ghost Value = { List Handle };

    ghost view = { λ h. handles_of h.counts.entries };

    ghost invariant = { λ h. AreOpen h.counts.entries };
}

impl Handles {
    /// No handle. It takes no memory.
    pub fn new(alloc: Global) -> Handles
        ensures { result ≡ [] }
    {
        Handles {
            counts: BTreeMap::new(alloc),
        }
    }

    /// How many handles to a device are open. It takes no memory. Cost: the logarithm of the number of devices with one.
    pub fn count(&self, serial: u64) -> u64
        ensures count { result ≡ count_of self.now serial }
        ensures handle { find (is_handle_of serial) self.now ≡ handle_with serial result }
        ensures there { is_open self.now serial ≡ nat_lt 0 result }
    {
        match self.counts.get(&serial) {
            Some(count) => *count,
            None => 0,
        }
    }

    /// Whether a handle to a device is open. It takes no memory. Cost: the logarithm of the number of devices with one.
    pub fn is_open(&self, serial: u64) -> bool
        ensures { result ≡ is_open self.now serial }
    {
        self.counts.contains_key(&serial)
    }

    /// One more handle to a device is open. Errors: `WantOfMemory`, also where 2^64 - 1 are open, which no memory would
    /// hold; all is then as before. Cost: the logarithm of the number of devices with one.
    pub fn add_one(&mut self, serial: u64) -> Result<(), WantOfMemory>
        ensures opened { OnOk result (self.new ≡ opened serial self.old) }
        ensures err { OnErr result (self.new ≡ self.old) }
    {
        let Some(count) = self.count(serial).checked_add(1) else {
            return Err(AllocError);
        };
        self.counts.insert(serial, count)?;
        Ok(())
    }

    /// A handle to a device is closed. Condition: one is open. It takes no memory. Cost: the logarithm of the number of
    /// devices with one.
    pub fn drop_one(&mut self, serial: u64)
        requires { IsTrue (is_open self.old serial) }
        ensures { self.new ≡ closed_with serial self.old (nat_lt 1 (count_of self.old serial)) }
    {
        let count = self.count(serial);
        if count == 1 {
            self.counts.remove(&serial);
        } else if let Some(place) = self.counts.get_mut(&serial) {
            *place = count - 1;
        }
    }

    /// How many handles are open to each device that has one, in order of serial. Cost: the number of these devices.
    pub fn rows(&self, alloc: Global) -> Result<Vec<HandleRow>, WantOfMemory>
        ensures { IfOk result (λ rows. rows.items ≡ self.now) }
    {
        let mut rows = Vec::new(alloc);
        for (serial, count) in &self.counts {
            rows.push(HandleRow {
                serial: *serial,
                count: *count,
            })?;
        }
        Ok(rows)
    }

    /// The devices with an open handle, to be passed from the greatest serial down. It takes no memory. Cost: the logarithm of
    /// their number, and with it that of all that are passed is at most their number.
    pub fn walk(&self) -> HandleWalk<'_>
        ensures { (k : ℕ) → has result k ≡ is_open self.now k }
    {
        HandleWalk::over(&self.counts)
    }
}
