ghost use Rattle.std.specs.Prelude.{◌≡◌, drop, slice_get};
ghost use Rattle.start_sequence.specs.Works.{is_empty};

use std::collections::VecDeque;
use std::marker::Model;

/// The drivers that are still to be asked to add a device, from the bottom, by their numbers in the rack. A contract
/// sees the list. This project's own.
pub struct Pending {
    drivers: VecDeque<u32>,
}

impl Drop for Pending {
    fn drop(self) {
        let Pending { drivers: _ } = self;
    }
}

impl Model for Pending {
    ghost use Rattle.std.specs.Prelude.{List, ℕ};

    ghost Value = { List ℕ };

    ghost view = { λ p. p.drivers.items };
}

impl Pending {
    /// These drivers.
    pub(crate) fn of(drivers: VecDeque<u32>) -> Pending
        ensures { result ≡ drivers.items }
    {
        Pending { drivers }
    }

    /// The first driver.
    pub(crate) fn first(&self) -> Option<u32>
        ensures { result ≡ slice_get self.now 0 }
    {
        self.drivers.front().copied()
    }

    /// Takes the first driver away, and says whether none is left.
    pub(crate) fn drop_first(&mut self) -> bool
        ensures rest { self.new ≡ drop 1 self.old }
        ensures none { result ≡ is_empty self.new }
    {
        let _ = self.drivers.pop_front();
        self.drivers.is_empty()
    }
}
