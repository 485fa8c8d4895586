ghost use Rattle.std.specs.Prelude.{◌≡◌, ◌∷◌, ◌++◌, [], IfOk, OnOk, OnErr, Some, IsSome, is_none, drop, slice_get};
ghost use Rattle.pnp_model.specs.Frames.{rest};
ghost use Rattle.pnp_model.specs.Tests.{has};
ghost use Rattle.operation_frame.specs.Queues.{all_after, filled};

use device_ids::WantOfMemory;
use relations::SerialSet;
use std::alloc::Global;
use std::collections::VecDeque;
use std::marker::Model;

/// The devices of an operation that are still to do, by their serials; the first is the next. Each call costs the same
/// whatever there is in it, on average, except where it says more. A contract sees the list. This project's own.
pub struct SerialQueue {
    serials: VecDeque<u64>,
}

impl Drop for SerialQueue {
    fn drop(self) {
        let SerialQueue { serials: _ } = self;
    }
}

impl Model for SerialQueue {
    ghost use Rattle.std.specs.Prelude.{List, ℕ};

    ghost Value = { List ℕ };

    ghost view = { λ q. q.serials.items };
}

impl SerialQueue {
    /// No device. It takes no memory.
    pub fn new(alloc: Global) -> SerialQueue
        ensures { result ≡ [] }
    {
        SerialQueue {
            serials: VecDeque::new(alloc),
        }
    }

    /// The devices of a set, in its order. Cost: their number.
    pub fn of(alloc: Global, set: &SerialSet) -> Result<SerialQueue, WantOfMemory>
        ensures { IfOk result (λ queue. queue ≡ set.now) }
    {
        let mut queue = SerialQueue::new(alloc);
        for at in 0..set.len() {
            queue.push_back(set.get(at))?;
        }
        Ok(queue)
    }

    /// The same devices once more. Cost: their number.
    pub fn copy(&self, alloc: Global) -> Result<SerialQueue, WantOfMemory>
        ensures { IfOk result (λ queue. queue ≡ self.now) }
    {
        let mut queue = SerialQueue::new(alloc);
        for at in 0..self.serials.len() {
            queue.push_back(self.serials[at])?;
        }
        Ok(queue)
    }

    /// The devices of a set, where none is to do; else none. Cost: their number.
    pub fn all_where_none(
        &self,
        alloc: Global,
        set: &SerialSet,
    ) -> Result<SerialQueue, WantOfMemory>
        ensures { IfOk result (λ all. all ≡ all_after set.now self.now) }
    {
        match self.get(0) {
            Some(_) => Ok(SerialQueue::new(alloc)),
            None => SerialQueue::of(alloc, set),
        }
    }

    /// The devices of a set, where no other is to do after the next one; else none. Cost: their number.
    pub fn all_after_next(
        &self,
        alloc: Global,
        set: &SerialSet,
    ) -> Result<SerialQueue, WantOfMemory>
        ensures { IfOk result (λ all. all ≡ all_after set.now (rest self.now)) }
    {
        match self.get(1) {
            Some(_) => Ok(SerialQueue::new(alloc)),
            None => SerialQueue::of(alloc, set),
        }
    }

    /// A device is put behind all others.
    pub fn push_back(&mut self, serial: u64) -> Result<(), WantOfMemory>
        ensures pushed { OnOk result (self.new ≡ self.old ++ serial ∷ []) }
        ensures err { OnErr result (self.new ≡ self.old) }
    {
        self.serials.push_back(serial)?;
        Ok(())
    }

    /// A device is put before all others.
    pub fn push_front(&mut self, serial: u64) -> Result<(), WantOfMemory>
        ensures pushed { OnOk result (self.new ≡ serial ∷ self.old) }
        ensures err { OnErr result (self.new ≡ self.old) }
    {
        self.serials.push_front(serial)?;
        Ok(())
    }

    /// The device that is next. Condition: there is one.
    pub fn first(&self) -> u64
        requires { IsSome (slice_get self.now 0) }
        ensures { slice_get self.now 0 ≡ Some result }
    {
        self.serials[0]
    }

    /// The device at a place.
    pub fn get(&self, at: u64) -> Option<u64>
        ensures { result ≡ slice_get self.now at }
    {
        self.serials.get(at as usize).copied()
    }

    /// Whether a device is one of these. Cost: their number.
    pub fn has(&self, serial: u64) -> bool
        ensures { result ≡ has self.now serial }
    {
        self.serials.contains(&serial)
    }

    /// Where none is to do, these are; whether none was is told.
    pub fn fill(&mut self, all: SerialQueue) -> bool
        ensures filled { self.new ≡ filled self.old all }
        ensures told { result ≡ is_none (slice_get self.old 0) }
    {
        if !self.serials.is_empty() {
            return false;
        }
        *self = all;
        true
    }

    /// The next device is done.
    pub fn drop_first(&mut self)
        ensures { self.new ≡ drop 1 self.old }
    {
        let _ = self.serials.pop_front();
    }
}
