ghost use Rattle.std.specs.Prelude.{◌≡◌, if◌then◌else◌, remove, vec_len, vec_capacity, ◌<◌, ◌≤◌, ◌+◌, ℕ, [], IfOk, OnOk, OnErr, IsSome, Some, None, false, insert, length, option_copied, position, slice_get, nat_lt};
ghost use Rattle.pnp_model.specs.Cores.{node_at};
ghost use Rattle.pnp_model.specs.Handles.{was_told};
ghost use Rattle.pnp_model.specs.Keyed.{put_before};
ghost use Rattle.pnp_model.specs.Records.{Activity};
ghost use Rattle.pnp_model.specs.States.{activity_at, is_activity, is_above, entered};
ghost use Rattle.pnp_model.specs.Machine.{is_ready, phase_walk};
ghost use Rattle.pnp_model.specs.Events.{waits_for};
ghost use Rattle.pnp_laws.specs.Kept.{InOrder};
ghost use Rattle.devnode_tree.specs.Trees.{Ascends};
ghost use Rattle.pnp_machine.specs.Starts.{first_ready, is_over, leaves, ActsFor, CompletesFor};

use crate::devices::Devices;
use device_ids::WantOfMemory;
use driver_rack::Drivers;
use pnp_labels::Minor;
use start_sequence::{StartStep, StartWork};
use std::alloc::Global;
use std::marker::Model;

/// The starts of devices, in order of serial, with an index of those that do not wait. A contract sees the starts, and
/// for how many more there is room.
pub(crate) struct Starts {
    works: Vec<StartWork>,
    /// The serials of those that do not wait, in order.
    ready: Vec<u64>,
    room: usize,
}

impl Drop for Starts {
    fn drop(self) {
        let Starts {
            works: _,
            ready: _,
            room: _,
        } = self;
    }
}

impl Model for Starts {
    ghost use Rattle.pnp_machine.specs.Starts.{Starts, IsIndexed};

    ghost Value = { Starts };

    ghost view = { λ s. record { works = s.works.items; room = s.room } };

    ghost invariant = { λ s. IsIndexed s.works s.ready s.room };
}

/// The place of the start of a device.
fn place_of(works: &[StartWork], serial: u64) -> Option<usize>
    requires { InOrder 0 works.now }
    ensures { result ≡ position (is_activity serial) works.now }
{
    works
        .binary_search_by_key(&serial, |work| work.serial())
        .ok()
}

/// The place at which a start of a serial stands in order.
fn place_for(works: &[StartWork], serial: u64) -> usize
    requires { InOrder 0 works.now }
    ensures within { result ≤ length works.now }
    ensures place { (a : Activity) → insert works.now result a ≡ put_before (is_above serial) a works.now }
{
    works.partition_point(|work| work.serial() <= serial)
}

/// The place at which a number stands in order.
fn place_in(numbers: &[u64], number: u64) -> usize
    requires { Ascends 0 numbers.now }
    ensures within { result ≤ length numbers.now }
    ensures place { insert numbers.now result number ≡ put_before (λ n. nat_lt number n) number numbers.now }
{
    numbers.partition_point(|other| *other <= number)
}

/// The first number.
fn first_of(numbers: &[u64]) -> Option<u64>
    ensures { result ≡ slice_get numbers.now 0 }
{
    numbers.first().copied()
}

/// Notes a number in order, if it is to be noted. Condition: there is room.
fn note(numbers: &mut Vec<u64>, number: u64, noted: bool)
    requires order { Ascends 0 numbers.old.items }
    requires room { vec_len numbers.old < vec_capacity numbers.old }
    ensures items { numbers.new.items ≡ (if noted then put_before (λ n. nat_lt number n) number numbers.old.items else numbers.old.items) }
    ensures capacity { vec_capacity numbers.old ≤ vec_capacity numbers.new }
{
    if noted {
        let place = place_in(numbers, number);
        let _ = numbers.insert(place, number);
    }
}

/// Drops the first number, if it is to be dropped. Condition: there is one.
fn drop_first(numbers: &mut Vec<u64>, dropped: bool)
    requires { 0 < vec_len numbers.old }
    ensures items { numbers.new.items ≡ (if dropped then remove numbers.old.items 0 else numbers.old.items) }
    ensures capacity { vec_capacity numbers.new ≡ vec_capacity numbers.old }
{
    if dropped {
        numbers.remove(0);
    }
}

/// Drops the start at a place, if it is over. Condition: there is one.
fn drop_over(works: &mut Vec<StartWork>, place: usize, over: bool)
    requires { place < vec_len works.old }
    ensures items { works.new.items ≡ (if over then remove works.old.items place else works.old.items) }
    ensures len { vec_len works.new ≤ vec_len works.old }
    ensures capacity { vec_capacity works.new ≡ vec_capacity works.old }
{
    if over {
        works.remove(place);
    }
}

/// Whether a start is over with a step.
fn is_over(step: &StartStep) -> bool
    ensures { result ≡ is_over step.now }
{
    match step {
        StartStep::Did(_) => false,
        StartStep::Needs(_) | StartStep::Up(_) | StartStep::Over(_) => true,
    }
}

/// Whether a start does not wait.
fn goes(work: &StartWork) -> bool
    ensures { result ≡ is_ready work.now }
{
    work.waits().is_none()
}

/// Whether a start leaves those that do not wait with a step: it is over, or waits.
fn leaves(work: &StartWork, step: &StartStep) -> bool
    ensures { result ≡ leaves (is_over step.now) work.now }
{
    is_over(step) || !goes(work)
}

/// Whether a request of the minor waits in a start.
fn waits_for(work: &StartWork, minor: Minor) -> bool
    ensures { result ≡ waits_for minor (phase_walk work.now.phase) }
{
    work.waits() == Some(minor)
}

impl Starts {
    /// None.
    pub(crate) fn new(alloc: Global) -> Starts
        ensures { result ≡ record { works = []; room = 0 } }
    {
        Starts {
            works: Vec::new(alloc),
            ready: Vec::new(alloc),
            room: 0,
        }
    }

    /// The lowest serial of a start that does not wait. It takes no memory.
    pub(crate) fn first_ready(&self) -> Option<u64>
        ensures first { result ≡ first_ready self.now.works }
        ensures order { InOrder 0 self.now.works }
    {
        first_of(&self.ready)
    }

    /// The start of a device; none exactly where it has none. Cost: the logarithm of the number of starts.
    pub(crate) fn work(&self, serial: u64) -> Option<&StartWork>
        ensures { option_copied result ≡ activity_at serial self.now.works }
    {
        let place = place_of(&self.works, serial)?;
        Some(&self.works[place])
    }

    /// All starts, in order of serial.
    pub(crate) fn works(&self) -> &[StartWork]
        ensures works { result.now ≡ self.now.works }
        ensures order { InOrder 0 self.now.works }
    {
        &self.works
    }

    /// Takes the memory for one start more. The starts stay, whatever is answered.
    pub(crate) fn make_room(&mut self) -> Result<(), WantOfMemory>
        ensures room { OnOk result (0 < self.new.room) }
        ensures same { self.new.works ≡ self.old.works }
    {
        if self.room == 0 {
            self.works.reserve(1)?;
            let more = self.works.len() + 1 - self.ready.len();
            self.ready.reserve(more)?;
            self.room = 1;
        }
        Ok(())
    }

    /// A start begins. Conditions: there is room, and the device has none. It takes no memory. Cost: the number of starts
    /// above it.
    pub(crate) fn put(&mut self, work: StartWork)
        requires room { 0 < self.old.room }
        requires new { activity_at work.serial self.old.works ≡ None }
        ensures { self.new.works ≡ entered work self.old.works }
    {
        let serial = work.serial();
        note(&mut self.ready, serial, goes(&work));
        let place = place_for(&self.works, serial);
        let _ = self.works.insert(place, work);
        self.room -= 1;
    }

    /// The next step of the lowest start that does not wait, as `StartWork::next` says; one that is over ends. Conditions:
    /// it is that of this device, and the device is there. After want of memory all is as before, and no driver was asked.
    pub(crate) fn act<R: Drivers>(
        &mut self,
        alloc: Global,
        serial: u64,
        devices: &mut Devices,
        rack: &mut R,
        budget: u64,
    ) -> Result<StartStep, WantOfMemory>
        requires first { first_ready self.old.works ≡ Some serial }
        requires there { IsSome (node_at serial devices.old.tree.nodes) }
        requires untold { was_told (node_at serial devices.old.tree.nodes) ≡ false }
        requires budget { budget ≤ 1000000 }
        ensures acts { IfOk result (λ step. ActsFor budget (activity_at serial self.old.works) self.old.works devices.old (R.rows rack.old) step self.new.works devices.new (R.rows rack.new)) }
        ensures starts { OnErr result (self.new.works ≡ self.old.works) }
        ensures devices { OnErr result (devices.new ≡ devices.old) }
        ensures rack { OnErr result (R.rows rack.new ≡ R.rows rack.old) }
    {
        let Some(place) = place_of(&self.works, serial) else {
            unreachable!()
        };
        let work = &mut self.works[place];
        let step = devices.act(alloc, work, rack, budget)?;
        drop_first(&mut self.ready, leaves(work, &step));
        drop_over(&mut self.works, place, is_over(&step));
        Ok(step)
    }

    /// Where a request of the minor waits at the device it gets its answer: Ok, or Fail. Whether one did is told. It takes
    /// no memory. Cost: the number of starts that can go on.
    pub(crate) fn complete(&mut self, serial: u64, minor: Minor, ok: bool) -> bool
        ensures { CompletesFor (activity_at serial self.old.works) minor ok result self.old.works self.new.works }
    {
        let Some(place) = place_of(&self.works, serial) else {
            return false;
        };
        if !waits_for(&self.works[place], minor) {
            return false;
        }
        let _ = self.works[place].complete(ok);
        note(&mut self.ready, serial, true);
        true
    }
}
