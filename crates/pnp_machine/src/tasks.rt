ghost use Rattle.std.specs.Prelude.{◌≡◌, ◌<◌, ◌≤◌, ◌+◌, ◌-◌, ◌^◌, ℕ, [], ◌∷◌, ◌++◌, Some, if◌then◌else◌, OnOk, drop, nat_eq};
ghost use Rattle.std.specs.HashMap.{get, spare};
ghost use Rattle.std.specs.List.{list_any};
ghost use Rattle.pnp_model.specs.Tasks.{is_surprise_of};
ghost use Rattle.pnp_model.specs.Tests.{is_surprise_task};
ghost use Rattle.pnp_machine.specs.TaskLists.{count_at, counted, task_of, IsFirst};

use device_ids::WantOfMemory;
use pnp_labels::OpKind;
use std::alloc::Global;
use std::collections::{HashMap, VecDeque};
use std::marker::Model;

/// What waits to be done for a device. This project's own.
#[derive(Clone, Copy, PartialEq, Eq)]
pub(crate) enum Duty {
    /// Its children are listed.
    List,
    /// Its start begins.
    Start,
    /// An operation for it begins.
    Begin(OpKind),
}

/// A task: what is to be done, and for which device. A contract sees the task of the machine.
struct Task {
    duty: Duty,
    serial: u64,
}

impl Drop for Task {
    fn drop(self) {
        let Task { duty: _, serial: _ } = self;
    }
}

impl Model for Task {
    ghost use Rattle.pnp_model.specs.Records.{Task};
    ghost use Rattle.pnp_machine.specs.TaskLists.{duty_of};

    ghost Value = { Task };

    ghost view = { λ t. record { kind = duty_of t.duty; serial = t.serial } };
}

/// The tasks of the machine, the next one at the head, with an index of the surprise tasks (this project's own). A contract
/// sees the tasks, and for how many more there is room.
pub(crate) struct Tasks {
    tasks: VecDeque<Task>,
    /// How many surprise tasks each device has, where it has any.
    surprises: HashMap<u64, u64>,
    room: usize,
}

impl Drop for Tasks {
    fn drop(self) {
        let Tasks {
            tasks: _,
            surprises: _,
            room: _,
        } = self;
    }
}

impl Model for Tasks {
    ghost use Rattle.pnp_machine.specs.TaskLists.{Tasks, IsCounted};

    ghost Value = { Tasks };

    ghost view = { λ t. record { tasks = t.tasks.items; room = t.room } };

    ghost invariant = { λ t. IsCounted t.tasks t.surprises t.room };
}

/// Whether a task begins the operation for a device that has gone.
fn is_surprise(task: &Task) -> bool
    ensures { result ≡ is_surprise_task task.now.kind }
{
    matches!(task.duty, Duty::Begin(OpKind::Surprise))
}

/// Counts a task that is added, where it is a surprise task. Conditions: there is room, and the count is no limit.
fn count_added(surprises: &mut HashMap<u64, u64>, task: &Task)
    requires room { 0 < spare surprises.old }
    requires few { count_at surprises.old task.now.serial < 2 ^ 63 }
    ensures counts { (k : ℕ) → get nat_eq surprises.new k ≡ (if is_surprise_of k task.now then Some (count_at surprises.old k + 1) else get nat_eq surprises.old k) }
    ensures spare { spare surprises.old ≤ spare surprises.new + 1 }
{
    if is_surprise(task) {
        let count = surprises.get(&task.serial).copied().unwrap_or(0);
        let _ = surprises.insert(task.serial, count + 1);
    }
}

/// No longer counts a task that is dropped, where it is a surprise task. It takes no memory.
fn count_dropped(surprises: &mut HashMap<u64, u64>, task: &Task)
    ensures counts { (k : ℕ) → get nat_eq surprises.new k ≡ (if is_surprise_of k task.now then counted (count_at surprises.old k - 1) else get nat_eq surprises.old k) }
    ensures spare { spare surprises.old ≤ spare surprises.new }
{
    if is_surprise(task) {
        let count = surprises.get(&task.serial).copied().unwrap_or(0);
        if count <= 1 {
            surprises.remove(&task.serial);
        } else if let Some(place) = surprises.get_mut(&task.serial) {
            *place = count - 1;
        }
    }
}

impl Tasks {
    /// None, and room for none.
    pub(crate) fn new(alloc: Global) -> Tasks
        ensures { result ≡ record { tasks = []; room = 0 } }
    {
        Tasks {
            tasks: VecDeque::new(alloc),
            surprises: HashMap::new(alloc),
            room: 0,
        }
    }

    /// What the first task is for, and for which device; none exactly where there is none.
    pub(crate) fn first(&self) -> Option<(Duty, u64)>
        ensures { IsFirst result self.now.tasks }
    {
        let task = self.tasks.front()?;
        Some((task.duty, task.serial))
    }

    /// Takes the memory for one task more. The tasks stay, whatever is answered.
    pub(crate) fn make_room(&mut self) -> Result<(), WantOfMemory>
        ensures room { OnOk result (0 < self.new.room) }
        ensures tasks { self.new.tasks ≡ self.old.tasks }
    {
        if self.room == 0 {
            self.tasks.reserve(1)?;
            self.surprises.reserve(1)?;
            self.room = 1;
        }
        Ok(())
    }

    /// A task more, as the last. Condition: there is room. It takes no memory.
    pub(crate) fn append(&mut self, duty: Duty, serial: u64)
        requires { 0 < self.old.room }
        ensures tasks { self.new.tasks ≡ self.old.tasks ++ task_of (duty, serial) ∷ [] }
        ensures room { self.new.room + 1 ≡ self.old.room }
    {
        let task = Task { duty, serial };
        count_added(&mut self.surprises, &task);
        self.tasks.push_back_reserved(task);
        self.room -= 1;
    }

    /// A task more, as the first. Condition: there is room. It takes no memory.
    pub(crate) fn put_first(&mut self, duty: Duty, serial: u64)
        requires { 0 < self.old.room }
        ensures tasks { self.new.tasks ≡ task_of (duty, serial) ∷ self.old.tasks }
        ensures room { self.new.room + 1 ≡ self.old.room }
    {
        let task = Task { duty, serial };
        count_added(&mut self.surprises, &task);
        self.tasks.push_front_reserved(task);
        self.room -= 1;
    }

    /// The first task is dropped, if there is one. It takes no memory.
    pub(crate) fn drop_first(&mut self)
        ensures tasks { self.new.tasks ≡ drop 1 self.old.tasks }
        ensures room { self.new.room ≡ self.old.room }
    {
        if let Some(task) = self.tasks.pop_front() {
            count_dropped(&mut self.surprises, &task);
        }
    }

    /// Whether a device has a surprise task. It takes no memory, and looks at no task.
    pub(crate) fn has_surprise(&self, serial: u64) -> bool
        ensures { result ≡ list_any (is_surprise_of serial) self.now.tasks }
    {
        self.surprises.contains_key(&serial)
    }
}
