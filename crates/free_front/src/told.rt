ghost use Rattle.std.specs.Prelude.{◌≡◌, ◌<◌, ◌^◌, [], IfOk, OnOk, OnErr, length, map, vec_len, vec_capacity};
ghost use Rattle.free_model.specs.Frees.{new_driver};
ghost use Rattle.pnp_machine.specs.Machines.{HasFewIds};
ghost use Rattle.notify_front.specs.Desks.{IsFrontDone, front_of, machine_events, told_of};
ghost use Rattle.notify_front.specs.Fronts.{IsFrontQuiet, front_happens};
ghost use Rattle.free_front.specs.FreeFronts.{FrontMovesBy};
ghost use Rattle.free_front.specs.Racks.{named_all, list_of};
ghost use Rattle.free_front.specs.ToldRacks.{AreAlike, AreTold, AreUp, IsTold, MovesTold};

use crate::driver::FreeDriver;
use crate::racks::{Naming, give, naming_of, told_rack};
use device_ids::WantOfMemory;
use driver_rack::Rack;
use notify_front::OpenFront;
use pnp_labels::{Answer, DriverKind, Event, Label};
use pnp_machine::Moved;
use std::alloc::Global;

/// A step over a rack whose drivers all give one answer; then each rack is where it was, with its drivers as they were.
fn step_over(
    front: &mut OpenFront<Rack<FreeDriver>>,
    rack: &mut Rack<FreeDriver>,
) -> Result<Option<Label>, WantOfMemory>
    requires { IsTold rack.old front.old.manager.state.core.rack }
    ensures moves { IfOk result (λ label. MovesTold rack.old (told_of front.old) (front_of front.old) label (front_of front.new)) }
    ensures same { front.new.manager ≡ record front.old.manager { state = front.new.manager.state } }
    ensures own { front.new.manager.state.core.rack ≡ front.old.manager.state.core.rack }
    ensures told { rack.new ≡ rack.old }
    ensures err { OnErr result (front.new ≡ front.old) }
{
    front.swap_rack(rack);
    let moved = front.step();
    front.swap_rack(rack);
    match moved? {
        Moved::Label(label) => Ok(Some(label)),
        Moved::Quiet => Ok(None),
    }
}

/// A rack for each answer, whose drivers give that one to all that they are asked. This project's own.
pub(crate) struct ToldRacks {
    ok: Rack<FreeDriver>,
    fail: Rack<FreeDriver>,
    pend: Rack<FreeDriver>,
    /// Names that their drivers are still to get: memory was wanting when they were given.
    late: Vec<Naming>,
}

impl Drop for ToldRacks {
    fn drop(self) {
        let ToldRacks {
            ok: _,
            fail: _,
            pend: _,
            late: _,
        } = self;
    }
}

impl ToldRacks {
    /// Racks with a driver of each kind, by number, in no one's name. Cost: the number of kinds.
    pub(crate) fn make(alloc: Global, kinds: &[DriverKind]) -> Result<ToldRacks, WantOfMemory>
        requires { length kinds.now < 2 ^ 32 }
        ensures { IfOk result (λ racks. AreTold (map new_driver kinds.now) racks) }
    {
        Ok(ToldRacks {
            ok: told_rack(alloc, kinds, Answer::Ok)?,
            fail: told_rack(alloc, kinds, Answer::Fail)?,
            pend: told_rack(alloc, kinds, Answer::Pend)?,
            late: Vec::new(alloc),
        })
    }

    /// The first name that is late is given in each rack. Where memory is wanting it stays late.
    fn give_first(&mut self) -> Result<(), WantOfMemory>
        requires some { 0 < vec_len self.old.late }
        ensures alike { AreAlike self.old self.new }
        ensures fewer { OnOk result (vec_len self.new.late < vec_len self.old.late) }
    {
        let first = &self.late[0];
        give(&mut self.ok, first)?;
        give(&mut self.fail, first)?;
        give(&mut self.pend, first)?;
        self.late.remove(0);
        Ok(())
    }

    /// The drivers get the names that are late.
    fn catch_up(&mut self) -> Result<(), WantOfMemory>
        ensures alike { AreAlike self.old self.new }
        ensures none { OnOk result (self.new.late.items ≡ []) }
    {
        'names: while !self.late.is_empty() {
            self.give_first()?;
        }
        Ok(())
    }

    /// A name is given from now on; where memory is wanting for it, it is late. Condition: there is room for one more.
    fn hear(&mut self, naming: Option<Naming>)
        requires room { vec_len self.old.late < vec_capacity self.old.late }
        ensures ok { named_all self.new.late.items self.new.ok ≡ named_all (list_of naming) (named_all self.old.late.items self.old.ok) }
        ensures fail { named_all self.new.late.items self.new.fail ≡ named_all (list_of naming) (named_all self.old.late.items self.old.fail) }
        ensures pend { named_all self.new.late.items self.new.pend ≡ named_all (list_of naming) (named_all self.old.late.items self.old.pend) }
    {
        let Some(naming) = naming else {
            return;
        };
        let _ = self.late.push(naming);
        let _ = self.catch_up();
    }

    /// An event happens, at a quiet front, and the racks hear of it. Conditions: as `OpenFront::apply`. After want of memory the front
    /// is as before.
    pub(crate) fn apply(
        &mut self,
        event: Event,
        front: &mut OpenFront<Rack<FreeDriver>>,
    ) -> Result<Label, WantOfMemory>
        requires told { AreTold front.old.manager.state.core.rack self.old }
        requires quiet { IsFrontQuiet (told_of front.old) (front_of front.old) }
        requires ids { HasFewIds event }
        requires events { front.old.manager.events < 2 ^ 24 }
        ensures done { IfOk result (λ label. IsFrontDone (front_happens (front_of front.old) event) label (front_of front.new)) }
        ensures settings { told_of front.new ≡ told_of front.old }
        ensures count { OnOk result (front.new.manager.events ≡ machine_events event front.old.manager.events) }
        ensures told { AreTold front.new.manager.state.core.rack self.new }
        ensures err { OnErr result (front.new ≡ front.old) }
    {
        let alloc = *self.late.allocator();
        let naming = naming_of(alloc, &event)?;
        self.late.reserve(1)?;
        let label = front.apply(event)?;
        self.hear(naming);
        Ok(label)
    }

    /// The step of the front where all drivers that are asked answer so, where no name is late.
    fn step_up(
        &mut self,
        answer: Answer,
        front: &mut OpenFront<Rack<FreeDriver>>,
    ) -> Result<Option<Label>, WantOfMemory>
        requires { AreUp front.old.manager.state.core.rack self.old }
        ensures moves { IfOk result (λ label. FrontMovesBy answer (told_of front.old) (front_of front.old) label (front_of front.new)) }
        ensures same { front.new.manager ≡ record front.old.manager { state = front.new.manager.state } }
        ensures told { AreUp front.new.manager.state.core.rack self.new }
        ensures err { OnErr result (front.new ≡ front.old) }
    {
        match answer {
            Answer::Ok => step_over(front, &mut self.ok),
            Answer::Fail => step_over(front, &mut self.fail),
            Answer::Pend => step_over(front, &mut self.pend),
        }
    }

    /// The step of the front where all drivers that are asked answer so; none exactly where none is next. All drivers stay as they are.
    /// After want of memory the front is as before.
    pub(crate) fn step(
        &mut self,
        answer: Answer,
        front: &mut OpenFront<Rack<FreeDriver>>,
    ) -> Result<Option<Label>, WantOfMemory>
        requires { AreTold front.old.manager.state.core.rack self.old }
        ensures moves { IfOk result (λ label. FrontMovesBy answer (told_of front.old) (front_of front.old) label (front_of front.new)) }
        ensures same { front.new.manager ≡ record front.old.manager { state = front.new.manager.state } }
        ensures told { AreTold front.new.manager.state.core.rack self.new }
        ensures err { OnErr result (front.new ≡ front.old) }
    {
        self.catch_up()?;
        self.step_up(answer, front)
    }
}
