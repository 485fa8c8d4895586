ghost use Rattle.std.specs.Prelude.{◌≡◌, ◌<◌, ◌^◌, true, Some, IfOk, IfSome, OnOk, OnErr, IsSome, option_map};
ghost use Rattle.pnp_model.specs.Cores.{node_at};
ghost use Rattle.pnp_model.specs.Machine.{IsQuiet, due, is_in_order};
ghost use Rattle.pnp_model.specs.Runs.{opening};
ghost use Rattle.free_model.specs.Frees.{with_rack};
ghost use Rattle.free_model.specs.Shapes.{faces};
ghost use Rattle.pnp_laws.specs.Stacks.{IsNamed};
ghost use Rattle.pnp_machine.specs.Machines.{HasFewIds};
ghost use Rattle.pnp_machine.specs.Queries.{query_of};
ghost use Rattle.notify_front.specs.Fronts.{Hand, front_happens, on_set};
ghost use Rattle.notify_front.specs.Desks.{FrontMoves, IfFrontQuiet, IsAlone, IsFrontDone, front_of, machine_events, opening_desk, told_of};
ghost use Rattle.notify_front.specs.Queries.{front_query};
ghost use Rattle.notify_front.specs.Hands.{AllCancelled, Fits, IsBegun, IsRunning, IsTurn, begins, next_told};

use crate::registration::Registration;
use crate::registrations::Registrations;
use crate::round::{Round, Turn};
use device_ids::WantOfMemory;
use driver_rack::Drivers;
use pnp_labels::{Event, Label, OpKind};
use pnp_machine::{Manager, Moved, Query};
use std::alloc::Global;
use std::marker::Model;

/// A manager, who is registered, and what is at hand. A contract sees these three.
pub(crate) struct Desk<R: Drivers> {
    pub(crate) alloc: Global,
    pub(crate) manager: Manager<R>,
    pub(crate) registrations: Registrations,
    pub(crate) round: Round,
}

impl<R: Drivers> Drop for Desk<R> {
    fn drop(self) {
        let Desk {
            alloc: _,
            manager: _,
            registrations: _,
            round: _,
        } = self;
    }
}

impl<R: Drivers> Model for Desk<R> {
    ghost use Rattle.notify_front.specs.Desks.{Desk};

    ghost Value = { Desk };

    ghost view = { λ d. record { manager = d.manager; registrations = d.registrations; hand = d.round } };
}

impl<R: Drivers> Desk<R> {
    /// Nobody is registered over a manager. It takes no memory.
    pub(crate) fn new(alloc: Global, manager: Manager<R>) -> Desk<R>
        ensures { result ≡ opening_desk manager }
    {
        Desk {
            alloc,
            manager,
            registrations: Registrations::new(alloc),
            round: Round::nothing(alloc),
        }
    }

    /// Nobody is registered over the manager, which restarts over another rack, whose place the drivers that were there take. After want
    /// of memory all is as before.
    pub(crate) fn restart(&mut self, rack: &mut R) -> Result<(), WantOfMemory>
        ensures opens { OnOk result (self.new ≡ opening_desk (record self.old.manager { events = 0; state = opening (R.rows rack.old) })) }
        ensures back { OnOk result (R.rows rack.new ≡ self.old.manager.state.core.rack) }
        ensures err { OnErr result (self.new ≡ self.old) }
        ensures kept { OnErr result (R.rows rack.new ≡ R.rows rack.old) }
    {
        self.manager.restart(rack)?;
        self.registrations = Registrations::new(self.alloc);
        self.round = Round::nothing(self.alloc);
        Ok(())
    }

    /// Another rack takes the place of the drivers, which are handed back. Condition: kind and name of each driver, by number, are those
    /// of the driver whose place it takes. It takes no memory.
    pub(crate) fn swap_rack(&mut self, rack: &mut R)
        requires faces { faces (R.rows rack.old) ≡ faces self.old.manager.state.core.rack }
        ensures given { self.new ≡ record self.old { manager = record self.old.manager { state = with_rack (R.rows rack.old) self.old.manager.state } } }
        ensures back { R.rows rack.new ≡ self.old.manager.state.core.rack }
    {
        self.manager.swap_rack(rack);
    }

    /// An event happens, as the front's definition says: those of clients change the registrations, all others are the manager's.
    /// Conditions: those of the manager's call. After want of memory all is as before.
    pub(crate) fn apply(&mut self, event: Event) -> Result<Label, WantOfMemory>
        requires quiet { IsQuiet (told_of self.old) self.old.manager.state }
        requires ids { HasFewIds event }
        requires events { self.old.manager.events < 2 ^ 24 }
        ensures done { IfOk result (λ label. IsFrontDone (front_happens (front_of self.old) event) label (front_of self.new)) }
        ensures settings { told_of self.new ≡ told_of self.old }
        ensures count { OnOk result (self.new.manager.events ≡ machine_events event self.old.manager.events) }
        ensures err { OnErr result (self.new ≡ self.old) }
    {
        match &event {
            Event::Watch { .. } | Event::Unwatch { .. } => self.apply_of_client(event),
            _ => self.manager.apply(event),
        }
    }

    /// Whether no step is next. Condition: what is at hand fits the machine's state.
    pub(crate) fn is_quiet(&self) -> bool
        requires { Fits self.now.manager.state self.now.hand }
        ensures { IfFrontQuiet result (told_of self.now) (front_of self.now) }
    {
        match self.round.turn() {
            Turn::Tell | Turn::Decline(_, _) => false,
            Turn::Idle | Turn::Begin | Turn::Run => self.manager.is_quiet(),
        }
    }

    /// What the next step asks: nobody where a client is told, or what is due is dropped.
    pub(crate) fn query(&self) -> Option<Query<'_>>
        ensures query { option_map query_of result ≡ front_query (front_of self.now) }
        ensures node { IfSome result (λ query. node_at query.node.now.serial self.now.manager.state.core.nodes ≡ Some query.node.now) }
        ensures named { IfSome result (λ query. IsNamed self.now.manager.state.core.rack query.driver) }
    {
        match self.round.turn() {
            Turn::Tell | Turn::Decline(_, _) => None,
            Turn::Idle | Turn::Begin | Turn::Run => self.manager.query(),
        }
    }

    /// The next step, as the front's definition says. Condition: what is at hand fits the machine's state. After want of memory all is
    /// as before.
    #[inline(always)]
    pub(crate) fn step(&mut self) -> Result<Moved, WantOfMemory>
        requires { Fits self.old.manager.state self.old.hand }
        ensures moves { IfOk result (λ moved. FrontMoves (told_of self.old) (front_of self.old) moved (front_of self.new)) }
        ensures same { self.new.manager ≡ record self.old.manager { state = self.new.manager.state } }
        ensures err { OnErr result (self.new ≡ self.old) }
    {
        match self.round.turn() {
            Turn::Idle => self.idle(),
            turn => self.step_of_round(turn),
        }
    }

    /// The same where something is at hand, in a call of its own: mostly nothing is, and then what the manager answers is handed on
    /// as it stands.
    #[inline(never)]
    fn step_of_round(&mut self, turn: Turn) -> Result<Moved, WantOfMemory>
        requires fits { Fits self.old.manager.state self.old.hand }
        requires turn { IsTurn turn self.old.hand }
        ensures moves { IfOk result (λ moved. FrontMoves (told_of self.old) (front_of self.old) moved (front_of self.new)) }
        ensures same { self.new.manager ≡ record self.old.manager { state = self.new.manager.state } }
        ensures err { OnErr result (self.new ≡ self.old) }
    {
        match turn {
            Turn::Tell => self.tell(),
            Turn::Idle => self.idle(),
            Turn::Begin => self.begin(),
            Turn::Decline(kind, serial) => self.decline(kind, serial),
            Turn::Run => self.run(),
        }
    }

    /// The next client is told; after the last notice that it hears it is registered no more.
    fn tell(&mut self) -> Result<Moved, WantOfMemory>
        requires { IsSome (next_told self.old.hand) }
        ensures moves { IfOk result (λ moved. FrontMoves (told_of self.old) (front_of self.old) moved (front_of self.new)) }
        ensures same { self.new.manager ≡ self.old.manager }
        ensures err { OnErr result (self.new ≡ self.old) }
    {
        let Some(client) = self.round.next() else {
            unreachable!();
        };
        let label = self.round.notice(self.alloc, client)?;
        self.registrations.heard(client, self.round.is_ended());
        self.round.advance();
        Ok(Moved::Label(label))
    }

    /// Copies of those on a device and on what depends on it, in leaving order.
    fn on_set(&self, serial: u64) -> Result<Vec<Registration>, WantOfMemory>
        requires { IsSome (node_at serial self.now.manager.state.core.nodes) }
        ensures { IfOk result (λ told. told.items ≡ on_set (front_of self.now) serial) }
    {
        let devices = self.manager.leaving(self.alloc, serial)?;
        self.registrations.on_each(self.alloc, &devices)
    }

    /// Nobody is told: the machine steps. Conditions: nothing is at hand, and so it is by the front's definition.
    #[inline(always)]
    fn pass(&mut self) -> Result<Moved, WantOfMemory>
        requires hand { self.old.hand ≡ Hand.Nothing }
        requires alone { IsAlone (told_of self.old) (front_of self.old) }
        ensures moves { IfOk result (λ moved. FrontMoves (told_of self.old) (front_of self.old) moved (front_of self.new)) }
        ensures same { self.new.manager ≡ record self.old.manager { state = self.new.manager.state } }
        ensures err { OnErr result (self.new ≡ self.old) }
    {
        self.manager.step()
    }

    /// Nothing is at hand: what is due is announced, or the machine steps.
    #[inline(always)]
    fn idle(&mut self) -> Result<Moved, WantOfMemory>
        requires { self.old.hand ≡ Hand.Nothing }
        ensures moves { IfOk result (λ moved. FrontMoves (told_of self.old) (front_of self.old) moved (front_of self.new)) }
        ensures same { self.new.manager ≡ record self.old.manager { state = self.new.manager.state } }
        ensures err { OnErr result (self.new ≡ self.old) }
    {
        if self.registrations.is_empty() {
            return self.pass();
        }
        self.announce_due()
    }

    /// The same where clients are registered.
    #[inline(never)]
    fn announce_due(&mut self) -> Result<Moved, WantOfMemory>
        requires { self.old.hand ≡ Hand.Nothing }
        ensures moves { IfOk result (λ moved. FrontMoves (told_of self.old) (front_of self.old) moved (front_of self.new)) }
        ensures same { self.new.manager ≡ record self.old.manager { state = self.new.manager.state } }
        ensures err { OnErr result (self.new ≡ self.old) }
    {
        let Some((kind, serial)) = self.manager.due() else {
            return self.pass();
        };
        match kind {
            OpKind::Disable | OpKind::Eject => self.announce(kind, serial),
            OpKind::Surprise => self.surprise(serial),
            OpKind::Rebalance | OpKind::Finish | OpKind::Change => self.pass(),
        }
    }

    /// An operation in order is due: the first client is asked, or where there is none the operation begins.
    fn announce(&mut self, kind: OpKind, serial: u64) -> Result<Moved, WantOfMemory>
        requires hand { self.old.hand ≡ Hand.Nothing }
        requires is_due { due self.old.manager.state ≡ Some (begins kind serial) }
        requires in_order { is_in_order kind ≡ true }
        ensures moves { IfOk result (λ moved. FrontMoves (told_of self.old) (front_of self.old) moved (front_of self.new)) }
        ensures same { self.new.manager ≡ record self.old.manager { state = self.new.manager.state } }
        ensures err { OnErr result (self.new ≡ self.old) }
    {
        let mut round = Round::asking(kind, serial, self.on_set(serial)?);
        let Some(client) = round.next() else {
            return self.pass();
        };
        let label = round.notice(self.alloc, client)?;
        round.advance();
        self.round = round;
        Ok(Moved::Label(label))
    }

    /// A device has gone: its end begins, of which its clients are to hear.
    fn surprise(&mut self, serial: u64) -> Result<Moved, WantOfMemory>
        requires hand { self.old.hand ≡ Hand.Nothing }
        requires is_due { due self.old.manager.state ≡ Some (begins OpKind.Surprise serial) }
        ensures moves { IfOk result (λ moved. FrontMoves (told_of self.old) (front_of self.old) moved (front_of self.new)) }
        ensures same { self.new.manager ≡ record self.old.manager { state = self.new.manager.state } }
        ensures err { OnErr result (self.new ≡ self.old) }
    {
        let told = self.on_set(serial)?;
        let moved = self.manager.step()?;
        self.round = Round::running(told);
        self.round.hear(&moved);
        Ok(moved)
    }

    /// All agreed: the operation begins, of whose end they are to hear.
    fn begin(&mut self) -> Result<Moved, WantOfMemory>
        requires { IsBegun self.old.manager.state self.old.hand }
        ensures moves { IfOk result (λ moved. FrontMoves (told_of self.old) (front_of self.old) moved (front_of self.new)) }
        ensures same { self.new.manager ≡ record self.old.manager { state = self.new.manager.state } }
        ensures err { OnErr result (self.new ≡ self.old) }
    {
        let moved = self.manager.step()?;
        self.round.begin();
        self.round.hear(&moved);
        Ok(moved)
    }

    /// One client refused: what was due is dropped.
    fn decline(&mut self, kind: OpKind, serial: u64) -> Result<Moved, WantOfMemory>
        requires hand { AllCancelled kind serial self.old.hand }
        requires is_due { due self.old.manager.state ≡ Some (begins kind serial) }
        requires in_order { is_in_order kind ≡ true }
        ensures moves { IfOk result (λ moved. FrontMoves (told_of self.old) (front_of self.old) moved (front_of self.new)) }
        ensures same { self.new.manager ≡ record self.old.manager { state = self.new.manager.state } }
        ensures err { OnErr result (self.new ≡ self.old) }
    {
        let path = self.manager.tree().at(serial).path.text(self.alloc)?;
        let client = self.round.refuser().copy(self.alloc)?;
        self.manager.drop_due();
        self.round.finish();
        Ok(Moved::Label(Label::Declined {
            op: kind,
            path,
            client,
        }))
    }

    /// An operation goes on, or ends.
    fn run(&mut self) -> Result<Moved, WantOfMemory>
        requires { IsRunning self.old.hand }
        ensures moves { IfOk result (λ moved. FrontMoves (told_of self.old) (front_of self.old) moved (front_of self.new)) }
        ensures same { self.new.manager ≡ record self.old.manager { state = self.new.manager.state } }
        ensures err { OnErr result (self.new ≡ self.old) }
    {
        let moved = self.manager.step()?;
        self.round.hear(&moved);
        Ok(moved)
    }
}
