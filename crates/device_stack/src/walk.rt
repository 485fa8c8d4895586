ghost use Rattle.std.specs.Prelude.{◌≡◌, ◌<◌, length, false, IfOk, OnErr};
ghost use Rattle.pnp_model.specs.Walks.{walk_of, is_bad, has_ended, after};
ghost use Rattle.device_stack.specs.Steps.{went, waits_at, Completed};
ghost use Rattle.device_stack.specs.Passing.{front, next_front, Passes};
ghost use Rattle.device_stack.specs.Waiting.{minor_if, CompletedWalk};

use crate::ask::{ask_driver, driver_name};
use crate::rules::{answer_of, may_fail, place_of, shown_of, verdict};
use device_ids::{InstancePath, WantOfMemory};
use driver_rack::Drivers;
use pnp_labels::{Answer, Ask, AskWhat, Label, Minor, Stack, Verdict};
use std::alloc::Global;
use std::marker::Model;

/// No request waits there. This project's own.
#[derive(Clone, Copy, PartialEq, Eq)]
pub struct NoSuchRequest;

/// What a step of a walk did. Places are counted from the bottom of the stack. This project's own.
#[derive(Clone, Copy, PartialEq, Eq)]
pub enum WalkStep {
    /// The driver at the place was asked, and answered.
    Asked { pos: u64, answer: Answer },
    /// The driver at the place has not completed the request yet.
    Waits { pos: u64 },
    /// The request has ended.
    Ended(Verdict),
}

/// What a step of a request came to, as the trace shows it. This project's own.
#[derive(Drop)]
pub enum Passed {
    /// A driver was asked; the line tells what it answered.
    Asked(Label),
    /// The request has ended, and whether a driver refused it.
    Ended { refused: bool },
}

/// One request on its way through a device's stack of drivers, in the direction of its minor code. A request
/// that may be failed ends with the first Fail, and is Bad then; of any other a Fail counts as success (that it
/// does is this project's own), and it is Good after the last driver. A driver that pends the request stops it
/// until the completion comes. Which requests may be failed, and the directions, are the driver kit's ("Plug and
/// Play Minor IRPs"). A contract sees how far it has come.
#[derive(Clone, Copy)]
pub struct Walk {
    minor: Minor,
    asked: u64,
    failed: bool,
    waits: bool,
    pos: u64,
}

impl Model for Walk {
    ghost use Rattle.std.specs.Prelude.{◌≡◌, ◌<◌, ◌-◌, ◌^◌, true};
    ghost use Rattle.device_stack.specs.Standing.{Standing};

    ghost Value = { Standing };

    ghost view = { λ w. record { walk = record { minor = w.minor; asked = w.asked; failed = w.failed; waits = w.waits }; pos = w.pos } };

    ghost invariant = { λ w. w.waits ≡ true → w.asked < 2 ^ 64 - 1 };

    ghost inverse = { λ s. record { minor = s.walk.minor; asked = s.walk.asked; failed = s.walk.failed; waits = s.walk.waits; pos = s.pos } };
}

impl Walk {
    /// The request before its first driver is asked.
    pub fn begin(minor: Minor) -> Walk
        ensures { result ≡ record { walk = walk_of minor; pos = 0 } }
    {
        Walk {
            minor,
            asked: 0,
            failed: false,
            waits: false,
            pos: 0,
        }
    }

    /// The request.
    pub fn minor(&self) -> Minor
        ensures { result ≡ self.now.walk.minor }
    {
        self.minor
    }

    /// The place of the driver at which it waits; none exactly where it waits at none.
    pub fn waits(&self) -> Option<u64>
        ensures { result ≡ waits_at self.now }
    {
        if self.waits { Some(self.pos) } else { None }
    }

    /// The request, where it waits for a driver; none exactly where it waits for none.
    pub fn waiting_minor(&self) -> Option<Minor>
        ensures { result ≡ minor_if self.now.walk self.now.walk.waits }
    {
        if self.waits { Some(self.minor) } else { None }
    }

    /// Whether a driver refused it.
    fn is_bad(&self) -> bool
        ensures { result ≡ is_bad self.now.walk }
    {
        may_fail(self.minor) && self.failed
    }

    /// Whether it has ended, in a stack of so many drivers.
    fn has_ended(&self, drivers: u64) -> bool
        ensures { result ≡ has_ended self.now.walk drivers }
    {
        self.is_bad() || drivers <= self.asked
    }

    /// Takes the answer of the driver at a place.
    fn take(&mut self, pos: u64, answer: Answer)
        requires { self.old.walk.asked < u64.MAX }
        ensures { self.new ≡ record { walk = after self.old.walk answer; pos = pos } }
    {
        self.pos = pos;
        self.waits = matches!(answer, Answer::Pend);
        if !self.waits {
            self.asked += 1;
            self.failed = matches!(answer, Answer::Fail);
        }
    }

    /// The driver that owes the answer where the request waits, by its number in the rack; 0 where the stack has no
    /// driver at its place.
    pub fn driver_in_turn(&self, stack: &Stack) -> u32
        ensures { result ≡ front self.now.walk stack.now }
    {
        let pos = place_of(self.minor, stack.len(), self.asked);
        if pos < stack.len() {
            *stack.get(pos)
        } else {
            0
        }
    }

    /// The driver that the next step asks, by its number in the rack; none exactly where the request waits or has ended.
    pub fn next_driver(&self, stack: &Stack) -> Option<u32>
        ensures { result ≡ next_front self.now.walk stack.now }
    {
        if self.waits || self.has_ended(stack.len()) {
            None
        } else {
            Some(self.driver_in_turn(stack))
        }
    }

    /// One step: where it waits, nothing changes, and the place is told; else where it has ended, nothing changes,
    /// and the verdict is told; else the next driver of the stack is asked for the device of the path, once and
    /// through its box, and its answer is taken. A number of the stack that names no driver answers Ok. It takes
    /// no memory. Cost: the rules of one book.
    pub fn next<R: Drivers>(&mut self, stack: &Stack, path: &InstancePath, rack: &mut R) -> WalkStep
        ensures step { result ≡ (went self.old stack.now path.now (R.rows rack.old)).step }
        ensures walk { self.new ≡ (went self.old stack.now path.now (R.rows rack.old)).standing }
        ensures rack { R.rows rack.new ≡ (went self.old stack.now path.now (R.rows rack.old)).rack }
    {
        if self.waits {
            return WalkStep::Waits { pos: self.pos };
        }
        if self.has_ended(stack.len()) {
            return WalkStep::Ended(verdict(self.is_bad()));
        }
        let pos = place_of(self.minor, stack.len(), self.asked);
        let what = AskWhat::Irp(self.minor);
        let answer = ask_driver(rack, *stack.get(pos), &Ask { what, path });
        self.take(pos, answer);
        WalkStep::Asked { pos, answer }
    }

    /// One step of a request that does not wait, with the line that it prints: where it has ended, nothing
    /// changes; else the next driver is asked as by `next`. After want of memory nothing has changed, and no driver
    /// was asked. Cost: the rules of one book, and the lengths of the path and of the driver's name.
    pub fn pass<R: Drivers>(
        &mut self,
        alloc: Global,
        stack: &Stack,
        path: &InstancePath,
        rack: &mut R,
    ) -> Result<Passed, WantOfMemory>
        requires { self.old.walk.waits ≡ false }
        ensures passed { IfOk result (λ passed. Passes self.old.walk stack.now path.now (R.rows rack.old) passed self.new.walk (R.rows rack.new)) }
        ensures walk { OnErr result (self.new ≡ self.old) }
        ensures rack { OnErr result (R.rows rack.new ≡ R.rows rack.old) }
    {
        if self.has_ended(stack.len()) {
            return Ok(Passed::Ended {
                refused: self.is_bad(),
            });
        }
        let minor = self.minor;
        let pos = place_of(minor, stack.len(), self.asked);
        let driver = *stack.get(pos);
        let name = driver_name(alloc, rack, driver)?;
        let text = path.text(alloc)?;
        let what = AskWhat::Irp(minor);
        let answer = ask_driver(rack, driver, &Ask { what, path });
        self.take(pos, answer);
        Ok(Passed::Asked(Label::Asked {
            minor,
            path: text,
            driver: name,
            shown: shown_of(minor, answer),
        }))
    }

    /// Takes the completion that the driver at a place owes: Ok, or Fail. `NoSuchRequest` exactly where the
    /// request does not wait there; then nothing changes. It takes no memory.
    pub fn complete(&mut self, pos: u64, ok: bool) -> Result<(), NoSuchRequest>
        ensures { Completed result self.old pos ok self.new }
    {
        if self.waits && self.pos == pos {
            self.take(pos, answer_of(ok));
            Ok(())
        } else {
            Err(NoSuchRequest)
        }
    }
    /// Takes the completion that the driver owes at which it waits: Ok, or Fail. `NoSuchRequest` exactly where it
    /// waits at none; then nothing changes. It takes no memory.
    pub fn complete_waiting(&mut self, ok: bool) -> Result<(), NoSuchRequest>
        ensures { CompletedWalk result self.old.walk ok self.new.walk }
    {
        self.complete(self.pos, ok)
    }
}
