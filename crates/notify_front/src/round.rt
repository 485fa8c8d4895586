ghost use Rattle.std.specs.Prelude.{◌≡◌, ◌≤◌, [], Some, IfOk, IsSome, length, option_copied, reverse, slice_get, take};
ghost use Rattle.notify_front.specs.Fronts.{Hand, running};
ghost use Rattle.notify_front.specs.Hands.{AllAgreed, IsTurn, begins, begun, hand_after, is_ended, moved_on, next_told, notice_of, refuser_of};

use crate::registration::Registration;
use device_ids::{Text, WantOfMemory};
use pnp_labels::{Label, NoticeKind, OpEnd, OpKind};
use pnp_machine::Moved;
use std::alloc::Global;
use std::marker::Model;

/// How far a round of notices is.
#[derive(Clone, Copy)]
pub(crate) enum Stage {
    /// There is none.
    Nothing,
    /// An operation on a device is due, and its clients are asked.
    Asking {
        kind: OpKind,
        serial: u64,
    },
    /// One refused, and so many of those that agreed are still to hear it.
    Cancelling {
        kind: OpKind,
        serial: u64,
        left: usize,
    },
    /// The operation runs.
    Running,
    /// It ended with a veto, and its clients hear it, the last one first.
    Vetoed,
    /// It ended otherwise, and its clients hear it in order.
    Ended,
}

/// What is to be done next.
#[derive(Clone, Copy)]
pub(crate) enum Turn {
    /// A client is told.
    Tell,
    /// Nothing is at hand.
    Idle,
    /// All agreed, and the operation begins.
    Begin,
    /// One refused and all that agreed heard it, so the operation on the device is dropped.
    Decline(OpKind, u64),
    /// The operation goes on.
    Run,
}

/// A round of notices: the clients whom an operation concerns in leaving order, and how far they were told.
pub(crate) struct Round {
    stage: Stage,
    told: Vec<Registration>,
    at: usize,
}

impl Drop for Round {
    fn drop(self) {
        let Round {
            stage: _,
            told: _,
            at: _,
        } = self;
    }
}

impl Model for Round {
    ghost use Rattle.notify_front.specs.Fronts.{Hand};

    ghost Value = { Hand };

    ghost use Rattle.notify_front.specs.Hands.{IsInside, hand_of};

    ghost view = { λ r. hand_of r.stage r.told.items r.at };

    ghost invariant = { λ r. IsInside r.stage r.told.items r.at };
}

/// The last one of the first so many.
fn last_of(told: &[Registration], count: usize) -> Option<&Registration>
    requires { count ≤ length told.now }
    ensures { option_copied result ≡ slice_get (reverse (take count told.now)) 0 }
{
    told[..count].last()
}

impl Round {
    /// No round. It takes no memory.
    pub(crate) fn nothing(alloc: Global) -> Round
        ensures { result ≡ Hand.Nothing }
    {
        Round {
            stage: Stage::Nothing,
            told: Vec::new(alloc),
            at: 0,
        }
    }

    /// These are to be asked whether an operation on a device may begin.
    pub(crate) fn asking(kind: OpKind, serial: u64, told: Vec<Registration>) -> Round
        ensures { result ≡ Hand.Asking (begins kind serial) [] told.items }
    {
        Round {
            stage: Stage::Asking { kind, serial },
            told,
            at: 0,
        }
    }

    /// These are to hear how the operation ends that runs.
    pub(crate) fn running(told: Vec<Registration>) -> Round
        ensures { result ≡ running told.items }
    {
        Round {
            stage: Stage::Running,
            told,
            at: 0,
        }
    }

    /// Who is told next, and none where nobody is left.
    pub(crate) fn next(&self) -> Option<&Registration>
        ensures { option_copied result ≡ next_told self.now }
    {
        match self.stage {
            Stage::Asking { .. } | Stage::Ended => self.told.get(self.at),
            Stage::Cancelling { left, .. } => last_of(&self.told, left),
            Stage::Vetoed => last_of(&self.told, self.at),
            Stage::Nothing | Stage::Running => None,
        }
    }

    /// What is to be done.
    pub(crate) fn turn(&self) -> Turn
        ensures { IsTurn result self.now }
    {
        if self.next().is_some() {
            return Turn::Tell;
        }
        match self.stage {
            Stage::Asking { .. } => Turn::Begin,
            Stage::Cancelling { kind, serial, .. } => Turn::Decline(kind, serial),
            Stage::Running if !self.told.is_empty() => Turn::Run,
            _ => Turn::Idle,
        }
    }

    /// What that client is told. Condition: somebody is told next. Cost: the length of the texts.
    pub(crate) fn notice(&self, alloc: Global, client: &Registration) -> Result<Label, WantOfMemory>
        requires { IsSome (next_told self.now) }
        ensures { IfOk result (λ label. label ≡ notice_of self.now client.now) }
    {
        match self.stage {
            Stage::Asking { .. } => client.notice(
                alloc,
                NoticeKind::QueryRemove,
                Some(client.agrees),
            ),
            Stage::Ended => client.notice(alloc, NoticeKind::RemoveComplete, None),
            _ => client.notice(alloc, NoticeKind::RemoveCancelled, None),
        }
    }

    /// Whether the notice is the last that the client hears. Condition: somebody is told next.
    pub(crate) fn is_ended(&self) -> bool
        requires { IsSome (next_told self.now) }
        ensures { result ≡ is_ended self.now }
    {
        matches!(self.stage, Stage::Ended)
    }

    /// The client that refused. Condition: one did.
    pub(crate) fn refuser(&self) -> &Text
        requires { IsSome (refuser_of self.now) }
        ensures { Some result.now ≡ refuser_of self.now }
    {
        &self.told[self.at].client
    }

    /// The next client was told: it agreed or refused, or heard. Condition: there is one. It takes no memory.
    pub(crate) fn advance(&mut self)
        requires { IsSome (next_told self.old) }
        ensures { self.new ≡ moved_on self.old }
    {
        match self.stage {
            Stage::Asking { .. } if self.told[self.at].agrees => self.at += 1,
            Stage::Asking { kind, serial } => {
                let left = self.at;
                self.stage = Stage::Cancelling { kind, serial, left };
            }
            Stage::Cancelling { kind, serial, left } => {
                let left = left - 1;
                self.stage = Stage::Cancelling { kind, serial, left };
            }
            Stage::Vetoed => self.at -= 1,
            Stage::Ended => self.at += 1,
            Stage::Nothing | Stage::Running => {}
        }
    }

    /// All agreed, and are to hear how the operation ends. It takes no memory.
    pub(crate) fn begin(&mut self)
        requires { AllAgreed self.old }
        ensures { self.new ≡ begun self.old }
    {
        self.stage = Stage::Running;
    }

    /// There is no round any more. It takes no memory.
    pub(crate) fn finish(&mut self)
        ensures { self.new ≡ Hand.Nothing }
    {
        self.told.clear();
        self.at = 0;
        self.stage = Stage::Nothing;
    }

    /// The machine moved: where the operation ended, its clients are to hear how. It takes no memory.
    pub(crate) fn hear(&mut self, moved: &Moved)
        ensures { self.new ≡ hand_after moved.now self.old }
    {
        if !matches!(self.stage, Stage::Running) {
            return;
        }
        let Moved::Label(Label::End { result: end, .. }) = moved else {
            return;
        };
        match end {
            OpEnd::Veto(_) => {
                self.stage = Stage::Vetoed;
                self.at = self.told.len();
            }
            _ => {
                self.stage = Stage::Ended;
                self.at = 0;
            }
        }
    }
}
