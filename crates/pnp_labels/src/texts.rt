ghost use Rattle.std.specs.Prelude.{◌≡◌};
ghost use Rattle.pnp_labels.specs.Texts.{minor_text, shown_text, state_text, problem_text, op_text, task_text, word_text, reason_text, notice_text};

use crate::label::{EventWord, NoticeKind, OpKind, Reason, Shown, TaskKind};
use crate::states::{DevState, Problem};
use crate::words::Minor;

/// The printed name of a request: the driver kit's, without its first part IRP_MN_.
pub fn minor_text(minor: Minor) -> &'static [u8]
    ensures { result.now ≡ minor_text minor }
{
    match minor {
        Minor::Start => b"START_DEVICE",
        Minor::QueryRemove => b"QUERY_REMOVE_DEVICE",
        Minor::Remove => b"REMOVE_DEVICE",
        Minor::CancelRemove => b"CANCEL_REMOVE_DEVICE",
        Minor::Stop => b"STOP_DEVICE",
        Minor::QueryStop => b"QUERY_STOP_DEVICE",
        Minor::CancelStop => b"CANCEL_STOP_DEVICE",
        Minor::SurpriseRemoval => b"SURPRISE_REMOVAL",
    }
}

/// What an ask shows.
pub fn shown_text(shown: Shown) -> &'static [u8]
    ensures { result.now ≡ shown_text shown }
{
    match shown {
        Shown::Ok => b"ok",
        Shown::Fail => b"fail",
        Shown::Pend => b"pend",
        Shown::Violation => b"violation",
    }
}

/// The printed name of a state: the variant's.
pub fn state_text(state: DevState) -> &'static [u8]
    ensures { result.now ≡ state_text state }
{
    match state {
        DevState::NoStack => b"NoStack",
        DevState::NotStarted => b"NotStarted",
        DevState::Started => b"Started",
        DevState::StopPending => b"StopPending",
        DevState::Stopped => b"Stopped",
        DevState::RemovePending => b"RemovePending",
        DevState::SurpriseRemoved => b"SurpriseRemoved",
    }
}

/// The printed code of a problem: the driver kit's number, or this project's own word.
pub fn problem_text(problem: Problem) -> &'static [u8]
    ensures { result.now ≡ problem_text problem }
{
    match problem {
        Problem::FailedStart => b"10",
        Problem::NormalConflict => b"12",
        Problem::Disabled => b"22",
        Problem::FailedInstall => b"28",
        Problem::FailedAdd => b"31",
        Problem::LoadFailed => b"39",
        Problem::HeldForEject => b"47",
        Problem::Budget => b"budget",
        Problem::Held => b"held",
    }
}

/// The printed name of an operation.
pub fn op_text(op: OpKind) -> &'static [u8]
    ensures { result.now ≡ op_text op }
{
    match op {
        OpKind::Rebalance => b"rebalance",
        OpKind::Disable => b"disable",
        OpKind::Eject => b"eject",
        OpKind::Surprise => b"surprise",
        OpKind::Finish => b"finish",
        OpKind::Change => b"change",
    }
}

/// The printed name of a task.
pub fn task_text(task: TaskKind) -> &'static [u8]
    ensures { result.now ≡ task_text task }
{
    match task {
        TaskKind::List => b"list",
        TaskKind::Start => b"start",
        TaskKind::Rebalance => b"rebalance",
        TaskKind::Disable => b"disable",
        TaskKind::Eject => b"eject",
        TaskKind::Surprise => b"surprise",
        TaskKind::Finish => b"finish",
        TaskKind::Change => b"change",
    }
}

/// The word of an event: that of its script line.
pub fn word_text(word: EventWord) -> &'static [u8]
    ensures { result.now ≡ word_text word }
{
    match word {
        EventWord::Plug => b"plug",
        EventWord::Pull => b"pull",
        EventWord::Name => b"driver",
        EventWord::Teach => b"teach",
        EventWord::Disable => b"disable",
        EventWord::Enable => b"enable",
        EventWord::Eject => b"eject",
        EventWord::Relate => b"relate",
        EventWord::Reserve => b"reserve",
        EventWord::Complete => b"complete",
        EventWord::HandleOpen => b"open",
        EventWord::HandleClose => b"close",
        EventWord::Window => b"window",
        EventWord::Change => b"change",
        EventWord::Watch => b"watch",
        EventWord::Unwatch => b"unwatch",
    }
}

/// The printed name of a reason: the variant's.
pub fn reason_text(reason: Reason) -> &'static [u8]
    ensures { result.now ≡ reason_text reason }
{
    match reason {
        Reason::NoParent => b"NoParent",
        Reason::SameId => b"SameId",
        Reason::WorldFull => b"WorldFull",
        Reason::NoDevice => b"NoDevice",
        Reason::RootStays => b"RootStays",
        Reason::SameName => b"SameName",
        Reason::RackEmpty => b"RackEmpty",
        Reason::NoDriver => b"NoDriver",
        Reason::NotTeachable => b"NotTeachable",
        Reason::BookFull => b"BookFull",
        Reason::AlreadyDisabled => b"AlreadyDisabled",
        Reason::NotDisabled => b"NotDisabled",
        Reason::Busy => b"Busy",
        Reason::SelfRelation => b"SelfRelation",
        Reason::SameRelation => b"SameRelation",
        Reason::RelationCycle => b"RelationCycle",
        Reason::NotStarted => b"NotStarted",
        Reason::InUse => b"InUse",
        Reason::NoSuchRequest => b"NoSuchRequest",
        Reason::NoHandle => b"NoHandle",
        Reason::HasChildren => b"HasChildren",
        Reason::SameWindow => b"SameWindow",
        Reason::SameWatch => b"SameWatch",
        Reason::NoWatch => b"NoWatch",
    }
}

/// The printed name of a notice.
pub fn notice_text(what: NoticeKind) -> &'static [u8]
    ensures { result.now ≡ notice_text what }
{
    match what {
        NoticeKind::QueryRemove => b"QUERY_REMOVE",
        NoticeKind::RemoveCancelled => b"REMOVE_CANCELLED",
        NoticeKind::RemoveComplete => b"REMOVE_COMPLETE",
    }
}
