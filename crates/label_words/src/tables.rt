//! What words of a line mean: problems, reasons of a refusal, states, operations.
ghost use Rattle.std.specs.Prelude.{◌≡◌};
ghost use Rattle.label_words.specs.Words.{begin_words, notice_words, problem_words, reason_words, result_words, state_words};

use pnp_labels::{DevState, NoticeKind, OpEnd, OpKind, Problem, Reason};

/// What a problem means.
pub fn problem_words(problem: Problem) -> &'static [u8]
    ensures { result.now ≡ problem_words problem }
{
    match problem {
        Problem::FailedStart => b"its drivers failed START_DEVICE",
        Problem::NormalConflict =>
            b"nothing fits for it, even if all devices that agree to stop may move",
        Problem::Disabled => b"its path is disabled",
        Problem::FailedInstall => b"no INF has a driver for it",
        Problem::FailedAdd => b"a driver did not add it",
        Problem::LoadFailed => b"a driver that the INF names is not there",
        Problem::HeldForEject => b"it was related to a device that was ejected, and stays",
        Problem::Budget =>
            b"the budget of a search was spent, so it is not known whether anything fits",
        Problem::Held =>
            b"it lost its drivers with another device, or when its last handle was closed, and stays",
    }
}

/// Why a line of a script was refused.
pub fn reason_words(reason: Reason) -> &'static [u8]
    ensures { result.now ≡ reason_words reason }
{
    match reason {
        Reason::NoParent => b"the world has no device of the path of the parent",
        Reason::SameId => b"the world has a device of the path",
        Reason::WorldFull => b"the world has 4,096 devices besides the root",
        Reason::NoDevice => b"there is no device of the path",
        Reason::RootStays => b"it is the root, which stays",
        Reason::SameName => b"a driver has the name",
        Reason::RackEmpty => b"no driver of the kind is without a name",
        Reason::NoDriver => b"no driver has the name",
        Reason::NotTeachable => b"the driver is not scripted",
        Reason::BookFull => b"its book has 64 rules",
        Reason::AlreadyDisabled => b"the path is disabled",
        Reason::NotDisabled => b"the path is not disabled",
        Reason::Busy => b"an operation runs",
        Reason::SelfRelation => b"owner and member are one",
        Reason::SameRelation => b"they are related already, by this kind and this way round",
        Reason::RelationCycle => b"the owner depends on the member",
        Reason::NotStarted => b"a device that must be Started is not",
        Reason::InUse => b"the range clashes with what a device holds or with a reserved range",
        Reason::NoSuchRequest => b"at no device of the path a request of the minor waits",
        Reason::NoHandle => b"no handle to it is open",
        Reason::HasChildren => b"a device stands below it",
        Reason::SameWindow => b"it has a window of the kind",
        Reason::SameWatch => b"the client is registered on it",
        Reason::NoWatch => b"the client is not registered on it",
    }
}

/// What a state is.
pub fn state_words(state: DevState) -> &'static [u8]
    ensures { result.now ≡ state_words state }
{
    match state {
        DevState::NoStack => b"no driver has added the device",
        DevState::NotStarted => b"drivers have added the device; it was not started",
        DevState::Started => b"the device works",
        DevState::StopPending => b"its drivers agreed that it is stopped",
        DevState::Stopped => b"it is stopped, so that what it holds can change",
        DevState::RemovePending => b"its drivers agreed that it is removed",
        DevState::SurpriseRemoved => b"its drivers heard that it is gone",
    }
}

/// What an operation is for.
pub fn begin_words(op: OpKind) -> &'static [u8]
    ensures { result.now ≡ begin_words op }
{
    match op {
        OpKind::Rebalance => b"devices are to stop, so that one more can have what it needs",
        OpKind::Disable =>
            b"the device and all that depends on it are to lose their drivers, and it stays disabled",
        OpKind::Eject =>
            b"the device and all that depends on it are to lose their drivers, and it leaves",
        OpKind::Surprise => b"a device has gone without a word",
        OpKind::Finish =>
            b"no handle holds them any more: devices that have gone are to lose their drivers",
        OpKind::Change => b"devices are to stop, so that this one can have what it requires now",
    }
}

/// How an operation ended.
pub fn result_words(end: &OpEnd) -> &'static [u8]
    ensures { result.now ≡ result_words end.now }
{
    match end {
        OpEnd::Moved => b"the resources were found and given",
        OpEnd::NoFit => b"nothing fits, so all is as before",
        OpEnd::Spent => b"the budget was spent, so all is as before",
        OpEnd::Done => b"nothing is left to do",
        OpEnd::Waiting => b"a device stays behind, as a handle is open",
        OpEnd::Refused => b"the device itself would not stop, so all is as before",
        OpEnd::Veto(_) => b"this device refused, so all is as before",
    }
}

/// What a client is told, or how it answers.
pub fn notice_words(what: NoticeKind, agrees: Option<bool>) -> &'static [u8]
    ensures { result.now ≡ notice_words what agrees }
{
    match (what, agrees) {
        (_, Some(true)) => b"the client agrees",
        (_, Some(false)) => b"the client refuses",
        (NoticeKind::QueryRemove, None) =>
            b"the client is asked whether the device may lose its drivers",
        (NoticeKind::RemoveCancelled, None) => b"the client hears that the device stays",
        (NoticeKind::RemoveComplete, None) =>
            b"the client hears that the device lost its drivers, or is gone",
    }
}
