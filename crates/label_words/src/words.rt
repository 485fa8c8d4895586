//! What a line of a trace says.
ghost use Rattle.std.specs.Prelude.{◌≡◌};
ghost use Rattle.label_words.specs.Words.{added_words, asked_words, done_words, failed_words, good_words, is_failure, is_in_vain, is_wrong, label_words};

use crate::tables::{
    begin_words, notice_words, problem_words, reason_words, result_words, state_words,
};
use pnp_labels::{Deed, Label, Minor, OpEnd, Shown};

/// What an event was.
fn done_words(deed: &Deed) -> &'static [u8]
    ensures { result.now ≡ done_words deed.now }
{
    match deed {
        Deed::Plugged { .. } => b"a device arrives",
        Deed::Pulled { .. } => b"a device goes without a word, with all below it",
        Deed::Named { .. } => b"a driver of the rack has this name from now on",
        Deed::Taught { .. } => b"the driver learns how to answer",
        Deed::Disabled { .. } => b"the device is to be disabled",
        Deed::Enabled { .. } => b"the path is not disabled any more",
        Deed::Ejected { .. } => b"the device is to be ejected",
        Deed::Related { .. } => b"where the owner loses its drivers, the member does too",
        Deed::Reserved { .. } => b"no device may have this range",
        Deed::Completed { .. } => b"a driver answers what it had pended",
        Deed::HandleOpened { .. } => b"a handle to the device is opened",
        Deed::HandleClosed { .. } => b"a handle to the device is closed",
        Deed::Windowed { .. } =>
            b"devices below it have what they need of this kind inside the range",
        Deed::Changed { .. } => b"the device requires something else from now on",
        Deed::Watched { .. } =>
            b"the client is told from now on when the device is to lose its drivers",
        Deed::Unwatched { .. } => b"the client hears no more of the device",
    }
}

/// A driver did as it was asked.
fn good_words(minor: Minor) -> &'static [u8]
    ensures { result.now ≡ good_words minor }
{
    match minor {
        Minor::Start => b"the driver starts the device",
        Minor::QueryRemove => b"the driver agrees that the device is removed",
        Minor::Remove => b"the driver lets the device go",
        Minor::CancelRemove => b"the driver hears that the device stays",
        Minor::Stop => b"the driver stops the device",
        Minor::QueryStop => b"the driver agrees that the device is stopped",
        Minor::CancelStop => b"the driver hears that the device is not stopped",
        Minor::SurpriseRemoval => b"the driver hears that the device is gone",
    }
}

/// A driver refused.
fn failed_words(minor: Minor) -> &'static [u8]
    ensures { result.now ≡ failed_words minor }
{
    match minor {
        Minor::Start => b"the driver did not start the device",
        Minor::QueryRemove => b"the driver refused that the device is removed",
        Minor::QueryStop => b"the driver refused that the device is stopped",
        _ => b"the driver failed the request",
    }
}

/// What a driver answered.
fn asked_words(minor: Minor, shown: Shown) -> &'static [u8]
    ensures { result.now ≡ asked_words minor shown }
{
    match shown {
        Shown::Ok => good_words(minor),
        Shown::Fail => failed_words(minor),
        Shown::Pend => b"the driver answers later: a line `complete` ends it",
        Shown::Violation => b"the driver failed what it must not fail; it is taken for done",
    }
}

/// Whether a driver added a device.
fn added_words(ok: bool) -> &'static [u8]
    ensures { result.now ≡ added_words ok }
{
    if ok {
        b"the driver adds the device"
    } else {
        b"the driver did not add the device"
    }
}

/// What a line of a trace says, in words for people: one sentence, without its capital letter and full stop.
pub fn label_words(label: &Label) -> &'static [u8]
    ensures { result.now ≡ label_words label.now }
{
    match label {
        Label::Did(deed) => done_words(deed),
        Label::Refused { reason, .. } => reason_words(*reason),
        Label::Trouble { problem, .. } => problem_words(*problem),
        Label::Asked { minor, shown, .. } => asked_words(*minor, *shown),
        Label::Add { ok, .. } => added_words(*ok),
        Label::State { state, .. } => state_words(*state),
        Label::Begin { op, .. } => begin_words(*op),
        Label::End { result, .. } => result_words(result),
        Label::Notice { what, agrees, .. } => notice_words(*what, *agrees),
        Label::Skip { .. } => b"there was nothing to do for the device of this number",
        Label::Join { .. } => b"the device is new in the tree, with this number",
        Label::Gone { .. } => b"the device is not there any more: its surprise removal is due",
        Label::Listed { .. } => b"the devices below it were compared with the tree",
        Label::Install { .. } =>
            b"the best driver that an INF has for it, with its rank: the lower, the better",
        Label::Assign { .. } => b"the device has these resources from now on",
        Label::Fits { .. } => b"it fits if those that agreed to stop move",
        Label::NoFit { .. } => b"nothing fits for it beside what others hold",
        Label::Spent { .. } => b"the budget was spent before the search was over",
        Label::Commit { .. } => b"so many devices get their new resources at once",
        Label::Leave { .. } => b"the device leaves the tree",
        Label::Ejected { .. } => b"the device leaves the tree, and was taken out",
        Label::Handles { .. } =>
            b"it refuses: a handle to it is open, or it has gone and waits to be finished",
        Label::Waits { .. } => b"it keeps its drivers until no handle holds it any more",
        Label::Declined { .. } => b"this client refused, so it does not begin",
    }
}

/// Whether an operation did not do what it was for.
fn is_in_vain(end: &OpEnd) -> bool
    ensures { result ≡ is_in_vain end.now }
{
    match end {
        OpEnd::NoFit | OpEnd::Spent | OpEnd::Refused | OpEnd::Veto(_) => true,
        OpEnd::Moved | OpEnd::Done | OpEnd::Waiting => false,
    }
}

/// Whether a driver failed.
fn is_failure(shown: Shown) -> bool
    ensures { result ≡ is_failure shown }
{
    match shown {
        Shown::Fail | Shown::Violation => true,
        Shown::Ok | Shown::Pend => false,
    }
}

/// Whether a line tells that something went wrong: it was refused, a driver failed, a device or a client refused, a device got a problem,
/// or an operation was in vain.
pub fn is_wrong(label: &Label) -> bool
    ensures { result ≡ is_wrong label.now }
{
    match label {
        Label::Refused { .. }
        | Label::Trouble { .. }
        | Label::Handles { .. }
        | Label::Declined { .. }
        | Label::Add { ok: false, .. } => true,
        Label::Asked { shown, .. } => is_failure(*shown),
        Label::End { result, .. } => is_in_vain(result),
        _ => false,
    }
}
