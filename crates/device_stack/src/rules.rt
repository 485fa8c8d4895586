ghost use Rattle.std.specs.Prelude.{◌≡◌, ◌<◌, if◌then◌else◌};
ghost use Rattle.pnp_model.specs.Walks.{may_fail, is_from_bottom, place_of, shown_of, state_after};
ghost use Rattle.pnp_model.specs.Events.{answer_of};
ghost use Rattle.device_stack.specs.Steps.{verdict};

use pnp_labels::{Answer, DevState, Minor, Shown, Verdict};

/// Whether a driver may fail the request (the driver kit, "Plug and Play Minor IRPs").
pub(crate) fn may_fail(minor: Minor) -> bool
    ensures { result ≡ may_fail minor }
{
    matches!(minor, Minor::Start | Minor::QueryRemove | Minor::QueryStop)
}

/// Whether the request is handled from the bottom of the stack to its top (the driver kit, "Plug and Play Minor
/// IRPs").
fn is_from_bottom(minor: Minor) -> bool
    ensures { result ≡ is_from_bottom minor }
{
    matches!(
        minor,
        Minor::Start | Minor::CancelRemove | Minor::CancelStop
    )
}

/// The place in the stack of the driver that is asked after so many.
pub(crate) fn place_of(minor: Minor, drivers: u64, asked: u64) -> u64
    ensures place { result ≡ place_of minor drivers asked }
    ensures within { asked < drivers → result < drivers }
{
    if is_from_bottom(minor) {
        asked
    } else {
        drivers.saturating_sub(1).saturating_sub(asked)
    }
}

/// The answer that a completion gives.
pub(crate) fn answer_of(ok: bool) -> Answer
    ensures { result ≡ answer_of ok }
{
    if ok { Answer::Ok } else { Answer::Fail }
}

/// How a request ended.
pub(crate) fn verdict(bad: bool) -> Verdict
    ensures { result ≡ verdict bad }
{
    if bad { Verdict::Bad } else { Verdict::Good }
}

/// What the line of an ask shows: a failure of a request that may not be failed is told apart. This project's own.
pub fn shown_of(minor: Minor, answer: Answer) -> Shown
    ensures { result ≡ shown_of minor answer }
{
    match answer {
        Answer::Ok => Shown::Ok,
        Answer::Pend => Shown::Pend,
        Answer::Fail => {
            if may_fail(minor) {
                Shown::Fail
            } else {
                Shown::Violation
            }
        }
    }
}

/// The state of a device after a request went through its stack, by whether a driver refused it and by the state
/// before (the driver kit, "State Transitions for PnP Devices").
pub fn state_after(minor: Minor, refused: bool, state: DevState) -> DevState
    ensures { result ≡ state_after minor refused state }
{
    match minor {
        Minor::Start => kept_where(refused, state, DevState::Started),
        Minor::QueryRemove => kept_where(refused, state, DevState::RemovePending),
        Minor::QueryStop => kept_where(refused, state, DevState::StopPending),
        Minor::Remove => DevState::NoStack,
        Minor::Stop => DevState::Stopped,
        Minor::CancelRemove | Minor::CancelStop => DevState::Started,
        Minor::SurpriseRemoval => DevState::SurpriseRemoved,
    }
}

/// The old state where the request was refused, else the new one.
fn kept_where(refused: bool, old: DevState, new: DevState) -> DevState
    ensures { result ≡ (if refused then old else new) }
{
    if refused { old } else { new }
}
