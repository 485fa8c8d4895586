ghost use Rattle.std.specs.Prelude.{◌≡◌, Some, Bool, IfSome, IsNone};
ghost use Rattle.pnp_model.specs.Diagram as Diagram;
ghost use Rattle.view_drawings.specs.Rows.{from_of, minor_of, bad_of, to_of};

use pnp_labels::{DevState, Minor};

/// The rows of the state diagram (the driver kit, "State Transitions for PnP Devices"; the rows are this project's own): from a
/// state, by a request that ended well or badly, to a state.
#[derive(Clone, Copy, Debug, PartialEq, Eq)]
pub enum Row {
    /// The first driver was added.
    Add,
    Start,
    StartBad,
    Remove,
    QueryStop,
    QueryStopBad,
    CancelStopRefused,
    CancelStop,
    Stop,
    Restart,
    RestartBad,
    SurpriseStopped,
    QueryRemove,
    QueryRemoveBad,
    CancelRemoveRefused,
    CancelRemove,
    RemovePending,
    Surprise,
    RemoveSurprised,
}

/// All rows.
pub const ROWS: [Row; 19] = [
    Row::Add,
    Row::Start,
    Row::StartBad,
    Row::Remove,
    Row::QueryStop,
    Row::QueryStopBad,
    Row::CancelStopRefused,
    Row::CancelStop,
    Row::Stop,
    Row::Restart,
    Row::RestartBad,
    Row::SurpriseStopped,
    Row::QueryRemove,
    Row::QueryRemoveBad,
    Row::CancelRemoveRefused,
    Row::CancelRemove,
    Row::RemovePending,
    Row::Surprise,
    Row::RemoveSurprised,
];

impl Row {
    /// The state that it leads from.
    pub fn from(self) -> DevState
        ensures { result ≡ from_of self }
    {
        match self {
            Row::Add => DevState::NoStack,
            Row::Start | Row::StartBad | Row::Remove => DevState::NotStarted,
            Row::CancelStop | Row::Stop => DevState::StopPending,
            Row::Restart | Row::RestartBad | Row::SurpriseStopped => DevState::Stopped,
            Row::CancelRemove | Row::RemovePending => DevState::RemovePending,
            Row::RemoveSurprised => DevState::SurpriseRemoved,
            Row::QueryStop
            | Row::QueryStopBad
            | Row::CancelStopRefused
            | Row::QueryRemove
            | Row::QueryRemoveBad
            | Row::CancelRemoveRefused
            | Row::Surprise => DevState::Started,
        }
    }

    /// The request; none where the first driver is added.
    pub fn minor(self) -> Option<Minor>
        ensures { result ≡ minor_of self }
    {
        match self {
            Row::Add => None,
            Row::Start | Row::StartBad | Row::Restart | Row::RestartBad => Some(Minor::Start),
            Row::Remove | Row::RemovePending | Row::RemoveSurprised => Some(Minor::Remove),
            Row::QueryStop | Row::QueryStopBad => Some(Minor::QueryStop),
            Row::CancelStopRefused | Row::CancelStop => Some(Minor::CancelStop),
            Row::Stop => Some(Minor::Stop),
            Row::SurpriseStopped | Row::Surprise => Some(Minor::SurpriseRemoval),
            Row::QueryRemove | Row::QueryRemoveBad => Some(Minor::QueryRemove),
            Row::CancelRemoveRefused | Row::CancelRemove => Some(Minor::CancelRemove),
        }
    }

    /// Whether the request ended badly: a driver refused it.
    pub fn is_bad(self) -> bool
        ensures { result ≡ bad_of self }
    {
        match self {
            Row::StartBad | Row::QueryStopBad | Row::RestartBad | Row::QueryRemoveBad => true,
            _ => false,
        }
    }

    /// The state that it leads to.
    pub fn to(self) -> DevState
        ensures { result ≡ to_of self }
    {
        match self {
            Row::Add | Row::StartBad => DevState::NotStarted,
            Row::Remove | Row::RemovePending | Row::RemoveSurprised => DevState::NoStack,
            Row::QueryStop => DevState::StopPending,
            Row::Stop | Row::RestartBad => DevState::Stopped,
            Row::SurpriseStopped | Row::Surprise => DevState::SurpriseRemoved,
            Row::QueryRemove => DevState::RemovePending,
            Row::Start
            | Row::QueryStopBad
            | Row::CancelStopRefused
            | Row::CancelStop
            | Row::Restart
            | Row::QueryRemoveBad
            | Row::CancelRemoveRefused
            | Row::CancelRemove => DevState::Started,
        }
    }
}

/// The row from a state by a request to a state, and none exactly where the diagram has none. It takes no memory.
pub fn row_between(from: DevState, minor: Minor, to: DevState) -> Option<Row>
    ensures from { IfSome result (λ row. from_of row ≡ from) }
    ensures minor { IfSome result (λ row. minor_of row ≡ Some minor) }
    ensures to { IfSome result (λ row. to_of row ≡ to) }
    ensures drawn { IfSome result (λ row. Diagram.Row from minor (bad_of row) to) }
    ensures none { IsNone result → (bad : Bool) → ¬ Diagram.Row from minor bad to }
{
    match (from, minor, to) {
        (DevState::NotStarted, Minor::Start, DevState::Started) => Some(Row::Start),
        (DevState::NotStarted, Minor::Start, DevState::NotStarted) => Some(Row::StartBad),
        (DevState::NotStarted, Minor::Remove, DevState::NoStack) => Some(Row::Remove),
        (DevState::Started, Minor::QueryStop, DevState::StopPending) => Some(Row::QueryStop),
        (DevState::Started, Minor::QueryStop, DevState::Started) => Some(Row::QueryStopBad),
        (DevState::Started, Minor::CancelStop, DevState::Started) => Some(Row::CancelStopRefused),
        (DevState::StopPending, Minor::CancelStop, DevState::Started) => Some(Row::CancelStop),
        (DevState::StopPending, Minor::Stop, DevState::Stopped) => Some(Row::Stop),
        (DevState::Stopped, Minor::Start, DevState::Started) => Some(Row::Restart),
        (DevState::Stopped, Minor::Start, DevState::Stopped) => Some(Row::RestartBad),
        (DevState::Stopped, Minor::SurpriseRemoval, DevState::SurpriseRemoved) => {
            Some(Row::SurpriseStopped)
        }
        (DevState::Started, Minor::QueryRemove, DevState::RemovePending) => Some(Row::QueryRemove),
        (DevState::Started, Minor::QueryRemove, DevState::Started) => Some(Row::QueryRemoveBad),
        (DevState::Started, Minor::CancelRemove, DevState::Started) => {
            Some(Row::CancelRemoveRefused)
        }
        (DevState::RemovePending, Minor::CancelRemove, DevState::Started) => {
            Some(Row::CancelRemove)
        }
        (DevState::RemovePending, Minor::Remove, DevState::NoStack) => Some(Row::RemovePending),
        (DevState::Started, Minor::SurpriseRemoval, DevState::SurpriseRemoved) => {
            Some(Row::Surprise)
        }
        (DevState::SurpriseRemoved, Minor::Remove, DevState::NoStack) => {
            Some(Row::RemoveSurprised)
        }
        _ => None,
    }
}
