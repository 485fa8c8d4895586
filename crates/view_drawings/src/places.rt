use crate::rows::Row;
use crate::shapes::Place;
use pnp_labels::DevState;

/// The line of a row that leads to another state, with its head, and where its words begin or, where they stand before the point,
/// end.
#[derive(Clone, Copy)]
pub(crate) struct Edge {
    pub(crate) path: &'static [u8],
    pub(crate) x: u64,
    pub(crate) y: u64,
    pub(crate) is_before: bool,
}

/// The size of the drawing.
pub(crate) const VIEW: &[u8] = b"0 0 1120 510";

/// All states.
pub(crate) const STATES: [DevState; 7] = [
    DevState::NoStack,
    DevState::NotStarted,
    DevState::Started,
    DevState::StopPending,
    DevState::Stopped,
    DevState::RemovePending,
    DevState::SurpriseRemoved,
];

/// Where a state stands.
pub(crate) fn place_of(state: DevState) -> Place {
    let (x, y, width, height) = match state {
        DevState::NoStack => (20, 400, 195, 50),
        DevState::NotStarted => (20, 60, 215, 60),
        DevState::Started => (400, 50, 290, 130),
        DevState::StopPending => (900, 50, 205, 80),
        DevState::Stopped => (900, 225, 205, 65),
        DevState::RemovePending => (370, 400, 150, 50),
        DevState::SurpriseRemoved => (570, 400, 190, 50),
    };
    Place {
        x,
        y,
        width,
        height,
    }
}

fn line_to(path: &'static [u8], x: u64, y: u64) -> Option<Edge> {
    Some(Edge {
        path,
        x,
        y,
        is_before: false,
    })
}

fn line_before(path: &'static [u8], x: u64, y: u64) -> Option<Edge> {
    Some(Edge {
        path,
        x,
        y,
        is_before: true,
    })
}

/// The line of a row; none where the row keeps the state.
pub(crate) fn edge_of(row: Row) -> Option<Edge> {
    match row {
        Row::Add => line_to(b"M36 400V120M31 129L36 120L41 129", 42, 230),
        Row::Remove => line_to(b"M165 120V400M160 391L165 400L170 391", 171, 285),
        Row::Start => line_to(b"M235 90H400M391 85L400 90L391 95", 243, 83),
        Row::QueryStop => line_to(b"M690 70H900M891 65L900 70L891 75", 697, 63),
        Row::CancelStop => line_to(b"M900 112H690M699 107L690 112L699 117", 697, 105),
        Row::Stop => line_to(b"M960 130V225M955 216L960 225L965 216", 966, 182),
        Row::Restart => line_to(b"M900 255H730V160H690M699 155L690 160L699 165", 737, 248),
        Row::SurpriseStopped => {
            line_before(b"M1000 290V425H760M769 420L760 425L769 430", 994, 375)
        }
        Row::QueryRemove => line_before(b"M420 180V400M415 391L420 400L425 391", 414, 330),
        Row::CancelRemove => line_to(b"M450 400V180M445 189L450 180L455 189", 456, 260),
        Row::RemovePending => line_to(b"M370 425H215M224 420L215 425L224 430", 221, 418),
        Row::Surprise => line_to(b"M665 180V400M660 391L665 400L670 391", 671, 330),
        Row::RemoveSurprised => line_to(b"M665 450V485H117V450M112 459L117 450L122 459", 280, 478),
        Row::StartBad
        | Row::QueryStopBad
        | Row::CancelStopRefused
        | Row::RestartBad
        | Row::QueryRemoveBad
        | Row::CancelRemoveRefused => None,
    }
}

/// Of the rows that keep a state, which one this is.
pub(crate) fn line_of(row: Row) -> u64 {
    match row {
        Row::CancelStopRefused => 1,
        Row::QueryRemoveBad => 2,
        Row::CancelRemoveRefused => 3,
        _ => 0,
    }
}
