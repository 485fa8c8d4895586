use crate::label::Shown;
use crate::words::{Minor, RelKind};
use device_ids::Text;
use resource_reqs::Res;

/// What was done when an event was taken: one variant for each of `Event`. A path is spelled as the world, the tree or the list of
/// disabled paths has it, and not as the event has it. This project's own.
pub enum Deed {
    /// A device arrived.
    Plugged {
        path: Text,
    },
    /// A device departed with all below it.
    Pulled {
        path: Text,
    },
    /// A driver of the rack got this name.
    Named {
        driver: Text,
    },
    /// The driver of this name learned a rule.
    Taught {
        driver: Text,
    },
    /// A device is to be disabled.
    Disabled {
        path: Text,
    },
    /// A device is no longer disabled.
    Enabled {
        path: Text,
    },
    /// A device is to be ejected.
    Ejected {
        path: Text,
    },
    /// The member loses its drivers when the owner does.
    Related {
        kind: RelKind,
        owner: Text,
        member: Text,
    },
    /// A range is for no device.
    Reserved {
        res: Res,
    },
    /// A request that was pended got its answer.
    Completed {
        path: Text,
        minor: Minor,
        shown: Shown,
    },
    /// A handle to a device was opened.
    HandleOpened {
        path: Text,
    },
    /// A handle to a device was closed.
    HandleClosed {
        path: Text,
    },
    /// A device passes on only what lies in this range of its kind.
    Windowed {
        path: Text,
        res: Res,
    },
    /// A device requires something else.
    Changed {
        path: Text,
    },
    /// A client is told of the device's removal.
    Watched {
        client: Text,
        path: Text,
    },
    /// A client hears no more of the device.
    Unwatched {
        client: Text,
        path: Text,
    },
}

impl Drop for Deed {
    fn drop(self) {
        match self {
            Deed::Plugged { path: _ } => {}
            Deed::Pulled { path: _ } => {}
            Deed::Named { driver: _ } => {}
            Deed::Taught { driver: _ } => {}
            Deed::Disabled { path: _ } => {}
            Deed::Enabled { path: _ } => {}
            Deed::Ejected { path: _ } => {}
            Deed::Related {
                kind: _,
                owner: _,
                member: _,
            } => {}
            Deed::Reserved { res: _ } => {}
            Deed::Completed {
                path: _,
                minor: _,
                shown: _,
            } => {}
            Deed::HandleOpened { path: _ } => {}
            Deed::HandleClosed { path: _ } => {}
            Deed::Windowed { path: _, res: _ } => {}
            Deed::Changed { path: _ } => {}
            Deed::Watched { client: _, path: _ } => {}
            Deed::Unwatched { client: _, path: _ } => {}
        }
    }
}
