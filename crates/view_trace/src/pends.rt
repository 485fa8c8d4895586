//! The requests that drivers pended, each with the driver's lane, so that the end of a pend is drawn where it completes.
ghost use Rattle.std.specs.Prelude.{◌≡◌, is_some};
ghost use Rattle.view_trace.specs.Rows.{is_completion};

use device_ids::{Text, WantOfMemory};
use pnp_labels::{Deed, Label, Minor, Shown};
use std::alloc::Global;

/// A request that a driver pended, and the driver's lane.
#[derive(Drop)]
struct Pend {
    path: Text,
    minor: Minor,
    lane: u64,
}

/// The requests that were pended. This project's own.
#[derive(Drop)]
pub struct Pends {
    pends: Vec<Pend>,
}

/// Where a completion goes: from this lane, with this answer.
#[derive(Clone, Copy)]
pub struct Completed {
    pub lane: u64,
    pub shown: Shown,
}

impl Pends {
    /// Nothing was pended. It takes no memory.
    pub fn new(alloc: Global) -> Pends {
        Pends {
            pends: Vec::new(alloc),
        }
    }

    /// A driver was asked, and has this lane: where it pended the request, that is kept.
    pub fn note(&mut self, alloc: Global, label: &Label, lane: u64) -> Result<(), WantOfMemory> {
        match label {
            Label::Asked {
                minor,
                path,
                shown: Shown::Pend,
                ..
            } => {
                let path = path.copy(alloc)?;
                self.pends.push(Pend {
                    path,
                    minor: *minor,
                    lane,
                })?;
                Ok(())
            }
            _ => Ok(()),
        }
    }

    /// The lane of the newest of these requests that was pended.
    fn lane_of(&self, path: &Text, minor: Minor) -> Option<u64> {
        let mut found = None;
        for pend in &self.pends {
            if pend.minor == minor && pend.path.same(path) {
                found = Some(pend.lane);
            }
        }
        found
    }

    /// Where a label completes what was pended: from which lane, and how; from the manager's own, where nobody pended it, as in no run.
    /// Cost: the number of requests that were pended.
    pub fn completed(&self, label: &Label) -> Option<Completed>
        ensures { is_some result ≡ is_completion label.now }
    {
        match label {
            Label::Did(Deed::Completed { path, minor, shown }) => Some(Completed {
                lane: self.lane_of(path, *minor).unwrap_or(0),
                shown: *shown,
            }),
            _ => None,
        }
    }
}
