ghost use Rattle.std.specs.Prelude.{◌≡◌, IfOk};
ghost use Rattle.script_play.specs.Saying.{said_of};

use device_ids::{Text, WantOfMemory};
use pnp_labels::Event;
use resource_reqs::{Reqs, Res};
use std::alloc::Global;

/// What an event said that its label does not have: paths as the script spells them, a range also where it is refused, and what a
/// device requires from now on. This project's own.
#[derive(Drop)]
pub enum Said {
    /// The two that are to be related.
    Relate { owner: Text, member: Text },
    /// The range that is to be for nobody.
    Reserve { res: Res },
    /// The device whose request is completed.
    Complete { path: Text },
    /// What a device is to require.
    Change { reqs: Reqs },
    /// Anything else.
    Other,
}

/// What an event says beside its label.
pub fn said_of(alloc: Global, event: &Event) -> Result<Said, WantOfMemory>
    ensures { IfOk result (λ said. said ≡ said_of event.now) }
{
    match event {
        Event::Relate { owner, member, .. } => Ok(Said::Relate {
            owner: owner.text(alloc)?,
            member: member.text(alloc)?,
        }),
        Event::Reserve { res } => Ok(Said::Reserve { res: *res }),
        Event::Complete { path, .. } => Ok(Said::Complete {
            path: path.text(alloc)?,
        }),
        Event::Change { reqs, .. } => Ok(Said::Change {
            reqs: reqs.copy(alloc)?,
        }),
        _ => Ok(Said::Other),
    }
}
