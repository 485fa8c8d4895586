ghost use Rattle.pnp_laws.specs.Held.{AreWithin};
ghost use Rattle.pnp_laws.specs.Needs.{IsEventWithin};

use pnp_labels::Event;
use resource_reqs::Reqs;

/// No alternative of these requirements has more than 16 groups. Their type keeps this of each alternative, and here it is
/// said of all. It changes nothing. Cost: the number of alternatives, which is 8 at most.
fn groups_are_few(reqs: &Reqs)
    ensures { AreWithin 16 reqs.now }
{
    'lists: for at in 0..reqs.len() {
        let _few = reqs.get(at).len();
    }
}

/// No alternative of what an event says that a device requires has more than 16 groups. Their type keeps this of each
/// alternative, and here it is said of all. It changes nothing. Cost: the number of alternatives, which is 8 at most.
pub fn needs_are_few(event: &Event)
    ensures { IsEventWithin 16 event.now }
{
    if let Event::Plug { reqs, .. } | Event::Change { reqs, .. } = event {
        groups_are_few(reqs);
    }
}
