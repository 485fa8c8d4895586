ghost use Rattle.std.specs.Prelude.{◌≡◌, ◌<◌, ◌+◌, ◌^◌, IfOk, OnOk};
ghost use Rattle.pnp_model.specs.Endings.{ending, joined};
ghost use Rattle.pnp_model.specs.Events.{happens};
ghost use Rattle.pnp_model.specs.Machine.{IsQuiet};
ghost use Rattle.live_model.specs.Lives.{live_query};
ghost use Rattle.live_model.specs.Moves.{HasFewIds, HasHappened, MovesBy, MovesOwn};
ghost use Rattle.live_run.specs.Views.{IfAsks, lives_of};

use crate::asks::LiveAsk;
use crate::live::LiveDrivers;
use device_ids::WantOfMemory;
use pnp_labels::{Answer, Event, Label};
use std::alloc::Global;

/// A run of the machine in which the caller says, for a step, how the driver that is asked answers, or leaves it to the books. A contract
/// sees what stays the same, the state, and how many events happened.
pub trait Machine: Drop {
    ghost use Rattle.std.specs.Prelude.{ℕ};
    ghost use Rattle.pnp_model.specs.Records.{Settings, State};

    /// What stays the same in a run.
    ghost settings: { Self → Settings };

    /// The state; of a driver's book it has what the driver was taught, less what was used.
    ghost state: { Self → State };

    /// How many events happened.
    ghost events: { Self → ℕ };

    /// What the next step asks, where it asks a live driver; none where it asks another, or nobody, or no step is next.
    fn live_ask(&self, alloc: Global, live: &LiveDrivers) -> Result<Option<LiveAsk>, WantOfMemory>
        ensures { IfOk result (λ ask. IfAsks ask (state self.now) (live_query (lives_of live.now) (state self.now))) };

    /// The step in which the driver that is asked answers so; no book changes. None exactly where no step is next.
    fn step_by(&mut self, answer: Answer) -> Result<Option<Label>, WantOfMemory>
        ensures moves { IfOk result (λ label. MovesBy answer (settings self.old) (state self.old) label (state self.new)) }
        ensures same { settings self.new ≡ settings self.old }
        ensures events { events self.new ≡ events self.old };

    /// The step in which the driver that is asked answers by its book, of which one loses a use. None exactly where no step is next.
    fn step_own(&mut self) -> Result<Option<Label>, WantOfMemory>
        ensures moves { IfOk result (λ label. MovesOwn (settings self.old) (state self.old) label (state self.new)) }
        ensures same { settings self.new ≡ settings self.old }
        ensures events { events self.new ≡ events self.old };

    /// An event happens. Conditions: no step is next, the event has at most 64 IDs of each sort, and fewer than 2^24 events happened before.
    fn apply(&mut self, event: Event) -> Result<Label, WantOfMemory>
        requires quiet { IsQuiet (settings self.old) (state self.old) }
        requires ids { HasFewIds event }
        requires events { events self.old < 2 ^ 24 }
        ensures happened { IfOk result (λ label. HasHappened (happens (state self.old) event) label (state self.new)) }
        ensures same { settings self.new ≡ settings self.old }
        ensures events { OnOk result (events self.new ≡ events self.old + 1) };

    /// The end of the output.
    fn ending(&self, alloc: Global) -> Result<Vec<u8>, WantOfMemory>
        ensures { IfOk result (λ text. text.items ≡ joined (ending (state self.now))) };
}
