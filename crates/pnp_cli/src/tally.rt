ghost use Rattle.std.specs.Prelude.{◌≡◌};
ghost use Rattle.pnp_cli.specs.Tallies.{has_moved, with_one};

use pnp_labels::{Label, OpEnd, OpKind};

/// How many labels there were, and how many ends of a rebalance for which devices moved. Both stay where they stand at 2^64 - 1.
#[derive(Clone, Copy)]
pub struct Tally {
    pub steps: u64,
    pub moved: u64,
}

/// Whether devices moved for a rebalance that ends here.
fn has_moved(label: &Label) -> bool
    ensures { result ≡ has_moved label.now }
{
    match label {
        Label::End { op, result, .. } => match (op, result) {
            (OpKind::Rebalance, OpEnd::Moved) => true,
            _ => false,
        },
        _ => false,
    }
}

/// Counts a label.
pub fn count(tally: &mut Tally, label: &Label)
    ensures { tally.new ≡ with_one tally.old label.now }
{
    tally.steps = tally.steps.saturating_add(1);
    if has_moved(label) {
        tally.moved = tally.moved.saturating_add(1);
    }
}
