//! What holds of all tallies.
ghost use Rattle.ending_tally.specs.Tallies.{OrderDoesNotMatter, OneTally};

/// A tally of runs is one of the same runs in any other order.
pub fn order_does_not_matter()
    ensures { OrderDoesNotMatter }
{}

/// Runs, of which those of one number are one, have one tally. So what parts of them come to, put together in any order, is what all of them come to.
pub fn one_tally()
    ensures { OneTally }
{}
