//! What holds of all reports.
ghost use Rattle.explore_report.specs.Laws.{PartsTellTheWhole};

use crate::runs::Runs;

/// Where parts are what the scripts of their numbers come to, what is written of them all, put together, is byte for byte what is written of
/// one run of all scripts, and the same is found.
#[tactic(auto, using(crate::proofs::OneRun::parts_tell_the_whole))]
pub fn parts_tell_the_whole<R: Runs>(runs: &R)
    ensures { PartsTellTheWhole (R.shows runs.now) }
{
    let _ = runs;
}
