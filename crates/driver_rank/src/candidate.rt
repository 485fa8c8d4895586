//! Matches as they are met, and which of two is better.
ghost use Rattle.std.specs.Prelude.{◌≡◌, option_map};
ghost use Rattle.driver_rank.specs.Best.{is_better};
ghost use Rattle.driver_rank.specs.First.{first_of};
ghost use Rattle.driver_rank.specs.Candidates.{match_of};

use inf_reader::{Inf, ModelLine};

/// A line that matches, at its least rank.
#[derive(Clone, Copy)]
pub struct Candidate<'a> {
    pub rank: u32,
    /// The INF, and its place among those that are named.
    pub inf: &'a Inf,
    pub number: u32,
    /// The line, and its place among the models lines of the INF.
    pub line: &'a ModelLine,
    pub place: u64,
}

/// Whether the second is better.
fn is_better(first: &Candidate, second: &Candidate) -> bool
    ensures { result ≡ is_better (match_of second.now) (match_of first.now) }
{
    if second.rank != first.rank {
        return second.rank < first.rank;
    }
    if second.inf.date != first.inf.date {
        return second.inf.date > first.inf.date;
    }
    if second.inf.version != first.inf.version {
        return second.inf.version > first.inf.version;
    }
    if second.number != first.number {
        return second.number < first.number;
    }
    if second.line.line != first.line.line {
        return second.line.line < first.line.line;
    }
    second.place < first.place
}

/// The better of two, and the first where neither is.
pub fn better<'a>(first: Option<Candidate<'a>>, second: Candidate<'a>) -> Option<Candidate<'a>>
    ensures { option_map match_of result ≡ first_of is_better (option_map match_of first.entry) (Some (match_of second.entry)) }
{
    match first {
        Some(first) => {
            if is_better(&first, &second) {
                Some(second)
            } else {
                Some(first)
            }
        }
        None => Some(second),
    }
}
