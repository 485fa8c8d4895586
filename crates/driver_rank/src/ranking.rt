//! The best of all matches, in one pass over the models lines.
ghost use Rattle.std.specs.Prelude.{◌≡◌, ◌≤◌, ◌↔◌, length, [], IfOk, IsNone, option_map, nat_lt};
ghost use Rattle.driver_rank.specs.Best.{best, given_of, is_better, matches};
ghost use Rattle.driver_rank.specs.First.{first_of, least_of};
ghost use Rattle.driver_rank.specs.Lookups.{base_found};
ghost use Rattle.driver_rank.specs.Passes.{line_rank, best_from, best_of_infs};
ghost use Rattle.driver_rank.specs.Candidates.{match_of};

use crate::candidate::{Candidate, better};
use crate::choice::{Choice, choice_of};
use crate::given::GivenIds;
use device_ids::{IdList, WantOfMemory};
use inf_reader::{Inf, ModelLine};
use std::alloc::Global;

/// The most IDs of a models line: the hardware ID and up to seven compatible ones.
const MOST_IDS: u64 = 8;

/// So many lines in all are few: to compare their IDs with a few of a device costs less than a map of these.
const FEW_LINES: u64 = 16;

/// Whether the INFs have few models lines in all. What is found is the same either way.
fn have_few_lines(infs: &[Inf]) -> bool {
    let mut lines = 0u64;
    for inf in infs {
        lines = lines.saturating_add(inf.lines.len());
    }
    lines <= FEW_LINES
}

/// The lesser of two ranks, where there are such.
fn lesser(first: Option<u32>, second: Option<u32>) -> Option<u32>
    ensures { result ≡ first_of nat_lt first second }
{
    match (first, second) {
        (None, second) => second,
        (first, None) => first,
        (Some(first), Some(second)) => {
            if second < first {
                Some(second)
            } else {
                Some(first)
            }
        }
    }
}

/// The least rank at which a line matches, if it does.
fn line_rank(
    ids: &GivenIds<'_>,
    buffer: &mut Vec<u8>,
    line: &ModelLine,
) -> Result<Option<u32>, WantOfMemory>
    ensures { IfOk result (λ rank. rank ≡ line_rank (base_found ids.now) line.now) }
{
    let mut least = None;
    for at in 0..line.ids.len().min(MOST_IDS) {
        let rank = ids.rank(buffer, line.score, at, line.ids.get(at).bytes())?;
        least = lesser(least, rank);
    }
    Ok(least)
}

/// The best of what was met before and of the lines of an INF.
fn best_of_inf<'a>(
    ids: &GivenIds<'_>,
    buffer: &mut Vec<u8>,
    number: u32,
    inf: &'a Inf,
    before: Option<Candidate<'a>>,
) -> Result<Option<Candidate<'a>>, WantOfMemory>
    ensures { IfOk result (λ found. option_map match_of found ≡ best_from (base_found ids.now) number inf.now (option_map match_of before.entry) 0 inf.now.lines) }
{
    let mut found = before;
    for place in 0..inf.lines.len() {
        let line = inf.lines.get(place);
        if let Some(rank) = line_rank(ids, buffer, line)? {
            let met = Candidate {
                rank,
                inf,
                number,
                line,
                place,
            };
            found = better(found, met);
        }
    }
    Ok(found)
}

/// The best of all matches, if there are any.
fn best_match<'a>(
    alloc: Global,
    ids: &GivenIds<'_>,
    infs: &'a [Inf],
) -> Result<Option<Candidate<'a>>, WantOfMemory>
    requires { length infs.now ≤ 64 }
    ensures { IfOk result (λ found. option_map match_of found ≡ best_of_infs (base_found ids.now) None 0 infs.now) }
{
    let mut buffer = Vec::new(alloc);
    let mut found = None;
    for number in 0..infs.len() {
        found = best_of_inf(ids, &mut buffer, number as u32, &infs[number], found)?;
    }
    Ok(found)
}

/// The models line that matches a device best, with its INF: the first of all matches in the order of `best`, and none
/// exactly where no line matches. Who reads what it gives need not copy it. Conditions and cost as of `best`, without what
/// the line gives.
pub fn best_line<'a>(
    alloc: Global,
    infs: &'a [Inf],
    hw: &IdList,
    compat: &IdList,
) -> Result<Option<Candidate<'a>>, WantOfMemory>
    requires infs { length infs.now ≤ 64 }
    requires hw { length hw.now ≤ 64 }
    requires compat { length compat.now ≤ 64 }
    ensures { IfOk result (λ found. option_map match_of found ≡ least_of is_better (matches (given_of hw.now compat.now) infs.now)) }
{
    let ids = GivenIds::new(alloc, hw, compat, have_few_lines(infs))?;
    best_match(alloc, &ids, infs)
}

/// The drivers of the models line that matches a device best: the first of all matches by rank, then by the newer date,
/// the higher version, the INF that is named first, and the earlier line. None exactly where no line matches. Conditions:
/// at most 64 INFs, 64 hardware IDs and 64 compatible IDs. The driver kit, "How Windows Ranks Drivers", has the order of
/// match types; the number and what follows it are this project's own. Cost: the length of each ID of the INFs; and
/// where these have more than 16 lines in all or the device more than four IDs, the memory of these.
pub fn best(
    alloc: Global,
    infs: &[Inf],
    hw: &IdList,
    compat: &IdList,
) -> Result<Option<Choice>, WantOfMemory>
    requires infs { length infs.now ≤ 64 }
    requires hw { length hw.now ≤ 64 }
    requires compat { length compat.now ≤ 64 }
    ensures best { IfOk result (λ choice. choice ≡ best infs.now hw.now compat.now) }
    ensures none { IfOk result (λ choice. IsNone choice ↔ (matches (given_of hw.now compat.now) infs.now ≡ [])) }
{
    match best_line(alloc, infs, hw, compat)? {
        Some(found) => Ok(Some(choice_of(alloc, &found)?)),
        None => Ok(None),
    }
}
