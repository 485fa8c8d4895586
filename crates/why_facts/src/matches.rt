//! All models lines that match a device, and their order.
ghost use Rattle.std.specs.Prelude.{◌≡◌, ◌≤◌, not};
ghost use Rattle.driver_rank.specs.Best.{match_type, rank_of};
ghost use Rattle.why_facts.specs.Ranking.{comes_before, given};

use device_ids::{IdList, Text, WantOfMemory};
use devnode_tree::Node;
use inf_reader::{Inf, ModelLine};
use std::alloc::Global;

/// A models line with its best match.
#[derive(Clone, Copy)]
pub struct Match {
    /// The less the better.
    pub rank: u32,
    /// The date and the version of its INF.
    pub date: u32,
    pub version: u64,
    /// The place of the INF, the number of the line, and the place of the line in the INF.
    pub inf: u64,
    pub line: u32,
    pub place: u64,
    /// Which of the device's IDs agrees with which of the line's: whether it is a hardware ID, and both places.
    pub hardware: bool,
    pub device_at: u64,
    pub line_at: u64,
}

/// The digit of a rank that tells the kinds of two IDs.
fn kind_of(hardware: bool, line_at: u64) -> u32
    ensures kind { result ≡ match_type (not hardware) line_at }
    ensures few { result ≤ 3 }
{
    match (hardware, line_at) {
        (true, 0) => 0,
        (true, _) => 1,
        (false, 0) => 2,
        (false, _) => 3,
    }
}

/// The rank of a match: the score, the kinds of the two IDs, and their places.
fn rank_of(score: u8, hardware: bool, device_at: u64, line_at: u64) -> u32
    ensures { device_at ≤ 63 → line_at ≤ 7 → result ≡ rank_of score (given hardware device_at) line_at }
{
    let kind = kind_of(hardware, line_at);
    let device = device_at.min(63) as u32;
    let line = line_at.min(7) as u32;
    score as u32 * 65_536 + kind * 4_096 + device * 8 + line
}

/// The better of two, and the first where neither is.
fn better(first: Option<Match>, second: Match) -> Option<Match> {
    match first {
        None => Some(second),
        Some(first) => if second.rank < first.rank {
            Some(second)
        } else {
            Some(first)
        },
    }
}

/// The best match of one of a line's IDs with a list of the device's.
fn best_of_ids(
    found: Match,
    id: &Text,
    score: u8,
    ids: &IdList,
    before: Option<Match>,
) -> Option<Match> {
    let mut best = before;
    for at in 0..ids.len() {
        if id.len() > 0 && id.bytes().eq_ignore_ascii_case(ids.get(at).bytes()) {
            let mut met = found;
            met.rank = rank_of(score, found.hardware, at, found.line_at);
            met.device_at = at;
            best = better(best, met);
        }
    }
    best
}

/// The best match of a line, if it has one.
fn best_of_line(
    inf: &Inf,
    number: u64,
    place: u64,
    line: &ModelLine,
    node: &Node,
) -> Option<Match> {
    let mut best = None;
    for line_at in 0..line.ids.len() {
        let mut found = Match {
            rank: 0,
            date: inf.date,
            version: inf.version,
            inf: number,
            line: line.line,
            place,
            hardware: true,
            device_at: 0,
            line_at,
        };
        let id = line.ids.get(line_at);
        best = best_of_ids(found, id, line.score, &node.hw, best);
        found.hardware = false;
        best = best_of_ids(found, id, line.score, &node.compat, best);
    }
    best
}

/// All lines that match a device.
pub fn matches(alloc: Global, infs: &[Inf], node: &Node) -> Result<Vec<Match>, WantOfMemory> {
    let mut found = Vec::new(alloc);
    for number in 0..infs.len() {
        let inf = &infs[number];
        for place in 0..inf.lines.len() {
            if let Some(one) = best_of_line(inf, number as u64, place, inf.lines.get(place), node) {
                found.push(one)?;
            }
        }
    }
    Ok(found)
}

/// Whether the first is taken before the second: the lesser rank, the newer date, the higher version, the INF that is named first, the
/// earlier line.
fn is_before(first: &Match, second: &Match) -> bool
    ensures { result ≡ comes_before first.now second.now }
{
    if first.rank != second.rank {
        return first.rank < second.rank;
    }
    if first.date != second.date {
        return first.date > second.date;
    }
    if first.version != second.version {
        return first.version > second.version;
    }
    if first.inf != second.inf {
        return first.inf < second.inf;
    }
    if first.line != second.line {
        return first.line < second.line;
    }
    first.place < second.place
}

/// The best of those that come after one, or of all.
pub fn best_after(all: &[Match], after: Option<Match>) -> Option<Match> {
    let mut best: Option<Match> = None;
    for met in all {
        let is_later = match &after {
            Some(last) => is_before(last, met),
            None => true,
        };
        let is_best = match &best {
            Some(best) => is_before(met, best),
            None => true,
        };
        if is_later && is_best {
            best = Some(*met);
        }
    }
    best
}

/// The best of the lines that match a device.
pub fn best_of(alloc: Global, infs: &[Inf], node: &Node) -> Result<Option<Match>, WantOfMemory> {
    let all = matches(alloc, infs, node)?;
    Ok(best_after(&all, None))
}

/// The models line of a match.
pub fn line_of<'a>(infs: &'a [Inf], found: &Match) -> Option<&'a ModelLine> {
    let inf = infs.get(found.inf as usize)?;
    if found.place < inf.lines.len() {
        return Some(inf.lines.get(found.place));
    }
    None
}
