ghost use Rattle.std.specs.Prelude.{◌≡◌, ◌↔◌, ◌≤◌, ◌<◌, ◌+◌, ◌-◌, ◌^◌, List, [], ◌∷◌, ℕ, IsTrue, IfOk, IfErr, IfSome};
ghost use Rattle.resource_reqs.specs.Resources.{Clash, res_at};
ghost use Rattle.range_arbiter.specs.Pairs.{Pair};
ghost use Rattle.range_arbiter.specs.Orders.{IsOrdered, AreOfKind};
ghost use Rattle.range_arbiter.specs.Spans.{Covers};
ghost use Rattle.range_arbiter.specs.Known.{Knows};
ghost use Rattle.range_arbiter.specs.Sweeps.{IsStart, Passed, Cleared, EndedWith};
ghost use Rattle.range_arbiter.specs.Blocks.{pairs_in};
ghost use Rattle.range_arbiter.specs.declared.sweep.Ended.TheVariants.{Nowhere};

use crate::block::Block;
use crate::known::Known;
use crate::span::Span;
use crate::starts::start_from;
use resource_reqs::{Owner, Res, Want};

/// How a sweep ends before it is past all pairs.
#[derive(Clone, Copy)]
pub enum Ended {
    /// This start is open, and a pair begins beyond it.
    At(u64),
    /// No start is left.
    Nowhere,
}

/// The least start of a want above a number.
fn start_above(want: &Want, reach: u64) -> Result<u64, Ended>
    ensures next { IfOk result (λ s. (reach < s) × IsStart want.now s) }
    ensures least { IfOk result (λ s. (t : ℕ) → reach < t → t < s → ¬ IsStart want.now t) }
    ensures none { IfErr result (λ e. (e ≡ Nowhere) × ((t : ℕ) → reach < t → ¬ IsStart want.now t)) }
{
    if reach >= want.max {
        return Err(Ended::Nowhere);
    }
    match start_from(want, reach + 1) {
        Some(start) => Ok(start),
        None => Err(Ended::Nowhere),
    }
}

/// Whether a resource that does not begin beyond a place of the want stands in its way there.
fn is_in_the_way(other: &Res, want: &Want, place: u64) -> bool
    requires kind { other.now.kind ≡ want.now.kind }
    requires near { other.now.lo ≤ place + want.now.len - 1 }
    ensures { IsTrue result ↔ Clash other.now (res_at want.now place) }
{
    if other.hi < place {
        return false;
    }
    !(other.shared && want.shared)
}

/// Moves a start past one pair.
fn past_pair(pair: &(Owner, Res), want: &Want, place: u64) -> Result<u64, Ended>
    requires kind { pair.now.1.kind ≡ want.now.kind }
    requires start { IsStart want.now place }
    ensures on { IfOk result (λ s. Passed (pair.now ∷ []) want.now place s) }
    ensures ended { IfErr result (EndedWith (pair.now ∷ []) want.now place) }
{
    let other = &pair.1;
    if place + (want.len - 1) < other.lo {
        return Err(Ended::At(place));
    }
    if is_in_the_way(other, want, place) {
        return start_above(want, other.hi);
    }
    Ok(place)
}

/// Moves a start past pairs, up to the first pair that begins beyond it.
fn past_pairs(pairs: &[(Owner, Res)], want: &Want, place: u64) -> Result<u64, Ended>
    requires in_order { IsOrdered pairs.now }
    requires kinds { AreOfKind want.now.kind pairs.now }
    requires start { IsStart want.now place }
    ensures on { IfOk result (λ s. Passed pairs.now want.now place s) }
    ensures ended { IfErr result (EndedWith pairs.now want.now place) }
{
    let mut start = place;
    for pair in pairs {
        match past_pair(pair, want, start) {
            Ok(next) => start = next,
            Err(ended) => return Err(ended),
        }
    }
    Ok(start)
}

/// The number above a number.
fn number_above(reach: u64) -> Result<u64, Ended>
    ensures next { IfOk result (λ n. n ≡ reach + 1) }
    ensures none { IfErr result (λ e. (e ≡ Nowhere) × (2 ^ 64 ≤ reach + 1)) }
{
    if reach == u64::MAX {
        return Err(Ended::Nowhere);
    }
    Ok(reach + 1)
}

/// Moves a bound past pairs of which this is known; it need not be a start. Those that lie below it, and those that it meets and
/// that have no gap of the want's length, are passed at once; none of others. An end is told as of a start.
#[inline(always)]
fn past_span(span: Span, want: &Want, from: u64) -> Option<Result<u64, Ended>>
    ensures on { (xs : List Pair) → AreOfKind want.now.kind xs → Covers want.now.shared xs span → IfSome result (λ r. IfOk r (λ s. Cleared xs want.now from s)) }
    ensures ended { (xs : List Pair) → AreOfKind want.now.kind xs → Covers want.now.shared xs span → IfSome result (λ r. IfErr r (EndedWith xs want.now from)) }
{
    if span.is_below(from) {
        return Some(Ok(from));
    }
    if span.gap < want.len && span.lo.saturating_sub(from) < want.len {
        return Some(number_above(span.reach));
    }
    None
}

/// Moves a bound past the pairs of a block, at once where that can be. An end is told as of a start.
fn past_block(block: &Block, want: &Want, from: u64) -> Result<u64, Ended>
    requires in_order { IsOrdered block.now }
    requires kinds { AreOfKind want.now.kind block.now }
    ensures on { IfOk result (λ s. Cleared block.now want.now from s) }
    ensures ended { IfErr result (EndedWith block.now want.now from) }
{
    if let Some(passed) = past_span(block.span(want.shared), want, from) {
        return passed;
    }
    match start_from(want, from) {
        Some(start) => past_pairs(block.pairs(), want, start),
        None => Err(Ended::Nowhere),
    }
}

/// The least start from a number on that is open beside the pairs of the blocks.
pub fn sweep(blocks: &[Block], want: &Want, from: u64) -> Result<u64, Ended>
    requires in_order { IsOrdered (pairs_in blocks.now) }
    requires kinds { AreOfKind want.now.kind (pairs_in blocks.now) }
    ensures on { IfOk result (λ s. Cleared (pairs_in blocks.now) want.now from s) }
    ensures ended { IfErr result (EndedWith (pairs_in blocks.now) want.now from) }
{
    let mut bound = from;
    for block in blocks {
        match past_block(block, want, bound) {
            Ok(next) => bound = next,
            Err(ended) => return Err(ended),
        }
    }
    Ok(bound)
}

/// The same, where perhaps something is known of all pairs at once.
pub fn sweep_known(
    known: &Option<Known>,
    blocks: &[Block],
    want: &Want,
    from: u64,
) -> Result<u64, Ended>
    requires known { IfSome known.now (λ k. Knows (pairs_in blocks.now) k) }
    requires in_order { IsOrdered (pairs_in blocks.now) }
    requires kinds { AreOfKind want.now.kind (pairs_in blocks.now) }
    ensures on { IfOk result (λ s. Cleared (pairs_in blocks.now) want.now from s) }
    ensures ended { IfErr result (EndedWith (pairs_in blocks.now) want.now from) }
{
    if let Some(known) = known {
        if let Some(passed) = past_span(known.span(want.shared), want, from) {
            return passed;
        }
    }
    sweep(blocks, want, from)
}
