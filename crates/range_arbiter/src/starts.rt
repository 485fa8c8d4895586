ghost use Rattle.std.specs.Prelude.{◌≡◌, ◌≢◌, ◌≤◌, ◌<◌, ◌+◌, ◌%◌, ◌^◌, ℕ, IfSome, IfNone};
ghost use Rattle.range_arbiter.specs.Sweeps.{IsStart};

use resource_reqs::Want;

/// The least multiple of `align` from `start` to `last`.
#[tactic(auto, using(crate::proofs::Aligned::unaligned_until, crate::proofs::Aligned::aligned_next))]
fn aligned(start: u64, align: u64, last: u64) -> Option<u64>
    requires { 0 < align }
    ensures found { IfSome result (λ s. (start ≤ s) × (s ≤ last) × (s % align ≡ 0)) }
    ensures least { IfSome result (λ s. (t : ℕ) → start ≤ t → t < s → t % align ≢ 0) }
    ensures none { IfNone result ((t : ℕ) → start ≤ t → t ≤ last → t % align ≢ 0) }
{
    if last < start {
        return None;
    }
    let past = start % align;
    if past == 0 {
        return Some(start);
    }
    let up = align - past;
    if last - start < up {
        return None;
    }
    Some(start + up)
}

/// The least start of a want at or above a number.
pub fn start_from(want: &Want, from: u64) -> Option<u64>
    ensures found { IfSome result (λ s. (from ≤ s) × IsStart want.now s) }
    ensures some { IfSome result (λ _. 0 < want.now.len) }
    ensures least { IfSome result (λ s. (t : ℕ) → from ≤ t → t < s → ¬ IsStart want.now t) }
    ensures none { IfNone result ((t : ℕ) → from ≤ t → ¬ IsStart want.now t) }
{
    let last = want.max - (want.len - 1);
    aligned(from.max(want.min), want.align, last)
}
