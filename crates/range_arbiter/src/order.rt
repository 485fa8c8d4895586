ghost use Rattle.std.specs.Prelude.{◌≡◌};
ghost use Rattle.range_arbiter.specs.Pairs.{is_before};

use resource_reqs::{Owner, Res};

/// Whether the first pair comes before the second: by first number, last number, owner, and sharing.
#[inline(always)]
pub fn comes_before(first: &(Owner, Res), second: &(Owner, Res)) -> bool
    ensures { result ≡ is_before first.now second.now }
{
    let a = &first.1;
    let b = &second.1;
    if a.lo != b.lo {
        return a.lo < b.lo;
    }
    if a.hi != b.hi {
        return a.hi < b.hi;
    }
    if first.0 != second.0 {
        return first.0 < second.0;
    }
    !a.shared && b.shared
}
