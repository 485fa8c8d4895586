ghost use Rattle.std.specs.Prelude.{◌≡◌, [], ◌++◌, ◌<◌, ℕ, IfNone, option_to_list};
ghost use Rattle.std.specs.BTreeMap.{keys};
ghost use Rattle.pnp_model.specs.Tests.{has};

use std::collections::BTreeMap;
use std::collections::btree_map::Keys;
use std::iter::DoubleEndedIterator;
use std::marker::Model;

/// The devices with an open handle, passed from the greatest serial down as they are asked for. A contract sees the serials
/// that are still ahead, in order.
#[derive(Drop)]
pub struct HandleWalk<'a> {
    rest: Keys<'a, u64, u64>,
    /// The greatest serial ahead, which was taken off the rest.
    head: Option<u64>,
}

impl<'a> Model for HandleWalk<'a> {
    ghost use Rattle.std.specs.Prelude.{ℕ, List};
    ghost use Rattle.devnode_tree.specs.Walks.{ahead, IsAhead};

    ghost Value = { List ℕ };

    ghost view = { λ w. ahead w.rest w.head };

    ghost invariant = { λ w. IsAhead w.rest w.head };
}

/// The last serial of the rest, which loses it; none exactly where there is none.
fn take_last(rest: &mut Keys<'_, u64, u64>) -> Option<u64>
    ensures last { rest.old ≡ rest.new ++ option_to_list result }
    ensures none { IfNone result (rest.new ≡ []) }
{
    rest.next_back().copied()
}

impl<'a> HandleWalk<'a> {
    /// All devices are ahead. Cost: the logarithm of their number.
    pub(crate) fn over(counts: &'a BTreeMap<u64, u64>) -> HandleWalk<'a>
        ensures { result ≡ keys counts.now }
    {
        let mut rest = counts.keys();
        let head = take_last(&mut rest);
        HandleWalk { rest, head }
    }

    /// Whether a handle to a device is open, where its serial is not passed; those of greater serials are passed then, and all
    /// below stay ahead. It takes no memory. Cost: constant, for each that is passed.
    pub fn is_open(&mut self, serial: u64) -> bool
        ensures open { result ≡ has self.old serial }
        ensures below { (k : ℕ) → k < serial → has self.new k ≡ has self.old k }
    {
        'down: while let Some(head) = self.head {
            if head <= serial {
                return head == serial;
            }
            self.head = take_last(&mut self.rest);
        }
        false
    }
}
