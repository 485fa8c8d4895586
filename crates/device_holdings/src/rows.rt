ghost use Rattle.std.specs.Prelude.{◌≡◌, ◌≤◌, map, IfOk};
ghost use Rattle.std.specs.List.{AllByRecursion};
ghost use Rattle.pnp_model.specs.Records.{Core};
ghost use Rattle.pnp_model.specs.Endings as Endings;
ghost use Rattle.trial_journal.specs.ByKind.{all_pairs};
ghost use Rattle.device_holdings.specs.Mirrors.{Mirrors};
ghost use Rattle.device_holdings.specs.MapRows.{row_of, IsOrderly};

use resource_reqs::{Owner, Res, WantOfMemory};
use std::alloc::Global;
use trial_journal::Arbiters;

/// Tells the prover, by reading a resource, that its ends are in order.
fn has_ends_in_order(res: &Res)
    ensures { res.now.lo ≤ res.now.hi }
{
    let _ = &res.lo;
}

/// Tells it of each of these.
fn have_ends_in_order(rows: &[(Owner, Res)])
    ensures { AllByRecursion (λ p. p.1.lo ≤ p.1.hi) rows.now }
{
    'rows: for row in rows {
        has_ends_in_order(&row.1);
    }
}

/// What is reserved and what devices hold, with the owner of each, in the order of the printed map: by kind, first
/// number, last number and owner. Cost: the number of pairs; nothing is sorted.
pub fn map_rows(alloc: Global, arbiters: &Arbiters) -> Result<Vec<(Owner, Res)>, WantOfMemory>
    ensures pairs { IfOk result (λ rows. rows.items ≡ all_pairs arbiters.now) }
    ensures rows { IfOk result (λ rows. (c : Core) → Mirrors c.reserved c.nodes arbiters.now → IsOrderly c → map (row_of c.nodes) rows.items ≡ Endings.map_rows c) }
{
    let rows = arbiters.pairs(alloc)?;
    have_ends_in_order(&rows);
    Ok(rows)
}
