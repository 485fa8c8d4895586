ghost use Rattle.std.specs.Prelude.{◌≡◌, ◌≤◌, ◌++◌, [], List, map, IfOk, IsTrue, option_copied};
ghost use Rattle.std.specs.List.{list_any};
ghost use Rattle.resource_reqs.specs.Resources.{Res, clashes};
ghost use Rattle.pnp_model.specs.Cores.{node_at};
ghost use Rattle.pnp_model.specs.Records.{Node};
ghost use Rattle.pnp_model.specs.Frames.{held_by};
ghost use Rattle.pnp_model.specs.Rebalances.{reqs_of, reqs_or};
ghost use Rattle.trial_journal.specs.ByKind.{lists_of};
ghost use Rattle.assign_search.specs.Fixed as Fixed;
ghost use Rattle.device_holdings.specs.Mirrors.{AreFew, Mirrors, IsMirrored};
ghost use Rattle.device_holdings.specs.Answers.{asked_for, Answers, AnswersTo};
ghost use Rattle.device_holdings.specs.Idle.{IsIdle, AreIdle};

use assign_search::{Found, Mover, answer, answer_beside};
use devnode_tree::Tree;
use resource_reqs::{Reqs, Res, WantOfMemory};
use std::alloc::Global;
use trial_journal::Arbiters;

/// What a device asks for: this, where it is given, else what it needs, and nothing where no node has the serial.
fn needs_at<'a>(tree: &'a Tree, nothing: &'a Reqs, serial: u64, given: Option<&'a Reqs>) -> &'a Reqs
    requires { nothing.now ≡ [] }
    ensures { result.now ≡ reqs_or (option_copied given.entry) (reqs_of (node_at serial tree.now.nodes)) }
{
    if let Some(reqs) = given {
        return reqs;
    }
    match tree.node(serial) {
        Some(node) => &node.reqs,
        None => nothing,
    }
}

/// The devices of these serials as movers. The first one asks for this, where it is given.
fn movers_of<'a>(
    alloc: Global,
    tree: &'a Tree,
    nothing: &'a Reqs,
    first: Option<&'a Reqs>,
    serials: &[u64],
) -> Result<Vec<Mover<'a>>, WantOfMemory>
    requires { nothing.now ≡ [] }
    ensures serials { IfOk result (λ movers. map Fixed.serial_of movers.items ≡ serials.now) }
    ensures needs { IfOk result (λ movers. map Fixed.reqs_of movers.items ≡ asked_for (option_copied first.entry) tree.now.nodes serials.now) }
{
    let mut movers = Vec::new(alloc);
    let mut given = first;
    'serials: for serial in serials {
        movers.push(Mover {
            serial: *serial,
            reqs: needs_at(tree, nothing, *serial, given),
        })?;
        given = None;
    }
    Ok(movers)
}

/// Whether a device holds nothing, or is not there.
fn is_idle(tree: &Tree, serial: u64) -> bool
    ensures { IsTrue result → IsIdle serial tree.now.nodes }
{
    match tree.node(serial) {
        Some(node) => node.holds.len() == 0,
        None => true,
    }
}

/// Whether none of the devices of these serials holds anything. Cost: one look-up for each.
fn are_idle(tree: &Tree, serials: &[u64]) -> bool
    ensures { IsTrue result → AreIdle serials.now tree.now.nodes }
{
    'serials: for serial in serials {
        if !is_idle(tree, *serial) {
            return false;
        }
    }
    true
}

/// The search for the devices of these serials, beside all that others hold and what is reserved: each mover asks
/// for one whole list of what its device needs, but the first one for this in its place, where it is given, as a device
/// does that is to need something else; and the budget is the most prefixes that may be tried (this project's own; the
/// kernel's arbiters search likewise, the driver kit, "Arbiter Interface"). Conditions: the arbiters hold just what is
/// reserved and what devices hold, and the budget is at most 1,000,000. The arbiters hold the same whatever is answered.
/// Cost: where the tree says that none of the devices holds anything, as at the start of a device, that of
/// `assign_search::answer_beside`; else that of `assign_search::answer`.
pub fn search_for(
    alloc: Global,
    tree: &Tree,
    arbiters: &mut Arbiters,
    first: Option<&Reqs>,
    serials: &[u64],
    budget: u64,
) -> Result<Found, WantOfMemory>
    requires mirrored { IsMirrored tree.now.nodes arbiters.old }
    requires budget { budget ≤ 1000000 }
    ensures answers { IfOk result (λ found. AnswersTo (asked_for (option_copied first.entry) tree.now.nodes serials.now) tree.now.nodes arbiters.old serials.now budget found) }
    ensures same { lists_of arbiters.new ≡ lists_of arbiters.old }
{
    let nothing = Reqs::new(alloc);
    let movers = movers_of(alloc, tree, &nothing, first, serials)?;
    if are_idle(tree, serials) {
        return answer_beside(alloc, arbiters, &movers, budget);
    }
    answer(alloc, arbiters, &movers, budget)
}

/// `search_for` where each mover asks for what its device needs.
pub fn search(
    alloc: Global,
    tree: &Tree,
    arbiters: &mut Arbiters,
    serials: &[u64],
    budget: u64,
) -> Result<Found, WantOfMemory>
    requires mirrored { IsMirrored tree.now.nodes arbiters.old }
    requires budget { budget ≤ 1000000 }
    ensures answers { IfOk result (λ found. Answers tree.now.nodes arbiters.old serials.now budget found) }
    ensures same { lists_of arbiters.new ≡ lists_of arbiters.old }
{
    search_for(alloc, tree, arbiters, None, serials, budget)
}

/// Whether a range clashes with what is reserved or with what a device holds. Condition: few pairs are held. It takes
/// no memory. Cost: that of `Arbiters::clashes`.
pub fn is_in_use(arbiters: &Arbiters, res: &Res) -> bool
    requires { AreFew (lists_of arbiters.now) }
    ensures { (reserved : List Res) (nodes : List Node) → Mirrors reserved nodes arbiters.now → result ≡ list_any (clashes res.now) (reserved ++ held_by nodes) }
{
    arbiters.clashes(res)
}
