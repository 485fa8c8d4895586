ghost use Rattle.std.specs.Prelude.{◌≡◌, ◌++◌, [], ◌∷◌, List, map, slice_get, IsSome, IfOk, OnOk, OnErr};
ghost use Rattle.resource_reqs.specs.Resources.{Res};
ghost use Rattle.pnp_model.specs.Records.{Node};
ghost use Rattle.pnp_model.specs.Cores.{node_at, bare, with_holds};
ghost use Rattle.trial_journal.specs.ByKind.{lists_of};
ghost use Rattle.devnode_tree.specs.Trees.{changed, IsTree};
ghost use Rattle.device_holdings.specs.Giving.{given, with_part};
ghost use Rattle.device_holdings.specs.Mirrors.{Mirrors, IsMirrored, KeepsMirror, HasRoom};

use crate::pairs::{put_all, room_for, room_of, take_all};
use assign_search::Plan;
use devnode_tree::Tree;
use resource_reqs::{Owner, Res, ResList, WantOfMemory};
use std::alloc::Global;
use std::slice;
use trial_journal::Arbiters;

/// A device loses its drivers and its holdings and is `NoStack`, and the arbiters lose what it held: the end of the
/// request that removes its drivers (the driver kit, "IRP_MN_REMOVE_DEVICE"; that what it held is free from then on
/// is this project's own). Where no node has the serial, nothing changes. Condition: the arbiters hold just what is
/// reserved and what devices hold; this is kept. It takes no memory. Cost: the logarithm of the number of nodes,
/// and for each resource that it held the pairs of its kind.
pub fn release(tree: &mut Tree, arbiters: &mut Arbiters, serial: u64)
    requires { IsMirrored tree.old.nodes arbiters.old }
    ensures bare { tree.new ≡ changed serial bare tree.old }
    ensures mirrors { KeepsMirror tree.old.nodes arbiters.old tree.new.nodes arbiters.new }
{
    let held = tree.strip(serial);
    take_all(arbiters, Owner::Device(serial), &held);
}

/// A device gets these holdings in place of its own, in the tree and in the arbiters. Conditions: the device is
/// there, the arbiters hold just what is reserved and what devices hold, and there is room.
fn replace(tree: &mut Tree, arbiters: &mut Arbiters, serial: u64, holds: ResList)
    requires there { IsSome (node_at serial tree.old.nodes) }
    requires mirrored { IsMirrored tree.old.nodes arbiters.old }
    requires room { HasRoom arbiters.old (holds ∷ []) }
    ensures replaced { tree.new ≡ changed serial (with_holds holds) tree.old }
    ensures mirrors { KeepsMirror tree.old.nodes arbiters.old tree.new.nodes arbiters.new }
    ensures room { (more : List (List Res)) → HasRoom arbiters.old (holds ∷ more) → HasRoom arbiters.new more }
{
    put_all(arbiters, Owner::Device(serial), &holds);
    let old = tree.swap_holds(serial, holds);
    take_all(arbiters, Owner::Device(serial), &old);
}

/// A device gets these holdings in place of its own, in the tree and in the arbiters. Conditions: the device is
/// there, and the arbiters hold just what is reserved and what devices hold; this is kept. After want of memory tree
/// and arbiters are as before; more than 2^29 pairs of a kind are want of memory too. Cost: as `release`, for the
/// old and the new holdings.
pub fn assign(
    tree: &mut Tree,
    arbiters: &mut Arbiters,
    serial: u64,
    holds: ResList,
) -> Result<(), WantOfMemory>
    requires there { IsSome (node_at serial tree.old.nodes) }
    requires mirrored { IsMirrored tree.old.nodes arbiters.old }
    ensures assigned { OnOk result (tree.new ≡ changed serial (with_holds holds) tree.old) }
    ensures mirrors { KeepsMirror tree.old.nodes arbiters.old tree.new.nodes arbiters.new }
    ensures tree { OnErr result (tree.new ≡ tree.old) }
    ensures held { OnErr result (lists_of arbiters.new ≡ lists_of arbiters.old) }
{
    room_for(arbiters, slice::from_ref(&holds))?;
    replace(tree, arbiters, serial, holds);
    Ok(())
}

/// The parts of a plan once more.
fn parts_of(alloc: Global, plan: &Plan) -> Result<Vec<ResList>, WantOfMemory>
    ensures { IfOk result (λ parts. parts.items ≡ plan.now) }
{
    let mut parts = Vec::with_capacity(alloc, plan.len() as usize)?;
    'parts: for at in 0..plan.len() {
        parts.push(plan.get(at).copy(alloc)?)?;
    }
    Ok(parts)
}

/// A device that is there gets these holdings in place of its own, in the tree and in the arbiters; else nothing
/// changes. Conditions: the arbiters hold just what is reserved and what devices hold, and there is room.
#[tactic(auto, using(crate::proofs::Committing::not_given, crate::proofs::Committing::none_copied, crate::proofs::Committing::room_left))]
fn replace_where_there(tree: &mut Tree, arbiters: &mut Arbiters, serial: u64, holds: ResList)
    requires mirrored { IsMirrored tree.old.nodes arbiters.old }
    requires room { HasRoom arbiters.old (holds ∷ []) }
    ensures replaced { tree.new ≡ changed serial (with_holds holds) tree.old }
    ensures tree { IsTree tree.old }
    ensures mirrors { KeepsMirror tree.old.nodes arbiters.old tree.new.nodes arbiters.new }
    ensures room { (more : List (List Res)) → HasRoom arbiters.old (holds ∷ more) → HasRoom arbiters.new more }
{
    if tree.node(serial).is_some() {
        replace(tree, arbiters, serial, holds);
    }
}

/// The same for the device whose serial stands at a place of these. Nothing changes where there is no such place.
#[tactic(auto, using(crate::proofs::Committing::room_left))]
fn give(tree: &mut Tree, arbiters: &mut Arbiters, serials: &[u64], at: usize, holds: ResList)
    requires mirrored { IsMirrored tree.old.nodes arbiters.old }
    requires room { HasRoom arbiters.old (holds ∷ []) }
    ensures given { tree.new ≡ given (slice_get serials.now at) holds tree.old }
    ensures tree { IsSome (slice_get serials.now at) → IsTree tree.old }
    ensures mirrors { KeepsMirror tree.old.nodes arbiters.old tree.new.nodes arbiters.new }
    ensures room { (more : List (List Res)) → HasRoom arbiters.old (holds ∷ more) → HasRoom arbiters.new more }
{
    if let Some(serial) = serials.get(at) {
        replace_where_there(tree, arbiters, *serial, holds);
    }
}

/// Devices get the parts of a plan in place of what they hold, all at once, in the tree and in the arbiters: the
/// first device gets the first part. A device that is not there, or that has no part, changes nothing, and of a
/// serial that comes twice the first counts. Condition: the arbiters hold just what is reserved and what devices
/// hold; this is kept. All memory is taken first: after want of memory tree and arbiters are as before; more than
/// 2^29 pairs of a kind are want of memory too. Cost: as `release`, for all old and new holdings.
pub fn assign_all(
    alloc: Global,
    tree: &mut Tree,
    arbiters: &mut Arbiters,
    serials: &[u64],
    plan: &Plan,
) -> Result<(), WantOfMemory>
    requires { IsMirrored tree.old.nodes arbiters.old }
    ensures assigned { OnOk result (tree.new ≡ record tree.old { nodes = map (with_part serials.now plan.now) tree.old.nodes }) }
    ensures mirrors { KeepsMirror tree.old.nodes arbiters.old tree.new.nodes arbiters.new }
    ensures tree { OnErr result (tree.new ≡ tree.old) }
    ensures held { OnErr result (lists_of arbiters.new ≡ lists_of arbiters.old) }
{
    let mut parts = parts_of(alloc, plan)?;
    room_for(arbiters, &parts)?;
    'parts: while let Some(holds) = parts.pop() {
        give(tree, arbiters, serials, parts.len(), holds);
    }
    Ok(())
}

/// A range is reserved, in the list and in the arbiters. That it clashes with nothing is for the caller to see
/// (`is_in_use`). After want of memory list and arbiters are as before; more than 2^29 pairs of a kind are want of
/// memory too. Cost: the pairs of its kind.
pub fn reserve(
    reserved: &mut ResList,
    arbiters: &mut Arbiters,
    res: Res,
) -> Result<(), WantOfMemory>
    ensures reserved { OnOk result (reserved.new ≡ reserved.old ++ res ∷ []) }
    ensures mirrors { (nodes : List Node) → Mirrors reserved.old nodes arbiters.old → Mirrors reserved.new nodes arbiters.new }
    ensures list { OnErr result (reserved.new ≡ reserved.old) }
    ensures held { OnErr result (lists_of arbiters.new ≡ lists_of arbiters.old) }
{
    room_of(arbiters, res.kind, 1)?;
    reserved.push(res)?;
    arbiters.put(Owner::Reserved, res);
    Ok(())
}
