ghost use Rattle.std.specs.Prelude.{◌≡◌, ◌≤◌, ◌+◌, ◌++◌, ◌^◌, List, length, min, sum_by, if◌then◌else◌, OnOk};
ghost use Rattle.resource_reqs.specs.declared.kind.Kind.{Kind};
ghost use Rattle.resource_reqs.specs.Resources.{same_kind};
ghost use Rattle.range_arbiter.specs.Pairs.{Pair};
ghost use Rattle.trial_journal.specs.ByKind.{of_kind, lists_of};
ghost use Rattle.device_holdings.specs.Mirrors.{pairs_of, lists_with, count_of, AreFew, HasRoom};

use resource_reqs::{Kind, Owner, Res, ResList, WantOfMemory};
use std::alloc::AllocError;
use trial_journal::Arbiters;

/// The most pairs of one kind that the arbiters are to hold: this project's own.
const MOST: u64 = 536870912;

/// Takes memory for so many more pairs of a kind. Past the most pairs of a kind it is refused as memory is.
pub fn room_of(arbiters: &mut Arbiters, kind: Kind, more: u64) -> Result<(), WantOfMemory>
    ensures room { OnOk result (more ≤ (of_kind arbiters.new kind).spare) }
    ensures few { OnOk result (length (of_kind (lists_of arbiters.old) kind) + more ≤ 2 ^ 29) }
    ensures grows { (j : Kind) → (of_kind arbiters.old j).spare ≤ (of_kind arbiters.new j).spare }
    ensures same { lists_of arbiters.new ≡ lists_of arbiters.old }
{
    if MOST < more || arbiters.held(kind, MOST - more).is_some() {
        return Err(AllocError);
    }
    arbiters.room(kind, more as u32)
}

/// 1 for a resource of the kind, else 0.
fn one_of(res: &Res, kind: Kind) -> u64
    ensures one { result ≡ (if same_kind kind res.now.kind then 1 else 0) }
    ensures few { result ≤ 1 }
{
    if kind == res.kind { 1 } else { 0 }
}

/// How many of these are of the kind. Cost: their number.
fn count_in(held: &ResList, kind: Kind) -> u64
    ensures { result ≡ count_of kind held.now }
{
    let mut count = 0;
    'held: for at in 0..held.len() {
        count += one_of(held.get(at), kind);
    }
    count
}

/// The same for all parts together, or the greatest number.
fn count_in_all(parts: &[ResList], kind: Kind) -> u64
    ensures { result ≡ min (sum_by (count_of kind) parts.now) u64.MAX }
{
    let mut all = 0u64;
    'parts: for part in parts {
        all = all.saturating_add(count_in(part, kind));
    }
    all
}

/// Takes memory for what these parts have of the kind, and none where they have nothing of it.
fn room_in(arbiters: &mut Arbiters, kind: Kind, parts: &[ResList]) -> Result<(), WantOfMemory>
    requires { AreFew (lists_of arbiters.old) }
    ensures room { OnOk result (sum_by (count_of kind) parts.now ≤ (of_kind arbiters.new kind).spare) }
    ensures few { OnOk result (length (of_kind (lists_of arbiters.old) kind) + sum_by (count_of kind) parts.now ≤ 2 ^ 29) }
    ensures grows { (j : Kind) → (of_kind arbiters.old j).spare ≤ (of_kind arbiters.new j).spare }
    ensures same { lists_of arbiters.new ≡ lists_of arbiters.old }
{
    let more = count_in_all(parts, kind);
    if more == 0 {
        return Ok(());
    }
    room_of(arbiters, kind, more)
}

/// Takes memory for all that these parts have of each kind. Past the most pairs of a kind it is refused as memory is.
/// Condition: few pairs are held. Cost: that of the memory, and the number of resources.
pub fn room_for(arbiters: &mut Arbiters, parts: &[ResList]) -> Result<(), WantOfMemory>
    requires { AreFew (lists_of arbiters.old) }
    ensures room { OnOk result (HasRoom arbiters.new parts.now) }
    ensures same { lists_of arbiters.new ≡ lists_of arbiters.old }
{
    room_in(arbiters, Kind::Port, parts)?;
    room_in(arbiters, Kind::Irq, parts)?;
    room_in(arbiters, Kind::Mem, parts)?;
    room_in(arbiters, Kind::Dma, parts)?;
    room_in(arbiters, Kind::Bus, parts)
}

/// Puts in what an owner gets.
pub fn put_all(arbiters: &mut Arbiters, owner: Owner, held: &ResList)
    requires { (kind : Kind) → count_of kind held.now ≤ (of_kind arbiters.old kind).spare }
    ensures put { (rest : List Pair) → lists_of arbiters.old ≡ lists_with rest → lists_of arbiters.new ≡ lists_with (pairs_of owner held.now ++ rest) }
    ensures spare { (kind : Kind) → (of_kind arbiters.old kind).spare ≤ (of_kind arbiters.new kind).spare + count_of kind held.now }
{
    'held: for at in 0..held.len() {
        arbiters.put(owner, *held.get(at));
    }
}

/// Takes away what an owner held.
pub fn take_all(arbiters: &mut Arbiters, owner: Owner, held: &ResList)
    requires { (rest : List Pair) × (lists_of arbiters.old ≡ lists_with (pairs_of owner held.now ++ rest)) }
    ensures taken { (rest : List Pair) → lists_of arbiters.old ≡ lists_with (pairs_of owner held.now ++ rest) → lists_of arbiters.new ≡ lists_with rest }
    ensures spare { (kind : Kind) → (of_kind arbiters.old kind).spare ≤ (of_kind arbiters.new kind).spare }
{
    'held: for at in 0..held.len() {
        arbiters.take(owner, *held.get(at));
    }
}
