//! Whether what a device needs would fit beside some of what is held.
ghost use Rattle.std.specs.Prelude.{◌≡◌, ◌≤◌, ◌^◌, true, length};
ghost use Rattle.resource_reqs.specs.declared.kind.Kind.{Kind};
ghost use Rattle.trial_journal.specs.ByKind.{of_kind};

use assign_search::{Found, Mover, answer};
use device_ids::WantOfMemory;
use resource_reqs::{Kind, Owner, Reqs, Res, ResList};
use std::alloc::{AllocError, Global};
use trial_journal::Arbiters;

/// The most pairs of one kind that a search may meet.
const MOST: u64 = 536_870_912;

/// Whether a kind has few pairs.
fn has_few(board: &Arbiters, kind: Kind) -> bool
    ensures { result ≡ true → length (of_kind board.now kind).pairs ≤ 2 ^ 29 }
{
    board.held(kind, MOST).is_none()
}

/// Whether all kinds have few pairs.
fn is_small(board: &Arbiters) -> bool
    ensures { result ≡ true → (kind : Kind) → length (of_kind board.now kind).pairs ≤ 2 ^ 29 }
{
    has_few(board, Kind::Port)
        && has_few(board, Kind::Irq)
        && has_few(board, Kind::Mem)
        && has_few(board, Kind::Dma)
        && has_few(board, Kind::Bus)
}

/// Puts one resource on a board, for an owner.
fn put(board: &mut Arbiters, owner: Owner, res: Res) -> Result<(), WantOfMemory> {
    if !has_few(board, res.kind) {
        return Err(AllocError);
    }
    board.room(res.kind, 1)?;
    board.put(owner, res);
    Ok(())
}

/// Puts resources on a board, for an owner; beyond 2^29 of a kind it is want of memory. Cost: as `put` of the arbiters. This project's own.
pub fn put_all(board: &mut Arbiters, owner: Owner, held: &ResList) -> Result<(), WantOfMemory> {
    for at in 0..held.len() {
        put(board, owner, *held.get(at))?;
    }
    Ok(())
}

/// Whether a search found that all fits, if it tells.
fn verdict_of(found: &Found) -> Option<bool> {
    match found {
        Found::Assignment(_) => Some(true),
        Found::NoFit => Some(false),
        Found::Spent => None,
    }
}

/// Whether a device would get what it needs beside what is on a board; none, where the search was not over after so many places, of which
/// 1,000,000 are the most. Cost: that of the search. This project's own.
pub fn fits(
    alloc: Global,
    board: &mut Arbiters,
    serial: u64,
    reqs: &Reqs,
    budget: u64,
) -> Result<Option<bool>, WantOfMemory> {
    if !is_small(board) {
        return Ok(None);
    }
    let mut movers = Vec::new(alloc);
    movers.push(Mover { serial, reqs })?;
    let found = answer(alloc, board, &movers, budget.min(1_000_000))?;
    Ok(verdict_of(&found))
}
