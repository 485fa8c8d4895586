ghost use Rattle.std.specs.Prelude.{◌≡◌, ◌↔◌, ◌≤◌, ◌<◌, ◌+◌, ◌-◌, ℕ, IsTrue, IfOk, OnOk, IfSome, IfNone, List, [], true, drop, get_or, map, length};
ghost use Rattle.std.specs.List.{AllByRecursion};
ghost use Rattle.resource_reqs.specs.Resources.{Res};
ghost use Rattle.assign_search.specs.Fixed.{reqs_of};
ghost use Rattle.assign_search.specs.Walking.{AllOpen, HasOpenList, Adds, held_in};
ghost use Rattle.assign_search.specs.Watching.{WatchesList, Watches, AllWatched, Within};

use crate::look::late_place;
use crate::mover::{Mover, reqs_at};
use crate::place_list::PlaceList;
use crate::places::Places;
use resource_reqs::{AltList, Reqs, Res, WantOfMemory};
use std::alloc::Global;
use trial_journal::Arbiters;

/// What is remembered of later movers: for each mover from `sure` on places, one for each group of a list of
/// it. While nothing that clashes with one of them comes to what is held, the mover has a list that is open.
#[derive(Drop)]
pub struct Watch {
    /// The first mover from which on the places are right.
    pub sure: usize,
    /// The places of each mover.
    pub places: Places,
}

/// Nothing remembered yet of so many movers.
pub fn no_watch(alloc: Global, movers: &[Mover]) -> Result<Watch, WantOfMemory>
    ensures long { IfOk result (λ watch. length watch.places ≡ length movers.now) }
    ensures sure { IfOk result (λ watch. watch.sure ≡ length movers.now) }
{
    let mut places = Places::new(alloc);
    'movers: for _mover in movers {
        places.add(alloc)?;
    }
    Ok(Watch {
        sure: movers.len(),
        places,
    })
}

/// A place for each group of the list, none exactly where some group has no open place.
fn list_places(
    alloc: Global,
    board: &Arbiters,
    list: &AltList,
) -> Result<Option<PlaceList>, WantOfMemory>
    ensures watched { IfOk result (λ o. IfSome o (λ places. WatchesList (held_in board.now) list.now places)) }
    ensures none { IfOk result (λ o. IfNone o (¬ AllOpen (held_in board.now) list.now)) }
{
    let mut places = PlaceList::new(alloc);
    'groups: for at in 0..list.len() {
        let Some(res) = late_place(board, list.get(at)) else {
            return Ok(None);
        };
        places.push(res)?;
    }
    Ok(Some(places))
}

/// Places by which the mover is watched, none exactly where it has lists and none of them is open.
fn mover_places(
    alloc: Global,
    board: &Arbiters,
    reqs: &Reqs,
) -> Result<Option<PlaceList>, WantOfMemory>
    ensures watched { IfOk result (λ o. IfSome o (λ places. Watches (held_in board.now) reqs.now places)) }
    ensures none { IfOk result (λ o. IfNone o (¬ HasOpenList (held_in board.now) reqs.now)) }
{
    if reqs.len() == 0 {
        return Ok(Some(PlaceList::new(alloc)));
    }
    'lists: for at in 0..reqs.len() {
        let found = list_places(alloc, board, reqs.get(at))?;
        if found.is_some() {
            return Ok(found);
        }
    }
    Ok(None)
}

/// Whether the mover has one list alone, of which it is remembered that each of its groups has an open place.
pub fn is_known_open(movers: &[Mover], mover: usize, watch: &Watch) -> bool
    requires { mover < length movers.now }
    ensures { result ≡ true → (held : List Res) (list : ℕ) → AllWatched held (map reqs_of movers.now) watch.now.sure watch.now.places
        → list < length (get_or (map reqs_of movers.now) mover []) → AllOpen held (get_or (get_or (map reqs_of movers.now) mover []) list []) }
{
    if mover < watch.sure {
        return false;
    }
    reqs_at(movers, mover).len() == 1
}

/// Whether each mover from this one on has no lists, or one whose every group has an open place, beside a
/// resource that came to what was held. A mover whose places it does not hit is not looked at again, and no mover
/// where it hits none of the ranges over all places; for the others new places are sought.
pub fn lists_beside(
    alloc: Global,
    board: &Arbiters,
    movers: &[Mover],
    from: usize,
    res: &Res,
    watch: &mut Watch,
) -> Result<bool, WantOfMemory>
    requires { length watch.old.places ≡ length movers.now }
    ensures long { length watch.new.places ≡ length movers.now }
    ensures live { (before : List Res) → Adds before res.now (held_in board.now) → AllWatched before (map reqs_of movers.now) watch.old.sure watch.old.places
        → AllByRecursion (HasOpenList before) (drop from (map reqs_of movers.now))
        → IfOk result (λ live. IsTrue live ↔ AllByRecursion (HasOpenList (held_in board.now)) (drop from (map reqs_of movers.now))) }
    ensures watched { (before : List Res) → Adds before res.now (held_in board.now) → AllWatched before (map reqs_of movers.now) watch.old.sure watch.old.places
        → IfOk result (λ live. IsTrue live → AllWatched (held_in board.now) (map reqs_of movers.now) watch.new.sure watch.new.places) }
    ensures kept { (before : List Res) → Within before (held_in board.now) → AllWatched before (map reqs_of movers.now) watch.old.sure watch.old.places
        → IfOk result (λ live. (IsTrue live → ⊥) → AllWatched before (map reqs_of movers.now) watch.new.sure watch.new.places) }
{
    if watch.sure <= from && !watch.places.may_be_hit(res) {
        return Ok(true);
    }
    'movers: for at in from..movers.len() {
        if at < watch.sure || watch.places.get(at).is_hit(res) {
            let Some(places) = mover_places(alloc, board, reqs_at(movers, at))? else {
                return Ok(false);
            };
            watch.places.set(at, places)?;
        }
    }
    watch.sure = from;
    Ok(true)
}
