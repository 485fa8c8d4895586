ghost use Rattle.std.specs.Prelude.{◌≡◌, ◌↔◌, ◌<◌, ◌++◌, [], ◌∷◌, ℕ, OnOk, OnErr, IfSome, IsTrue, true, false, get_or, length, slice_set};
ghost use Rattle.resource_reqs.specs.Resources.{Res, Clash};
ghost use Rattle.assign_search.specs.Watching.{IsHit, IsRangeOf};

use crate::place_list::PlaceList;
use resource_reqs::{Res, ResList, WantOfMemory, clash};
use std::alloc::Global;
use std::marker::Model;

/// The places by which movers are watched, and ranges that reach over all of them: most often one for each kind. What
/// hits none of the ranges hits no place. A contract sees the list of places of each mover.
#[derive(Drop)]
pub struct Places {
    of: Vec<PlaceList>,
    over: Vec<Res>,
}

impl Model for Places {
    ghost use Rattle.std.specs.Prelude.{List};
    ghost use Rattle.resource_reqs.specs.Resources.{Res};
    ghost use Rattle.assign_search.specs.Watching.{AreCovered};

    ghost Value = { List (List Res) };

    ghost view = { λ p. p.of.items };

    ghost invariant = { λ p. AreCovered p.over.items p.of.items };
}

/// A range over both resources.
fn widened(range: &Res, res: &Res) -> Res
    requires kind { range.now.kind ≡ res.now.kind }
    requires shared { range.now.shared ≡ res.now.shared }
    ensures range { (x : Res) → Clash range.now x → Clash result x }
    ensures res { (x : Res) → Clash res.now x → Clash result x }
{
    Res {
        kind: range.kind,
        lo: range.lo.min(res.lo),
        hi: range.hi.max(res.hi),
        shared: range.shared,
    }
}

/// Whether two resources have one kind and are both shared or both not.
fn is_of_sort(range: &Res, res: &Res) -> bool
    ensures { result ≡ true → (range.now.kind ≡ res.now.kind) × (range.now.shared ≡ res.now.shared) }
{
    range.kind == res.kind && range.shared == res.shared
}

/// The first range of the kind and sharing of a resource.
fn range_of(over: &[Res], res: &Res) -> Option<usize>
    ensures { IfSome result (λ at. IsRangeOf over.now at res.now) }
{
    'ranges: for at in 0..over.len() {
        if is_of_sort(&over[at], res) {
            return Some(at);
        }
    }
    None
}

/// A range is widened over the resource too.
fn widen(over: &mut [Res], at: usize, res: &Res)
    requires { IsRangeOf over.old at res.now }
    ensures wider { (x : Res) → IsHit over.old x → IsHit over.new x }
    ensures covered { (x : Res) → Clash res.now x → IsHit over.new x }
{
    over[at] = widened(&over[at], res);
}

/// Widens one of the ranges, or adds one, so that they reach over the resource too.
fn cover(over: &mut Vec<Res>, res: &Res) -> Result<(), WantOfMemory>
    ensures wider { (x : Res) → IsHit over.old.items x → IsHit over.new.items x }
    ensures covered { OnOk result ((x : Res) → Clash res.now x → IsHit over.new.items x) }
{
    match range_of(over, res) {
        Some(at) => {
            widen(over, at, res);
            Ok(())
        }
        None => {
            over.push(*res)?;
            Ok(())
        }
    }
}

/// The same for each resource of a list.
fn cover_each(over: &mut Vec<Res>, places: &ResList) -> Result<(), WantOfMemory>
    ensures wider { (x : Res) → IsHit over.old.items x → IsHit over.new.items x }
    ensures covered { OnOk result ((x : Res) → IsHit places.now x → IsHit over.new.items x) }
{
    'places: for at in 0..places.len() {
        cover(over, places.get(at))?;
    }
    Ok(())
}

/// The same for each place of a mover.
fn cover_all(over: &mut Vec<Res>, places: &PlaceList) -> Result<(), WantOfMemory>
    ensures wider { (x : Res) → IsHit over.old.items x → IsHit over.new.items x }
    ensures covered { OnOk result ((x : Res) → IsHit places.now x → IsHit over.new.items x) }
{
    match &places.first {
        None => Ok(()),
        Some(place) => {
            cover(over, place)?;
            cover_each(over, &places.rest)
        }
    }
}

/// Whether one of the ranges clashes with the resource.
fn is_any_hit(over: &[Res], res: &Res) -> bool
    ensures { IsTrue result ↔ IsHit over.now res.now }
{
    'hits: for at in 0..over.len() {
        if clash(&over[at], res) {
            return true;
        }
    }
    false
}

impl Places {
    /// Of no mover. It takes no memory.
    pub fn new(alloc: Global) -> Places
        ensures { result ≡ [] }
    {
        Places {
            of: Vec::new(alloc),
            over: Vec::new(alloc),
        }
    }

    /// One mover more, without places.
    pub fn add(&mut self, alloc: Global) -> Result<(), WantOfMemory>
        ensures added { OnOk result (self.new ≡ self.old ++ [] ∷ []) }
        ensures err { OnErr result (self.new ≡ self.old) }
    {
        self.of.push(PlaceList::new(alloc))?;
        Ok(())
    }

    /// The places of a mover.
    pub fn get(&self, at: usize) -> &PlaceList
        requires { at < length self.now }
        ensures { result.now ≡ get_or self.now at [] }
    {
        &self.of[at]
    }

    /// A mover gets other places.
    pub fn set(&mut self, at: usize, places: PlaceList) -> Result<(), WantOfMemory>
        requires { at < length self.old }
        ensures set { OnOk result (self.new ≡ slice_set self.old at places) }
        ensures err { OnErr result (self.new ≡ self.old) }
    {
        cover_all(&mut self.over, &places)?;
        self.of[at] = places;
        Ok(())
    }

    /// Whether the resource hits one of the ranges; where it does not, it hits no place.
    pub fn may_be_hit(&self, res: &Res) -> bool
        ensures { result ≡ false → (at : ℕ) → IsHit (get_or self.now at []) res.now → ⊥ }
    {
        is_any_hit(&self.over, res)
    }
}
