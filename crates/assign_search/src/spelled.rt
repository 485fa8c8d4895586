ghost use Rattle.std.specs.Prelude.{◌≡◌, ◌≤◌, ◌∷◌, List, drop, length, map, IfOk};
ghost use Rattle.resource_reqs.specs.Resources.{Want};
ghost use Rattle.assign_search.specs.Fixed.{reqs_of};
ghost use Rattle.assign_search.specs.Walking.{places_of, rest_of, plan_in};

use crate::mover::{Mover, reqs_at};
use crate::plan::Plan;
use crate::spots::Frame;
use resource_reqs::{Reqs, ResList, WantOfMemory};
use std::alloc::Global;

/// What a mover gets from the frames of a path, and where the next mover's frames begin.
#[derive(Drop)]
struct Part {
    holds: ResList,
    at: usize,
}

/// What the frames from this one on placed, up to one that placed nothing.
fn places_from(alloc: Global, path: &[Frame], from: usize) -> Result<Part, WantOfMemory>
    requires { from ≤ length path.now }
    ensures holds { IfOk result (λ part. part.holds ≡ places_of (drop from path.now)) }
    ensures rest { IfOk result (λ part. drop part.at path.now ≡ rest_of (drop from path.now)) }
    ensures within { IfOk result (λ part. part.at ≤ length path.now) }
{
    let mut holds = ResList::new(alloc);
    let mut at = from;
    'frames: while at < path.len() {
        let Some(res) = path[at].res else {
            return Ok(Part { holds, at });
        };
        holds.push(res)?;
        at += 1;
    }
    Ok(Part { holds, at })
}

/// The part of the plan for one mover.
fn part_of(alloc: Global, reqs: &Reqs, path: &[Frame], at: usize) -> Result<Part, WantOfMemory>
    requires { at ≤ length path.now }
    ensures part { IfOk result (λ part. (ms : List (List (List (List Want)))) → plan_in (reqs.now ∷ ms) (drop at path.now) ≡ part.holds ∷ plan_in ms (drop part.at path.now)) }
    ensures within { IfOk result (λ part. part.at ≤ length path.now) }
{
    if reqs.len() == 0 || at == path.len() {
        let holds = ResList::new(alloc);
        return Ok(Part { holds, at });
    }
    places_from(alloc, path, at + 1)
}

/// The resources of each mover, along the frames of a path.
pub fn plan_of(alloc: Global, movers: &[Mover], path: &[Frame]) -> Result<Plan, WantOfMemory>
    ensures { IfOk result (λ plan. plan ≡ plan_in (map reqs_of movers.now) path.now) }
{
    let mut plan = Plan::new(alloc);
    let mut at = 0;
    'movers: for mover in 0..movers.len() {
        let part = part_of(alloc, reqs_at(movers, mover), path, at)?;
        plan.push(part.holds)?;
        at = part.at;
    }
    Ok(plan)
}
