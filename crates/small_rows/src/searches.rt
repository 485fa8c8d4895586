//! What a search answers, and after how many tries.
use assign_search::{Found, Mover, Plan, answer};
use resource_reqs::{AltList, Group, Kind, Reqs, Want};
use std::alloc::{AllocError, Global};
use std::test::Fail;
use trial_journal::Arbiters;

/// One interrupt of a range.
fn interrupt(alloc: Global, min: u64, max: u64) -> Result<Group, Fail> {
    let mut group = Group::new(alloc);
    group.push(Want::make(Kind::Irq, min, max, 1, 1, false)?)?;
    Ok(group)
}

/// The need of an interrupt of each range.
fn reqs(alloc: Global, ranges: &[(u64, u64)]) -> Result<Reqs, Fail> {
    let mut list = AltList::new(alloc);
    for (min, max) in ranges {
        list.push(interrupt(alloc, *min, *max)?)?;
    }
    let mut reqs = Reqs::new(alloc);
    reqs.push(list)?;
    Ok(reqs)
}

/// The answer for movers, where nothing is held.
fn found_for(alloc: Global, movers: &[Mover<'_>], budget: u64) -> Result<Found, Fail> {
    if budget > 1_000_000 {
        return Err(Fail::new("the budget"));
    }
    let mut arbiters = Arbiters::new(alloc)?;
    Ok(answer(alloc, &mut arbiters, movers, budget)?)
}

/// The answer for movers of these needs, where nothing is held.
fn answered(alloc: Global, needs: &[&[(u64, u64)]], budget: u64) -> Result<Found, Fail> {
    let mut all = Vec::new(alloc);
    for ranges in needs {
        all.push(reqs(alloc, ranges)?)?;
    }
    let mut movers = Vec::new(alloc);
    for reqs in &all {
        let serial = movers.len() as u64;
        movers.push(Mover { serial, reqs })?;
    }
    found_for(alloc, &movers, budget)
}

/// The first numbers of a plan, mover by mover.
fn numbers(alloc: Global, plan: &Plan) -> Result<Vec<u64>, AllocError> {
    let mut numbers = Vec::new(alloc);
    for mover in 0..plan.len() {
        let part = plan.get(mover);
        for at in 0..part.len() {
            numbers.push(part.get(at).lo)?;
        }
    }
    Ok(numbers)
}

/// So many tries are not enough.
fn spends(alloc: Global, needs: &[&[(u64, u64)]], budget: u64) -> Result<(), Fail> {
    match answered(alloc, needs, budget)? {
        Found::Spent => Ok(()),
        _ => Err(Fail::new("a search that ended")),
    }
}

/// Within so many tries interrupt 6 is found, and then 5.
fn finds(alloc: Global, needs: &[&[(u64, u64)]], budget: u64) -> Result<(), Fail> {
    let Found::Assignment(plan) = answered(alloc, needs, budget)? else {
        return Err(Fail::new("no assignment"));
    };
    match numbers(alloc, &plan)?.as_slice() {
        [6, 5] => Ok(()),
        _ => Err(Fail::new("other interrupts")),
    }
}

/// So many tries are not enough, and with one more interrupt 6 is found, and then 5.
fn finds_behind(alloc: Global, needs: &[&[(u64, u64)]], tries: u32) -> Result<(), Fail> {
    spends(alloc, needs, tries as u64)?;
    finds(alloc, needs, tries as u64 + 1)
}

/// So many tries are not enough, and with one more it is seen that there is no assignment.
fn fits_not(alloc: Global, needs: &[&[(u64, u64)]], tries: u32) -> Result<(), Fail> {
    spends(alloc, needs, tries as u64)?;
    match answered(alloc, needs, tries as u64 + 1)? {
        Found::NoFit => Ok(()),
        _ => Err(Fail::new("three devices for two interrupts")),
    }
}

/// One device that needs an interrupt of two and then one of them.
const ONE: &[&[(u64, u64)]] = &[&[(5, 6), (5, 5)]];

/// Two devices, of which the second needs one of the first one's two.
const TWO: &[&[(u64, u64)]] = &[&[(5, 6)], &[(5, 5)]];

/// Three devices for two interrupts.
const THREE: &[&[(u64, u64)]] = &[&[(5, 6)], &[(5, 6)], &[(5, 6)]];

#[test]
fn tries_are_counted(rt: HostRuntime) -> Result<(), Fail> {
    finds_behind(rt.alloc(), ONE, 3)?;
    finds_behind(rt.alloc(), TWO, 4)?;
    fits_not(rt.alloc(), THREE, 6)
}
