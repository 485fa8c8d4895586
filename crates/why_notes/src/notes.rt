//! Which note stands behind which label.
use crate::budgets::tell_enough;
use crate::clients::{on_completed_violation, on_declined, on_violation, on_waits};
use crate::holdings::{holdings, on_commit};
use crate::problems::{on_disabled, on_failed_add, tell_meaning};
use crate::refusals::{
    keep_asked, on_failed_start, on_handles, on_veto, tell_agreed, tell_stayers,
};
use crate::relations::on_held;
use crate::skips::on_skip;
use device_ids::{Text, WantOfMemory};
use devnode_tree::{Node, Tree};
use pnp_labels::{Deed, Label, OpEnd, OpKind, Problem, Shown};
use resource_reqs::Reqs;
use std::alloc::Global;
use why_facts::{
    AskedDriver, Facts, FailedAdd, InTheWay, Joined, Lines, node_of, on_install, on_no_driver,
    on_not_loaded, tell_least, tell_ways,
};

/// What a device is to get: what it is to require from now on, where a change runs, else what it requires.
fn asked_for<'a>(facts: &'a Facts, node: &'a Node, path: &Text) -> &'a Reqs {
    let mut reqs = &node.reqs;
    if facts.operation == Some(OpKind::Change) {
        for change in &facts.changes {
            if change.path.same(path) {
                reqs = &change.reqs;
            }
        }
    }
    reqs
}

/// What a device is to require from now on is known as the script says it, and not what the windows above it let through.
fn tell_windows(alloc: Global, windows: bool, lines: &mut Lines) -> Result<(), WantOfMemory> {
    if windows {
        return lines.say(
            alloc,
            b"What the windows above it let through of this is not looked at here.",
        );
    }
    Ok(())
}

/// At `nofit`: before an operation what is in the way, and in one who stays.
fn on_no_fit(
    alloc: Global,
    facts: &Facts,
    tree: &Tree,
    path: &Text,
    lines: &mut Lines,
) -> Result<(), WantOfMemory> {
    let Some(node) = node_of(alloc, tree, path)? else {
        return Ok(());
    };
    let reqs = asked_for(facts, node, path);
    match facts.operation {
        None => tell_in_the_way(alloc, facts, tree, node, reqs, lines),
        Some(OpKind::Change) => {
            tell_ways(alloc, &facts.reserved, tree, node, reqs, lines)?;
            tell_windows(alloc, facts.windows, lines)?;
            tell_least(
                alloc,
                &facts.reserved,
                facts.budget,
                tree,
                node,
                reqs,
                lines,
            )?;
            tell_stayers(alloc, &facts.refused, lines)
        }
        Some(_) => {
            tell_agreed(alloc, &facts.refused, lines)?;
            tell_stayers(alloc, &facts.refused, lines)
        }
    }
}

/// What is in the way of a device that needs this.
fn tell_in_the_way(
    alloc: Global,
    facts: &Facts,
    tree: &Tree,
    node: &Node,
    reqs: &Reqs,
    lines: &mut Lines,
) -> Result<(), WantOfMemory> {
    tell_ways(alloc, &facts.reserved, tree, node, reqs, lines)?;
    tell_least(
        alloc,
        &facts.reserved,
        facts.budget,
        tree,
        node,
        reqs,
        lines,
    )
}

/// Whether just these lines were told at the last `nofit` of the device.
fn was_told(in_the_way: &Option<InTheWay>, path: &Text, lines: &Lines) -> bool {
    match in_the_way {
        Some(told) => told.path.same(path) && are_same(&told.lines, lines.all()),
        None => false,
    }
}

/// Whether both are the same lines.
fn are_same(one: &[Vec<u8>], other: &[Vec<u8>]) -> bool {
    if one.len() != other.len() {
        return false;
    }
    for at in 0..one.len().min(other.len()) {
        if one[at].as_slice() != other[at].as_slice() {
            return false;
        }
    }
    true
}

/// Keeps what was told at a `nofit` before an operation.
fn keep_told(
    alloc: Global,
    facts: &mut Facts,
    path: &Text,
    lines: &Lines,
) -> Result<(), WantOfMemory> {
    if facts.operation.is_none() {
        let path = path.copy(alloc)?;
        let lines = lines.copied(alloc)?;
        facts.in_the_way = Some(InTheWay { path, lines });
    }
    Ok(())
}

/// At `problem P 12`: what is in the way, unless that was told at the `nofit` of the device and is as it was.
fn on_conflict(
    alloc: Global,
    facts: &Facts,
    tree: &Tree,
    path: &Text,
    lines: &mut Lines,
) -> Result<(), WantOfMemory> {
    let Some(node) = node_of(alloc, tree, path)? else {
        return Ok(());
    };
    let mut here = Lines::new(alloc);
    tell_in_the_way(alloc, facts, tree, node, &node.reqs, &mut here)?;
    if was_told(&facts.in_the_way, path, &here) {
        return lines.say_three(
            alloc,
            b"What is in the way stands at `nofit ",
            path.bytes(),
            b"` above, where it was told first.",
        );
    }
    lines.take(here)
}

/// The notes at `problem P CODE`.
fn on_problem(
    alloc: Global,
    facts: &Facts,
    tree: &Tree,
    path: &Text,
    problem: Problem,
    lines: &mut Lines,
) -> Result<(), WantOfMemory> {
    tell_meaning(alloc, problem, lines)?;
    match problem {
        Problem::FailedInstall => on_no_driver(alloc, &facts.sources, tree, path, lines),
        Problem::LoadFailed => {
            on_not_loaded(alloc, &facts.sources, &facts.drivers, tree, path, lines)
        },
        Problem::NormalConflict => on_conflict(alloc, facts, tree, path, lines),
        Problem::FailedStart => on_failed_start(alloc, &facts.refused, path, lines),
        Problem::HeldForEject | Problem::Held => {
            on_held(alloc, &facts.relations, tree, path, lines)
        },
        Problem::Disabled => on_disabled(alloc, path, lines),
        Problem::FailedAdd => on_failed_add(alloc, &facts.failed_add, path, lines),
        Problem::Budget => Ok(()),
    }
}

/// At `spent`: how many places the search was allowed, and how many would do.
fn on_spent(
    alloc: Global,
    facts: &Facts,
    tree: &Tree,
    path: &Text,
    lines: &mut Lines,
) -> Result<(), WantOfMemory> {
    lines.add(b"The search was not over after ")?;
    lines.add_number(alloc, facts.budget)?;
    lines.say(
        alloc,
        b" places, and was allowed no more; --budget says how many, up to 1000000.",
    )?;
    tell_enough(alloc, facts, tree, path, lines)
}

/// At the end of an operation: who refused.
fn on_end(
    alloc: Global,
    refused: &[AskedDriver],
    end: &OpEnd,
    lines: &mut Lines,
) -> Result<(), WantOfMemory> {
    match end {
        OpEnd::Veto(path) => on_veto(alloc, refused, path, lines),
        OpEnd::Refused => tell_stayers(alloc, refused, lines),
        _ => Ok(()),
    }
}

/// Keeps what later notes have to know of what was done.
fn keep_deed(alloc: Global, facts: &mut Facts, deed: &Deed) -> Result<(), WantOfMemory> {
    match deed {
        Deed::Named { driver } => facts.drivers.push(driver.copy(alloc)?)?,
        Deed::Reserved { res } => facts.reserved.push(*res)?,
        Deed::Windowed { .. } => facts.windows = true,
        Deed::HandleOpened { path } => facts.opened(path.copy(alloc)?)?,
        Deed::HandleClosed { path } => facts.closed(path),
        _ => {}
    }
    Ok(())
}

/// Keeps that an operation begins.
fn keep_begin(
    alloc: Global,
    facts: &mut Facts,
    op: OpKind,
    path: &Text,
) -> Result<(), WantOfMemory> {
    facts.operation = Some(op);
    facts.target = Vec::from_slice(alloc, path.bytes())?;
    facts.refused = Vec::new(alloc);
    Ok(())
}

/// Keeps a node that joined.
fn keep_joined(
    alloc: Global,
    facts: &mut Facts,
    serial: u64,
    path: &Text,
) -> Result<(), WantOfMemory> {
    let path = path.copy(alloc)?;
    facts.joined.push(Joined { serial, path })?;
    Ok(())
}

/// Keeps a driver that did not add a device.
fn keep_failed_add(
    alloc: Global,
    facts: &mut Facts,
    path: &Text,
    driver: &Text,
) -> Result<(), WantOfMemory> {
    let path = path.copy(alloc)?;
    let driver = driver.copy(alloc)?;
    facts.failed_add = Some(FailedAdd { path, driver });
    Ok(())
}

/// Keeps what later notes have to know of a label.
fn keep(alloc: Global, facts: &mut Facts, tree: &Tree, label: &Label) -> Result<(), WantOfMemory> {
    match label {
        Label::Begin { op, path } => keep_begin(alloc, facts, *op, path),
        Label::End { .. } => {
            facts.operation = None;
            Ok(())
        }
        Label::Asked {
            minor,
            path,
            driver,
            shown,
        } => keep_asked(alloc, facts, *minor, path, driver, *shown),
        Label::Fits { .. } => {
            facts.before = holdings(alloc, tree)?;
            Ok(())
        }
        Label::Did(deed) => keep_deed(alloc, facts, deed),
        Label::Join { serial, path } => keep_joined(alloc, facts, *serial, path),
        Label::Add {
            path,
            driver,
            ok: false,
        } => keep_failed_add(alloc, facts, path, driver),
        Label::Notice {
            path,
            agrees: Some(false),
            ..
        } => {
            facts.refused_on = Some(path.copy(alloc)?);
            Ok(())
        }
        _ => Ok(()),
    }
}

/// The note on an answer that may not be.
fn on_shown(alloc: Global, label: &Label, lines: &mut Lines) -> Result<(), WantOfMemory> {
    match label {
        Label::Asked {
            minor,
            driver,
            shown: Shown::Violation,
            ..
        } => on_violation(alloc, *minor, driver, lines),
        Label::Did(
            Deed::Completed {
                shown: Shown::Violation,
                ..
            },
        ) => on_completed_violation(alloc, lines),
        _ => Ok(()),
    }
}

/// The lines of the note on a label.
fn tell_label(
    alloc: Global,
    facts: &mut Facts,
    tree: &Tree,
    label: &Label,
    lines: &mut Lines,
) -> Result<(), WantOfMemory> {
    match label {
        Label::Install { path, .. } => on_install(alloc, &facts.sources, tree, path, lines),
        Label::Trouble { path, problem } => on_problem(alloc, facts, tree, path, *problem, lines),
        Label::NoFit { path } => {
            on_no_fit(alloc, facts, tree, path, lines)?;
            keep_told(alloc, facts, path, lines)
        }
        Label::Spent { path } => on_spent(alloc, facts, tree, path, lines),
        Label::Commit { .. } => on_commit(alloc, &facts.before, tree, lines),
        Label::Handles { path } => on_handles(alloc, tree, path, lines),
        Label::End { result, .. } => on_end(alloc, &facts.refused, result, lines),
        Label::Declined { op, path, client } => {
            on_declined(alloc, &facts.refused_on, *op, path, client, lines)
        }
        Label::Waits { path } => on_waits(alloc, &facts.handles, path, lines),
        Label::Skip { task, serial } => {
            on_skip(alloc, &facts.joined, tree, *task, *serial, lines)
        },
        _ => on_shown(alloc, label, lines),
    }
}

/// The note on a label, by the tree as it is beside it, and by what is known: which models line and which rank gave a driver, or why
/// none did; what holds the places that a device needs, and the least set of holders without which it would fit; what moved; which
/// driver refused what. Cost: that of what is looked up, and of the searches.
pub fn notes_on(
    alloc: Global,
    facts: &mut Facts,
    tree: &Tree,
    label: &Label,
) -> Result<Lines, WantOfMemory> {
    let mut lines = Lines::new(alloc);
    tell_label(alloc, facts, tree, label, &mut lines)?;
    keep(alloc, facts, tree, label)?;
    Ok(lines)
}
