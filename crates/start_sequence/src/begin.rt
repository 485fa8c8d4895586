ghost use Rattle.std.specs.Prelude.{◌≡◌, ◌≤◌, ◌+◌, ℕ, nat_le, IfOk, IfSome, OnErr, IsSome, length};
ghost use Rattle.pnp_model.specs.Books.{driver_named};
ghost use Rattle.pnp_model.specs.Cores.{node_at};
ghost use Rattle.pnp_model.specs.Records.{State};
ghost use Rattle.pnp_model.specs.Tasks.{start_enabled, numbered};
ghost use Rattle.devnode_tree.specs.Identities.{identities};
ghost use Rattle.trial_journal.specs.ByKind as ByKind;
ghost use Rattle.device_holdings.specs.Mirrors.{KeepsMirror};
ghost use Rattle.start_sequence.specs.Begins.{settings_of, step_of, AppendedBy, AppendedLine, ChosenBy, HasFewIds, BegunFor};
ghost use Rattle.start_sequence.specs.Works.{phase_of};
ghost use Rattle.pnp_model.specs.Starts.{adding};
ghost use Rattle.driver_rank.specs.Best.{choice_of};
ghost use Rattle.driver_rank.specs.Candidates.{match_of};

use crate::pending::Pending;
use crate::work::{Phase, StartWork};
use device_ids::{Text, TextList, WantOfMemory};
use device_stack::driver_name;
use devnode_tree::{Node, Tree};
use driver_rack::Drivers;
use driver_rank::{Candidate, best_line};
use inf_reader::Inf;
use pnp_labels::{Label, Problem};
use std::alloc::Global;
use std::collections::VecDeque;

/// The most drivers of a device: this project's own.
const MOST_DRIVERS: u64 = 16;

/// What the choice of drivers for a device came to.
pub(crate) enum Chosen {
    /// It gets this problem.
    Trouble(Problem),
    /// These drivers, from the bottom, are to add it.
    Drivers {
        rank: u32,
        driver: u32,
        drivers: Pending,
    },
}

/// Appends the numbers of the drivers of these names; false exactly where one has no namesake in the rack.
fn append_numbers<R: Drivers>(
    drivers: &mut VecDeque<u32>,
    rack: &R,
    names: &TextList,
) -> Result<bool, WantOfMemory>
    ensures { IfOk result (λ all. AppendedBy (numbered (R.rows rack.now) names.now) all drivers.old.items drivers.new.items) }
{
    for at in 0..names.len() {
        let Some(driver) = rack.find(names.get(at)) else {
            return Ok(false);
        };
        drivers.push_back(driver)?;
    }
    Ok(true)
}

/// Appends the numbers of all drivers of a line, that of the function driver between those of the filters, and tells that
/// one; none exactly where one of them has no namesake in the rack.
fn append_line<R: Drivers>(
    drivers: &mut VecDeque<u32>,
    rack: &R,
    lower: &TextList,
    service: &Text,
    upper: &TextList,
) -> Result<Option<u32>, WantOfMemory>
    ensures { IfOk result (λ driver. AppendedLine (numbered (R.rows rack.now) lower.now) (driver_named service.now (R.rows rack.now)) (numbered (R.rows rack.now) upper.now) driver drivers.old.items drivers.new.items) }
{
    if !append_numbers(drivers, rack, lower)? {
        return Ok(None);
    }
    let Some(driver) = rack.find(service) else {
        return Ok(None);
    };
    drivers.push_back(driver)?;
    if !append_numbers(drivers, rack, upper)? {
        return Ok(None);
    }
    Ok(Some(driver))
}

/// Whether so many filters and the function driver are not too many drivers.
fn are_few(lower: u64, upper: u64) -> bool
    ensures { result ≡ nat_le (lower + 1 + upper) 16 }
{
    lower < MOST_DRIVERS && upper < MOST_DRIVERS - lower
}

/// The drivers of the best line by their numbers, with the function driver between the filters; or the problem where the
/// line names no service, too many drivers, or one that is not in the rack.
fn numbered<R: Drivers>(alloc: Global, rack: &R, best: &Candidate) -> Result<Chosen, WantOfMemory>
    ensures { IfOk result (λ chosen. ChosenBy (R.rows rack.now) (choice_of (match_of best.now)) chosen) }
{
    let line = best.line;
    let Some(service) = &line.service else {
        return Ok(Chosen::Trouble(Problem::FailedInstall));
    };
    if !are_few(line.lower.len(), line.upper.len()) {
        return Ok(Chosen::Trouble(Problem::FailedInstall));
    }
    let mut drivers = VecDeque::new(alloc);
    match append_line(&mut drivers, rack, &line.lower, service, &line.upper)? {
        Some(driver) => Ok(Chosen::Drivers {
            rank: best.rank,
            driver,
            drivers: Pending::of(drivers),
        }),
        None => Ok(Chosen::Trouble(Problem::LoadFailed)),
    }
}

/// The drivers for a device, by the best choice of the INFs; or its problem where its path is disabled, or where
/// none can be chosen.
fn choose<R: Drivers>(
    alloc: Global,
    rack: &R,
    infs: &[Inf],
    node: &Node,
    disabled: bool,
) -> Result<Chosen, WantOfMemory>
    requires few { length infs.now ≤ 64 }
    requires hw { length node.now.hw ≤ 64 }
    requires compat { length node.now.compat ≤ 64 }
    ensures { IfOk result (λ chosen. (budget : ℕ) (s : State) → s.core.rack ≡ R.rows rack.now → start_enabled (settings_of infs.now budget) s node.now disabled ≡ step_of s node.now chosen) }
{
    if disabled {
        return Ok(Chosen::Trouble(Problem::Disabled));
    }
    match best_line(alloc, infs, &node.hw, &node.compat)? {
        None => Ok(Chosen::Trouble(Problem::FailedInstall)),
        Some(best) => numbered(alloc, rack, &best),
    }
}

/// Where a start stands before these drivers.
fn phase_before(drivers: Pending) -> Phase
    ensures { phase_of result ≡ adding drivers }
{
    match drivers.first() {
        Some(_) => Phase::Adding(drivers),
        None => Phase::Searching,
    }
}

impl StartWork {
    /// The drivers for a device are chosen: it gets its problem, or its problem is cleared and its start stands
    /// before the first driver. The line that is printed is told. Conditions: the device is there, with at most 64
    /// hardware IDs and 64 compatible ones, and there are at most 64 INFs. After want of
    /// memory the tree is as before. Cost: that of the best choice.
    #[tactic(auto, using(devnode_tree::proofs::Identities::problem_keeps, crate::proofs::Mirroring::mirror_problem))]
    pub fn begin<R: Drivers>(
        alloc: Global,
        tree: &mut Tree,
        rack: &R,
        infs: &[Inf],
        serial: u64,
        disabled: bool,
    ) -> Result<(Label, Option<StartWork>), WantOfMemory>
        requires there { IsSome (node_at serial tree.old.nodes) }
        requires ids { HasFewIds (node_at serial tree.old.nodes) }
        requires few { length infs.now ≤ 64 }
        ensures begun { IfOk result (λ r. (budget : ℕ) (s : State) → s.core.rack ≡ R.rows rack.now → s.core.nodes ≡ tree.old.nodes → BegunFor (settings_of infs.now budget) s (node_at serial tree.old.nodes) disabled r.0 r.1 tree.new.nodes) }
        ensures device { IfOk result (λ r. IfSome r.1 (λ work. work.serial ≡ serial)) }
        ensures next { tree.new.next ≡ tree.old.next }
        ensures keeps { identities tree.new.nodes ≡ identities tree.old.nodes }
        ensures mirrors { (arbiters : ByKind.Arbiters) → KeepsMirror tree.old.nodes arbiters tree.new.nodes arbiters }
        ensures tree { OnErr result (tree.new ≡ tree.old) }
    {
        let node = tree.at(serial);
        let serial = node.serial;
        let path = node.path.text(alloc)?;
        match choose(alloc, rack, infs, node, disabled)? {
            Chosen::Trouble(problem) => {
                tree.set_problem(serial, Some(problem));
                Ok((Label::Trouble { path, problem }, None))
            }
            Chosen::Drivers {
                rank,
                driver,
                drivers,
            } => {
                let driver = driver_name(alloc, rack, driver)?;
                tree.set_problem(serial, None);
                let phase = phase_before(drivers);
                let label = Label::Install { path, rank, driver };
                Ok((label, Some(StartWork { serial, phase })))
            }
        }
    }
}
