ghost use Rattle.std.specs.Prelude.{◌≡◌, ◌≤◌, [], ◌++◌, ◌∷◌, IfOk, OnErr, IsSome, false};
ghost use Rattle.pnp_model.specs.Cores.{node_at, set_rack, stacked};
ghost use Rattle.pnp_model.specs.Machine.{phase_walk, is_waiting};
ghost use Rattle.pnp_model.specs.Records.{Core};
ghost use Rattle.devnode_tree.specs.Cores.{at_nodes};
ghost use Rattle.devnode_tree.specs.Identities.{identities};
ghost use Rattle.trial_journal.specs.ByKind as ByKind;
ghost use Rattle.device_holdings.specs.Mirrors.{IsMirrored, KeepsMirror};
ghost use Rattle.start_sequence.specs.Steps.{Acts, first_pending, phase_added};
ghost use Rattle.start_sequence.specs.Parts.{AddedFor, StartsFor, RemovesFor, TroubledFor};

use crate::work::{Phase, StartWork};
use device_holdings::release;
use device_ids::WantOfMemory;
use device_stack::{Passed, Walk, ask_driver, driver_name, state_after};
use devnode_tree::Tree;
use driver_rack::Drivers;
use pnp_labels::{Answer, Ask, AskWhat, DevState, Label, Minor, Problem, Stack};
use std::alloc::Global;
use trial_journal::Arbiters;

/// A step of the start of a device, with what the machine has to do beside it. This project's own.
#[derive(Drop)]
pub enum StartStep {
    /// Nothing: the start goes on.
    Did(Label),
    /// No assignment exists for the device, and the start is over: a rebalance of the device is to begin.
    Needs(Label),
    /// The device is started and the start is over: its children are to be listed.
    Up(Label),
    /// The start is over.
    Over(Label),
}

/// A step of the request that starts the device.
#[derive(Drop)]
pub(crate) enum Started {
    On(Label),
    Refused(Label),
    Up(Label),
}

/// A step of the request that removes its drivers.
#[derive(Drop)]
pub(crate) enum Removed {
    On(Label),
    Over(Label),
}

/// The state of a device when a driver was added on top.
fn stacked(state: DevState) -> DevState
    ensures { result ≡ stacked state }
{
    match state {
        DevState::NoStack => DevState::NotStarted,
        _ => state,
    }
}

/// The stack with one driver more on top. Cost: its height, which is at most 16.
#[tactic(auto, using(std::proofs::lemmas::List::take_all))]
fn taller(alloc: Global, stack: &Stack, driver: u32) -> Result<Stack, WantOfMemory>
    ensures { IfOk result (λ new. new ≡ stack.now ++ driver ∷ []) }
{
    let mut new = Stack::new(alloc);
    for at in 0..stack.len() {
        new.push(*stack.get(at))?;
    }
    new.push(driver)?;
    Ok(new)
}

/// A driver is asked to add the device; with Ok it stands on top of the stack.
#[tactic(auto, using(devnode_tree::proofs::Identities::stack_keeps, crate::proofs::Mirroring::mirror_stack))]
fn add<R: Drivers>(
    alloc: Global,
    serial: u64,
    driver: u32,
    tree: &mut Tree,
    rack: &mut R,
) -> Result<(Label, bool), WantOfMemory>
    requires { IsSome (node_at serial tree.old.nodes) }
    ensures added { IfOk result (λ r. AddedFor (node_at serial tree.old.nodes) driver tree.old.nodes (R.rows rack.old) r.0 r.1 tree.new.nodes (R.rows rack.new)) }
    ensures next { tree.new.next ≡ tree.old.next }
    ensures keeps { identities tree.new.nodes ≡ identities tree.old.nodes }
    ensures mirrors { (arbiters : ByKind.Arbiters) → KeepsMirror tree.old.nodes arbiters tree.new.nodes arbiters }
    ensures tree { OnErr result (tree.new ≡ tree.old) }
    ensures rack { OnErr result (R.rows rack.new ≡ R.rows rack.old) }
{
    let node = tree.at(serial);
    let serial = node.serial;
    let state = stacked(node.state);
    let name = driver_name(alloc, rack, driver)?;
    let text = node.path.text(alloc)?;
    let stack = taller(alloc, &node.stack, driver)?;
    let ask = Ask {
        what: AskWhat::Add,
        path: &node.path,
    };
    let ok = matches!(ask_driver(rack, driver, &ask), Answer::Ok);
    if ok {
        tree.set_stack(serial, stack, state);
    }
    let label = Label::Add {
        path: text,
        driver: name,
        ok,
    };
    Ok((label, ok))
}

/// The next step of the request that starts the device.
#[tactic(auto, using(devnode_tree::proofs::Identities::state_keeps, crate::proofs::Mirroring::mirror_state))]
fn start<R: Drivers>(
    alloc: Global,
    serial: u64,
    walk: &mut Walk,
    tree: &mut Tree,
    rack: &mut R,
) -> Result<Started, WantOfMemory>
    requires there { IsSome (node_at serial tree.old.nodes) }
    requires goes { walk.old.walk.waits ≡ false }
    ensures started { IfOk result (λ went. (around : Core) → StartsFor (node_at serial tree.old.nodes) (at_nodes tree.old.nodes (set_rack (R.rows rack.old) around)) walk.old.walk went (at_nodes tree.new.nodes (set_rack (R.rows rack.new) around)) walk.new.walk) }
    ensures next { tree.new.next ≡ tree.old.next }
    ensures keeps { identities tree.new.nodes ≡ identities tree.old.nodes }
    ensures mirrors { (arbiters : ByKind.Arbiters) → KeepsMirror tree.old.nodes arbiters tree.new.nodes arbiters }
    ensures walk { OnErr result (walk.new ≡ walk.old) }
    ensures tree { OnErr result (tree.new ≡ tree.old) }
    ensures rack { OnErr result (R.rows rack.new ≡ R.rows rack.old) }
{
    let node = tree.at(serial);
    let serial = node.serial;
    let old = node.state;
    let path = node.path.text(alloc)?;
    match walk.pass(alloc, &node.stack, &node.path, rack)? {
        Passed::Asked(label) => Ok(Started::On(label)),
        Passed::Ended { refused } => {
            let state = state_after(Minor::Start, refused, old);
            tree.set_state(serial, state);
            let label = Label::State { path, state };
            if refused {
                Ok(Started::Refused(label))
            } else {
                Ok(Started::Up(label))
            }
        }
    }
}

/// The next step of the request that removes the device's drivers; with its end the device has no drivers and holds
/// nothing, in tree and arbiters.
#[tactic(auto, using(devnode_tree::proofs::Identities::bare_keeps, crate::proofs::Acting::stripped))]
fn remove<R: Drivers>(
    alloc: Global,
    serial: u64,
    walk: &mut Walk,
    tree: &mut Tree,
    rack: &mut R,
    arbiters: &mut Arbiters,
) -> Result<Removed, WantOfMemory>
    requires there { IsSome (node_at serial tree.old.nodes) }
    requires goes { walk.old.walk.waits ≡ false }
    requires mirrored { IsMirrored tree.old.nodes arbiters.old }
    ensures removed { IfOk result (λ went. (around : Core) → RemovesFor (node_at serial tree.old.nodes) (at_nodes tree.old.nodes (set_rack (R.rows rack.old) around)) walk.old.walk went (at_nodes tree.new.nodes (set_rack (R.rows rack.new) around)) walk.new.walk) }
    ensures next { tree.new.next ≡ tree.old.next }
    ensures keeps { identities tree.new.nodes ≡ identities tree.old.nodes }
    ensures mirrors { KeepsMirror tree.old.nodes arbiters.old tree.new.nodes arbiters.new }
    ensures walk { OnErr result (walk.new ≡ walk.old) }
    ensures tree { OnErr result (tree.new ≡ tree.old) }
    ensures rack { OnErr result (R.rows rack.new ≡ R.rows rack.old) }
{
    let node = tree.at(serial);
    let serial = node.serial;
    let path = node.path.text(alloc)?;
    match walk.pass(alloc, &node.stack, &node.path, rack)? {
        Passed::Asked(label) => Ok(Removed::On(label)),
        Passed::Ended { refused: _ } => {
            release(tree, arbiters, serial);
            let state = DevState::NoStack;
            Ok(Removed::Over(Label::State { path, state }))
        }
    }
}

/// The device gets a problem; whether it has drivers is told.
#[tactic(auto, using(devnode_tree::proofs::Identities::problem_keeps, crate::proofs::Mirroring::mirror_problem))]
fn trouble(
    alloc: Global,
    serial: u64,
    problem: Problem,
    tree: &mut Tree,
) -> Result<(Label, bool), WantOfMemory>
    requires { IsSome (node_at serial tree.old.nodes) }
    ensures troubled { IfOk result (λ r. TroubledFor (node_at serial tree.old.nodes) problem tree.old.nodes r.0 r.1 tree.new.nodes) }
    ensures next { tree.new.next ≡ tree.old.next }
    ensures keeps { identities tree.new.nodes ≡ identities tree.old.nodes }
    ensures mirrors { (arbiters : ByKind.Arbiters) → KeepsMirror tree.old.nodes arbiters tree.new.nodes arbiters }
    ensures tree { OnErr result (tree.new ≡ tree.old) }
{
    let node = tree.at(serial);
    let serial = node.serial;
    let has_drivers = node.stack.len() > 0;
    let path = node.path.text(alloc)?;
    tree.set_problem(serial, Some(problem));
    Ok((Label::Trouble { path, problem }, has_drivers))
}

impl StartWork {
    /// The driver that the next step asks to add the device, by its number in the rack; none exactly where it asks none to add
    /// it. What else a start asks is of the request that is on its way.
    pub fn first_pending(&self) -> Option<u32>
        ensures { result ≡ first_pending self.now.phase }
    {
        match &self.phase {
            Phase::Adding(pending) => pending.first(),
            _ => None,
        }
    }

    /// Notes whether the driver that was asked added the device.
    fn note_added(&mut self, ok: bool)
        ensures { self.new ≡ record self.old { phase = phase_added self.old.phase ok } }
    {
        if !ok {
            self.enter(Phase::Due(Problem::FailedAdd));
            return;
        }
        if let Phase::Adding(pending) = &mut self.phase {
            if pending.drop_first() {
                self.enter(Phase::Searching);
            }
        }
    }

    /// The next step of a start that does not wait: a driver is asked, resources are searched for, or a request or a part of
    /// the start ends. The step tells the line that is printed and what the machine has to do; after `Needs`, `Up` and
    /// `Over` the start is over. The budget is the most prefixes that the search may try. Conditions: the device is there,
    /// the arbiters hold just what is reserved and what devices hold, which is kept, and the budget is at most 1,000,000.
    /// That a step is the machine's is told for a device without relations. After want of memory start, tree and rack are
    /// as before, and no driver was asked. Cost: the rules of one book, and the logarithm of the number of nodes; where
    /// resources are searched for that of `device_holdings::search`, and where drivers are gone, for each resource that the
    /// device held, the pairs of its kind.
    #[tactic(auto, using(crate::proofs::Acting::added, crate::proofs::Acting::start_goes, crate::proofs::Acting::start_refused, crate::proofs::Acting::start_ends, crate::proofs::Acting::remove_goes, crate::proofs::Acting::remove_ends, crate::proofs::Acting::searched, crate::proofs::Acting::searched_at_once, crate::proofs::Acting::troubled, crate::proofs::Acting::dropped))]
    pub fn next<R: Drivers>(
        &mut self,
        alloc: Global,
        tree: &mut Tree,
        rack: &mut R,
        arbiters: &mut Arbiters,
        budget: u64,
    ) -> Result<StartStep, WantOfMemory>
        requires there { IsSome (node_at self.old.serial tree.old.nodes) }
        requires goes { is_waiting (phase_walk self.old.phase) ≡ false }
        requires mirrored { IsMirrored tree.old.nodes arbiters.old }
        requires budget { budget ≤ 1000000 }
        ensures acts { IfOk result (λ step. Acts budget arbiters.old self.old.serial tree.old.nodes (R.rows rack.old) self.old.phase step tree.new.nodes (R.rows rack.new) self.new.phase) }
        ensures serial { self.new.serial ≡ self.old.serial }
        ensures next { tree.new.next ≡ tree.old.next }
        ensures keeps { identities tree.new.nodes ≡ identities tree.old.nodes }
        ensures mirrors { KeepsMirror tree.old.nodes arbiters.old tree.new.nodes arbiters.new }
        ensures start { OnErr result (self.new ≡ self.old) }
        ensures tree { OnErr result (tree.new ≡ tree.old) }
        ensures rack { OnErr result (R.rows rack.new ≡ R.rows rack.old) }
    {
        let serial = self.serial;
        if let Some(driver) = self.first_pending() {
            let (label, ok) = add(alloc, serial, driver, tree, rack)?;
            self.note_added(ok);
            return Ok(StartStep::Did(label));
        }
        match &mut self.phase {
            Phase::Adding(_) | Phase::Searching => self.search(alloc, tree, arbiters, budget),
            Phase::Starting(walk) => match start(alloc, serial, walk, tree, rack)? {
                Started::On(label) => Ok(StartStep::Did(label)),
                Started::Up(label) => Ok(StartStep::Up(label)),
                Started::Refused(label) => {
                    self.enter(Phase::Due(Problem::FailedStart));
                    Ok(StartStep::Did(label))
                }
            },
            Phase::Removing(walk) => {
                let label = match remove(alloc, serial, walk, tree, rack, arbiters)? {
                    Removed::On(label) => label,
                    Removed::Over(label) => return Ok(StartStep::Over(label)),
                };
                Ok(StartStep::Did(label))
            }
            Phase::Due(problem) => {
                let (label, has_drivers) = trouble(alloc, serial, *problem, tree)?;
                if !has_drivers {
                    return Ok(StartStep::Over(label));
                }
                self.enter(Phase::Removing(Walk::begin(Minor::Remove)));
                Ok(StartStep::Did(label))
            }
        }
    }
}
