ghost use Rattle.std.specs.Prelude.{◌≡◌, IfOk, OnErr, IsSome, false};
ghost use Rattle.pnp_model.specs.Cores.{node_at, forget, bare, set_rack};
ghost use Rattle.pnp_model.specs.Records.{Core};
ghost use Rattle.pnp_labels.specs.declared.states.DevState.TheVariants.{NoStack};
ghost use Rattle.devnode_tree.specs.Trees.{changed};
ghost use Rattle.trial_journal.specs.ByKind as ByKind;
ghost use Rattle.device_holdings.specs.Mirrors.{IsMirrored, KeepsMirror};
ghost use Rattle.operation_frame.specs.Nodes.{PathIs};
ghost use Rattle.operation_frame.specs.Walks.{WalksFor, EndsFor, EndedFor};

use device_holdings::release;
use device_ids::{Text, WantOfMemory};
use device_stack::{Passed, Walk, state_after};
use devnode_tree::Tree;
use driver_rack::Drivers;
use pnp_labels::{DevState, Label, Minor};
use relations::Relations;
use std::alloc::Global;
use trial_journal::Arbiters;

/// A step of a request for a device. This project's own.
#[derive(Drop)]
pub enum Walked {
    /// A driver was asked; the line tells what it answered.
    On(Label),
    /// The request has ended, and whether a driver refused it; the path of the device is for the line that tells its
    /// state.
    Ended { path: Text, refused: bool },
}

/// A device whose request has ended: its path is for the line that tells its state. This project's own.
#[derive(Drop)]
pub struct Asked {
    pub serial: u64,
    pub path: Text,
}

/// The next step of a request for a device; its end changes nothing yet. Conditions: the device is there, and the request
/// does not wait. After want of memory nothing has changed, and no driver was asked. Cost: the rules of one book, and the
/// logarithm of the number of nodes.
pub fn pass_on<R: Drivers>(
    alloc: Global,
    serial: u64,
    walk: &mut Walk,
    tree: &Tree,
    rack: &mut R,
) -> Result<Walked, WantOfMemory>
    requires there { IsSome (node_at serial tree.now.nodes) }
    requires goes { walk.old.walk.waits ≡ false }
    ensures passed { IfOk result (λ went. (around : Core) → WalksFor (node_at serial tree.now.nodes) (set_rack (R.rows rack.old) around) walk.old.walk went (set_rack (R.rows rack.new) around) walk.new.walk) }
    ensures walk { OnErr result (walk.new ≡ walk.old) }
    ensures rack { OnErr result (R.rows rack.new ≡ R.rows rack.old) }
{
    let node = tree.at(serial);
    let mut next = *walk;
    match next.pass(alloc, &node.stack, &node.path, rack)? {
        Passed::Asked(label) => {
            *walk = next;
            Ok(Walked::On(label))
        }
        Passed::Ended { refused } => {
            let path = node.path.text(alloc)?;
            Ok(Walked::Ended { path, refused })
        }
    }
}

/// A request that leaves the drivers ends: the device gets the state after it, and the line tells it. Condition: the device
/// is there. It takes no memory. Cost: the logarithm of the number of nodes.
pub fn end_walk(minor: Minor, refused: bool, path: Text, serial: u64, tree: &mut Tree) -> Label
    requires { IsSome (node_at serial tree.old.nodes) }
    ensures ended { EndsFor (node_at serial tree.old.nodes) minor refused path tree.old.nodes result tree.new.nodes }
    ensures next { tree.new.next ≡ tree.old.next }
    ensures mirrors { (arbiters : ByKind.Arbiters) → KeepsMirror tree.old.nodes arbiters tree.new.nodes arbiters }
{
    let node = tree.at(serial);
    let serial = node.serial;
    let old = node.state;
    let state = state_after(minor, refused, old);
    tree.set_state(serial, state);
    Label::State { path, state }
}

/// The request that removes the drivers ends: the device loses its drivers, its holdings and its relations, and the line
/// tells its state. Condition: the arbiters hold just what is reserved and what devices hold; this is kept. It takes no
/// memory. Cost: the logarithm of the number of nodes, the number of relations, and for each resource that it held the
/// pairs of its kind.
fn strip(
    path: Text,
    serial: u64,
    tree: &mut Tree,
    relations: &mut Relations,
    arbiters: &mut Arbiters,
) -> Label
    requires { IsMirrored tree.old.nodes arbiters.old }
    ensures label { result ≡ Label.State path NoStack }
    ensures bare { tree.new ≡ changed serial bare tree.old }
    ensures relations { relations.new ≡ forget serial relations.old }
    ensures mirrors { KeepsMirror tree.old.nodes arbiters.old tree.new.nodes arbiters.new }
{
    release(tree, arbiters, serial);
    relations.forget(serial);
    Label::State {
        path,
        state: DevState::NoStack,
    }
}

/// A request ends, and the line tells the state after it. By the one that removes the drivers the device also loses its
/// holdings and its relations. Conditions: the path is that of the device, which is there; the arbiters hold just what is
/// reserved and what devices hold, and this is kept. It takes no memory. Cost: the logarithm of the number of nodes; where
/// drivers are gone also the number of relations, and for each resource that it held the pairs of its kind.
pub fn end_request(
    minor: Minor,
    refused: bool,
    device: Asked,
    tree: &mut Tree,
    relations: &mut Relations,
    arbiters: &mut Arbiters,
) -> Label
    requires path { PathIs (node_at device.serial tree.old.nodes) device.path }
    requires mirrored { IsMirrored tree.old.nodes arbiters.old }
    ensures ended { EndedFor (node_at device.serial tree.old.nodes) minor refused tree.old.nodes relations.old result tree.new.nodes relations.new }
    ensures next { tree.new.next ≡ tree.old.next }
    ensures mirrors { KeepsMirror tree.old.nodes arbiters.old tree.new.nodes arbiters.new }
{
    match minor {
        Minor::Remove => strip(device.path, device.serial, tree, relations, arbiters),
        _ => end_walk(minor, refused, device.path, device.serial, tree),
    }
}
