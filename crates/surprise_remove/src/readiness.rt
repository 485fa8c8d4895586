ghost use Rattle.std.specs.Prelude.{◌≡◌, ◌<◌, ℕ, IfSome, IsTrue, List};
ghost use Rattle.std.specs.List.{list_any};
ghost use Rattle.pnp_model.specs.Cores.{node_at};
ghost use Rattle.pnp_model.specs.Records.{Core, Handle};
ghost use Rattle.pnp_model.specs.Handles.{is_open, is_ready_device, ready_device, was_told};
ghost use Rattle.pnp_model.specs.Tests.{has};
ghost use Rattle.devnode_tree.specs.Cores.{at_related};
ghost use Rattle.devnode_tree.specs.Trees.{IsTree};
ghost use Rattle.devnode_tree.specs.Entries.{child_serials};
ghost use Rattle.relations.specs.Leaving.{below};
ghost use Rattle.operation_frame.specs.Nodes.{has_drivers};
ghost use Rattle.surprise_remove.specs.Ready.{is_let_go, is_ready_at};

use devnode_tree::{HandleWalk, Handles, Node, Tree};
use operation_frame::has_drivers;
use pnp_labels::DevState;
use relations::{Edge, Relations};

/// Whether a device is there, and waits to be finished after it was told that it has gone. Cost: the logarithm of the number
/// of nodes.
pub(crate) fn was_told(tree: &Tree, serial: u64) -> bool
    ensures { result ≡ was_told (node_at serial tree.now.nodes) }
{
    match tree.node(serial) {
        Some(node) => matches!(node.state, DevState::SurpriseRemoved),
        None => false,
    }
}

/// Whether a child of a device has drivers.
fn has_full_child(tree: &Tree, serial: u64) -> bool
    ensures { result ≡ list_any (λ j. has_drivers (node_at j tree.now.nodes)) (child_serials tree.now.nodes serial) }
{
    tree.children(serial)
        .iter()
        .any(|child| has_drivers(tree, *child))
}

/// Whether an edge leads to a device that has drivers.
fn leads_to_full(tree: &Tree, edges: &[Edge]) -> bool
    ensures { result ≡ list_any (λ e. has_drivers (node_at e.to tree.now.nodes)) edges.now }
{
    edges.iter().any(|edge| has_drivers(tree, edge.to))
}

/// Whether something that hangs on a device directly, a child or a related member that is there, has drivers. Cost: for each
/// of these the logarithm of the number of nodes.
fn is_held_back(tree: &Tree, relations: &Relations, serial: u64) -> bool
    ensures { result ≡ list_any (λ j. has_drivers (node_at j tree.now.nodes)) (below tree.now.nodes relations.now serial) }
{
    has_full_child(tree, serial) || leads_to_full(tree, relations.owned(serial))
}

/// Whether a device was told that it has gone and has its drivers still, and no handle to it is open. Cost: the logarithm of
/// the number of devices with one, for a device that was told.
fn is_let_go(handles: &Handles, node: &Node) -> bool
    ensures { result ≡ is_let_go handles.now node.now }
{
    match node.state {
        DevState::SurpriseRemoved => node.stack.len() > 0 && !handles.is_open(node.serial),
        _ => false,
    }
}

/// Whether a node is ready.
fn is_ready_node(tree: &Tree, relations: &Relations, handles: &Handles, node: &Node) -> bool
    requires { IsTree tree.now }
    ensures { (around : Core) → result ≡ is_ready_device (at_related tree.now.nodes relations.now around) handles.now node.now }
{
    is_let_go(handles, node) && !is_held_back(tree, relations, node.serial)
}

/// The same as `is_let_go`, by a walk over the handles that has not passed the device; it has all below it ahead still.
fn is_let_go_on(walk: &mut HandleWalk<'_>, node: &Node) -> bool
    ensures let_go { (handles : List Handle) → has walk.old node.now.serial ≡ is_open handles node.now.serial → result ≡ is_let_go handles node.now }
    ensures below { (k : ℕ) → k < node.now.serial → has walk.new k ≡ has walk.old k }
{
    match node.state {
        DevState::SurpriseRemoved => node.stack.len() > 0 && !walk.is_open(node.serial),
        _ => false,
    }
}

/// The same as `is_ready_node`, by a walk over the handles that has not passed the device; it has all below it ahead still.
fn is_ready_on(tree: &Tree, relations: &Relations, walk: &mut HandleWalk<'_>, node: &Node) -> bool
    requires { IsTree tree.now }
    ensures ready { (handles : List Handle) → has walk.old node.now.serial ≡ is_open handles node.now.serial → (around : Core) → result ≡ is_ready_device (at_related tree.now.nodes relations.now around) handles node.now }
    ensures below { (k : ℕ) → k < node.now.serial → has walk.new k ≡ has walk.old k }
{
    is_let_go_on(walk, node) && !is_held_back(tree, relations, node.serial)
}

/// Whether a device is there and ready to be finished: it was told that it has gone and has its drivers still, no handle to
/// it is open, and nothing that hangs on it has drivers. It takes no memory. Cost: the logarithm of the number of nodes,
/// for the device and each that hangs on it directly.
pub fn is_ready(tree: &Tree, relations: &Relations, handles: &Handles, serial: u64) -> bool
    ensures { (around : Core) → result ≡ is_ready_at (at_related tree.now.nodes relations.now around) handles.now (node_at serial tree.now.nodes) }
{
    match tree.node(serial) {
        Some(node) => is_ready_node(tree, relations, handles, node),
        None => false,
    }
}

/// The ready device of the greatest serial; none exactly where none is ready. It takes no memory, so that nothing can fail.
/// Cost: one look at the state of each node from the last one down to the lowest bottom of the tree, beside it one step for each
/// device with an open handle, and that of `is_ready` for each that has none and was told that it has gone.
pub fn ready(tree: &Tree, relations: &Relations, handles: &Handles) -> Option<u64>
    ensures device { (around : Core) → result ≡ ready_device (at_related tree.now.nodes relations.now around) handles.now }
    ensures ready { IfSome result (λ serial. (around : Core) → IsTrue (is_ready_at (at_related tree.now.nodes relations.now around) handles.now (node_at serial tree.now.nodes))) }
{
    let mut walk = handles.walk();
    let lowest = tree.lowest_bottom();
    for at in (0..tree.len()).rev() {
        if let Some(node) = tree.get(at) {
            if node.serial < lowest {
                return None;
            }
            if is_ready_on(tree, relations, &mut walk, node) {
                return Some(node.serial);
            }
        }
    }
    None
}
