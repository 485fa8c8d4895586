ghost use Rattle.std.specs.Prelude.{◌≡◌, ◌≤◌, true, Some};
ghost use Rattle.std.specs.List.{list_any};
ghost use Rattle.pnp_model.specs.Cores.{node_at, serials_of};
ghost use Rattle.pnp_model.specs.Records.{Node};
ghost use Rattle.devnode_tree.specs.Bottoms.{is_bottom, is_full_child, BottomsBut, BottomsFrom};
ghost use Rattle.devnode_tree.specs.Entries.{nodes_of};
ghost use Rattle.devnode_tree.specs.Trees.{Ascends};

use crate::entries::place_of;
use crate::entry::Entry;
use pnp_labels::DevState;

/// Whether a child is there that has drivers.
fn is_full_child(entries: &[Entry], serial: u64, child: u64) -> bool
    requires { Ascends 0 (serials_of (nodes_of entries.now)) }
    ensures { result ≡ true → list_any (is_full_child serial) (nodes_of entries.now) ≡ true }
{
    match place_of(entries, child) {
        Some(place) => entries[place].is_full_child(serial),
        None => false,
    }
}

/// Whether the first or the last of these is a child that has drivers; the others are not looked at.
fn has_full_end(entries: &[Entry], serial: u64, children: &[u64]) -> bool
    requires { Ascends 0 (serials_of (nodes_of entries.now)) }
    ensures { result ≡ true → list_any (is_full_child serial) (nodes_of entries.now) ≡ true }
{
    match (children.first(), children.last()) {
        (Some(first), Some(last)) => {
            is_full_child(entries, serial, *first) || is_full_child(entries, serial, *last)
        }
        _ => false,
    }
}

/// A serial below which no bottom is, where this is one for all but the node with a serial: of what is told of that node, the
/// lower one. Cost: the logarithm of the number of nodes.
fn lowered_by(entries: &[Entry], lowest: u64, serial: u64) -> u64
    requires { Ascends 0 (serials_of (nodes_of entries.now)) }
    ensures less { result ≤ lowest }
    ensures bottom { (n : Node) → node_at serial (nodes_of entries.now) ≡ Some n → is_bottom (nodes_of entries.now) n ≡ true → result ≤ serial }
{
    let Some(place) = place_of(entries, serial) else {
        return lowest;
    };
    let entry = &entries[place];
    if !entry.was_told() || has_full_end(entries, serial, &entry.children) {
        return lowest;
    }
    lowest.min(serial)
}

/// The same, where it is one for all but a node and its parent.
pub(crate) fn lowered(entries: &[Entry], lowest: u64, serial: u64, parent: u64) -> u64
    requires { Ascends 0 (serials_of (nodes_of entries.now)) }
    ensures less { result ≤ lowest }
    ensures bottom { (n : Node) → node_at serial (nodes_of entries.now) ≡ Some n → is_bottom (nodes_of entries.now) n ≡ true → result ≤ serial }
    ensures above { (n : Node) → node_at parent (nodes_of entries.now) ≡ Some n → is_bottom (nodes_of entries.now) n ≡ true → result ≤ parent }
{
    let own = lowered_by(entries, lowest, serial);
    lowered_by(entries, own, parent)
}

/// The serial of the first node that was told that it has gone, below which no bottom is; the greatest number where none was.
/// Cost: the number of nodes before it.
pub(crate) fn first_told(entries: &[Entry]) -> u64
    requires { Ascends 0 (serials_of (nodes_of entries.now)) }
    ensures { BottomsFrom result (nodes_of entries.now) }
{
    for entry in entries {
        if entry.was_told() {
            return entry.serial();
        }
    }
    u64::MAX
}

/// A serial below which no bottom is, where this is one for all but the parent of a node that left. Cost: as that of `lowered`, or
/// the number of nodes before the first one that was told, where the lowest one left.
pub(crate) fn lowest_left(entries: &[Entry], lowest: u64, serial: u64, parent: u64) -> u64
    requires { Ascends 0 (serials_of (nodes_of entries.now)) }
    ensures { BottomsBut parent lowest (nodes_of entries.now) → BottomsFrom result (nodes_of entries.now) }
{
    if serial == lowest {
        first_told(entries)
    } else {
        lowered_by(entries, lowest, parent)
    }
}
