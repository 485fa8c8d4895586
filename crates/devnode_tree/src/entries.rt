ghost use Rattle.std.specs.Prelude.{◌≡◌, ◌<◌, ◌++◌, [], ◌∷◌, false, OnOk, OnErr, map, position, vec_len, vec_capacity};
ghost use Rattle.std.specs.List.{list_any, All};
ghost use Rattle.device_ids.specs.Folding.{folded, same};
ghost use Rattle.pnp_model.specs.Cores.{serials_of};
ghost use Rattle.pnp_model.specs.Keyed.{changed_first};
ghost use Rattle.devnode_tree.specs.Entries.{nodes_of, has_serial, with_child, without_child, lone};
ghost use Rattle.devnode_tree.specs.Trees.{Ascends};

use crate::births::Births;
use crate::entry::Entry;
use crate::node::Node;
use device_ids::{InstancePath, WantOfMemory};
use indexmap::IndexSet;

/// The place of the node with a serial, found by halves.
fn searched_place(entries: &[Entry], serial: u64) -> Option<usize>
    requires { Ascends 0 (serials_of (nodes_of entries.now)) }
    ensures { result ≡ position (has_serial serial) entries.now }
{
    entries
        .binary_search_by_key(&serial, |entry| entry.node.serial)
        .ok()
}

/// The place of the node with a serial, counted from the last node's: right while none behind it has
/// left, and else found by halves.
fn place_from_end(entries: &[Entry], serial: u64) -> Option<usize>
    requires { Ascends 0 (serials_of (nodes_of entries.now)) }
    ensures { result ≡ position (has_serial serial) entries.now }
{
    let last = entries.last()?;
    let behind = last.node.serial.saturating_sub(serial) as usize;
    let place = (entries.len() - 1).saturating_sub(behind);
    match entries.get(place) {
        Some(entry) if entry.node.serial == serial => Some(place),
        _ => searched_place(entries, serial),
    }
}

/// The place of the node with a serial: the serial itself, while no node before it has left.
pub(crate) fn place_of(entries: &[Entry], serial: u64) -> Option<usize>
    requires { Ascends 0 (serials_of (nodes_of entries.now)) }
    ensures { result ≡ position (has_serial serial) entries.now }
{
    match entries.get(serial as usize) {
        Some(entry) if entry.node.serial == serial => Some(serial as usize),
        _ => place_from_end(entries, serial),
    }
}

/// Notes a child beside its parent.
fn note_child(entries: &mut [Entry], parent: u64, serial: u64) -> Result<(), WantOfMemory>
    requires { Ascends 0 (serials_of (nodes_of entries.old)) }
    ensures noted { OnOk result (entries.new ≡ changed_first (has_serial parent) (with_child serial) entries.old) }
    ensures err { OnErr result (entries.new ≡ entries.old) }
{
    if let Some(place) = place_of(entries, parent) {
        entries[place].add_child(serial)?;
    }
    Ok(())
}

/// Takes a child from those of its parent.
pub(crate) fn forget_child(entries: &mut [Entry], parent: u64, serial: u64)
    requires ascends { Ascends 0 (serials_of (nodes_of entries.old)) }
    requires children { All (λ e. Ascends 0 e.children) entries.old }
    ensures { entries.new ≡ changed_first (has_serial parent) (without_child serial) entries.old }
{
    if let Some(place) = place_of(entries, parent) {
        entries[place].forget_child(serial);
    }
}

/// Notes the path and the birth number of a node that is to be the last, and the node beside its parent, and takes the room
/// for it.
fn note(
    paths: &mut IndexSet<InstancePath>,
    births: &mut Births,
    entries: &mut Vec<Entry>,
    node: &Node,
) -> Result<(), WantOfMemory>
    requires ascends { Ascends 0 (serials_of (nodes_of entries.old.items)) }
    requires new { list_any (same node.now.path) paths.old.keys ≡ false }
    ensures path { OnOk result (map folded paths.new.keys ≡ map folded paths.old.keys ++ folded node.now.path ∷ []) }
    ensures parent { OnOk result (entries.new.items ≡ changed_first (has_serial node.now.parent) (with_child node.now.serial) entries.old.items) }
    ensures room { OnOk result (vec_len entries.new < vec_capacity entries.new) }
    ensures err { OnErr result (paths.new.keys ≡ paths.old.keys) }
    ensures born { OnOk result (births.new ≡ births.old ++ node.now.born ∷ []) }
    ensures births_err { OnErr result (births.new ≡ births.old) }
    ensures entries_err { OnErr result (entries.new.items ≡ entries.old.items) }
{
    paths.reserve(1)?;
    entries.reserve(1)?;
    let key = node.path.copy(*entries.allocator())?;
    births.push(node.born)?;
    if let Err(want) = note_child(entries, node.parent, node.serial) {
        let last = births.len() - 1;
        births.remove(last);
        return Err(want);
    }
    let _ = paths.insert(key);
    Ok(())
}

/// Adds a node as the last, with its path and birth number, and notes it beside its parent.
pub(crate) fn add(
    paths: &mut IndexSet<InstancePath>,
    births: &mut Births,
    entries: &mut Vec<Entry>,
    node: Node,
) -> Result<(), WantOfMemory>
    requires ascends { Ascends 0 (serials_of (nodes_of entries.old.items)) }
    requires new { list_any (same node.path) paths.old.keys ≡ false }
    ensures path { OnOk result (map folded paths.new.keys ≡ map folded paths.old.keys ++ folded node.path ∷ []) }
    ensures entry { OnOk result (entries.new.items ≡ changed_first (has_serial node.parent) (with_child node.serial) entries.old.items ++ lone node ∷ []) }
    ensures err { OnErr result (paths.new.keys ≡ paths.old.keys) }
    ensures born { OnOk result (births.new ≡ births.old ++ node.born ∷ []) }
    ensures births_err { OnErr result (births.new ≡ births.old) }
    ensures entries_err { OnErr result (entries.new.items ≡ entries.old.items) }
{
    note(paths, births, entries, &node)?;
    let children = Vec::new(*entries.allocator());
    let _ = entries.push(Entry { node, children });
    Ok(())
}
