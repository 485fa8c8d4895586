//! The summary of a run over a generated script.
ghost use Rattle.std.specs.Prelude.{◌≡◌, ◌==◌, ◌&&◌, not, ◌++◌, IfOk, OnOk, map};
ghost use Rattle.pnp_model.specs.Cores.{node_at};
ghost use Rattle.pnp_model.specs.Endings.{print_order};
ghost use Rattle.pnp_model.specs.Trees.{is_up};
ghost use Rattle.devnode_tree.specs.Rows.{row_of};
ghost use Rattle.pnp_machine.specs.Managers.{IsOfRun};
ghost use Rattle.pnp_cli.specs.Summaries.{started, conflicts, has_conflict, number_line, summary_of};

use crate::tally::Tally;
use device_ids::WantOfMemory;
use devnode_tree::{PrintRow, Tree};
use driver_rack::Drivers;
use notify_front::Front;
use pnp_labels::{Problem, push_decimal};
use std::alloc::Global;

/// Whether the node of a serial is Started and not the root.
fn is_device_up(tree: &Tree, serial: u64) -> bool
    ensures { result ≡ (not (serial == 0) && is_up (node_at serial tree.now.nodes)) }
{
    serial != 0 && tree.is_up(serial)
}

/// Whether the node of a serial has problem 12.
fn has_conflict(tree: &Tree, serial: u64) -> bool
    ensures { result ≡ has_conflict (node_at serial tree.now.nodes) }
{
    match tree.node(serial) {
        Some(node) => node.problem == Some(Problem::NormalConflict),
        None => false,
    }
}

/// How many devices are Started, without the root, of the rows of the tree.
fn started<R: Drivers>(front: &Front<R>, rows: &[PrintRow]) -> u64
    requires run { IsOfRun front.now.manager.state }
    requires rows { rows.now ≡ map row_of (print_order front.now.manager.state.core.nodes) }
    ensures { result ≡ started front.now.manager.state.core.nodes }
{
    let tree = front.tree();
    let mut count = 0u64;
    for row in rows {
        if is_device_up(tree, row.serial) {
            count += 1;
        }
    }
    count
}

/// How many devices have problem 12, of the rows of the tree.
fn conflicts<R: Drivers>(front: &Front<R>, rows: &[PrintRow]) -> u64
    requires run { IsOfRun front.now.manager.state }
    requires rows { rows.now ≡ map row_of (print_order front.now.manager.state.core.nodes) }
    ensures { result ≡ conflicts front.now.manager.state.core.nodes }
{
    let tree = front.tree();
    let mut count = 0u64;
    for row in rows {
        if has_conflict(tree, row.serial) {
            count += 1;
        }
    }
    count
}

/// Appends a line of these words and a number.
fn add_number(text: &mut Vec<u8>, words: &[u8], n: u64) -> Result<(), WantOfMemory>
    ensures { OnOk result (text.new.items ≡ text.old.items ++ number_line words.now n) }
{
    text.extend_from_slice(words)?;
    push_decimal(text, n)?;
    text.push(b'\n')?;
    Ok(())
}

/// The summary of a run over so many devices, by what was counted of its labels.
pub fn summary<R: Drivers>(
    alloc: Global,
    front: &Front<R>,
    n: u64,
    tally: Tally,
) -> Result<Vec<u8>, WantOfMemory>
    requires { IsOfRun front.now.manager.state }
    ensures { IfOk result (λ text. text.items ≡ summary_of n tally.steps front.now.manager.state.core.nodes tally.moved) }
{
    let rows = front.tree().print_rows(alloc)?;
    let mut text = Vec::new(alloc);
    add_number(&mut text, b"devices ", n)?;
    add_number(&mut text, b"steps ", tally.steps)?;
    add_number(&mut text, b"started ", started(front, &rows))?;
    add_number(&mut text, b"problem12 ", conflicts(front, &rows))?;
    add_number(&mut text, b"moved ", tally.moved)?;
    Ok(text)
}
