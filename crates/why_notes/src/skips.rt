//! Notes on tasks for which there was nothing to do.
use device_ids::WantOfMemory;
use devnode_tree::{Node, Tree};
use pnp_labels::{DevState, TaskKind, state_text};
use std::alloc::Global;
use why_facts::{Joined, Lines};

/// What the device of a node lacks for the task, where its state says it.
fn tell_state(
    alloc: Global,
    node: &Node,
    what: &[u8],
    lines: &mut Lines,
) -> Result<(), WantOfMemory> {
    lines.add_three(node.path.bytes(), b" is ", state_text(node.state))?;
    lines.say(alloc, what)
}

/// Why there was nothing to do for a device that is there.
fn tell_why(
    alloc: Global,
    task: TaskKind,
    node: &Node,
    lines: &mut Lines,
) -> Result<(), WantOfMemory> {
    let path = node.path.bytes();
    match task {
        TaskKind::List => tell_state(
            alloc,
            node,
            b", and only below a Started device is looked for others.",
            lines,
        ),
        TaskKind::Start if node.state == DevState::NoStack => {
            lines.say_two(alloc, path, b" is being started already.")
        }
        TaskKind::Start => tell_state(alloc, node, b": it has drivers already.", lines),
        TaskKind::Rebalance if node.state == DevState::NotStarted => {
            lines.say_two(alloc, path, b" is being started already.")
        }
        TaskKind::Rebalance => tell_state(alloc, node, b": it waits for resources no more.", lines),
        TaskKind::Disable => lines.say_two(alloc, path, b" is disabled already."),
        TaskKind::Surprise => lines.say_two(alloc, path, b" was told already that it has gone."),
        TaskKind::Finish => lines.say_two(
            alloc,
            path,
            b" still waits: a handle to it is open, or what depends on it waits.",
        ),
        TaskKind::Change if node.state == DevState::Started => {
            lines.say_two(alloc, path, b" is in the world no more.")
        }
        TaskKind::Change => tell_state(
            alloc,
            node,
            b", and only a Started device is changed.",
            lines,
        ),
        TaskKind::Eject => Ok(()),
    }
}

/// At `skip TASK SERIAL`: which device it is, and why there was nothing to do.
pub fn on_skip(
    alloc: Global,
    joined: &[Joined],
    tree: &Tree,
    task: TaskKind,
    serial: u64,
    lines: &mut Lines,
) -> Result<(), WantOfMemory> {
    if let Some(node) = tree.node(serial) {
        return tell_why(alloc, task, node, lines);
    }
    for one in joined {
        if one.serial == serial {
            return lines.say_two(alloc, one.path.bytes(), b" has left.");
        }
    }
    Ok(())
}
