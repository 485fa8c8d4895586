//! Notes on clients that refuse, drivers that may not, and devices that wait.
use crate::operations::op_word;
use device_ids::{Text, WantOfMemory};
use pnp_labels::{Minor, OpKind, minor_text};
use std::alloc::Global;
use why_facts::Lines;

/// At `declined OP PATH CLIENT`: on which device the client is registered, and what lets the operation begin.
pub fn on_declined(
    alloc: Global,
    refused_on: &Option<Text>,
    op: OpKind,
    path: &Text,
    client: &Text,
    lines: &mut Lines,
) -> Result<(), WantOfMemory> {
    lines.add_two(b"The client ", client.bytes())?;
    let Some(device) = refused_on else {
        return lines.say(
            alloc,
            b" refused. No driver was asked, and nothing changed.",
        );
    };
    lines.add_three(b", registered on ", device.bytes(), b", refused. No driver")?;
    lines.add_three(
        b" was asked, and nothing changed. After `unwatch ",
        client.bytes(),
        b" ",
    )?;
    lines.add_three(device.bytes(), b"` another `", op_word(op))?;
    lines.say_three(alloc, b" ", path.bytes(), b"` does not ask it.")
}

/// At an answer `violation` of a driver that was asked.
pub fn on_violation(
    alloc: Global,
    minor: Minor,
    driver: &Text,
    lines: &mut Lines,
) -> Result<(), WantOfMemory> {
    lines.add_three(b"The driver ", driver.bytes(), b" failed ")?;
    lines.say_two(
        alloc,
        minor_text(minor),
        b", which a driver may not: it is taken for ok.",
    )
}

/// At `event complete ..` that shows `violation`.
pub fn on_completed_violation(alloc: Global, lines: &mut Lines) -> Result<(), WantOfMemory> {
    lines.say(
        alloc,
        b"This request may not be failed: it is taken for ok.",
    )
}

/// Whether a handle to a device of the path is open.
fn is_open(handles: &[Text], path: &Text) -> bool {
    for open in handles {
        if open.same(path) {
            return true;
        }
    }
    false
}

/// At `waits PATH`: why the device keeps its drivers, and when it loses them.
pub fn on_waits(
    alloc: Global,
    handles: &[Text],
    path: &Text,
    lines: &mut Lines,
) -> Result<(), WantOfMemory> {
    if is_open(handles, path) {
        lines.add_three(b"A handle to ", path.bytes(), b" is open. Once `close ")?;
        return lines.say_two(
            alloc,
            path.bytes(),
            b"` closed the last one, a `finish` removes its drivers.",
        );
    }
    lines.say_two(
        alloc,
        path.bytes(),
        b" has no open handle. A device that depends on it waits, and so it keeps its drivers too.",
    )
}
