//! Notes on who refused.
ghost use Rattle.std.specs.Prelude.{◌≡◌, None, option_copied};
ghost use Rattle.why_notes.specs.Refusing.{later, last_of};

use device_ids::{Text, WantOfMemory};
use devnode_tree::Tree;
use pnp_labels::{DevState, Minor, Shown, minor_text};
use std::alloc::Global;
use why_facts::{AskedDriver, Facts, Lines, node_of};

/// A driver was asked: what it answered is kept, where a note may want it.
pub fn keep_asked(
    alloc: Global,
    facts: &mut Facts,
    minor: Minor,
    path: &Text,
    driver: &Text,
    shown: Shown,
) -> Result<(), WantOfMemory> {
    let asked = AskedDriver {
        minor,
        path: path.copy(alloc)?,
        driver: driver.copy(alloc)?,
    };
    match shown {
        Shown::Pend => facts.pended.push(asked)?,
        Shown::Fail => facts.refused.push(asked)?,
        Shown::Ok | Shown::Violation => {}
    }
    Ok(())
}

/// The last refusal of a device's drivers.
fn last_of<'a>(refused: &'a [AskedDriver], path: &Text) -> Option<&'a AskedDriver>
    ensures { option_copied result ≡ last_of path.now refused.now }
{
    let mut last = None;
    for at in 0..refused.len() {
        last = later(last, &refused[at], path);
    }
    last
}

/// This one, if it is of the path, and else the one before.
fn later<'a>(
    last: Option<&'a AskedDriver>,
    asked: &'a AskedDriver,
    path: &Text,
) -> Option<&'a AskedDriver>
    ensures { option_copied result ≡ later path.now (option_copied last.entry) asked.now }
{
    if asked.path.same(path) {
        Some(asked)
    } else {
        last
    }
}

/// At `end .. veto Q`: the driver that refused and what it was asked; or that the device did by itself.
pub fn on_veto(
    alloc: Global,
    refused: &[AskedDriver],
    path: &Text,
    lines: &mut Lines,
) -> Result<(), WantOfMemory> {
    match last_of(refused, path) {
        Some(asked) => {
            lines.add_three(b"The driver ", asked.driver.bytes(), b" of ")?;
            lines.add_three(path.bytes(), b" failed ", minor_text(asked.minor))?;
            lines.say(alloc, b". All is as before.")
        },
        None => {
            lines.say_two(
                alloc,
                path.bytes(),
                b" refused without being asked: see the line `handles` above. All is as before.",
            )
        },
    }
}

/// At `problem P 10`: the driver that failed the start.
pub fn on_failed_start(
    alloc: Global,
    refused: &[AskedDriver],
    path: &Text,
    lines: &mut Lines,
) -> Result<(), WantOfMemory> {
    let Some(asked) = last_of(refused, path) else {
        return Ok(());
    };
    let minor = minor_text(asked.minor);
    lines.add_three(b"The driver ", asked.driver.bytes(), b" failed ")?;
    lines.say_two(alloc, minor, b".")
}

/// Whether a driver would not stop since the operation began.
fn has_stayer(refused: &[AskedDriver]) -> bool {
    for asked in refused {
        if asked.minor == Minor::QueryStop {
            return true;
        }
    }
    false
}

/// At a `nofit` of a rebalance in which nobody refused.
pub fn tell_agreed(
    alloc: Global,
    refused: &[AskedDriver],
    lines: &mut Lines,
) -> Result<(), WantOfMemory> {
    if has_stayer(refused) {
        return Ok(());
    }
    lines.say(
        alloc,
        b"No driver refused to stop, yet there are no places for this device and all that may move.",
    )
}

/// At a `nofit` or a `refused` of an operation: the drivers that would not stop.
pub fn tell_stayers(
    alloc: Global,
    refused: &[AskedDriver],
    lines: &mut Lines,
) -> Result<(), WantOfMemory> {
    for asked in refused {
        if asked.minor == Minor::QueryStop {
            lines.add_three(
                asked.path.bytes(),
                b" stays as it is: its driver ",
                asked.driver.bytes(),
            )?;
            lines.say(alloc, b" failed QUERY_STOP_DEVICE.")?;
        }
    }
    Ok(())
}

/// At `handles Q`: why the device refuses.
pub fn on_handles(
    alloc: Global,
    tree: &Tree,
    path: &Text,
    lines: &mut Lines,
) -> Result<(), WantOfMemory> {
    let Some(node) = node_of(alloc, tree, path)? else {
        return Ok(());
    };
    if node.state == DevState::SurpriseRemoved {
        return lines.say_two(
            alloc,
            path.bytes(),
            b" has gone and waits until its last handle is closed, or until what depends on it is finished.",
        );
    }
    lines.add_three(b"A handle to ", path.bytes(), b" is open. A line `close ")?;
    lines.say_two(alloc, path.bytes(), b"` closes one.")
}
