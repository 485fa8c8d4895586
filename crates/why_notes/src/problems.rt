//! What a problem means in words, and notes on a path that is disabled and on a driver that did not add a device.
use device_ids::{Text, WantOfMemory};
use label_words::problem_words;
use pnp_labels::{Problem, problem_text};
use std::alloc::Global;
use why_facts::{FailedAdd, Lines};

/// The first line of each note on a problem: what it means.
pub fn tell_meaning(
    alloc: Global,
    problem: Problem,
    lines: &mut Lines,
) -> Result<(), WantOfMemory> {
    lines.add_three(b"Problem ", problem_text(problem), b": ")?;
    lines.say_two(alloc, problem_words(problem), b".")
}

/// At `problem P 22`: what starts the device.
pub fn on_disabled(alloc: Global, path: &Text, lines: &mut Lines) -> Result<(), WantOfMemory> {
    lines.add_three(
        b"A line `disable ",
        path.bytes(),
        b"` did that, and `enable ",
    )?;
    lines.say_two(alloc, path.bytes(), b"` ends it.")
}

/// At `problem P 31`: the driver that did not add the device.
pub fn on_failed_add(
    alloc: Global,
    failed: &Option<FailedAdd>,
    path: &Text,
    lines: &mut Lines,
) -> Result<(), WantOfMemory> {
    match failed {
        Some(failed) if failed.path.same(path) => {
            lines.add_two(b"The driver ", failed.driver.bytes())?;
            lines.say(alloc, b" answered `add` with fail.")
        }
        _ => Ok(()),
    }
}
