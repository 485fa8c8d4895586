//! Notes on which driver was chosen, and why none was.
use crate::lines::Lines;
use crate::matches::{Match, best_after, best_of, line_of, matches};
use crate::sources::Sources;
use crate::texts::{ids_text, inf_text, node_of, rank_text};
use crate::ties::add_tie;
use crate::unread::tell_unread;
use device_ids::{IdList, Text, TextList, WantOfMemory};
use devnode_tree::{Node, Tree};
use inf_reader::ModelLine;
use inf_sections::InfPlaces;
use std::alloc::Global;

/// The most lines that were passed over and are told.
const MOST_OTHERS: usize = 4;

/// The most names of drivers that are told.
const MOST_NAMES: u64 = 16;

/// The most drivers of a device.
const MOST_DRIVERS: u64 = 16;

/// The section in which a line stands, if that is known.
fn add_section(places: &[InfPlaces], found: &Match, lines: &mut Lines) -> Result<(), WantOfMemory> {
    let Some(places) = places.get(found.inf as usize) else {
        return Ok(());
    };
    match places.section_of(found.line) {
        Some(name) => lines.add_three(b" in [", name, b"]"),
        None => Ok(()),
    }
}

/// Where a line stands: its number, its INF, the name of that, and the section.
fn add_place(
    alloc: Global,
    sources: &Sources,
    found: &Match,
    lines: &mut Lines,
) -> Result<(), WantOfMemory> {
    lines.add(b"line ")?;
    lines.add_number(alloc, found.line as u64)?;
    lines.add(b" of ")?;
    lines.add(&inf_text(alloc, &sources.names, found.inf)?)?;
    add_section(&sources.places, found, lines)
}

/// Which ID of the line agrees with which of the device.
fn add_ids(
    alloc: Global,
    found: &Match,
    line: &ModelLine,
    lines: &mut Lines,
) -> Result<(), WantOfMemory> {
    if found.line_at < line.ids.len() {
        lines.add(line.ids.get(found.line_at).bytes())?;
    }
    if found.hardware {
        lines.add(b" is hardware ID ")?;
    } else {
        lines.add(b" is compatible ID ")?;
    }
    lines.add_number(alloc, found.device_at.saturating_add(1))?;
    lines.add(b" of the device and ")?;
    if found.line_at == 0 {
        return lines.add(b"the hardware ID of the line");
    }
    lines.add(b"a compatible ID of the line")
}

/// The services and filters of a line, from the bottom to the top.
fn stack_text(alloc: Global, line: &ModelLine) -> Result<Vec<u8>, WantOfMemory> {
    let mut text = Vec::new(alloc);
    add_stack(&mut text, line)?;
    Ok(text)
}

/// The services and filters of a line are added to a text, from the bottom to the top.
fn add_stack(text: &mut Vec<u8>, line: &ModelLine) -> Result<(), WantOfMemory> {
    add_names(text, &line.lower)?;
    if let Some(service) = &line.service {
        add_name(text, service)?;
    }
    add_names(text, &line.upper)
}

fn add_name(text: &mut Vec<u8>, name: &Text) -> Result<(), WantOfMemory> {
    if !text.is_empty() {
        text.extend_from_slice(b", ")?;
    }
    text.extend_from_slice(name.bytes())
}

fn add_names(text: &mut Vec<u8>, names: &TextList) -> Result<(), WantOfMemory> {
    for at in 0..names.len() {
        add_name(text, names.get(at))?;
    }
    Ok(())
}

/// The rank of the line that was taken.
fn tell_rank(alloc: Global, found: &Match, lines: &mut Lines) -> Result<(), WantOfMemory> {
    let rank = rank_text(alloc, found.rank)?;
    lines.say_three(
        alloc,
        b", and with it the rank ",
        &rank,
        b"; less is better.",
    )
}

/// What the line that was taken scores, and which drivers it names beside the service.
fn tell_score(
    alloc: Global,
    found: &Match,
    line: &ModelLine,
    lines: &mut Lines,
) -> Result<(), WantOfMemory> {
    lines.add(b"The score of the line is ")?;
    lines.add_number(alloc, line.score as u64)?;
    tell_rank(alloc, found, lines)?;
    if line.lower.len() == 0 && line.upper.len() == 0 {
        return Ok(());
    }
    let stack = stack_text(alloc, line)?;
    lines.say_three(
        alloc,
        b"Its drivers from the bottom to the top: ",
        &stack,
        b".",
    )
}

/// The line that was taken.
fn tell_taken(
    alloc: Global,
    sources: &Sources,
    found: &Match,
    lines: &mut Lines,
) -> Result<(), WantOfMemory> {
    let Some(line) = line_of(&sources.infs, found) else {
        return Ok(());
    };
    lines.add(b"The driver comes from ")?;
    add_place(alloc, sources, found, lines)?;
    lines.add(b": ")?;
    add_ids(alloc, found, line, lines)?;
    lines.say(alloc, b".")?;
    tell_score(alloc, found, line, lines)
}

/// A line that was passed over, and at the same rank why.
fn tell_passed(
    alloc: Global,
    sources: &Sources,
    found: &Match,
    taken: &Match,
    lines: &mut Lines,
) -> Result<(), WantOfMemory> {
    let Some(line) = line_of(&sources.infs, found) else {
        return Ok(());
    };
    lines.add(b"Passed over: ")?;
    add_place(alloc, sources, found, lines)?;
    lines.add_three(b", rank ", &rank_text(alloc, found.rank)?, b": ")?;
    add_ids(alloc, found, line, lines)?;
    add_tie(alloc, found, taken, lines)?;
    lines.say(alloc, b".")
}

/// How many lines more were passed over.
fn tell_left(alloc: Global, left: usize, lines: &mut Lines) -> Result<(), WantOfMemory> {
    if left == 0 {
        return Ok(());
    }
    lines.add(b"Passed over: ")?;
    lines.add_number(alloc, left as u64)?;
    lines.say(alloc, b" more.")
}

/// The lines behind the one that was taken, in their order.
fn tell_others(
    alloc: Global,
    sources: &Sources,
    all: &[Match],
    taken: Match,
    lines: &mut Lines,
) -> Result<(), WantOfMemory> {
    let mut last = taken;
    for _ in 0..MOST_OTHERS {
        let Some(next) = best_after(all, Some(last)) else {
            return Ok(());
        };
        tell_passed(alloc, sources, &next, &taken, lines)?;
        last = next;
    }
    tell_left(alloc, all.len().saturating_sub(MOST_OTHERS + 1), lines)
}

/// The line that was taken of those that match, and the others.
fn tell_matches(
    alloc: Global,
    sources: &Sources,
    all: &[Match],
    lines: &mut Lines,
) -> Result<(), WantOfMemory> {
    let Some(taken) = best_after(all, None) else {
        return Ok(());
    };
    tell_taken(alloc, sources, &taken, lines)?;
    tell_others(alloc, sources, all, taken, lines)
}

/// At `install`: by which line, ID and rank, and which other lines match. Cost: all IDs of all INFs. This project's own.
pub fn on_install(
    alloc: Global,
    sources: &Sources,
    tree: &Tree,
    path: &Text,
    lines: &mut Lines,
) -> Result<(), WantOfMemory> {
    let Some(node) = node_of(alloc, tree, path)? else {
        return Ok(());
    };
    let all = matches(alloc, &sources.infs, node)?;
    tell_matches(alloc, sources, &all, lines)?;
    tell_unread(alloc, sources, node, lines)
}

/// The IDs of a list, behind what they are.
fn tell_id_list(
    alloc: Global,
    what: &[u8],
    ids: &IdList,
    lines: &mut Lines,
) -> Result<(), WantOfMemory> {
    let text = ids_text(alloc, ids)?;
    lines.say_three(alloc, what, &text, b".")
}

/// The IDs of a device.
fn tell_ids(alloc: Global, node: &Node, lines: &mut Lines) -> Result<(), WantOfMemory> {
    tell_id_list(alloc, b"Its hardware IDs: ", &node.hw, lines)?;
    tell_id_list(alloc, b"Its compatible IDs: ", &node.compat, lines)
}

/// That an INF has no models line.
fn tell_empty_inf(
    alloc: Global,
    names: &TextList,
    inf: u64,
    lines: &mut Lines,
) -> Result<(), WantOfMemory> {
    let name = inf_text(alloc, names, inf)?;
    lines.say_two(
        alloc,
        &name,
        b" has no models line: the section that [Manufacturer] names for this system is not there, or is empty.",
    )
}

/// The INFs that have no models line.
fn tell_empty_infs(
    alloc: Global,
    sources: &Sources,
    lines: &mut Lines,
) -> Result<(), WantOfMemory> {
    if sources.infs.is_empty() {
        return lines.say(alloc, b"No INF was given.");
    }
    for at in 0..sources.infs.len() {
        if sources.infs[at].lines.len() == 0 {
            tell_empty_inf(alloc, &sources.names, at as u64, lines)?;
        }
    }
    Ok(())
}

/// That a line names no driver, or too many.
fn tell_unfit_stack(
    alloc: Global,
    line: &ModelLine,
    lines: &mut Lines,
) -> Result<(), WantOfMemory> {
    if line.service.is_none() {
        return lines.say(
            alloc,
            b"But it names no driver: the section of its name with .Services at the end is not there, or has no AddService whose flags have the bit 2 and whose name is not empty. bin/pnplint tells which.",
        );
    }
    let count = line
        .lower
        .len()
        .saturating_add(line.upper.len())
        .saturating_add(1);
    if count > MOST_DRIVERS {
        lines.add(b"But it names ")?;
        lines.add_number(alloc, count)?;
        return lines.say(alloc, b" drivers, and a device has at most 16.");
    }
    Ok(())
}

/// Why the best line gives no driver.
fn tell_no_service(
    alloc: Global,
    sources: &Sources,
    found: &Match,
    lines: &mut Lines,
) -> Result<(), WantOfMemory> {
    let Some(line) = line_of(&sources.infs, found) else {
        return Ok(());
    };
    lines.add(b"The best line is ")?;
    add_place(alloc, sources, found, lines)?;
    lines.add(b": ")?;
    add_ids(alloc, found, line, lines)?;
    lines.say(alloc, b".")?;
    tell_unfit_stack(alloc, line, lines)
}

/// That no line matches, and which IDs were tried.
fn tell_no_line(
    alloc: Global,
    sources: &Sources,
    node: &Node,
    lines: &mut Lines,
) -> Result<(), WantOfMemory> {
    lines.say(
        alloc,
        b"No line of any INF has one of the IDs of the device.",
    )?;
    tell_ids(alloc, node, lines)?;
    tell_empty_infs(alloc, sources, lines)?;
    tell_unread(alloc, sources, node, lines)
}

/// At `problem P 28`: which IDs were tried, and which of the causes it is. Cost: all IDs of all INFs. This project's own.
pub fn on_no_driver(
    alloc: Global,
    sources: &Sources,
    tree: &Tree,
    path: &Text,
    lines: &mut Lines,
) -> Result<(), WantOfMemory> {
    let Some(node) = node_of(alloc, tree, path)? else {
        return Ok(());
    };
    let Some(best) = best_of(alloc, &sources.infs, node)? else {
        return tell_no_line(alloc, sources, node, lines);
    };
    tell_no_service(alloc, sources, &best, lines)?;
    tell_ids(alloc, node, lines)?;
    tell_unread(alloc, sources, node, lines)
}

/// Whether a driver has the name.
fn is_named(drivers: &TextList, name: &Text) -> bool {
    for at in 0..drivers.len() {
        if drivers.get(at).same(name) {
            return true;
        }
    }
    false
}

/// Says that no driver has a name, where none has it.
fn tell_missing(
    alloc: Global,
    drivers: &TextList,
    what: &[u8],
    name: &Text,
    lines: &mut Lines,
) -> Result<(), WantOfMemory> {
    if is_named(drivers, name) {
        return Ok(());
    }
    lines.add_three(
        b"No driver has the name ",
        name.bytes(),
        b", which the INF gives as ",
    )?;
    lines.add_three(what, b". A line `driver ", name.bytes())?;
    lines.say(alloc, b" KIND` before the device names one.")
}

fn tell_all_missing(
    alloc: Global,
    drivers: &TextList,
    what: &[u8],
    names: &TextList,
    lines: &mut Lines,
) -> Result<(), WantOfMemory> {
    for at in 0..names.len() {
        tell_missing(alloc, drivers, what, names.get(at), lines)?;
    }
    Ok(())
}

/// Says which of the names that a line gives no driver has.
fn tell_line_missing(
    alloc: Global,
    drivers: &TextList,
    line: &ModelLine,
    lines: &mut Lines,
) -> Result<(), WantOfMemory> {
    tell_all_missing(alloc, drivers, b"a lower filter", &line.lower, lines)?;
    if let Some(service) = &line.service {
        tell_missing(alloc, drivers, b"the service", service, lines)?;
    }
    tell_all_missing(alloc, drivers, b"an upper filter", &line.upper, lines)
}

/// The names that drivers have, 16 at most. This project's own.
pub fn tell_names(
    alloc: Global,
    drivers: &TextList,
    lines: &mut Lines,
) -> Result<(), WantOfMemory> {
    let count = drivers.len();
    if count == 0 {
        return lines.say(alloc, b"No driver has a name yet.");
    }
    lines.add(b"Names that drivers have: ")?;
    for at in 0..count.min(MOST_NAMES) {
        if at > 0 {
            lines.add(b", ")?;
        }
        lines.add(drivers.get(at).bytes())?;
    }
    if count > MOST_NAMES {
        lines.add(b", and ")?;
        lines.add_number(alloc, count - MOST_NAMES)?;
        lines.add(b" more")?;
    }
    lines.say(alloc, b".")
}

/// At `problem P 39`: the names that no driver has. Cost: all IDs of all INFs, and all names. This project's own.
pub fn on_not_loaded(
    alloc: Global,
    sources: &Sources,
    drivers: &TextList,
    tree: &Tree,
    path: &Text,
    lines: &mut Lines,
) -> Result<(), WantOfMemory> {
    let Some(node) = node_of(alloc, tree, path)? else {
        return Ok(());
    };
    let Some(best) = best_of(alloc, &sources.infs, node)? else {
        return Ok(());
    };
    let Some(line) = line_of(&sources.infs, &best) else {
        return Ok(());
    };
    lines.add(b"The best line is ")?;
    add_place(alloc, sources, &best, lines)?;
    lines.say(alloc, b".")?;
    tell_line_missing(alloc, drivers, line, lines)?;
    tell_names(alloc, drivers, lines)
}
