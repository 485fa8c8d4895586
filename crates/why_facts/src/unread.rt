//! Models lines that would match a device and stand in sections that are not read.
use crate::lines::Lines;
use crate::sources::Sources;
use crate::texts::inf_text;
use device_ids::{IdList, TextList, WantOfMemory};
use devnode_tree::Node;
use inf_sections::UnreadLine;
use std::alloc::Global;

/// The most lines that are told.
const MOST_LINES: usize = 4;

/// Whether an ID is one of these, in any letters.
fn is_among(ids: &IdList, id: &[u8]) -> bool {
    for at in 0..ids.len() {
        if !id.is_empty() && id.eq_ignore_ascii_case(ids.get(at).bytes()) {
            return true;
        }
    }
    false
}

/// Whether a line has an ID of a device.
fn would_match(line: &UnreadLine, node: &Node) -> bool {
    for id in &line.ids {
        if is_among(&node.hw, id) || is_among(&node.compat, id) {
            return true;
        }
    }
    false
}

/// Says where a line stands that would match.
fn tell_line(
    alloc: Global,
    names: &TextList,
    inf: u64,
    line: &UnreadLine,
    lines: &mut Lines,
) -> Result<(), WantOfMemory> {
    lines.add(b"Line ")?;
    lines.add_number(alloc, line.line as u64)?;
    lines.add(b" of ")?;
    lines.add(&inf_text(alloc, names, inf)?)?;
    lines.add(b" would match, and stands in [")?;
    lines.add(&line.section)?;
    lines.say(alloc, b"], which is not read.")
}

/// Says how many more would match.
fn tell_more(alloc: Global, count: usize, lines: &mut Lines) -> Result<(), WantOfMemory> {
    if count <= MOST_LINES {
        return Ok(());
    }
    lines.add_number(alloc, (count - MOST_LINES) as u64)?;
    lines.say(alloc, b" more lines of such sections would match.")
}

/// Says which lines would match a device and stand in sections that are not read, four at most.
pub fn tell_unread(
    alloc: Global,
    sources: &Sources,
    node: &Node,
    lines: &mut Lines,
) -> Result<(), WantOfMemory> {
    let mut count = 0usize;
    for inf in 0..sources.places.len() {
        for line in &sources.places[inf].unread {
            if would_match(line, node) {
                if count < MOST_LINES {
                    tell_line(alloc, &sources.names, inf as u64, line, lines)?;
                }
                count = count.saturating_add(1);
            }
        }
    }
    tell_more(alloc, count, lines)
}
