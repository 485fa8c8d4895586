//! Notes on events that were refused: the cause in words, and what would go.
use crate::operations::op_word;
use device_ids::{TextList, WantOfMemory};
use devnode_tree::Tree;
use pnp_labels::{DevState, EventWord, Reason, minor_text, problem_text, state_text};
use resource_reqs::{Res, ResList};
use std::alloc::Global;
use why_facts::{AskedDriver, Facts, Lines, node_at, tell_names, tell_range};

/// The most paths and the most requests that are told.
const MOST: usize = 8;

/// A line of the script that was refused: its words, and the range that it reserves, if it does.
#[derive(Clone, Copy)]
pub struct RefusedLine<'a> {
    /// Its keyword.
    pub event: EventWord,
    /// All its words.
    pub words: &'a [&'a [u8]],
    /// The range that it reserves.
    pub range: Option<Res>,
}

/// A word of the line; nothing past the last.
fn word<'a>(line: &RefusedLine<'a>, at: usize) -> &'a [u8] {
    if at < line.words.len() {
        return line.words[at];
    }
    &[]
}

/// The path that the line names; of a relation the owner's.
fn path_word<'a>(line: &RefusedLine<'a>) -> &'a [u8] {
    match line.event {
        EventWord::Watch | EventWord::Unwatch | EventWord::Relate => word(line, 2),
        _ => word(line, 1),
    }
}

/// Paths of the tree, as far as they are told.
fn tell_paths(alloc: Global, tree: &Tree, lines: &mut Lines) -> Result<(), WantOfMemory> {
    lines.add(b"Paths of the tree: ")?;
    for at in 0..tree.len().min(MOST) {
        if let Some(node) = tree.get(at) {
            if at > 0 {
                lines.add(b", ")?;
            }
            lines.add(node.path.bytes())?;
        }
    }
    if tree.len() > MOST {
        lines.add(b", and ")?;
        lines.add_number(alloc, (tree.len() - MOST) as u64)?;
        lines.add(b" more")?;
    }
    lines.say(alloc, b".")
}

/// That the tree has no device of a path, where it has none; whether it has one.
fn tell_absent(
    alloc: Global,
    tree: &Tree,
    path: &[u8],
    lines: &mut Lines,
) -> Result<bool, WantOfMemory> {
    if node_at(alloc, tree, path)?.is_some() {
        return Ok(true);
    }
    lines.say_three(alloc, b"No device of the tree has the path ", path, b".")?;
    Ok(false)
}

/// `NoDevice` and `NoParent`.
fn on_no_device(
    alloc: Global,
    tree: &Tree,
    line: &RefusedLine,
    lines: &mut Lines,
) -> Result<(), WantOfMemory> {
    let path = path_word(line);
    match line.event {
        EventWord::Plug | EventWord::Pull | EventWord::Window => {
            lines.say_three(alloc, b"The world has no device ", path, b".")?;
        }
        EventWord::Relate => {
            tell_absent(alloc, tree, path, lines)?;
            tell_absent(alloc, tree, word(line, 3), lines)?;
        }
        _ => {
            if tell_absent(alloc, tree, path, lines)? {
                lines.say_two(
                    alloc,
                    path,
                    b" is in the world no more, and loses its drivers.",
                )?;
            }
        }
    }
    tell_paths(alloc, tree, lines)
}

/// That a device is not Started, where it is not.
fn tell_state(
    alloc: Global,
    tree: &Tree,
    path: &[u8],
    lines: &mut Lines,
) -> Result<(), WantOfMemory> {
    let Some(node) = node_at(alloc, tree, path)? else {
        return Ok(());
    };
    if node.state == DevState::Started {
        return Ok(());
    }
    lines.add_three(path, b" is ", state_text(node.state))?;
    if let Some(problem) = node.problem {
        lines.add_two(b" with the problem ", problem_text(problem))?;
    }
    lines.say(alloc, b", and this goes with a Started device alone.")
}

/// `NotStarted`.
fn on_not_started(
    alloc: Global,
    tree: &Tree,
    line: &RefusedLine,
    lines: &mut Lines,
) -> Result<(), WantOfMemory> {
    tell_state(alloc, tree, path_word(line), lines)?;
    if line.event == EventWord::Relate {
        tell_state(alloc, tree, word(line, 3), lines)?;
    }
    Ok(())
}

/// The requests of a path, or of all, that drivers pended and no line completed.
fn tell_pended(
    alloc: Global,
    pended: &[AskedDriver],
    path: Option<&[u8]>,
    lines: &mut Lines,
) -> Result<(), WantOfMemory> {
    let mut told = 0usize;
    for asked in pended {
        let is_meant = match path {
            None => true,
            Some(path) => path.eq_ignore_ascii_case(asked.path.bytes()),
        };
        if is_meant && told < MOST {
            told += 1;
            lines.add_three(b"The driver ", asked.driver.bytes(), b" of ")?;
            lines.add_three(asked.path.bytes(), b" pended ", minor_text(asked.minor))?;
            lines.add_three(b"; `complete ", asked.path.bytes(), b" ")?;
            lines.say_two(alloc, minor_text(asked.minor), b" ok` completes it.")?;
        }
    }
    Ok(())
}

/// `Busy`.
fn on_busy(alloc: Global, facts: &Facts, lines: &mut Lines) -> Result<(), WantOfMemory> {
    lines.add(b"The operation `")?;
    if let Some(op) = facts.operation {
        lines.add_two(op_word(op), b" ")?;
    }
    lines.add(&facts.target)?;
    lines.say(alloc, b"` runs. This goes once it has ended.")?;
    tell_pended(alloc, &facts.pended, None, lines)
}

/// `NoSuchRequest`.
fn on_no_request(
    alloc: Global,
    pended: &[AskedDriver],
    tree: &Tree,
    line: &RefusedLine,
    lines: &mut Lines,
) -> Result<(), WantOfMemory> {
    let path = path_word(line);
    if !tell_absent(alloc, tree, path, lines)? {
        return tell_paths(alloc, tree, lines);
    }
    lines.add_three(b"No ", word(line, 2), b" waits at ")?;
    lines.say_two(
        alloc,
        path,
        b": what a driver answers with `pend` waits until a line `complete`.",
    )?;
    tell_pended(alloc, pended, Some(path), lines)
}

/// `InUse`.
fn on_in_use(
    alloc: Global,
    reserved: &ResList,
    tree: &Tree,
    line: &RefusedLine,
    lines: &mut Lines,
) -> Result<(), WantOfMemory> {
    match &line.range {
        Some(range) => tell_range(alloc, reserved, tree, range, lines),
        None => Ok(()),
    }
}

/// `SameId`.
fn on_same_id(alloc: Global, line: &RefusedLine, lines: &mut Lines) -> Result<(), WantOfMemory> {
    lines.add(b"The world has a device of the path ")?;
    lines.add_three(word(line, 2), b"\\", word(line, 3))?;
    lines.say(
        alloc,
        b" already. Another INSTANCE makes another path, or `pull` takes that one out before.",
    )
}

/// `RackEmpty`, `NotTeachable` and `BookFull`.
fn on_driver(
    alloc: Global,
    reason: Reason,
    line: &RefusedLine,
    lines: &mut Lines,
) -> Result<(), WantOfMemory> {
    if reason == Reason::RackEmpty {
        lines.add_three(b"No ", word(line, 2), b" driver is left without a name.")?;
        return lines.say(alloc, b" Another kind goes, if one of it is left.");
    }
    lines.add_two(b"The driver ", word(line, 1))?;
    if reason == Reason::BookFull {
        return lines.say(alloc, b" has 64 rules, and these are the most.");
    }
    lines.say(
        alloc,
        b" is not scripted, and only a scripted one can be taught.",
    )
}

/// `SameName` and `NoDriver`.
fn on_name(
    alloc: Global,
    drivers: &TextList,
    reason: Reason,
    name: &[u8],
    lines: &mut Lines,
) -> Result<(), WantOfMemory> {
    if reason == Reason::SameName {
        lines.add_three(
            b"A driver has the name ",
            name,
            b" already, in any letters.",
        )?;
        return lines.say(alloc, b" Another name goes.");
    }
    lines.add_three(b"No driver has the name ", name, b". A line `driver ")?;
    lines.say_two(alloc, name, b" scripted` before it gives it one.")?;
    tell_names(alloc, drivers, lines)
}

/// `SameRelation`, `SelfRelation` and `RelationCycle`.
fn on_relation(
    alloc: Global,
    reason: Reason,
    line: &RefusedLine,
    lines: &mut Lines,
) -> Result<(), WantOfMemory> {
    let (owner, member) = (word(line, 2), word(line, 3));
    match reason {
        Reason::SelfRelation => lines.say(
            alloc,
            b"Owner and member are one device. Two devices can be related.",
        ),
        Reason::SameRelation => {
            lines.add_three(member, b" is a member of ", owner)?;
            lines.say_three(alloc, b" by ", word(line, 1), b" already.")
        }
        _ => {
            lines.add_three(owner, b" depends on ", member)?;
            lines.say(
                alloc,
                b": it stands below it or is a member of it, directly or through others. So the member cannot depend on the owner.",
            )
        }
    }
}

/// `SameWatch` and `NoWatch`.
fn on_client(
    alloc: Global,
    reason: Reason,
    line: &RefusedLine,
    lines: &mut Lines,
) -> Result<(), WantOfMemory> {
    let (client, path) = (word(line, 1), word(line, 2));
    lines.add_two(b"The client ", client)?;
    if reason == Reason::SameWatch {
        lines.add_three(b" is registered on ", path, b" already. `unwatch ")?;
        lines.add_three(client, b" ", path)?;
        return lines.say(alloc, b"` before it ends that.");
    }
    lines.say_three(
        alloc,
        b" is not registered on ",
        path,
        b". Its name is compared letter by letter.",
    )
}

/// The reasons that speak of a path alone.
fn on_path(
    alloc: Global,
    reason: Reason,
    path: &[u8],
    lines: &mut Lines,
) -> Result<(), WantOfMemory> {
    match reason {
        Reason::RootStays => { lines.say_two(alloc, path, b" is the root, which stays as it is.") }
        Reason::AlreadyDisabled => {
            lines.add_three(b"The path ", path, b" is disabled already. `enable ")?;
            lines.say_two(alloc, path, b"` ends that.")
        }
        Reason::NotDisabled => {
            lines.add_three(
                b"The path ",
                path,
                b" is not disabled. A device with another",
            )?;
            lines.add_three(
                b" problem than 22 is tried again by `disable ",
                path,
                b"` and",
            )?;
            lines.say_three(alloc, b" then `enable ", path, b"`.")
        }
        Reason::NoHandle => {
            lines.add_three(b"No handle to ", path, b" is open. `open ")?;
            lines.say_two(alloc, path, b"` opens one.")
        }
        Reason::HasChildren => {
            lines.add_two(b"A device stands below ", path)?;
            lines.say(alloc, b". A window is set before anything is below.")
        }
        Reason::SameWindow => {
            lines.say_two(
                alloc,
                path,
                b" has a window of this kind, and gets one of each at most.",
            )
        }
        _ => Ok(()),
    }
}

/// The cause of a refusal in words, and what would go, by the line that was refused.
pub fn on_refused(
    alloc: Global,
    facts: &Facts,
    tree: &Tree,
    reason: Reason,
    line: &RefusedLine,
    lines: &mut Lines,
) -> Result<(), WantOfMemory> {
    match reason {
        Reason::NoParent | Reason::NoDevice => on_no_device(alloc, tree, line, lines),
        Reason::SameId => on_same_id(alloc, line, lines),
        Reason::WorldFull => lines.say(
            alloc,
            b"The world has 4096 devices besides the root, and these are the most. `pull` makes room.",
        ),
        Reason::SameName | Reason::NoDriver => {
            on_name(alloc, &facts.drivers, reason, word(line, 1), lines)
        }
        Reason::RackEmpty | Reason::NotTeachable | Reason::BookFull => {
            on_driver(alloc, reason, line, lines)
        }
        Reason::Busy => on_busy(alloc, facts, lines),
        Reason::SelfRelation | Reason::SameRelation | Reason::RelationCycle => {
            on_relation(alloc, reason, line, lines)
        }
        Reason::NotStarted => on_not_started(alloc, tree, line, lines),
        Reason::InUse => on_in_use(alloc, &facts.reserved, tree, line, lines),
        Reason::NoSuchRequest => on_no_request(alloc, &facts.pended, tree, line, lines),
        Reason::SameWatch | Reason::NoWatch => on_client(alloc, reason, line, lines),
        Reason::RootStays
        | Reason::AlreadyDisabled
        | Reason::NotDisabled
        | Reason::NoHandle
        | Reason::HasChildren
        | Reason::SameWindow => on_path(alloc, reason, path_word(line), lines),
    }
}
