//! A script of a family, by its number, without recursion.
ghost use Rattle.std.specs.Prelude.{◌≡◌, ◌+◌, ◌-◌, ◌<◌, ◌≤◌, ◌++◌, ◌∷◌, OnOk, IfOk, reverse};
ghost use Rattle.script_family.specs.Families.{Script};
ghost use Rattle.script_family.specs.Parts.{script_at};
ghost use Rattle.script_family.specs.Steps.{shape, size, Has};
ghost use Rattle.script_family.specs.Tasks.{Leads, load};
ghost use Rattle.script_family.specs.declared.making.Task.TheVariants as tasks;

use crate::pairs::Place;
use crate::parts::{Parts, Step};
use crate::weaving::weave;
use device_ids::WantOfMemory;
use std::alloc::Global;

/// What is still to be done.
#[derive(Clone, Copy)]
pub(crate) enum Task {
    /// The script of this number, among those of so many lines, of a part is to be appended.
    Make {
        part: usize,
        lines: usize,
        number: u64,
    },
    /// The last so many lines, of which so many are the first script's, are to be woven in this way.
    Weave {
        lines: usize,
        first: usize,
        way: u64,
    },
}

/// Puts the tasks of a script of two parts on the list, the first to be taken next.
fn push_both(
    todo: &mut Vec<Task>,
    lines: usize,
    first: usize,
    second: usize,
    place: Place,
) -> Result<(), WantOfMemory>
    requires { place.lines ≤ lines }
    ensures { OnOk result (reverse todo.new.items
        ≡ tasks.Make first place.lines place.first ∷ (tasks.Make second (lines - place.lines) place.second ∷ reverse todo.old.items)) }
{
    todo.push(Task::Make {
        part: second,
        lines: lines - place.lines,
        number: place.second,
    })?;
    todo.push(Task::Make {
        part: first,
        lines: place.lines,
        number: place.first,
    })?;
    Ok(())
}

/// Puts the tasks of a script of two woven parts on the list, the first to be taken next.
fn push_woven(
    todo: &mut Vec<Task>,
    lines: usize,
    first: usize,
    second: usize,
    place: Place,
) -> Result<(), WantOfMemory>
    requires { place.lines ≤ lines }
    ensures { OnOk result (reverse todo.new.items
        ≡ tasks.Make first place.lines place.first ∷ (tasks.Make second (lines - place.lines) place.second
        ∷ (tasks.Weave lines place.lines place.way ∷ reverse todo.old.items))) }
{
    todo.push(Task::Weave {
        lines,
        first: place.lines,
        way: place.way,
    })?;
    push_both(todo, lines, first, second, place)
}

/// Begins a script of a part: it is a line, or tasks.
#[tactic(auto, using(crate::proofs::Leading::less_nothing, crate::proofs::Leading::woven_more))]
fn make(
    parts: &Parts,
    todo: &mut Vec<Task>,
    out: &mut Vec<usize>,
    part: usize,
    lines: usize,
    number: u64,
) -> Result<(), WantOfMemory>
    requires { Has parts.now part lines number }
    ensures leads { OnOk result ((script : Script) → Leads parts.now (reverse todo.old.items) (out.old.items ++ script_at (shape parts.now part) lines number) script
        → Leads parts.now (reverse todo.new.items) out.new.items script) }
    ensures less { OnOk result (load parts.now (reverse todo.new.items) < size (shape parts.now part) + load parts.now (reverse todo.old.items)) }
{
    match parts.step(part, lines, number) {
        Step::Nothing => {}
        Step::Line { at } => out.push(at)?,
        Step::One { part, number } => todo.push(Task::Make {
            part,
            lines,
            number,
        })?,
        Step::Both {
            first,
            second,
            place,
        } => push_both(todo, lines, first, second, place)?,
        Step::Woven {
            first,
            second,
            place,
        } => push_woven(todo, lines, first, second, place)?,
    }
    Ok(())
}

/// The script of this number among those of so many lines of a part: where its lines begin. Condition: the part has it.
pub(crate) fn script_of(
    alloc: Global,
    parts: &Parts,
    part: usize,
    lines: usize,
    number: u64,
) -> Result<Vec<usize>, WantOfMemory>
    requires { Has parts.now part lines number }
    ensures { IfOk result (λ out. out.items ≡ script_at (shape parts.now part) lines number) }
{
    let mut out = Vec::new(alloc);
    let mut todo = Vec::new(alloc);
    todo.push(Task::Make {
        part,
        lines,
        number,
    })?;
    'tasks: while let Some(task) = todo.pop() {
        match task {
            Task::Make {
                part,
                lines,
                number,
            } => make(parts, &mut todo, &mut out, part, lines, number)?,
            Task::Weave { lines, first, way } => weave(alloc, parts, &mut out, lines, first, way)?,
        }
    }
    Ok(out)
}
