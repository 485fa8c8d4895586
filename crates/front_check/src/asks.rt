//! The lines that an ask may have, one for each answer.
ghost use Rattle.std.specs.Prelude.{◌≡◌, ◌⊎◌, ◌++◌, ◌∷◌, [], Bool, false, IfOk};
ghost use Rattle.pnp_labels.specs.Texts.{label_line};
ghost use Rattle.pnp_model.specs.Walks.{shown_of};
ghost use Rattle.free_model.specs.Checks.{has_feed};
ghost use Rattle.trace_check.specs.Turns.{IfFront, NoneStands};

use crate::front::{begins_with, has_feed_inside};
use crate::lines::line_of;
use device_ids::{Text, WantOfMemory};
use device_stack::shown_of;
use pnp_labels::{Answer, Label, Minor};
use std::alloc::Global;

/// Whether the line of a label stands at the front of what is left, with its LF. The label is let go.
fn stands(alloc: Global, rest: &[u8], label: Label) -> Result<bool, WantOfMemory>
    ensures { IfOk result (λ stands. IfFront stands rest.now (label_line label ++ 10 ∷ [])) }
{
    let line = line_of(alloc, label)?;
    Ok(begins_with(rest, &line))
}

/// Whether the line of an ask of a request stands there, with this answer.
fn asked_stands(
    alloc: Global,
    rest: &[u8],
    minor: Minor,
    path: &Text,
    driver: &Text,
    answer: Answer,
) -> Result<bool, WantOfMemory>
    ensures { IfOk result (λ stands. IfFront stands rest.now (label_line (Label.Asked minor path.now driver.now (shown_of minor answer)) ++ 10 ∷ [])) }
{
    let path = path.copy(alloc)?;
    let driver = driver.copy(alloc)?;
    let shown = shown_of(minor, answer);
    stands(
        alloc,
        rest,
        Label::Asked {
            minor,
            path,
            driver,
            shown,
        },
    )
}

/// Whether the line of an ask of AddDevice stands there, with this answer.
fn add_stands(
    alloc: Global,
    rest: &[u8],
    path: &Text,
    driver: &Text,
    ok: bool,
) -> Result<bool, WantOfMemory>
    ensures { IfOk result (λ stands. IfFront stands rest.now (label_line (Label.Add path.now driver.now ok) ++ 10 ∷ [])) }
{
    let path = path.copy(alloc)?;
    let driver = driver.copy(alloc)?;
    stands(alloc, rest, Label::Add { path, driver, ok })
}

/// Whether a line of the ask of a request stands there, with one of the three answers.
fn any_asked_stands(
    alloc: Global,
    rest: &[u8],
    minor: Minor,
    path: &Text,
    driver: &Text,
) -> Result<bool, WantOfMemory>
    ensures { IfOk result (λ stands. stands ≡ false → (answer : Answer) → IfFront false rest.now (label_line (Label.Asked minor path.now driver.now (shown_of minor answer)) ++ 10 ∷ [])) }
{
    let ok = asked_stands(alloc, rest, minor, path, driver, Answer::Ok)?;
    let fail = asked_stands(alloc, rest, minor, path, driver, Answer::Fail)?;
    let pend = asked_stands(alloc, rest, minor, path, driver, Answer::Pend)?;
    Ok(ok || fail || pend)
}

/// Whether a line of the ask of AddDevice stands there, with one of the two answers.
fn any_add_stands(
    alloc: Global,
    rest: &[u8],
    path: &Text,
    driver: &Text,
) -> Result<bool, WantOfMemory>
    ensures { IfOk result (λ stands. stands ≡ false → (ok : Bool) → IfFront false rest.now (label_line (Label.Add path.now driver.now ok) ++ 10 ∷ [])) }
{
    let ok = add_stands(alloc, rest, path, driver, true)?;
    let fail = add_stands(alloc, rest, path, driver, false)?;
    Ok(ok || fail)
}

/// Whether a line of the ask of a label stands there, whatever it answers; no of a label that tells no ask.
fn any_stands(alloc: Global, rest: &[u8], label: &Label) -> Result<bool, WantOfMemory>
    ensures { IfOk result (λ stands. stands ≡ false → NoneStands label.now rest.now) }
{
    match label {
        Label::Asked {
            minor,
            path,
            driver,
            shown: _,
        } => any_asked_stands(alloc, rest, *minor, path, driver),
        Label::Add {
            path,
            driver,
            ok: _,
        } => any_add_stands(alloc, rest, path, driver),
        _ => Ok(false),
    }
}

/// Whether the line of a label, which does not stand there, could be read with another answer than it tells: it has an LF
/// inside, and a line of the same ask stands there.
pub(crate) fn could_be_other(
    alloc: Global,
    rest: &[u8],
    label: &Label,
    line: &[u8],
) -> Result<bool, WantOfMemory>
    requires { line.now ≡ label_line label.now ++ 10 ∷ [] }
    ensures { IfOk result (λ other. other ≡ false → (has_feed (label_line label.now) ≡ false) ⊎ NoneStands label.now rest.now) }
{
    if !has_feed_inside(line) {
        return Ok(false);
    }
    any_stands(alloc, rest, label)
}
