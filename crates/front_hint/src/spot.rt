//! Where a walk along a trace stands, and the next line.
ghost use Rattle.std.specs.Prelude.{◌≡◌, ◌≤◌, ◌+◌, ◌^◌, ◌++◌, ◌∷◌, [], true, IfOk, MatchOption, length};
ghost use Rattle.pnp_model.specs.Records.{Settings};
ghost use Rattle.notify_front.specs.Desks.{front_of, told_of};
ghost use Rattle.notify_front.specs.Fronts.{IsFrontQuiet};
ghost use Rattle.front_hint.specs.Spots.{HasStepped, IsFirst, IsMove, IsOf, IsReady, place};

use crate::rest::rest_move;
use device_ids::{WantOfMemory, split_once};
use free_front::FreeFront;
use pnp_labels::{Answer, label_line};
use script_reader::Reader;
use std::alloc::Global;

/// Where a walk stands.
#[derive(Drop)]
pub(crate) enum Spot {
    /// The front runs, and the reader has what is still to come of the script.
    Runs { run: FreeFront, reader: Reader },
    /// The output ends, and the bytes from here on are due.
    Ends { due: Vec<u8>, at: usize },
}

/// What may come next.
#[derive(Drop)]
pub(crate) enum Move {
    /// This line, which has its LF, is allowed, and it leads there.
    Line { line: Vec<u8>, spot: Spot },
    /// No line is allowed.
    Nothing,
}

/// A line with its LF.
fn with_feed(alloc: Global, line: &[u8]) -> Result<Vec<u8>, WantOfMemory>
    ensures { IfOk result (λ text. text.items ≡ line.now ++ 10 ∷ []) }
{
    let mut text = Vec::from_slice(alloc, line)?;
    text.push(b'\n')?;
    Ok(text)
}

/// The first line of what is due, or that none is. Cost: the length of that line.
pub(crate) fn end_move(alloc: Global, due: Vec<u8>, at: usize) -> Result<Move, WantOfMemory>
    requires within { at ≤ length due.items }
    ensures { IfOk result (λ next. IsFirst due.items at next) }
{
    let Some((front, _)) = split_once(&due[at..], b'\n') else {
        return Ok(Move::Nothing);
    };
    let line = with_feed(alloc, front)?;
    let next = at + line.len();
    Ok(Move::Line {
        line,
        spot: Spot::Ends { due, at: next },
    })
}

/// The step where all drivers that are asked answer so, and its line; none where no step is next.
fn step_line(
    alloc: Global,
    run: &mut FreeFront,
    answer: Answer,
) -> Result<Option<Vec<u8>>, WantOfMemory>
    ensures steps { IfOk result (λ line. MatchOption line (IsFrontQuiet (told_of run.old) (front_of run.old) × (front_of run.new ≡ front_of run.old))
        (λ line. HasStepped answer (told_of run.old) (front_of run.old) line.items (front_of run.new))) }
    ensures told { told_of run.new ≡ told_of run.old }
    ensures events { run.new.manager.events ≡ run.old.manager.events }
{
    let Some(label) = run.step(answer)? else {
        return Ok(None);
    };
    let line = label_line(alloc, &label)?;
    Ok(Some(line))
}

/// The line of the step that is next; or, where none is, of what the script gives.
fn run_move(
    alloc: Global,
    run: FreeFront,
    reader: Reader,
    answer: Answer,
) -> Result<Move, WantOfMemory>
    requires finished { reader.finished ≡ true }
    requires events { run.manager.events + length reader.rest ≤ 2 ^ 24 }
    ensures { IfOk result (λ next. IsMove answer (told_of run) (place (Spot.Runs run reader)) next) }
{
    let mut run = run;
    match step_line(alloc, &mut run, answer) {
        Ok(Some(line)) => Ok(Move::Line {
            line,
            spot: Spot::Runs { run, reader },
        }),
        Ok(None) => rest_move(alloc, run, reader, answer),
        Err(refused) => {
            drop(run);
            Err(refused)
        }
    }
}

/// The next line where drivers that are asked answer so, and where it leads. Cost: that of the step or event.
pub(crate) fn move_on(alloc: Global, spot: Spot, answer: Answer) -> Result<Move, WantOfMemory>
    requires ready { IsReady spot }
    ensures { IfOk result (λ next. (told : Settings) → IsOf told spot → IsMove answer told (place spot) next) }
{
    match spot {
        Spot::Runs { run, reader } => run_move(alloc, run, reader, answer),
        Spot::Ends { due, at } => end_move(alloc, due, at),
    }
}
