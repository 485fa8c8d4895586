//! The end of an output: what is due, and what stands in the trace.
ghost use Rattle.std.specs.Prelude.{◌≡◌, ◌+◌, ◌<◌, ◌≤◌, ◌^◌, ◌++◌, ◌∷◌, [], List, IfOk, length};
ghost use Rattle.pnp_labels.specs.Texts.{Text};
ghost use Rattle.pnp_model.specs.Endings.{joined};
ghost use Rattle.pnp_model.specs.Records.{Settings};
ghost use Rattle.free_model.specs.Checks.{bad_line};
ghost use Rattle.front_check.specs.FrontChecks.{Ends};
ghost use Rattle.trace_check.specs.Letters.{lines_alike};
ghost use Rattle.front_check.specs.Turns.{Tells};

use device_ids::WantOfMemory;
use pnp_labels::decimal;
use std::alloc::Global;
use trace_check::Checked;

/// The line that tells of a bad line, with its LF. Cost: its length.
pub(crate) fn bad_line(alloc: Global, number: u64) -> Result<Vec<u8>, WantOfMemory>
    ensures { IfOk result (λ line. line.items ≡ bad_line number ++ 10 ∷ []) }
{
    let mut line = Vec::from_slice(alloc, b"script error line ")?;
    line.extend_from_slice(decimal(alloc, number)?.as_bytes())?;
    line.push(b'\n')?;
    Ok(line)
}

/// How many LFs are in the front that both have. Cost: the length of that front.
fn lines_alike(due: &[u8], rest: &[u8]) -> u64
    ensures value { result ≡ lines_alike due.now rest.now }
    ensures few { result ≤ length rest.now }
{
    let mut lines = 0;
    let mut at = 0;
    while at < due.len() && at < rest.len() && due[at] == rest[at] {
        if due[at] == b'\n' {
            lines += 1;
        }
        at += 1;
    }
    lines
}

/// The verdict where these bytes are due, after so many lines. Cost: the bytes of what is due.
pub(crate) fn held_against(due: &[u8], rest: &[u8], lines: u64) -> Checked
    requires room { lines + length rest.now < 2 ^ 63 }
    ensures { (told : Settings) (texts : List Text) → due.now ≡ joined texts → Tells result told (Ends due.now) rest.now lines }
{
    if due == rest {
        return Checked::Yes;
    }
    Checked::No {
        line: lines + lines_alike(due, rest) + 1,
    }
}
