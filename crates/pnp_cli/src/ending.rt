//! The end of what is written for a script: the line of a bad line, if there is one, then the tree, the map and the requests that
//! are outstanding.
ghost use Rattle.std.specs.Prelude.{◌≡◌, ◌≤◌, ◌++◌, IfOk, OnOk, IsErrOf};
ghost use Rattle.pnp_io.specs.Outside.{Rose, Appends, AppendsFront};
ghost use Rattle.pnp_cli.specs.Outputs.{end_text, error_line};
ghost use Rattle.pnp_cli.specs.Pieces.{line_of_bad};

use crate::tell::write_lines;
use crate::turn::WriteError;
use device_ids::WantOfMemory;
use driver_rack::Drivers;
use notify_front::Front;
use pnp_io::Sink;
use pnp_labels::push_decimal;
use pnp_machine::EndParts;
use std::alloc::Global;

/// The line that tells of a bad line.
fn bad_line(alloc: Global, line: u64) -> Result<Vec<u8>, WantOfMemory>
    ensures { IfOk result (λ text. text.items ≡ error_line line) }
{
    let mut text = Vec::from_slice(alloc, b"script error line ")?;
    push_decimal(&mut text, line)?;
    text.push(b'\n')?;
    Ok(text)
}

/// The line of a bad line, if there is one.
fn bad_part(alloc: Global, bad: Option<u64>) -> Result<Vec<u8>, WantOfMemory>
    ensures { IfOk result (λ text. text.items ≡ line_of_bad bad) }
{
    match bad {
        Some(line) => bad_line(alloc, line),
        None => Ok(Vec::new(alloc)),
    }
}

/// Writes a text and what comes behind it, a part at a time, each in the place of the one before it.
fn write_parts<R: Drivers, K: Sink>(
    text: &mut Vec<u8>,
    parts: &mut EndParts<R>,
    sink: &mut K,
) -> Result<(), WriteError>
    ensures took { OnOk result (Appends (K.taken sink.old) (K.taken sink.new) (text.old.items ++ parts.old)) }
    ensures front { AppendsFront (K.taken sink.old) (K.taken sink.new) (text.old.items ++ parts.old) }
    ensures failed { IsErrOf result WriteError.WriteFault → Rose (K.faults sink.old) (K.faults sink.new) }
    ensures counts { K.faults sink.old ≤ K.faults sink.new }
{
    'parts: while parts.next_part(text)? {
        write_lines(sink, text)?;
    }
    write_lines(sink, text)?;
    Ok(())
}

/// Writes the line of a bad line, if there is one, and the end of the output.
pub fn write_end<R: Drivers, K: Sink>(
    alloc: Global,
    front: &Front<R>,
    bad: Option<u64>,
    sink: &mut K,
) -> Result<(), WriteError>
    ensures took { OnOk result (Appends (K.taken sink.old) (K.taken sink.new) (line_of_bad bad ++ end_text front.now.manager.state)) }
    ensures front { AppendsFront (K.taken sink.old) (K.taken sink.new) (line_of_bad bad ++ end_text front.now.manager.state) }
    ensures failed { IsErrOf result WriteError.WriteFault → Rose (K.faults sink.old) (K.faults sink.new) }
    ensures counts { K.faults sink.old ≤ K.faults sink.new }
{
    let mut text = bad_part(alloc, bad)?;
    let mut parts = front.end_parts(&mut text)?;
    write_parts(&mut text, &mut parts, sink)
}
