ghost use Rattle.std.specs.Prelude.{◌≡◌, ◌<◌, List, ℕ, IfOk, OnOk, true};
ghost use Rattle.script_reader.specs.Reading.{Reading, HasRead, give_all};
ghost use Rattle.script_reader.specs.declared.line.Line.{Line};
ghost use Rattle.script_reader.specs.declared.line.Script.{Script};
ghost use Rattle.script_reader.specs.Script.{trace};
ghost use Rattle.script_reader.specs.Whole.{trace_of, Settles};

use crate::line::{Line, Script, ScriptEnd};
use crate::next::Next;
use crate::reader::Reader;
use device_ids::WantOfMemory;
use std::alloc::Global;

/// The bytes that are fed at a time.
const PIECE: usize = 4096;

/// Appends the events that the bytes fed so far still give; how the script ends, where that is decided.
fn take_events(
    reader: &mut Reader,
    lines: &mut Vec<Line>,
) -> Result<Option<ScriptEnd>, WantOfMemory>
    ensures reads { OnOk result ((all : List ℕ)
        → HasRead all lines.old.items reader.old → HasRead all lines.new.items reader.new) }
    ensures settles { IfOk result (λ ends. Settles ends reader.new) }
    ensures finished { reader.new.finished ≡ reader.old.finished }
    ensures fed { reader.new.fed ≡ reader.old.fed }
{
    'events: loop {
        match reader.next_event()? {
            Next::Event(event) => {
                let line = reader.line();
                lines.push(Line { line, event })?;
            }
            Next::NeedMore => return Ok(None),
            Next::End => return Ok(Some(ScriptEnd::End)),
            Next::Bad { line } => return Ok(Some(ScriptEnd::Bad { line })),
        }
    }
}

/// The events of a script that is fed in pieces of so many bytes, each event with the number of its line, and how
/// the script ends: the same for every size. What stands behind the first bad line is not read. Besides the
/// events it keeps at most a line and a piece. Condition: the size is not 0. Cost: the length, where the
/// size is 4,096 or more. This project's own.
pub fn read_pieces(alloc: Global, script: &[u8], size: usize) -> Result<Script, WantOfMemory>
    requires { 0 < size }
    ensures { IfOk result (λ read. trace_of read ≡ trace true 0 script.now) }
{
    let mut reader = Reader::new(alloc);
    let mut lines = Vec::new(alloc);
    let mut rest = script;
    while !rest.is_empty() {
        let (piece, more) = rest.split_at(size.min(rest.len()));
        reader.feed(piece)?;
        if let Some(ends) = take_events(&mut reader, &mut lines)? {
            return Ok(Script { lines, ends });
        }
        rest = more;
    }
    reader.finish();
    let ends = take_events(&mut reader, &mut lines)?.unwrap();
    Ok(Script { lines, ends })
}

/// The events of a script, each with the number of its line, and how the script ends. Cost: its length. This
/// project's own.
pub fn read_events(alloc: Global, script: &[u8]) -> Result<Script, WantOfMemory>
    ensures { IfOk result (λ read. trace_of read ≡ trace true 0 script.now) }
{
    read_pieces(alloc, script, PIECE)
}

/// What was fed gives the events that were given, and then what the rest gives, in whatever pieces it came; and
/// the same bytes have one reading.
#[tactic(auto, using(crate::proofs::Feeding::has_read_whole, crate::proofs::OneReading::one_reading))]
pub fn pieces_do_not_matter()
    ensures fed { (all : List ℕ) (events : List Line) (r : Reading) → HasRead all events r
        → trace r.finished 0 all ≡ give_all events (trace r.finished r.passed r.rest) }
    ensures one { (all : List ℕ) (s t : Script) → trace_of s ≡ trace true 0 all → trace_of t ≡ trace true 0 all
        → (s.lines.items ≡ t.lines.items) × (s.ends ≡ t.ends) }
{}
