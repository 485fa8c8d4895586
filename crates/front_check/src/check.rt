ghost use Rattle.std.specs.Prelude.{◌≡◌, ◌+◌, ◌<◌, ◌≤◌, ◌^◌, true, IfOk, length};
ghost use Rattle.script_reader.specs.Script as scripts;
ghost use Rattle.start_sequence.specs.Begins.{settings_of};
ghost use Rattle.notify_front.specs.Desks.{told_of};
ghost use Rattle.trace_check.specs.Verdicts.{verdict};
ghost use Rattle.front_check.specs.FrontChecks.{IsChecked, beginning};
ghost use Rattle.front_check.specs.Turns.{Tells, place};

use crate::turn::{Turn, take_line};
use device_ids::WantOfMemory;
use free_front::FreeFront;
use inf_reader::Inf;
use pnp_labels::DriverKind;
use script_reader::Reader;
use std::alloc::Global;
use trace_check::Checked;

/// Whether a trace is a run of what stands before the machine, for a script with clients and INFs, over drivers of these kinds without
/// names, whatever they answer; a client answers as it registered. `Yes` exactly where each of its lines is allowed after those before it
/// and nothing more is due, else `No` with the number of the first line that is not. Conditions: the script has at most 16,777,216
/// bytes, there are at most 64 INFs and fewer than 2^32 kinds, and the budget of a search is at most 1,000,000. This project's own.
/// Cost: that of the run, and the bytes of both.
pub fn check_front_trace(
    alloc: Global,
    script: &[u8],
    infs: Vec<Inf>,
    kinds: &[DriverKind],
    budget: u64,
    trace: &[u8],
) -> Result<Checked, WantOfMemory>
    requires script { length script.now ≤ 16777216 }
    requires infs { length infs.items ≤ 64 }
    requires kinds { length kinds.now < 2 ^ 32 }
    requires budget { budget ≤ 1000000 }
    ensures { IfOk result (λ checked. IsChecked (settings_of infs.items budget) (beginning kinds.now (scripts.trace true 0 script.now)) trace.now (verdict checked)) }
{
    let mut reader = Reader::new(alloc);
    reader.feed(script)?;
    reader.finish();
    let run = FreeFront::new(alloc, infs, kinds, budget)?;
    check_lines(alloc, run, reader, trace)
}

/// The verdict of a trace from where a run stands. Cost: that of the run, and the bytes of the trace and of the script.
fn check_lines(
    alloc: Global,
    run: FreeFront,
    reader: Reader,
    trace: &[u8],
) -> Result<Checked, WantOfMemory>
    requires finished { reader.finished ≡ true }
    requires events { run.manager.events + length reader.rest ≤ 2 ^ 24 }
    ensures { IfOk result (λ checked. Tells checked (told_of run) (place run reader) trace.now 0) }
{
    let mut run = run;
    let mut reader = reader;
    let mut rest = trace;
    let mut lines = 0;
    'lines: loop {
        match take_line(alloc, run, &mut reader, rest, lines)? {
            Turn::Line { run: next, count } => {
                run = next;
                rest = &rest[count..];
                lines += 1;
            }
            Turn::Over(checked) => return Ok(checked),
        }
    }
}
