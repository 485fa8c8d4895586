//! Memory or writes that are refused on the way: the status says so, and what was written is a front of the output. The
//! first test is for runs in which one allocation fails (`rt try --test --fail-alloc N`).
use crate::runs::{comes_to, ended, files_of};
use crate::scripts::{
    CHAIN_SCRIPT, CHAIN_TEXT, FAILED_RESTART_SCRIPT, FAILED_RESTART_TEXT, ONE_DEVICE_SCRIPT,
    ONE_DEVICE_TEXT, VETO_SCRIPT, VETO_TEXT, ended_into,
};
use pnp_cli::Status;
use pnp_io::{MemFiles, MemSink};
use rows_told::{must, same};
use std::alloc::Global;
use std::test::Fail;

/// What the sink took is a front of a text.
fn is_front(sink: &MemSink, text: &str) -> Result<(), Fail> {
    let front = text.as_bytes().starts_with(sink.taken());
    must(front, "a front of the output")
}

/// The whole output is written; or memory was refused, and a front of it was.
fn whole_or_front(alloc: Global, script: &str, text: &str) -> Result<(), Fail> {
    let mut sink = MemSink::new(alloc, 4096)?;
    match ended_into(alloc, script, &mut sink)? {
        Status::Done => same(sink.taken(), text.as_bytes()),
        Status::WantOfMemory => is_front(&sink, text),
        _ => Err(Fail::new("how a run ended")),
    }
}

#[test]
fn whole_or_a_front(rt: HostRuntime) -> Result<(), Fail> {
    let rows = [
        (CHAIN_SCRIPT, CHAIN_TEXT),
        (VETO_SCRIPT, VETO_TEXT),
        (FAILED_RESTART_SCRIPT, FAILED_RESTART_TEXT),
    ];
    for (script, text) in rows {
        whole_or_front(rt.alloc(), script, text)?;
    }
    Ok(())
}

/// Wherever the sink is full, what it took is the front of the output up to there.
#[test]
fn each_write_fails(rt: HostRuntime) -> Result<(), Fail> {
    let alloc = rt.alloc();
    let text = ONE_DEVICE_TEXT.as_bytes();
    for room in 0..text.len() {
        let mut sink = MemSink::new(alloc, room as u64)?;
        let status = ended_into(alloc, ONE_DEVICE_SCRIPT, &mut sink)?;
        comes_to(status, &sink, (Status::WriteFault, &text[..room]))?;
    }
    Ok(())
}

/// What stands behind the lines of its labels.
const ONE_DEVICE_END: &str =
    "tree\n0 HTREE\\ROOT\\0 Started\n 1 OWN\\DEV\\1 Started\nmap\noutstanding\n";

/// What the first event led to.
const FIRST_EVENT: &str = "event driver dev\n";

/// Where this write fails, a run has this status, and the sink took this.
fn one_write_fails(alloc: Global, call: u64, status: Status, taken: &str) -> Result<(), Fail> {
    let mut sink = MemSink::new(alloc, 4096)?;
    sink.fail_at(call)?;
    let ended = ended_into(alloc, ONE_DEVICE_SCRIPT, &mut sink)?;
    comes_to(ended, &sink, (status, taken.as_bytes()))
}

/// Whichever write fails, what the sink took is what the writes before it made: the lines of each event are one write,
/// and the end of the output another. A fourth one is not made.
#[test]
fn each_call_of_write_fails(rt: HostRuntime) -> Result<(), Fail> {
    let Some(both) = ONE_DEVICE_TEXT.strip_suffix(ONE_DEVICE_END) else {
        return Err(Fail::new("the end of the output"));
    };
    one_write_fails(rt.alloc(), 1, Status::WriteFault, "")?;
    one_write_fails(rt.alloc(), 2, Status::WriteFault, FIRST_EVENT)?;
    one_write_fails(rt.alloc(), 3, Status::WriteFault, both)?;
    one_write_fails(rt.alloc(), 4, Status::Done, ONE_DEVICE_TEXT)
}

/// Of a hundred reads and a hundred writes, each takes one byte.
fn take_one_byte(files: &mut MemFiles, sink: &mut MemSink) -> Result<(), Fail> {
    for call in 1..101u64 {
        files.short_at(call, 1)?;
        sink.short_at(call, 1)?;
    }
    Ok(())
}

/// The words of a script without an INF.
const BARE: [&str; 2] = ["pnpmgr", "s"];

/// The files with which the script `s` is run over no driver, and what is written byte by byte.
fn in_parts(alloc: Global, files: &mut MemFiles, want: &[u8]) -> Result<(), Fail> {
    let mut sink = MemSink::new(alloc, 4096)?;
    take_one_byte(files, &mut sink)?;
    let status = ended(alloc, &BARE, Vec::new(alloc), files, &mut sink)?;
    comes_to(status, &sink, (Status::Done, want))
}

/// Reads and writes of one byte at a time, a hundred of each, make the same output.
#[test]
fn one_byte_at_a_time(rt: HostRuntime) -> Result<(), Fail> {
    let alloc = rt.alloc();
    let mut files = files_of(alloc, &[("s", ONE_DEVICE_SCRIPT.as_bytes())])?;
    let mut whole = MemSink::new(alloc, 4096)?;
    let status = ended(alloc, &BARE, Vec::new(alloc), &mut files, &mut whole)?;
    must(status == Status::Done, "how a run ended")?;
    in_parts(alloc, &mut files, whole.taken())
}

/// The script of one device, where the sink has room for so many bytes and a call of write fails: what it took.
const FAILING_SINKS: [(u64, u64, &str); 2] = [(4096, 1, ""), (8, 2, "event dr")];

#[test]
fn a_sink_that_fails(rt: HostRuntime) -> Result<(), Fail> {
    for (room, call, taken) in FAILING_SINKS {
        let mut sink = MemSink::new(rt.alloc(), room)?;
        sink.fail_at(call)?;
        let status = ended_into(rt.alloc(), ONE_DEVICE_SCRIPT, &mut sink)?;
        comes_to(status, &sink, (Status::WriteFault, taken.as_bytes()))?;
    }
    Ok(())
}
