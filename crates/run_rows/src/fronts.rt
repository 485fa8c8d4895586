//! Files and sinks that fail on the way of a run: what was written is a front of the output.
ghost use Rattle.std.specs.Prelude.{◌≤◌};

use crate::runs::{comes_to, ended, files_of};
use crate::scripts::{CHAIN_SCRIPT, CHAIN_TEXT, NAMED, ONE_DEVICE_SCRIPT, ended_over, named};
use pnp_cli::Status;
use pnp_io::{MemFiles, MemSink};
use rows_told::{must, same};
use std::alloc::Global;
use std::test::Fail;

/// A run without drivers, over a sink with room for eight bytes: its status, and what the sink took.
fn leaves_a_front(
    alloc: Global,
    words: &[&str],
    named: &[(&str, &[u8])],
    want: (Status, &[u8]),
) -> Result<(), Fail> {
    let mut files = files_of(alloc, named)?;
    let mut sink = MemSink::new(alloc, 8)?;
    let answer = ended(alloc, words, Vec::new(alloc), &mut files, &mut sink)?;
    comes_to(answer, &sink, want)
}

/// No words; no file; an empty one and a sink with room for eight bytes.
#[test]
fn faults_leave_a_front(rt: HostRuntime) -> Result<(), Fail> {
    let alloc = rt.alloc();
    leaves_a_front(alloc, &[], &[], (Status::BadWords, b""))?;
    leaves_a_front(alloc, &["pnpmgr", "s"], &[], (Status::ReadFault, b""))?;
    leaves_a_front(
        alloc,
        &["pnpmgr", "s"],
        &[("s", b"")],
        (Status::WriteFault, b"tree\n0 H"),
    )
}

/// The files of a rebalance, of which the read of this number fails.
fn failing_files(alloc: Global, read: u64) -> Result<MemFiles, Fail> {
    let mut files = named(alloc, CHAIN_SCRIPT)?;
    files.fail_at(read)?;
    Ok(files)
}

/// A sink of which the write of this number fails.
fn failing_sink(alloc: Global, write: u64) -> Result<MemSink, Fail> {
    let mut sink = MemSink::new(alloc, 4096)?;
    sink.fail_at(write)?;
    Ok(sink)
}

/// Whether a run ended with a fault, and what the sink took is a front of the output; else the whole is there.
fn has_failed(status: Status, fault: Status, sink: &MemSink) -> Result<bool, Fail> {
    if status == Status::Done {
        same(sink.taken(), CHAIN_TEXT.as_bytes())?;
        return Ok(false);
    }
    must(status == fault, "how a run ended")?;
    let is_front = CHAIN_TEXT.as_bytes().starts_with(sink.taken());
    must(is_front, "a front of the output")?;
    Ok(true)
}

/// Where a read or a write of this number fails, what the sink took is a front of the output, and the answer is yes; where there is none of this
/// number the whole is there, and the answer is no.
fn call_fails(alloc: Global, read: u64, write: u64, fault: Status) -> Result<bool, Fail> {
    let mut files = failing_files(alloc, read)?;
    let mut sink = failing_sink(alloc, write)?;
    let status = ended_over(alloc, &NAMED, &mut files, &mut sink)?;
    has_failed(status, fault, &sink)
}

/// More reads or writes than a run makes. No call has the number 0.
const CALLS: u64 = 100;

/// A rebalance in which two devices move: whichever write fails.
#[test]
fn each_write_of_a_rebalance_fails(rt: HostRuntime) -> Result<(), Fail> {
    for call in 1..CALLS {
        if !call_fails(rt.alloc(), 0, call, Status::WriteFault)? {
            return must(call > 1, "a write that fails");
        }
    }
    Err(Fail::new("a hundred writes"))
}

/// The same: whichever read fails, of the script or of the INF.
#[test]
fn each_read_of_a_rebalance_fails(rt: HostRuntime) -> Result<(), Fail> {
    for call in 1..CALLS {
        if !call_fails(rt.alloc(), call, 0, Status::ReadFault)? {
            return must(call > 2, "reads that fail");
        }
    }
    Err(Fail::new("a hundred reads"))
}

/// A script of which the first read gives so many bytes, and the second one fails.
fn breaking_off(alloc: Global, most: u64) -> Result<MemFiles, Fail>
    requires { 1 ≤ most }
{
    let mut files = files_of(alloc, &[("s", ONE_DEVICE_SCRIPT.as_bytes())])?;
    files.short_at(1, most)?;
    files.fail_at(2)?;
    Ok(files)
}

/// The first read of a script gives so many bytes, and the second one fails: what was written.
fn the_second_read_fails(alloc: Global, most: u64, text: &str) -> Result<(), Fail>
    requires { 1 ≤ most }
{
    let mut files = breaking_off(alloc, most)?;
    let mut sink = MemSink::new(alloc, 4096)?;
    let status = ended_over(alloc, &["pnpmgr", "s"], &mut files, &mut sink)?;
    comes_to(status, &sink, (Status::ReadFault, text.as_bytes()))
}

/// After a part of the first line, and after the whole of it.
#[test]
fn a_script_breaks_off(rt: HostRuntime) -> Result<(), Fail> {
    the_second_read_fails(rt.alloc(), 10, "")?;
    the_second_read_fails(rt.alloc(), 18, "event driver dev\n")
}
