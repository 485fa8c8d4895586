//! Memory, reads or writes that are refused on the way: the status says so, and what was written is a front of the report. The first
//! three are for runs in which one allocation fails (`rt try --test --fail-alloc N`).
use crate::rows::{OWN_INF, PULLED, PULLED_REPORT};
use crate::runs::{comes_to, ended, ends, ends_with, files_of, words_of};
use explore_cli::Status;
use pnp_io::MemSink;
use rows_told::must;
use std::alloc::Global;
use std::test::Fail;

/// A family and an INF, in files.
const FILES: &[(&str, &[u8])] = &[("pulled", PULLED), ("own", OWN_INF)];

/// An exploration of these files ends so; or memory was refused, and nothing was written.
fn whole_or_nothing(
    alloc: Global,
    texts: &[&str],
    named: &[(&str, &[u8])],
    want: (Status, &[u8]),
) -> Result<(), Fail> {
    let words = words_of(alloc, texts)?;
    let mut files = files_of(alloc, named)?;
    let mut sink = MemSink::new(alloc, 4096)?;
    match ended(alloc, &words, &mut files, &mut sink) {
        Status::WantOfMemory => must(sink.taken().is_empty(), "nothing is written"),
        status => comes_to(status, &sink, want),
    }
}

#[test]
fn whole_report(rt: HostRuntime) -> Result<(), Fail> {
    let texts: &[&str] = &["p", "pulled", "own"];
    whole_or_nothing(rt.alloc(), texts, FILES, (Status::Done, PULLED_REPORT))
}

#[test]
fn whole_count(rt: HostRuntime) -> Result<(), Fail> {
    let texts: &[&str] = &["p", "--count", "pulled"];
    whole_or_nothing(rt.alloc(), texts, FILES, (Status::Done, b"scripts 3\n"))
}

/// A bad line is told, or memory was refused, and nothing was written.
#[test]
fn whole_bad_line(rt: HostRuntime) -> Result<(), Fail> {
    let named: &[(&str, &[u8])] = &[("bad", b"end\n")];
    let want: (Status, &[u8]) = (Status::BadFamily, b"family error line 1\n");
    whole_or_nothing(rt.alloc(), &["p", "bad"], named, want)
}

/// Where the sink is full after so many bytes, it took the front of the report up to there.
fn write_fails(alloc: Global, words: &[String], room: usize) -> Result<(), Fail> {
    let Some(front) = PULLED_REPORT.get(..room) else {
        return Err(Fail::new("how long the report is"));
    };
    let mut files = files_of(alloc, FILES)?;
    let want = (Status::WriteFault, front);
    ends_with(alloc, words, &mut files, room as u64, want)
}

/// Wherever the sink is full, at each 12th byte, what it took is the front of the report up to there.
#[test]
fn each_write_fails(rt: HostRuntime) -> Result<(), Fail> {
    let alloc = rt.alloc();
    let words = words_of(alloc, &["p", "pulled", "own"])?;
    for at in 0..20usize {
        write_fails(alloc, &words, at * 12)?;
    }
    Ok(())
}

/// Where this read fails, nothing is written.
fn read_fails(alloc: Global, words: &[String], call: u64) -> Result<(), Fail> {
    let mut files = files_of(alloc, FILES)?;
    files.fail_at(call)?;
    ends_with(alloc, words, &mut files, 4096, (Status::ReadFault, b""))
}

/// Whichever read fails, nothing is written: the family is read by two, and the INF by two.
#[test]
fn each_read_fails(rt: HostRuntime) -> Result<(), Fail> {
    let alloc = rt.alloc();
    let words = words_of(alloc, &["p", "pulled", "own"])?;
    for call in 1..5u64 {
        read_fails(alloc, &words, call)?;
    }
    Ok(())
}

/// A family of more bytes than are taken.
#[test]
fn too_large(rt: HostRuntime) -> Result<(), Fail> {
    let alloc = rt.alloc();
    let mut bytes = Vec::new(alloc);
    bytes.resize(16_777_217, b'\n')?;
    let mut files = files_of(alloc, &[("large", bytes.as_slice())])?;
    let texts: &[&str] = &["p", "--count", "large"];
    ends(alloc, texts, &mut files, (Status::TooLarge, b""))
}
