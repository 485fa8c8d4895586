//! Traces that are checked against a script, whatever the drivers answer.
use crate::infs::OWN_INF;
use crate::runs::{comes_to, ended, ends, files_of, rack_of};
use pnp_cli::Status;
use pnp_io::MemSink;
use std::alloc::Global;
use std::test::Fail;

/// A Steady driver and a device.
const SCRIPT: &[u8] = b"driver dev steady\nplug HTREE\\ROOT\\0 OWN\\DEV 1\n";

/// What is printed for it.
const TRACE: &[u8] =
    b"event driver dev\nevent plug OWN\\DEV\\1\njoin 1 OWN\\DEV\\1\nlisted HTREE\\ROOT\\0\ninstall OWN\\DEV\\1 00ff0000 dev\nadd OWN\\DEV\\1 dev ok\nassign OWN\\DEV\\1\nSTART_DEVICE OWN\\DEV\\1 dev ok\nstate OWN\\DEV\\1 Started\nlisted OWN\\DEV\\1\ntree\n0 HTREE\\ROOT\\0 Started\n 1 OWN\\DEV\\1 Started\nmap\noutstanding\n";

/// The same with another answer in line 8, after which the device would not be Started.
const OTHER_ANSWER: &[u8] =
    b"event driver dev\nevent plug OWN\\DEV\\1\njoin 1 OWN\\DEV\\1\nlisted HTREE\\ROOT\\0\ninstall OWN\\DEV\\1 00ff0000 dev\nadd OWN\\DEV\\1 dev ok\nassign OWN\\DEV\\1\nSTART_DEVICE OWN\\DEV\\1 dev fail\nstate OWN\\DEV\\1 Started\nlisted OWN\\DEV\\1\ntree\n0 HTREE\\ROOT\\0 Started\n 1 OWN\\DEV\\1 Started\nmap\noutstanding\n";

/// The run in which the driver pends the start.
const PENDED: &[u8] =
    b"event driver dev\nevent plug OWN\\DEV\\1\njoin 1 OWN\\DEV\\1\nlisted HTREE\\ROOT\\0\ninstall OWN\\DEV\\1 00ff0000 dev\nadd OWN\\DEV\\1 dev ok\nassign OWN\\DEV\\1\nSTART_DEVICE OWN\\DEV\\1 dev pend\ntree\n0 HTREE\\ROOT\\0 Started\n 1 OWN\\DEV\\1 NotStarted\nmap\noutstanding\nOWN\\DEV\\1 START_DEVICE dev\n";

const BARE_END: &[u8] = b"tree\n0 HTREE\\ROOT\\0 Started\nmap\noutstanding\n";

/// A script, a trace, and what the check of it comes to: the output; another answer, after which the trace does not go on so; another run;
/// no script and no trace; one without its last LF, with lines after its end, and with carriage returns; that of a bad line; lines of clients.
const ROWS: [(&[u8], &[u8], Status, &[u8]); 10] = [
    (SCRIPT, TRACE, Status::Done, b"yes\n"),
    (SCRIPT, OTHER_ANSWER, Status::NotARun, b"no line 9\n"),
    (SCRIPT, PENDED, Status::Done, b"yes\n"),
    (b"", b"", Status::NotARun, b"no line 1\n"),
    (b"", BARE_END, Status::Done, b"yes\n"),
    (
        b"",
        b"tree\n0 HTREE\\ROOT\\0 Started\nmap\noutstanding",
        Status::NotARun,
        b"no line 4\n",
    ),
    (
        b"",
        b"tree\n0 HTREE\\ROOT\\0 Started\nmap\noutstanding\n\n",
        Status::NotARun,
        b"no line 5\n",
    ),
    (
        b"",
        b"tree\r\n0 HTREE\\ROOT\\0 Started\r\nmap\r\noutstanding\r\n",
        Status::NotARun,
        b"no line 1\n",
    ),
    (
        b"plag\n",
        b"script error line 1\ntree\n0 HTREE\\ROOT\\0 Started\nmap\noutstanding\n",
        Status::Done,
        b"yes\n",
    ),
    (
        b"watch ed HTREE\\ROOT\\0 ok\n",
        b"event watch ed HTREE\\ROOT\\0\ntree\n0 HTREE\\ROOT\\0 Started\nmap\noutstanding\n",
        Status::NotARun,
        b"no line 1\n",
    ),
];

/// The trace `t` is checked against the script `s` with the INF `1`.
const WORDS: [&str; 5] = ["pnpmgr", "--check", "t", "s", "1"];

/// The files with which the trace `t` is checked against the script `s` with the INF `1`, over a Scripted driver, a Steady one and a
/// Stubborn one, come to this.
fn checks(alloc: Global, named: &[(&str, &[u8])], want: (Status, &[u8])) -> Result<(), Fail> {
    let mut files = files_of(alloc, named)?;
    let rack = rack_of(alloc, 1, 1, 1)?;
    ends(alloc, &WORDS, rack, &mut files, want)
}

#[test]
fn traces(rt: HostRuntime) -> Result<(), Fail> {
    let alloc = rt.alloc();
    for (script, trace, status, text) in ROWS {
        let named = [("s", script), ("t", trace), ("1", OWN_INF)];
        checks(alloc, &named, (status, text))?;
    }
    Ok(())
}

/// Files of which one is not there or refused: the INFs come first, then the trace, then the script.
const LACKING: [(&[(&str, &[u8])], Status, &[u8]); 5] = [
    (&[("s", b""), ("1", OWN_INF)], Status::ReadFault, b""),
    (&[("t", BARE_END), ("1", OWN_INF)], Status::ReadFault, b""),
    (&[("s", b""), ("t", BARE_END)], Status::ReadFault, b""),
    (&[("1", b"")], Status::BadInf, b"inf 1 error 1 line 0\n"),
    (
        &[("s", b""), ("t", BARE_END), ("1", b"[Z")],
        Status::BadInf,
        b"inf 1 error 2 line 1\n",
    ),
];

#[test]
fn lacking_files(rt: HostRuntime) -> Result<(), Fail> {
    let alloc = rt.alloc();
    for (named, status, text) in LACKING {
        checks(alloc, named, (status, text))?;
    }
    Ok(())
}

/// Each of three files takes two reads; whichever fails, nothing is written.
#[test]
fn each_read_fails(rt: HostRuntime) -> Result<(), Fail> {
    let alloc = rt.alloc();
    for call in 1..7 {
        let mut files = files_of(alloc, &[("s", b"#\n"), ("t", BARE_END), ("1", OWN_INF)])?;
        files.fail_at(call)?;
        let want: (Status, &[u8]) = (Status::ReadFault, b"");
        ends(alloc, &WORDS, Vec::new(alloc), &mut files, want)?;
    }
    Ok(())
}

/// A trace of 16,777,217 bytes is refused before the script is read, which is not there.
#[test]
fn a_large_trace(rt: HostRuntime) -> Result<(), Fail> {
    let alloc = rt.alloc();
    let bytes = vec![in alloc; b'#'; 16_777_217]?;
    let named: [(&str, &[u8]); 2] = [("t", &bytes), ("1", OWN_INF)];
    checks(alloc, &named, (Status::TooLarge, b""))
}

#[test]
fn a_verdict_that_is_not_written(rt: HostRuntime) -> Result<(), Fail> {
    let alloc = rt.alloc();
    let mut files = files_of(alloc, &[("s", b""), ("t", b"")])?;
    let mut sink = MemSink::new(alloc, 8)?;
    let words = ["pnpmgr", "--check", "t", "s"];
    let answer = ended(alloc, &words, Vec::new(alloc), &mut files, &mut sink)?;
    comes_to(answer, &sink, (Status::WriteFault, b"no line "))
}
