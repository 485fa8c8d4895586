//! The words of the command line, and the INFs that they name.
use crate::runs::{comes_to, ended, ends, files_of, words_of};
use pnp_cli::{Settings, Status, WordsError, settings};
use pnp_io::{MemFiles, MemSink};
use rows_told::{must, same};
use std::alloc::{AllocError, Global};
use std::test::Fail;

/// What the words say: the script, the INFs, the trace to check and the budget, or how many devices are generated and the budget.
fn put_said(alloc: Global, said: &mut Vec<u8>, settings: &Settings) -> Result<(), AllocError> {
    match &settings.script {
        Some(script) => said.extend_from_slice(script.bytes())?,
        None => said.extend_from_slice(b"none")?,
    }
    for at in 0..settings.infs.len() {
        said.push(b' ')?;
        said.extend_from_slice(settings.infs.get(at).bytes())?;
    }
    if let Some(n) = settings.made {
        let made = format!(in alloc; " made {n}")?;
        said.extend_from_slice(made.as_bytes())?;
    }
    if let Some(trace) = &settings.check {
        said.extend_from_slice(b" check ")?;
        said.extend_from_slice(trace.bytes())?;
    }
    let budget = format!(in alloc; " {}", settings.budget)?;
    said.extend_from_slice(budget.as_bytes())
}

/// The same, as a text of its own.
fn said(alloc: Global, settings: &Settings) -> Result<Vec<u8>, AllocError> {
    let mut said = Vec::new(alloc);
    put_said(alloc, &mut said, settings)?;
    Ok(said)
}

const GOOD: [(&[&str], &[u8]); 16] = [
    (&["pnpmgr", "s"], b"s 20000"),
    (&["-", "s"], b"s 20000"),
    (&["pnpmgr", "s", "i", "j"], b"s i j 20000"),
    (&["pnpmgr", "--budget", "7", "s", "i"], b"s i 7"),
    (&["pnpmgr", "s", "--budget=1000000", "i"], b"s i 1000000"),
    (&["pnpmgr", "s", "i", "--budget", "0000001"], b"s i 1"),
    (&["pnpmgr", "--", "--budget", "-x"], b"--budget -x 20000"),
    (&["pnpmgr", "s", "--", "--gen"], b"s --gen 20000"),
    (&["pnpmgr", "-"], b"- 20000"),
    (&["pnpmgr", "--gen", "1"], b"none made 1 20000"),
    (
        &["pnpmgr", "--gen=400", "--budget", "5"],
        b"none made 400 5",
    ),
    (
        &["pnpmgr", "--budget=5", "--gen", "0000050"],
        b"none made 50 5",
    ),
    (&["pnpmgr", "--", "--gen", "1"], b"--gen 1 20000"),
    (&["pnpmgr", "--check", "t", "s", "i"], b"s i check t 20000"),
    (&["pnpmgr", "s", "--budget=5", "--check=t"], b"s check t 5"),
    (&["pnpmgr", "s", "--", "--check"], b"s --check 20000"),
];

/// Words say this.
fn are_taken(alloc: Global, texts: &[&str], want: &[u8]) -> Result<(), Fail> {
    let words = words_of(alloc, texts)?;
    match settings(alloc, &words) {
        Ok(settings) => {
            let said = said(alloc, &settings)?;
            same(said.as_slice(), want)
        }
        Err(_) => Err(Fail::new("words that are refused")),
    }
}

#[test]
fn good_words(rt: HostRuntime) -> Result<(), Fail> {
    for (texts, want) in GOOD {
        are_taken(rt.alloc(), texts, want)?;
    }
    Ok(())
}

const BAD: [&[&str]; 33] = [
    &[],
    &["pnpmgr"],
    &["pnpmgr", "--budget", "0", "s"],
    &["pnpmgr", "--budget", "x", "s"],
    &["pnpmgr", "--gen", "3", "s"],
    &["pnpmgr", "s", "--gen", "3"],
    &["pnpmgr", "--gen", "3", "--", "s", "i"],
    &["pnpmgr", "--gen", "0"],
    &["pnpmgr", "--gen", "401"],
    &["pnpmgr", "--gen", "x"],
    &["pnpmgr", "--gen"],
    &["pnpmgr", "--gen", "00000001"],
    &["pnpmgr", "--gen", "1", "--gen", "1"],
    &["pnpmgr", "--gen", "3", "--check", "t"],
    &["pnpmgr", "--check", "t", "--gen", "3", "s"],
    &["pnpmgr", "--check", "t"],
    &["pnpmgr", "s", "--check"],
    &["pnpmgr", "--check", "t", "--check", "t", "s"],
    &["pnpmgr", "--check", "-t", "s"],
    &["pnpmgr", "--budget", "1000001", "s"],
    &["pnpmgr", "--budget", "00000001", "s"],
    &["pnpmgr", "--budget", "0x10", "s"],
    &["pnpmgr", "--budget", "+1", "s"],
    &["pnpmgr", "--budget", "-1", "s"],
    &["pnpmgr", "--budget=-1", "s"],
    &["pnpmgr", "--budget=", "s"],
    &["pnpmgr", "s", "--budget"],
    &["pnpmgr", "--budget", "1", "--budget", "1", "s"],
    &["pnpmgr", "--budget", "7"],
    &["pnpmgr", "--help"],
    &["pnpmgr", "-h", "s"],
    &["pnpmgr", "--version"],
    &["pnpmgr", "s", "-i"],
];

/// Words are no settings.
fn are_refused(alloc: Global, texts: &[&str]) -> Result<(), Fail> {
    let words = words_of(alloc, texts)?;
    match settings(alloc, &words) {
        Ok(_) => Err(Fail::new("words that are taken")),
        Err(error) => must(error == WordsError::BadWords, "why words are refused"),
    }
}

/// With such words nothing is written.
fn end_at_once(alloc: Global, texts: &[&str]) -> Result<(), Fail> {
    let mut files = MemFiles::new(alloc);
    let want: (Status, &[u8]) = (Status::BadWords, b"");
    ends(alloc, texts, Vec::new(alloc), &mut files, want)
}

#[test]
fn bad_words(rt: HostRuntime) -> Result<(), Fail> {
    for texts in BAD {
        are_refused(rt.alloc(), texts)?;
        end_at_once(rt.alloc(), texts)?;
    }
    Ok(())
}

#[test]
fn at_most_64_infs(rt: HostRuntime) -> Result<(), Fail> {
    let alloc = rt.alloc();
    let mut words = words_of(alloc, &["pnpmgr", "s"])?;
    for _ in 0..64 {
        words.push(String::from_str(alloc, "i")?)?;
    }
    match settings(alloc, &words) {
        Ok(settings) => must(settings.infs.len() == 64, "how many INFs are named")?,
        Err(_) => return Err(Fail::new("words that are refused")),
    }
    words.push(String::from_str(alloc, "i")?)?;
    let error = settings(alloc, &words).err();
    must(error == Some(WordsError::BadWords), "why words are refused")
}

const GOOD_INF: &[u8] = b"[Version]\nSignature=$Chicago$\n";

/// The script `s` with the INFs `1` to `3` ends with this status and writes this.
fn answers(alloc: Global, files: &mut MemFiles, status: Status, text: &str) -> Result<(), Fail> {
    ends(
        alloc,
        &["pnpmgr", "s", "1", "2", "3"],
        Vec::new(alloc),
        files,
        (status, text.as_bytes()),
    )
}

const REFUSED: [(&[(&str, &[u8])], &str); 8] = [
    (&[("1", b"")], "inf 1 error 1 line 0\n"),
    (&[("1", b"[Version")], "inf 1 error 2 line 1\n"),
    (
        &[("1", GOOD_INF), ("2", b"[Version]\nDriverVer=x\n")],
        "inf 2 error 4 line 2\n",
    ),
    (
        &[
            ("1", GOOD_INF),
            ("2", GOOD_INF),
            ("3", b"[Z]\n\nFeatureScore=x\n"),
        ],
        "inf 3 error 5 line 3\n",
    ),
    (
        &[("s", b"plag"), ("1", b"\n[Z"), ("2", b"[Z"), ("3", b"[Z")],
        "inf 1 error 2 line 2\n",
    ),
    (&[("1", b""), ("3", GOOD_INF)], "inf 1 error 1 line 0\n"),
    (
        &[("1", GOOD_INF), ("2", b"x"), ("s", b"")],
        "inf 2 error 1 line 0\n",
    ),
    (
        &[("1", b"[Version]\nSignature=$Windows 95$\n"), ("2", b"")],
        "inf 1 error 1 line 0\n",
    ),
];

/// Files in which one is not there: the earliest one that is not taken decides.
const MISSING: [&[(&str, &[u8])]; 5] = [
    &[],
    &[("s", b""), ("2", b""), ("3", b"")],
    &[("s", b""), ("1", GOOD_INF), ("3", b"")],
    &[("s", b""), ("1", GOOD_INF), ("2", GOOD_INF)],
    &[("1", GOOD_INF), ("2", GOOD_INF), ("3", GOOD_INF)],
];

#[test]
fn refused_and_missing_files(rt: HostRuntime) -> Result<(), Fail> {
    let alloc = rt.alloc();
    for (named, text) in REFUSED {
        let mut files = files_of(alloc, named)?;
        answers(alloc, &mut files, Status::BadInf, text)?;
    }
    for named in MISSING {
        let mut files = files_of(alloc, named)?;
        answers(alloc, &mut files, Status::ReadFault, "")?;
    }
    Ok(())
}

const ALL_THERE: [(&str, &[u8]); 4] = [
    ("s", b"plag"),
    ("1", GOOD_INF),
    ("2", GOOD_INF),
    ("3", GOOD_INF),
];

#[test]
fn taken_infs(rt: HostRuntime) -> Result<(), Fail> {
    let alloc = rt.alloc();
    let mut files = files_of(alloc, &ALL_THERE)?;
    let text = "script error line 1\ntree\n0 HTREE\\ROOT\\0 Started\nmap\noutstanding\n";
    answers(alloc, &mut files, Status::BadScript, text)?;
    files.add(b"s", b"")?;
    let text = "tree\n0 HTREE\\ROOT\\0 Started\nmap\noutstanding\n";
    answers(alloc, &mut files, Status::Done, text)
}

/// Each file takes two reads; whichever fails, the end of the output is not written.
#[test]
fn each_read_fails(rt: HostRuntime) -> Result<(), Fail> {
    let alloc = rt.alloc();
    for call in 1..9 {
        let mut files = files_of(alloc, &ALL_THERE)?;
        files.fail_at(call)?;
        answers(alloc, &mut files, Status::ReadFault, "")?;
    }
    Ok(())
}

const BARE_END: &str = "tree\n0 HTREE\\ROOT\\0 Started\nmap\noutstanding\n";

const BAD_FIRST_LINE: &str =
    "script error line 1\ntree\n0 HTREE\\ROOT\\0 Started\nmap\noutstanding\n";

/// 4,096 comments of 4,096 bytes with their LF: as many bytes as a script may have.
fn comments(alloc: Global) -> Result<Vec<u8>, Fail> {
    let mut line = vec![in alloc; b'#'; 4095]?;
    line.push(b'\n')?;
    let mut bytes = Vec::new(alloc);
    for _ in 0..4096u32 {
        bytes.extend_from_slice(&line)?;
    }
    Ok(bytes)
}

/// With a script or an INF of these bytes, which are one too many, the run does not begin; a bad INF before that is told.
fn are_too_many(alloc: Global, files: &mut MemFiles, bytes: &[u8]) -> Result<(), Fail> {
    files.add(b"s", bytes)?;
    answers(alloc, files, Status::TooLarge, "")?;
    files.add(b"2", bytes)?;
    answers(alloc, files, Status::TooLarge, "")?;
    files.add(b"1", b"")?;
    let text = "inf 1 error 1 line 0\n";
    answers(alloc, files, Status::BadInf, text)
}

/// A script of 16,777,216 bytes; a script and an INF of a byte more.
#[test]
fn large_files(rt: HostRuntime) -> Result<(), Fail> {
    let alloc = rt.alloc();
    let mut files = files_of(alloc, &ALL_THERE)?;
    let mut bytes = comments(alloc)?;
    files.add(b"s", &bytes)?;
    answers(alloc, &mut files, Status::Done, BARE_END)?;
    bytes.push(b'#')?;
    are_too_many(alloc, &mut files, &bytes)
}

/// The script is one line of so many bytes, without an end.
fn put_line(alloc: Global, files: &mut MemFiles, length: usize) -> Result<(), Fail> {
    let line = vec![in alloc; b'#'; length]?;
    files.add(b"s", &line)?;
    Ok(())
}

/// A line is bad at its 4,097th byte, however much follows.
#[test]
fn a_line_without_end(rt: HostRuntime) -> Result<(), Fail> {
    let alloc = rt.alloc();
    let mut files = files_of(alloc, &ALL_THERE)?;
    put_line(alloc, &mut files, 17_000_000)?;
    answers(alloc, &mut files, Status::BadScript, BAD_FIRST_LINE)?;
    put_line(alloc, &mut files, 4096)?;
    answers(alloc, &mut files, Status::Done, BARE_END)
}

#[test]
fn a_refusal_that_is_not_written(rt: HostRuntime) -> Result<(), Fail> {
    let alloc = rt.alloc();
    let mut files = files_of(alloc, &[("1", b"")])?;
    let mut sink = MemSink::new(alloc, 9)?;
    let answer = ended(
        alloc,
        &["pnpmgr", "s", "1"],
        Vec::new(alloc),
        &mut files,
        &mut sink,
    )?;
    comes_to(answer, &sink, (Status::WriteFault, b"inf 1 err"))
}
