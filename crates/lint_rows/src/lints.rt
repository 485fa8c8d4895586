//! A lint over files and a sink in memory, and what it has to come to.
use lint_cli::{Status, lint};
use pnp_io::{MemFiles, MemSink};
use rows_told::{must, same};
use std::alloc::Global;
use std::test::Fail;

/// The program's name and these words.
fn words(alloc: Global, behind: &[&str]) -> Result<Vec<String>, Fail> {
    let mut words = Vec::new(alloc);
    words.push(String::from_str(alloc, "pnplint")?)?;
    for text in behind {
        words.push(String::from_str(alloc, *text)?)?;
    }
    Ok(words)
}

/// A lint by these words of these files into a sink ends with this status, and the sink took this text.
pub fn ends_by(
    alloc: Global,
    behind: &[&str],
    files: &mut MemFiles,
    room: u64,
    status: Status,
    text: &str,
) -> Result<(), Fail> {
    let mut sink = MemSink::new(alloc, room)?;
    let ended = lint(alloc, &words(alloc, behind)?, files, &mut sink);
    same(sink.taken(), text.as_bytes())?;
    must(ended == status, "the status")
}

/// A lint of the script `s` and the INF `i`, also of lines that match no device, ends so.
pub fn ends(
    alloc: Global,
    files: &mut MemFiles,
    room: u64,
    status: Status,
    text: &str,
) -> Result<(), Fail> {
    ends_by(alloc, &["--all", "s", "i"], files, room, status, text)
}

/// The script `s` with this text, and an INF `i` with a signature in front of its text, give by these words this status and this text.
pub fn gives_by(
    alloc: Global,
    behind: &[&str],
    script: &str,
    inf: &str,
    status: Status,
    text: &str,
) -> Result<(), Fail> {
    let mut bytes = Vec::from_slice(alloc, b"[Version]\nSignature=$Windows NT$\n")?;
    bytes.extend_from_slice(inf.as_bytes())?;
    let mut files = MemFiles::new(alloc);
    files.add(b"s", script.as_bytes())?;
    files.add(b"i", &bytes)?;
    ends_by(alloc, behind, &mut files, 8192, status, text)
}

/// The script `s` of two drivers and such an INF, also of lines that match no device.
pub fn gives(alloc: Global, inf: &str, status: Status, text: &str) -> Result<(), Fail> {
    let script = "driver dev steady\ndriver Low scripted\n";
    gives_by(alloc, &["--all", "s", "i"], script, inf, status, text)
}
