//! A script over the drivers of the program, and what it has to come to.
use crate::runs::{Rack, ends};
use pnp_cli::{Status, program_drivers};
use pnp_io::MemFiles;
use std::alloc::Global;
use std::test::Fail;

/// The words before the script, at most two INFs, the script, the status of the run, and what is written.
pub struct Row {
    pub words: &'static [&'static str],
    pub infs: &'static [&'static [u8]],
    pub script: &'static str,
    pub status: Status,
    pub text: &'static str,
}

/// The names of the INFs.
const NAMES: [&str; 2] = ["1", "2"];

/// The words `pnpmgr`, these, and the names of a script and so many INFs.
pub fn words_for(
    alloc: Global,
    first: &[&'static str],
    infs: usize,
) -> Result<Vec<&'static str>, Fail> {
    let mut words = Vec::new(alloc);
    words.push("pnpmgr")?;
    for word in first {
        words.push(*word)?;
    }
    words.push("s")?;
    for name in NAMES.iter().take(infs) {
        words.push(*name)?;
    }
    Ok(words)
}

/// A script and its INFs under those names.
pub fn files_for(alloc: Global, script: &[u8], infs: &[&[u8]]) -> Result<MemFiles, Fail> {
    let mut files = MemFiles::new(alloc);
    files.add(b"s", script)?;
    for (name, inf) in NAMES.iter().zip(infs) {
        files.add(name.as_bytes(), inf)?;
    }
    Ok(files)
}

/// The drivers of the program, each in a box.
fn program_rack(alloc: Global) -> Result<Rack, Fail> {
    let mut rack: Rack = Vec::new(alloc);
    for driver in program_drivers(alloc)? {
        rack.push(Box::new(alloc, driver)?)?;
    }
    Ok(rack)
}

/// With these words and files a run over those drivers ends with this status, and its sink took this.
pub fn comes(
    alloc: Global,
    words: &[&str],
    files: &mut MemFiles,
    want: (Status, &[u8]),
) -> Result<(), Fail> {
    ends(alloc, words, program_rack(alloc)?, files, want)
}

/// A script writes its text.
pub fn writes(alloc: Global, row: &Row) -> Result<(), Fail> {
    let words = words_for(alloc, row.words, row.infs.len())?;
    let mut files = files_for(alloc, row.script.as_bytes(), row.infs)?;
    comes(alloc, &words, &mut files, (row.status, row.text.as_bytes()))
}

/// The text of a script, as a trace that is checked, is a run of it.
pub fn checks(alloc: Global, row: &Row) -> Result<(), Fail> {
    let mut words = words_for(alloc, row.words, row.infs.len())?;
    words.push("--check=t")?;
    let mut files = files_for(alloc, row.script.as_bytes(), row.infs)?;
    files.add(b"t", row.text.as_bytes())?;
    comes(alloc, &words, &mut files, (Status::Done, b"yes\n"))
}
