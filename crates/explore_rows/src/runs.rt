//! An exploration over files and a sink in memory, and what it has to come to.
use explore_cli::{Progress, Status, explore};
use pnp_io::{MemFiles, MemSink};
use rows_told::{must, same};
use std::alloc::Global;
use std::test::Fail;

/// The last that was told of how far the runs are.
#[derive(Drop)]
pub struct Last {
    pub done: u64,
    pub of: u64,
}

impl Progress for Last {
    fn tell(&mut self, done: u64, of: u64) {
        self.done = done;
        self.of = of;
    }
}

/// Nothing was told.
pub const NOTHING: Last = Last { done: 0, of: 0 };

/// Words of their own.
pub fn words_of(alloc: Global, texts: &[&str]) -> Result<Vec<String>, Fail> {
    let mut words = Vec::new(alloc);
    for text in texts {
        words.push(String::from_str(alloc, text)?)?;
    }
    Ok(words)
}

/// Files of these names, with their bytes.
pub fn files_of(alloc: Global, named: &[(&str, &[u8])]) -> Result<MemFiles, Fail> {
    let mut files = MemFiles::new(alloc);
    for (name, bytes) in named {
        files.add(name.as_bytes(), bytes)?;
    }
    Ok(files)
}

/// The status of an exploration, of which nobody looks at how far it is.
pub fn ended(alloc: Global, words: &[String], files: &mut MemFiles, sink: &mut MemSink) -> Status {
    let mut last = NOTHING;
    explore(alloc, words, files, sink, &mut last)
}

/// It ended with this status, and its sink took these bytes.
pub fn comes_to(status: Status, sink: &MemSink, want: (Status, &[u8])) -> Result<(), Fail> {
    must(status == want.0, "how an exploration ended")?;
    same(sink.taken(), want.1)
}

/// With a sink of so much room it ends with this status, and the sink took these bytes.
pub fn ends_with(
    alloc: Global,
    words: &[String],
    files: &mut MemFiles,
    room: u64,
    want: (Status, &[u8]),
) -> Result<(), Fail> {
    let mut sink = MemSink::new(alloc, room)?;
    let status = ended(alloc, words, files, &mut sink);
    comes_to(status, &sink, want)
}

/// It ends with this status, and its sink, which has room for all that is written, took these bytes.
pub fn ends(
    alloc: Global,
    texts: &[&str],
    files: &mut MemFiles,
    want: (Status, &[u8]),
) -> Result<(), Fail> {
    let words = words_of(alloc, texts)?;
    ends_with(alloc, &words, files, 4096, want)
}

/// What an exploration with this status writes.
pub fn written(
    alloc: Global,
    texts: &[&str],
    files: &mut MemFiles,
    want: Status,
) -> Result<Vec<u8>, Fail> {
    let words = words_of(alloc, texts)?;
    let mut sink = MemSink::new(alloc, 4096)?;
    let status = ended(alloc, &words, files, &mut sink);
    must(status == want, "how an exploration ended")?;
    let text = Vec::from_slice(alloc, sink.taken())?;
    Ok(text)
}
