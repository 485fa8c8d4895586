//! A run over files and a sink in memory, and what it has to come to.
use driver_rack::{Driver, Scripted, Steady, Stubborn};
use pnp_cli::{Status, run};
use pnp_io::{MemFiles, MemSink};
use rows_told::{must, same};
use std::alloc::Global;
use std::test::Fail;

/// Drivers in boxes.
pub type Rack = Vec<Box<dyn Driver>>;

/// Words of their own.
pub fn words_of(alloc: Global, texts: &[&str]) -> Result<Vec<String>, Fail> {
    let mut words = Vec::new(alloc);
    for text in texts {
        words.push(String::from_str(alloc, text)?)?;
    }
    Ok(words)
}

/// Files of these names, with their bytes.
pub fn files_of(alloc: Global, named: &[(&str, &[u8])]) -> Result<MemFiles, Fail> {
    let mut files = MemFiles::new(alloc);
    for (name, bytes) in named {
        files.add(name.as_bytes(), bytes)?;
    }
    Ok(files)
}

/// So many Scripted drivers, Steady ones and Stubborn ones.
pub fn rack_of(alloc: Global, scripted: u32, steady: u32, stubborn: u32) -> Result<Rack, Fail> {
    let mut rack: Rack = Vec::new(alloc);
    for _ in 0..scripted {
        rack.push(Box::new(alloc, Scripted::make(alloc)?)?)?;
    }
    for _ in 0..steady {
        rack.push(Box::new(alloc, Steady::make())?)?;
    }
    for _ in 0..stubborn {
        rack.push(Box::new(alloc, Stubborn::make())?)?;
    }
    Ok(rack)
}

/// The status of a run with these words over fewer than 200 drivers; the test fails where there are more.
pub fn ended(
    alloc: Global,
    words: &[&str],
    rack: Rack,
    files: &mut MemFiles,
    sink: &mut MemSink,
) -> Result<Status, Fail> {
    if rack.len() >= 200 {
        return Err(Fail::new("200 drivers or more"));
    }
    let words = words_of(alloc, words)?;
    Ok(run(alloc, &words, rack, files, sink))
}

/// A run ended with this status, and its sink took these bytes.
pub fn comes_to(status: Status, sink: &MemSink, want: (Status, &[u8])) -> Result<(), Fail> {
    must(status == want.0, "how a run ended")?;
    same(sink.taken(), want.1)
}

/// Such a run ends with this status, and its sink, which has room for all that is written, took these bytes.
pub fn ends(
    alloc: Global,
    words: &[&str],
    rack: Rack,
    files: &mut MemFiles,
    want: (Status, &[u8]),
) -> Result<(), Fail> {
    let mut sink = MemSink::new(alloc, 8192)?;
    let status = ended(alloc, words, rack, files, &mut sink)?;
    comes_to(status, &sink, want)
}
