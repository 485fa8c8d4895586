//! Each call once with ample memory, a fault in mid-stream, and the system's own files and standard output.
use pnp_io::{
    Failed, Files, HostFiles, HostSink, MemFiles, MemSink, ReadError, Sink, read_all, write_all,
};
use rows_told::{must, same};
use std::alloc::Global;
use std::fs;
use std::test::Fail;

/// A file is read in part: so many bytes come, and these stand in the buffer then.
fn reads_part(
    read: Result<usize, Failed>,
    count: usize,
    buffer: &[u8],
    want: &[u8],
) -> Result<(), Fail> {
    must(read == Ok(count), "how many bytes were read")?;
    same(buffer, want)
}

/// Adds two files, the first of them twice.
fn add_two(files: &mut MemFiles) -> Result<(), Fail> {
    files.add(b"s", b"old")?;
    files.add(b"inf", b"[Version]")?;
    files.add(b"s", b"0123456789")?;
    Ok(())
}

/// Two files, the first of which was added twice.
fn two_files(alloc: Global) -> Result<MemFiles, Fail> {
    let mut files = MemFiles::new(alloc);
    add_two(&mut files)?;
    Ok(files)
}

/// A file is not read whole, for this reason.
fn refuses(
    alloc: Global,
    files: &mut MemFiles,
    name: &[u8],
    most: u32,
    want: ReadError,
) -> Result<(), Fail> {
    match read_all(alloc, files, name, most as u64) {
        Ok(_) => Err(Fail::new("a file that was read")),
        Err(error) => must(error == want, "why a file was not read"),
    }
}

/// The end of a file is read, and nothing behind it.
fn reads_the_end(files: &mut MemFiles) -> Result<(), Fail> {
    let mut buffer = [0u8; 4];
    let end = files.read(b"s", 7, &mut buffer);
    reads_part(end, 3, &buffer, b"789\0")?;
    let behind = files.read(b"s", 10, &mut buffer);
    reads_part(behind, 0, &buffer, b"789\0")
}

/// A file is read whole; one is too large, and one is not there.
fn reads_whole(alloc: Global, files: &mut MemFiles) -> Result<(), Fail> {
    same(&read_all(alloc, files, b"inf", 9)?, b"[Version]")?;
    refuses(alloc, files, b"s", 9, ReadError::TooLarge)?;
    refuses(alloc, files, b"t", 9, ReadError::ReadFault)
}

#[test]
fn reads_files_in_memory(rt: HostRuntime) -> Result<(), Fail> {
    let mut files = two_files(rt.alloc())?;
    reads_the_end(&mut files)?;
    reads_whole(rt.alloc(), &mut files)
}

#[test]
fn a_later_read_fails(rt: HostRuntime) -> Result<(), Fail> {
    let mut files = two_files(rt.alloc())?;
    files.fail_at(2)?;
    refuses(rt.alloc(), &mut files, b"s", 100, ReadError::ReadFault)?;
    let whole = read_all(rt.alloc(), &mut files, b"s", 100)?;
    same(&whole, b"0123456789")
}

/// Not all of five bytes is written, and the sink took these.
fn leaves(sink: &mut MemSink, taken: &[u8]) -> Result<(), Fail> {
    must(write_all(sink, b"river").is_err(), "a write that fails")?;
    same(sink.taken(), taken)
}

/// The third write to a sink with room for eight bytes fails, and then it is full.
fn takes_a_front(sink: &mut MemSink) -> Result<(), Fail> {
    write_all(sink, b"event ")?;
    sink.fail_at(3)?;
    must(sink.write(b"d") == Ok(1), "one byte more")?;
    leaves(sink, b"event d")?;
    leaves(sink, b"event dr")
}

#[test]
fn writes_to_a_sink_in_memory(rt: HostRuntime) -> Result<(), Fail> {
    let mut sink = MemSink::new(rt.alloc(), 8)?;
    takes_a_front(&mut sink)
}

const TEXT: &[u8] = b"driver dev steady\nplug HTREE\\ROOT\\0 OWN\\DEV 1\n";

/// Neither a file that is missing nor one whose name is no text is read.
fn lacks_files(files: &mut impl Files) -> Result<(), Fail> {
    let mut buffer = [0u8; 4];
    must(
        files.read(b"missing.script", 0, &mut buffer).is_err(),
        "a file that is missing",
    )?;
    must(
        files.read(b"\xFF", 0, &mut buffer).is_err(),
        "a name that is no text",
    )
}

/// A file of the system is read whole, from within, and from its front.
fn reads_a_file(alloc: Global, files: &mut impl Files) -> Result<(), Fail> {
    same(&read_all(alloc, files, b"small.script", 100)?, TEXT)?;
    let mut buffer = [0u8; 4];
    let part = files.read(b"small.script", 7, &mut buffer);
    reads_part(part, 4, &buffer, b"dev ")?;
    let front = files.read(b"small.script", 0, &mut buffer);
    reads_part(front, 4, &buffer, b"driv")
}

#[test]
fn reads_the_files_of_the_system(rt: HostRuntime) -> Result<(), Fail> {
    let mut files = HostFiles::make(&rt);
    fs::write(&rt, "small.script", TEXT)?;
    let read = reads_a_file(rt.alloc(), &mut files);
    let removed = fs::remove_file(&rt, "small.script");
    read?;
    removed?;
    lacks_files(&mut files)
}

#[test]
fn writes_to_standard_output(rt: HostRuntime) -> Result<(), Fail> {
    let mut sink = HostSink::make(&rt);
    write_all(&mut sink, b"tree\n")?;
    Ok(())
}
