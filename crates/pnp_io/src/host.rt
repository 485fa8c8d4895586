// The real outside: files of the system, and standard output. Nothing of their bytes is told.
ghost use Rattle.std.specs.Prelude.{◌≡◌, ◌≤◌, ◌<◌, [], None, IfOk, IfSome, IsErr, OnErr, is_err, length, take, if◌then◌else◌};
ghost use Rattle.pnp_io.specs.Outside.{Appends, ReadsTold, Rose, raised};

use crate::outside::{Failed, Files, Sink};
use std::fs::File;
use std::io::{ErrorKind, Read, Seek, SeekFrom, Write};
use std::marker::Model;
use std::rt::Files as Handle;

/// The longest name that is kept; the system opens no longer one.
const LONGEST: usize = 4096;

/// A file that is open: its name and the place that the next read begins at, if it is not moved.
#[derive(Drop)]
struct Open<F> {
    name: [u8; 4096],
    length: usize,
    at: u64,
    file: F,
}

/// The files of the system, by path. A contract sees the count of the reads that failed, of any name; nothing
/// is told of what the files hold. A file that is not there or cannot be read is a fault, and a name that is
/// not UTF-8 or longer than 4,096 bytes. The file of the last read stays open, so that one that is read in order
/// is opened once and never moved: it may be a pipe. What the system answers is trusted. This project's own.
#[derive(Drop)]
pub struct HostFiles<'a, R: Handle> {
    rt: &'a R,
    open: Option<Open<R::File>>,
    faults: u64,
}

impl<'a, R: Handle> Model for HostFiles<'a, R> {
    ghost use Rattle.std.specs.Prelude.{ℕ};

    ghost Value = { ℕ };

    ghost view = { λ files. files.faults };
}

impl<'a, R: Handle> HostFiles<'a, R> {
    /// The files that the runtime reaches, with no fault counted yet.
    pub fn make(rt: &'a R) -> HostFiles<'a, R>
        ensures { result ≡ 0 }
    {
        HostFiles {
            rt,
            open: None,
            faults: 0,
        }
    }
}

/// Opens a file of the system.
fn open_file<R: Handle>(rt: &R, name: &[u8]) -> Option<Open<R::File>> {
    let length = name.len();
    if length > LONGEST {
        return None;
    }
    let path = std::str::from_utf8(name).ok()?;
    let file = File::open(rt, path).ok()?;
    let mut kept = [0u8; 4096];
    kept[..length].copy_from_slice(name);
    Some(Open {
        name: kept,
        length,
        at: 0,
        file,
    })
}

impl<F: Read + Seek> Open<F> {
    /// Whether this is the file of a name.
    fn is_of(&self, name: &[u8]) -> bool {
        self.name.get(..self.length) == Some(name)
    }

    /// Reads from a place on, to which the file is moved only where it stands elsewhere. A read that is
    /// interrupted is tried again.
    fn read_at(&mut self, at: u64, into: &mut [u8]) -> Option<usize>
        ensures { IfSome result (λ n. n ≤ length into.old) }
    {
        if self.at != at {
            self.file.seek(SeekFrom::Start(at)).ok()?;
            self.at = at;
        }
        let n = read_once(&mut self.file, into)?;
        self.at = at.saturating_add(n as u64);
        Some(n)
    }
}

/// Reads from where the file stands. A read that is interrupted is tried again.
fn read_once<F: Read>(file: &mut F, into: &mut [u8]) -> Option<usize>
    ensures { IfSome result (λ n. n ≤ length into.old) }
{
    for _ in 0..u64::MAX {
        match file.read(into) {
            Ok(n) => return Some(n),
            Err(error) if error.kind() == ErrorKind::Interrupted => {}
            Err(_) => return None,
        }
    }
    None
}

/// Writes from the front of a piece to standard output. A write that is interrupted is tried again.
fn write_once<R: Print>(rt: &R, bytes: &[u8]) -> Option<usize>
    ensures { IfSome result (λ n. n ≤ length bytes.now) }
{
    for _ in 0..u64::MAX {
        match std::io::writer(rt).write(bytes) {
            Ok(n) => return Some(n),
            Err(error) if error.kind() == ErrorKind::Interrupted => {}
            Err(_) => return None,
        }
    }
    None
}

impl<'a, R: Handle> HostFiles<'a, R> {
    /// Opens a file in place of the one that is open.
    #[inline(never)]
    fn reopen(&mut self, name: &[u8])
        ensures { self.new ≡ self.old }
    {
        self.open = open_file(self.rt, name);
    }

    /// Closes the file that is open.
    #[inline(never)]
    fn close(&mut self)
        ensures { self.new ≡ self.old }
    {
        self.open = None;
    }

    /// Reads a part of a file, which stays open.
    fn read_part(&mut self, name: &[u8], at: u64, into: &mut [u8]) -> Option<usize>
        ensures within { IfSome result (λ n. n ≤ length into.old) }
        ensures same { self.new ≡ self.old }
    {
        if !self.open.as_ref().is_some_and(|open| open.is_of(name)) {
            self.reopen(name);
        }
        let n = self.open.as_mut()?.read_at(at, into);
        if n.is_none() {
            self.close();
        }
        n
    }
}

impl<'a, R: Handle> Files for HostFiles<'a, R> {
    ghost use Rattle.std.specs.Prelude.{None};

    ghost contents = { λ files. None };

    ghost faults = { λ files name. files };

    /// Reads a part of a file of the system, which is opened where the last read was of another name or failed.
    /// Exactly a read that failed is counted; one that is interrupted is tried again.
    fn read(&mut self, name: &[u8], at: u64, into: &mut [u8]) -> Result<usize, Failed>
        ensures within { IfOk result (λ n. n ≤ length into.old) }
        ensures told { IfOk result (λ n. ReadsTold None name.now at n into.old into.new) }
        ensures failed { IsErr result → Rose self.old self.new }
        ensures counts { self.old ≤ self.new }
        ensures after { self.new ≡ (if is_err result then raised self.old else self.old) }
    {
        match self.read_part(name, at, into) {
            Some(n) => Ok(n),
            None => {
                self.faults = self.faults.saturating_add(1);
                Err(Failed)
            }
        }
    }
}

/// Standard output. A contract sees the count of the writes that failed; nothing is told of the bytes that it
/// took. Where it would take no byte of a piece that has some, the write fails. What the system answers is
/// trusted. This project's own.
#[derive(Drop)]
pub struct HostSink<'a, R: Print> {
    rt: &'a R,
    faults: u64,
}

impl<'a, R: Print> Model for HostSink<'a, R> {
    ghost use Rattle.std.specs.Prelude.{ℕ};

    ghost Value = { ℕ };

    ghost view = { λ sink. sink.faults };
}

impl<'a, R: Print> HostSink<'a, R> {
    /// The runtime's standard output, with no fault counted yet.
    pub fn make(rt: &'a R) -> HostSink<'a, R>
        ensures { result ≡ 0 }
    {
        HostSink { rt, faults: 0 }
    }
}

impl<'a, R: Print> Sink for HostSink<'a, R> {
    ghost use Rattle.std.specs.Prelude.{None};

    ghost taken = { λ sink. None };

    ghost faults = { λ sink. sink };

    /// Writes from the front of the piece to standard output. Exactly a write that failed is counted; one that is
    /// interrupted is tried again.
    fn write(&mut self, bytes: &[u8]) -> Result<usize, Failed>
        ensures within { IfOk result (λ n. n ≤ length bytes.now) }
        ensures some { IfOk result (λ n. 0 < length bytes.now → 0 < n) }
        ensures took { IfOk result (λ n. Appends None None (take n bytes.now)) }
        ensures nothing { OnErr result (Appends None None []) }
        ensures failed { IsErr result → Rose self.old self.new }
        ensures counts { self.old ≤ self.new }
        ensures after { self.new ≡ (if is_err result then raised self.old else self.old) }
    {
        match write_once(self.rt, bytes) {
            Some(n) if n > 0 || bytes.is_empty() => Ok(n),
            _ => {
                self.faults = self.faults.saturating_add(1);
                Err(Failed)
            }
        }
    }
}
