// Files and a sink in memory.
ghost use Rattle.std.specs.Prelude.{◌≡◌, ◌≤◌, ◌<◌, ◌-◌, ◌∷◌, ◌++◌, ℕ, List, [], IfOk, IfSome, IsErr, OnOk, OnErr, Some, is_err, length, min, option_map, take, if◌then◌else◌};
ghost use Rattle.std.specs.List.{position};
ghost use Rattle.std.specs.Str.{bytes_eq};
ghost use Rattle.pnp_io.specs.Outside.{Appends, Reads, ReadsTold, Rose, raised};
ghost use Rattle.pnp_io.specs.Memory.{file_in, with_file, moved, read_fails, after_read, write_fails, written, after_write};

use crate::outside::{Failed, Files, Sink};
use crate::short::{Short, moved};
use std::alloc::{AllocError, Global};
use std::marker::Model;

/// The one refusal of a call that takes memory and nothing else.
pub type WantOfMemory = AllocError;

/// A name and its bytes.
struct Entry {
    name: Vec<u8>,
    bytes: Vec<u8>,
}

impl Drop for Entry {
    fn drop(self) {
        let Entry { name: _, bytes: _ } = self;
    }
}

impl Model for Entry {
    ghost use Rattle.std.specs.Prelude.{List, ℕ};

    ghost Value = { List ℕ × List ℕ };

    ghost view = { λ e. (e.name.items, e.bytes.items) };
}

impl Entry {
    fn make(alloc: Global, name: &[u8], bytes: &[u8]) -> Result<Entry, WantOfMemory>
        ensures { IfOk result (λ e. e ≡ (name.now, bytes.now)) }
    {
        let name = Vec::from_slice(alloc, name)?;
        let bytes = Vec::from_slice(alloc, bytes)?;
        Ok(Entry { name, bytes })
    }

    fn has_name(&self, name: &[u8]) -> bool
        ensures { result ≡ bytes_eq self.now.0 name.now }
    {
        self.name() == name
    }

    fn name(&self) -> &[u8]
        ensures { result.now ≡ self.now.0 }
    {
        &self.name
    }

    fn bytes(&self) -> &[u8]
        ensures { result.now ≡ self.now.1 }
    {
        &self.bytes
    }
}

/// The place of the first entry of a name.
fn place_of(entries: &[Entry], name: &[u8]) -> Option<usize>
    ensures { result ≡ position (λ file. bytes_eq file.0 name.now) entries.now }
{
    entries.iter().position(|entry| entry.has_name(name))
}

/// Gives the entry's name its bytes, in place of those that it had.
fn put(entries: &mut Vec<Entry>, entry: Entry) -> Result<(), WantOfMemory>
    ensures ok { OnOk result (entries.new.items ≡ with_file entry.0 entry.1 entries.old.items) }
    ensures err { OnErr result (entries.new.items ≡ entries.old.items) }
{
    match place_of(entries, entry.name()) {
        Some(at) => entries[at] = entry,
        None => entries.push(entry)?,
    }
    Ok(())
}

/// The bytes of a name.
fn find<'a>(entries: &'a [Entry], name: &[u8]) -> Option<&'a [u8]>
    ensures { option_map (λ bytes. bytes.now) result ≡ file_in entries.now name.now }
{
    for entry in entries {
        if entry.has_name(name) {
            return Some(entry.bytes());
        }
    }
    None
}

/// Copies so many bytes from a place on to the front of a buffer. Conditions: so many are there, and there is none only where
/// no byte is left or the buffer is empty.
fn copy_from(bytes: &[u8], at: u64, n: usize, into: &mut [u8])
    requires room { n ≤ length into.old }
    requires enough { n ≤ length bytes.now - at }
    requires end { n ≡ 0 → 0 < length into.old → length bytes.now ≤ at }
    ensures { Reads (Some bytes.now) at n into.old into.new }
{
    if n > 0 {
        let start = at as usize;
        into[..n].copy_from_slice(&bytes[start..start + n]);
    }
}

/// Reads bytes from a place on to the front of a buffer, as many as fit and no more than are listed for the call.
pub fn read_from(bytes: &[u8], at: u64, short: &[Short], call: u64, into: &mut [u8]) -> usize
    ensures reads { Reads (Some bytes.now) at result into.old into.new }
    ensures count { result ≡ moved short.now call (min (length into.old) (length bytes.now - at)) }
{
    let left = (bytes.len() as u64).saturating_sub(at) as usize;
    let n = moved(short, call, into.len().min(left));
    copy_from(bytes, at, n, into);
    n
}

/// Files in memory, whose contents are told. A contract sees the names with their bytes, the numbers of the
/// reads that are to fail and of those that are to be short, and how many reads were made and how many failed, of
/// any name. This project's own.
pub struct MemFiles {
    alloc: Global,
    entries: Vec<Entry>,
    listed: Vec<u64>,
    short: Vec<Short>,
    calls: u64,
    faults: u64,
}

impl Drop for MemFiles {
    fn drop(self) {
        let MemFiles {
            alloc: _,
            entries: _,
            listed: _,
            short: _,
            calls: _,
            faults: _,
        } = self;
    }
}

impl Model for MemFiles {
    ghost use Rattle.pnp_io.specs.Memory.{HeldFiles};

    ghost Value = { HeldFiles };

    ghost view = { λ m. record { files = m.entries.items; listed = m.listed.items; short = m.short.items; calls = m.calls; faults = m.faults } };
}

impl MemFiles {
    /// No file, and no read that is to fail. It takes no memory.
    pub fn new(alloc: Global) -> MemFiles
        ensures { result ≡ record { files = []; listed = []; short = []; calls = 0; faults = 0 } }
    {
        MemFiles {
            alloc,
            entries: Vec::new(alloc),
            listed: Vec::new(alloc),
            short: Vec::new(alloc),
            calls: 0,
            faults: 0,
        }
    }

    /// Gives a name its bytes, in place of those that it had. After want of memory all is as before. Cost: the
    /// bytes, and the number of names.
    #[tactic(auto, using(crate::proofs::Names::file_in_with_file))]
    pub fn add(&mut self, name: &[u8], bytes: &[u8]) -> Result<(), WantOfMemory>
        ensures added { OnOk result (self.new ≡ record self.old { files = with_file name.now bytes.now self.old.files }) }
        ensures found { OnOk result ((other : List ℕ) → file_in self.new.files other ≡ (if bytes_eq name.now other then Some bytes.now else file_in self.old.files other)) }
        ensures err { OnErr result (self.new ≡ self.old) }
    {
        let entry = Entry::make(self.alloc, name, bytes)?;
        put(&mut self.entries, entry)
    }

    /// Lists a read that is to fail, by its number counted from 1. After want of memory all is as before.
    pub fn fail_at(&mut self, call: u64) -> Result<(), WantOfMemory>
        ensures listed { OnOk result (self.new ≡ record self.old { listed = self.old.listed ++ call ∷ [] }) }
        ensures err { OnErr result (self.new ≡ self.old) }
    {
        self.listed.push(call)?;
        Ok(())
    }

    /// Lists a read that gives at most so many bytes, by its number counted from 1; where one number is listed twice, the
    /// first counts. Condition: `most` is at least 1. After want of memory all is as before.
    pub fn short_at(&mut self, call: u64, most: u64) -> Result<(), WantOfMemory>
        requires { 1 ≤ most }
        ensures short { OnOk result (self.new ≡ record self.old { short = self.old.short ++ (call, most) ∷ [] }) }
        ensures err { OnErr result (self.new ≡ self.old) }
    {
        self.short.push(Short::make(call, most))?;
        Ok(())
    }
}

impl Files for MemFiles {
    ghost use Rattle.std.specs.Prelude.{Some};
    ghost use Rattle.pnp_io.specs.Memory.{file_in};

    ghost contents = { λ held. Some (λ name. file_in held.files name) };

    ghost faults = { λ held name. held.faults };

    /// Reads all bytes of the named file from `at` on that the buffer has room for, and at most as many as are
    /// listed for its number. It fails exactly where its number, counted from 1, is listed or there is no such
    /// name, and then the buffer is as before. Exactly a read that failed is counted as a fault. It takes no
    /// memory. Cost: the bytes, and the numbers of names and of listed reads.
    fn read(&mut self, name: &[u8], at: u64, into: &mut [u8]) -> Result<usize, Failed>
        ensures within { IfOk result (λ n. n ≤ length into.old) }
        ensures told { IfOk result (λ n. Reads (file_in self.old.files name.now) at n into.old into.new) }
        ensures count { IfOk result (λ n. IfSome (file_in self.old.files name.now) (λ bytes. n ≡ moved self.old.short (raised self.old.calls) (min (length into.old) (length bytes - at)))) }
        ensures fails { is_err result ≡ read_fails self.old name.now }
        ensures buffer { OnErr result (into.new ≡ into.old) }
        ensures after { self.new ≡ after_read self.old name.now }
        ensures failed { IsErr result → Rose self.old.faults self.new.faults }
        ensures counts { self.old.faults ≤ self.new.faults }
    {
        self.calls = self.calls.saturating_add(1);
        if !self.listed.contains(&self.calls)
            && let Some(bytes) = find(&self.entries, name)
        {
            return Ok(read_from(bytes, at, &self.short, self.calls, into));
        }
        self.faults = self.faults.saturating_add(1);
        Err(Failed)
    }
}

/// A sink in memory, which tells the bytes that it took. A contract sees these, how many it takes at most, the
/// numbers of the writes that are to fail and of those that are to be short, and how many writes were made and
/// how many failed. This project's own.
pub struct MemSink {
    taken: Vec<u8>,
    room: usize,
    listed: Vec<u64>,
    short: Vec<Short>,
    calls: u64,
    faults: u64,
}

impl Drop for MemSink {
    fn drop(self) {
        let MemSink {
            taken: _,
            room: _,
            listed: _,
            short: _,
            calls: _,
            faults: _,
        } = self;
    }
}

impl Model for MemSink {
    ghost use Rattle.std.specs.Prelude.{◌≤◌, vec_capacity};
    ghost use Rattle.pnp_io.specs.Memory.{HeldSink};

    ghost Value = { HeldSink };

    ghost view = { λ s. record { taken = s.taken.items; room = s.room; listed = s.listed.items; short = s.short.items; calls = s.calls; faults = s.faults } };

    ghost invariant = { λ s. s.room ≤ vec_capacity s.taken };
}

impl MemSink {
    /// A sink with memory for `room` bytes, which took none yet.
    pub fn new(alloc: Global, room: u64) -> Result<MemSink, WantOfMemory>
        ensures { IfOk result (λ sink. sink ≡ record { taken = []; room = room; listed = []; short = []; calls = 0; faults = 0 }) }
    {
        let room = room as usize;
        let taken = Vec::with_capacity(alloc, room)?;
        Ok(MemSink {
            taken,
            room,
            listed: Vec::new(alloc),
            short: Vec::new(alloc),
            calls: 0,
            faults: 0,
        })
    }

    /// Lists a write that is to fail, by its number counted from 1. After want of memory all is as before.
    pub fn fail_at(&mut self, call: u64) -> Result<(), WantOfMemory>
        ensures listed { OnOk result (self.new ≡ record self.old { listed = self.old.listed ++ call ∷ [] }) }
        ensures err { OnErr result (self.new ≡ self.old) }
    {
        self.listed.push(call)?;
        Ok(())
    }

    /// Lists a write that takes at most so many bytes, by its number counted from 1; where one number is listed twice, the
    /// first counts. Condition: `most` is at least 1. After want of memory all is as before.
    pub fn short_at(&mut self, call: u64, most: u64) -> Result<(), WantOfMemory>
        requires { 1 ≤ most }
        ensures short { OnOk result (self.new ≡ record self.old { short = self.old.short ++ (call, most) ∷ [] }) }
        ensures err { OnErr result (self.new ≡ self.old) }
    {
        self.short.push(Short::make(call, most))?;
        Ok(())
    }

    /// The bytes that were taken.
    pub fn taken(&self) -> &[u8]
        ensures { result.now ≡ self.now.taken }
    {
        &self.taken
    }
}

impl Sink for MemSink {
    ghost use Rattle.std.specs.Prelude.{Some};

    ghost taken = { λ held. Some held.taken };

    ghost faults = { λ held. held.faults };

    /// Takes as many bytes of the piece as fit, and at most as many as are listed for its number. It fails exactly
    /// where its number, counted from 1, is listed, or the piece is not empty and `room` bytes were taken already.
    /// Exactly a write that failed is counted as a fault. It takes no memory. Cost: the bytes, and the number of
    /// listed writes.
    fn write(&mut self, bytes: &[u8]) -> Result<usize, Failed>
        ensures within { IfOk result (λ n. n ≤ length bytes.now) }
        ensures some { IfOk result (λ n. 0 < length bytes.now → 0 < n) }
        ensures took { IfOk result (λ n. self.new.taken ≡ self.old.taken ++ take n bytes.now) }
        ensures nothing { OnErr result (self.new.taken ≡ self.old.taken) }
        ensures count { IfOk result (λ n. n ≡ written self.old bytes.now) }
        ensures fails { is_err result ≡ write_fails self.old bytes.now }
        ensures after { self.new ≡ after_write self.old bytes.now }
        ensures failed { IsErr result → Rose self.old.faults self.new.faults }
        ensures counts { self.old.faults ≤ self.new.faults }
    {
        self.calls = self.calls.saturating_add(1);
        let left = self.room.saturating_sub(self.taken.len());
        if self.listed.contains(&self.calls) || (left == 0 && !bytes.is_empty()) {
            self.faults = self.faults.saturating_add(1);
            return Err(Failed);
        }
        let n = moved(&self.short, self.calls, bytes.len().min(left));
        self.taken.extend_from_slice(&bytes[..n]).unwrap();
        Ok(n)
    }
}
