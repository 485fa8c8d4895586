// The other side as a file of answers and a sink.
ghost use Rattle.std.specs.Prelude.{◌≡◌, ◌==◌, ◌≤◌, ◌<◌, ◌+◌, ◌-◌, ◌++◌, ◌∷◌, [], ℕ, List, Option, Some, None, IfOk, IfSome, OnOk, OnErr, IsErrOf, Err, true, false, drop, length, take};
ghost use Rattle.std.specs.List.{position};
ghost use Rattle.pnp_io.specs.Outside.{Appends, AppendsFront, Rose};
ghost use Rattle.live_io.specs.Turns.{Hears, HearsOf, feed_at};
ghost use Rattle.live_io.specs.Files.{come, HasMore};
ghost use Rattle.live_io.specs.declared.peer.PeerError.TheVariants.{ReadFault, WriteFault, WantOfMemory};

use crate::peer::{Heard, LONGEST_LINE, Peer, PeerError};
use pnp_io::{Files, Sink, write_all};
use std::alloc::{AllocError, Global};

/// The most bytes that are asked of the answers at once.
const PIECE: usize = 4096;

/// The other side as a file of answers, which may be a pipe, and a sink for what is said. This project's own.
pub struct FilePeer<F: Files + Drop, K: Sink + Drop> {
    files: F,
    name: Vec<u8>,
    sink: K,
    /// How many bytes of the answers were read.
    at: u64,
    /// Those of them that are not yet given.
    rest: Vec<u8>,
}

impl<F: Files + Drop, K: Sink + Drop> Drop for FilePeer<F, K> {
    fn drop(self) {
        let FilePeer {
            files: _,
            name: _,
            sink: _,
            at: _,
            rest: _,
        } = self;
    }
}

/// The place of the first line feed.
fn first_feed(bytes: &[u8]) -> Option<usize>
    ensures at { result ≡ position (λ byte. byte == 10) bytes.now }
    ensures within { IfSome result (λ at. at < length bytes.now) }
{
    bytes.iter().position(|byte| *byte == b'\n')
}

/// How many bytes stand before the first line feed, or in all where there is none.
fn feed_at(bytes: &[u8]) -> usize
    ensures at { result ≡ feed_at bytes.now }
    ensures within { result ≤ length bytes.now }
{
    match first_feed(bytes) {
        Some(at) => at,
        None => bytes.len(),
    }
}

/// Puts bytes in the place of a line.
fn refill(line: &mut Vec<u8>, bytes: &[u8]) -> Result<(), AllocError>
    ensures { OnOk result (line.new.items ≡ bytes.now) }
{
    line.clear();
    line.extend_from_slice(bytes)?;
    Ok(())
}

/// Drops so many bytes at the front.
fn drop_front(bytes: &mut Vec<u8>, count: usize)
    requires { count ≤ length bytes.old.items }
    ensures { bytes.new.items ≡ drop count bytes.old.items }
{
    bytes.copy_within(count.., 0);
    bytes.truncate(bytes.len() - count);
}

impl<F: Files + Drop, K: Sink + Drop> FilePeer<F, K> {
    /// Files, of which the one that holds the answers is still to be named, and a sink to which nothing was said.
    pub fn new(alloc: Global, files: F, sink: K) -> FilePeer<F, K> {
        FilePeer {
            files,
            name: Vec::new(alloc),
            sink,
            at: 0,
            rest: Vec::new(alloc),
        }
    }

    /// Reads more of the answers, and answers whether more came.
    fn read_more(&mut self) -> Result<bool, PeerError>
        ensures more { IfOk result (λ more. HasMore more self.old.rest.items self.new.rest.items (come (F.contents self.old.files) self.old.name.items self.old.rest.items self.old.at)) }
        ensures come { OnOk result (come (F.contents self.new.files) self.new.name.items self.new.rest.items self.new.at ≡ come (F.contents self.old.files) self.old.name.items self.old.rest.items self.old.at) }
        ensures sink { self.new.sink ≡ self.old.sink }
        ensures name { self.new.name ≡ self.old.name }
        ensures contents { F.contents self.new.files ≡ F.contents self.old.files }
        ensures read_fault { IsErrOf result ReadFault → Rose (F.faults self.old.files self.old.name.items) (F.faults self.new.files self.old.name.items) }
        ensures no_write_fault { IsErrOf result WriteFault → ⊥ }
        ensures reads { F.faults self.old.files self.old.name.items ≤ F.faults self.new.files self.old.name.items }
    {
        let mut piece = [0u8; PIECE];
        let Ok(n) = self.files.read(&self.name, self.at, &mut piece) else {
            return Err(PeerError::ReadFault);
        };
        let Some(at) = self.at.checked_add(n as u64) else {
            return Err(PeerError::WantOfMemory);
        };
        self.rest.extend_from_slice(&piece[..n])?;
        self.at = at;
        Ok(n > 0)
    }

    /// Whether no line was read yet, and not too much without one.
    fn is_open(&self) -> bool
        ensures open { result ≡ true → (feed_at self.now.rest.items ≡ length self.now.rest.items) × (length self.now.rest.items ≤ 4096) }
        ensures shut { result ≡ false → feed_at self.now.rest.items ≡ length self.now.rest.items → 4096 < length self.now.rest.items }
    {
        feed_at(&self.rest) == self.rest.len() && self.rest.len() <= LONGEST_LINE
    }

    /// Takes the line that was read. Condition: one was, or too much without one.
    fn take_line(&mut self, line: &mut Vec<u8>) -> Result<Heard, PeerError>
        requires { feed_at self.old.rest.items ≡ length self.old.rest.items → 4096 < length self.old.rest.items }
        ensures enough { feed_at self.old.rest.items ≡ length self.old.rest.items → 4096 < length self.old.rest.items }
        ensures hears { IfOk result (λ heard. HearsOf self.old.rest.items heard line.new.items (Some self.new.rest.items)) }
        ensures files { self.new.files ≡ self.old.files }
        ensures name { self.new.name ≡ self.old.name }
        ensures sink { self.new.sink ≡ self.old.sink }
        ensures at { self.new.at ≡ self.old.at }
        ensures memory { OnErr result (result ≡ Err WantOfMemory) }
    {
        let end = feed_at(&self.rest);
        if end > LONGEST_LINE {
            return Ok(Heard::LongLine);
        }
        refill(line, &self.rest[..end])?;
        drop_front(&mut self.rest, end + 1);
        Ok(Heard::Line)
    }

    /// Reads the next line.
    #[tactic(auto, using(crate::proofs::Hearing::hears_over))]
    fn hear(&mut self, line: &mut Vec<u8>) -> Result<Heard, PeerError>
        ensures hears { IfOk result (λ heard. Hears (come (F.contents self.old.files) self.old.name.items self.old.rest.items self.old.at) heard line.new.items (come (F.contents self.new.files) self.new.name.items self.new.rest.items self.new.at)) }
        ensures sink { self.new.sink ≡ self.old.sink }
        ensures read_fault { IsErrOf result ReadFault → Rose (F.faults self.old.files self.old.name.items) (F.faults self.new.files self.old.name.items) }
        ensures no_write_fault { IsErrOf result WriteFault → ⊥ }
        ensures name { self.new.name ≡ self.old.name }
        ensures contents { F.contents self.new.files ≡ F.contents self.old.files }
        ensures reads { F.faults self.old.files self.old.name.items ≤ F.faults self.new.files self.old.name.items }
    {
        while self.is_open() {
            if !self.read_more()? {
                return Ok(Heard::Over);
            }
        }
        self.take_line(line)
    }
}

impl<F: Files + Drop, K: Sink + Drop> Peer for FilePeer<F, K> {
    ghost use Rattle.std.specs.Prelude.{None};
    ghost use Rattle.live_io.specs.Files.{come, held};

    ghost past = { λ p. None };

    ghost taken = { λ p. K.taken p.sink };

    ghost held = { λ p name. held (F.contents p.files) name };

    ghost answers = { λ p. come (F.contents p.files) p.name.items p.rest.items p.at };

    ghost read_faults = { λ p. F.faults p.files p.name.items };

    ghost write_faults = { λ p. K.faults p.sink };

    fn open(&mut self, name: &[u8]) -> Result<(), AllocError> {
        self.at = 0;
        self.rest.clear();
        refill(&mut self.name, name)
    }

    fn say(&mut self, said: &[u8]) -> Result<(), PeerError> {
        write_all(&mut self.sink, said)?;
        Ok(())
    }

    #[tactic(auto, using(crate::proofs::Saying::front_on_err))]
    fn turn(&mut self, said: &[u8], line: &mut Vec<u8>) -> Result<Heard, PeerError> {
        write_all(&mut self.sink, said)?;
        self.hear(line)
    }
}
