ghost use Rattle.std.specs.Prelude.{◌≡◌, ◌≤◌, ℕ, IfOk, OnOk, OnErr, IsErrOf, Err};
ghost use Rattle.pnp_io.specs.Outside.{Appends, AppendsFront, Rose};
ghost use Rattle.live_io.specs.Turns.{Hears, HasTurned, HasSaid, HasSaidFront};
ghost use Rattle.live_io.specs.declared.peer.PeerError.TheVariants.{ReadFault, WriteFault, WantOfMemory};

use pnp_io::Failed;
use std::alloc::AllocError;

/// The most bytes of a line before its line feed: this project's own.
pub(crate) const LONGEST_LINE: usize = 4096;

/// What was heard where a line was awaited. This project's own.
#[derive(Clone, Copy, Debug, PartialEq, Eq)]
pub enum Heard {
    /// A line, of at most 4,096 bytes before its line feed.
    Line,
    /// More than 4,096 bytes without a line feed.
    LongLine,
    /// No more comes, and what is left has no line feed.
    Over,
}

/// Why a turn was not taken. This project's own.
#[derive(Clone, Copy, Debug, PartialEq, Eq)]
pub enum PeerError {
    /// A read failed.
    ReadFault,
    /// A write failed.
    WriteFault,
    /// Memory was refused.
    WantOfMemory,
}

impl From<AllocError> for PeerError {
    ghost from_gives = { λ _ e. e ≡ WantOfMemory };

    fn from(_: AllocError) -> Self {
        PeerError::WantOfMemory
    }
}

impl From<Failed> for PeerError {
    ghost from_gives = { λ _ e. e ≡ WriteFault };

    fn from(_: Failed) -> Self {
        PeerError::WriteFault
    }
}

/// The other side of a talk: it hears what is said, and answers by lines. In memory it may tell the whole talk, turn by turn, so that what
/// is proved can speak of what was said before an answer was read; the system's tells nothing.
pub trait Peer: Drop {
    ghost use Rattle.std.specs.Prelude.{Option};
    ghost use Rattle.live_io.specs.Turns.{Past, Text};

    /// The turns that were taken, and what was said since, where this is told.
    ghost past: { Self → Option Past };

    /// All that was said, where this is told.
    ghost taken: { Self → Option Text };

    /// The answers of each name, where these are told.
    ghost held: { Self → Text → Option Text };

    /// What is still to come of the answers, where this is told.
    ghost answers: { Self → Option Text };

    /// How often reads have failed.
    ghost read_faults: { Self → ℕ };

    /// How often writes have failed.
    ghost write_faults: { Self → ℕ };

    /// The answers are those of a name from now on, from their beginning. Nothing is read yet, and nothing was said.
    fn open(&mut self, name: &[u8]) -> Result<(), AllocError>
        ensures answers { OnOk result (answers self.new ≡ held self.old name.now) }
        ensures past { past self.new ≡ past self.old }
        ensures taken { taken self.new ≡ taken self.old }
        ensures writes { write_faults self.new ≡ write_faults self.old };

    /// Says a text, which goes on where the last one ended. Nothing is read. After an error a front of it was said.
    fn say(&mut self, said: &[u8]) -> Result<(), PeerError>
        ensures past { OnOk result (HasSaid (past self.old) (past self.new) said.now) }
        ensures taken { OnOk result (Appends (taken self.old) (taken self.new) said.now) }
        ensures front { OnErr result (HasSaidFront (past self.old) (past self.new) said.now) }
        ensures part { OnErr result (AppendsFront (taken self.old) (taken self.new) said.now) }
        ensures answers { answers self.new ≡ answers self.old }
        ensures write_fault { IsErrOf result WriteFault → Rose (write_faults self.old) (write_faults self.new) }
        ensures no_read_fault { IsErrOf result ReadFault → Rose (read_faults self.old) (read_faults self.new) }
        ensures writes { write_faults self.old ≤ write_faults self.new }
        ensures reads { read_faults self.old ≤ read_faults self.new };

    /// Takes a turn: says a text, whole, and only then reads one line, which is given without its line feed where it is one. After an
    /// error a front of the text was said, and no line is given.
    fn turn(&mut self, said: &[u8], line: &mut Vec<u8>) -> Result<Heard, PeerError>
        ensures past { IfOk result (λ heard. HasTurned (past self.old) (past self.new) said.now heard line.new.items) }
        ensures taken { OnOk result (Appends (taken self.old) (taken self.new) said.now) }
        ensures hears { IfOk result (λ heard. Hears (answers self.old) heard line.new.items (answers self.new)) }
        ensures front { OnErr result (HasSaidFront (past self.old) (past self.new) said.now) }
        ensures part { OnErr result (AppendsFront (taken self.old) (taken self.new) said.now) }
        ensures write_fault { IsErrOf result WriteFault → Rose (write_faults self.old) (write_faults self.new) }
        ensures read_fault { IsErrOf result ReadFault → Rose (read_faults self.old) (read_faults self.new) }
        ensures writes { write_faults self.old ≤ write_faults self.new }
        ensures reads { read_faults self.old ≤ read_faults self.new };
}
