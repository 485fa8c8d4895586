// The outside: files by name, and a sink.
ghost use Rattle.std.specs.Prelude.{◌≡◌, ◌≤◌, ◌<◌, IfOk, OnErr, IsErr, length, take};
ghost use Rattle.pnp_io.specs.Outside.{ReadsTold, Rose, Appends};

/// A read or a write failed, and its fault is counted. This project's own.
#[derive(Clone, Copy, Debug, PartialEq, Eq)]
pub struct Failed;

/// Files that are read by name. A contract sees two meanings of them: the bytes of each name, where they are
/// told at all, and for each name how many of its reads have failed. A fault is a read that failed: of a name
/// that is not there, of a file that cannot be read, or of a name that the system has no file for. Counts
/// begin at 0, never fall, and stay where they stand at 2^64 - 1. This project's own.
pub trait Files {
    ghost use Rattle.std.specs.Prelude.{List, ℕ, Option};

    /// What each name holds, where it is told: nothing for a name that is not there.
    ghost contents: { Self → Option (List ℕ → Option (List ℕ)) };

    /// How often reads of a name have failed. Files may keep one counter for all names.
    ghost faults: { Self → List ℕ → ℕ };

    /// Reads bytes of the named file from the place `at` on to the front of the buffer, and answers how many:
    /// at least one, unless the file ends there or the buffer is empty. `Failed` comes only where the count
    /// of the name rose (or stands at 2^64 - 1), and then the buffer may hold anything. No read changes what the
    /// names hold.
    fn read(&mut self, name: &[u8], at: u64, into: &mut [u8]) -> Result<usize, Failed>
        ensures within { IfOk result (λ n. n ≤ length into.old) }
        ensures told { IfOk result (λ n. ReadsTold (contents self.old) name.now at n into.old into.new) }
        ensures failed { IsErr result → Rose (faults self.old name.now) (faults self.new name.now) }
        ensures counts { (other : List ℕ) → faults self.old other ≤ faults self.new other }
        ensures same { contents self.new ≡ contents self.old };
}

/// What takes bytes. A contract sees two meanings of it: the bytes that it took, where they are told at all,
/// and how many of its writes have failed. A fault is a write that failed, as one that would take no byte of
/// a piece that has some. The count begins at 0, never falls, and stays where it stands at 2^64 - 1. This
/// project's own.
pub trait Sink {
    ghost use Rattle.std.specs.Prelude.{List, ℕ, Option};

    /// The bytes that it took, where they are told.
    ghost taken: { Self → Option (List ℕ) };

    /// How often writes have failed.
    ghost faults: { Self → ℕ };

    /// Takes bytes from the front of the piece, and answers how many: at least one, unless the piece is empty.
    /// `Failed` comes only where the count rose (or stands at 2^64 - 1), and then nothing was taken.
    fn write(&mut self, bytes: &[u8]) -> Result<usize, Failed>
        ensures within { IfOk result (λ n. n ≤ length bytes.now) }
        ensures some { IfOk result (λ n. 0 < length bytes.now → 0 < n) }
        ensures took { IfOk result (λ n. Appends (taken self.old) (taken self.new) (take n bytes.now)) }
        ensures nothing { OnErr result (taken self.new ≡ taken self.old) }
        ensures failed { IsErr result → Rose (faults self.old) (faults self.new) }
        ensures counts { faults self.old ≤ faults self.new };
}
