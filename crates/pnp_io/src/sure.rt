// Files and a sink that never fail.
ghost use Rattle.std.specs.Prelude.{◌≡◌, ◌≤◌, ◌<◌, ◌-◌, [], ℕ, List, None, Some, IfOk, IsErr, OnErr, length, min, take, Ok};
ghost use Rattle.pnp_io.specs.Outside.{Appends, Reads, Rose};

use crate::memory::read_from;
use crate::outside::{Failed, Files, Sink};
use std::marker::Model;

/// Lent bytes as files: every name holds them, and no read fails. A contract sees the bytes. This project's own.
#[derive(Drop)]
pub struct SureFiles<'a> {
    bytes: &'a [u8],
}

impl<'a> Model for SureFiles<'a> {
    ghost use Rattle.std.specs.Prelude.{ℕ, List};

    ghost Value = { List ℕ };

    ghost view = { λ files. files.bytes.now };
}

impl<'a> SureFiles<'a> {
    /// Files of which each holds these bytes.
    pub fn make(bytes: &'a [u8]) -> SureFiles<'a>
        ensures { result ≡ bytes.now }
    {
        SureFiles { bytes }
    }
}

impl<'a> Files for SureFiles<'a> {
    ghost use Rattle.std.specs.Prelude.{Some};

    ghost contents = { λ bytes. Some (λ name. Some bytes) };

    ghost faults = { λ bytes name. 0 };

    /// Reads all bytes from `at` on that the buffer has room for. It never fails.
    fn read(&mut self, _name: &[u8], at: u64, into: &mut [u8]) -> Result<usize, Failed>
        ensures within { IfOk result (λ n. n ≤ length into.old) }
        ensures told { IfOk result (λ n. Reads (Some self.old) at n into.old into.new) }
        ensures count { result ≡ Ok (min (length into.old) (length self.old - at)) }
        ensures failed { IsErr result → ⊥ }
        ensures same { self.new ≡ self.old }
    {
        Ok(read_from(self.bytes, at, &[], 0, into))
    }
}

/// A sink that takes every byte and keeps none; it tells nothing, and no write fails. This project's own.
#[derive(Clone, Copy, Drop)]
pub struct SureSink;

impl SureSink {
    /// The sink.
    pub fn make() -> SureSink {
        SureSink
    }
}

impl Sink for SureSink {
    ghost use Rattle.std.specs.Prelude.{None};

    ghost taken = { λ sink. None };

    ghost faults = { λ sink. 0 };

    /// Takes the whole piece. It never fails.
    fn write(&mut self, bytes: &[u8]) -> Result<usize, Failed>
        ensures within { IfOk result (λ n. n ≤ length bytes.now) }
        ensures some { IfOk result (λ n. 0 < length bytes.now → 0 < n) }
        ensures whole { result ≡ Ok (length bytes.now) }
        ensures failed { IsErr result → ⊥ }
    {
        Ok(bytes.len())
    }
}
