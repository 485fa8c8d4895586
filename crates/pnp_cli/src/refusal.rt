//! The answer where an INF is refused.
ghost use Rattle.std.specs.Prelude.{◌≡◌, ◌⊎◌, OnOk, IsErrOf};
ghost use Rattle.pnp_io.specs.Outside.{Rose, Appends, AppendsFront};
ghost use Rattle.pnp_cli.specs.Infs.{refusal_line};

use crate::infs::refusal_line;
use crate::status::Status;
use crate::turn::WriteError;
use inf_reader::InfError;
use pnp_io::{Sink, write_all};
use std::alloc::Global;

/// Writes the line of a refused INF.
fn tell_refusal<K: Sink>(
    alloc: Global,
    number: u64,
    error: InfError,
    sink: &mut K,
) -> Result<(), WriteError>
    ensures took { OnOk result (Appends (K.taken sink.old) (K.taken sink.new) (refusal_line number error)) }
    ensures front { AppendsFront (K.taken sink.old) (K.taken sink.new) (refusal_line number error) }
    ensures failed { IsErrOf result WriteError.WriteFault → Rose (K.faults sink.old) (K.faults sink.new) }
{
    let line = refusal_line(alloc, number, error)?;
    write_all(sink, &line)?;
    Ok(())
}

/// Answers for a refused INF, whose line is written.
pub fn answer_refusal<K: Sink>(alloc: Global, number: u64, error: InfError, sink: &mut K) -> Status
    ensures only { (result ≡ Status.BadInf) ⊎ ((result ≡ Status.WriteFault) ⊎ (result ≡ Status.WantOfMemory)) }
    ensures took { result ≡ Status.BadInf → Appends (K.taken sink.old) (K.taken sink.new) (refusal_line number error) }
    ensures front { AppendsFront (K.taken sink.old) (K.taken sink.new) (refusal_line number error) }
    ensures write_fault { result ≡ Status.WriteFault → Rose (K.faults sink.old) (K.faults sink.new) }
{
    match tell_refusal(alloc, number, error, sink) {
        Ok(()) => Status::BadInf,
        Err(WriteError::WriteFault) => Status::WriteFault,
        Err(WriteError::WantOfMemory) => Status::WantOfMemory,
    }
}
