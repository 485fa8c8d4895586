//! The INFs of a run, read again for each walk.
ghost use Rattle.std.specs.Prelude.{◌≡◌, All, IfOk, Ok, length};
ghost use Rattle.inf_reader.specs.Meaning.{inf};
ghost use Rattle.inf_reader.specs.declared.parts.InfError.{InfError};
ghost use Rattle.trace_hint.specs.Hints.{AreRead, IsInf};

use device_ids::WantOfMemory;
use inf_reader::{Inf, InfError, read};
use std::alloc::{AllocError, Global};

/// An INF that can be refused for want of memory alone.
fn inf_memory(error: InfError) -> WantOfMemory
    requires { error ≡ InfError.WantOfMemory }
{
    match error {
        InfError::WantOfMemory => AllocError,
        _ => unreachable!(),
    }
}

/// The INF of these bytes, which is accepted.
fn read_inf(alloc: Global, bytes: &[u8]) -> Result<Inf, WantOfMemory>
    requires { IsInf bytes.now }
    ensures { IfOk result (λ read. inf bytes.now ≡ Ok read) }
{
    match read(alloc, bytes) {
        Ok(read) => Ok(read),
        Err(error) => Err(inf_memory(error)),
    }
}

/// The INFs of these files, in their order. Condition: each has at most 16,777,216 bytes and is accepted.
/// Cost: as `inf_reader::read` for each.
pub fn read_infs(alloc: Global, files: &[Vec<u8>]) -> Result<Vec<Inf>, WantOfMemory>
    requires accepted { All (λ bytes. IsInf bytes.items) files.now }
    ensures read { IfOk result (λ infs. AreRead files.now infs.items) }
    ensures each { IfOk result (λ infs. length infs.items ≡ length files.now) }
{
    let mut infs = Vec::new(alloc);
    for bytes in files {
        infs.push(read_inf(alloc, bytes)?)?;
    }
    Ok(infs)
}
