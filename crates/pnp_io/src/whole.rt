// Whole files are read, and whole texts written.
ghost use Rattle.std.specs.Prelude.{◌≡◌, ◌≤◌, ◌<◌, ◌^◌, ℕ, List, Some, IfOk, IfSome, OnOk, OnErr, IsErr, IsErrOf, length};
ghost use Rattle.pnp_io.specs.Outside.{Rose, Appends, AppendsFront, Holds, HoldsMore};
ghost use Rattle.pnp_io.specs.declared.whole.ReadError.TheVariants.{ReadFault, TooLarge, WantOfMemory};

use crate::outside::{Failed, Files, Sink};
use std::alloc::{AllocError, Global};

/// The most bytes that are asked of a file at once.
const PIECE: usize = 65_536;

/// Why a file was not read whole. This project's own.
#[derive(Clone, Copy, Debug, PartialEq, Eq)]
pub enum ReadError {
    /// A read failed, and the count of the name rose.
    ReadFault,
    /// More bytes came than the limit allows.
    TooLarge,
    /// Memory was refused.
    WantOfMemory,
}

impl From<AllocError> for ReadError {
    ghost from_gives = { λ _ e. e ≡ WantOfMemory };

    fn from(_: AllocError) -> Self {
        ReadError::WantOfMemory
    }
}

impl From<Failed> for ReadError {
    ghost from_gives = { λ _ e. e ≡ ReadFault };

    fn from(_: Failed) -> Self {
        ReadError::ReadFault
    }
}

/// Reads a whole file of at most so many bytes, by way of a buffer.
fn read_through<F: Files>(
    alloc: Global,
    files: &mut F,
    name: &[u8],
    limit: u64,
    buffer: &mut [u8],
) -> Result<Vec<u8>, ReadError>
    requires limit { limit < 2 ^ 63 }
    requires buffer { 0 < length buffer.old }
    ensures whole { IfOk result (λ bytes. Holds (F.contents files.old) name.now bytes.items) }
    ensures within { IfOk result (λ bytes. length bytes.items ≤ limit) }
    ensures too_large { IsErrOf result TooLarge → HoldsMore (F.contents files.old) name.now limit }
    ensures failed { IsErrOf result ReadFault → Rose (F.faults files.old name.now) (F.faults files.new name.now) }
    ensures counts { (other : List ℕ) → F.faults files.old other ≤ F.faults files.new other }
    ensures same { F.contents files.new ≡ F.contents files.old }
{
    let mut bytes = Vec::new(alloc);
    while bytes.len() as u64 <= limit {
        let n = files.read(name, bytes.len() as u64, buffer)?;
        if n == 0 {
            return Ok(bytes);
        }
        bytes.extend_from_slice(&buffer[..n])?;
    }
    Err(ReadError::TooLarge)
}

/// Reads a whole file of at most `limit` bytes, a number below 2^63. `ReadFault` comes only where the count of
/// the name rose in this call, `TooLarge` exactly where more than `limit` bytes came, and else there may be
/// `WantOfMemory`. So where the contents are told, `Ok` gives the file's bytes and never comes where it has
/// more than `limit`, and `TooLarge` comes only where it has more. Each turn reads up to 65,536 bytes and at
/// least one. Cost: the bytes read, and a read for each 65,536 of them or for each piece that comes shorter.
pub fn read_all<F: Files>(
    alloc: Global,
    files: &mut F,
    name: &[u8],
    limit: u64,
) -> Result<Vec<u8>, ReadError>
    requires { limit < 2 ^ 63 }
    ensures whole { IfOk result (λ bytes. Holds (F.contents files.old) name.now bytes.items) }
    ensures within { IfOk result (λ bytes. length bytes.items ≤ limit) }
    ensures too_large { IsErrOf result TooLarge → HoldsMore (F.contents files.old) name.now limit }
    ensures failed { IsErrOf result ReadFault → Rose (F.faults files.old name.now) (F.faults files.new name.now) }
    ensures counts { (other : List ℕ) → F.faults files.old other ≤ F.faults files.new other }
    ensures same { F.contents files.new ≡ F.contents files.old }
{
    let mut buffer = vec![in alloc; 0u8; PIECE]?;
    read_through(alloc, files, name, limit, &mut buffer)
}

/// Writes a whole text. After `Failed`, which comes only where the count rose in this call, a front of it was
/// taken. It takes no memory. Cost: a write, or one for each piece that the sink takes at once.
pub fn write_all<K: Sink>(sink: &mut K, bytes: &[u8]) -> Result<(), Failed>
    ensures took { OnOk result (Appends (K.taken sink.old) (K.taken sink.new) bytes.now) }
    ensures front { OnErr result (AppendsFront (K.taken sink.old) (K.taken sink.new) bytes.now) }
    ensures failed { IsErr result → Rose (K.faults sink.old) (K.faults sink.new) }
    ensures counts { K.faults sink.old ≤ K.faults sink.new }
{
    let mut done = 0;
    while done < bytes.len() {
        done += sink.write(&bytes[done..])?;
    }
    Ok(())
}
