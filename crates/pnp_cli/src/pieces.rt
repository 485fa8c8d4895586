ghost use Rattle.std.specs.Prelude.{◌≡◌, ◌≤◌, ◌<◌, ℕ, List, [], Some, false, IfOk, IfSome, IsErrOf, length};
ghost use Rattle.pnp_io.specs.Outside.{Rose};
ghost use Rattle.notify_front.specs.Desks.{front_of, told_of};
ghost use Rattle.pnp_cli.specs.Turns.{Awaits};
ghost use Rattle.pnp_cli.specs.Contents.{script_status, TookFront};
ghost use Rattle.pnp_cli.specs.Pieces.{Ran};
ghost use Rattle.pnp_cli.specs.declared.status.Status.{Status};
ghost use Rattle.pnp_cli.specs.declared.turn.PieceError.TheVariants.{ReadFault, WriteFault, TooLarge};

use crate::infs::LIMIT;
use crate::taking::{take_last, take_piece};
use crate::tally::Tally;
use crate::turn::PieceError;
use driver_rack::Drivers;
use notify_front::Front;
use pnp_io::{Files, Sink};
use script_reader::Reader;
use std::alloc::Global;

/// The most bytes that are read at a time.
const PIECE: usize = 4096;

/// Runs a script, which is read by way of a buffer and of a reader to which nothing was fed.
fn run_through<R: Drivers, F: Files, K: Sink>(
    alloc: Global,
    front: &mut Front<R>,
    files: &mut F,
    name: &[u8],
    buffer: &mut [u8],
    reader: &mut Reader,
    sink: &mut K,
    tally: &mut Tally,
) -> Result<Option<u64>, PieceError>
    requires awaits { Awaits front.old }
    requires events { front.old.manager.events ≡ 0 }
    requires buffer { 0 < length buffer.old }
    requires reader { reader.old ≡ record { rest = []; passed = 0; line = 0; fed = 0; stored = 0; finished = false; bad = false } }
    ensures ran { IfOk result (λ bad. IfSome (F.contents files.old) (λ told. Ran bad front.old (told name.now) (K.taken sink.old) tally.old front.new (K.taken sink.new) tally.new)) }
    ensures too_large { IsErrOf result TooLarge → IfSome (F.contents files.old) (λ told. script_status (told name.now) ≡ Some Status.TooLarge) }
    ensures front { IfSome (F.contents files.old) (λ told. TookFront (told_of front.old) (front_of front.old) (told name.now) (K.taken sink.old) (K.taken sink.new)) }
    ensures read_fault { IsErrOf result ReadFault → Rose (F.faults files.old name.now) (F.faults files.new name.now) }
    ensures write_fault { IsErrOf result WriteFault → Rose (K.faults sink.old) (K.faults sink.new) }
    ensures reads { (other : List ℕ) → F.faults files.old other ≤ F.faults files.new other }
    ensures writes { K.faults sink.old ≤ K.faults sink.new }
    ensures same { F.contents files.new ≡ F.contents files.old }
{
    let mut at = 0u64;
    'pieces: loop {
        let n = files.read(name, at, buffer)?;
        if n == 0 {
            return take_last(alloc, front, reader, sink, tally);
        }
        if at == LIMIT {
            return Err(PieceError::TooLarge);
        }
        let count = n.min((LIMIT - at) as usize);
        match take_piece(alloc, front, reader, &buffer[..count], sink, tally)? {
            Some(line) => return Ok(Some(line)),
            None => at += count as u64,
        }
    }
}

/// Runs a script, which is read in pieces of at most 4,096 bytes.
pub fn run_pieces<R: Drivers, F: Files, K: Sink>(
    alloc: Global,
    front: &mut Front<R>,
    files: &mut F,
    name: &[u8],
    sink: &mut K,
    tally: &mut Tally,
) -> Result<Option<u64>, PieceError>
    requires awaits { Awaits front.old }
    requires events { front.old.manager.events ≡ 0 }
    ensures ran { IfOk result (λ bad. IfSome (F.contents files.old) (λ told. Ran bad front.old (told name.now) (K.taken sink.old) tally.old front.new (K.taken sink.new) tally.new)) }
    ensures too_large { IsErrOf result TooLarge → IfSome (F.contents files.old) (λ told. script_status (told name.now) ≡ Some Status.TooLarge) }
    ensures front { IfSome (F.contents files.old) (λ told. TookFront (told_of front.old) (front_of front.old) (told name.now) (K.taken sink.old) (K.taken sink.new)) }
    ensures read_fault { IsErrOf result ReadFault → Rose (F.faults files.old name.now) (F.faults files.new name.now) }
    ensures write_fault { IsErrOf result WriteFault → Rose (K.faults sink.old) (K.faults sink.new) }
    ensures reads { (other : List ℕ) → F.faults files.old other ≤ F.faults files.new other }
    ensures writes { K.faults sink.old ≤ K.faults sink.new }
    ensures same { F.contents files.new ≡ F.contents files.old }
{
    let mut buffer = vec![in alloc; 0u8; PIECE]?;
    let mut reader = Reader::new(alloc);
    run_through(
        alloc,
        front,
        files,
        name,
        &mut buffer,
        &mut reader,
        sink,
        tally,
    )
}
