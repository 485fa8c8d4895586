//! The check of the trace that the words name.
ghost use Rattle.std.specs.Prelude.{◌≡◌, ◌≤◌, IfOk, IsErrOf, true, false};
ghost use Rattle.check_cli.specs.declared.error.CheckError.TheVariants.{ReadFault};
ghost use Rattle.check_cli.specs.Checks.{SaysNamed, SaysOf, SomeRose, is_unwritten, is_written, status_of, texts};
ghost use Rattle.pnp_io.specs.Outside.{Rose};

use crate::error::CheckError;
use crate::files::{read_file, read_infs};
use crate::kinds::program_kinds;
use crate::looks::look_over;
use crate::report::{refusal, report};
use crate::status::Status;
use crate::words::{Words, words_of};
use inf_reader::InfError;
use pnp_io::{Files, Sink, write_all};
use std::alloc::Global;
use trace_hint::Seen;

/// The most INFs that the words may name: this project's own.
const MOST_INFS: usize = 64;

/// The status of what was seen.
fn status_of(seen: &Seen) -> Status
    ensures { result ≡ status_of seen.now }
{
    match seen {
        Seen::Yes => Status::Done,
        Seen::No { .. } => Status::NotARun,
    }
}

/// Reads the INFs, the trace and the script of these names, each whole, and looks at the trace: the status and what is to be written.
#[tactic(auto, using(crate::proofs::Faults::rose_behind, crate::proofs::Faults::rose_later))]
fn look_named<F: Files>(
    alloc: Global,
    trace_name: &[u8],
    script_name: &[u8],
    inf_names: &[Vec<u8>],
    budget: u64,
    files: &mut F,
) -> Result<(Status, Vec<u8>), CheckError>
    requires { budget ≤ 1000000 }
    ensures says { IfOk result (λ r. SaysNamed (F.contents files.old) trace_name.now script_name.now (texts inf_names.now) budget r.0) }
    ensures seen { IfOk result (λ r. is_written r.0 ≡ true) }
    ensures failed { IsErrOf result ReadFault → SomeRose (F.faults files.old) (F.faults files.new) }
{
    let infs = read_infs(alloc, files, inf_names)?;
    let trace = read_file(alloc, files, trace_name)?;
    let script = read_file(alloc, files, script_name)?;
    if infs.len() > MOST_INFS {
        return Err(CheckError::BadWords);
    }
    let kinds = program_kinds(alloc)?;
    let seen = look_over(alloc, &script, &infs, &kinds, budget, &trace)?;
    let text = report(alloc, &seen, &trace)?;
    let status = status_of(&seen);
    Ok((status, text))
}

/// The same of what the words name.
fn look<F: Files>(
    alloc: Global,
    words: &Words,
    files: &mut F,
) -> Result<(Status, Vec<u8>), CheckError>
    requires { words.now.budget ≤ 1000000 }
    ensures says { IfOk result (λ r. SaysOf (F.contents files.old) (texts words.now.names.items) words.now.budget r.0) }
    ensures seen { IfOk result (λ r. is_written r.0 ≡ true) }
    ensures failed { IsErrOf result ReadFault → SomeRose (F.faults files.old) (F.faults files.new) }
{
    let [trace, script, infs @ ..] = words.names.as_slice() else {
        return Err(CheckError::BadWords);
    };
    look_named(alloc, trace, script, infs, words.budget, files)
}

/// Writes a text; the status, where it was written.
fn answer<K: Sink>(sink: &mut K, text: &[u8], status: Status) -> Status
    requires { is_written status ≡ true }
    ensures write_fault { result ≡ Status.WriteFault → Rose (K.faults sink.old) (K.faults sink.new) }
    ensures written { is_unwritten result ≡ false }
{
    match write_all(sink, text) {
        Ok(()) => status,
        Err(_) => Status::WriteFault,
    }
}

/// Answers for an INF that is refused, whose line is written.
fn answer_refusal<K: Sink>(alloc: Global, number: u64, error: InfError, sink: &mut K) -> Status
    ensures read_fault { result ≡ Status.ReadFault → ⊥ }
    ensures write_fault { result ≡ Status.WriteFault → Rose (K.faults sink.old) (K.faults sink.new) }
    ensures unwritten { is_unwritten result ≡ true → K.taken sink.new ≡ K.taken sink.old }
{
    match refusal(alloc, number, error) {
        Ok(line) => answer(sink, &line, Status::BadInf),
        Err(_) => Status::WantOfMemory,
    }
}

/// Checks what the words name, which are the program's name, a trace, a script and up to 64 INFs, and perhaps `--budget N`: whether the
/// trace is a run for the script over drivers of the program's kinds, whatever they answer; a client answers as it registered. Written is
/// `yes`, with `Done`; or, with `NotARun`, `no line N` and then the line before, what stands there and each line that is allowed in its
/// place; or the line of a refused INF. `ReadFault` comes only where the count of a file's faults rose in this call, `WriteFault` only where that of the
/// sink rose; after `BadWords`, `ReadFault`, `WantOfMemory` and `TooLarge` nothing was written. Cost: that of `pnpmgr --check`, and three
/// times that of the run up to the line.
pub fn check<F: Files, K: Sink>(
    alloc: Global,
    words: &[String],
    files: &mut F,
    sink: &mut K,
) -> Status
    ensures read_fault { result ≡ Status.ReadFault → SomeRose (F.faults files.old) (F.faults files.new) }
    ensures write_fault { result ≡ Status.WriteFault → Rose (K.faults sink.old) (K.faults sink.new) }
    ensures unwritten { is_unwritten result ≡ true → K.taken sink.new ≡ K.taken sink.old }
{
    let words = match words_of(alloc, words) {
        Ok(words) => words,
        Err(CheckError::BadWords) => return Status::BadWords,
        Err(_) => return Status::WantOfMemory,
    };
    match look(alloc, &words, files) {
        Ok((status, text)) => answer(sink, &text, status),
        Err(CheckError::Refused(number, error)) => answer_refusal(alloc, number, error, sink),
        Err(CheckError::BadWords) => Status::BadWords,
        Err(CheckError::ReadFault) => Status::ReadFault,
        Err(CheckError::WantOfMemory) => Status::WantOfMemory,
        Err(CheckError::TooLarge) => Status::TooLarge,
    }
}
