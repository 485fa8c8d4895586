//! The live run that the words name.
ghost use Rattle.std.specs.Prelude.{◌≡◌, ◌<◌, ◌≤◌, ◌⊎◌, IfOk, IsErrOf, length, true};
ghost use Rattle.pnp_io.specs.Outside.{Rose};
ghost use Rattle.script_reader.specs.Script.{trace};
ghost use Rattle.free_run.specs.FreeRuns.{settings};
ghost use Rattle.live_model.specs.Outputs.{beginning, untalked};
ghost use Rattle.live_run.specs.Views.{lives_of};
ghost use Rattle.drive_cli.specs.Files.{SomeRose, texts};
ghost use Rattle.drive_cli.specs.Runs.{AnswersOf, Answered, FaultSays, SaysOf, budget_of, HasClient, IsNamed, Outcome, Runs, ended_status, error_status, run_status};
ghost use Rattle.drive_cli.specs.declared.fault.DriveFault.TheVariants.{BadWords, Client, ReadFault};

use crate::fault::DriveFault;
use crate::files::{read_file, read_infs};
use crate::kinds::program_kinds;
use crate::machine::ProgramMachine;
use crate::refusal::refusal;
use crate::script::{reader_of, refuse_clients};
use crate::status::Status;
use crate::words::{Words, words_of};
use free_run::FreeRun;
use inf_reader::InfError;
use live_io::{Peer, PeerError};
use live_run::{DriveError, Ended, LiveDrivers, drive, greet};
use pnp_io::Files;
use script_reader::Reader;
use std::alloc::Global;

/// The most INFs that the words may name: this project's own.
const MOST_INFS: usize = 64;

/// The status of a run that has ended.
fn ended_status(ended: Ended) -> Status
    ensures { result ≡ ended_status ended }
{
    match ended {
        Ended::Done => Status::Done,
        Ended::BadLine => Status::BadLine,
        Ended::AnswersEnd => Status::AnswersEnd,
        Ended::AnswersBad => Status::AnswersBad,
    }
}

/// The status of a run that was given up.
fn error_status(error: DriveError) -> Status
    ensures { result ≡ error_status error }
{
    match error {
        DriveError::ReadFault => Status::ReadFault,
        DriveError::WriteFault => Status::WriteFault,
        DriveError::WantOfMemory => Status::WantOfMemory,
        DriveError::TooLarge => Status::TooLarge,
    }
}

/// The status of a run that ended, or was given up.
fn status_of(ended: Result<Ended, DriveError>) -> Status
    ensures { result ≡ run_status ended }
{
    match ended {
        Ok(ended) => ended_status(ended),
        Err(error) => error_status(error),
    }
}

/// What the words name: the machine before its first event, and the script.
#[derive(Drop)]
struct Named {
    machine: ProgramMachine,
    reader: Reader,
}

/// Runs a script on a machine.
fn run_machine<P: Peer>(
    alloc: Global,
    machine: ProgramMachine,
    reader: Reader,
    live: &LiveDrivers,
    peer: &mut P,
) -> Status
    requires events { machine.events ≡ 0 }
    requires finished { reader.finished ≡ true }
    ensures runs { Runs result (lives_of live.now) (settings machine) (beginning machine.state (untalked (P.past peer.old) (P.taken peer.old) (P.answers peer.old)) (trace true reader.passed reader.rest)) (P.past peer.new) (P.taken peer.new) }
    ensures write_fault { result ≡ Status.WriteFault → Rose (P.write_faults peer.old) (P.write_faults peer.new) }
    ensures read_fault { result ≡ Status.ReadFault → Rose (P.read_faults peer.old) (P.read_faults peer.new) }
    ensures writes { P.write_faults peer.old ≤ P.write_faults peer.new }
    ensures reads { P.read_faults peer.old ≤ P.read_faults peer.new }
{
    let mut machine = machine;
    let mut reader = reader;
    status_of(drive(alloc, &mut machine, &mut reader, live, peer))
}

/// Reads the INFs and the script, each whole, and makes the machine; none of it is told to the other side.
fn read_named<F: Files>(
    alloc: Global,
    script_name: &[u8],
    inf_names: &[Vec<u8>],
    budget: u64,
    files: &mut F,
) -> Result<Named, DriveFault>
    requires few { length inf_names.now ≤ 64 }
    requires budget { budget ≤ 1000000 }
    ensures finished { IfOk result (λ named. named.reader.finished ≡ true) }
    ensures named { IfOk result (λ named. IsNamed (F.contents files.old) script_name.now (texts inf_names.now) budget named.machine (trace true named.reader.passed named.reader.rest)) }
    ensures client { IsErrOf result Client → HasClient (F.contents files.old) script_name.now }
    ensures words { IsErrOf result BadWords → ⊥ }
    ensures failed { IsErrOf result ReadFault → SomeRose (F.faults files.old) (F.faults files.new) }
{
    let infs = read_infs(alloc, files, inf_names)?;
    let script = read_file(alloc, files, script_name)?;
    refuse_clients(alloc, &script)?;
    let reader = reader_of(alloc, &script)?;
    let kinds = program_kinds(alloc)?;
    let run = FreeRun::new(alloc, infs, &kinds, budget)?;
    let machine = ProgramMachine::new(run);
    Ok(Named { machine, reader })
}

/// The status where the line of a refused INF is said.
fn answer_refusal<P: Peer>(alloc: Global, number: u64, error: InfError, peer: &mut P) -> Status
    ensures says { FaultSays (DriveFault.Refused number error) result (P.past peer.old) (P.taken peer.old) (P.past peer.new) (P.taken peer.new) }
    ensures write_fault { result ≡ Status.WriteFault → Rose (P.write_faults peer.old) (P.write_faults peer.new) }
    ensures read_fault { result ≡ Status.ReadFault → Rose (P.read_faults peer.old) (P.read_faults peer.new) }
    ensures writes { P.write_faults peer.old ≤ P.write_faults peer.new }
    ensures reads { P.read_faults peer.old ≤ P.read_faults peer.new }
{
    match refusal(alloc, number, error) {
        Err(_) => Status::WantOfMemory,
        Ok(line) => match peer.say(&line) {
            Ok(()) => Status::BadInf,
            Err(PeerError::WriteFault) => Status::WriteFault,
            Err(PeerError::ReadFault) => Status::ReadFault,
            Err(PeerError::WantOfMemory) => Status::WantOfMemory,
        },
    }
}

/// The status where a run did not begin. The line of a refused INF is said.
fn answer_fault<P: Peer>(alloc: Global, fault: DriveFault, peer: &mut P) -> Status
    ensures says { FaultSays fault result (P.past peer.old) (P.taken peer.old) (P.past peer.new) (P.taken peer.new) }
    ensures write_fault { result ≡ Status.WriteFault → Rose (P.write_faults peer.old) (P.write_faults peer.new) }
    ensures read_fault { result ≡ Status.ReadFault → (fault ≡ ReadFault) ⊎ Rose (P.read_faults peer.old) (P.read_faults peer.new) }
    ensures writes { P.write_faults peer.old ≤ P.write_faults peer.new }
    ensures reads { P.read_faults peer.old ≤ P.read_faults peer.new }
{
    match fault {
        DriveFault::BadWords => Status::BadWords,
        DriveFault::ReadFault => Status::ReadFault,
        DriveFault::WantOfMemory => Status::WantOfMemory,
        DriveFault::TooLarge => Status::TooLarge,
        DriveFault::Client => Status::HasClients,
        DriveFault::Refused(number, error) => answer_refusal(alloc, number, error, peer),
    }
}

/// Runs a script against the other side, which was greeted.
fn run_named<F: Files, P: Peer>(
    alloc: Global,
    script_name: &[u8],
    inf_names: &[Vec<u8>],
    words: &Words,
    files: &mut F,
    peer: &mut P,
) -> Status
    requires few { length inf_names.now ≤ 64 }
    ensures outcome { Outcome (F.contents files.old) script_name.now (texts inf_names.now) (lives_of words.now.live) (budget_of words.now.budget) (untalked (P.past peer.old) (P.taken peer.old) (P.answers peer.old)) (P.past peer.new) (P.taken peer.new) result }
    ensures write_fault { result ≡ Status.WriteFault → Rose (P.write_faults peer.old) (P.write_faults peer.new) }
    ensures read_fault { result ≡ Status.ReadFault → SomeRose (F.faults files.old) (F.faults files.new) ⊎ Rose (P.read_faults peer.old) (P.read_faults peer.new) }
    ensures writes { P.write_faults peer.old ≤ P.write_faults peer.new }
    ensures reads { P.read_faults peer.old ≤ P.read_faults peer.new }
{
    match read_named(alloc, script_name, inf_names, words.budget(), files) {
        Ok(Named { machine, reader }) => run_machine(alloc, machine, reader, &words.live, peer),
        Err(fault) => answer_fault(alloc, fault, peer),
    }
}

/// The same from the answers on, which are opened and greeted before anything else is read.
#[tactic(auto, using(crate::proofs::Faults::rose_before))]
fn answer_named<F: Files, P: Peer>(
    alloc: Global,
    answers_name: &[u8],
    script_name: &[u8],
    inf_names: &[Vec<u8>],
    words: &Words,
    files: &mut F,
    peer: &mut P,
) -> Status
    requires few { length inf_names.now ≤ 64 }
    ensures answered { Answered (F.contents files.old) script_name.now (texts inf_names.now) (lives_of words.now.live) (budget_of words.now.budget) (untalked (P.past peer.old) (P.taken peer.old) (P.held peer.old answers_name.now)) (P.past peer.new) (P.taken peer.new) result }
    ensures write_fault { result ≡ Status.WriteFault → Rose (P.write_faults peer.old) (P.write_faults peer.new) }
    ensures read_fault { result ≡ Status.ReadFault → SomeRose (F.faults files.old) (F.faults files.new) ⊎ (0 < P.read_faults peer.new) }
    ensures writes { P.write_faults peer.old ≤ P.write_faults peer.new }
{
    if peer.open(answers_name).is_err() {
        return Status::WantOfMemory;
    }
    match greet(alloc, peer) {
        Ok(None) => run_named(alloc, script_name, inf_names, words, files, peer),
        Ok(Some(ended)) => ended_status(ended),
        Err(error) => error_status(error),
    }
}

/// The same of words that were taken.
fn answer<F: Files, P: Peer>(alloc: Global, words: &Words, files: &mut F, peer: &mut P) -> Status
    ensures answered { AnswersOf (F.contents files.old) (P.held peer.old) (texts words.now.names.items) (lives_of words.now.live) (budget_of words.now.budget) (P.past peer.old) (P.taken peer.old) (P.past peer.new) (P.taken peer.new) result }
    ensures write_fault { result ≡ Status.WriteFault → Rose (P.write_faults peer.old) (P.write_faults peer.new) }
    ensures read_fault { result ≡ Status.ReadFault → SomeRose (F.faults files.old) (F.faults files.new) ⊎ (0 < P.read_faults peer.new) }
    ensures writes { P.write_faults peer.old ≤ P.write_faults peer.new }
{
    let [answers_name, script_name, inf_names @ ..] = words.names.as_slice() else {
        return Status::BadWords;
    };
    if inf_names.len() > MOST_INFS {
        return Status::BadWords;
    }
    answer_named(
        alloc,
        answers_name,
        script_name,
        inf_names,
        words,
        files,
        peer,
    )
}

/// Runs what the words name, which are the program's name, the answers, a script and up to 64 INFs, and the names of the drivers that are
/// live, `--live NAME` at least once, and perhaps `--probes` and `--budget N`. The answers are those that the other side has of their name.
/// What was said is told by the status (`Answered`): after `Done`, `BadLine`, `AnswersEnd` and `AnswersBad` all of a live run to this end over
/// what the files of these names hold, or what is said where the other side was not greeted; after a fault a front of it; after
/// `HasClients` nothing, exactly where the script has a line of a client before its bad line or its end. `WriteFault` comes only where the
/// count of write faults rose in this call, and `ReadFault` only where that of a file rose, or reads of the answers have failed. After
/// `BadWords` nothing was said.
pub fn drive_words<F: Files, P: Peer>(
    alloc: Global,
    words: &[String],
    files: &mut F,
    peer: &mut P,
) -> Status
    ensures says { SaysOf (F.contents files.old) (P.held peer.old) (P.past peer.old) (P.taken peer.old) (P.past peer.new) (P.taken peer.new) result }
    ensures write_fault { result ≡ Status.WriteFault → Rose (P.write_faults peer.old) (P.write_faults peer.new) }
    ensures read_fault { result ≡ Status.ReadFault → SomeRose (F.faults files.old) (F.faults files.new) ⊎ (0 < P.read_faults peer.new) }
    ensures writes { P.write_faults peer.old ≤ P.write_faults peer.new }
{
    match words_of(alloc, words) {
        Ok(words) => answer(alloc, &words, files, peer),
        Err(DriveFault::WantOfMemory) => Status::WantOfMemory,
        Err(_) => Status::BadWords,
    }
}
