//! What the words ask of a family is found out and written.
ghost use Rattle.std.specs.Prelude.{◌≡◌, ◌≤◌, ◌⊎◌, IfOk, IfSome, length, true, codes};
ghost use Rattle.sha2.specs.Sha256.{sha256};
ghost use Rattle.pnp_io.specs.Outside.{Rose};
ghost use Rattle.pnp_cli.specs.Infs.{refusal_line};
ghost use Rattle.pnp_cli.specs.Runs.{Wrote};
ghost use Rattle.explore_report.specs.Scripts.{IsWithin, IsTask};
ghost use Rattle.explore_report.specs.Reports.{number_line};
ghost use Rattle.explore_cli.specs.Explored.{IsExploredOver, IsExplored, TellsRefusal, IsAnswered, IsBytesOutput, IsOutput, WroteOut, WroteFrontOf, WroteSome, status_of, is_told, is_silent};

use crate::files::{Infs, read_infs};
use crate::player::Player;
use crate::status::Status;
use device_ids::WantOfMemory;
use explore_report::{
    Exploration, Found, Progress, Report, ReportError, Task, Words, explore_family, tell_count,
    tell_script, words_of,
};
use inf_reader::InfError;
use pnp_cli::{InfsError, LIMIT, refusal_line};
use pnp_io::{Files, Sink, read_all, write_all};
use pnp_labels::push_decimal;
use script_family::{FamilyError, ScriptFamily};
use sha2::{Digest, Sha256};
use std::alloc::Global;

/// A text that is to be written, and the answer.
#[derive(Drop)]
struct Answer {
    text: Vec<u8>,
    status: Status,
}

/// The status of what was found.
fn status_of(found: Found) -> Status
    ensures { result ≡ status_of found }
{
    match found {
        Found::Holds => Status::Done,
        Found::Broken => Status::Broken,
        Found::NotAll => Status::NotAll,
    }
}

/// What is asked of the scripts of a family, whose text has this digest, over INFs that were read.
fn explore_over<F: Files, P: Progress>(
    alloc: Global,
    family: &ScriptFamily,
    digest: &[u8; 32],
    exploration: &Exploration,
    infs: Infs,
    files: &mut F,
    progress: &mut P,
) -> Result<Answer, ReportError>
    requires few { length infs.read.items ≤ 64 }
    requires within { IsWithin exploration.now }
    ensures told { IfOk result (λ a. is_told a.status ≡ true) }
    ensures explored { IfOk result (λ a. IsExploredOver (F.contents files.old) digest.now family.now exploration.now infs.read.items infs.digests.items a.text.items a.status) }
{
    let Infs { read, digests } = infs;
    let mut player = Player::new(alloc, read, exploration.budget)?;
    let Report { text, found } = explore_family(
        alloc,
        family,
        digest,
        &digests,
        exploration,
        &mut player,
        files,
        progress,
    )?;
    let status = status_of(found);
    Ok(Answer { text, status })
}

/// The line of a refused INF.
fn tell_refusal(alloc: Global, number: u64, error: InfError) -> Result<Answer, ReportError>
    ensures { IfOk result (λ a. (a.text.items ≡ refusal_line number error) × (a.status ≡ Status.BadInf)) }
{
    let text = refusal_line(alloc, number, error)?;
    Ok(Answer {
        text,
        status: Status::BadInf,
    })
}

/// What is asked of the scripts of a family, whose text has this digest.
#[tactic(auto, using(crate::proofs::Outputs::explored_is, crate::proofs::Outputs::refusal_is))]
fn explore_scripts<F: Files, P: Progress>(
    alloc: Global,
    family: &ScriptFamily,
    digest: &[u8; 32],
    exploration: &Exploration,
    files: &mut F,
    progress: &mut P,
) -> Result<Answer, ReportError>
    requires { IsWithin exploration.now }
    ensures told { IfOk result (λ a. is_told a.status ≡ true) }
    ensures answered { IfOk result (λ a. IfSome (F.contents files.old) (λ told. IsExplored told digest.now family.now exploration.now a.text.items a.status ⊎ TellsRefusal told exploration.now a.text.items a.status)) }
{
    match read_infs(alloc, files, &exploration.infs) {
        Ok(infs) => explore_over(alloc, family, digest, exploration, infs, files, progress),
        Err(InfsError::Refused(number, error)) => tell_refusal(alloc, number, error),
        Err(InfsError::ReadFault) => Err(ReportError::ReadFault),
        Err(InfsError::TooLarge) => Err(ReportError::TooLarge),
        Err(InfsError::WantOfMemory) => Err(ReportError::WantOfMemory),
    }
}

/// What is asked of a family, whose text has this digest.
fn answer_family<F: Files, P: Progress>(
    alloc: Global,
    family: &ScriptFamily,
    digest: &[u8; 32],
    task: &Task,
    files: &mut F,
    progress: &mut P,
) -> Result<Answer, ReportError>
    requires { IsTask task.now }
    ensures told { IfOk result (λ a. is_told a.status ≡ true) }
    ensures answered { IfOk result (λ a. IfSome (F.contents files.old) (λ told. IsAnswered told digest.now family.now task.now a.text.items a.status)) }
{
    let text = match task {
        Task::Explore(exploration) => {
            return explore_scripts(alloc, family, digest, exploration, files, progress);
        }
        Task::Count => tell_count(alloc, family)?,
        Task::Script(number) => tell_script(family, *number)?,
    };
    Ok(Answer {
        text,
        status: Status::Done,
    })
}

/// The line that tells of a bad line.
fn tell_bad_line(alloc: Global, line: u64) -> Result<Answer, WantOfMemory>
    ensures { IfOk result (λ a. (a.text.items ≡ number_line (codes "family error line ") line) × (a.status ≡ Status.BadFamily)) }
{
    let mut text = Vec::from_slice(alloc, b"family error line ")?;
    push_decimal(&mut text, line)?;
    text.push(b'\n')?;
    Ok(Answer {
        text,
        status: Status::BadFamily,
    })
}

/// What is asked of the family of a text.
#[tactic(auto, using(crate::proofs::Outputs::family_is, crate::proofs::Outputs::bad_line_is))]
fn answer_text<F: Files, P: Progress>(
    alloc: Global,
    text: Vec<u8>,
    task: &Task,
    files: &mut F,
    progress: &mut P,
) -> Result<Answer, ReportError>
    requires { IsTask task.now }
    ensures told { IfOk result (λ a. is_told a.status ≡ true) }
    ensures answered { IfOk result (λ a. IfSome (F.contents files.old) (λ told. IsBytesOutput told text.items task.now a.text.items a.status)) }
{
    let digest = Sha256::digest(&text);
    match ScriptFamily::read(alloc, text) {
        Ok(family) => answer_family(alloc, &family, &digest, task, files, progress),
        Err(FamilyError::BadLine { line }) => Ok(tell_bad_line(alloc, line)?),
        Err(FamilyError::TooLarge) => Err(ReportError::TooLarge),
        Err(FamilyError::WantOfMemory) => Err(ReportError::WantOfMemory),
    }
}

/// What the words ask.
#[tactic(auto, using(crate::proofs::Outputs::output_is))]
fn look<F: Files, P: Progress>(
    alloc: Global,
    words: &Words,
    files: &mut F,
    progress: &mut P,
) -> Result<Answer, ReportError>
    requires { IsTask words.now.task }
    ensures told { IfOk result (λ a. is_told a.status ≡ true) }
    ensures answered { IfOk result (λ a. IfSome (F.contents files.old) (λ told. IsOutput told words.now a.text.items a.status)) }
{
    let text = read_all(alloc, files, words.family.bytes(), LIMIT)?;
    answer_text(alloc, text, &words.task, files, progress)
}

/// Writes what was found, or answers why nothing was.
fn write_out<K: Sink>(found: Result<Answer, ReportError>, sink: &mut K) -> Status
    ensures wrote { WroteOut found result (K.taken sink.old) (K.taken sink.new) }
    ensures write_fault { IfOk found (λ a. is_told a.status ≡ true) → result ≡ Status.WriteFault → Rose (K.faults sink.old) (K.faults sink.new) }
{
    match found {
        Ok(found) => match write_all(sink, &found.text) {
            Ok(()) => found.status,
            Err(_) => Status::WriteFault,
        },
        Err(ReportError::BadWords) => Status::BadWords,
        Err(ReportError::ReadFault) => Status::ReadFault,
        Err(ReportError::WantOfMemory) => Status::WantOfMemory,
        Err(ReportError::TooLarge) => Status::TooLarge,
        Err(ReportError::BadParts) => Status::BadParts,
    }
}

/// Finds out what words that were read ask of the family that they name, and writes it: how many scripts it has, one of them, or what all of
/// them come to over the drivers of the program, each run from the start; or the same of one part of them; or what such parts came to, put
/// together. All is read and run before anything is written; meanwhile it is told how far the runs are. Each status has its meaning in
/// `Status`. It always returns. Cost: for each script that of its run; memory for each ending, and none for each script.
#[tactic(auto, using(crate::proofs::Outputs::told_is, crate::proofs::Outputs::front_is, crate::proofs::Outputs::nothing_is))]
pub fn explore_words<F: Files, K: Sink, P: Progress>(
    alloc: Global,
    words: &Words,
    files: &mut F,
    sink: &mut K,
    progress: &mut P,
) -> Status
    requires { IsTask words.now.task }
    ensures told { is_told result ≡ true → IfSome (F.contents files.old) (λ told. Wrote (λ text. IsOutput told words.now text result) (K.taken sink.old) (K.taken sink.new)) }
    ensures front { result ≡ Status.WriteFault → IfSome (F.contents files.old) (λ told. WroteFrontOf told words.now (K.taken sink.old) (K.taken sink.new)) }
    ensures nothing { is_silent result ≡ true → K.taken sink.new ≡ K.taken sink.old }
    ensures write_fault { result ≡ Status.WriteFault → Rose (K.faults sink.old) (K.faults sink.new) }
{
    let found = look(alloc, words, files, progress);
    write_out(found, sink)
}

/// Reads the words, `[--budget N] ..`, as `words_of` of `explore_report` does, and finds out what they ask, as `explore_words` does; words
/// that say nothing are refused, and nothing is read or written. Which words say what is said by no clause. Cost: that of `explore_words`.
#[tactic(auto, using(crate::proofs::Outputs::some_words, crate::proofs::Outputs::no_words))]
pub fn explore<F: Files, K: Sink, P: Progress>(
    alloc: Global,
    words: &[String],
    files: &mut F,
    sink: &mut K,
    progress: &mut P,
) -> Status
    ensures told { is_told result ≡ true → IfSome (F.contents files.old) (λ told. WroteSome told result (K.taken sink.old) (K.taken sink.new)) }
    ensures nothing { is_silent result ≡ true → K.taken sink.new ≡ K.taken sink.old }
    ensures write_fault { result ≡ Status.WriteFault → Rose (K.faults sink.old) (K.faults sink.new) }
{
    match words_of(alloc, words) {
        Ok(words) => explore_words(alloc, &words, files, sink, progress),
        Err(error) => write_out(Err(error), sink),
    }
}
