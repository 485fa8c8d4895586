//! Whether a trace is a run of the machine for a script, whatever the drivers answer.
ghost use Rattle.std.specs.Prelude.{◌≡◌, ◌⊎◌, ◌<◌, ◌≤◌, ◌^◌, ◌++◌, ◌∷◌, [], ℕ, List, Some, Ok, IfOk, IfSome, IsErrOf, OnOk, length, map, true};
ghost use Rattle.driver_rack.specs.Rows.{unnamed};
ghost use Rattle.pnp_io.specs.Outside.{Rose, Appends, AppendsFront};
ghost use Rattle.trace_check.specs.Verdicts.{verdict};
ghost use Rattle.pnp_cli.specs.Checks.{AnswersOutcome, ComesTo, GivesFile, GivesOutcome, IsOutcome, ShowsOutcome, file_in, verdict_line, verdict_status};
ghost use Rattle.pnp_cli.specs.Infs.{SomeRose};
ghost use Rattle.pnp_cli.specs.Limits.{IsWithin};
ghost use Rattle.pnp_cli.specs.Runs.{Decides, IsOutput, Wrote, WroteFront, is_decided, is_whole, named};
ghost use Rattle.pnp_cli.specs.declared.infs.InfsError.TheVariants.{ReadFault};

use crate::infs::{InfsError, LIMIT, read_infs};
use crate::parts::Settings;
use crate::refusal::answer_refusal;
use crate::status::Status;
use crate::turn::WriteError;
use device_ids::{TextList, WantOfMemory};
use driver_rack::Driver;
use inf_reader::Inf;
use pnp_io::{Files, Sink, read_all, write_all};
use pnp_labels::{DriverKind, push_decimal};
use std::alloc::Global;
use trace_check::{Checked, check_trace};

/// The kinds of drivers.
fn kinds_of<D: Driver>(alloc: Global, drivers: &[D]) -> Result<Vec<DriverKind>, WantOfMemory>
    ensures { IfOk result (λ kinds. kinds.items ≡ map (λ d. D.kind_of d) drivers.now) }
{
    let mut kinds = Vec::new(alloc);
    for driver in drivers {
        kinds.push(driver.kind())?;
    }
    Ok(kinds)
}

/// Reads a whole file of at most 16,777,216 bytes.
fn read_file<F: Files>(alloc: Global, files: &mut F, name: &[u8]) -> Result<Vec<u8>, InfsError>
    ensures gives { IfSome (F.contents files.old) (λ told. GivesFile result (file_in (told name.now))) }
    ensures within { IfOk result (λ bytes. length bytes.items ≤ 16777216) }
    ensures failed { IsErrOf result ReadFault → Rose (F.faults files.old name.now) (F.faults files.new name.now) }
    ensures counts { (other : List ℕ) → F.faults files.old other ≤ F.faults files.new other }
    ensures same { F.contents files.new ≡ F.contents files.old }
{
    let bytes = read_all(alloc, files, name, LIMIT)?;
    Ok(bytes)
}

/// Reads a trace and then a script, each whole, and checks the one against the other.
fn check_files<F: Files>(
    alloc: Global,
    infs: Vec<Inf>,
    trace: &[u8],
    script: &[u8],
    kinds: &[DriverKind],
    budget: u64,
    files: &mut F,
) -> Result<Checked, InfsError>
    requires infs { length infs.items ≤ 64 }
    requires kinds { length kinds.now < 2 ^ 32 }
    requires budget { budget ≤ 1000000 }
    ensures gives { IfSome (F.contents files.old) (λ told. GivesOutcome result (ComesTo kinds.now budget (Ok infs.items) (file_in (told trace.now)) (file_in (told script.now)))) }
    ensures failed { IsErrOf result ReadFault → SomeRose (F.faults files.old) (F.faults files.new) (trace.now ∷ script.now ∷ []) }
{
    let trace = read_file(alloc, files, trace)?;
    let script = read_file(alloc, files, script)?;
    let checked = check_trace(alloc, &script, infs, kinds, budget, &trace)?;
    Ok(checked)
}

/// The same, where the INFs are read first.
fn check_named<F: Files>(
    alloc: Global,
    infs: &TextList,
    trace: &[u8],
    script: &[u8],
    kinds: &[DriverKind],
    budget: u64,
    files: &mut F,
) -> Result<Checked, InfsError>
    requires infs { length infs.now ≤ 64 }
    requires kinds { length kinds.now < 2 ^ 32 }
    requires budget { budget ≤ 1000000 }
    ensures gives { IfSome (F.contents files.old) (λ told. GivesOutcome result (IsOutcome kinds.now budget told infs.now trace.now script.now)) }
    ensures failed { IsErrOf result ReadFault → SomeRose (F.faults files.old) (F.faults files.new) (infs.now ++ trace.now ∷ script.now ∷ []) }
{
    let infs = read_infs(alloc, files, infs)?;
    check_files(alloc, infs, trace, script, kinds, budget, files)
}

/// The line of a verdict.
fn verdict_line(alloc: Global, checked: Checked) -> Result<Vec<u8>, WantOfMemory>
    ensures { IfOk result (λ line. line.items ≡ verdict_line (verdict checked)) }
{
    match checked {
        Checked::Yes => Vec::from_slice(alloc, b"yes\n"),
        Checked::No { line } => {
            let mut text = Vec::from_slice(alloc, b"no line ")?;
            push_decimal(&mut text, line)?;
            text.push(b'\n')?;
            Ok(text)
        }
    }
}

/// Writes the line of a verdict.
fn write_verdict<K: Sink>(alloc: Global, checked: Checked, sink: &mut K) -> Result<(), WriteError>
    ensures took { OnOk result (Appends (K.taken sink.old) (K.taken sink.new) (verdict_line (verdict checked))) }
    ensures front { AppendsFront (K.taken sink.old) (K.taken sink.new) (verdict_line (verdict checked)) }
    ensures failed { IsErrOf result WriteError.WriteFault → Rose (K.faults sink.old) (K.faults sink.new) }
{
    let line = verdict_line(alloc, checked)?;
    write_all(sink, &line)?;
    Ok(())
}

/// The status of a verdict.
fn verdict_status(checked: Checked) -> Status
    ensures { result ≡ verdict_status (verdict checked) }
{
    match checked {
        Checked::Yes => Status::Done,
        Checked::No { .. } => Status::NotARun,
    }
}

/// Answers for a verdict, whose line is written.
fn answer_verdict<K: Sink>(alloc: Global, checked: Checked, sink: &mut K) -> Status
    ensures only { (result ≡ verdict_status (verdict checked)) ⊎ ((result ≡ Status.WriteFault) ⊎ (result ≡ Status.WantOfMemory)) }
    ensures took { is_whole result ≡ true → Appends (K.taken sink.old) (K.taken sink.new) (verdict_line (verdict checked)) }
    ensures front { AppendsFront (K.taken sink.old) (K.taken sink.new) (verdict_line (verdict checked)) }
    ensures write_fault { result ≡ Status.WriteFault → Rose (K.faults sink.old) (K.faults sink.new) }
{
    match write_verdict(alloc, checked, sink) {
        Ok(()) => verdict_status(checked),
        Err(WriteError::WriteFault) => Status::WriteFault,
        Err(WriteError::WantOfMemory) => Status::WantOfMemory,
    }
}

/// Checks the trace of a name against the script of a name, over drivers of these kinds.
fn run_kinds<F: Files, K: Sink>(
    alloc: Global,
    infs: &TextList,
    trace: &[u8],
    script: &[u8],
    kinds: &[DriverKind],
    budget: u64,
    files: &mut F,
    sink: &mut K,
) -> Status
    requires infs { length infs.now ≤ 64 }
    requires kinds { length kinds.now < 2 ^ 32 }
    requires budget { budget ≤ 1000000 }
    ensures words { result ≡ Status.BadWords → ⊥ }
    ensures decided { is_decided result ≡ true → IfSome (F.contents files.old) (λ told. AnswersOutcome (IsOutcome kinds.now budget told infs.now trace.now script.now) result) }
    ensures whole { is_whole result ≡ true → IfSome (F.contents files.old) (λ told. Wrote (ShowsOutcome (IsOutcome kinds.now budget told infs.now trace.now script.now)) (K.taken sink.old) (K.taken sink.new)) }
    ensures front { IfSome (F.contents files.old) (λ told. WroteFront (ShowsOutcome (IsOutcome kinds.now budget told infs.now trace.now script.now)) (K.taken sink.old) (K.taken sink.new)) }
    ensures read_fault { result ≡ Status.ReadFault → SomeRose (F.faults files.old) (F.faults files.new) (infs.now ++ trace.now ∷ script.now ∷ []) }
    ensures write_fault { result ≡ Status.WriteFault → Rose (K.faults sink.old) (K.faults sink.new) }
{
    match check_named(alloc, infs, trace, script, kinds, budget, files) {
        Ok(checked) => answer_verdict(alloc, checked, sink),
        Err(InfsError::Refused(number, error)) => answer_refusal(alloc, number, error, sink),
        Err(InfsError::TooLarge) => Status::TooLarge,
        Err(InfsError::ReadFault) => Status::ReadFault,
        Err(InfsError::WantOfMemory) => Status::WantOfMemory,
    }
}

/// Checks the trace of a name against the script that the settings name, over the kinds of drivers: the INFs, the trace and the script
/// are read in this order, each whole, and the line of the verdict, or of a refused INF, is written and nothing else.
pub fn run_check<D: Driver, F: Files, K: Sink>(
    alloc: Global,
    settings: &Settings,
    trace: &[u8],
    drivers: &[D],
    files: &mut F,
    sink: &mut K,
) -> Status
    requires within { IsWithin settings.now }
    requires drivers { length drivers.now < 2 ^ 32 }
    requires check { settings.now.check ≡ Some trace.now }
    ensures words { result ≡ Status.BadWords → ⊥ }
    ensures decided { is_decided result ≡ true → IfSome (F.contents files.old) (λ told. Decides (map (λ d. unnamed (D.kind_of d) (D.book d)) drivers.now) told settings.now result) }
    ensures whole { is_whole result ≡ true → IfSome (F.contents files.old) (λ told. Wrote (IsOutput (map (λ d. unnamed (D.kind_of d) (D.book d)) drivers.now) told settings.now) (K.taken sink.old) (K.taken sink.new)) }
    ensures front { IfSome (F.contents files.old) (λ told. WroteFront (IsOutput (map (λ d. unnamed (D.kind_of d) (D.book d)) drivers.now) told settings.now) (K.taken sink.old) (K.taken sink.new)) }
    ensures read_fault { result ≡ Status.ReadFault → SomeRose (F.faults files.old) (F.faults files.new) (named settings.now) }
    ensures write_fault { result ≡ Status.WriteFault → Rose (K.faults sink.old) (K.faults sink.new) }
{
    match &settings.script {
        None => unreachable!(),
        Some(script) => match kinds_of(alloc, drivers) {
            Err(_) => Status::WantOfMemory,
            Ok(kinds) => run_kinds(
                alloc,
                &settings.infs,
                trace,
                script.bytes(),
                &kinds,
                settings.budget,
                files,
                sink,
            ),
        },
    }
}
