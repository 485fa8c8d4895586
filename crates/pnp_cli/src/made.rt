//! The run over a generated script, of which the summary is written.
ghost use Rattle.std.specs.Prelude.{◌≡◌, ◌⊎◌, ◌≤◌, ◌∷◌, [], Ok, IfOk, OnOk, IsErrOf};
ghost use Rattle.inf_reader.specs.Meaning.{inf};
ghost use Rattle.inf_reader.specs.declared.parts.Inf.{Inf};
ghost use Rattle.inf_reader.specs.declared.parts.InfError.{InfError};
ghost use Rattle.pnp_io.specs.Outside.{Appends, AppendsFront, Rose};
ghost use Rattle.pnp_machine.specs.Managers.{settings};
ghost use Rattle.notify_front.specs.Desks.{IsAtStart, front_of, told_of};
ghost use Rattle.notify_front.specs.Fronts.{opening_front};
ghost use Rattle.pnp_cli.specs.Contents.{events_of};
ghost use Rattle.pnp_cli.specs.Generated.{gen_inf, gen_script};
ghost use Rattle.pnp_cli.specs.Outputs.{Shows};
ghost use Rattle.pnp_cli.specs.Runs.{IsSummary, Wrote, WroteFront};
ghost use Rattle.pnp_cli.specs.Summaries.{Counted, summary};
ghost use Rattle.pnp_cli.specs.Turns.{Awaits};
ghost use Rattle.pnp_cli.specs.declared.turn.PieceError.{PieceError};

use crate::generated::{gen_inf, gen_script};
use crate::pieces::run_pieces;
use crate::status::Status;
use crate::summary::summary;
use crate::tally::Tally;
use crate::turn::PieceError;
use device_ids::WantOfMemory;
use driver_rack::Drivers;
use inf_reader::{Inf, InfError, read};
use notify_front::Front;
use pnp_io::{Sink, SureFiles, SureSink, write_all};
use pnp_machine::Manager;
use std::alloc::{AllocError, Global};

/// An INF that can be refused for want of memory alone.
fn inf_memory(error: InfError) -> WantOfMemory
    requires { error ≡ InfError.WantOfMemory }
{
    match error {
        InfError::WantOfMemory => AllocError,
        _ => unreachable!(),
    }
}

/// The meaning of the generated INF, which is accepted.
fn read_made(alloc: Global) -> Result<Inf, WantOfMemory>
    ensures { IfOk result (λ made. inf gen_inf ≡ Ok made) }
{
    let bytes = gen_inf(alloc)?;
    match read(alloc, &bytes) {
        Ok(made) => Ok(made),
        Err(error) => Err(inf_memory(error)),
    }
}

/// The meaning of the generated INF, alone.
fn made_infs(alloc: Global) -> Result<Vec<Inf>, WantOfMemory>
    ensures { IfOk result (λ infs. (made : Inf) × (inf gen_inf ≡ Ok made) × (infs.items ≡ made ∷ [])) }
{
    let mut infs = Vec::new(alloc);
    infs.push(read_made(alloc)?)?;
    Ok(infs)
}

/// Why a run from lent bytes into a sink that keeps nothing ended, which is want of memory alone.
fn run_memory(error: PieceError) -> WantOfMemory
    requires { error ≡ PieceError.WantOfMemory }
{
    match error {
        PieceError::WantOfMemory => AllocError,
        _ => unreachable!(),
    }
}

/// Runs the generated script, which has no bad line and is not too large, over a front to which nothing happened, and counts the labels.
/// Nothing is written.
fn run_generated<R: Drivers>(
    alloc: Global,
    front: &mut Front<R>,
    n: u64,
) -> Result<Tally, WantOfMemory>
    requires awaits { Awaits front.old }
    requires events { front.old.manager.events ≡ 0 }
    requires few { n ≤ 400 }
    ensures { IfOk result (λ tally. Counted (told_of front.old) (front_of front.old) (events_of (gen_script n)) tally (front_of front.new)) }
{
    let script = gen_script(alloc, n)?;
    let mut files = SureFiles::make(&script);
    let mut sink = SureSink::make();
    let mut tally = Tally { steps: 0, moved: 0 };
    match run_pieces(alloc, front, &mut files, b"", &mut sink, &mut tally) {
        Ok(_) => Ok(tally),
        Err(error) => Err(run_memory(error)),
    }
}

/// Runs the generated script over a front to which nothing happened, and gives the summary. A run of so many steps that they
/// cannot be counted counts as want of memory.
fn summed<R: Drivers>(alloc: Global, front: &mut Front<R>, n: u64) -> Result<Vec<u8>, WantOfMemory>
    requires awaits { Awaits front.old }
    requires events { front.old.manager.events ≡ 0 }
    requires few { n ≤ 400 }
    ensures { IfOk result (λ text. Shows (told_of front.old) (front_of front.old) (events_of (gen_script n)) (summary n) text.items) }
{
    let tally = run_generated(alloc, front, n)?;
    if tally.steps == u64::MAX {
        return Err(AllocError);
    }
    summary(alloc, front, n, tally)
}

/// The summary of the run over the generated script of so many devices, over a manager to which nothing happened. The front is made
/// here and handed on, since the checker is slow where a function holds one.
fn sum_machine<R: Drivers>(
    alloc: Global,
    manager: Manager<R>,
    n: u64,
) -> Result<Vec<u8>, WantOfMemory>
    requires start { IsAtStart manager }
    requires few { n ≤ 400 }
    ensures { IfOk result (λ text. Shows (settings manager) (opening_front manager.state) (events_of (gen_script n)) (summary n) text.items) }
{
    let mut front = Front::new(alloc, manager);
    summed(alloc, &mut front, n)
}

/// The summary of the run over the generated script of so many devices. The manager is made here and handed on, since the checker is
/// slow where a function holds one.
fn sum_up<R: Drivers>(alloc: Global, n: u64, budget: u64, rack: R) -> Result<Vec<u8>, WantOfMemory>
    requires few { n ≤ 400 }
    requires budget { budget ≤ 1000000 }
    ensures { IfOk result (λ text. IsSummary (R.rows rack) budget n text.items) }
{
    let infs = made_infs(alloc)?;
    match Manager::new(alloc, infs, rack, budget) {
        Ok(manager) => sum_machine(alloc, manager, n),
        Err(error) => Err(error),
    }
}

/// Writes a text.
fn write_text<K: Sink>(text: &[u8], sink: &mut K) -> Status
    ensures only { (result ≡ Status.Done) ⊎ (result ≡ Status.WriteFault) }
    ensures took { result ≡ Status.Done → Appends (K.taken sink.old) (K.taken sink.new) text.now }
    ensures front { AppendsFront (K.taken sink.old) (K.taken sink.new) text.now }
    ensures write_fault { result ≡ Status.WriteFault → Rose (K.faults sink.old) (K.faults sink.new) }
{
    match write_all(sink, text) {
        Ok(()) => Status::Done,
        Err(_) => Status::WriteFault,
    }
}

/// Runs the generated script of so many devices, and writes the summary and nothing else.
pub fn run_made<R: Drivers, K: Sink>(
    alloc: Global,
    n: u64,
    budget: u64,
    rack: R,
    sink: &mut K,
) -> Status
    requires few { n ≤ 400 }
    requires budget { budget ≤ 1000000 }
    ensures only { (result ≡ Status.Done) ⊎ ((result ≡ Status.WriteFault) ⊎ (result ≡ Status.WantOfMemory)) }
    ensures whole { result ≡ Status.Done → Wrote (IsSummary (R.rows rack) budget n) (K.taken sink.old) (K.taken sink.new) }
    ensures front { WroteFront (IsSummary (R.rows rack) budget n) (K.taken sink.old) (K.taken sink.new) }
    ensures write_fault { result ≡ Status.WriteFault → Rose (K.faults sink.old) (K.faults sink.new) }
{
    match sum_up(alloc, n, budget, rack) {
        Ok(text) => write_text(&text, sink),
        Err(_) => Status::WantOfMemory,
    }
}
