ghost use Rattle.std.specs.Prelude.{◌≡◌, ◌≤◌, ◌+◌, true, IfOk, Ok, None};

use crate::device::{arrival, naming, one_line};
use device_ids::WantOfMemory;
use free_run::FreeRun;
use line_run::LineRun;
use pnp_labels::DriverKind;
use rows_told::same;
use std::alloc::Global;
use std::test::Fail;

/// A run of one driver and that INF, to which nothing happened.
fn one_run(alloc: Global) -> Result<LineRun, WantOfMemory>
    ensures offered { IfOk result (λ run. run.offered ≡ None) }
    ensures events { IfOk result (λ run. run.run.events ≡ 0) }
{
    let infs = vec![in alloc; one_line(alloc)?]?;
    let run = FreeRun::new(alloc, infs, &[DriverKind::Scripted], 100)?;
    Ok(LineRun::new(run))
}

/// The device arrives.
fn arrives(alloc: Global, run: &mut LineRun, line: &[u8]) -> Result<bool, WantOfMemory>
    requires offered { run.old.offered ≡ None }
    requires events { run.old.run.events ≤ 4 }
    ensures offered { result ≡ Ok true → run.new.offered ≡ None }
    ensures events { run.new.run.events ≤ run.old.run.events + 1 }
{
    run.try_line(alloc, Some(arrival(alloc)?), line)
}

/// The driver gets its name: the line of another name is tried first, and is not taken.
fn is_named(alloc: Global, run: &mut LineRun) -> Result<bool, WantOfMemory>
    requires offered { run.old.offered ≡ None }
    requires events { run.old.run.events ≡ 0 }
    ensures offered { result ≡ Ok true → run.new.offered ≡ None }
    ensures events { run.new.run.events ≤ 2 }
{
    if run.try_line(alloc, Some(naming(alloc)?), b"event driver net\n")? {
        return Ok(false);
    }
    run.try_line(alloc, Some(naming(alloc)?), b"event driver serial\n")
}

/// Whether the line is taken where no event is looked at. Where memory is refused the run is as before, and the line is tried once more.
fn takes(alloc: Global, run: &mut LineRun, line: &[u8]) -> Result<bool, WantOfMemory>
    requires offered { run.old.offered ≡ None }
    requires events { run.old.run.events ≤ 4 }
    ensures offered { run.new.offered ≡ None }
    ensures events { run.new.run.events ≡ run.old.run.events }
{
    match run.try_line(alloc, None, line) {
        Ok(taken) => Ok(taken),
        Err(_) => run.try_line(alloc, None, line),
    }
}

/// The line is taken, and the one before it is not: the run is as before it.
fn takes_second(
    alloc: Global,
    run: &mut LineRun,
    wrong: &[u8],
    right: &[u8],
) -> Result<bool, WantOfMemory>
    requires offered { run.old.offered ≡ None }
    requires events { run.old.run.events ≤ 4 }
    ensures offered { run.new.offered ≡ None }
    ensures events { run.new.run.events ≡ run.old.run.events }
{
    let took = takes(alloc, run, wrong)?;
    Ok(takes(alloc, run, right)? && !took)
}

/// The lines up to the driver that is asked first: a step that asks nobody has one line.
fn is_installed(alloc: Global, run: &mut LineRun) -> Result<bool, WantOfMemory>
    requires offered { run.old.offered ≡ None }
    requires events { run.old.run.events ≤ 4 }
    ensures offered { run.new.offered ≡ None }
    ensures events { run.new.run.events ≡ run.old.run.events }
{
    let joined = takes_second(alloc, run, b"join 2 OWN\\DEV\\1\n", b"join 1 OWN\\DEV\\1\n")?;
    let listed = takes(alloc, run, b"listed HTREE\\ROOT\\0\n")?;
    let installed = takes(alloc, run, b"install OWN\\DEV\\1 00ff0000 serial\n")?;
    Ok(joined && listed && installed)
}

/// The driver adds its device, and fails its start: lines that tell no answer of it come first.
fn is_asked(alloc: Global, run: &mut LineRun) -> Result<bool, WantOfMemory>
    requires offered { run.old.offered ≡ None }
    requires events { run.old.run.events ≤ 4 }
    ensures offered { run.new.offered ≡ None }
    ensures events { run.new.run.events ≡ run.old.run.events }
{
    let added = takes_second(
        alloc,
        run,
        b"add OWN\\DEV\\1 serial pend\n",
        b"add OWN\\DEV\\1 serial ok\n",
    )?;
    let assigned = takes(alloc, run, b"assign OWN\\DEV\\1\n")?;
    let wrong = b"START_DEVICE OWN\\DEV\\1 serial violation\n";
    let failed = takes_second(alloc, run, wrong, b"START_DEVICE OWN\\DEV\\1 serial fail\n")?;
    Ok(added && assigned && failed)
}

/// The lines behind it.
fn is_bare(alloc: Global, run: &mut LineRun) -> Result<bool, WantOfMemory>
    requires offered { run.old.offered ≡ None }
    requires events { run.old.run.events ≤ 4 }
    ensures offered { run.new.offered ≡ None }
    ensures events { run.new.run.events ≡ run.old.run.events }
{
    let stopped = takes(alloc, run, b"state OWN\\DEV\\1 NotStarted\n")?;
    let told = takes(alloc, run, b"problem OWN\\DEV\\1 10\n")?;
    let wrong = b"REMOVE_DEVICE OWN\\DEV\\1 net ok\n";
    let removed = takes_second(alloc, run, wrong, b"REMOVE_DEVICE OWN\\DEV\\1 serial ok\n")?;
    let bare = takes(alloc, run, b"state OWN\\DEV\\1 NoStack\n")?;
    Ok(stopped && told && removed && bare)
}

/// The driver gets its name, the device arrives, and its driver fails to start it.
fn story(alloc: Global, run: &mut LineRun) -> Result<bool, WantOfMemory>
    requires offered { run.old.offered ≡ None }
    requires events { run.old.run.events ≡ 0 }
    ensures { result ≡ Ok true → run.new.offered ≡ None }
{
    if !is_named(alloc, run)? {
        return Ok(false);
    }
    if !arrives(alloc, run, b"event plug OWN\\DEV\\1\n")? {
        return Ok(false);
    }
    let installed = is_installed(alloc, run)?;
    let asked = is_asked(alloc, run)?;
    let bare = is_bare(alloc, run)?;
    Ok(installed && asked && bare)
}

/// The end of the output, where each right line was taken, no wrong one, and the run is quiet; else nothing.
fn told(alloc: Global) -> Result<Vec<u8>, WantOfMemory> {
    let mut run = one_run(alloc)?;
    if story(alloc, &mut run)? && run.is_quiet() {
        run.ending(alloc)
    } else {
        Ok(Vec::new(alloc))
    }
}

/// The same, made anew where memory was refused outside a line that no event is looked at for.
fn told_again(alloc: Global) -> Result<Vec<u8>, WantOfMemory> {
    match told(alloc) {
        Ok(out) => Ok(out),
        Err(_) => told(alloc),
    }
}

#[test]
fn a_line_that_is_not_taken_leaves_the_run(rt: HostRuntime) -> Result<(), Fail> {
    let out = told_again(rt.alloc())?;
    let expected = b"tree\n\
        0 HTREE\\ROOT\\0 Started\n 1 OWN\\DEV\\1 NoStack problem 10\n\
        map\n\
        outstanding\n";
    same(&out, expected)
}
