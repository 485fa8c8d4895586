ghost use Rattle.std.specs.Prelude.{◌≡◌, ◌<◌, ◌≤◌, ◌+◌, ◌^◌, true, IfOk, OnOk};
ghost use Rattle.pnp_machine.specs.Machines.{HasFewIds};

use crate::device::{arrival, naming, one_line, path};
use device_ids::{Text, WantOfMemory};
use driver_rack::{Drivers, Rack, Scripted};
use pnp_labels::{Answer, AskWhat, Event, Label, Minor, Rule, label_line};
use pnp_machine::{Manager, Moved};
use rows_told::same;
use std::alloc::Global;
use std::test::Fail;

/// Whether an event has at most 64 IDs of each sort.
fn has_few_ids(event: &Event) -> bool
    ensures { result ≡ true → HasFewIds event.now }
{
    match event {
        Event::Plug { hw, compat, .. } => hw.len() <= 64 && compat.len() <= 64,
        _ => true,
    }
}

/// An event happens, where it may.
fn happen<R: Drivers>(manager: &mut Manager<R>, event: Event) -> Result<(), WantOfMemory>
    requires { manager.old.events < 2 ^ 24 }
    ensures { OnOk result (manager.new.events ≤ manager.old.events + 1) }
{
    if manager.is_quiet() && has_few_ids(&event) {
        manager.apply(event)?;
    }
    Ok(())
}

/// The next step. Where memory is refused, it is tried once more.
fn step_again<R: Drivers>(manager: &mut Manager<R>) -> Result<Moved, WantOfMemory>
    requires { manager.old.events ≤ 2 ^ 24 }
    ensures { manager.new.events ≡ manager.old.events }
{
    match manager.step() {
        Ok(moved) => Ok(moved),
        Err(_) => manager.step(),
    }
}

/// The line of a label is appended.
fn tell(alloc: Global, label: &Label, out: &mut Vec<u8>) -> Result<(), WantOfMemory> {
    out.extend_from_slice(&label_line(alloc, label)?)?;
    Ok(())
}

/// The same, and the label is let go: here alone, since each place where one goes takes it apart.
fn tell_once(alloc: Global, label: Label, out: &mut Vec<u8>) -> Result<(), WantOfMemory> {
    tell(alloc, &label, out)
}

/// The machine steps until it is quiet, at most a hundred times, and the lines are appended.
fn settle<R: Drivers>(
    alloc: Global,
    manager: &mut Manager<R>,
    out: &mut Vec<u8>,
) -> Result<(), WantOfMemory>
    requires { manager.old.events ≤ 2 ^ 24 }
    ensures { OnOk result (manager.new.events ≡ manager.old.events) }
{
    'steps: for _ in 0..100 {
        match step_again(manager)? {
            Moved::Label(label) => tell_once(alloc, label, out)?,
            Moved::Quiet => return Ok(()),
        }
    }
    Ok(())
}

/// The driver of that service answers a request so once.
fn lesson(alloc: Global, minor: Minor, answer: Answer) -> Result<Event, WantOfMemory> {
    Ok(Event::Teach {
        name: Text::make(alloc, b"serial")?,
        rule: Rule {
            what: AskWhat::Irp(minor),
            path: None,
            answer,
            uses: Some(1),
        },
    })
}

/// A manager of one scripted driver, with that INF.
fn one_driver(alloc: Global) -> Result<Manager<Rack<Scripted>>, WantOfMemory>
    ensures { IfOk result (λ m. m.events ≡ 0) }
{
    let mut infs = Vec::with_capacity(alloc, 1)?;
    infs.push(one_line(alloc)?)?;
    let mut drivers = Vec::with_capacity(alloc, 1)?;
    drivers.push(Scripted::make(alloc)?)?;
    Manager::new(alloc, infs, Rack::make(alloc, drivers)?, 100)
}

/// The driver gets its name, and learns its answer to its first START_DEVICE.
fn teach<R: Drivers>(
    alloc: Global,
    manager: &mut Manager<R>,
    answer: Answer,
) -> Result<(), WantOfMemory>
    requires { manager.old.events ≡ 0 }
    ensures { OnOk result (manager.new.events ≤ 2) }
{
    happen(manager, naming(alloc)?)?;
    happen(manager, lesson(alloc, Minor::Start, answer)?)?;
    Ok(())
}

/// The device arrives: the lines that follow, and the end of the output.
fn arrive<R: Drivers>(alloc: Global, manager: &mut Manager<R>) -> Result<Vec<u8>, WantOfMemory>
    requires { manager.old.events ≤ 2 }
    ensures { OnOk result (manager.new.events ≤ 3) }
{
    let mut out = Vec::with_capacity(alloc, 4096)?;
    happen(manager, arrival(alloc)?)?;
    settle(alloc, manager, &mut out)?;
    out.extend_from_slice(&manager.ending(alloc)?)?;
    Ok(out)
}

/// An event happens, and the lines that follow are appended.
fn follow<R: Drivers>(
    alloc: Global,
    manager: &mut Manager<R>,
    event: Event,
    out: &mut Vec<u8>,
) -> Result<(), WantOfMemory>
    requires { manager.old.events < 2 ^ 24 }
    ensures { OnOk result (manager.new.events ≤ manager.old.events + 1) }
{
    happen(manager, event)?;
    settle(alloc, manager, out)
}

/// The device is pulled while a handle to it is open, which is then closed: the lines that follow.
fn hold<R: Drivers>(alloc: Global, manager: &mut Manager<R>) -> Result<Vec<u8>, WantOfMemory>
    requires { manager.old.events ≤ 3 }
{
    let mut out = Vec::with_capacity(alloc, 4096)?;
    let path = path(alloc, b"OWN\\DEV\\1")?;
    let opened = path.copy(alloc)?;
    let pulled = path.copy(alloc)?;
    follow(alloc, manager, Event::OpenHandle { path: opened }, &mut out)?;
    follow(alloc, manager, Event::Pull { path: pulled }, &mut out)?;
    follow(alloc, manager, Event::CloseHandle { path }, &mut out)?;
    Ok(out)
}

/// What happens to the device.
#[derive(Copy, Clone)]
enum Story {
    /// It arrives, and its driver answers its first START_DEVICE so.
    Arrives(Answer),
    /// It arrives, starts, and is pulled while it is held open.
    IsHeld,
}

/// The story's lines: those of the arrival with the end of the output, or those that follow the arrival.
fn play<R: Drivers>(
    alloc: Global,
    manager: &mut Manager<R>,
    story: Story,
) -> Result<Vec<u8>, WantOfMemory>
    requires { manager.old.events ≡ 0 }
{
    match story {
        Story::Arrives(answer) => {
            teach(alloc, manager, answer)?;
            arrive(alloc, manager)
        }
        Story::IsHeld => {
            teach(alloc, manager, Answer::Ok)?;
            arrive(alloc, manager)?;
            hold(alloc, manager)
        }
    }
}

/// The lines of a story.
fn lines(alloc: Global, story: Story) -> Result<Vec<u8>, WantOfMemory> {
    let mut manager = one_driver(alloc)?;
    play(alloc, &mut manager, story)
}

/// The same, made anew where memory was refused outside a step.
fn lines_again(alloc: Global, story: Story) -> Result<Vec<u8>, WantOfMemory> {
    match lines(alloc, story) {
        Ok(out) => Ok(out),
        Err(_) => lines(alloc, story),
    }
}

/// With `--fail-alloc N` some step is refused for memory, and tried again: were its driver asked twice, it would answer ok,
/// and the device would be up.
#[test]
fn a_refused_step_asks_its_driver_once(rt: HostRuntime) -> Result<(), Fail> {
    let out = lines_again(rt.alloc(), Story::Arrives(Answer::Fail))?;
    let expected = b"join 1 OWN\\DEV\\1\n\
        listed HTREE\\ROOT\\0\n\
        install OWN\\DEV\\1 00ff0000 serial\n\
        add OWN\\DEV\\1 serial ok\n\
        assign OWN\\DEV\\1\n\
        START_DEVICE OWN\\DEV\\1 serial fail\n\
        state OWN\\DEV\\1 NotStarted\n\
        problem OWN\\DEV\\1 10\n\
        REMOVE_DEVICE OWN\\DEV\\1 serial ok\n\
        state OWN\\DEV\\1 NoStack\n\
        tree\n\
        0 HTREE\\ROOT\\0 Started\n 1 OWN\\DEV\\1 NoStack problem 10\n\
        map\n\
        outstanding\n";
    same(&out, expected)
}

#[test]
fn a_start_waits_and_goes_on(rt: HostRuntime) -> Result<(), Fail> {
    let out = lines_again(rt.alloc(), Story::Arrives(Answer::Pend))?;
    let expected = b"join 1 OWN\\DEV\\1\n\
        listed HTREE\\ROOT\\0\n\
        install OWN\\DEV\\1 00ff0000 serial\n\
        add OWN\\DEV\\1 serial ok\n\
        assign OWN\\DEV\\1\n\
        START_DEVICE OWN\\DEV\\1 serial pend\n\
        tree\n\
        0 HTREE\\ROOT\\0 Started\n 1 OWN\\DEV\\1 NotStarted\n\
        map\n\
        outstanding\n\
        OWN\\DEV\\1 START_DEVICE serial\n";
    same(&out, expected)
}

#[test]
fn a_device_waits_for_its_handle(rt: HostRuntime) -> Result<(), Fail> {
    let out = lines_again(rt.alloc(), Story::IsHeld)?;
    let expected = b"gone OWN\\DEV\\1\n\
        listed HTREE\\ROOT\\0\n\
        begin surprise OWN\\DEV\\1\n\
        SURPRISE_REMOVAL OWN\\DEV\\1 serial ok\n\
        state OWN\\DEV\\1 SurpriseRemoved\n\
        waits OWN\\DEV\\1\n\
        end surprise OWN\\DEV\\1 waiting\n\
        begin finish OWN\\DEV\\1\n\
        REMOVE_DEVICE OWN\\DEV\\1 serial ok\n\
        state OWN\\DEV\\1 NoStack\n\
        leave OWN\\DEV\\1\n\
        end finish OWN\\DEV\\1 done\n";
    same(&out, expected)
}
