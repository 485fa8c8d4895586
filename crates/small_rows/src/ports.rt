//! 200,000 ports that come in descending order, each before all that are held, and one more 200,000 times in a trial.
ghost use Rattle.std.specs.Prelude.{◌≡◌, ◌≤◌, [], IsTrue, IfOk};
ghost use Rattle.resource_reqs.specs.declared.kind.Kind.{Kind};
ghost use Rattle.trial_journal.specs.ByKind.{of_kind};

use resource_reqs::{Kind, Owner, Res};
use rows_told::must;
use std::alloc::Global;
use std::test::Fail;
use trial_journal::{Arbiters, Journal, Trial};

/// One port.
fn port(number: u64) -> Result<Res, Fail> {
    match Res::make(Kind::Port, number, number, false) {
        Some(port) => Ok(port),
        None => Err(Fail::new("a port")),
    }
}

/// A device holds one resource more, for which there is room.
fn hold(arbiters: &mut Arbiters, device: u64, res: Res) -> Result<(), Fail> {
    if arbiters.spare(res.kind) == 0 {
        return Err(Fail::new("room"));
    }
    arbiters.put(Owner::Device(device), res);
    Ok(())
}

/// Room for 200,001 ports, and for one more of each other kind.
fn make_room(arbiters: &mut Arbiters) -> Result<(), Fail>
    requires { (k : Kind) → (of_kind arbiters.old k).pairs ≡ [] }
{
    arbiters.room_of_each(1)?;
    arbiters.room(Kind::Port, 200_001)?;
    Ok(())
}

/// Arbiters with that room.
fn roomy(alloc: Global) -> Result<Arbiters, Fail> {
    let mut arbiters = Arbiters::new(alloc)?;
    make_room(&mut arbiters)?;
    Ok(arbiters)
}

/// The ports 400,000, 399,998 and so on down to 2.
fn descending(arbiters: &mut Arbiters) -> Result<(), Fail> {
    for turn in 0..200_000u64 {
        hold(arbiters, 1, port(400_000u64.saturating_sub(2 * turn))?)?;
    }
    Ok(())
}

/// Whether there is room for one more of each kind.
fn has_room(arbiters: &Arbiters) -> bool
    ensures { IsTrue result → (k : Kind) → 1 ≤ (of_kind arbiters.now k).spare }
{
    arbiters.spare(Kind::Port) >= 1
        && arbiters.spare(Kind::Irq) >= 1
        && arbiters.spare(Kind::Mem) >= 1
        && arbiters.spare(Kind::Dma) >= 1
        && arbiters.spare(Kind::Bus) >= 1
}

/// One trial, in which the resource is put and undone so often.
fn in_front(arbiters: &mut Arbiters, journal: Journal, res: Res)
    requires room { (k : Kind) → 1 ≤ (of_kind arbiters.old k).spare }
    requires journal { journal ≡ record { entries = []; room = 1 } }
    ensures { arbiters.new ≡ arbiters.old }
{
    let mut trial = Trial::over(arbiters, journal);
    'turns: for _ in 0..200_000u32 {
        trial.put(Owner::Device(2), res);
        trial.undo_to(0);
    }
    trial.roll_back();
}

/// A resource is put and undone so often, where there is room for one more of each kind.
fn try_in_front(alloc: Global, arbiters: &mut Arbiters, res: Res) -> Result<(), Fail> {
    let journal = Journal::with_room(alloc, 1)?;
    if !has_room(arbiters) {
        return Err(Fail::new("room"));
    }
    in_front(arbiters, journal, res);
    Ok(())
}

/// The ports stand in ascending order, and no more.
fn stand_in_order(arbiters: &Arbiters) -> Result<(), Fail> {
    must(holds(arbiters, 0, 2), "the first port")?;
    must(holds(arbiters, 100_000, 200_002), "the port in the middle")?;
    must(holds(arbiters, 199_999, 400_000), "the last port")?;
    must(arbiters.held(Kind::Port, 200_000).is_none(), "a port more")
}

/// Whether the first device holds this port at a position of the list.
fn holds(arbiters: &Arbiters, at: u64, number: u64) -> bool {
    match arbiters.held(Kind::Port, at) {
        Some((Owner::Device(1), port)) => port.lo == number,
        _ => false,
    }
}

/// The ports come, and one more in a trial.
fn come(alloc: Global, arbiters: &mut Arbiters) -> Result<(), Fail> {
    descending(arbiters)?;
    try_in_front(alloc, arbiters, port(0)?)?;
    stand_in_order(arbiters)
}

#[test]
fn ports_in_descending_order(rt: HostRuntime) -> Result<(), Fail> {
    let mut arbiters = roomy(rt.alloc())?;
    come(rt.alloc(), &mut arbiters)
}
