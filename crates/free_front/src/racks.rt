ghost use Rattle.std.specs.Prelude.{◌≡◌, ◌<◌, ◌^◌, IfOk, OnOk, OnErr, List, length, map};
ghost use Rattle.pnp_model.specs.Records.{Driver as Row};
ghost use Rattle.free_model.specs.Frees.{new_driver, told};
ghost use Rattle.free_front.specs.Racks.{named, named_in, named_all, list_of};

use crate::driver::FreeDriver;
use device_ids::{Text, WantOfMemory};
use driver_rack::{Drivers, NameError, Rack};
use pnp_labels::{Answer, DriverKind, Event};
use std::alloc::{AllocError, Global};

/// Drivers of these kinds, in no one's name, that were taught nothing. Cost: their number.
pub(crate) fn own_rack(
    alloc: Global,
    kinds: &[DriverKind],
) -> Result<Rack<FreeDriver>, WantOfMemory>
    requires { length kinds.now < 2 ^ 32 }
    ensures { IfOk result (λ rack. rack ≡ map new_driver kinds.now) }
{
    let mut drivers = Vec::with_capacity(alloc, kinds.len())?;
    for kind in kinds {
        drivers.push(FreeDriver::own(alloc, *kind)?)?;
    }
    Rack::make(alloc, drivers)
}

/// Drivers of these kinds, in no one's name, that answer so, whatever they are asked. Cost: their number.
pub(crate) fn told_rack(
    alloc: Global,
    kinds: &[DriverKind],
    answer: Answer,
) -> Result<Rack<FreeDriver>, WantOfMemory>
    requires { length kinds.now < 2 ^ 32 }
    ensures { IfOk result (λ rack. rack ≡ told answer (map new_driver kinds.now)) }
{
    let mut drivers = Vec::with_capacity(alloc, kinds.len())?;
    for kind in kinds {
        drivers.push(FreeDriver::telling(alloc, *kind, answer)?)?;
    }
    Rack::make(alloc, drivers)
}

/// A name that the first driver of a kind gets that has none. This project's own.
#[derive(Drop)]
pub(crate) struct Naming {
    name: Text,
    kind: DriverKind,
}

/// The name that an event gives, if it gives one.
pub(crate) fn naming_of(alloc: Global, event: &Event) -> Result<Option<Naming>, WantOfMemory>
    ensures { IfOk result (λ naming. (rack : List Row) → named_all (list_of naming) rack ≡ named_in event.now rack) }
{
    match event {
        Event::Name { name, kind } => {
            let name = name.copy(alloc)?;
            Ok(Some(Naming { name, kind: *kind }))
        }
        _ => Ok(None),
    }
}

/// Gives a name; where no driver of the kind is without one, or a driver has the name, nothing changes. After want of memory the
/// rack is as before.
pub(crate) fn give(rack: &mut Rack<FreeDriver>, naming: &Naming) -> Result<(), WantOfMemory>
    ensures named { OnOk result (rack.new ≡ named naming.now.name naming.now.kind rack.old) }
    ensures err { OnErr result (rack.new ≡ rack.old) }
{
    match rack.name(naming.kind, &naming.name) {
        Ok(_) => Ok(()),
        Err(NameError::SameName) => Ok(()),
        Err(NameError::RackEmpty) => Ok(()),
        Err(NameError::WantOfMemory) => Err(AllocError),
    }
}
