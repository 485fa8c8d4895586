ghost use Rattle.std.specs.Prelude.{◌≡◌, codes, IfOk};
ghost use Rattle.pnp_labels.specs.declared.event.Event.TheVariants.{Name};
ghost use Rattle.pnp_labels.specs.declared.words.DriverKind.TheVariants.{Scripted};
ghost use Rattle.pnp_machine.specs.Machines.{HasFewIds};

use device_ids::{DeviceId, IdList, InstancePath, Text, TextList, WantOfMemory};
use inf_reader::{Inf, ModelLine, ModelLines};
use pnp_labels::{DriverKind, Event};
use resource_reqs::Reqs;
use std::alloc::{AllocError, Global};

/// An INF whose one line gives the device a service.
pub fn one_line(alloc: Global) -> Result<Inf, WantOfMemory> {
    let mut ids = TextList::new(alloc);
    ids.push(Text::make(alloc, b"OWN\\DEV")?)?;
    let mut lines = ModelLines::new(alloc);
    lines.push(ModelLine {
        line: 1,
        ids,
        score: 255,
        service: Some(Text::make(alloc, b"serial")?),
        lower: TextList::new(alloc),
        upper: TextList::new(alloc),
    })?;
    Ok(Inf {
        date: 20010101,
        version: 0,
        lines,
    })
}

/// A path of the machine.
pub fn path(alloc: Global, bytes: &[u8]) -> Result<InstancePath, WantOfMemory> {
    InstancePath::read(alloc, bytes).map_err(|_| AllocError)
}

/// A device with the ID of that line arrives below the root, without requirements.
pub fn arrival(alloc: Global) -> Result<Event, WantOfMemory>
    ensures { IfOk result HasFewIds }
{
    let id = DeviceId::read(alloc, b"OWN\\DEV").map_err(|_| AllocError)?;
    let mut hw = IdList::new(alloc);
    hw.push(id)?;
    Ok(Event::Plug {
        parent: path(alloc, b"HTREE\\ROOT\\0")?,
        path: path(alloc, b"OWN\\DEV\\1")?,
        hw,
        compat: IdList::new(alloc),
        reqs: Reqs::new(alloc),
    })
}

/// The driver gets the name of that service.
pub fn naming(alloc: Global) -> Result<Event, WantOfMemory>
    ensures { IfOk result (λ event. event ≡ Name (codes "serial") Scripted) }
{
    let name = Text::make(alloc, b"serial")?;
    let kind = DriverKind::Scripted;
    Ok(Event::Name { name, kind })
}
