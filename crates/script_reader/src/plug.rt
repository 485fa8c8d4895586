ghost use Rattle.std.specs.Prelude.{◌≡◌, map, IfOk, [], ◌∷◌};
ghost use Rattle.script_reader.specs.Faults.{Gives};
ghost use Rattle.script_reader.specs.Lines.{hw_of, compat_of, plugged, joined_path, plug_of};

use crate::cause::Cause;
use crate::fault::{LineError, fault};
use crate::lines::path_of;
use crate::needs::{are_attributes, reqs_of, values};
use crate::wants::{id_of, ids_of};
use device_ids::{DeviceId, IdList, InstancePath, PathError};
use pnp_labels::Event;
use std::alloc::{AllocError, Global};

/// A list of one identifier.
fn alone(alloc: Global, id: &DeviceId) -> Result<IdList, AllocError>
    ensures { IfOk result (λ ids. ids ≡ id.now ∷ []) }
{
    let mut ids = IdList::new(alloc);
    ids.push(id.copy(alloc)?)?;
    Ok(ids)
}

/// The hardware IDs; where none are given, the device ID alone.
fn hw_of<'a>(
    alloc: Global,
    device: &DeviceId,
    attributes: &[&'a [u8]],
) -> Result<IdList, LineError<'a>>
    ensures { Gives result (hw_of device.now (map (λ w. w.now) attributes.now)) }
{
    let values = values(alloc, b"hw=", attributes)?;
    match values.as_slice() {
        [] => Ok(alone(alloc, device)?),
        [ids] => ids_of(alloc, ids),
        [_, second, ..] => Err(LineError::Bad(fault(Cause::Twice, second))),
    }
}

/// The compatible IDs; none where none are given.
fn compat_of<'a>(alloc: Global, attributes: &[&'a [u8]]) -> Result<IdList, LineError<'a>>
    ensures { Gives result (compat_of (map (λ w. w.now) attributes.now)) }
{
    let values = values(alloc, b"compat=", attributes)?;
    match values.as_slice() {
        [] => Ok(IdList::new(alloc)),
        [ids] => ids_of(alloc, ids),
        [_, second, ..] => Err(LineError::Bad(fault(Cause::Twice, second))),
    }
}

/// The device of this path below the parent, with what its attributes say.
fn plugged<'a>(
    alloc: Global,
    parent: InstancePath,
    device: &DeviceId,
    path: InstancePath,
    attributes: &[&'a [u8]],
) -> Result<Event, LineError<'a>>
    ensures { Gives result (plugged parent device.now path (map (λ w. w.now) attributes.now)) }
{
    are_attributes(attributes)?;
    let hw = hw_of(alloc, device, attributes)?;
    let compat = compat_of(alloc, attributes)?;
    let reqs = reqs_of(alloc, attributes)?;
    Ok(Event::Plug {
        parent,
        path,
        hw,
        compat,
        reqs,
    })
}

/// The path of both identifiers; a fault names the word of the device.
fn joined_path<'a>(
    alloc: Global,
    word: &'a [u8],
    device: &DeviceId,
    instance: &DeviceId,
) -> Result<InstancePath, LineError<'a>>
    requires { device.now ≡ word.now }
    ensures { Gives result (joined_path device.now instance.now) }
{
    match InstancePath::join(alloc, device, instance) {
        Ok(path) => Ok(path),
        Err(PathError::WantOfMemory) => Err(LineError::WantOfMemory),
        Err(_) => Err(LineError::Bad(fault(Cause::NotJoined, word))),
    }
}

/// `plug PARENT DEVICE INSTANCE` and attributes.
pub fn plug_of<'a>(
    alloc: Global,
    keyword: &'a [u8],
    words: &[&'a [u8]],
) -> Result<Event, LineError<'a>>
    ensures { Gives result (plug_of keyword.now (map (λ w. w.now) words.now)) }
{
    let [parent, word, instance, attributes @ ..] = words else {
        return Err(LineError::Bad(fault(Cause::FewWords, keyword)));
    };
    let parent = path_of(alloc, parent)?;
    let device = id_of(alloc, word)?;
    let instance = id_of(alloc, instance)?;
    let path = joined_path(alloc, word, &device, &instance)?;
    plugged(alloc, parent, &device, path, attributes)
}
