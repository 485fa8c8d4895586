ghost use Rattle.std.specs.Prelude.{◌≡◌, ◌++◌, ◌==◌, [], length, position, IfOk, OnOk, OnErr};
ghost use Rattle.std.specs.List.{list_any};
ghost use Rattle.std.specs.List.Sorted.{IsNonDecreasingBy};
ghost use Rattle.pnp_model.specs.Keyed.{put_before, those, without_first};
ghost use Rattle.notify_front.specs.Fronts.{comes_after, is_of, is_on, on_each};
ghost use Rattle.notify_front.specs.Hands.{after_last};

use crate::registration::Registration;
use device_ids::{Text, WantOfMemory};
use pnp_labels::SerialList;
use std::alloc::Global;
use std::marker::Model;

/// Who is registered on which device. A contract sees the registrations in the order of the devices' serials, those of one device
/// as they were made.
pub(crate) struct Registrations {
    items: Vec<Registration>,
}

impl Drop for Registrations {
    fn drop(self) {
        let Registrations { items: _ } = self;
    }
}

impl Model for Registrations {
    ghost use Rattle.std.specs.Prelude.{List};
    ghost use Rattle.std.specs.List.Sorted.{IsNonDecreasingBy};
    ghost use Rattle.notify_front.specs.Fronts.{Registration};

    ghost Value = { List Registration };

    ghost view = { λ r. r.items.items };

    ghost invariant = { λ r. IsNonDecreasingBy (λ (x : Registration). x.device) r.items.items };
}

impl Registrations {
    /// Nobody. It takes no memory.
    pub(crate) fn new(alloc: Global) -> Registrations
        ensures { result ≡ [] }
    {
        Registrations {
            items: Vec::new(alloc),
        }
    }

    /// Whether nobody is registered.
    pub(crate) fn is_empty(&self) -> bool
        ensures { result ≡ (length self.now == 0) }
    {
        self.items.is_empty()
    }

    /// Whether the client is registered on the device. Cost: the logarithm of the number of registrations, and those on the device.
    pub(crate) fn has(&self, client: &Text, device: u64) -> bool
        ensures { result ≡ list_any (is_of client.now device) self.now }
    {
        those_on(&self.items, device)
            .iter()
            .any(|r| r.is_of(client, device))
    }

    /// One more, behind those on its device; after want of memory all is as before. Cost: the number of registrations.
    pub(crate) fn put(&mut self, registration: Registration) -> Result<(), WantOfMemory>
        ensures put { OnOk result (self.new ≡ put_before (comes_after registration.device) registration self.old) }
        ensures err { OnErr result (self.new ≡ self.old) }
    {
        let device = registration.device;
        let place = self.items.partition_point(|other| other.device <= device);
        self.items.insert(place, registration)?;
        Ok(())
    }

    /// Takes out the first one of the client on the device, if there is one. It takes no memory. Cost: the logarithm of the number
    /// of registrations, those on the device, and those behind the one that goes, which move up.
    pub(crate) fn take(&mut self, client: &Text, device: u64)
        ensures { self.new ≡ without_first (is_of client.now device) self.old }
    {
        if let Some(place) = place_of(&self.items, client, device) {
            self.items.remove(place);
        }
    }

    /// A client was told; after the last notice that it hears it is registered no more. It takes no memory. Cost: that of `take`
    /// after the last notice, and none before it.
    pub(crate) fn heard(&mut self, client: &Registration, last: bool)
        ensures { self.new ≡ after_last last client.now self.old }
    {
        if last {
            self.take(&client.client, client.device);
        }
    }

    /// Copies of those on these devices, in the order of the devices. Cost: for each device the logarithm of the number of
    /// registrations, and the length of what is copied.
    pub(crate) fn on_each(
        &self,
        alloc: Global,
        devices: &SerialList,
    ) -> Result<Vec<Registration>, WantOfMemory>
        ensures { IfOk result (λ told. told.items ≡ on_each devices.now self.now) }
    {
        let mut told = Vec::new(alloc);
        'devices: for at in 0..devices.len() {
            append_copies(alloc, &mut told, those_on(&self.items, *devices.get(at)))?;
        }
        Ok(told)
    }
}

/// The place of the first one of the client on the device, in registrations that are sorted by device. Cost: the logarithm of
/// their number, and those on the device.
fn place_of(items: &[Registration], client: &Text, device: u64) -> Option<usize>
    requires { IsNonDecreasingBy (λ r. r.device) items.now }
    ensures { result ≡ position (is_of client.now device) items.now }
{
    let low = items.partition_point(|r| r.device < device);
    let place = those_on(items, device)
        .iter()
        .position(|r| r.is_of(client, device))?;
    Some(low + place)
}

/// Those on a device, of registrations that are sorted by device. Cost: the logarithm of their number.
fn those_on(items: &[Registration], device: u64) -> &[Registration]
    requires { IsNonDecreasingBy (λ r. r.device) items.now }
    ensures { result.now ≡ those (is_on device) items.now }
{
    let low = items.partition_point(|r| r.device < device);
    let rest = &items[low..];
    let count = rest.partition_point(|r| r.device <= device);
    &rest[..count]
}

/// Appends copies of registrations.
fn append_copies(
    alloc: Global,
    told: &mut Vec<Registration>,
    more: &[Registration],
) -> Result<(), WantOfMemory>
    ensures { OnOk result (told.new.items ≡ told.old.items ++ more.now) }
{
    for registration in more {
        told.push(registration.copy(alloc)?)?;
    }
    Ok(())
}
