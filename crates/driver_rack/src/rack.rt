ghost use Rattle.std.specs.Prelude.{◌≡◌, ◌<◌, ◌^◌, ◌&&◌, length, map, option_map, is_none, position, IfOk};
ghost use Rattle.pnp_model.specs.Books.{is_unnamed};
ghost use Rattle.pnp_model.specs.Tests.{same_kind};
ghost use Rattle.driver_rack.specs.Rows.{rows_of, unnamed};

use crate::driver::Driver;
use crate::drivers::Drivers;
use crate::errors::{NameError, TeachError};
use crate::names::Names;
use device_ids::{Text, WantOfMemory};
use pnp_labels::{Answer, Ask, DriverKind, Rule};
use std::alloc::Global;
use std::marker::Model;

/// Drivers with their names, numbered from 0. A contract sees the kind, name and book of each. The drivers may be
/// boxes, of which no two need be of one type. This project's own.
pub struct Rack<D: Driver> {
    drivers: Vec<D>,
    names: Names,
}

impl<D: Driver> Drop for Rack<D> {
    fn drop(self) {
        let Rack {
            drivers: _,
            names: _,
        } = self;
    }
}

impl<D: Driver> Model for Rack<D> {
    ghost use Rattle.std.specs.Prelude.{◌≡◌, ◌<◌, ◌^◌, List, length};
    ghost use Rattle.pnp_model.specs.Records.{Driver};
    ghost use Rattle.driver_rack.specs.Rows.{rows_of};

    ghost Value = { List Driver };

    ghost view = { λ r. rows_of D.kind_of D.book r.names r.drivers.items };

    ghost invariant = { λ r. (length r.names ≡ length r.drivers.items) × (length r.drivers.items < 2 ^ 32) };
}

impl<D: Driver> Rack<D> {
    /// The drivers, numbered in the order of the list, with their kinds and books and without names. Cost: the
    /// number of drivers.
    pub fn make(alloc: Global, drivers: Vec<D>) -> Result<Rack<D>, WantOfMemory>
        requires { length drivers.items < 2 ^ 32 }
        ensures { IfOk result (λ rack. rack ≡ map (λ d. unnamed (D.kind_of d) (D.book d)) drivers.items) }
    {
        let names = Names::unnamed(alloc, drivers.len())?;
        Ok(Rack { drivers, names })
    }
}

/// Whether both are one kind.
fn same_kind(own: DriverKind, kind: DriverKind) -> bool
    ensures { result ≡ same_kind own kind }
{
    own == kind
}

/// Whether a driver of a kind, with that name or none, is one of the kind sought without a name.
fn is_unnamed(own: DriverKind, name: Option<&Text>, kind: DriverKind) -> bool
    ensures { result ≡ (same_kind own kind && is_none (option_map (λ text. text.now) name.entry)) }
{
    same_kind(own, kind) && name.is_none()
}

/// The number of the first driver of the kind without a name. Cost: the drivers up to it, each asked its kind.
fn first_unnamed<D: Driver>(drivers: &[D], names: &Names, kind: DriverKind) -> Option<u32>
    requires as_many { length names.now ≡ length drivers.now }
    requires few { length drivers.now < 2 ^ 32 }
    ensures { result ≡ position (is_unnamed kind) (rows_of D.kind_of D.book names.now drivers.now) }
{
    for i in 0..drivers.len() {
        let number = i as u32;
        if is_unnamed(drivers[i].kind(), names.get(number), kind) {
            return Some(number);
        }
    }
    None
}

impl<D: Driver> Drivers for Rack<D> {
    ghost rows = { λ r. r };

    fn len(&self) -> u32 {
        self.drivers.len() as u32
    }

    fn find(&self, name: &Text) -> Option<u32> {
        self.names.find(name)
    }

    fn name_of(&self, driver: u32) -> Option<&Text> {
        self.names.get(driver)
    }

    fn name(&mut self, kind: DriverKind, name: &Text) -> Result<u32, NameError> {
        if let Some(_) = self.names.find(name) {
            return Err(NameError::SameName);
        }
        match first_unnamed(&self.drivers, &self.names, kind) {
            None => Err(NameError::RackEmpty),
            Some(driver) => {
                self.names.give(driver, name)?;
                Ok(driver)
            }
        }
    }

    fn ask(&mut self, driver: u32, ask: &Ask) -> Answer {
        self.drivers[driver as usize].answer(ask)
    }

    fn teach(&mut self, driver: u32, rule: Rule) -> Result<(), TeachError> {
        self.drivers[driver as usize].teach(rule)
    }
}
