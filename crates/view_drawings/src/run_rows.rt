use crate::used::Used;
use device_ids::{Text, WantOfMemory};
use pnp_labels::{DevState, Label, Minor};
use std::alloc::{AllocError, Global};
use std::collections::BTreeMap;

/// A device of a run: where it stands, what its drivers were asked last, and the rows that it used.
#[derive(Drop)]
pub struct DeviceRows {
    /// Its path.
    pub path: Text,
    /// The rows that it used.
    pub used: Used,
    state: DevState,
    asked: Option<Minor>,
}

impl DeviceRows {
    /// A driver was added.
    fn add(&mut self) {
        self.used.note_added(self.state);
        if self.state == DevState::NoStack {
            self.state = DevState::NotStarted;
        }
    }

    /// A request ended, and led to a state.
    fn end(&mut self, state: DevState) {
        if let Some(minor) = self.asked {
            self.used.note(self.state, state, minor);
        }
        self.state = state;
    }
}

/// The rows of the state diagram that a run used, by its labels in order: of each device, and of all. This project's own.
#[derive(Drop)]
pub struct RunRows {
    alloc: Global,
    places: BTreeMap<Vec<u8>, usize>,
    devices: Vec<DeviceRows>,
    all: Used,
}

impl RunRows {
    /// No label came. It takes no memory.
    pub fn new(alloc: Global) -> RunRows {
        RunRows {
            alloc,
            places: BTreeMap::new(alloc),
            devices: Vec::new(alloc),
            all: Used::new(),
        }
    }

    /// The place of the device of a path, which joins if it is new.
    fn place(&mut self, path: &Text) -> Result<usize, WantOfMemory> {
        if let Some(place) = self.places.get(path.bytes()) {
            return Ok(*place);
        }
        let place = self.devices.len();
        let key = Vec::from_slice(self.alloc, path.bytes())?;
        let device = DeviceRows {
            path: path.copy(self.alloc)?,
            used: Used::new(),
            state: DevState::NoStack,
            asked: None,
        };
        self.devices.push(device)?;
        match self.places.insert(key, place) {
            Ok(_) => Ok(place),
            Err(_) => Err(AllocError),
        }
    }

    /// A driver of the device of a path was asked.
    fn note_asked(&mut self, path: &Text, minor: Minor) -> Result<(), WantOfMemory> {
        let place = self.place(path)?;
        if let Some(device) = self.devices.get_mut(place) {
            device.asked = Some(minor);
        }
        Ok(())
    }

    /// A driver was added to the device of a path.
    fn note_added(&mut self, path: &Text) -> Result<(), WantOfMemory> {
        let place = self.place(path)?;
        if let Some(device) = self.devices.get_mut(place) {
            self.all.note_added(device.state);
            device.add();
        }
        Ok(())
    }

    /// The device of a path is in a state now.
    fn note_state(&mut self, path: &Text, state: DevState) -> Result<(), WantOfMemory> {
        let place = self.place(path)?;
        if let Some(device) = self.devices.get_mut(place) {
            if let Some(minor) = device.asked {
                self.all.note(device.state, state, minor);
            }
            device.end(state);
        }
        Ok(())
    }

    /// The next label of the run. Cost: the length of its path times the logarithm of the number of devices.
    pub fn note(&mut self, label: &Label) -> Result<(), WantOfMemory> {
        match label {
            Label::Asked { minor, path, .. } => self.note_asked(path, *minor),
            Label::Add { path, ok: true, .. } => self.note_added(path),
            Label::State { path, state } => self.note_state(path, *state),
            _ => Ok(()),
        }
    }

    /// How often each row was used by all devices together.
    pub fn all(&self) -> &Used {
        &self.all
    }

    /// The devices whose drivers were asked or added, in the order in which they first were.
    pub fn devices(&self) -> &[DeviceRows] {
        &self.devices
    }
}
