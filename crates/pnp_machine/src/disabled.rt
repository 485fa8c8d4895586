ghost use Rattle.std.specs.Prelude.{◌≡◌, ◌<◌, ◌+◌, [], ◌∷◌, ◌++◌, false, find, OnOk, option_copied};
ghost use Rattle.device_ids.specs.Folding.{same};
ghost use Rattle.pnp_model.specs.Keyed.{without_first};
ghost use Rattle.pnp_model.specs.Tests.{has_same};

use device_ids::{InstancePath, WantOfMemory};
use indexmap::IndexSet;
use std::alloc::Global;
use std::marker::Model;

/// The disabled paths in the order in which they were disabled, looked up without a scan (this project's own). No two
/// are the same up to ASCII case. A contract sees the paths, and for how many more there is room.
pub(crate) struct DisabledPaths {
    paths: IndexSet<InstancePath>,
    room: usize,
}

impl Drop for DisabledPaths {
    fn drop(self) {
        let DisabledPaths { paths: _, room: _ } = self;
    }
}

impl Model for DisabledPaths {
    ghost use Rattle.std.specs.Prelude.{◌≤◌};
    ghost use Rattle.indexmap.specs.IndexSet.{spare};
    ghost use Rattle.pnp_machine.specs.DisabledPaths.{DisabledPaths};

    ghost Value = { DisabledPaths };

    ghost view = { λ d. record { paths = d.paths.keys; room = d.room } };

    ghost invariant = { λ d. d.room ≤ spare d.paths };
}

impl DisabledPaths {
    /// None, and room for none.
    pub(crate) fn new(alloc: Global) -> DisabledPaths
        ensures { result ≡ record { paths = []; room = 0 } }
    {
        DisabledPaths {
            paths: IndexSet::new(alloc),
            room: 0,
        }
    }

    /// Whether a path is disabled, up to ASCII case. It takes no memory. Cost: the length of the path.
    pub(crate) fn has(&self, path: &InstancePath) -> bool
        ensures { result ≡ has_same path.now self.now.paths }
    {
        self.paths.contains(path)
    }

    /// The disabled path that is the same up to ASCII case; none exactly where there is none. It takes no memory. Cost:
    /// the length of the path.
    pub(crate) fn find(&self, path: &InstancePath) -> Option<&InstancePath>
        ensures { option_copied result ≡ find (same path.now) self.now.paths }
    {
        self.paths.get(path)
    }

    /// Takes the memory for one path more. The paths stay, whatever is answered.
    pub(crate) fn make_room(&mut self) -> Result<(), WantOfMemory>
        ensures room { OnOk result (0 < self.new.room) }
        ensures paths { self.new.paths ≡ self.old.paths }
    {
        if self.room == 0 {
            self.paths.reserve(1)?;
            self.room = 1;
        }
        Ok(())
    }

    /// A path is disabled, as the last. Conditions: there is room, and none is the same. It takes no memory. Cost: the
    /// length of the path.
    pub(crate) fn put(&mut self, path: InstancePath)
        requires room { 0 < self.old.room }
        requires new { has_same path self.old.paths ≡ false }
        ensures paths { self.new.paths ≡ self.old.paths ++ path ∷ [] }
        ensures room { self.new.room + 1 ≡ self.old.room }
    {
        let _ = self.paths.insert(path);
        self.room -= 1;
    }

    /// The path that is the same up to ASCII case is no longer disabled; where there is none nothing changes. It takes no
    /// memory. Cost: the length of the path and the number of paths after it.
    pub(crate) fn take(&mut self, path: &InstancePath)
        ensures paths { self.new.paths ≡ without_first (same path.now) self.old.paths }
        ensures room { self.new.room ≡ self.old.room }
    {
        if let Some(place) = self.paths.get_index_of(path) {
            self.paths.shift_remove_index(place);
        }
    }
}
