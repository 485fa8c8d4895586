ghost use Rattle.std.specs.Prelude.{◌≡◌, ◌↔◌, [], ◌∷◌, ◌++◌, OnOk, OnErr, IsErrOf, IsTrue, find, map, option_map};
ghost use Rattle.std.specs.List.{list_any};
ghost use Rattle.resource_reqs.specs.Resources.{same_kind};
ghost use Rattle.pnp_model.specs.Keyed.{those};
ghost use Rattle.pnp_model.specs.Windows.{is_window_on};
ghost use Rattle.bridge_windows.specs.Ranges.{ranges_of};

use crate::error::WindowError;
use crate::window::Window;
use device_ids::WantOfMemory;
use resource_reqs::{Kind, Res};
use std::alloc::Global;
use std::collections::HashMap;
use std::marker::Model;

/// The windows that were set, at most one of each kind for a device; a window is never taken back. A contract sees the
/// list of birth numbers and ranges in the order in which they were set. This project's own.
pub struct Bridges {
    list: Vec<Window>,
    /// The ranges of a device, by its birth number.
    ranges: HashMap<u64, Vec<Res>>,
}

impl Drop for Bridges {
    fn drop(self) {
        let Bridges { list: _, ranges: _ } = self;
    }
}

impl Model for Bridges {
    ghost use Rattle.std.specs.Prelude.{List};
    ghost use Rattle.pnp_model.specs.Records.{Window};
    ghost use Rattle.bridge_windows.specs.Ranges.{IsIndexed};

    ghost Value = { List Window };

    ghost view = { λ b. b.list.items };

    ghost invariant = { λ b. IsIndexed b.list.items b.ranges };
}

/// Whether a range is of a kind.
fn is_of_kind(res: &Res, kind: Kind) -> bool
    ensures { result ≡ same_kind res.now.kind kind }
{
    res.kind == kind
}

/// The first range of a kind.
fn range_of(ranges: &[Res], kind: Kind) -> Option<&Res>
    ensures { option_map (λ res. res.now) result ≡ find (λ res. same_kind res.kind kind) ranges.now }
{
    ranges.iter().find(|res| is_of_kind(res, kind))
}

impl Bridges {
    /// No window. It takes no memory.
    pub fn new(alloc: Global) -> Bridges
        ensures { result ≡ [] }
    {
        Bridges {
            list: Vec::new(alloc),
            ranges: HashMap::new(alloc),
        }
    }

    /// Whether no window was set. It takes no memory. Cost: constant.
    pub fn is_empty(&self) -> bool
        ensures { IsTrue result ↔ (self.now ≡ []) }
    {
        self.list.is_empty()
    }

    /// The device of a birth number has a window from now on. Errors, the first that holds: `SameWindow` exactly where
    /// it has one of the kind; and `WantOfMemory`. After an error all is as before. Cost: constant, over a run. This
    /// project's own.
    pub fn set(&mut self, born: u64, res: Res) -> Result<(), WindowError>
        ensures set { OnOk result (self.new ≡ self.old ++ record { born = born; res = res } ∷ []) }
        ensures same_window { IsErrOf result WindowError.SameWindow ↔ IsTrue (list_any (is_window_on res.kind (born ∷ [])) self.old) }
        ensures err { OnErr result (self.new ≡ self.old) }
    {
        if self.window(born, res.kind).is_some() {
            return Err(WindowError::SameWindow);
        }
        match self.add(born, res) {
            Ok(()) => Ok(()),
            Err(_) => Err(WindowError::WantOfMemory),
        }
    }

    /// Appends a window.
    fn add(&mut self, born: u64, res: Res) -> Result<(), WantOfMemory>
        ensures added { OnOk result (self.new ≡ self.old ++ record { born = born; res = res } ∷ []) }
        ensures err { OnErr result (self.new ≡ self.old) }
    {
        let alloc = *self.list.allocator();
        let mut ranges = Vec::from_slice(alloc, self.ranges(born))?;
        ranges.push(res)?;
        self.list.reserve(1)?;
        self.ranges.insert(born, ranges)?;
        let _ = self.list.push(Window { born, res });
        Ok(())
    }

    /// The window of a kind of the device of a birth number, and none exactly where none was set. It takes no memory.
    /// Cost: constant.
    pub fn window(&self, born: u64, kind: Kind) -> Option<Res>
        ensures { result ≡ option_map (λ w. w.res) (find (is_window_on kind (born ∷ [])) self.now) }
    {
        range_of(self.ranges(born), kind).copied()
    }

    /// The ranges of the device of a birth number, at most one of each kind. Cost: constant.
    pub(crate) fn ranges(&self, born: u64) -> &[Res]
        ensures { result.now ≡ ranges_of born self.now }
    {
        match self.ranges.get(&born) {
            Some(ranges) => ranges,
            None => &[],
        }
    }
}
