ghost use Rattle.std.specs.Prelude.{◌≡◌, ◌<◌, ◌++◌, [], ◌∷◌, length, OnOk, OnErr, get_or, slice_get, Some};

use resource_reqs::{ResList, WantOfMemory};
use std::alloc::Global;
use std::marker::Model;

/// The resources of each mover, in the order of the movers. A contract sees the list of lists of resources.
#[derive(Drop)]
pub struct Plan {
    parts: Vec<ResList>,
}

impl Model for Plan {
    ghost use Rattle.std.specs.Prelude.{List};
    ghost use Rattle.resource_reqs.specs.Resources.{Res};

    ghost Value = { List (List Res) };

    ghost view = { λ p. p.parts.items };
}

impl Plan {
    /// No mover. It takes no memory.
    pub fn new(alloc: Global) -> Plan
        ensures { result ≡ [] }
    {
        Plan {
            parts: Vec::new(alloc),
        }
    }

    /// Appends a mover's resources; after want of memory the plan is as before.
    pub fn push(&mut self, part: ResList) -> Result<(), WantOfMemory>
        ensures pushed { OnOk result (self.new ≡ self.old ++ part ∷ []) }
        ensures err { OnErr result (self.new ≡ self.old) }
    {
        self.parts.push(part)?;
        Ok(())
    }

    /// How many movers there are.
    pub fn len(&self) -> u64
        ensures { result ≡ length self.now }
    {
        self.parts.len() as u64
    }

    /// The resources of the mover at a place.
    pub fn get(&self, at: u64) -> &ResList
        requires { at < length self.now }
        ensures { slice_get self.now at ≡ Some result.now }
    {
        &self.parts[at as usize]
    }

    /// The resources of the first mover, and nothing where there is no mover. It takes no memory, and those of the others
    /// are let go.
    pub fn into_first(self, alloc: Global) -> ResList
        ensures { result ≡ get_or self 0 [] }
    {
        let mut parts = self.parts;
        if parts.is_empty() {
            return ResList::new(alloc);
        }
        parts.swap_remove(0)
    }
}

/// What is answered to a problem and a budget (this project's own).
#[derive(Drop)]
pub enum Found {
    /// The first assignment, found within the budget.
    Assignment(Plan),
    /// No assignment exists, and the budget was enough to see that.
    NoFit,
    /// The budget was not enough.
    Spent,
}
