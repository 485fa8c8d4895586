ghost use Rattle.std.specs.Prelude.{◌≡◌, ◌≤◌, [], vec_capacity};

use resource_reqs::{Owner, Res, WantOfMemory};
use std::alloc::Global;

/// Memory for the pairs of a block.
#[derive(Drop)]
pub struct Room {
    /// No pairs yet, with place for 32.
    pub pairs: Vec<(Owner, Res)>,
    ghost empty: { (pairs.items ≡ []) × (32 ≤ vec_capacity pairs) },
}

impl Room {
    /// Memory for 32 pairs.
    pub fn new(alloc: Global) -> Result<Room, WantOfMemory> {
        let pairs = Vec::with_capacity(alloc, 32)?;
        Ok(Room { pairs })
    }
}
