//! Pascal's table.
ghost use Rattle.std.specs.Prelude.{◌≡◌, ◌<◌, ◌≤◌, OnOk, IfOk, length};
ghost use Rattle.script_family.specs.Counts.{ways, capped};
ghost use Rattle.script_family.specs.Tables.{IsWaysRow};

use device_ids::WantOfMemory;
use std::alloc::Global;
use std::marker::Model;

/// In how many ways k of n places are chosen, for each n below a number of rows: up to 2^64 - 1. A contract sees the number of rows.
#[derive(Drop)]
pub(crate) struct Ways {
    alloc: Global,
    rows: Vec<Vec<u64>>,
}

impl Model for Ways {
    ghost use Rattle.std.specs.Prelude.{ℕ, length, map};
    ghost use Rattle.script_family.specs.Tables.{IsPascal};

    ghost Value = { ℕ };

    ghost view = { λ w. length w.rows.items };

    ghost invariant = { λ w. IsPascal (map (λ row. row.items) w.rows.items) };
}

impl Ways {
    /// A table without rows. It takes no memory.
    pub(crate) fn new(alloc: Global) -> Ways
        ensures { result ≡ 0 }
    {
        Ways {
            alloc,
            rows: Vec::new(alloc),
        }
    }

    /// In how many ways k of n places are chosen. Condition: the table has a row for n.
    pub(crate) fn of(&self, n: usize, k: usize) -> u64
        requires { n < self.now }
        ensures { result ≡ capped (ways n k) }
    {
        match self.rows[n].get(k) {
            Some(ways) => *ways,
            None => 0,
        }
    }

    /// The row for one place more than the last row has.
    fn next_row(&self) -> Result<Vec<u64>, WantOfMemory>
        ensures { IfOk result (λ row. IsWaysRow self.now row.items) }
    {
        let n = self.rows.len();
        let mut row = Vec::new(self.alloc);
        row.push(1)?;
        for k in 0..n {
            row.push(self.of(n - 1, k).saturating_add(self.of(n - 1, k + 1)))?;
        }
        Ok(row)
    }

    /// Adds rows until the table has so many.
    pub(crate) fn grow(&mut self, rows: usize) -> Result<(), WantOfMemory>
        ensures more { OnOk result (rows ≤ self.new) }
        ensures kept { self.old ≤ self.new }
    {
        while self.rows.len() < rows {
            let row = self.next_row()?;
            self.rows.push(row)?;
        }
        Ok(())
    }
}
