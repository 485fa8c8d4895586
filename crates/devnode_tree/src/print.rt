ghost use Rattle.std.specs.Prelude.{◌≡◌, ◌<◌, ◌^◌, ◌++◌, IfOk, OnOk, map, reverse};
ghost use Rattle.std.specs.List.{AllByRecursion};
ghost use Rattle.pnp_model.specs.Endings.{print_order};
ghost use Rattle.devnode_tree.specs.Rows.{row_of, row_at};

use crate::tree::Tree;
use device_ids::WantOfMemory;
use pnp_labels::SerialList;
use std::alloc::Global;

/// A line of the printed tree.
#[derive(Clone, Copy, PartialEq, Eq)]
pub struct PrintRow {
    /// The node.
    pub serial: u64,
    /// How many levels it stands below the root.
    pub depth: u64,
}

/// Puts children on the rows that are still to be printed, the first on top.
fn put_children(
    pending: &mut Vec<PrintRow>,
    children: &[u64],
    depth: u64,
) -> Result<(), WantOfMemory>
    ensures { OnOk result (pending.new.items ≡ pending.old.items ++ map (row_at depth) (reverse children.now)) }
{
    pending.extend(
        children.iter().rev().map(|child| PrintRow {
            serial: *child,
            depth,
        }),
    )?;
    Ok(())
}

impl Tree {
    /// The nodes and how deep they stand, depth first from the root: after a node come its children by serial, each
    /// followed at once by all that is below it, before the next child. Cost: the number of nodes times its
    /// logarithm.
    pub fn print_rows(&self, alloc: Global) -> Result<Vec<PrintRow>, WantOfMemory>
        ensures { IfOk result (λ rows. rows.items ≡ map row_of (print_order self.now.nodes)) }
    {
        let mut rows = Vec::with_capacity(alloc, self.len())?;
        let mut pending = Vec::new(alloc);
        pending.push(PrintRow {
            serial: 0,
            depth: 0,
        })?;
        while let Some(row) = pending.pop() {
            rows.push(row)?;
            put_children(&mut pending, self.children(row.serial), row.depth + 1)?;
        }
        Ok(rows)
    }

    /// The serials of `print_rows`. Cost: the number of nodes times its logarithm.
    pub fn print_order(&self, alloc: Global) -> Result<SerialList, WantOfMemory>
        ensures { IfOk result (λ serials. serials ≡ map (λ p. p.node.serial) (print_order self.now.nodes)) }
    {
        let rows = self.print_rows(alloc)?;
        let mut serials = SerialList::new(alloc);
        for row in &rows {
            serials.push(row.serial)?;
        }
        Ok(serials)
    }
}
