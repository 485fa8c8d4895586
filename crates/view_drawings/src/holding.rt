ghost use Rattle.std.specs.Prelude.{◌≡◌, ◌<◌, ◌+◌, ◌++◌, List, IfOk, OnOk, length, map, take};
ghost use Rattle.std.specs.List.Sorted.{IsPermutation};
ghost use Rattle.pnp_model.specs.Endings.{Held, reserved_rows, node_rows};
ghost use Rattle.view_drawings.specs.Holdings.{held_row};

use device_ids::{Text, WantOfMemory};
use devnode_tree::{Node, Tree};
use resource_reqs::{Kind, Owner, Res, ResList};
use std::alloc::Global;
use std::marker::Model;

/// Numbers of a kind, and who has them. A contract sees the row of the printed map.
#[derive(Drop)]
pub struct Holding {
    /// Kind, first and last number, and whether they are shared.
    pub res: Res,
    /// Who has them.
    pub owner: Owner,
    /// The path of that device, or `reserved`.
    pub words: Text,
}

impl Model for Holding {
    ghost use Rattle.pnp_model.specs.Endings.{Held};
    ghost use Rattle.view_drawings.specs.Holdings.{owner_number};

    ghost Value = { Held };

    ghost view = { λ h. record { res = h.res; owner = owner_number h.owner; words = h.words } };
}

impl Holding {
    /// What the map is ordered by: kind, first number, last number, and owner, what is reserved first.
    pub fn key(&self) -> (Kind, u64, u64, Owner) {
        (self.res.kind, self.res.lo, self.res.hi, self.owner)
    }
}

/// Appends what is reserved.
fn add_reserved(alloc: Global, all: &mut Vec<Holding>, reserved: &[Res]) -> Result<(), WantOfMemory>
    ensures { OnOk result (all.new.items ≡ all.old.items ++ reserved_rows reserved.now) }
{
    'reserved: for res in reserved {
        let words = Text::make(alloc, b"reserved")?;
        all.push(Holding {
            res: *res,
            owner: Owner::Reserved,
            words,
        })?;
    }
    Ok(())
}

/// Appends what the device of a serial and a path holds.
fn add_held(
    alloc: Global,
    all: &mut Vec<Holding>,
    serial: u64,
    path: &[u8],
    held: &ResList,
) -> Result<(), WantOfMemory>
    ensures { OnOk result (all.new.items ≡ all.old.items ++ map (held_row serial path.now) held.now) }
{
    'held: for at in 0..held.len() {
        let words = Text::make(alloc, path)?;
        all.push(Holding {
            res: *held.get(at),
            owner: Owner::Device(serial),
            words,
        })?;
    }
    Ok(())
}

/// Appends what a device holds.
fn add_of(alloc: Global, all: &mut Vec<Holding>, node: &Node) -> Result<(), WantOfMemory>
    ensures { OnOk result (all.new.items ≡ all.old.items ++ map (held_row node.now.serial node.now.path) node.now.holds) }
{
    add_held(alloc, all, node.serial, node.path.bytes(), &node.holds)
}

/// Appends what the device at a place of a tree holds.
fn add_node(
    alloc: Global,
    all: &mut Vec<Holding>,
    tree: &Tree,
    at: usize,
) -> Result<(), WantOfMemory>
    requires { at < length tree.now.nodes }
    ensures { OnOk result ((before : List Held) → all.old.items ≡ before ++ node_rows (take at tree.now.nodes) → all.new.items ≡ before ++ node_rows (take (at + 1) tree.now.nodes)) }
{
    let Some(node) = tree.get(at) else {
        unreachable!()
    };
    add_of(alloc, all, node)?;
    Ok(())
}

/// Appends what the devices of a tree hold.
fn add_nodes(alloc: Global, all: &mut Vec<Holding>, tree: &Tree) -> Result<(), WantOfMemory>
    ensures { OnOk result (all.new.items ≡ all.old.items ++ node_rows tree.now.nodes) }
{
    'nodes: for at in 0..tree.len() {
        add_node(alloc, all, tree, at)?;
    }
    Ok(())
}

/// What is reserved and what devices hold, in the order of the printed map: by kind, first number, last number, and owner, what is
/// reserved first. Cost: their number times its logarithm.
pub fn holdings(alloc: Global, tree: &Tree, reserved: &[Res]) -> Result<Vec<Holding>, WantOfMemory>
    ensures { IfOk result (λ all. IsPermutation (reserved_rows reserved.now ++ node_rows tree.now.nodes) all.items) }
{
    let mut all = Vec::new(alloc);
    add_reserved(alloc, &mut all, reserved)?;
    add_nodes(alloc, &mut all, tree)?;
    all.sort_by_key(|holding| holding.key())?;
    Ok(all)
}
