ghost use Rattle.std.specs.Prelude.{◌≡◌, ◌++◌, [], ◌∷◌, IfOk, OnOk, OnErr, IsSome, map};
ghost use Rattle.std.specs.List.{list_any};
ghost use Rattle.resource_reqs.specs.Resources.{clashes};
ghost use Rattle.pnp_model.specs.Cores.{node_at};
ghost use Rattle.pnp_model.specs.Endings as Endings;
ghost use Rattle.pnp_model.specs.Frames.{held_by};
ghost use Rattle.pnp_model.specs.Records.{Core};
ghost use Rattle.relations.specs.Relating.{RelatesFor};
ghost use Rattle.device_holdings.specs.MapRows.{row_of, IsOrderly};
ghost use Rattle.pnp_machine.specs.Devices.{opening_devices};

use bridge_windows::Bridges;
use device_holdings::{is_in_use, map_rows, reserve};
use device_ids::WantOfMemory;
use devnode_tree::{Handles, Tree};
use pnp_labels::RelKind;
use relations::{RelateError, Relations};
use resource_reqs::{Owner, Res, ResList};
use script_bus::World;
use std::alloc::Global;
use std::marker::Model;
use trial_journal::Arbiters;

/// The devices of the world, their nodes in the tree, their relations, what is reserved, the arbiters that mirror what is
/// held, the windows of bridges, and the handles that are open. A contract sees all but the arbiters.
pub(crate) struct Devices {
    pub(crate) world: World,
    pub(crate) tree: Tree,
    pub(crate) relations: Relations,
    pub(crate) reserved: ResList,
    pub(crate) arbiters: Arbiters,
    pub(crate) bridges: Bridges,
    pub(crate) handles: Handles,
    /// The device below which one joined last, by its birth number.
    pub(crate) over: u64,
    /// Of its children none that was born before this one is to join.
    pub(crate) from: u64,
    /// A node of which each child is known to be in the world or SurpriseRemoved, if one is.
    pub(crate) whole: Option<u64>,
}

impl Drop for Devices {
    fn drop(self) {
        let Devices {
            world: _,
            tree: _,
            relations: _,
            reserved: _,
            arbiters: _,
            bridges: _,
            handles: _,
            over: _,
            from: _,
            whole: _,
        } = self;
    }
}

impl Model for Devices {
    ghost use Rattle.pnp_machine.specs.Devices.{Devices, IsKept};

    ghost Value = { Devices };

    ghost view = { λ d. record { world = d.world; tree = d.tree; relations = d.relations; reserved = d.reserved; windows = d.bridges; handles = d.handles } };

    ghost invariant = { λ d. IsKept d.world d.tree d.reserved d.arbiters d.over d.from d.whole };
}

impl Devices {
    /// The root alone.
    pub(crate) fn new(alloc: Global) -> Result<Devices, WantOfMemory>
        ensures { IfOk result (λ d. d ≡ opening_devices) }
    {
        Ok(Devices {
            world: World::new(alloc)?,
            tree: Tree::new(alloc)?,
            arbiters: Arbiters::new(alloc)?,
            relations: Relations::new(alloc),
            reserved: ResList::new(alloc),
            bridges: Bridges::new(alloc),
            handles: Handles::new(alloc),
            over: 0,
            from: 0,
            whole: None,
        })
    }

    /// The nodes.
    pub(crate) fn tree(&self) -> &Tree
        ensures { result.now ≡ self.now.tree }
    {
        &self.tree
    }

    /// The handles that are open.
    pub(crate) fn handles(&self) -> &Handles
        ensures { result.now ≡ self.now.handles }
    {
        &self.handles
    }

    /// A member is related to an owner, as `Relations::relate` says.
    pub(crate) fn relate(
        &mut self,
        kind: RelKind,
        owner: u64,
        member: u64,
    ) -> Result<(), RelateError>
        requires owner_there { IsSome (node_at owner self.old.tree.nodes) }
        requires member_there { IsSome (node_at member self.old.tree.nodes) }
        ensures related { RelatesFor (node_at owner self.old.tree.nodes) (node_at member self.old.tree.nodes) self.old.tree.nodes kind self.old.relations result self.new.relations }
        ensures same { self.new ≡ record self.old { relations = self.new.relations } }
    {
        self.relations.relate(&self.tree, kind, owner, member)
    }

    /// Whether a range clashes with what is reserved or with what a device holds. It takes no memory. Cost: the pairs held
    /// of its kind.
    pub(crate) fn is_in_use(&self, res: &Res) -> bool
        ensures { result ≡ list_any (clashes res.now) (self.now.reserved ++ held_by self.now.tree.nodes) }
    {
        is_in_use(&self.arbiters, res)
    }

    /// A range is reserved, as `device_holdings::reserve` says.
    pub(crate) fn reserve(&mut self, res: Res) -> Result<(), WantOfMemory>
        ensures reserved { OnOk result (self.new ≡ record self.old { reserved = self.old.reserved ++ res ∷ [] }) }
        ensures err { OnErr result (self.new ≡ self.old) }
    {
        reserve(&mut self.reserved, &mut self.arbiters, res)
    }

    /// What is reserved and what devices hold, with the owner of each, in the order of the printed map.
    pub(crate) fn map_rows(&self, alloc: Global) -> Result<Vec<(Owner, Res)>, WantOfMemory>
        ensures { IfOk result (λ rows. (c : Core) → c.reserved ≡ self.now.reserved → c.nodes ≡ self.now.tree.nodes → IsOrderly c → map (row_of c.nodes) rows.items ≡ Endings.map_rows c) }
    {
        map_rows(alloc, &self.arbiters)
    }
}
