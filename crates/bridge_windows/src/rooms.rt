ghost use Rattle.std.specs.Prelude.{◌≡◌};
ghost use Rattle.pnp_model.specs.Cores.{node_at};
ghost use Rattle.pnp_model.specs.Windows.{all_numbers, room};
ghost use Rattle.resource_reqs.specs.declared.kind.Kind.{Kind};
ghost use Rattle.bridge_windows.specs.Rooms.{room_in, meet, range, narrowed_at, narrowed_by, ranges_at};

use crate::bridges::Bridges;
use devnode_tree::Tree;
use resource_reqs::{Kind, Res};
use std::marker::Model;

/// The numbers of a kind that come through, from `lo` to `hi`; none where `lo` is above `hi`.
#[derive(Clone, Copy)]
pub struct Room {
    pub lo: u64,
    pub hi: u64,
}

impl Model for Room {
    ghost use Rattle.pnp_model.specs.Windows.{Room};

    ghost Value = { Room };

    ghost view = { λ r. record { lo = r.lo; hi = r.hi } };

    ghost inverse = { λ r. record { lo = r.lo; hi = r.hi } };
}

impl Room {
    /// All numbers.
    fn all() -> Room
        ensures { result ≡ all_numbers }
    {
        Room {
            lo: 0,
            hi: u64::MAX,
        }
    }

    /// Only what lies in a range still comes through.
    fn narrow(&mut self, res: &Res)
        ensures { self.new ≡ meet (range res.now) self.old }
    {
        self.lo = res.lo.max(self.lo);
        self.hi = res.hi.min(self.hi);
    }
}

/// The numbers of each kind that come through.
#[derive(Clone, Copy)]
pub struct Rooms {
    pub ports: Room,
    pub irqs: Room,
    pub memory: Room,
    pub channels: Room,
    pub buses: Room,
}

impl Rooms {
    /// All numbers of each kind.
    fn all() -> Rooms
        ensures { (kind : Kind) → room_in result kind ≡ all_numbers }
    {
        Rooms {
            ports: Room::all(),
            irqs: Room::all(),
            memory: Room::all(),
            channels: Room::all(),
            buses: Room::all(),
        }
    }

    /// The room of a kind.
    pub(crate) fn of(&self, kind: Kind) -> Room
        ensures { result ≡ room_in self.now kind }
    {
        match kind {
            Kind::Port => self.ports,
            Kind::Irq => self.irqs,
            Kind::Mem => self.memory,
            Kind::Dma => self.channels,
            Kind::Bus => self.buses,
        }
    }

    /// A range narrows the room of its kind.
    fn narrow(&mut self, res: &Res)
        ensures { (kind : Kind) → room_in self.new kind ≡ narrowed_at kind res.now (room_in self.old kind) }
    {
        match res.kind {
            Kind::Port => self.ports.narrow(res),
            Kind::Irq => self.irqs.narrow(res),
            Kind::Mem => self.memory.narrow(res),
            Kind::Dma => self.channels.narrow(res),
            Kind::Bus => self.buses.narrow(res),
        }
    }

    /// Ranges narrow the rooms of their kinds.
    fn narrow_all(&mut self, ranges: &[Res])
        ensures { (kind : Kind) → room_in self.new kind ≡ narrowed_by kind ranges.now (room_in self.old kind) }
    {
        for res in ranges {
            self.narrow(res);
        }
    }

    /// What the device of a node passes on narrows the rooms.
    fn pass(&mut self, tree: &Tree, bridges: &Bridges, serial: u64)
        ensures { (kind : Kind) → room_in self.new kind ≡ narrowed_by kind (ranges_at bridges.now (node_at serial tree.now.nodes)) (room_in self.old kind) }
    {
        if let Some(node) = tree.node(serial) {
            self.narrow_all(bridges.ranges(node.born));
        }
    }

    /// What comes through to the children of a node: the node and those above it are the bridges. It takes no memory.
    /// Cost: how deep the node stands, with the logarithm of the number of nodes for each level; constant where no
    /// window was set.
    pub(crate) fn below(tree: &Tree, bridges: &Bridges, parent: u64) -> Rooms
        ensures { (kind : Kind) → room_in result kind ≡ room bridges.now tree.now.nodes parent kind }
    {
        let mut rooms = Rooms::all();
        if bridges.is_empty() {
            return rooms;
        }
        rooms.pass(tree, bridges, parent);
        let mut at = parent;
        'levels: while at != 0 {
            let Some(node) = tree.node(at) else {
                return rooms;
            };
            at = node.parent;
            rooms.pass(tree, bridges, at);
        }
        rooms
    }
}
