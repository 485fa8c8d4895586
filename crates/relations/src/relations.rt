ghost use Rattle.std.specs.Prelude.{◌≡◌, ◌≢◌, ◌==◌, ◌↔◌, IsTrue, [], ◌∷◌, ◌++◌, false, Err, IfOk, OnOk, OnErr, IsSome, filter, map};
ghost use Rattle.std.specs.List.{list_any};
ghost use Rattle.pnp_model.specs.Cores.{node_at, forget};
ghost use Rattle.pnp_model.specs.Events.{is_relation};
ghost use Rattle.relations.specs.Edges.{SameSums, to_member, to_owner};
ghost use Rattle.pnp_model.specs.Trees.{is_up};
ghost use Rattle.relations.specs.Leaving.{IsLeaving};
ghost use Rattle.relations.specs.Relating.{RelatesFor, RelatesFree, are_up, ejected};

use crate::edges::{Edge, edges_from, forget, has_edge, put};
use crate::error::RelateError;
use crate::queue::leave_all;
use crate::relation::Relation;
use crate::search::depends_on;
use crate::serial_set::SerialSet;
use crate::unrelated::leave_unrelated;
use device_ids::WantOfMemory;
use devnode_tree::Tree;
use pnp_labels::{RelKind, SerialList};
use std::alloc::Global;
use std::marker::Model;

/// Who loses the drivers with whom, beside children with their parents (the driver kit, IRP_MN_QUERY_DEVICE_RELATIONS).
/// A contract sees the relations in the order in which they were made.
pub struct Relations {
    list: Vec<Relation>,
    /// From owners to members, sorted by owner.
    by_owner: Vec<Edge>,
    /// From members to owners, sorted by member.
    by_member: Vec<Edge>,
}

impl Drop for Relations {
    fn drop(self) {
        let Relations {
            list: _,
            by_owner: _,
            by_member: _,
        } = self;
    }
}

impl Model for Relations {
    ghost use Rattle.std.specs.Prelude.{List};
    ghost use Rattle.pnp_model.specs.Records.{Relation};

    ghost Value = { List Relation };

    ghost use Rattle.relations.specs.Edges.{IsIndexed};

    ghost view = { λ r. r.list.items };

    ghost invariant = { λ r. IsIndexed r.list.items r.by_owner.items r.by_member.items };
}

impl Relations {
    /// No relation. It takes no memory.
    pub fn new(alloc: Global) -> Relations
        ensures { result ≡ [] }
    {
        Relations {
            list: Vec::new(alloc),
            by_owner: Vec::new(alloc),
            by_member: Vec::new(alloc),
        }
    }

    /// Relates a member to an owner, as the last relation. Condition: both are there. Errors, the first that holds:
    /// `SelfRelation`, `SameRelation`, `RelationCycle`, `NotStarted`. `WantOfMemory` may come in place of the last two,
    /// which need memory to be told, and of success. After an error all is as before. Cost: what depends on the member, the relations of the owner,
    /// and the logarithm of all. This project's own.
    pub fn relate(
        &mut self,
        tree: &Tree,
        kind: RelKind,
        owner: u64,
        member: u64,
    ) -> Result<(), RelateError>
        requires owner_there { IsSome (node_at owner tree.now.nodes) }
        requires member_there { IsSome (node_at member tree.now.nodes) }
        ensures related { RelatesFor (node_at owner tree.now.nodes) (node_at member tree.now.nodes) tree.now.nodes kind self.old result self.new }
        ensures memory_later { result ≡ Err RelateError.WantOfMemory → (owner ≢ member) × (list_any (is_relation kind owner member) self.old ≡ false) }
    {
        if owner == member {
            return Err(RelateError::SelfRelation);
        }
        if self.related(kind, owner, member) {
            return Err(RelateError::SameRelation);
        }
        let alloc = *self.list.allocator();
        match depends_on(alloc, tree, self, member, owner) {
            Ok(true) => Err(RelateError::RelationCycle),
            Ok(false) => self.relate_free(tree, kind, owner, member),
            Err(_) => Err(RelateError::WantOfMemory),
        }
    }

    /// Forgets the relations of which a device is owner or member. It takes no memory. Cost: the number of relations.
    pub fn forget(&mut self, serial: u64)
        ensures { self.new ≡ forget serial self.old }
    {
        self.list.retain(|relation| relation.is_apart_from(serial));
        forget(&mut self.by_owner, serial);
        forget(&mut self.by_member, serial);
    }

    /// Whether this kind, owner and member are related. It takes no memory. Cost: the relations of the owner.
    pub fn related(&self, kind: RelKind, owner: u64, member: u64) -> bool
        ensures { result ≡ list_any (is_relation kind owner member) self.now }
    {
        has_edge(edges_from(&self.by_owner, owner), member, kind)
    }

    /// The edges from an owner to its members. Cost: the logarithm of the number of relations.
    pub fn owned(&self, owner: u64) -> &[Edge]
        ensures { SameSums result.now (filter (λ e. e.from == owner) (map to_member self.now)) }
    {
        edges_from(&self.by_owner, owner)
    }

    /// The edges from a member to its owners. Cost: the logarithm of the number of relations.
    pub(crate) fn joined(&self, member: u64) -> &[Edge]
        ensures { SameSums result.now (filter (λ e. e.from == member) (map to_owner self.now)) }
    {
        edges_from(&self.by_member, member)
    }

    /// The members of the ejection relations whose owner is one of these, in the order in which the relations were
    /// made. Cost: the number of relations. This project's own.
    pub fn ejected(&self, alloc: Global, owners: &SerialSet) -> Result<SerialSet, WantOfMemory>
        ensures { IfOk result (λ members. members ≡ ejected self.now owners.now) }
    {
        let mut members = SerialSet::new(alloc);
        for relation in &self.list {
            if relation.kind == RelKind::Ejection && owners.has(relation.owner) {
                members.push(relation.member)?;
            }
        }
        Ok(members)
    }

    /// A device and all that depends on it, its children and its related members of both kinds followed to the end: again
    /// and again the greatest serial among those of which nothing that depends on them is left. Condition: the device is
    /// there. Cost: for each device and each relation of one of these the logarithm of the number of all. This project's
    /// own.
    pub fn leaving(
        &self,
        alloc: Global,
        tree: &Tree,
        target: u64,
    ) -> Result<SerialList, WantOfMemory>
        requires { IsSome (node_at target tree.now.nodes) }
        ensures { IfOk result (λ order. IsLeaving tree.now.nodes self.now target order) }
    {
        if self.is_empty() {
            leave_unrelated(alloc, tree, target)
        } else {
            leave_all(alloc, tree, self, target)
        }
    }

    /// Whether there is none.
    fn is_empty(&self) -> bool
        ensures { IsTrue result ↔ (self.now ≡ []) }
    {
        self.list.is_empty()
    }

    /// Relates two devices that are neither related nor would be a cycle.
    fn relate_free(
        &mut self,
        tree: &Tree,
        kind: RelKind,
        owner: u64,
        member: u64,
    ) -> Result<(), RelateError>
        ensures { RelatesFree (are_up (node_at owner tree.now.nodes) (node_at member tree.now.nodes)) (record { kind = kind; owner = owner; member = member }) self.old result self.new }
    {
        if !(tree.is_up(owner) && tree.is_up(member)) {
            return Err(RelateError::NotStarted);
        }
        match self.add(Relation {
            kind,
            owner,
            member,
        }) {
            Ok(()) => Ok(()),
            Err(_) => Err(RelateError::WantOfMemory),
        }
    }

    /// Appends a relation.
    fn add(&mut self, relation: Relation) -> Result<(), WantOfMemory>
        ensures added { OnOk result (self.new ≡ self.old ++ relation ∷ []) }
        ensures err { OnErr result (self.new ≡ self.old) }
    {
        self.list.reserve(1)?;
        self.by_owner.reserve(1)?;
        self.by_member.reserve(1)?;
        let to_member = Edge {
            from: relation.owner,
            to: relation.member,
            kind: relation.kind,
        };
        let to_owner = Edge {
            from: relation.member,
            to: relation.owner,
            kind: relation.kind,
        };
        let _ = self.list.push(relation);
        put(&mut self.by_owner, to_member);
        put(&mut self.by_member, to_owner);
        Ok(())
    }
}
