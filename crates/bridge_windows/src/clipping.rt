ghost use Rattle.std.specs.Prelude.{◌≡◌, ◌≢◌, ◌<◌, ◌↔◌, ◌++◌, ◌∷◌, [], All, IfOk, OnOk, IsSome, List, length};
ghost use Rattle.resource_reqs.specs.Resources.{Res, Whole};
ghost use Rattle.pnp_model.specs.Clips.{IsInRoom};
ghost use Rattle.pnp_model.specs.Cores.{node_at};
ghost use Rattle.pnp_model.specs.Windows.{clip, clipped_want, placeless, clip_by, room};
ghost use Rattle.bridge_windows.specs.Clips.{group_in, list_in};
ghost use Rattle.bridge_windows.specs.Rooms.{room_in};

use crate::bridges::Bridges;
use crate::rooms::{Room, Rooms};
use device_ids::WantOfMemory;
use devnode_tree::Tree;
use resource_reqs::{AltList, Group, ReqError, Reqs, Want};
use std::alloc::{AllocError, Global};

/// A want of the same kind that nothing may come from: 1 is its only number, and not even.
fn placeless(want: &Want) -> Want
    ensures { result ≡ placeless want.now }
{
    Want {
        kind: want.kind,
        min: 1,
        max: 1,
        len: 1,
        align: 2,
        shared: want.shared,
    }
}

/// A want cut to a room; where no want is left, one that nothing may come from.
fn clipped_want(want: &Want, room: Room) -> Want
    ensures { result ≡ clipped_want room want.now }
{
    let min = want.min.max(room.lo);
    let max = want.max.min(room.hi);
    match Want::make(want.kind, min, max, want.len, want.align, want.shared) {
        Ok(clipped) => clipped,
        Err(_) => placeless(want),
    }
}

/// Appends a want to a group that has room: memory alone can be wanting.
fn push_want(group: &mut Group, want: Want) -> Result<(), WantOfMemory>
    requires { length group.old < 16 }
    ensures { OnOk result (group.new ≡ group.old ++ want ∷ []) }
{
    match group.push(want) {
        Ok(()) => Ok(()),
        Err(ReqError::WantOfMemory) => Err(AllocError),
        Err(ReqError::Full | ReqError::EmptyPart) => unreachable!(),
    }
}

/// Appends a group that is not empty to a list that has room: memory alone can be wanting.
fn push_group(list: &mut AltList, group: Group) -> Result<(), WantOfMemory>
    requires room { length list.old < 16 }
    requires some { group ≢ [] }
    ensures { OnOk result (list.new ≡ list.old ++ group ∷ []) }
{
    match list.push(group) {
        Ok(()) => Ok(()),
        Err(ReqError::WantOfMemory) => Err(AllocError),
        Err(ReqError::Full | ReqError::EmptyPart) => unreachable!(),
    }
}

/// Appends a list that is not empty to requirements that have room: memory alone can be wanting.
fn push_list(reqs: &mut Reqs, list: AltList) -> Result<(), WantOfMemory>
    requires room { length reqs.old < 8 }
    requires some { list ≢ [] }
    ensures { OnOk result (reqs.new ≡ reqs.old ++ list ∷ []) }
{
    match reqs.push(list) {
        Ok(()) => Ok(()),
        Err(ReqError::WantOfMemory) => Err(AllocError),
        Err(ReqError::Full | ReqError::EmptyPart) => unreachable!(),
    }
}

/// Each want of a group cut to the room of its kind.
fn clipped_group(alloc: Global, rooms: &Rooms, group: &Group) -> Result<Group, WantOfMemory>
    ensures { IfOk result (λ clipped. clipped ≡ group_in rooms.now group.now) }
{
    let mut clipped = Group::new(alloc);
    for at in 0..group.len() {
        let want = group.get(at);
        push_want(&mut clipped, clipped_want(want, rooms.of(want.kind)))?;
    }
    Ok(clipped)
}

/// Each want of a list cut to the room of its kind.
fn clipped_list(alloc: Global, rooms: &Rooms, list: &AltList) -> Result<AltList, WantOfMemory>
    ensures { IfOk result (λ clipped. clipped ≡ list_in rooms.now list.now) }
{
    let mut clipped = AltList::new(alloc);
    for at in 0..list.len() {
        let group = clipped_group(alloc, rooms, list.get(at))?;
        push_group(&mut clipped, group)?;
    }
    Ok(clipped)
}

/// Each want cut to the room of its kind. A part is as long as the one that it comes from, so none is too long.
fn clipped_reqs(alloc: Global, rooms: &Rooms, reqs: &Reqs) -> Result<Reqs, WantOfMemory>
    ensures { IfOk result (λ clipped. clipped ≡ clip_by (room_in rooms.now) reqs.now) }
{
    let mut clipped = Reqs::new(alloc);
    for at in 0..reqs.len() {
        let list = clipped_list(alloc, rooms, reqs.get(at))?;
        push_list(&mut clipped, list)?;
    }
    Ok(clipped)
}

/// What a device that joins below a node may require: each want is cut to what all windows of its kind let through, those
/// of the node's device and of the devices above it; a want that has no room left for its length becomes one that
/// nothing may come from. Lists, groups and wants stay one for one, and what may be held of the result is what may be held of
/// the requirements and lies in the rooms of its kinds. Condition: the node is there. Cost: how deep the node
/// stands, with the logarithm of the number of nodes for each level, and the number of wants: where no window was set,
/// that of a copy. This project's own.
pub fn clip(
    alloc: Global,
    tree: &Tree,
    bridges: &Bridges,
    parent: u64,
    reqs: &Reqs,
) -> Result<Reqs, WantOfMemory>
    requires { IsSome (node_at parent tree.now.nodes) }
    ensures clipped { IfOk result (λ clipped. clipped ≡ clip bridges.now tree.now.nodes parent reqs.now) }
    ensures whole { IfOk result (λ clipped. (holds : List Res) → Whole clipped holds ↔ (Whole reqs.now holds × All (IsInRoom (room bridges.now tree.now.nodes parent)) holds)) }
{
    let rooms = Rooms::below(tree, bridges, parent);
    clipped_reqs(alloc, &rooms, reqs)
}
