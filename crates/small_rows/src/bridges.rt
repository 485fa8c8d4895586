//! Windows of bridges, and what they leave of requirements.
use bridge_windows::{Bridges, WindowError, clip};
use devnode_tree::Tree;
use resource_reqs::{AltList, Group, Kind, Reqs, Res, Want};
use rows_told::must;
use std::alloc::Global;
use std::test::Fail;

/// The ports from 0x1000 to 0x1fff.
fn some_ports() -> Result<Res, Fail> {
    match Res::make(Kind::Port, 0x1000, 0x1fff, false) {
        Some(ports) => Ok(ports),
        None => Err(Fail::new("ports")),
    }
}

/// Whether a window is that of these ports.
fn has_the_ports(window: Option<Res>) -> bool {
    match window {
        Some(res) => res.lo == 0x1000 && res.hi == 0x1fff,
        None => false,
    }
}

#[test]
fn a_window_is_found(rt: HostRuntime) -> Result<(), Fail> {
    let mut bridges = Bridges::new(rt.alloc());
    bridges.set(7, some_ports()?)?;
    must(has_the_ports(bridges.window(7, Kind::Port)), "of ports")?;
    must(bridges.window(7, Kind::Mem).is_none(), "of memory")?;
    must(bridges.window(8, Kind::Port).is_none(), "of another")
}

#[test]
fn one_window_of_a_kind(rt: HostRuntime) -> Result<(), Fail> {
    let mut bridges = Bridges::new(rt.alloc());
    bridges.set(7, some_ports()?)?;
    match bridges.set(7, some_ports()?) {
        Err(WindowError::SameWindow) => Ok(()),
        _ => Err(Fail::new("a second window")),
    }
}

/// Eight numbers of a kind, at a multiple of eight.
fn eight(alloc: Global, kind: Kind, min: u64, max: u64) -> Result<Group, Fail> {
    let mut group = Group::new(alloc);
    group.push(Want::make(kind, min, max, 8, 8, false)?)?;
    Ok(group)
}

/// Eight ports of many, eight of a few, and eight numbers of memory.
fn needs(alloc: Global) -> Result<Reqs, Fail> {
    let mut list = AltList::new(alloc);
    list.push(eight(alloc, Kind::Port, 0, 0xffff)?)?;
    list.push(eight(alloc, Kind::Port, 0, 7)?)?;
    list.push(eight(alloc, Kind::Mem, 0, 0xffff)?)?;
    let mut reqs = Reqs::new(alloc);
    reqs.push(list)?;
    Ok(reqs)
}

/// What is left of these requirements below the root.
fn left_of(alloc: Global, tree: &Tree, bridges: &Bridges, needs: &Reqs) -> Result<Reqs, Fail> {
    if tree.node(0).is_none() {
        return Err(Fail::new("the root"));
    }
    Ok(clip(alloc, tree, bridges, 0, needs)?)
}

/// The requirements below the root, which has a window of ports.
fn clipped(alloc: Global) -> Result<Reqs, Fail> {
    let mut bridges = Bridges::new(alloc);
    bridges.set(0, some_ports()?)?;
    let needs = needs(alloc)?;
    let tree = Tree::new(alloc)?;
    left_of(alloc, &tree, &bridges, &needs)
}

/// The first want of a group has these ends, length and alignment.
fn first_is(
    list: &AltList,
    at: u32,
    (min, max): (u64, u64),
    (len, align): (u64, u64),
) -> Result<(), Fail> {
    if at >= list.len() {
        return Err(Fail::new("a group that is not there"));
    }
    let want = list.get(at).get(0);
    must(want.min == min && want.max == max, "the ends of a want")?;
    must(
        want.len == len && want.align == align,
        "a want's length and alignment",
    )
}

#[test]
fn ports_come_through_a_window(rt: HostRuntime) -> Result<(), Fail> {
    let reqs = clipped(rt.alloc())?;
    if reqs.len() != 1 {
        return Err(Fail::new("the lists"));
    }
    let list = reqs.get(0);
    first_is(list, 0, (0x1000, 0x1fff), (8, 8))?;
    first_is(list, 1, (1, 1), (1, 2))?;
    first_is(list, 2, (0, 0xffff), (8, 8))?;
    must(list.len() == 3, "a group more")
}
