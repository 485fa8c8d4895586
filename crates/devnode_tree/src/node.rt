ghost use Rattle.std.specs.Prelude.{◌≡◌, IfOk};
ghost use Rattle.pnp_model.specs.Cores.{fresh_node};
ghost use Rattle.pnp_model.specs.Runs.{root_node};

use device_ids::{IdList, InstancePath, PathError, WantOfMemory};
use pnp_labels::{DevState, Problem, Stack};
use resource_reqs::{Reqs, ResList};
use std::alloc::{AllocError, Global};
use std::marker::Model;

/// A device node (the driver kit, "Device Nodes and Device Stacks"). A contract sees the record of the fields.
pub struct Node {
    /// Its number in the tree, given once and to no other node: this project's own.
    pub serial: u64,
    /// The serial of its parent; the root's own is 0.
    pub parent: u64,
    /// The birth number of the device that it stands for: this project's own.
    pub born: u64,
    /// Its device instance path.
    pub path: InstancePath,
    /// The hardware IDs, the best first.
    pub hw: IdList,
    /// The compatible IDs, the best first.
    pub compat: IdList,
    /// The resources that it needs.
    pub reqs: Reqs,
    /// Where its drivers stand with it.
    pub state: DevState,
    /// Why it does not work, if it does not.
    pub problem: Option<Problem>,
    /// Its drivers, the lowest first.
    pub stack: Stack,
    /// The resources that it holds.
    pub holds: ResList,
}

impl Drop for Node {
    fn drop(self) {
        let Node {
            serial: _,
            parent: _,
            born: _,
            path: _,
            hw: _,
            compat: _,
            reqs: _,
            state: _,
            problem: _,
            stack: _,
            holds: _,
        } = self;
    }
}

impl Model for Node {
    ghost use Rattle.pnp_model.specs.Records.{Node};

    ghost Value = { Node };

    ghost view = { λ n. record { serial = n.serial; parent = n.parent; born = n.born; path = n.path; hw = n.hw; compat = n.compat; reqs = n.reqs; state = n.state; problem = n.problem; stack = n.stack; holds = n.holds } };
}

/// The path of the root.
const ROOT: &[u8] = b"HTREE\\ROOT\\0";

/// The path of the root, which only memory can be wanting for.
fn root_path(alloc: Global) -> Result<InstancePath, WantOfMemory>
    ensures { IfOk result (λ path. path ≡ root_node.path) }
{
    match InstancePath::read(alloc, ROOT) {
        Ok(path) => Ok(path),
        Err(PathError::WantOfMemory) => Err(AllocError),
        Err(PathError::Parts | PathError::BadId) => unreachable!(),
    }
}

/// The root as it stands in a new tree.
pub(crate) fn root(alloc: Global) -> Result<Node, WantOfMemory>
    ensures { IfOk result (λ node. node ≡ root_node) }
{
    let path = root_path(alloc)?;
    Ok(Node {
        serial: 0,
        parent: 0,
        born: 0,
        path,
        hw: IdList::new(alloc),
        compat: IdList::new(alloc),
        reqs: Reqs::new(alloc),
        state: DevState::Started,
        problem: None,
        stack: Stack::new(alloc),
        holds: ResList::new(alloc),
    })
}

/// A node that has just joined: without drivers, holdings or a problem.
pub(crate) fn fresh(
    alloc: Global,
    serial: u64,
    parent: u64,
    born: u64,
    path: InstancePath,
    hw: IdList,
    compat: IdList,
    reqs: Reqs,
) -> Node
    ensures { result ≡ fresh_node serial parent born path hw compat reqs }
{
    Node {
        serial,
        parent,
        born,
        path,
        hw,
        compat,
        reqs,
        state: DevState::NoStack,
        problem: None,
        stack: Stack::new(alloc),
        holds: ResList::new(alloc),
    }
}
