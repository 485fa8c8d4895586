ghost use Rattle.std.specs.Prelude.{◌≡◌, IfOk, IfSome, IsSome};
ghost use Rattle.pnp_model.specs.Cores.{node_at};
ghost use Rattle.script_bus.specs.Worlds.{changed};
ghost use Rattle.pnp_machine.specs.Devices.{wanted_at};

use crate::devices::Devices;
use crate::listing::is_started;
use bridge_windows::clip;
use device_ids::WantOfMemory;
use resource_reqs::Reqs;
use std::alloc::Global;

impl Devices {
    /// The device of a node requires this in the world from now on; nothing changes where it is in the world no more.
    /// Condition: the node is there. It takes no memory. Cost: the logarithm of the number of devices.
    pub(crate) fn require(&mut self, serial: u64, reqs: Reqs)
        requires { IsSome (node_at serial self.old.tree.nodes) }
        ensures { IfSome (node_at serial self.old.tree.nodes) (λ n. self.new ≡ record self.old { world = changed n.born reqs self.old.world }) }
    {
        let born = self.tree.at(serial).born;
        self.world.change_reqs(born, reqs);
    }

    /// What the device of a node requires in the world now, as far as it comes through to the node; none exactly where the
    /// device is not Started or is in the world no more. Condition: the node is there. Cost: that of `bridge_windows::clip`.
    pub(crate) fn wanted(&self, alloc: Global, serial: u64) -> Result<Option<Reqs>, WantOfMemory>
        requires { IsSome (node_at serial self.now.tree.nodes) }
        ensures { IfOk result (λ wanted. wanted ≡ wanted_at self.now (node_at serial self.now.tree.nodes)) }
    {
        let node = self.tree.at(serial);
        if !is_started(node.state) {
            return Ok(None);
        }
        let Some(part) = self.world.part(node.born) else {
            return Ok(None);
        };
        let reqs = clip(alloc, &self.tree, &self.bridges, node.parent, &part.reqs)?;
        Ok(Some(reqs))
    }
}
