ghost use Rattle.std.specs.Prelude.{◌≡◌, ◌↔◌, [], IfOk, IsSome, IsNone, slice_get, option_map};
ghost use Rattle.pnp_model.specs.Cores.{node_at};
ghost use Rattle.pnp_model.specs.Finishes.{begun_finish};
ghost use Rattle.pnp_model.specs.Records.{Course, course_of};
ghost use Rattle.pnp_model.specs.Records.Stage.{Next};
ghost use Rattle.pnp_labels.specs.declared.label.OpEnd.{OpEnd};
ghost use Rattle.pnp_labels.specs.declared.label.OpKind.{OpKind};
ghost use Rattle.pnp_labels.specs.declared.label.Label.{Label};
ghost use Rattle.device_stack.specs.Waiting.{minor_of};
ghost use Rattle.operation_frame.specs.Steps.{BegunFor, Completed};

use device_ids::{Text, WantOfMemory};
use device_stack::{NoSuchRequest, Walk};
use devnode_tree::Tree;
use pnp_labels::{Label, Minor, OpEnd, OpKind};
use std::alloc::Global;
use std::marker::Model;

/// What is done next, and with which device: this project's own.
#[derive(Clone, Copy, PartialEq, Eq)]
pub(crate) enum Stage {
    /// The ready device of the greatest serial is next, or the end.
    Next,
    /// Its drivers are being removed.
    Removing(u64),
    /// It has no drivers and leaves.
    Leaving(u64),
    /// It has no drivers and remains, with a problem.
    Holding(u64),
}

/// The end of surprise removals: devices that stayed behind when they had gone lose their drivers, one after another, as
/// no handle holds them any more (the driver kit, IRP_MN_REMOVE_DEVICE; that each step is one of the machine's is this
/// project's own). A contract sees the record of where it stands.
pub struct Finish {
    target: u64,
    path: Text,
    pub(crate) stage: Stage,
    pub(crate) walk: Walk,
}

impl Drop for Finish {
    fn drop(self) {
        let Finish {
            target: _,
            path: _,
            stage: _,
            walk: _,
        } = self;
    }
}

impl Model for Finish {
    ghost use Rattle.std.specs.Prelude.{None, []};
    ghost use Rattle.resource_reqs.specs.Spelling.Answer.{no_fit};
    ghost use Rattle.pnp_labels.specs.declared.label.OpKind.{OpKind};
    ghost use Rattle.pnp_model.specs.Records.{Job};
    ghost use Rattle.surprise_remove.specs.FinishStages.{stage_of, todo_of, walk_at};

    ghost Value = { Job };

    ghost view = { λ r. record { kind = OpKind.Finish; target = r.target; path = r.path; wanted = None; set = []; ejecting = []; told = []; todo = todo_of r.stage; agreed = []; refused = []; behind = []; found = no_fit; stage = stage_of r.stage; walk = walk_at r.stage r.walk.walk } };
}

impl Finish {
    /// The finish begins, for a device to which the last handle was closed; none is taken yet. The line is that of the
    /// begin. Condition: the device is there. Cost: the logarithm of the number of nodes.
    pub fn begin(alloc: Global, tree: &Tree, serial: u64) -> Result<(Label, Finish), WantOfMemory>
        requires { IsSome (node_at serial tree.now.nodes) }
        ensures { IfOk result (λ begun. BegunFor OpKind.Finish (λ c n. begun_finish n) (node_at serial tree.now.nodes) tree.now.nodes [] begun.0 begun.1) }
    {
        let node = tree.at(serial);
        let line = node.path.text(alloc)?;
        let path = node.path.text(alloc)?;
        let finish = Finish {
            target: node.serial,
            path,
            stage: Stage::Next,
            walk: Walk::begin(Minor::Remove),
        };
        Ok((
            Label::Begin {
                op: OpKind::Finish,
                path: line,
            },
            finish,
        ))
    }

    /// The device for which it began.
    pub fn target(&self) -> u64
        ensures { result ≡ self.now.target }
    {
        self.target
    }

    /// The device whose drivers are being removed, or which is settled; none exactly where the next step takes a ready
    /// device, or ends.
    pub fn current(&self) -> Option<u64>
        ensures first { result ≡ slice_get self.now.todo 0 }
        ensures none { IsNone result ↔ (self.now.stage ≡ Next) }
        ensures course { course_of self.now.kind ≡ Course.Finishing }
    {
        match self.stage {
            Stage::Next => None,
            Stage::Removing(serial) | Stage::Leaving(serial) | Stage::Holding(serial) => Some(
                serial,
            ),
        }
    }

    /// The request that waits for a driver; none exactly where none waits.
    pub fn waits(&self) -> Option<Minor>
        ensures { result ≡ minor_of self.now.walk }
    {
        match self.stage {
            Stage::Removing(_) => self.walk.waiting_minor(),
            _ => None,
        }
    }

    /// The request that is on its way through the drivers of the current device; none exactly where none is.
    pub fn walk(&self) -> Option<&Walk>
        ensures { option_map (λ w. w.now.walk) result ≡ self.now.walk }
    {
        match self.stage {
            Stage::Removing(_) => Some(&self.walk),
            _ => None,
        }
    }

    /// The driver at which the request waits completes it: Ok, or Fail. `NoSuchRequest` exactly where none waits; then
    /// nothing changes. It takes no memory.
    pub fn complete(&mut self, ok: bool) -> Result<(), NoSuchRequest>
        ensures { Completed result self.old ok self.new }
    {
        match self.stage {
            Stage::Removing(_) => self.walk.complete_waiting(ok),
            _ => Err(NoSuchRequest),
        }
    }

    /// The line of the end.
    pub(crate) fn end_line(&self, alloc: Global) -> Result<Label, WantOfMemory>
        ensures { IfOk result (λ label. label ≡ Label.End self.now.kind self.now.path OpEnd.Done) }
    {
        Ok(Label::End {
            op: OpKind::Finish,
            path: self.path.copy(alloc)?,
            result: OpEnd::Done,
        })
    }
}
