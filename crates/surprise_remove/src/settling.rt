ghost use Rattle.std.specs.Prelude.{◌≡◌, IfOk, OnErr, IsSome, IfSome};
ghost use Rattle.pnp_model.specs.Frames.{first_node, rest};
ghost use Rattle.pnp_model.specs.Surprises.{end_of, finish_on};
ghost use Rattle.trial_journal.specs.ByKind as ByKind;
ghost use Rattle.device_holdings.specs.Mirrors.{KeepsMirror};
ghost use Rattle.operation_frame.specs.Nodes.{IsStripped};
ghost use Rattle.pnp_labels.specs.declared.label.Label.{Label};
ghost use Rattle.surprise_remove.specs.Parts.{SettlesFor};

use crate::frame::Surprise;
use device_ids::WantOfMemory;
use devnode_tree::Tree;
use operation_frame::{Settled, leave, remain};
use pnp_labels::{Label, OpEnd, OpKind, Problem, RemoveStep};
use std::alloc::Global;

impl Surprise {
    /// The device that is next is done.
    pub(crate) fn go_on(&mut self)
        ensures { self.new ≡ finish_on self.old (rest self.old.todo) }
    {
        self.todo.drop_first();
        self.finish_next();
    }

    /// The device that is next, which has no drivers, leaves where it is gone or its parent leaves, and remains with a
    /// problem where it is another. The target comes last: where the world has it anew the operation ends.
    pub(crate) fn settle(
        &mut self,
        alloc: Global,
        tree: &mut Tree,
        in_world: bool,
    ) -> Result<RemoveStep, WantOfMemory>
        requires there { IsSome (first_node tree.old.nodes self.old.todo) }
        requires settles { IfSome (first_node tree.old.nodes self.old.todo) (IsStripped tree.old.nodes) }
        ensures settles { IfOk result (λ step. SettlesFor (first_node tree.old.nodes self.old.todo) tree.old.nodes self.old in_world step tree.new.nodes self.new) }
        ensures next { tree.new.next ≡ tree.old.next }
        ensures mirrors { (arbiters : ByKind.Arbiters) → KeepsMirror tree.old.nodes arbiters tree.new.nodes arbiters }
        ensures surprise { OnErr result (self.new ≡ self.old) }
        ensures tree { OnErr result (tree.new ≡ tree.old) }
    {
        let device = Settled::of(alloc, tree.at(self.todo.first()))?;
        if self.is_target(device.serial) {
            if in_world {
                return Ok(RemoveStep::Over(self.end_line(alloc)?));
            }
        } else if !self.removes(device.parent) {
            let problem = Problem::Held;
            self.go_on();
            remain(device.serial, problem, tree);
            return Ok(RemoveStep::Did(Label::Trouble {
                path: device.line,
                problem,
            }));
        }
        self.go_on();
        leave(device.serial, tree);
        let label = Label::Leave { path: device.line };
        Ok(RemoveStep::Left {
            label,
            path: device.path,
            born: device.born,
        })
    }

    /// The line of the end: whether somebody stayed behind.
    pub(crate) fn end_line(&self, alloc: Global) -> Result<Label, WantOfMemory>
        ensures { IfOk result (λ label. label ≡ Label.End self.now.kind self.now.path (end_of self.now.behind)) }
    {
        let path = self.path.copy(alloc)?;
        let result = if self.behind.len() == 0 {
            OpEnd::Done
        } else {
            OpEnd::Waiting
        };
        Ok(Label::End {
            op: OpKind::Surprise,
            path,
            result,
        })
    }
}
