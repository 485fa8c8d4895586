ghost use Rattle.std.specs.Prelude.{◌≡◌, ◌&&◌, IfOk, OnErr, IsSome, IfSome};
ghost use Rattle.pnp_model.specs.Frames.{first_node, rest};
ghost use Rattle.pnp_model.specs.Records.{Core};
ghost use Rattle.pnp_model.specs.Removals.{finish_on, end_of};
ghost use Rattle.pnp_model.specs.Tests.{has, is_eject};
ghost use Rattle.trial_journal.specs.ByKind as ByKind;
ghost use Rattle.device_holdings.specs.Mirrors.{KeepsMirror};
ghost use Rattle.devnode_tree.specs.Cores.{at_nodes};
ghost use Rattle.query_remove.specs.Parts.{problem_if, SettlesFor};
ghost use Rattle.operation_frame.specs.Nodes.{IsStripped};

use crate::frame::{Removal, kind_by};
use device_ids::{Text, WantOfMemory};
use devnode_tree::Tree;
use operation_frame::{Settled, leave, remain};
use pnp_labels::{Label, OpEnd, Problem, RemoveStep};
use std::alloc::Global;

impl Removal {
    /// The device that is next is done.
    fn go_on(&mut self, tree: &Tree)
        ensures { self.new ≡ finish_on tree.now.nodes self.old (rest self.old.todo) }
    {
        self.todo.drop_first();
        self.finish_next(tree);
    }

    /// The problem of a related device that remains (that it is told apart after an eject is this project's own).
    fn problem_of(&self, serial: u64) -> Problem
        ensures { result ≡ problem_if (is_eject self.now.kind && has self.now.ejecting serial) }
    {
        if self.is_eject() && self.ejecting.has(serial) {
            Problem::HeldForEject
        } else {
            Problem::Held
        }
    }

    /// The device that is next, which has no drivers, leaves with its parent or by an eject, or remains with a problem.
    pub(crate) fn settle(
        &mut self,
        alloc: Global,
        tree: &mut Tree,
    ) -> Result<RemoveStep, WantOfMemory>
        requires there { IsSome (first_node tree.old.nodes self.old.todo) }
        requires settles { IfSome (first_node tree.old.nodes self.old.todo) (IsStripped tree.old.nodes) }
        ensures settles { IfOk result (λ step. SettlesFor (first_node tree.old.nodes self.old.todo) tree.old.nodes self.old step tree.new.nodes self.new) }
        ensures next { tree.new.next ≡ tree.old.next }
        ensures mirrors { (arbiters : ByKind.Arbiters) → KeepsMirror tree.old.nodes arbiters tree.new.nodes arbiters }
        ensures removal { OnErr result (self.new ≡ self.old) }
        ensures tree { OnErr result (tree.new ≡ tree.old) }
    {
        let device = Settled::of(alloc, tree.at(self.todo.first()))?;
        if self.removes(device.parent) {
            self.go_on(tree);
            leave(device.serial, tree);
            let label = Label::Leave { path: device.line };
            return Ok(RemoveStep::Left {
                label,
                path: device.path,
                born: device.born,
            });
        }
        if !self.is_target(device.serial) {
            let problem = self.problem_of(device.serial);
            self.go_on(tree);
            remain(device.serial, problem, tree);
            return Ok(RemoveStep::Did(Label::Trouble {
                path: device.line,
                problem,
            }));
        }
        if self.is_eject() {
            self.go_on(tree);
            leave(device.serial, tree);
            let label = Label::Ejected { path: device.line };
            return Ok(RemoveStep::Ejected {
                label,
                path: device.path,
                born: device.born,
            });
        }
        let problem = Problem::Disabled;
        self.go_on(tree);
        remain(device.serial, problem, tree);
        Ok(RemoveStep::Disabled(Label::Trouble {
            path: device.line,
            problem,
        }))
    }

    /// How the removal ended.
    fn end(&self, alloc: Global, tree: &Tree) -> Result<OpEnd, WantOfMemory>
        ensures { IfOk result (λ end. (around : Core) → end ≡ end_of (at_nodes tree.now.nodes around) self.now.refused) }
    {
        let Some(refused) = self.refused.get(0) else {
            return Ok(OpEnd::Done);
        };
        let path = match tree.node(refused) {
            Some(node) => node.path.text(alloc)?,
            None => Text::make(alloc, b"")?,
        };
        Ok(OpEnd::Veto(path))
    }

    /// The line of the end.
    pub(crate) fn end_line(&self, alloc: Global, tree: &Tree) -> Result<Label, WantOfMemory>
        ensures { IfOk result (λ label. (around : Core) → label ≡ Label.End self.now.kind self.now.path (end_of (at_nodes tree.now.nodes around) self.now.refused)) }
    {
        let path = self.path.copy(alloc)?;
        let result = self.end(alloc, tree)?;
        Ok(Label::End {
            op: kind_by(self.ejects),
            path,
            result,
        })
    }
}
