ghost use Rattle.std.specs.Prelude.{◌≡◌, ◌<◌, ◌≤◌, ◌+◌, ◌++◌, ◌^◌, ℕ, [], true, IfOk, IfSome, OnOk, OnErr, IsSome, IsSomeAnd, Some, is_some, length, option_map};
ghost use Rattle.pnp_model.specs.Cores.{node_at};
ghost use Rattle.pnp_model.specs.Endings.{ending, joined};
ghost use Rattle.pnp_model.specs.Events.{happens};
ghost use Rattle.pnp_model.specs.Machine.{IsQuiet, due, is_in_order};
ghost use Rattle.pnp_model.specs.Runs.{opening};
ghost use Rattle.pnp_model.specs.States.{drop_task};
ghost use Rattle.pnp_model.specs.Trees.{leaving};
ghost use Rattle.pnp_laws.specs.Printed.{TreeIsPrinted};
ghost use Rattle.pnp_laws.specs.Stacks.{IsNamed};
ghost use Rattle.devnode_tree.specs.Trees.{Tree};
ghost use Rattle.driver_rack.specs.Rows.{name_in};
ghost use Rattle.free_model.specs.Asks.{next_query};
ghost use Rattle.free_model.specs.Frees.{with_rack};
ghost use Rattle.free_model.specs.Shapes.{faces};
ghost use Rattle.pnp_machine.specs.Dues.{beginning_of};
ghost use Rattle.pnp_machine.specs.Machines.{IsDone, Moves, HasFewIds};
ghost use Rattle.pnp_machine.specs.Managers.{settings, IsRunOf, KeepsFacts, KeepsLaws, LawsOf, IfQuiet};
ghost use Rattle.pnp_machine.specs.Queries.{query_of};

use crate::ending::EndParts;
use crate::machine::Machine;
use crate::needs::needs_are_few;
use crate::query::Query;
use device_ids::{Text, WantOfMemory};
use devnode_tree::Tree;
use driver_rack::Drivers;
use inf_reader::Inf;
use pnp_labels::{Event, Label, OpKind, SerialList};
use relations::Relations;
use std::alloc::Global;
use std::marker::Model;

/// What a step of the machine came to. This project's own.
#[derive(Drop)]
pub enum Moved {
    /// A step was made; this is printed.
    Label(Label),
    /// No step is next.
    Quiet,
}

/// The Plug and Play manager over a rack of drivers: devices arrive and depart, drivers are chosen by INFs and asked, one
/// step at a time, in the order of the machine's definition, whose steps are this project's own. A contract sees the INFs,
/// the budget, how many events happened, and the machine's whole state, which is always one of a run.
pub struct Manager<R: Drivers> {
    infs: Vec<Inf>,
    budget: u64,
    events: u64,
    /// In a box, so that who owns a manager has one part to let go, and not each list of the machine.
    machine: Box<Machine<R>>,
}

impl<R: Drivers> Drop for Manager<R> {
    fn drop(self) {
        let Manager {
            infs: _,
            budget: _,
            events: _,
            machine: _,
        } = self;
    }
}

impl<R: Drivers> Model for Manager<R> {
    ghost use Rattle.pnp_machine.specs.Managers.{Manager, IsManager};

    ghost Value = { Manager };

    ghost view = { λ m. record { infs = m.infs.items; budget = m.budget; events = m.events; state = m.machine.value } };

    ghost invariant = { λ m. IsManager m.infs.items m.budget m.events m.machine.value };
}

impl<R: Drivers> Manager<R> {
    /// The root alone, with the drivers of a rack. Conditions: there are at most 64 INFs, and the budget of a search is at most
    /// 1,000,000.
    pub fn new(
        alloc: Global,
        infs: Vec<Inf>,
        rack: R,
        budget: u64,
    ) -> Result<Manager<R>, WantOfMemory>
        requires few { length infs.items ≤ 64 }
        requires budget { budget ≤ 1000000 }
        ensures { IfOk result (λ m. m ≡ record { infs = infs.items; budget = budget; events = 0; state = opening (R.rows rack) }) }
    {
        let machine = Box::new(alloc, Machine::new(alloc, rack)?)?;
        Ok(Manager {
            infs,
            budget,
            events: 0,
            machine,
        })
    }

    /// As a new one of the same INFs and budget over another rack, whose place the drivers that were there take. After want of memory
    /// manager and rack are as before. Cost: that of letting go what the machine held.
    pub fn restart(&mut self, rack: &mut R) -> Result<(), WantOfMemory>
        ensures opens { OnOk result (self.new ≡ record self.old { events = 0; state = opening (R.rows rack.old) }) }
        ensures back { OnOk result (R.rows rack.new ≡ self.old.state.core.rack) }
        ensures facts { OnOk result (KeepsFacts self.new.state) }
        ensures err { OnErr result (self.new ≡ self.old) }
        ensures kept { OnErr result (R.rows rack.new ≡ R.rows rack.old) }
    {
        self.machine.restart(rack)?;
        self.events = 0;
        Ok(())
    }

    /// An event happens, at a quiet state: exactly what the machine's definition says, which for a refusal is a label with
    /// the reason and no change. Conditions: the state is quiet, the event has at most 64 IDs of each sort, and fewer than
    /// 2^24 events happened before. After want of memory the manager is as before. Cost: near that of the look-ups by path
    /// and name; for the departure of a device the number of those that go, for a relation what depends on its member, and
    /// for a range the number of resources that are held.
    pub fn apply(&mut self, event: Event) -> Result<Label, WantOfMemory>
        requires quiet { IsQuiet (settings self.old) self.old.state }
        requires ids { HasFewIds event }
        requires events { self.old.events < 2 ^ 24 }
        ensures done { IfOk result (λ label. IsDone (happens self.old.state event) label self.new.state) }
        ensures count { OnOk result (self.new ≡ record self.old { events = self.old.events + 1; state = self.new.state }) }
        ensures laws { IfOk result (λ label. KeepsLaws (settings self.old) label self.old.state self.new.state) }
        ensures run { OnOk result (IsRunOf (settings self.new) self.new.events self.new.state) }
        ensures facts { OnOk result (KeepsFacts self.new.state) }
        ensures err { OnErr result (self.new ≡ self.old) }
    {
        needs_are_few(&event);
        let label = self.machine.apply(event)?;
        self.events += 1;
        Ok(label)
    }

    /// The next step of the machine, exactly as its definition says. Quiet comes exactly where no step is next, and then
    /// nothing changes. After want of memory the manager and every book are as before, no driver was asked, and the same
    /// step can be tried again. Cost: that of what the step does.
    pub fn step(&mut self) -> Result<Moved, WantOfMemory>
        ensures moves { IfOk result (λ moved. Moves (settings self.old) self.old.state moved self.new.state) }
        ensures same { self.new ≡ record self.old { state = self.new.state } }
        ensures laws { IfOk result (λ moved. LawsOf (settings self.old) moved self.old.state self.new.state) }
        ensures run { IsRunOf (settings self.new) self.new.events self.new.state }
        ensures facts { KeepsFacts self.new.state }
        ensures err { OnErr result (self.new ≡ self.old) }
    {
        self.machine.step(&self.infs, self.budget)
    }

    /// Says of a manager, also of a new one and whatever was done to it, what each state keeps that it comes to; there is nothing to
    /// run.
    #[inline(always)]
    pub fn keeps_facts(&self)
        ensures { KeepsFacts self.now.state }
    {
        let _ = self.infs.len();
    }

    /// Whether no step is next.
    pub fn is_quiet(&self) -> bool
        ensures { IfQuiet result (settings self.now) self.now.state }
    {
        self.machine.is_quiet()
    }

    /// What the next step asks, of which driver and for which device; none exactly where the next step asks nobody, or none is
    /// next. A step asks one driver at most, once, and one that has a name. It takes no memory. Cost: the logarithms of the numbers of nodes, of starts
    /// and of devices with an open handle; where a surprise removal comes to a device also what depends directly on it, and
    /// where the end of surprise removals takes its next device that of `surprise_remove::ready`.
    pub fn query(&self) -> Option<Query<'_>>
        ensures query { option_map query_of result ≡ next_query self.now.state }
        ensures node { IfSome result (λ query. node_at query.node.now.serial self.now.state.core.nodes ≡ Some query.node.now) }
        ensures named { IfSome result (λ query. IsNamed self.now.state.core.rack query.driver) }
    {
        self.machine.query()
    }

    /// The name of a driver, by its number in the rack, as it was given; none exactly where the number names no driver with a
    /// name. It takes no memory.
    pub fn driver_name(&self, driver: u32) -> Option<&Text>
        ensures { option_map (λ text. text.now) result ≡ name_in self.now.state.core.rack driver }
    {
        self.machine.rack.name_of(driver)
    }

    /// The operation that the next step begins, and for which device; none exactly where the next step begins none: an
    /// operation runs, a device is being started, the first task begins no operation, or it is skipped. It takes no memory.
    /// Cost: the logarithm of the number of nodes, and for a disable the length of the path; for the end of surprise removals
    /// that for each device that depends directly on the device.
    pub fn due(&self) -> Option<(OpKind, u64)>
        ensures { option_map beginning_of result ≡ due self.now.state }
    {
        self.machine.due()
    }

    /// What is due is declined: its task is dropped, and all else stays. Condition: a disable or an eject is due. It takes no
    /// memory.
    pub fn drop_due(&mut self)
        requires { IsSomeAnd (due self.old.state) (λ first. is_in_order first.kind ≡ true) }
        ensures dropped { self.new ≡ record self.old { state = drop_task self.old.state } }
        ensures run { IsRunOf (settings self.new) self.new.events self.new.state }
        ensures facts { KeepsFacts self.new.state }
    {
        self.machine.drop_due();
    }

    /// Another rack takes the place of the drivers, which are handed back. Condition: kind and name of each driver, by number,
    /// are those of the driver whose place it takes; their books may differ. It takes no memory. Cost: constant.
    pub fn swap_rack(&mut self, rack: &mut R)
        requires faces { faces (R.rows rack.old) ≡ faces self.old.state.core.rack }
        ensures given { self.new ≡ record self.old { state = with_rack (R.rows rack.old) self.old.state } }
        ensures back { R.rows rack.new ≡ self.old.state.core.rack }
        ensures run { IsRunOf (settings self.new) self.new.events self.new.state }
        ensures facts { KeepsFacts self.new.state }
    {
        self.machine.swap_rack(rack);
    }

    /// Whether an operation runs.
    pub fn busy(&self) -> bool
        ensures { result ≡ is_some self.now.state.operation }
    {
        self.machine.operation.is_some()
    }

    /// A device and all that depends on it, in the order in which they leave, as `Relations::leaving` says. Condition: the
    /// device is there. Cost: for each device and each relation of one of these the logarithm of the number of all.
    pub fn leaving(&self, alloc: Global, serial: u64) -> Result<SerialList, WantOfMemory>
        requires { IsSome (node_at serial self.now.state.core.nodes) }
        ensures { IfOk result (λ order. order ≡ leaving self.now.state.core serial) }
    {
        self.relations().leaving(alloc, self.tree(), serial)
    }

    /// The relations between devices.
    pub fn relations(&self) -> &Relations
        ensures { result.now ≡ self.now.state.core.relations }
    {
        &self.machine.devices.relations
    }

    /// The device nodes.
    pub fn tree(&self) -> &Tree
        ensures { result.now.nodes ≡ self.now.state.core.nodes }
    {
        self.machine.devices.tree()
    }

    /// The end of the output: the tree, what is held, the requests that are outstanding, and the handles that are open. Under
    /// the tree each node has one line, and each line is of a node. Cost: the number of nodes times its logarithm, the number
    /// of pairs that are held or reserved, and that of devices with an open handle.
    pub fn ending(&self, alloc: Global) -> Result<Vec<u8>, WantOfMemory>
        ensures text { IfOk result (λ text. text.items ≡ joined (ending self.now.state)) }
        ensures tree { TreeIsPrinted self.now.state.core.nodes }
    {
        let mut out = Vec::new(alloc);
        let mut parts = self.end_parts(&mut out)?;
        'parts: while parts.next_part(&mut out)? {}
        Ok(out)
    }

    /// The same in parts, for an output that is not to be held whole: appends the first line of it, and answers the rest. Cost:
    /// the number of nodes times its logarithm.
    pub fn end_parts(&self, out: &mut Vec<u8>) -> Result<EndParts<'_, R>, WantOfMemory>
        ensures text { IfOk result (λ rest. out.new.items ++ rest ≡ out.old.items ++ joined (ending self.now.state)) }
        ensures tree { TreeIsPrinted self.now.state.core.nodes }
    {
        self.machine.end_parts(out)
    }
}
