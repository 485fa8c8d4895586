use crate::deed::Deed;
use crate::states::{DevState, Problem};
use crate::words::Minor;
use device_ids::{InstancePath, Text};
use resource_reqs::ResList;

/// Which event a label speaks of: one variant for each of `Event`.
#[derive(Clone, Copy, Debug, PartialEq, Eq)]
pub enum EventWord {
    Plug,
    Pull,
    Name,
    Teach,
    Disable,
    Enable,
    Eject,
    Relate,
    Reserve,
    Complete,
    HandleOpen,
    HandleClose,
    Window,
    Change,
    Watch,
    Unwatch,
}

/// Why an event was refused: this project's own.
#[derive(Clone, Copy, Debug, PartialEq, Eq)]
pub enum Reason {
    /// The world has no device of the parent's path.
    NoParent,
    /// The world has a device of the path.
    SameId,
    /// The world has 4,096 devices besides the root.
    WorldFull,
    /// There is no device of the path.
    NoDevice,
    /// The path is the root's.
    RootStays,
    /// A driver has the name.
    SameName,
    /// No unnamed driver of the kind is left.
    RackEmpty,
    /// No driver has the name.
    NoDriver,
    /// The driver answers by no script.
    NotTeachable,
    /// The driver's book has 64 rules.
    BookFull,
    /// The path is in the disabled list.
    AlreadyDisabled,
    /// The path is not in the disabled list.
    NotDisabled,
    /// An operation runs.
    Busy,
    /// Owner and member are one device.
    SelfRelation,
    /// The same kind, owner and member are related already.
    SameRelation,
    /// The owner depends on the member.
    RelationCycle,
    /// One of the two is not Started.
    NotStarted,
    /// The range clashes with one that is held or reserved.
    InUse,
    /// No request of that minor waits at the device.
    NoSuchRequest,
    /// No handle to the device is open.
    NoHandle,
    /// The world or the tree has a device below it.
    HasChildren,
    /// It has a window of the kind.
    SameWindow,
    /// The client is registered on the device.
    SameWatch,
    /// The client is not registered on the device.
    NoWatch,
}

/// What an ask or a completion shows: an answer, or a failure that must not be (this project's own name
/// for it).
#[derive(Clone, Copy, Debug, PartialEq, Eq)]
pub enum Shown {
    Ok,
    Fail,
    Pend,
    /// A failure of a request that may not be failed: it counts as success.
    Violation,
}

/// What waits to be done for a device: this project's own.
#[derive(Clone, Copy, Debug, PartialEq, Eq)]
pub enum TaskKind {
    /// Its children in the tree are compared with those in the world.
    List,
    /// Its drivers are chosen and its start begins.
    Start,
    /// The operation of that name begins for it.
    Rebalance,
    Disable,
    Eject,
    Surprise,
    Finish,
    Change,
}

/// The operations, of which one runs at a time: this project's own.
#[derive(Clone, Copy, Debug, PartialEq, Eq)]
pub enum OpKind {
    /// Devices stop so that one more can have its resources.
    Rebalance,
    /// A device and its dependents lose their drivers, and it stays disabled.
    Disable,
    /// A device and its dependents lose their drivers, and it leaves.
    Eject,
    /// A device has gone without a word.
    Surprise,
    /// Devices that stayed behind when they had gone lose their drivers, as no handle holds them any more.
    Finish,
    /// A running device requires something else: it and others stop so that it can have it.
    Change,
}

/// How an operation ended: this project's own.
pub enum OpEnd {
    /// The resources were found and given.
    Moved,
    /// There is no assignment of resources.
    NoFit,
    /// The search was given up at its budget.
    Spent,
    /// Nothing is left to do.
    Done,
    /// A device stayed behind, as a handle is open.
    Waiting,
    /// The device that is to change would not stop.
    Refused,
    /// The device of this path refused.
    Veto(Text),
}

impl Drop for OpEnd {
    fn drop(self) {
        match self {
            OpEnd::Moved => {}
            OpEnd::NoFit => {}
            OpEnd::Spent => {}
            OpEnd::Done => {}
            OpEnd::Waiting => {}
            OpEnd::Refused => {}
            OpEnd::Veto(_) => {}
        }
    }
}

/// What a client is told of a removal: after the driver kit's notices of a target device.
#[derive(Clone, Copy, Debug, PartialEq, Eq)]
pub enum NoticeKind {
    /// Whether the device may be removed.
    QueryRemove,
    /// The device stays.
    RemoveCancelled,
    /// The device was removed.
    RemoveComplete,
}

/// What a step of the machine prints: one line of the trace. This project's own.
pub enum Label {
    /// An event was taken, and this was done.
    Did(Deed),
    /// An event was refused.
    Refused {
        word: EventWord,
        reason: Reason,
    },
    /// A task had nothing to do.
    Skip {
        task: TaskKind,
        serial: u64,
    },
    /// A device of the world got a node.
    Join {
        serial: u64,
        path: Text,
    },
    /// A device is in the world no more.
    Gone {
        path: Text,
    },
    /// The children of a device were compared with the world.
    Listed {
        path: Text,
    },
    /// Drivers were chosen.
    Install {
        path: Text,
        rank: u32,
        driver: Text,
    },
    /// A device got a problem.
    Trouble {
        path: Text,
        problem: Problem,
    },
    /// A driver was asked to add a device.
    Add {
        path: Text,
        driver: Text,
        ok: bool,
    },
    /// A device got its resources.
    Assign {
        path: Text,
        held: ResList,
    },
    /// A rebalance found an assignment.
    Fits {
        path: Text,
    },
    /// There is no assignment.
    NoFit {
        path: Text,
    },
    /// The search was given up.
    Spent {
        path: Text,
    },
    /// A driver was asked a request.
    Asked {
        minor: Minor,
        path: Text,
        driver: Text,
        shown: Shown,
    },
    /// A request went through the whole stack: the device has this state.
    State {
        path: Text,
        state: DevState,
    },
    /// An operation began.
    Begin {
        op: OpKind,
        path: Text,
    },
    /// The holdings of so many devices were replaced at once.
    Commit {
        movers: u64,
    },
    /// A node left the tree.
    Leave {
        path: Text,
    },
    /// The target of an eject left world and tree.
    Ejected {
        path: Text,
    },
    /// A device refuses to be removed unasked, as a handle to it is open or it waits to be finished.
    Handles {
        path: Text,
    },
    /// A device that has gone keeps its drivers until no handle holds it any more.
    Waits {
        path: Text,
    },
    /// An operation ended.
    End {
        op: OpKind,
        path: Text,
        result: OpEnd,
    },
    /// A client was told of a removal, or was asked and then agreed or not.
    Notice {
        what: NoticeKind,
        client: Text,
        path: Text,
        agrees: Option<bool>,
    },
    /// A client refused, so what was due does not begin.
    Declined {
        op: OpKind,
        path: Text,
        client: Text,
    },
}

impl Drop for Label {
    fn drop(self) {
        match self {
            Label::Did(_) => {}
            Label::Refused { word: _, reason: _ } => {}
            Label::Skip { task: _, serial: _ } => {}
            Label::Join { serial: _, path: _ } => {}
            Label::Gone { path: _ } => {}
            Label::Listed { path: _ } => {}
            Label::Install {
                path: _,
                rank: _,
                driver: _,
            } => {}
            Label::Trouble {
                path: _,
                problem: _,
            } => {}
            Label::Add {
                path: _,
                driver: _,
                ok: _,
            } => {}
            Label::Assign { path: _, held: _ } => {}
            Label::Fits { path: _ } => {}
            Label::NoFit { path: _ } => {}
            Label::Spent { path: _ } => {}
            Label::Asked {
                minor: _,
                path: _,
                driver: _,
                shown: _,
            } => {}
            Label::State { path: _, state: _ } => {}
            Label::Begin { op: _, path: _ } => {}
            Label::Commit { movers: _ } => {}
            Label::Leave { path: _ } => {}
            Label::Ejected { path: _ } => {}
            Label::Handles { path: _ } => {}
            Label::Waits { path: _ } => {}
            Label::End {
                op: _,
                path: _,
                result: _,
            } => {}
            Label::Notice {
                what: _,
                client: _,
                path: _,
                agrees: _,
            } => {}
            Label::Declined {
                op: _,
                path: _,
                client: _,
            } => {}
        }
    }
}

/// A step of an operation that removes devices, with what the machine has to do beside it: this project's own.
#[derive(Drop)]
pub enum RemoveStep {
    /// Nothing.
    Did(Label),
    /// The node of that path and birth number left: where the world has it anew, it is listed again.
    Left {
        label: Label,
        path: InstancePath,
        born: u64,
    },
    /// The path of the target joins the disabled list.
    Disabled(Label),
    /// The target left: the world loses it, and then as for `Left`.
    Ejected {
        label: Label,
        path: InstancePath,
        born: u64,
    },
    /// The operation closes.
    Over(Label),
}
