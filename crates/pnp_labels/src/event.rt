use crate::words::{Answer, AskWhat, DriverKind, Minor, RelKind};
use device_ids::{IdList, InstancePath, Text};
use resource_reqs::{Reqs, Res};

/// A question to a driver: what, and for the device of which path. This project's own.
#[derive(Clone, Copy)]
pub struct Ask<'a> {
    /// What is asked.
    pub what: AskWhat,
    /// The path of the device.
    pub path: &'a InstancePath,
}

/// A rule of a driver's book: what it answers when it is asked so for a path, or for any, and how often; without
/// `uses`, endlessly. This project's own.
pub struct Rule {
    /// The question that the rule is for.
    pub what: AskWhat,
    /// The path that it is for; none for every path.
    pub path: Option<InstancePath>,
    /// The answer.
    pub answer: Answer,
    /// How many more times it is given; none for endlessly.
    pub uses: Option<u32>,
}

impl Drop for Rule {
    fn drop(self) {
        let Rule {
            what: _,
            path: _,
            answer: _,
            uses: _,
        } = self;
    }
}

/// What a line of a script says that happens: in the world, to the rack, by the operator, or to a request that
/// is outstanding. This project's own.
#[derive(Drop)]
pub enum Event {
    /// A device arrives below a parent.
    Plug {
        parent: InstancePath,
        path: InstancePath,
        hw: IdList,
        compat: IdList,
        reqs: Reqs,
    },
    /// A device departs with all below it.
    Pull {
        path: InstancePath,
    },
    /// A driver of the rack gets a name.
    Name {
        name: Text,
        kind: DriverKind,
    },
    /// A named driver learns a rule.
    Teach {
        name: Text,
        rule: Rule,
    },
    /// The operator disables a device.
    Disable {
        path: InstancePath,
    },
    /// The operator enables a device.
    Enable {
        path: InstancePath,
    },
    /// The operator ejects a device.
    Eject {
        path: InstancePath,
    },
    /// The member is to lose its drivers when the owner does.
    Relate {
        kind: RelKind,
        owner: InstancePath,
        member: InstancePath,
    },
    /// A range is taken for no device.
    Reserve {
        res: Res,
    },
    /// A pended request is completed.
    Complete {
        path: InstancePath,
        minor: Minor,
        ok: bool,
    },
    /// Somebody opens a handle to a device.
    OpenHandle {
        path: InstancePath,
    },
    /// A handle to a device is closed.
    CloseHandle {
        path: InstancePath,
    },
    /// To the devices below this one only ports, or memory, of this range are passed on from now on.
    Window {
        path: InstancePath,
        res: Res,
    },
    /// A device of the world, which runs, requires something else from now on.
    Change {
        path: InstancePath,
        reqs: Reqs,
    },
    /// A client is to be asked before a device is removed, and to hear how that ended; it agrees, or refuses.
    Watch {
        client: Text,
        path: InstancePath,
        agrees: bool,
    },
    /// A client is to hear no more of a device.
    Unwatch {
        client: Text,
        path: InstancePath,
    },
}
