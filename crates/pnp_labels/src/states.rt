/// The states of a device node (the driver kit, "State Transitions for PnP Devices", but for `NoStack`, which
/// is this project's own).
#[derive(Clone, Copy, Debug, PartialEq, Eq)]
pub enum DevState {
    /// No driver has added the device.
    NoStack,
    /// Drivers have added the device; it was not started.
    NotStarted,
    /// Working.
    Started,
    /// Its drivers agreed to be stopped.
    StopPending,
    /// Stopped, so that its resources can change.
    Stopped,
    /// Its drivers agreed to be removed.
    RemovePending,
    /// Its drivers were told that it is gone.
    SurpriseRemoved,
}

/// Why a device does not work (the driver kit, "Device Manager Error Messages", but for `Budget` and `Held`,
/// which are this project's own).
#[derive(Clone, Copy, Debug, PartialEq, Eq)]
pub enum Problem {
    /// Code 10: its start was refused.
    FailedStart,
    /// Code 12: no assignment of resources exists beside the devices that stay.
    NormalConflict,
    /// Code 22: its path is disabled.
    Disabled,
    /// Code 28: no driver was found for it.
    FailedInstall,
    /// Code 31: a driver refused to add it.
    FailedAdd,
    /// Code 39: a driver that was chosen is not there.
    LoadFailed,
    /// Code 47: made ready for removal by the eject of another device, and still there.
    HeldForEject,
    /// The search for resources was given up at its budget.
    Budget,
    /// Lost its drivers with another device, and still there.
    Held,
}

/// How a request ended: this project's own.
#[derive(Clone, Copy, Debug, PartialEq, Eq)]
pub enum Verdict {
    /// Every driver was asked, and no refusal counted.
    Good,
    /// A driver refused a request that may be failed.
    Bad,
}
