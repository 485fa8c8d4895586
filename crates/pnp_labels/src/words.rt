/// The requests that a device's drivers are asked, each a minor code of IRP_MJ_PNP (the driver kit,
/// "Plug and Play Minor IRPs"; code, direction and whether it may be failed are the driver kit's).
#[derive(Clone, Copy, Debug, PartialEq, Eq)]
pub enum Minor {
    /// IRP_MN_START_DEVICE, 0x00: asked from the bottom, may be failed.
    Start,
    /// IRP_MN_QUERY_REMOVE_DEVICE, 0x01: asked from the top, may be failed.
    QueryRemove,
    /// IRP_MN_REMOVE_DEVICE, 0x02: asked from the top.
    Remove,
    /// IRP_MN_CANCEL_REMOVE_DEVICE, 0x03: asked from the bottom.
    CancelRemove,
    /// IRP_MN_STOP_DEVICE, 0x04: asked from the top.
    Stop,
    /// IRP_MN_QUERY_STOP_DEVICE, 0x05: asked from the top, may be failed.
    QueryStop,
    /// IRP_MN_CANCEL_STOP_DEVICE, 0x06: asked from the bottom.
    CancelStop,
    /// IRP_MN_SURPRISE_REMOVAL, 0x17: asked from the top.
    SurpriseRemoval,
}

/// What a driver answers (Oney, on pending an IRP). This project's own in that no other status is told apart.
#[derive(Clone, Copy, Debug, PartialEq, Eq)]
pub enum Answer {
    /// It succeeded.
    Ok,
    /// It failed.
    Fail,
    /// It is pending, until a completion comes.
    Pend,
}

/// The kinds of drivers of a rack: this project's own.
#[derive(Clone, Copy, Debug, PartialEq, Eq)]
pub enum DriverKind {
    /// Answers by the rules that a script teaches it.
    Scripted,
    /// Answers every request with success.
    Steady,
    /// Refuses to be stopped and to be removed.
    Stubborn,
}

/// The kinds of relations between devices (the driver kit, IRP_MN_QUERY_DEVICE_RELATIONS).
#[derive(Clone, Copy, Debug, PartialEq, Eq)]
pub enum RelKind {
    /// RemovalRelations: the member loses its drivers when the owner does.
    Removal,
    /// EjectionRelations: the member loses its drivers when the owner does; where it stays after an eject, its problem is
    /// 47.
    Ejection,
}

/// What a driver is asked: to add a device by its AddDevice routine, or a request.
#[derive(Clone, Copy, Debug, PartialEq, Eq)]
pub enum AskWhat {
    /// AddDevice.
    Add,
    /// The request of a minor code.
    Irp(Minor),
}
