//! What holds of each operation from its begin to its end.

ghost use Rattle.operation_promises.specs.Below.{RemovedAfterAllThatDependLaw, StoppedAfterAllBelowLaw};
ghost use Rattle.operation_promises.specs.Causes.{OperationsHaveCausesLaw};
ghost use Rattle.operation_promises.specs.Done.{EndsSayWhatWasDoneLaw};
ghost use Rattle.operation_promises.specs.Movers.{OperationsMoveTheirOwnLaw};

/// From the begin of a rebalance, a change or a finish to its end each line names a device of its own, or its path: of a rebalance and a
/// change the device and those that were Started at the begin, of a finish those that had gone. And each other device is as it was.
pub fn operations_move_their_own()
    ensures { OperationsMoveTheirOwnLaw }
{}

/// Where a device is asked STOP, nobody below it, at whatever depth, is up.
pub fn stopped_after_all_below()
    ensures { StoppedAfterAllBelowLaw }
{}

/// Where a device is asked REMOVE, by an operation or by its start, nothing depends on it any more.
pub fn removed_after_all_that_depend()
    ensures { RemovedAfterAllThatDependLaw }
{}

/// Each operation has a cause: an event that was accepted, as of a disable, an eject, a change or a closed handle; or a line, as `nofit`,
/// `gone`, or problem 10 of a device that would not start again.
pub fn operations_have_causes()
    ensures { OperationsHaveCausesLaw }
{}

/// Where an operation ends, what its last line says is done: after `done` of a disable, an eject or a surprise removal none of its devices
/// has drivers; a veto tells the path of one that refused; after `waiting` none is up; after `moved` the device of the operation holds one
/// whole alternative of what it requires; after `nofit` and `spent` nothing was found; and after `refused` the device of a change had not
/// agreed to stop.
pub fn ends_say_what_was_done()
    ensures { EndsSayWhatWasDoneLaw }
{}
