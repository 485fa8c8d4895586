//! What holds of every run of the device machine, in a reader's words.

ghost use Rattle.pnp_promises.specs.Accepted.{AcceptedIsDoneLaw};
ghost use Rattle.pnp_promises.specs.Alone.{OperationsAreAloneLaw, OperationsBeginInTurnLaw};
ghost use Rattle.pnp_promises.specs.Asks.{AsksAreInOrderLaw, EndsWhenAnsweredLaw};
ghost use Rattle.pnp_promises.specs.AtRest.{AtRestWhoHasGoneIsHeldOpenLaw, WhoIsUpStandsOnWhatIsUpLaw};
ghost use Rattle.pnp_promises.specs.Endings.{EndTellsWhatIsLaw};
ghost use Rattle.pnp_promises.specs.FinishOrder.{FinishedFromTheGreatestLaw};
ghost use Rattle.pnp_promises.specs.Hears.{RefusersHearLaw, AskedFromTheGreatestLaw};
ghost use Rattle.pnp_promises.specs.Keeps.{RunningKeepsLaw, HandlesAreTheScriptsLaw, TasksAreInTurnLaw};
ghost use Rattle.pnp_promises.specs.Later.{LaterIsNoEarlierLaw};
ghost use Rattle.pnp_promises.specs.Lines.{LinesMeanWhatTheySayLaw};
ghost use Rattle.pnp_promises.specs.Named.{OnlyTheNamedDeviceChangesLaw};
ghost use Rattle.pnp_promises.specs.Pended.{WhatIsPendedWaitsLaw};
ghost use Rattle.pnp_promises.specs.Ranks.{TheBestIsChosenLaw};
ghost use Rattle.pnp_promises.specs.Refusals.{CausesAreExactLaw, RefusedChangesNothingLaw};
ghost use Rattle.pnp_promises.specs.Relations.{RelationsGoWithDriversLaw};
ghost use Rattle.pnp_promises.specs.Searches.{SearchesKeepTheBudgetLaw};
ghost use Rattle.pnp_promises.specs.Settled.{AtRestAllAreSettledLaw};
ghost use Rattle.pnp_promises.specs.StopOrder.{StoppedFromTheGreatestLaw};
ghost use Rattle.pnp_promises.specs.TreeOrder.{TreeStandsLaw};
ghost use Rattle.pnp_promises.specs.Words.{DependentsAreKnownLaw, PathsNameDevicesLaw};
ghost use Rattle.pnp_promises.specs.World.{WorldStandsLaw};
ghost use Rattle.pnp_promises.specs.Written.{ResourcesAreWrittenLaw};

/// A refused event changes nothing.
pub fn refused_changes_nothing()
    ensures { RefusedChangesNothingLaw }
{}

/// Where an event is refused, the printed cause is the first that holds, in the order of the causes; where it is accepted,
/// none of them holds.
pub fn causes_are_exact()
    ensures { CausesAreExactLaw }
{}

/// An accepted event is done: what it names stands where it says, and nothing else changed.
pub fn accepted_is_done()
    ensures { AcceptedIsDoneLaw }
{}

/// Tasks are taken in turn: a new one stands last, and the first is taken, while no operation runs. But a device that failed
/// its START again after it was stopped is removed before all else.
pub fn tasks_are_in_turn()
    ensures { TasksAreInTurnLaw }
{}

/// Handles are opened and closed by the script alone.
pub fn handles_are_the_scripts()
    ensures { HandlesAreTheScriptsLaw }
{}

/// A running device keeps what it needs and holds: both change only where it is not started yet, or is stopped, or loses its
/// drivers, or is the device of a change that is made.
pub fn running_keeps()
    ensures { RunningKeepsLaw }
{}

/// A driver is asked only where all before it in the request's order have answered, none waits, and none that may fail has
/// failed; where the device is in a state that has a row for the request; and, for QUERY_REMOVE and REMOVE, where no handle to
/// the device is open. START and what takes back a query go from the bottom of the stack up, all others from the top down.
pub fn asks_are_in_order()
    ensures { AsksAreInOrderLaw }
{}

/// A state is printed when the request has ended: all drivers have answered, or one that may fail has failed.
pub fn ends_when_answered()
    ensures { EndsWhenAnsweredLaw }
{}

/// What a line of the output says is so: a task that is skipped has nothing to do; what joins is of the world, below its parent's
/// node; what is listed is as the world says; drivers are those of the best choice, in order, of a device that is not disabled;
/// a problem has its cause, and the device has it; where nothing fits, nothing fits; an operation takes its device and all that
/// depends on it; who refuses unasked is held open; who leaves is gone; and an end says what was done.
pub fn lines_mean_what_they_say()
    ensures { LinesMeanWhatTheySayLaw }
{}

/// The end of the output tells what is: under `map` stands what is reserved and what devices hold, and nothing else, by kind, first
/// and last number and holder; under `outstanding` the requests that wait for an answer, and nothing else, by serial; and each
/// device to which a handle is open has a line with their number.
pub fn end_tells_what_is()
    ensures { EndTellsWhatIsLaw }
{}

/// A device that refuses to stop or to be removed is told at once that it stays.
pub fn refusers_hear()
    ensures { RefusersHearLaw }
{}

/// Devices are asked whether they may stop from the greatest serial down, so a child before its parent.
pub fn asked_from_the_greatest()
    ensures { AskedFromTheGreatestLaw }
{}

/// A path names the device that has it, in any letters; and where none is found, none has it.
pub fn paths_name_devices()
    ensures { PathsNameDevicesLaw }
{}

/// The dependents of a device are its children, the members that are related to it for removal or for ejection, and who depends
/// on one of these; and nobody else.
pub fn dependents_are_known()
    ensures { DependentsAreKnownLaw }
{}

/// Each device of the world but the root stands behind its parent, which is in the world: where a device is pulled, nobody below
/// it stays.
pub fn world_stands()
    ensures { WorldStandsLaw }
{}

/// Later is no earlier: where the events of one run stand at the front of those of another, over the same drivers and INFs, all that
/// the one did and printed stands at the front of what the other did. So what a script printed does not depend on what comes after it.
pub fn later_is_no_earlier()
    ensures { LaterIsNoEarlierLaw }
{}

/// In a finish the device that is taken is ready, and no ready device has a greater serial.
pub fn finished_from_the_greatest()
    ensures { FinishedFromTheGreatestLaw }
{}

/// A search keeps its budget: where `assign`, `fits` or `nofit` is printed, at most so many prefixes as the budget says were to be
/// tried for what was sought; where `spent` is printed, more.
pub fn searches_keep_the_budget()
    ensures { SearchesKeepTheBudgetLaw }
{}

/// Under `tree` each line stands below that of its parent, one level deeper, which is the last line before it that stands less deep; and
/// the lines of the children of one device stand in order of serial.
pub fn tree_stands()
    ensures { TreeStandsLaw }
{}

/// Ports and memory are written in hexadecimal, interrupts, DMA channels and bus numbers in decimal: the kind, the first number, the
/// last number, and whether they are shared.
pub fn resources_are_written()
    ensures { ResourcesAreWrittenLaw }
{}

/// Devices are stopped from the greatest serial down, so a child before its parent.
pub fn stopped_from_the_greatest()
    ensures { StoppedFromTheGreatestLaw }
{}

/// The best drivers are those of one match of the device's IDs with the INFs', and no match is better: none has a lesser number, and of
/// those with the same number none is of a newer INF, a higher version, an INF that was named before, or an earlier line.
pub fn the_best_is_chosen()
    ensures { TheBestIsChosenLaw }
{}

/// An operation is alone: while one runs nothing is being started, no task is taken, no device joins or gets drivers, and no other
/// operation begins.
pub fn operations_are_alone()
    ensures { OperationsAreAloneLaw }
{}

/// An operation begins in its turn: the first task is the one for it and its device.
pub fn operations_begin_in_turn()
    ensures { OperationsBeginInTurnLaw }
{}

/// Where no operation runs, the device above one that is Started is Started; or it would not start again after it was stopped, and is
/// due to go with all below it.
pub fn who_is_up_stands_on_what_is_up()
    ensures { WhoIsUpStandsOnWhatIsUpLaw }
{}

/// At rest, with nothing under way, nobody is Stopped, and who has gone and is still there is held open: a handle is open to it, or to
/// one that depends on it.
pub fn at_rest_who_has_gone_is_held_open()
    ensures { AtRestWhoHasGoneIsHeldOpenLaw }
{}

/// A request that a driver left unanswered waits until it is completed: each other event and each step leaves it waiting.
pub fn what_is_pended_waits()
    ensures { WhatIsPendedWaitsLaw }
{}

/// A line changes the device that it names, and no other; but with `commit` places change. A problem is set by a line that tells it, and
/// is cleared where drivers are chosen anew.
pub fn only_the_named_device_changes()
    ensures { OnlyTheNamedDeviceChangesLaw }
{}

/// A step makes no relation, and unmakes those alone of which a device that loses its drivers was owner or member.
pub fn relations_go_with_drivers()
    ensures { RelationsGoWithDriversLaw }
{}

/// At rest, with nothing under way, each device is Started without a problem, has no drivers and a problem, or has gone.
pub fn at_rest_all_are_settled()
    ensures { AtRestAllAreSettledLaw }
{}
