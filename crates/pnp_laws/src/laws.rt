//! What holds of every run of the device machine, for every rack of drivers and whatever happens.

ghost use Rattle.pnp_laws.specs.Begun.{OperationsBeginLaw, EachConflictIsRealLaw, EachEndRestoresLaw, UnchangedRestoresLaw};
ghost use Rattle.pnp_laws.specs.Effects.{EachStepHasAnEffectLaw};
ghost use Rattle.pnp_laws.specs.Ends.{ComesToRestLaw, JoinsAreLimitedLaw, FewJoinLaw};
ghost use Rattle.pnp_laws.specs.Facts.{FactsAreKeptLaw};
ghost use Rattle.pnp_laws.specs.Held.{FewHeldLaw, EachHoldsAPartLaw};
ghost use Rattle.pnp_laws.specs.Listed.{EachConflictIsListedLaw};
ghost use Rattle.pnp_laws.specs.Needs.{NeedsAreWithinLaw, NodesArePluggedLaw};
ghost use Rattle.pnp_laws.specs.Keys.{NodesAreKeyedLaw, NothingPrintedClashesLaw, NothingDependsOnItselfLaw};
ghost use Rattle.pnp_laws.specs.Printed.{NamesAreGivenLaw, EachNodeIsPrintedOnceLaw};
ghost use Rattle.pnp_laws.specs.Quiet.{QuietWhereItRestsLaw, ExactlyOneStepLaw};
ghost use Rattle.pnp_laws.specs.Serials.{SerialsAreJoinsLaw, FewSerialsLaw, FewBirthsLaw};
ghost use Rattle.pnp_laws.specs.Stacks.{NamesAreKnownLaw, StacksFitLaw};
ghost use Rattle.pnp_laws.specs.StepsLeft.{StepsAreCountedLaw};
ghost use Rattle.pnp_laws.specs.Strays.{NobodyIsForgottenLaw};
ghost use Rattle.pnp_laws.specs.Told.{StatesAreToldLaw};
ghost use Rattle.pnp_laws.specs.Waiting.{DependentsAreToldLaw, OpenHandlesFitLaw, ReadyOnesAreDueLaw};
ghost use Rattle.pnp_laws.specs.Windows.{NeedsAreClippedLaw, HeldInsideWindowsLaw};
ghost use Rattle.pnp_model.specs.Laws.{FollowsDiagramLaw, NothingClashesLaw, AllHoldWholeLaw, VetoRestoresLaw, FutileRestoresLaw, DependentsFirstLaw, ConflictsAreRealLaw};

/// In each state of each run no two resources among all holdings and the reserved ranges clash: two clash where
/// they are of one kind and have a number in common, unless both are shared.
#[tactic(auto, using(crate::proofs::RunsShare::nothing_clashes))]
pub fn nothing_clashes()
    ensures { NothingClashesLaw }
{}

/// In each step of each run a device changes its state by a row of the state diagram, and devices join and leave
/// without drivers; where a state is printed, the device of that path came to it by a row, also where its state stayed.
pub fn follows_diagram()
    ensures { FollowsDiagramLaw }
{}

/// In each run a device loses its drivers only when all that depends on it has none, and a node leaves only when
/// no node is below it.
#[tactic(auto, using(crate::proofs::RunsStand::dependents_go_first))]
pub fn dependents_first()
    ensures { DependentsFirstLaw }
{}

/// Where an operation that began ends with a veto, all nodes with all their fields, the relations and the reserved
/// ranges are as they were before it began, whatever happened in between.
#[tactic(auto, using(crate::proofs::RunsVeto::a_veto_restores))]
pub fn veto_restores()
    ensures { VetoRestoresLaw }
{}

/// A state of a run has no next step exactly where it rests: the operation that runs waits for an answer; or none
/// runs, each activity waits for one, and no task is left but one that must wait for the activities.
pub fn quiet_where_it_rests()
    ensures { QuietWhereItRestsLaw }
{}

/// From a state of a run that does not rest exactly one step follows: one label and one new state. So whatever is
/// searched has an answer, and only one.
pub fn exactly_one_step()
    ensures { ExactlyOneStepLaw }
{}

/// From each state of a run steps alone lead to a state that rests, and there is a bound on how many steps can follow
/// one another before something happens. So after each event the machine comes to rest.
pub fn comes_to_rest()
    ensures { ComesToRestLaw }
{}

/// Each state of a run has a number of steps that are left: none where nothing is next, and each step leaves one less.
/// So one number bounds a loop that does steps until none is next.
#[tactic(auto, using(crate::proofs::StepsLeft::steps_are_counted))]
pub fn steps_are_counted()
    ensures { StepsAreCountedLaw }
{}

/// In a run at most 4,096 nodes join for each event, whether the event was accepted or refused.
#[tactic(auto, using(crate::proofs::JoinLimits::joins_are_limited))]
pub fn joins_are_limited()
    ensures { JoinsAreLimitedLaw }
{}

/// From each state of a run on, until something happens, at most 4,096 nodes join, and 4,096 more for each `start` task
/// that waits in that state: a device that starts anew lists its children anew.
#[tactic(auto, using(crate::proofs::JoinLimits::few_join))]
pub fn few_join()
    ensures { FewJoinLaw }
{}

/// In each state of each run a device that is up, or would be but for an operation that asked it to stop or to go,
/// holds one whole alternative of its requirements, place by place; and a device without drivers holds nothing.
#[tactic(auto, using(crate::proofs::RunsWhole::all_hold_whole))]
pub fn all_hold_whole()
    ensures { AllHoldWholeLaw }
{}

/// Where a rebalance ends because nothing fitted or the budget was spent, all nodes with all their fields, the relations
/// and the reserved ranges are as before its begin, but for the problem of the device that it was for.
pub fn futile_restores()
    ensures { FutileRestoresLaw }
{}

/// Where a change ends because nothing fitted, the budget was spent, or its device would not stop, all nodes with all
/// their fields, the relations and the reserved ranges are as before its begin, whatever happened in between.
#[tactic(auto, using(crate::proofs::RunsUnchanged::unchanged_restores))]
pub fn unchanged_restores()
    ensures { UnchangedRestoresLaw }
{}

/// Where problem 12 is printed in a rebalance, no assignment exists for its device together with all Started devices
/// that can move, beside what all others hold and what is reserved. The root cannot move, nor can a device that
/// refused to be stopped since the begin, nor one that stands above such a device.
pub fn conflicts_are_real()
    ensures { ConflictsAreRealLaw }
{}

/// Where an operation ends, one of its kind began for its device and none has ended since; and where problem 12 is
/// printed, a rebalance began for that device and none has ended since. So what is said of an end and of problem 12
/// since the begin is said of each of them.
#[tactic(auto, using(crate::proofs::RunsBegun::operations_begin))]
pub fn operations_begin()
    ensures { OperationsBeginLaw }
{}

/// Each problem 12 that is printed is real: a rebalance began for the device and has not ended since, there are devices
/// that can move, in order of serial, and no assignment exists for the device and all of them.
pub fn each_conflict_is_real()
    ensures { EachConflictIsRealLaw }
{}

/// Before each step that prints problem 12 a rebalance runs for the device, and no assignment exists for the device and all
/// that can move by the list of those that refused which the rebalance itself keeps: those that are Started, but not the
/// root, one on the list, or one that stands above one on the list.
#[tactic(auto, using(crate::proofs::RunsConflict::each_conflict_is_listed))]
pub fn each_conflict_is_listed()
    ensures { EachConflictIsListedLaw }
{}

/// Each end with a veto restores all that was before the operation began, which did begin, and so does each end of a
/// change with `nofit`, `spent` or `refused`; each end of a rebalance with `nofit` or `spent` all but the problem of its
/// device.
pub fn each_end_restores()
    ensures { EachEndRestoresLaw }
{}

/// In each state of each run the next serial is one more than the number of nodes that joined.
#[tactic(auto, using(crate::proofs::RunsSerials::serials_are_joins))]
pub fn serials_are_joins()
    ensures { SerialsAreJoinsLaw }
{}

/// So at most 4,096 serials are given for each event.
#[tactic(auto, using(crate::proofs::RunsSerials::few_serials))]
pub fn few_serials()
    ensures { FewSerialsLaw }
{}

/// At most one birth number is given for each event.
#[tactic(auto, using(crate::proofs::RunsSerials::few_births))]
pub fn few_births()
    ensures { FewBirthsLaw }
{}

/// Each step and each event has an effect: what it does to nodes, relations, drivers, ranges, operation, activities,
/// tasks, world and disabled paths, with the evidence that the other laws read.
pub fn each_step_has_an_effect()
    ensures { EachStepHasAnEffectLaw }
{}

/// In each state of each run serials ascend, a birth number names one node, a path names one up to ASCII case, and each
/// node but the root has its parent, which has a lower serial.
#[tactic(auto, using(crate::proofs::RunsStacks::keyed))]
pub fn nodes_are_keyed()
    ensures { NodesAreKeyedLaw }
{}

/// In each state of each run nothing depends on itself, by children and relations together.
#[tactic(auto, using(crate::proofs::RunsKeys::no_cycle))]
pub fn nothing_depends_on_itself()
    ensures { NothingDependsOnItselfLaw }
{}

/// In each state of each run no two of all ranges that are reserved or held clash: of one list, which is the list that is
/// printed under `map`.
#[tactic(auto, using(crate::proofs::RunsKeys::nothing_printed_clashes))]
pub fn nothing_printed_clashes()
    ensures { NothingPrintedClashesLaw }
{}

/// In each state of each run a device has at most 16 drivers, each of the rack and with a name; but for the root it has
/// none exactly where it is NoStack.
#[tactic(auto, using(crate::proofs::RunsStacks::stacks_fit))]
pub fn stacks_fit()
    ensures { StacksFitLaw }
{}

/// Where a driver is asked or added, the name that is printed is that of a driver of the rack.
#[tactic(auto, using(crate::proofs::RunsStacks::names_are_known))]
pub fn names_are_known()
    ensures { NamesAreKnownLaw }
{}

/// In each step of each run only the device whose path is printed changes its state; where a state is printed, it comes to
/// it by the row of the diagram for the very request that has just ended there, and for how that ended.
#[tactic(auto, using(crate::proofs::RunsTold::states_are_told))]
pub fn states_are_told()
    ensures { StatesAreToldLaw }
{}

/// In each state of each run in which no operation runs, a device that is Stopped is due to go: the first tasks have a
/// surprise removal of it or of a device above it. So is one that is NotStarted and holds something but is not being
/// started. So no device keeps what it holds for good without being up.
#[tactic(auto, using(crate::proofs::RunsStrays::nobody_is_forgotten))]
pub fn nobody_is_forgotten()
    ensures { NobodyIsForgottenLaw }
{}

/// In each state of each run, also while an operation runs: owner and member of each relation are there and have drivers,
/// but for the root, and a device that is NotStarted is neither; nothing stands below a device in NoStack or NotStarted;
/// nothing is being started while an operation runs; and each device that is Stopped, or NotStarted with holdings and not
/// being started, is due to go, or is the device of a rebalance, or to be started again by it, or of the set of a surprise
/// removal and to be finished. In a disable, an eject or a finish there is no such device.
#[tactic(auto, using(crate::proofs::RunsFacts::facts_are_kept))]
pub fn facts_are_kept()
    ensures { FactsAreKeptLaw }
{}

/// In each state of each run each device holds one whole alternative of its requirements, or nothing, whatever its state.
#[tactic(auto, using(crate::proofs::RunsHeld::each_holds_a_part))]
pub fn each_holds_a_part()
    ensures { EachHoldsAPartLaw }
{}

/// So where no alternative has more than some number of groups, at most one more than that number is held or reserved
/// for each event, and for the root.
pub fn few_held()
    ensures { FewHeldLaw }
{}

/// In each state of each run each node but the root has the path and the identifiers that an event of the run plugged
/// together, and the requirements of that event, or of a later one that changed those of its path, cut to what comes
/// through the windows above it now.
#[tactic(auto, using(crate::proofs::NodesPlugged::nodes_are_plugged))]
pub fn nodes_are_plugged()
    ensures { NodesArePluggedLaw }
{}

/// So where no event of a run plugs an alternative of more than some number of groups, or changes to one, no node needs
/// more.
pub fn needs_are_within()
    ensures { NeedsAreWithinLaw }
{}

/// In each state of each run each node has one line under `tree`, and each line there is of a node.
#[tactic(auto, using(crate::proofs::TreePrints::each_node_is_printed_once))]
pub fn each_node_is_printed_once()
    ensures { EachNodeIsPrintedOnceLaw }
{}

/// In each state of each run a driver has the name that it had at the opening, or one that an event of the run gave.
#[tactic(auto, using(crate::proofs::NamesGiven::names_are_given))]
pub fn names_are_given()
    ensures { NamesAreGivenLaw }
{}

/// In each state of each run clipping what a device below the root needs by the windows above it, as they are now,
/// changes nothing: what it was given when it joined still fits.
pub fn needs_are_clipped()
    ensures { NeedsAreClippedLaw }
{}

/// In each state of each run what a device holds lies inside the windows of every device above it: a resource of a kind
/// for which one of them has a window lies in that window.
pub fn held_inside_windows()
    ensures { HeldInsideWindowsLaw }
{}

/// In each state of each run a device to which a handle is open is there, and is Started, StopPending, Stopped or
/// SurpriseRemoved; the list of open handles stands in order of serial, and of each device in it at least one is open.
pub fn open_handles_fit()
    ensures { OpenHandlesFitLaw }
{}

/// In each state of each run in which neither a surprise removal nor a finish runs, all that depends on a device that is
/// SurpriseRemoved is SurpriseRemoved too.
pub fn dependents_are_told()
    ensures { DependentsAreToldLaw }
{}

/// In each state of each run in which neither a surprise removal nor a finish runs, each device that is ready to be finished has
/// a `finish` task: it is SurpriseRemoved, no handle to it is open, and nothing that hangs on it has drivers.
pub fn ready_ones_are_due()
    ensures { ReadyOnesAreDueLaw }
{}
