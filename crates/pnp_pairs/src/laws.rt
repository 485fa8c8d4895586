//! What holds of two runs of the device machine.

ghost use Rattle.pnp_pairs.specs.DisabledAndEnabled.{DisabledAndEnabledLaw, TwiceIsAsOnceLaw};
ghost use Rattle.pnp_pairs.specs.OwnSets.{OperationsStayInTheirSetLaw};
ghost use Rattle.pnp_pairs.specs.Parts.{PartsStayApartLaw};
ghost use Rattle.pnp_pairs.specs.Renaming.{RenamingOnlyRenamesLaw, RenamedEndsAlikeLaw, RenamingRenamesLaw};
ghost use Rattle.pnp_pairs.specs.SameDrivers.{ChoiceHangsOnIdsLaw, IdsStayLaw, SameDeviceSameDriversLaw, SameIdsSameDriversLaw};
ghost use Rattle.pnp_pairs.specs.Struck.{StruckRunsDoTheRestLaw, RefusedLeavesNoTraceLaw};

/// Renaming: where paths, identifiers and names of drivers are others, one to one, in what happens and in drivers and INFs, the machine
/// does and prints the same with the new words.
pub fn renaming_renames()
    ensures { RenamingRenamesLaw }
{}

/// And it does nothing else: two runs in which the same happened but for the words, and which have both come to rest, are one but for
/// the words.
pub fn renaming_only_renames()
    ensures { RenamingOnlyRenamesLaw }
{}

/// The end of the output has the same rows in the same order: the tree the renamed nodes, the map the same resources and owners, and
/// the same requests wait.
pub fn renamed_ends_alike()
    ensures { RenamedEndsAlikeLaw }
{}

/// What is refused leaves no trace: without the events that were refused each run is a run, to the same state.
pub fn refused_leaves_no_trace()
    ensures { RefusedLeavesNoTraceLaw }
{}

/// And where they are struck out of what happens, nothing else is done or printed.
pub fn struck_runs_do_the_rest()
    ensures { StruckRunsDoTheRestLaw }
{}

/// Two devices with the same IDs get the same drivers: two `install` lines of a run tell the same rank and the same driver, and the same
/// drivers are added in the same order, whatever happened in between.
pub fn same_ids_same_drivers()
    ensures { SameIdsSameDriversLaw }
{}

/// And in any two runs with the same INFs they tell the same rank and the same driver, but for its letters, whatever drivers there are and
/// whatever happens in each.
pub fn choice_hangs_on_ids()
    ensures { ChoiceHangsOnIdsLaw }
{}

/// A device has one path and the same IDs for good, also where it left the tree and joined anew.
pub fn ids_stay()
    ensures { IdsStayLaw }
{}

/// So the same device gets the same drivers each time, as where it was disabled and is enabled.
pub fn same_device_same_drivers()
    ensures { SameDeviceSameDriversLaw }
{}

/// An operation stays in its set: from the begin of a disable, an eject or a surprise removal to its end each line names its device or one
/// that depended on that, and nobody else changes, whatever happens in between.
pub fn operations_stay_in_their_set()
    ensures { OperationsStayInTheirSetLaw }
{}

/// Where nothing is under way, a device on which nothing depends, and whose drivers agree to all, is disabled and enabled: the machine comes
/// to rest as it was, and the device is Started with the same drivers; but it holds what a search finds first, and its relations are gone.
pub fn disabled_and_enabled_is_as_before()
    ensures { DisabledAndEnabledLaw }
{}

/// So doing it twice is as doing it once.
pub fn twice_is_as_once()
    ensures { TwiceIsAsOnceLaw }
{}

/// A part of the tree stays by itself: where all that is under way is of some devices, on which nobody else hangs, and while what happens is
/// of them, each line names one of them, nobody else changes, and what is under way then is of them again; but where an operation begins that
/// looks at all devices.
pub fn parts_stay_apart()
    ensures { PartsStayApartLaw }
{}
