//! What holds of each live run.

ghost use Rattle.live_laws.specs.Laws.{AsksComeFirstLaw, EachHasALiveOutputLaw, EachLiveOutputIsARunLaw, EachLiveStateIsLivedLaw, FrontsLaw};
ghost use Rattle.live_laws.specs.Laws.{LivedIsAnOutputLaw, LivedStatesAreOfRunsLaw, NobodyAskedLaw, NobodyLiveLaw, OneLiveOutputLaw};

/// For a script and answers there is one output, one end, and one script that was lived.
pub fn one_live_output()
    ensures { OneLiveOutputLaw }
{}

/// And there is one: a live run over a script that was read whole comes to an end, whatever the answers are.
pub fn each_has_a_live_output()
    ensures { EachHasALiveOutputLaw }
{}

/// Where no driver is live, the output is the one that the machine prints by the books.
pub fn nobody_live()
    ensures { NobodyLiveLaw }
{}

/// The same where drivers are live, and none of them was asked.
pub fn nobody_asked()
    ensures { NobodyAskedLaw }
{}

/// More answers behind those that were given go on with the output, and change nothing that was written before.
pub fn fronts()
    ensures { FrontsLaw }
{}

/// Each ask is said before its answer is heard, and nothing else is said in between.
pub fn asks_come_first()
    ensures { AsksComeFirstLaw }
{}

/// Where the script came to its end, what is written is, but for its notes, a run of the script as it was lived: so the check of traces says
/// yes to it.
pub fn each_live_output_is_a_run()
    ensures { EachLiveOutputIsARunLaw }
{}

/// But for books, each state of a live run is one of the machine whatever its drivers answer.
pub fn each_live_state_is_lived()
    ensures { EachLiveStateIsLivedLaw }
{}

/// So, but for books, it is a state of a run by the books.
pub fn lived_states_are_of_runs()
    ensures { LivedStatesAreOfRunsLaw }
{}

/// What was said before a run began, as when the other side was greeted, changes nothing: what was written is a live output.
pub fn lived_is_an_output()
    ensures { LivedIsAnOutputLaw }
{}
