//! What holds of the check of traces.

ghost use Rattle.free_model.specs.Asking.{EachStepAsksLaw, QuietAsksNobodyLaw};
ghost use Rattle.free_model.specs.Laws.{OnePlaceLaw, OneVerdictLaw, ComputesVerdictsLaw};
ghost use Rattle.free_model.specs.Outputs.{EachOutputIsARunLaw, EachRunIsAnOutputLaw};
ghost use Rattle.free_model.specs.Runs.{EachFreeRunIsARunLaw};

/// Of the lines that are allowed next at most one stands at the front of a text, and it leads to one place.
#[tactic(auto, using(crate::proofs::OneVerdict::one_place))]
pub fn one_place()
    ensures { OnePlaceLaw }
{}

/// A trace has one verdict.
#[tactic(auto, using(crate::proofs::OneVerdict::one_verdict))]
pub fn one_verdict()
    ensures { OneVerdictLaw }
{}

/// The output of every script, over every rack of these kinds of which those that can be taught were taught nothing, is a run.
#[tactic(auto, using(crate::proofs::Outs::each_output))]
pub fn each_output_is_a_run()
    ensures { EachOutputIsARunLaw }
{}

/// Where a script teaches no driver, each trace of it that is a run is the output over some drivers of these kinds.
#[tactic(auto, using(crate::proofs::Converse::each_run))]
pub fn each_run_is_an_output()
    ensures { EachRunIsAnOutputLaw }
{}

/// Each run, whatever the drivers answer, is a run of the machine over some drivers of these kinds, but for their books and for
/// the events that teach.
#[tactic(auto, using(crate::proofs::Answered::each_free_run))]
pub fn each_free_run_is_a_run()
    ensures { EachFreeRunIsARunLaw }
{}

/// The check that computes tells what it says, where the answers that it is given are those of its searches.
#[tactic(auto, using(crate::proofs::Refused::computed_verdict))]
pub fn computes_verdicts()
    ensures { ComputesVerdictsLaw }
{}

/// Each step asks whom it is to ask: the driver that is told before it, for its device and once; and where none is told, nobody.
#[tactic(auto, using(crate::proofs::AskSteps::each_step_asks))]
pub fn each_step_asks()
    ensures { EachStepAsksLaw }
{}

/// Where no step is next nobody is to be asked.
#[tactic(auto, using(crate::proofs::AskSteps::quiet_asks_nobody))]
pub fn quiet_asks_nobody()
    ensures { QuietAsksNobodyLaw }
{}
