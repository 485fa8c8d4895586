//! What holds of the check of traces of scripts with clients.

ghost use Rattle.front_check.specs.Laws.{OnePlaceLaw, OneVerdictLaw, EachOutputIsARunLaw, SameWithoutClientsLaw};

/// Of the lines that are allowed next at most one stands at the front of a text, and it leads to one place.
#[tactic(auto, using(crate::proofs::OneVerdict::one_place))]
pub fn one_place()
    ensures { OnePlaceLaw }
{}

/// A trace has one verdict.
#[tactic(auto, using(crate::proofs::OneVerdict::one_verdict))]
pub fn one_verdict()
    ensures { OneVerdictLaw }
{}

/// The output of the front for every script, over every rack of these kinds of which those that can be taught were taught nothing, is a
/// run.
#[tactic(auto, using(crate::proofs::Outs::each_output))]
pub fn each_output_is_a_run()
    ensures { EachOutputIsARunLaw }
{}

/// Without clients the front's check is the machine's.
#[tactic(auto, using(crate::proofs::Clientless::same_checks))]
pub fn same_without_clients()
    ensures { SameWithoutClientsLaw }
{}
