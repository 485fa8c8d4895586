//! What holds of every output.

ghost use Rattle.pnp_cli.specs.GeneratedLaws.{GeneratedInfIsAcceptedLaw, GeneratedScriptEndsLaw};
ghost use Rattle.pnp_cli.specs.OwnTraces.{NoTraceHasClientsLaw, EachOutputIsCheckedLaw, EachOutputIsATraceLaw};
ghost use Rattle.pnp_cli.specs.Runs.{ExactlyOneOutputLaw, ExactlyOneVerdictLaw};

/// Whatever the settings and the rack of drivers, each script has one output and no other. So what is said of the output
/// of a script is said of a text that there is.
pub fn exactly_one_output()
    ensures { ExactlyOneOutputLaw }
{}

/// Whatever the settings and the kinds of drivers, each trace has one verdict for a script and no other. So a check has an answer.
pub fn exactly_one_verdict()
    ensures { ExactlyOneVerdictLaw }
{}

/// What is written for a script without lines of clients, over every rack of drivers of which those that can be taught were taught
/// nothing, is a trace of that script to which the check over drivers of these kinds answers `yes`.
#[tactic(auto, using(crate::proofs::OwnTraces::own_trace))]
pub fn each_output_is_a_trace()
    ensures { EachOutputIsATraceLaw }
{}

/// And where a line of a script is one of a client, no trace is a run of it: the check answers with the number of a line.
#[tactic(auto, using(crate::proofs::OwnTraces::without_clients))]
pub fn no_trace_has_clients()
    ensures { NoTraceHasClientsLaw }
{}

/// So of two commands: where one wrote its output for such a script, and another checks these bytes as its trace, with the same INFs, budget and
/// script and drivers of the same kinds, the output of the second is the line `yes`.
#[tactic(auto, using(crate::proofs::OwnTraces::own_check))]
pub fn each_output_is_checked()
    ensures { EachOutputIsCheckedLaw }
{}

/// The generated INF is accepted.
#[tactic(auto, using(crate::proofs::GeneratedInf::generated_inf))]
pub fn generated_inf_is_accepted()
    ensures { GeneratedInfIsAcceptedLaw }
{}

/// A generated script of at most 400 devices has no bad line and is not too large: it is run to its end.
#[tactic(auto, using(crate::proofs::GeneratedLaws::generated_script))]
pub fn generated_script_ends()
    ensures { GeneratedScriptEndsLaw }
{}
