//! What the next line of a trace tells.
ghost use Rattle.std.specs.Prelude.{◌≡◌, IfSome};
ghost use Rattle.trace_check.specs.Letters.{answer_of};
ghost use Rattle.trace_check.specs.Turns.{IfFront};

use pnp_labels::Answer;
use trace_check::answer_of;

/// The answer that the first line tells, as the check of traces reads it; ok where no line is there.
pub(crate) fn answer_in(rest: &[u8]) -> Answer
    ensures { IfSome (answer_of rest.now) (λ answer. result ≡ answer) }
{
    match answer_of(rest) {
        Some(answer) => answer,
        None => Answer::Ok,
    }
}

/// Whether these bytes stand at the front of what is left.
pub(crate) fn begins_with(rest: &[u8], line: &[u8]) -> bool
    ensures { IfFront result rest.now line.now }
{
    rest.starts_with(line)
}
