//! The answer that a line tells, read off its last letter.
ghost use Rattle.std.specs.Prelude.{◌≡◌};
ghost use Rattle.trace_check.specs.Letters.{answer_by, answer_of};

use pnp_labels::Answer;

/// The answer whose word ends in this letter: the words are ok, fail, pend and violation.
fn answer_by(letter: u8) -> Answer
    ensures { result ≡ answer_by letter }
{
    match letter {
        b'l' | b'n' => Answer::Fail,
        b'd' => Answer::Pend,
        _ => Answer::Ok,
    }
}

/// The answer that the first line tells by its last letter, if a line is there: of an ask it is the one that the driver gave, of which
/// violation counts as fail. No answer where no LF is left. This project's own. Cost: the length of the line.
pub fn answer_of(rest: &[u8]) -> Option<Answer>
    ensures { result ≡ answer_of rest.now }
{
    let mut letter = 0;
    for byte in rest {
        if *byte == b'\n' {
            return Some(answer_by(letter));
        }
        letter = *byte;
    }
    None
}
