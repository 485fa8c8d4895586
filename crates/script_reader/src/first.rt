ghost use Rattle.std.specs.Prelude.{◌≡◌, ◌∷◌, [], true, false};
ghost use Rattle.std.specs.Str.Lines.{strip_carriage_return};
ghost use Rattle.script_reader.specs.Script.{nothing, meaning_of, event_or_bad};
ghost use Rattle.script_reader.specs.Words.{words_of};
ghost use Rattle.script_reader.specs.Lines.{event_of};
ghost use Rattle.device_ids.specs.Cuts.{parts};
ghost use Rattle.script_reader.specs.Steps.{Says};

use crate::step::Step;
use crate::words::is_blank;
use device_ids::split_once;

/// The most bytes of a line before its LF.
pub const LONGEST: usize = 4096;

/// Whether a line has no event: it has no words, or its first word begins a comment. Cost: the blanks at its front.
pub fn has_no_event(line: &[u8]) -> bool
    ensures nothing { result ≡ true → meaning_of (words_of line.now) ≡ nothing }
    ensures event { result ≡ false → meaning_of (words_of line.now) ≡ event_or_bad (event_of (words_of line.now)) }
{
    for byte in line {
        if !is_blank(*byte) {
            return *byte == b'#';
        }
    }
    true
}

/// The line without a CR at its end.
pub fn without_return(line: &[u8]) -> &[u8]
    ensures { result.now ≡ strip_carriage_return line.now }
{
    if line.is_empty() {
        return line;
    }
    let last = line.len() - 1;
    if line[last] == b'\r' {
        return &line[..last];
    }
    line
}

/// What stands at the front of the bytes that are left. Cost: the bytes of the first line.
#[tactic(auto, using(crate::proofs::Scripts::pass_line, crate::proofs::Scripts::read_line, crate::proofs::Scripts::over_line))]
pub fn first_step(rest: &[u8], finished: bool) -> Step<'_>
    ensures { Says finished rest.now result }
{
    let Some((line, _)) = split_once(rest, b'\n') else {
        return open_step(rest, finished);
    };
    if line.len() > LONGEST {
        return Step::Bad;
    }
    let count = line.len() + 1;
    let text = without_return(line);
    if has_no_event(text) {
        return Step::Skip { count };
    }
    Step::Read { count, text }
}

/// The same where no LF is left.
#[tactic(auto, using(crate::proofs::Scripts::pass_last, crate::proofs::Scripts::read_last, crate::proofs::Scripts::long_rest, crate::proofs::Scripts::wait_rest))]
fn open_step(rest: &[u8], finished: bool) -> Step<'_>
    requires { parts 10 rest.now ≡ rest.now ∷ [] }
    ensures { Says finished rest.now result }
{
    if rest.len() > LONGEST {
        return Step::Bad;
    }
    if !finished {
        return Step::NeedMore;
    }
    if rest.is_empty() {
        return Step::End;
    }
    let count = rest.len();
    if has_no_event(rest) {
        return Step::Skip { count };
    }
    Step::Read { count, text: rest }
}
