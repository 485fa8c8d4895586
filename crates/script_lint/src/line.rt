ghost use Rattle.std.specs.Prelude.{◌≡◌, IfOk};
ghost use Rattle.std.specs.Option.{option_map, is_some};
ghost use Rattle.script_reader.specs.Faults.{seen};
ghost use Rattle.script_lint.specs.Script.{body_of, text_fault, line_fault, meaning, is_bad};

use script_reader::{
    Cause, LONGEST, LineError, LineFault, has_no_event, read_line, without_return,
};
use std::alloc::{AllocError, Global};

/// What of the line is read; `ended` says that an LF stood behind it.
fn body_of(line: &[u8], ended: bool) -> &[u8]
    ensures { result.now ≡ body_of ended line.now }
{
    if ended { without_return(line) } else { line }
}

/// What is wrong with a line that is short enough.
#[tactic(auto, using(crate::proofs::Exact::no_fault, crate::proofs::Exact::fault_of_words))]
fn text_fault<'a>(alloc: Global, text: &'a [u8]) -> Result<Option<LineFault<'a>>, AllocError>
    ensures { IfOk result (λ f. option_map seen f ≡ text_fault text.now) }
{
    if has_no_event(text) {
        return Ok(None);
    }
    match read_line(alloc, text) {
        Ok(_) => Ok(None),
        Err(LineError::Bad(fault)) => Ok(Some(fault)),
        Err(LineError::WantOfMemory) => Err(AllocError),
    }
}

/// What is wrong with a line.
fn line_fault<'a>(
    alloc: Global,
    line: &'a [u8],
    ended: bool,
) -> Result<Option<LineFault<'a>>, AllocError>
    ensures { IfOk result (λ f. option_map seen f ≡ line_fault ended line.now) }
{
    if line.len() > LONGEST {
        return Ok(Some(LineFault {
            cause: Cause::LongLine,
            word: line,
        }));
    }
    text_fault(alloc, body_of(line, ended))
}

/// What is wrong with a line of a script, which is given without its LF; `ended` says that one stood behind it. There is a fault exactly
/// where the reader of scripts takes the line for a bad one. Or want of memory. Cost: the length. This project's own.
#[tactic(auto, using(crate::proofs::Exact::exact))]
pub fn fault_of<'a>(
    alloc: Global,
    line: &'a [u8],
    ended: bool,
) -> Result<Option<LineFault<'a>>, AllocError>
    ensures cause { IfOk result (λ f. option_map seen f ≡ line_fault ended line.now) }
    ensures exact { IfOk result (λ f. is_some f ≡ is_bad (meaning ended line.now)) }
{
    line_fault(alloc, line, ended)
}
