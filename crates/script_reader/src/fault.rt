ghost use Rattle.std.specs.Prelude.{◌≡◌};
ghost use Rattle.script_reader.specs.Faults.{seen, fault, is_bad};

use crate::cause::Cause;

/// What is wrong with a line: the cause, and the text of the line that it is true of. This project's own.
#[derive(Clone, Copy)]
pub struct LineFault<'a> {
    /// The cause.
    pub cause: Cause,
    /// The word, or the part of a word.
    pub word: &'a [u8],
}

/// Why a line gives no event.
#[derive(Clone, Copy)]
pub enum LineError<'a> {
    /// It is outside the grammar.
    Bad(LineFault<'a>),
    /// Memory ran out.
    WantOfMemory,
}

impl LineError<'_> {
    /// Whether the line is bad, and not memory wanting.
    pub fn is_bad(&self) -> bool
        ensures { result ≡ is_bad self.now }
    {
        matches!(self, LineError::Bad(_))
    }
}

/// A cause, and the word that it is true of.
#[inline(always)]
pub fn fault<'a>(cause: Cause, word: &'a [u8]) -> LineFault<'a>
    ensures { seen result ≡ fault cause word.now }
{
    LineFault { cause, word }
}
