ghost use Rattle.std.specs.Prelude.{◌≡◌};
ghost use Rattle.script_family.specs.declared.error.FamilyError.TheVariants.{WantOfMemory};

use std::alloc::{AllocError, AllocFailed};
use thiserror::Error;

/// Why a text is no family, or is not read. This project's own.
#[derive(Clone, Copy, Debug, PartialEq, Eq, Error)]
pub enum FamilyError {
    /// This line, counted from 1, is the first that is bad: no line of scripts, a word that fits no open block, or, where the text ends
    /// in a block, the line that opened the innermost one.
    #[error("line {line} is bad")]
    BadLine { line: u64 },
    /// The text has more than 16,777,216 bytes with the line feed of its last line, or more than 1,024 lines are woven.
    #[error("too large")]
    TooLarge,
    #[error("out of memory")]
    WantOfMemory,
}

impl From<AllocError> for FamilyError {
    ghost from_gives = { λ _ e. e ≡ WantOfMemory };

    fn from(_e: AllocError) -> FamilyError {
        FamilyError::WantOfMemory
    }
}

impl<T: Drop> From<AllocFailed<T>> for FamilyError {
    ghost from_gives = { λ _ e. e ≡ WantOfMemory };

    fn from(_e: AllocFailed<T>) -> FamilyError {
        FamilyError::WantOfMemory
    }
}
