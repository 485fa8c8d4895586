ghost use Rattle.std.specs.Prelude.{◌≡◌};
ghost use Rattle.pnp_cli.specs.declared.turn.PieceError.TheVariants.{ReadFault, WantOfMemory};
ghost use Rattle.pnp_cli.specs.Pieces.{of_write_error};
ghost use Rattle.pnp_cli.specs.Turns.{bad_of};

use pnp_io::Failed;
use std::alloc::AllocError;

/// How a reader stands that has given all its events.
#[derive(Clone, Copy, PartialEq, Eq)]
pub enum Ending {
    /// More bytes are needed.
    NeedsMore,
    /// The script is at its end.
    Over,
    /// This line is bad.
    Bad(u64),
}

impl Ending {
    /// The number of the bad line, if there is one.
    pub fn bad(self) -> Option<u64>
        ensures { result ≡ bad_of self }
    {
        match self {
            Ending::Bad(line) => Some(line),
            _ => None,
        }
    }
}

/// Why an output was not written whole.
#[derive(Clone, Copy, PartialEq, Eq)]
pub enum WriteError {
    WriteFault,
    WantOfMemory,
}

impl From<AllocError> for WriteError {
    ghost use Rattle.std.specs.Prelude.{◌≡◌};
    ghost use Rattle.pnp_cli.specs.declared.turn.WriteError.TheVariants.{WantOfMemory};

    ghost from_gives = { λ _ e. e ≡ WantOfMemory };

    fn from(_: AllocError) -> Self {
        WriteError::WantOfMemory
    }
}

impl From<Failed> for WriteError {
    ghost use Rattle.std.specs.Prelude.{◌≡◌};
    ghost use Rattle.pnp_cli.specs.declared.turn.WriteError.TheVariants.{WriteFault};

    ghost from_gives = { λ _ e. e ≡ WriteFault };

    fn from(_: Failed) -> Self {
        WriteError::WriteFault
    }
}

/// Why a script was not run to its end.
#[derive(Clone, Copy, PartialEq, Eq)]
pub enum PieceError {
    ReadFault,
    WriteFault,
    TooLarge,
    WantOfMemory,
}

impl From<AllocError> for PieceError {
    ghost from_gives = { λ _ e. e ≡ WantOfMemory };

    fn from(_: AllocError) -> Self {
        PieceError::WantOfMemory
    }
}

impl From<Failed> for PieceError {
    ghost from_gives = { λ _ e. e ≡ ReadFault };

    fn from(_: Failed) -> Self {
        PieceError::ReadFault
    }
}

impl From<WriteError> for PieceError {
    ghost from_gives = { λ from e. e ≡ of_write_error from };

    fn from(error: WriteError) -> Self {
        match error {
            WriteError::WriteFault => PieceError::WriteFault,
            WriteError::WantOfMemory => PieceError::WantOfMemory,
        }
    }
}
