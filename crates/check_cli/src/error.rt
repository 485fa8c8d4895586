use inf_reader::InfError;
use pnp_io::ReadError;
use std::alloc::AllocError;

/// Why a check came to no verdict.
#[derive(Clone, Copy, PartialEq, Eq)]
pub(crate) enum CheckError {
    BadWords,
    ReadFault,
    WantOfMemory,
    TooLarge,
    /// The INF of this number, counted from 1, is refused.
    Refused(u64, InfError),
}

impl From<AllocError> for CheckError {
    ghost use Rattle.std.specs.Prelude.{◌≡◌};
    ghost use Rattle.check_cli.specs.declared.error.CheckError.TheVariants.{WantOfMemory};

    ghost from_gives = { λ _ e. e ≡ WantOfMemory };

    fn from(_: AllocError) -> Self {
        CheckError::WantOfMemory
    }
}

impl From<ReadError> for CheckError {
    ghost use Rattle.std.specs.Prelude.{◌≡◌};
    ghost use Rattle.check_cli.specs.Errors.{of_read_error};

    ghost from_gives = { λ from e. e ≡ of_read_error from };

    fn from(error: ReadError) -> Self {
        match error {
            ReadError::ReadFault => CheckError::ReadFault,
            ReadError::TooLarge => CheckError::TooLarge,
            ReadError::WantOfMemory => CheckError::WantOfMemory,
        }
    }
}
