use inf_reader::InfError;
use pnp_io::ReadError;
use std::alloc::AllocError;

/// Why a run did not begin.
#[derive(Clone, Copy, PartialEq, Eq)]
pub(crate) enum DriveFault {
    BadWords,
    ReadFault,
    WantOfMemory,
    TooLarge,
    /// The script has a line of a client.
    Client,
    /// The INF of this number, counted from 1, is refused.
    Refused(u64, InfError),
}

impl From<AllocError> for DriveFault {
    ghost use Rattle.std.specs.Prelude.{◌≡◌};
    ghost use Rattle.drive_cli.specs.declared.fault.DriveFault.TheVariants.{WantOfMemory};

    ghost from_gives = { λ _ e. e ≡ WantOfMemory };

    fn from(_: AllocError) -> Self {
        DriveFault::WantOfMemory
    }
}

impl From<ReadError> for DriveFault {
    ghost use Rattle.std.specs.Prelude.{◌≡◌};
    ghost use Rattle.drive_cli.specs.Errors.{of_read_error};

    ghost from_gives = { λ from e. e ≡ of_read_error from };

    fn from(error: ReadError) -> Self {
        match error {
            ReadError::ReadFault => DriveFault::ReadFault,
            ReadError::TooLarge => DriveFault::TooLarge,
            ReadError::WantOfMemory => DriveFault::WantOfMemory,
        }
    }
}
