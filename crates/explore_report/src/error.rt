use pnp_io::ReadError;
use std::alloc::AllocError;

/// Why there is no report. This project's own.
#[derive(Clone, Copy, Debug, PartialEq, Eq)]
pub enum ReportError {
    /// The words are refused.
    BadWords,
    /// A part could not be read.
    ReadFault,
    /// Memory was refused.
    WantOfMemory,
    /// A part is too large.
    TooLarge,
    /// The parts are not all parts of this exploration.
    BadParts,
}

impl From<AllocError> for ReportError {
    ghost use Rattle.std.specs.Prelude.{◌≡◌};
    ghost use Rattle.explore_report.specs.declared.error.ReportError.TheVariants.{WantOfMemory};

    ghost from_gives = { λ _ e. e ≡ WantOfMemory };

    fn from(_: AllocError) -> Self {
        ReportError::WantOfMemory
    }
}

impl From<ReadError> for ReportError {
    ghost use Rattle.std.specs.Prelude.{◌≡◌};
    ghost use Rattle.explore_report.specs.Errors.{of_read_error};

    ghost from_gives = { λ from e. e ≡ of_read_error from };

    fn from(error: ReadError) -> Self {
        match error {
            ReadError::ReadFault => ReportError::ReadFault,
            ReadError::TooLarge => ReportError::TooLarge,
            ReadError::WantOfMemory => ReportError::WantOfMemory,
        }
    }
}
