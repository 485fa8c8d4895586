use live_io::PeerError;
use std::alloc::AllocError;

/// How a live run ended. This project's own.
#[derive(Clone, Copy, Debug, PartialEq, Eq)]
pub enum Ended {
    /// The script is done, and the end of the output was said.
    Done,
    /// The script has a bad line; that and the end of the output were said.
    BadLine,
    /// The answers end where one is due; that was said.
    AnswersEnd,
    /// A line is no answer to its ask; that was said.
    AnswersBad,
}

/// Why a live run was given up; what was said is a front of what would have been. This project's own.
#[derive(Clone, Copy, Debug, PartialEq, Eq)]
pub enum DriveError {
    /// The answers could not be read.
    ReadFault,
    /// What was to be said could not be written.
    WriteFault,
    /// Memory was refused.
    WantOfMemory,
    /// More than 16,777,216 events happened.
    TooLarge,
}

/// Why a run goes no further.
#[derive(Clone, Copy, Debug, PartialEq, Eq)]
pub(crate) enum Stop {
    /// The answers end where one is due.
    End,
    /// A line is no answer to its ask.
    Bad,
    /// It is given up.
    Fault(DriveError),
}

impl From<AllocError> for Stop {
    ghost use Rattle.std.specs.Prelude.{◌≡◌};
    ghost use Rattle.live_run.specs.declared.stop.DriveError.TheVariants.{WantOfMemory};
    ghost use Rattle.live_run.specs.declared.stop.Stop.TheVariants.{Fault};

    ghost from_gives = { λ _ e. e ≡ Fault WantOfMemory };

    fn from(_: AllocError) -> Self {
        Stop::Fault(DriveError::WantOfMemory)
    }
}

impl From<PeerError> for Stop {
    ghost use Rattle.std.specs.Prelude.{◌≡◌};
    ghost use Rattle.live_run.specs.Errors.{stop_of};

    ghost from_gives = { λ from e. e ≡ stop_of from };

    fn from(error: PeerError) -> Self {
        match error {
            PeerError::ReadFault => Stop::Fault(DriveError::ReadFault),
            PeerError::WriteFault => Stop::Fault(DriveError::WriteFault),
            PeerError::WantOfMemory => Stop::Fault(DriveError::WantOfMemory),
        }
    }
}

impl From<PeerError> for DriveError {
    ghost use Rattle.std.specs.Prelude.{◌≡◌};
    ghost use Rattle.live_run.specs.Errors.{drive_error};

    ghost from_gives = { λ from e. e ≡ drive_error from };

    fn from(error: PeerError) -> Self {
        match error {
            PeerError::ReadFault => DriveError::ReadFault,
            PeerError::WriteFault => DriveError::WriteFault,
            PeerError::WantOfMemory => DriveError::WantOfMemory,
        }
    }
}

impl From<AllocError> for DriveError {
    ghost use Rattle.std.specs.Prelude.{◌≡◌};
    ghost use Rattle.live_run.specs.declared.stop.DriveError.TheVariants.{WantOfMemory};

    ghost from_gives = { λ _ e. e ≡ WantOfMemory };

    fn from(_: AllocError) -> Self {
        DriveError::WantOfMemory
    }
}

impl From<DriveError> for Stop {
    ghost use Rattle.std.specs.Prelude.{◌≡◌};
    ghost use Rattle.live_run.specs.declared.stop.Stop.TheVariants.{Fault};

    ghost from_gives = { λ from e. e ≡ Fault from };

    fn from(error: DriveError) -> Self {
        Stop::Fault(error)
    }
}
