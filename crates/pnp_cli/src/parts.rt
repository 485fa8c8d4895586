//! What the words of the command line say, and why words are refused.
use device_ids::{Text, TextList};
use std::alloc::AllocError;

/// What the words of a command line say. This project's own.
pub struct Settings {
    /// The name of the script; none where the script is generated.
    pub script: Option<Text>,
    /// The names of the INFs, in order; at most 64.
    pub infs: TextList,
    /// How many places a search for resources may try, from 1 to 1,000,000.
    pub budget: u64,
    /// How many devices the generated script has, from 1 to 400; none where a script is named.
    pub made: Option<u64>,
    /// The name of the trace that is checked, where one is; it needs a script.
    pub check: Option<Text>,
}

impl Drop for Settings {
    fn drop(self) {
        let Settings {
            script: _,
            infs: _,
            budget: _,
            made: _,
            check: _,
        } = self;
    }
}

/// Why words give no settings. This project's own.
#[derive(Clone, Copy, Debug, PartialEq, Eq)]
pub enum WordsError {
    /// They have another form, or a number is outside its limits.
    BadWords,
    /// Memory was refused.
    WantOfMemory,
}

impl From<AllocError> for WordsError {
    ghost use Rattle.std.specs.Prelude.{◌≡◌};
    ghost use Rattle.pnp_cli.specs.declared.parts.WordsError.TheVariants.{WantOfMemory};

    ghost from_gives = { λ _ e. e ≡ WantOfMemory };

    fn from(_: AllocError) -> Self {
        WordsError::WantOfMemory
    }
}
