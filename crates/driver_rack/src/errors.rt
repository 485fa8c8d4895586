use device_ids::WantOfMemory;

/// Why a driver did not learn a rule. An earlier variant is tested first.
#[derive(Clone, Copy, Debug, PartialEq, Eq)]
pub enum TeachError {
    /// The driver answers by no script.
    NotTeachable,
    /// Its book has 64 rules.
    BookFull,
}

/// Why no driver got a name. An earlier variant is tested first.
#[derive(Clone, Copy, Debug, PartialEq, Eq)]
pub enum NameError {
    /// A driver has the name, up to ASCII case.
    SameName,
    /// No driver of the kind is without a name.
    RackEmpty,
    WantOfMemory,
}

impl From<WantOfMemory> for NameError {
    ghost use Rattle.std.specs.Prelude.{◌≡◌};
    ghost use Rattle.driver_rack.specs.declared.errors.NameError.TheVariants.{WantOfMemory};

    ghost from_gives = { λ _ e. e ≡ WantOfMemory };

    fn from(_: WantOfMemory) -> Self {
        NameError::WantOfMemory
    }
}
