ghost use Rattle.std.specs.Prelude.{◌≡◌};
ghost use Rattle.pnp_model.specs.Cores.{is_apart_from};

use pnp_labels::RelKind;
use std::marker::Model;

/// The member loses its drivers when the owner does (the driver kit, IRP_MN_QUERY_DEVICE_RELATIONS). A contract sees
/// the record of the fields.
#[derive(Clone, Copy)]
pub struct Relation {
    /// Of which kind.
    pub kind: RelKind,
    /// The serial of the owner.
    pub owner: u64,
    /// The serial of the member.
    pub member: u64,
}

impl Model for Relation {
    ghost use Rattle.pnp_model.specs.Records.{Relation};

    ghost Value = { Relation };

    ghost view = { λ r. record { kind = r.kind; owner = r.owner; member = r.member } };

    ghost inverse = { λ r. record { kind = r.kind; owner = r.owner; member = r.member } };
}

impl Relation {
    /// Whether a device is neither its owner nor its member.
    pub(crate) fn is_apart_from(&self, serial: u64) -> bool
        ensures { result ≡ is_apart_from serial self.now }
    {
        self.owner != serial && self.member != serial
    }
}
