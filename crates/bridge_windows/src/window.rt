use resource_reqs::Res;
use std::marker::Model;

/// The device of a birth number passes on only what lies in this range of its kind. A contract sees the record of the
/// fields.
#[derive(Clone, Copy)]
pub struct Window {
    /// The birth number of the device.
    pub born: u64,
    /// The range.
    pub res: Res,
}

impl Model for Window {
    ghost use Rattle.pnp_model.specs.Records.{Window};

    ghost Value = { Window };

    ghost view = { λ w. record { born = w.born; res = w.res } };

    ghost inverse = { λ w. record { born = w.born; res = w.res } };
}
