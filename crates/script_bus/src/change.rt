use pnp_labels::{BornList, SerialList};

/// What a listing of a device finds.
#[derive(Drop)]
pub struct Difference {
    /// The birth numbers of the devices that join, in order.
    pub joins: BornList,
    /// The serials of the children that are gone, in order.
    pub gone: SerialList,
}
