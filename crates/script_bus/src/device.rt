use device_ids::{IdList, InstancePath};
use resource_reqs::Reqs;

/// What a device of the world shows to who lists it (the driver kit, "Adding a PnP Device to a Running System").
#[derive(Drop)]
pub struct Device {
    /// Its device instance path.
    pub path: InstancePath,
    /// The hardware IDs, the best first.
    pub hw: IdList,
    /// The compatible IDs, the best first.
    pub compat: IdList,
    /// The resources that it needs.
    pub reqs: Reqs,
}
