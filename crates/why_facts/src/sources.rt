//! The INFs that notes look at.
use device_ids::TextList;
use inf_reader::Inf;
use inf_sections::InfPlaces;

/// The INFs that were given. This project's own.
pub struct Sources {
    /// What they mean, and their names in the same order.
    pub infs: Vec<Inf>,
    pub names: TextList,
    /// Where the lines of each stand, as far as that is known.
    pub places: Vec<InfPlaces>,
}

impl Drop for Sources {
    fn drop(self) {
        let Sources {
            infs: _,
            names: _,
            places: _,
        } = self;
    }
}
