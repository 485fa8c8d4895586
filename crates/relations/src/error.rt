/// Why two devices were not related. An earlier variant is tested first.
#[derive(Clone, Copy, Debug, PartialEq, Eq)]
pub enum RelateError {
    /// Owner and member are one device.
    SelfRelation,
    /// The same kind, owner and member are related already.
    SameRelation,
    /// The owner depends on the member.
    RelationCycle,
    /// One of the two is not Started.
    NotStarted,
    WantOfMemory,
}
