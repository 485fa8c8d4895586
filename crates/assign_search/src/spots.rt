use resource_reqs::Res;

/// A coordinate of a path: what is chosen next.
#[derive(Clone, Copy)]
pub enum Step {
    /// The number of a list of a requirement.
    Alt(u32),
    /// The number of a want of a group, and a start.
    At(u32, u64),
}

/// Where a path ends.
#[derive(Clone, Copy)]
pub enum Spot {
    /// Before the mover of this number, of which nothing is chosen.
    Between(usize),
    /// In the mover of this number, in its list of this number, of which so many groups are placed.
    Inside(usize, u32, u32),
}

/// A coordinate that goes on from a spot.
#[derive(Clone, Copy)]
pub struct Child {
    /// The coordinate.
    pub step: Step,
    /// The one to try after it.
    pub next: Step,
    /// Where it leads.
    pub spot: Spot,
    /// What it places; nothing where it chooses a list.
    pub res: Option<Res>,
}

/// A coordinate of a path that was taken.
#[derive(Clone, Copy)]
pub struct Frame {
    /// Where it was taken.
    pub before: Spot,
    /// The coordinate.
    pub step: Step,
    /// The one to try after it.
    pub next: Step,
    /// What it placed; nothing where it chose a list.
    pub res: Option<Res>,
}
