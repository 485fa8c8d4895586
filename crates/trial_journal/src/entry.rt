use resource_reqs::{Owner, Res};

/// One change of what is held, as a journal notes it (this project's own).
#[derive(Clone, Copy)]
pub enum Entry {
    /// The pair was put in.
    Put(Owner, Res),
    /// The pair was taken away.
    Taken(Owner, Res),
}
