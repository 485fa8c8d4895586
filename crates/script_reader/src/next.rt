use pnp_labels::Event;

/// What a reader answers. This project's own.
#[derive(Drop)]
pub enum Next {
    /// What the next line with an event says that happens.
    Event(Event),
    /// No whole line is left, and more bytes may come.
    NeedMore,
    /// Nothing is left, and no more bytes come.
    End,
    /// This line, counted from 1, is outside the grammar.
    Bad { line: u64 },
}
