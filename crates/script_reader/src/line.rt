use pnp_labels::Event;

/// An event with the number of its line, counted from 1. This project's own.
#[derive(Drop)]
pub struct Line {
    /// The number of the line.
    pub line: u64,
    /// What the line says that happens.
    pub event: Event,
}

/// How a script ends. This project's own.
#[derive(Clone, Copy, PartialEq, Eq)]
pub enum ScriptEnd {
    /// Every line was read.
    End,
    /// This line, counted from 1, is outside the grammar; what stands behind it was not read.
    Bad { line: u64 },
}

/// A script as it is read: its events in order, up to its end or its first bad line. This project's own.
#[derive(Drop)]
pub struct Script {
    /// The events, each with the number of its line.
    pub lines: Vec<Line>,
    /// How the script ends behind them.
    pub ends: ScriptEnd,
}
