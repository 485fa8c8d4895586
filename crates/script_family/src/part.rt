ghost use Rattle.std.specs.Prelude.{◌≡◌, ◌+◌, ◌<◌, ◌≤◌, ◌^◌, length};
ghost use Rattle.script_family.specs.Parts.{row_at};

/// What a part of a family is. It names its own parts by their places in the list of all, which are before its own.
#[derive(Clone, Copy)]
pub(crate) enum Node {
    /// No line.
    Silent,
    /// The line that begins at this place of the text.
    Line { at: usize },
    /// The one, then the other.
    Followed { first: usize, second: usize },
    /// Exactly one of both.
    Chosen { first: usize, second: usize },
    /// Both, in any order among them.
    Woven { first: usize, second: usize },
}

/// A part with how many scripts it has of each number of lines, from the least that a script of it has to the most: up to 2^64 - 1.
#[derive(Drop)]
pub(crate) struct Part {
    pub(crate) node: Node,
    pub(crate) least: usize,
    pub(crate) row: Vec<u64>,
}

/// What a row says of so many lines; it begins at the least.
pub(crate) fn count_at(least: usize, row: &[u64], lines: usize) -> u64
    ensures { result ≡ row_at least row.now lines }
{
    if lines < least {
        return 0;
    }
    match row.get(lines - least) {
        Some(count) => *count,
        None => 0,
    }
}
