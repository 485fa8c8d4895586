/// The two kinds of blocks. This project's own.
#[derive(Clone, Copy)]
pub enum BlockKind {
    /// Exactly one of the parts.
    Either,
    /// All parts, in any order among them.
    Together,
}

/// What a line of a family is. This project's own.
#[derive(Clone, Copy)]
pub enum LineSort {
    /// It has no words, or is a comment.
    Nothing,
    /// A line of scripts.
    Said,
    /// It opens a block.
    Opens(BlockKind),
    /// It stands between two parts of a block.
    Parts(BlockKind),
    /// It ends a block.
    Closes,
    /// It is outside the grammar.
    Bad,
}
