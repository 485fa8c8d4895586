/// What stands at the front of the bytes that are left.
#[derive(Clone, Copy)]
pub enum Step<'a> {
    /// So many bytes are a line without an event.
    Skip { count: usize },
    /// So many bytes are a line, and its event is that of the words in the text.
    Read { count: usize, text: &'a [u8] },
    /// A line outside the grammar.
    Bad,
    /// No whole line.
    NeedMore,
    /// Nothing, and nothing more comes.
    End,
}
