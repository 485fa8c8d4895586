/// How an exploration ended; the number is the program's exit status. This project's own.
#[derive(Clone, Copy, Debug, PartialEq, Eq)]
pub enum Status {
    /// All scripts were run and all expectations hold; the report was written. Or a count, or a script, was written.
    Done = 0,
    /// A line of the family is bad; its number was written.
    BadFamily = 1,
    /// The words of the command line are refused; nothing was written.
    BadWords = 2,
    /// A read failed; nothing was written.
    ReadFault = 3,
    /// A write failed; what was written is a front of the report.
    WriteFault = 4,
    /// An INF is refused; its number, error and line were written.
    BadInf = 5,
    /// Memory was refused; nothing was written.
    WantOfMemory = 6,
    /// The family, an INF or a part has too many bytes, or a block of the family too many lines; nothing was written.
    TooLarge = 7,
    /// An expectation is broken; the report was written.
    Broken = 8,
    /// No expectation is broken by the scripts that were run, and these were not all; the report was written.
    NotAll = 9,
    /// The parts are not all parts of this family with these words; nothing was written.
    BadParts = 10,
}
