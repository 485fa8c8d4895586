/// How a lint ended; the number is the program's exit status. This project's own.
#[derive(Clone, Copy, Debug, PartialEq, Eq)]
pub enum Status {
    /// No line of the script is bad, and each INF is read. There may be warnings.
    Clean = 0,
    /// A line of the script is bad, or an INF is refused.
    Found = 1,
    /// The words of the command line are refused; nothing was read or written.
    BadWords = 2,
    /// A read failed; nothing was written.
    ReadFault = 3,
    /// A write failed; what was written is a front of what was found.
    WriteFault = 4,
    /// Memory was refused; nothing was written.
    WantOfMemory = 6,
    /// A file has more than 16,777,216 bytes; nothing was written.
    TooLarge = 7,
}
