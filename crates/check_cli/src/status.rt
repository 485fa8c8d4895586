/// How a check ended; the number is the program's exit status, that of `pnpmgr --check`. This project's own.
#[derive(Clone, Copy, Debug, PartialEq, Eq)]
pub enum Status {
    /// The trace is a run; the line that says so was written.
    Done = 0,
    /// The words of the command line are refused; nothing was read or written.
    BadWords = 2,
    /// A read failed; nothing was written.
    ReadFault = 3,
    /// A write failed; what was written is a front of the output.
    WriteFault = 4,
    /// An INF is refused; its number, error and line were written.
    BadInf = 5,
    /// Memory was refused; nothing was written.
    WantOfMemory = 6,
    /// A file has more than 16,777,216 bytes; nothing was written.
    TooLarge = 7,
    /// The trace is no run; the number of the first line that is not allowed was written, and what is allowed in its place.
    NotARun = 8,
}
