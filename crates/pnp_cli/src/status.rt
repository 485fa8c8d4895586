/// How a run ended; the number is the program's exit status. This project's own.
#[derive(Clone, Copy, Debug, PartialEq, Eq)]
pub enum Status {
    /// The script was read to its end, or the trace that was checked is a run; the whole output was written.
    Done = 0,
    /// A line of the script is outside the language; the trace so far, the line's number and the end of the
    /// output were written.
    BadScript = 1,
    /// The words of the command line are refused; nothing was read or written.
    BadWords = 2,
    /// A read failed; what was written is a front of the output.
    ReadFault = 3,
    /// A write failed; what was written is a front of the output.
    WriteFault = 4,
    /// An INF is refused; its number, error and line were written.
    BadInf = 5,
    /// Memory was refused; what was written is a front of the output.
    WantOfMemory = 6,
    /// A file has more than 16,777,216 bytes; what was written is a front of the output.
    TooLarge = 7,
    /// The trace that was checked is no run of the machine for the script; the line that says so was written.
    NotARun = 8,
}
