/// How a live run ended; the number is the program's exit status. This project's own.
#[derive(Clone, Copy, Debug, PartialEq, Eq)]
pub enum Status {
    /// The script is done; the whole output was written.
    Done = 0,
    /// The script has a bad line; the output up to it, its line and the end of the output were written.
    BadLine = 1,
    /// The words of the command line are refused; nothing was read or written.
    BadWords = 2,
    /// A read failed; what was written is a front of the output.
    ReadFault = 3,
    /// A write failed; what was written is a front of the output.
    WriteFault = 4,
    /// An INF is refused; its number, error and line were written.
    BadInf = 5,
    /// Memory was refused; what was written is a front of the output.
    WantOfMemory = 6,
    /// A file has more than 16,777,216 bytes, and nothing was written; or more events than that happened, and what was written is a
    /// front of the output.
    TooLarge = 7,
    /// The answers end where one is due; the output up to the ask was written, and a line that says so.
    AnswersEnd = 9,
    /// A line is no answer to its ask; the output up to the ask was written, and a line that says so.
    AnswersBad = 10,
    /// The script has a line of a client; nothing was written.
    HasClients = 11,
}
