//! Reads a script, this project's own language: the event of each line, in whatever pieces the bytes come.
//!
//! A line ends with LF, the last one also with the script; one CR directly before the LF is dropped. Before
//! its LF it has at most 4,096 bytes, a CR counted. Its words are separated by spaces and tabs. A line
//! without words, or whose first word begins with `#`, has no event. Keywords are written as here.
//!
//! | Line | What it says |
//! |---|---|
//! | `plug PARENT DEVICE INSTANCE`, attributes | a device arrives: DEVICE and INSTANCE, joined, are its path |
//! | `pull PATH` | a device departs |
//! | `driver NAME KIND` | a driver gets a name; KIND is `scripted`, `steady` or `stubborn` |
//! | `teach NAME ASK PATH ANSWER`, perhaps N | a driver learns a rule for N uses, or endlessly; PATH may be `*` |
//! | `disable PATH`, `enable PATH`, `eject PATH` | the operator acts |
//! | `relate removal OWNER MEMBER`, `relate ejection OWNER MEMBER` | two devices are related |
//! | `reserve KIND:RANGE` | a range is taken for no device |
//! | `complete PATH MINOR ok`, `complete PATH MINOR fail` | a pended request is completed |
//! | `open PATH`, `close PATH` | a handle to a device is opened, or closed |
//! | `watch CLIENT PATH ok`, `watch CLIENT PATH refuse` | a client is asked before a device is removed: it agrees, or refuses |
//! | `unwatch CLIENT PATH` | it is asked no more |
//! | `window PATH KIND:RANGE` | a bridge passes on no other ports, or memory; KIND is `port` or `mem` |
//! | `change PATH`, perhaps needs | a running device requires something else from now on, as `need` or `reqs` say |
//!
//! - NAME and CLIENT have 1 to 64 letters, digits, `_`, `-` and `.`. ASK is `add` or a request, ANSWER is `ok`,
//!   `fail` or `pend`, but `add` is not left unanswered. N is 1 to 1,000,000.
//! - A number is decimal digits, or `0x` and hexadecimal digits, below 2^64. RANGE is two numbers with `-`
//!   between them, the first not above the second, or one number for both.
//! - The attributes of `plug` stand in any order: `hw=ID,ID` and `compat=ID,ID` at most once, with 1 to 64
//!   IDs (without `hw` DEVICE is the only hardware ID), and up to 8 times `need=LIST`. LIST is 1 to 16 groups
//!   between `;`, a group 1 to 16 wants between `|`.
//! - `reqs=HEX` stands in place of all `need`, once: the bytes of an `IO_RESOURCE_REQUIREMENTS_LIST` of the driver kit, two
//!   hexadecimal digits of either case for each (`req_bytes`).
//! - A want is `port:RANGE` or `mem:RANGE`, then perhaps `/LEN`, `@ALIGN` and `:shared` in this order,
//!   `irq:RANGE` or `dma:RANGE`, then perhaps `:shared`, or `bus:RANGE`, then perhaps `/LEN` and `:shared`.
//! - The numbers of a RANGE behind `bus:` are at most 255.
#![tactic(auto)]

mod bytes;
mod cause;
mod causes;
mod error;
mod events;
mod fault;
mod first;
mod line;
mod lines;
mod needs;
mod next;
mod numbers;
mod plug;
mod pushes;
mod reader;
mod skip;
mod step;
mod tables;
mod wants;
mod whole;
mod words;

pub use cause::Cause;
pub use events::read_line;
pub use fault::{LineError, LineFault};
pub use first::{LONGEST, has_no_event, without_return};
pub use line::{Line, Script, ScriptEnd};
pub use next::Next;
pub use reader::Reader;
pub use tables::{answer_of, minor_of, ok_of};
pub use whole::{pieces_do_not_matter, read_events, read_pieces};
pub use words::is_name;
