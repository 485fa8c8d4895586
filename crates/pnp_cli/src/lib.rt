//! The program as a library: the words of the command line, the INFs and the script that they name, and what is
//! written.
#![tactic(auto)]

mod check;
mod drivers;
mod ending;
mod generated;
mod infs;
pub mod laws;
mod made;
mod parts;
mod pieces;
mod program;
mod refusal;
mod settle;
mod status;
mod summary;
mod taking;
mod tally;
mod tell;
mod turn;
mod words;

pub use drivers::{ProgramDriver, program_drivers};
pub use generated::{gen_inf, gen_script};
pub use infs::{InfsError, LIMIT, read_infs, refusal_line};
pub use parts::{Settings, WordsError};
pub use program::run;
pub use status::Status;
pub use words::settings;
