//! Families of scripts: a text that stands for each script that can be made of its lines by choice and in any order, how many they
//! are, and which one has a number.
//!
//! A line is one of the language of scripts, or one of five words alone on its line, which are no lines of scripts:
//!
//! ```text
//! either .. or .. or .. end          exactly one of the parts
//! together .. and .. and .. end      all parts, each in its own order, in any order among them
//! ```
//!
//! Blocks nest without a limit, and a part may be empty. Blank lines and comments are no lines of a family.
#![tactic(auto)]

mod draft;
mod error;
mod family;
mod laws;
mod lines;
mod making;
mod pairs;
mod part;
mod parts;
mod sort;
mod ways;
mod weaving;

pub use device_ids::WantOfMemory;
pub use error::FamilyError;
pub use family::ScriptFamily;
pub use laws::{counts_are_lengths, each_script_has_a_number, parts_are_the_whole, shorter_first};
pub use sort::{BlockKind, LineSort};
