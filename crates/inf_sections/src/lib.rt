//! The sections of an INF by their names and lines, also those that the reader reads over, for what is told to people. Nothing is
//! claimed of them: `inf_reader` has the rules.
#![tactic(auto)]

mod encoding;
mod models;
mod places;
mod sections;
mod tokens;

pub use encoding::{Encoding, bare, encoding_of, plain_text};
pub use models::{Maker, install_name, maker_of};
pub use places::{InfPlaces, UnreadLine, places_of};
pub use sections::{Entry, Section, sections_of};
pub use tokens::{begins, has_section, joined, replaced, value};
