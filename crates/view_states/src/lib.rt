//! What a page that is stepped through has beside its rows: the state behind each row, told by what changes from row to row, and the
//! script that shows it.
#![tactic(auto)]

mod edits;
mod script;
mod states;
mod style;

pub use script::{POLICY, script_text};
pub use states::States;
pub use style::style_text;
