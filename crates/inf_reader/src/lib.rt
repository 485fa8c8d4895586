//! INF files: their text, lines, sections and entries, and the models lines that they give.
#![tactic(auto)]

mod entries;
mod faults;
mod items;
pub mod laws;
mod meaning;
mod models;
mod numbers;
mod parts;
mod reading;
mod section;
mod sections;
mod symbols;
mod text;
mod texts;
mod tokens;

pub use meaning::read;
pub use parts::{Inf, InfError, ModelLine, ModelLines};
