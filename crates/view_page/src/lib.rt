//! A page as it is written: elements are opened and closed in order, texts are escaped, and arrows carry marks.
#![tactic(auto)]

mod escape;
mod page;
mod tags;
mod words;

pub use page::Page;
pub use words::{
    Attribute, Empty, Part, Tag, attribute_front, attribute_text, empty_text, tag_text,
};
