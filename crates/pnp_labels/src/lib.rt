//! The words of the manager: requests, states, problems, events and labels, and the line of each label.
#![tactic(auto)]

mod deed;
mod digits;
mod event;
mod label;
mod line;
mod lists;
pub mod spaced;
mod states;
mod texts;
mod words;

pub use deed::Deed;
pub use digits::push_decimal;
pub use event::{Ask, Event, Rule};
pub use label::{EventWord, Label, NoticeKind, OpEnd, OpKind, Reason, RemoveStep, Shown, TaskKind};
pub use line::{decimal, label_line, push_line, push_res, res_text};
pub use lists::{BornList, SerialList, Stack};
pub use states::{DevState, Problem, Verdict};
pub use texts::{minor_text, problem_text, state_text};
pub use words::{Answer, AskWhat, DriverKind, Minor, RelKind};
