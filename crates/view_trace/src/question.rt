//! What of a label is drawn.
ghost use Rattle.std.specs.Prelude.{◌≡◌, ◌++◌, ◌∷◌, [], IfOk, is_some};
ghost use Rattle.pnp_labels.specs.Texts.{label_line};
ghost use Rattle.view_trace.specs.Rows.{is_ask};

use device_ids::{Text, WantOfMemory};
use pnp_labels::{Deed, Label, Shown, label_line};
use std::alloc::Global;

/// A question to a driver, and what it answered.
#[derive(Clone, Copy)]
pub struct Question<'a> {
    pub driver: &'a Text,
    pub shown: Shown,
}

/// The question that a label tells, if it tells one.
pub fn question_of(label: &Label) -> Option<Question<'_>>
    ensures { is_some result ≡ is_ask label.now }
{
    match label {
        Label::Asked { driver, shown, .. } => Some(Question {
            driver,
            shown: *shown,
        }),
        Label::Add { driver, ok, .. } => Some(Question {
            driver,
            shown: if *ok { Shown::Ok } else { Shown::Fail },
        }),
        _ => None,
    }
}

/// The line of a label, without its line feed.
pub fn line_of(alloc: Global, label: &Label) -> Result<Vec<u8>, WantOfMemory>
    ensures { IfOk result (λ line. line.items ≡ label_line label.now) }
{
    let mut line = label_line(alloc, label)?;
    let _ = line.pop();
    Ok(line)
}

/// Whether the rows of an event begin with a label.
pub fn is_event(label: &Label) -> bool {
    matches!(label, Label::Did(_) | Label::Refused { .. })
}

/// The class of a label's row, where it is not one of the common ones.
pub fn class_of(label: &Label) -> Option<&'static [u8]> {
    match label {
        Label::Did(Deed::Completed { .. }) => Some(b"event completion"),
        Label::Did(_) => Some(b"event"),
        Label::Refused { .. } => Some(b"event refused"),
        Label::Asked { .. } | Label::Add { .. } => Some(b"ask"),
        Label::Begin { .. } | Label::Commit { .. } | Label::End { .. } => Some(b"operation"),
        Label::Trouble { .. }
        | Label::NoFit { .. }
        | Label::Spent { .. }
        | Label::Declined { .. } => Some(b"trouble"),
        Label::Notice { .. } => Some(b"notice"),
        _ => None,
    }
}

/// The class of the rows of an event that begin with a label, where there are further ones.
pub fn fold_class_of(label: &Label) -> &'static [u8] {
    match label {
        Label::Did(Deed::Completed { .. }) => b"fold completion",
        _ => b"fold",
    }
}
