//! Why an INF is refused, and which refusal comes first.
ghost use Rattle.std.specs.Prelude.{◌≡◌};
ghost use Rattle.std.specs.List.{flat_map};
ghost use Rattle.inf_reader.specs.Meaning.{place_of, earlier, least_of, mark_of, is_bad_score, score_fault};

use crate::entries::Entry;
use crate::items::Item;
use crate::numbers::score_of;
use crate::parts::InfError;
use crate::texts::value_at;

/// The place of a refusal: by its line, and at one line by its kind.
fn place_of(error: InfError) -> u64
    ensures { result ≡ place_of error }
{
    match error {
        InfError::NoSignature | InfError::WantOfMemory => 0,
        InfError::LineTooLong { line } => 4 * line as u64,
        InfError::OpenHeader { line } => 4 * line as u64 + 1,
        InfError::BadDate { line } => 4 * line as u64 + 2,
        InfError::BadScore { line } => 4 * line as u64 + 3,
    }
}

/// The first of two refusals.
pub fn earlier(first: Option<InfError>, second: Option<InfError>) -> Option<InfError>
    ensures { result ≡ earlier first second }
{
    match (first, second) {
        (None, second) => second,
        (first, None) => first,
        (Some(first), Some(second)) => {
            if place_of(second) < place_of(first) {
                Some(second)
            } else {
                Some(first)
            }
        }
    }
}

/// What is wrong with a line or a header by itself.
fn mark_of(item: &Item) -> Option<InfError>
    ensures { result ≡ least_of (mark_of item.now) }
{
    match item {
        Item::TooLong(line) => Some(InfError::LineTooLong { line: *line }),
        Item::OpenHeader(line) => Some(InfError::OpenHeader { line: *line }),
        Item::Header(_) | Item::Line(_, _) => None,
    }
}

/// The first line that is too long, or header without its end.
pub fn first_mark(items: &[Item]) -> Option<InfError>
    ensures { result ≡ least_of (flat_map mark_of items.now) }
{
    let mut least = None;
    for item in items {
        least = earlier(least, mark_of(item));
    }
    least
}

/// Whether an entry is a `FeatureScore` of another form.
fn is_bad_score(entry: &Entry) -> bool
    ensures { result ≡ is_bad_score entry.now }
{
    entry.key.is_score() && score_of(value_at(&entry.values, 0)).is_none()
}

/// What is wrong with the score of an entry.
pub fn score_fault(entry: &Entry) -> Option<InfError>
    ensures { result ≡ least_of (score_fault entry.now) }
{
    if is_bad_score(entry) {
        Some(InfError::BadScore { line: entry.line })
    } else {
        None
    }
}
