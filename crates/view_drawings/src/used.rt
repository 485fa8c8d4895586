ghost use Rattle.std.specs.Prelude.{◌≡◌, ◌<◌, ◌≢◌, Bool};
ghost use Rattle.pnp_model.specs.Diagram as Diagram;
ghost use Rattle.pnp_labels.specs.declared.states.DevState.TheVariants as states;
ghost use Rattle.view_drawings.specs.declared.rows.Row.{Row as Rows};
ghost use Rattle.view_drawings.specs.Uses.{counted, count_of, place_of, IsCounted};

use crate::rows::{ROWS, Row, row_between};
use pnp_labels::{DevState, Minor};
use std::marker::Model;

/// How often each row of the state diagram was used. A contract sees the counts in the order of the rows. This project's own.
#[derive(Drop)]
pub struct Used {
    counts: [u64; 19],
}

impl Model for Used {
    ghost use Rattle.std.specs.Prelude.{List, ℕ};

    ghost Value = { List ℕ };

    ghost view = { λ u. u.counts };
}

/// The place of a row.
fn place(row: Row) -> usize
    ensures place { result ≡ place_of row }
    ensures within { result < 19 }
{
    match row {
        Row::Add => 0,
        Row::Start => 1,
        Row::StartBad => 2,
        Row::Remove => 3,
        Row::QueryStop => 4,
        Row::QueryStopBad => 5,
        Row::CancelStopRefused => 6,
        Row::CancelStop => 7,
        Row::Stop => 8,
        Row::Restart => 9,
        Row::RestartBad => 10,
        Row::SurpriseStopped => 11,
        Row::QueryRemove => 12,
        Row::QueryRemoveBad => 13,
        Row::CancelRemoveRefused => 14,
        Row::CancelRemove => 15,
        Row::RemovePending => 16,
        Row::Surprise => 17,
        Row::RemoveSurprised => 18,
    }
}

impl Used {
    /// No row was used.
    pub fn new() -> Used
        ensures { (row : Rows) → count_of row result ≡ 0 }
    {
        Used { counts: [0; 19] }
    }

    /// This row was used once more; a count stays at the greatest number.
    pub fn count(&mut self, row: Row)
        ensures { self.new ≡ counted row self.old }
    {
        let at = place(row);
        self.counts[at] = self.counts[at].saturating_add(1);
    }

    /// A request ended that led from a state to a state: its row was used once more. Nothing changes where the diagram has no such
    /// row.
    pub fn note(&mut self, from: DevState, to: DevState, minor: Minor)
        ensures counted { (bad : Bool) → Diagram.Row from minor bad to → IsCounted from minor to self.old self.new }
        ensures other { ((bad : Bool) → ¬ Diagram.Row from minor bad to) → self.new ≡ self.old }
    {
        if let Some(row) = row_between(from, minor, to) {
            self.count(row);
        }
    }

    /// A driver was added to a device that was in a state: where it was `NoStack`, that row was used once more.
    pub fn note_added(&mut self, from: DevState)
        ensures first { from ≡ states.NoStack → self.new ≡ counted Row.Add self.old }
        ensures further { from ≢ states.NoStack → self.new ≡ self.old }
    {
        if from == DevState::NoStack {
            self.count(Row::Add);
        }
    }

    /// How often a row was used.
    pub fn of(&self, row: Row) -> u64
        ensures { result ≡ count_of row self.now }
    {
        self.counts[place(row)]
    }

    /// How often rows were used in all, or the greatest number.
    pub fn all(&self) -> u64 {
        let mut all = 0u64;
        for row in &ROWS {
            all = all.saturating_add(self.of(*row));
        }
        all
    }
}
