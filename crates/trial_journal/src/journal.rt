ghost use Rattle.std.specs.Prelude.{◌≡◌, ◌<◌, [], ◌∷◌, length, IfOk, IfSome, IfNone};

use crate::entry::Entry;
use resource_reqs::WantOfMemory;
use std::alloc::Global;
use std::marker::Model;

/// The changes of a trial, with memory for all that may come (this project's own). A contract sees the entries,
/// the latest first, and `room`, how many there may be.
#[derive(Drop)]
pub struct Journal {
    entries: Vec<Entry>,
    room: u32,
}

impl Model for Journal {
    ghost use Rattle.std.specs.Prelude.{◌≤◌, ◌<◌, ◌^◌, reverse, vec_len, vec_capacity};
    ghost use Rattle.trial_journal.specs.Journals.{Noted};

    ghost Value = { Noted };

    ghost view = { λ j. record { entries = reverse j.entries.items; room = j.room } };

    ghost invariant = { λ j. (j.room ≤ vec_capacity j.entries) × (vec_len j.entries ≤ j.room) × (j.room < 2 ^ 32) };
}

impl Journal {
    /// No entry, and memory for so many.
    pub fn with_room(alloc: Global, room: u32) -> Result<Journal, WantOfMemory>
        ensures { IfOk result (λ j. j ≡ record { entries = []; room = room }) }
    {
        let entries = Vec::with_capacity(alloc, room as usize)?;
        Ok(Journal { entries, room })
    }

    /// How many entries there are.
    pub fn len(&self) -> u32
        ensures { result ≡ length self.now.entries }
    {
        self.entries.len() as u32
    }

    /// One more entry. It takes no memory.
    pub(crate) fn note(&mut self, entry: Entry)
        requires { length self.old.entries < self.old.room }
        ensures { self.new ≡ record self.old { entries = entry ∷ self.old.entries } }
    {
        let _ = self.entries.push(entry);
    }

    /// The latest entry, which is no longer there then; none exactly where there is none.
    pub(crate) fn last(&mut self) -> Option<Entry>
        ensures some { IfSome result (λ entry. self.old ≡ record self.new { entries = entry ∷ self.new.entries }) }
        ensures none { IfNone result ((self.old.entries ≡ []) × (self.new ≡ self.old)) }
    {
        self.entries.pop()
    }
}
