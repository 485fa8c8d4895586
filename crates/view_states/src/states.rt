//! The states behind the rows, as they are told.
ghost use Rattle.std.specs.Prelude.{◌≡◌, ◌++◌, ◌∷◌, [], List, Option, Some, None, OnOk};
ghost use Rattle.pnp_labels.specs.Texts.{Text};
ghost use Rattle.view_page.specs.declared.words.Part.{Part};
ghost use Rattle.view_page.specs.declared.words.Tag.{Tag as Tags};
ghost use Rattle.view_states.specs.States.{Tells};

use crate::edits::push_edits;
use crate::script::script_text;
use device_ids::WantOfMemory;
use std::alloc::Global;
use std::marker::Model;
use view_page::{Attribute, Page, Tag};

/// Each row is told until the texts of the states have come to so many bytes.
const BYTES_TOLD: usize = 25_165_824;

/// From there on a text of so many bytes is told once in a row, and a longer one less often.
const BYTES_A_ROW: usize = 256;

/// The states behind the rows so far: what is written of them, the text that was told last, how many bytes may still be told of each
/// row, and for how many rows nothing is told. A contract sees the first two. This project's own.
#[derive(Drop)]
pub struct States {
    is_told: bool,
    left: usize,
    wait: usize,
    written: Vec<u8>,
    last: Vec<u8>,
}

impl Model for States {
    ghost use Rattle.view_states.specs.States.{Telling};

    ghost Value = { Telling };

    ghost view = { λ s. record { written = s.written.items; last = s.last.items } };
}

impl States {
    /// No row was there yet. Where states are not to be told, none is ever due. It takes no memory.
    pub fn new(alloc: Global, is_told: bool) -> States
        ensures { Tells result.written [] result.last }
    {
        States {
            is_told,
            left: BYTES_TOLD,
            wait: 0,
            written: Vec::new(alloc),
            last: Vec::new(alloc),
        }
    }

    /// Whether the state behind the next row is to be told: a long run of many devices tells of some rows alone.
    pub fn is_due(&self) -> bool {
        self.is_told && self.wait == 0
    }

    /// A text of so many bytes is told.
    fn spend(&mut self, bytes: usize)
        ensures { self.new ≡ self.old }
    {
        if bytes <= self.left {
            self.left -= bytes;
        } else {
            self.left = 0;
            self.wait = bytes / BYTES_A_ROW;
        }
    }

    /// The text of the state behind the next row. After want of memory it is of no more use. Cost: the length of this text and of the
    /// one that was told before.
    pub fn tell(&mut self, text: Vec<u8>) -> Result<(), WantOfMemory>
        ensures { OnOk result ((rows : List (Option Text)) → Tells self.old.written rows self.old.last → Tells self.new.written (rows ++ Some text.items ∷ []) self.new.last) }
    {
        self.spend(text.len());
        push_edits(&mut self.written, &self.last, &text)?;
        self.written.push(b'\n')?;
        self.last = text;
        Ok(())
    }

    /// Nothing is told of the next row. After want of memory it is of no more use.
    pub fn pass(&mut self) -> Result<(), WantOfMemory>
        ensures { OnOk result ((rows : List (Option Text)) → Tells self.old.written rows self.old.last → Tells self.new.written (rows ++ None ∷ []) self.new.last) }
    {
        self.wait = self.wait.saturating_sub(1);
        self.written.extend_from_slice(b"-\n")?;
        Ok(())
    }

    /// Writes what is told of the rows, where anything is to be, and the script that shows it.
    pub fn draw(&self, page: &mut Page) -> Result<(), WantOfMemory>
        ensures elements { OnOk result (page.new.elements ≡ page.old.elements) }
        ensures marks { OnOk result (page.new.marks ≡ page.old.marks ++ (Part.Words Tags.Data, self.now.written) ∷ []) }
    {
        page.marked(
            Tag::Data,
            &[
                (Attribute::Id, b"states"),
                (Attribute::Value, b""),
                (Attribute::Hidden, b""),
            ],
            &self.written,
        )?;
        page.element(Tag::Script, &[], script_text())
    }
}
