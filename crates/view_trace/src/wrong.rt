//! The list of what went wrong, which stands first on the page.
ghost use Rattle.std.specs.Prelude.{◌≡◌, OnOk};

use device_ids::WantOfMemory;
use pnp_labels::decimal;
use std::alloc::Global;
use view_page::{Attribute, Page, Tag};

/// No more rows than these are told; behind them stands that there are more.
const MOST_WRONG: usize = 200;

/// A row that tells that something went wrong, and what.
#[derive(Drop)]
struct Wrong {
    row: u64,
    line: Vec<u8>,
    words: &'static [u8],
}

/// What went wrong so far. This project's own.
#[derive(Drop)]
pub struct WrongRows {
    rows: Vec<Wrong>,
    has_more: bool,
}

/// Draws a row of the list: the number, which leads to the row of the trace, its line, and what it means.
fn draw_wrong(alloc: Global, page: &mut Page, wrong: &Wrong) -> Result<(), WantOfMemory>
    ensures elements { OnOk result (page.new.elements ≡ page.old.elements) }
    ensures marks { OnOk result (page.new.marks ≡ page.old.marks) }
{
    let row = wrong.row;
    let number = decimal(alloc, row)?;
    let address = format!(in alloc; "row-{row}")?;
    page.open(Tag::Li, &[])?;
    page.element(
        Tag::A,
        &[(Attribute::Fragment, address.as_bytes())],
        number.as_bytes(),
    )?;
    page.element(Tag::Code, &[], &wrong.line)?;
    page.element(Tag::Span, &[], wrong.words)?;
    page.close()
}

impl WrongRows {
    /// Nothing went wrong. It takes no memory.
    pub fn new(alloc: Global) -> WrongRows {
        WrongRows {
            rows: Vec::new(alloc),
            has_more: false,
        }
    }

    /// The row of this number, with this line, tells that something went wrong.
    pub fn note(
        &mut self,
        alloc: Global,
        row: u64,
        line: &[u8],
        words: &'static [u8],
    ) -> Result<(), WantOfMemory> {
        if self.rows.len() < MOST_WRONG {
            let line = Vec::from_slice(alloc, line)?;
            self.rows.push(Wrong { row, line, words })?;
        } else {
            self.has_more = true;
        }
        Ok(())
    }

    /// The rows of the list.
    fn draw_rows(&self, alloc: Global, page: &mut Page) -> Result<(), WantOfMemory>
        ensures elements { OnOk result (page.new.elements ≡ page.old.elements) }
        ensures marks { OnOk result (page.new.marks ≡ page.old.marks) }
    {
        page.open(Tag::Ul, &[])?;
        'rows: for wrong in &self.rows {
            draw_wrong(alloc, page, wrong)?;
        }
        page.close()
    }

    /// What stands behind the list, or in its place.
    fn words(&self) -> Option<&'static [u8]> {
        if self.rows.is_empty() {
            Some(b"Nothing: no line was refused, no driver failed, and no device got a problem.")
        } else if self.has_more {
            Some(b"There is more: no more than 200 rows are told.")
        } else {
            None
        }
    }

    /// Draws what stands behind the list, if anything does.
    fn draw_note(&self, page: &mut Page) -> Result<(), WantOfMemory>
        ensures elements { OnOk result (page.new.elements ≡ page.old.elements) }
        ensures marks { OnOk result (page.new.marks ≡ page.old.marks) }
    {
        match self.words() {
            Some(words) => page.element(Tag::P, &[(Attribute::Class, b"note")], words),
            None => Ok(()),
        }
    }

    /// Draws the list, with a link to each of its rows.
    pub fn draw(&self, alloc: Global, page: &mut Page) -> Result<(), WantOfMemory>
        ensures elements { OnOk result (page.new.elements ≡ page.old.elements) }
        ensures marks { OnOk result (page.new.marks ≡ page.old.marks) }
    {
        page.open(Tag::Section, &[(Attribute::Class, b"wrong")])?;
        page.element(Tag::H2, &[], b"What went wrong")?;
        self.draw_rows(alloc, page)?;
        self.draw_note(page)?;
        page.close()
    }
}
