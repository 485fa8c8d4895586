//! The rows of a trace, each beside its part of the diagram.
ghost use Rattle.std.specs.Prelude.{◌≡◌, ◌++◌, ◌∷◌, [], OnOk};
ghost use Rattle.pnp_labels.specs.Texts.{label_line};
ghost use Rattle.view_trace.specs.Rows.{arrow_of, end_of, row_of, rows};

use crate::arrow::{draw_ask, draw_end, draw_notice};
use crate::lanes::{Lanes, Party};
use crate::line::draw_code;
use crate::pends::Pends;
use crate::question::{class_of, fold_class_of, is_event, line_of, question_of};
use crate::wrong::WrongRows;
use device_ids::WantOfMemory;
use label_words::{is_wrong, label_words};
use pnp_labels::{Label, decimal};
use std::alloc::Global;
use std::marker::Model;
use std::mem;
use view_page::{Attribute, Page, Tag};

/// Events that begin within so many rows are open.
const ROWS_OPEN: u64 = 200;

/// Of so many rows each says in words what its line says; of later ones those alone that tell that something went wrong.
const ROWS_WORDED: u64 = 2000;

/// What the rows have to know of those before: who has a lane, what was pended, what went wrong, how many rows there are, and whether
/// an operation runs; and the labels of the last event, which are drawn when all of them are there. A contract sees these labels. This
/// project's own.
#[derive(Drop)]
pub struct Rows {
    lanes: Lanes,
    pends: Pends,
    wrong: WrongRows,
    count: u64,
    operation: bool,
    waiting: Vec<Label>,
}

impl Model for Rows {
    ghost use Rattle.std.specs.Prelude.{List};
    ghost use Rattle.pnp_labels.specs.declared.label.Label.{Label as Labels};

    ghost Value = { List Labels };

    ghost view = { λ r. r.waiting.items };
}

/// Begins the row of this number, or the rows of an event that begin with it.
fn open_row(
    alloc: Global,
    page: &mut Page,
    number: u64,
    class: Option<&[u8]>,
) -> Result<(), WantOfMemory>
    ensures elements { OnOk result (page.new.elements ≡ Tag.Li ∷ page.old.elements) }
    ensures marks { OnOk result (page.new.marks ≡ page.old.marks) }
{
    let digits = decimal(alloc, number)?;
    let address = format!(in alloc; "row-{number}")?;
    let id = (Attribute::Id, address.as_bytes());
    let value = (Attribute::Value, digits.as_bytes());
    match class {
        Some(class) => page.open(Tag::Li, &[(Attribute::Class, class), id, value]),
        None => page.open(Tag::Li, &[id, value]),
    }
}

/// Begins the fold of an event.
fn open_fold(page: &mut Page, is_open: bool) -> Result<(), WantOfMemory>
    ensures elements { OnOk result (page.new.elements ≡ Tag.Details ∷ page.old.elements) }
    ensures marks { OnOk result (page.new.marks ≡ page.old.marks) }
{
    if is_open {
        page.open(Tag::Details, &[(Attribute::Open, b"")])
    } else {
        page.open(Tag::Details, &[])
    }
}

/// Whether one of these labels tells that something went wrong.
fn has_wrong(labels: &[Label]) -> bool {
    for label in labels {
        if is_wrong(label) {
            return true;
        }
    }
    false
}

impl Rows {
    /// No row was drawn yet. It takes no memory.
    pub fn new(alloc: Global) -> Rows
        ensures { result ≡ [] }
    {
        Rows {
            lanes: Lanes::new(alloc),
            pends: Pends::new(alloc),
            wrong: WrongRows::new(alloc),
            count: 0,
            operation: false,
            waiting: Vec::new(alloc),
        }
    }

    /// What a label says of the rows from its own on.
    fn learn(&mut self, alloc: Global, label: &Label, line: &[u8]) -> Result<(), WantOfMemory>
        ensures waiting { self.new ≡ self.old }
    {
        self.count = self.count.saturating_add(1);
        if let Label::Begin { .. } = label {
            self.operation = true;
        }
        if is_wrong(label) {
            self.wrong
                .note(alloc, self.count, line, label_words(label))?;
        }
        Ok(())
    }

    /// What it says of the rows after it.
    fn leave(&mut self, label: &Label)
        ensures waiting { self.new ≡ self.old }
    {
        if let Label::End { .. } = label {
            self.operation = false;
        }
    }

    /// Draws what a label that tells no ask has in the diagram.
    fn draw_other(
        &mut self,
        alloc: Global,
        page: &mut Page,
        label: &Label,
        line: &[u8],
    ) -> Result<(), WantOfMemory>
        requires line { line.now ≡ label_line label.now }
        ensures elements { OnOk result (page.new.elements ≡ page.old.elements) }
        ensures marks { OnOk result (page.new.marks ≡ page.old.marks ++ end_of label.now) }
        ensures waiting { self.new ≡ self.old }
    {
        if let Label::Notice { client, agrees, .. } = label {
            let lane = self.lanes.lane_of(alloc, Party::Client, client)?;
            return draw_notice(alloc, page, lane, *agrees);
        }
        match self.pends.completed(label) {
            Some(end) => draw_end(alloc, page, line, end.lane, end.shown),
            None => Ok(()),
        }
    }

    /// Draws what a label has in the diagram: an arrow, where it tells an ask, an end, where it tells a completion.
    fn draw_part(
        &mut self,
        alloc: Global,
        page: &mut Page,
        label: &Label,
        line: &[u8],
    ) -> Result<(), WantOfMemory>
        requires line { line.now ≡ label_line label.now }
        ensures elements { OnOk result (page.new.elements ≡ page.old.elements) }
        ensures marks { OnOk result (page.new.marks ≡ page.old.marks ++ arrow_of label.now) }
        ensures waiting { self.new ≡ self.old }
    {
        match question_of(label) {
            Some(asked) => {
                let lane = self.lanes.lane_of(alloc, Party::Driver, asked.driver)?;
                self.pends.note(alloc, label, lane)?;
                draw_ask(alloc, page, line, lane, asked.shown)
            }
            None => self.draw_other(alloc, page, label, line),
        }
    }

    /// Draws a label: its line, and its part of the diagram.
    fn draw_line(
        &mut self,
        alloc: Global,
        page: &mut Page,
        label: &Label,
    ) -> Result<(), WantOfMemory>
        ensures elements { OnOk result (page.new.elements ≡ page.old.elements) }
        ensures marks { OnOk result (page.new.marks ≡ page.old.marks ++ row_of label.now) }
        ensures waiting { self.new ≡ self.old }
    {
        let line = line_of(alloc, label)?;
        self.learn(alloc, label, &line)?;
        draw_code(
            page,
            label,
            &line,
            self.operation,
            self.count <= ROWS_WORDED,
        )?;
        self.draw_part(alloc, page, label, &line)?;
        self.leave(label);
        Ok(())
    }

    /// Draws a label as a row of its own.
    fn draw_row(
        &mut self,
        alloc: Global,
        page: &mut Page,
        label: &Label,
    ) -> Result<(), WantOfMemory>
        ensures elements { OnOk result (page.new.elements ≡ page.old.elements) }
        ensures marks { OnOk result (page.new.marks ≡ page.old.marks ++ row_of label.now) }
        ensures waiting { self.new ≡ self.old }
    {
        open_row(alloc, page, self.count.saturating_add(1), class_of(label))?;
        self.draw_line(alloc, page, label)?;
        page.close()
    }

    /// Draws labels, each as a row of its own.
    fn draw_rows(
        &mut self,
        alloc: Global,
        page: &mut Page,
        labels: &[Label],
    ) -> Result<(), WantOfMemory>
        ensures elements { OnOk result (page.new.elements ≡ page.old.elements) }
        ensures marks { OnOk result (page.new.marks ≡ page.old.marks ++ rows labels.now) }
        ensures waiting { OnOk result (self.new ≡ self.old) }
    {
        'labels: for label in labels {
            self.draw_row(alloc, page, label)?;
        }
        Ok(())
    }

    /// Draws the labels of an event, the first as what stays where they are folded.
    fn draw_fold(
        &mut self,
        alloc: Global,
        page: &mut Page,
        first: &Label,
        others: &[Label],
    ) -> Result<(), WantOfMemory>
        ensures elements { OnOk result (page.new.elements ≡ page.old.elements) }
        ensures marks { OnOk result (page.new.marks ≡ page.old.marks ++ row_of first.now ++ rows others.now) }
        ensures waiting { OnOk result (self.new ≡ self.old) }
    {
        let is_open = self.count < ROWS_OPEN || has_wrong(others);
        open_row(
            alloc,
            page,
            self.count.saturating_add(1),
            Some(fold_class_of(first)),
        )?;
        open_fold(page, is_open)?;
        page.open(Tag::Summary, &[])?;
        self.draw_line(alloc, page, first)?;
        page.close()?;
        page.open(Tag::Ol, &[])?;
        self.draw_rows(alloc, page, others)?;
        page.close()?;
        page.close()?;
        page.close()
    }

    /// Draws the labels of an event: as a fold, where there are more than one.
    fn draw_event(
        &mut self,
        alloc: Global,
        page: &mut Page,
        labels: &[Label],
    ) -> Result<(), WantOfMemory>
        ensures elements { OnOk result (page.new.elements ≡ page.old.elements) }
        ensures marks { OnOk result (page.new.marks ≡ page.old.marks ++ rows labels.now) }
        ensures waiting { OnOk result (self.new ≡ self.old) }
    {
        if labels.len() < 2 {
            return self.draw_rows(alloc, page, labels);
        }
        match labels.split_first() {
            Some((first, others)) => self.draw_fold(alloc, page, first, others),
            None => Ok(()),
        }
    }

    /// Draws the labels that wait.
    fn draw_waiting(&mut self, alloc: Global, page: &mut Page) -> Result<(), WantOfMemory>
        ensures elements { OnOk result (page.new.elements ≡ page.old.elements) }
        ensures marks { OnOk result (page.new.marks ≡ page.old.marks ++ rows self.old) }
        ensures waiting { OnOk result (self.new ≡ []) }
    {
        let labels = mem::replace(&mut self.waiting, Vec::new(alloc));
        self.draw_event(alloc, page, &labels)
    }

    /// Draws what waits, where a label begins the rows of another event.
    fn draw_before(
        &mut self,
        alloc: Global,
        page: &mut Page,
        label: &Label,
    ) -> Result<(), WantOfMemory>
        ensures elements { OnOk result (page.new.elements ≡ page.old.elements) }
        ensures marks { OnOk result (page.new.marks ++ rows self.new ≡ page.old.marks ++ rows self.old) }
    {
        if is_event(label) {
            return self.draw_waiting(alloc, page);
        }
        Ok(())
    }

    /// A label more waits.
    fn wait(&mut self, label: Label) -> Result<(), WantOfMemory>
        ensures { OnOk result (self.new ≡ self.old ++ label ∷ []) }
    {
        self.waiting.push(label)?;
        Ok(())
    }

    /// Takes the next label, which is drawn when the next event comes, or the end. Cost: where it is an event's, the length of the
    /// lines of the event before it, each times the number of lanes.
    pub fn draw(&mut self, alloc: Global, page: &mut Page, label: Label) -> Result<(), WantOfMemory>
        ensures elements { OnOk result (page.new.elements ≡ page.old.elements) }
        ensures marks { OnOk result (page.new.marks ++ rows self.new ≡ (page.old.marks ++ rows self.old) ++ row_of label) }
    {
        self.draw_before(alloc, page, &label)?;
        self.wait(label)?;
        Ok(())
    }

    /// Ends the rows: draws what waits, the names of the lanes, and what went wrong. Condition: they are open, as `begin` leaves them.
    pub fn end(&mut self, alloc: Global, page: &mut Page) -> Result<(), WantOfMemory>
        requires { page.old.elements ≡ Tag.Ol ∷ Tag.Div ∷ Tag.Section ∷ Tag.Body ∷ [] }
        ensures elements { OnOk result (page.new.elements ≡ Tag.Body ∷ []) }
        ensures marks { OnOk result (page.new.marks ≡ page.old.marks ++ rows self.old) }
    {
        self.draw_waiting(alloc, page)?;
        page.close()?;
        self.lanes.draw_heads(alloc, page)?;
        page.close()?;
        page.close()?;
        self.wrong.draw(alloc, page)
    }
}
