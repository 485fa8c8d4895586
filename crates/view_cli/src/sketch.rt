//! What is drawn of a run: its rows, and behind them the state diagram, the changes of the resource map, the tree and the map.
ghost use Rattle.std.specs.Prelude.{◌≡◌, ◌++◌, ◌∷◌, [], OnOk};
ghost use Rattle.view_trace.specs.Rows.{row_of, rows};
ghost use Rattle.view_states.specs.States.{Tells};

use device_ids::WantOfMemory;
use devnode_tree::Tree;
use pnp_labels::{Deed, Label, OpKind};
use resource_reqs::Res;
use std::alloc::Global;
use std::mem;
use view_drawings::{
    DriverNames, Holding, RunRows, device_tree, holdings, map_change, resource_map, resource_table,
    state_diagram,
};
use view_page::{Attribute, Page, Tag};
use view_states::States;
use view_trace::Rows;

/// No more commits than these are drawn.
const MOST_CHANGES: usize = 32;

/// A map with more holdings than these is a table, and a commit with more is not drawn.
const MOST_HELD: usize = 512;

/// What devices held before and after a commit.
#[derive(Drop)]
struct Change {
    title: String,
    before: Vec<Holding>,
    after: Vec<Holding>,
}

impl Change {
    /// Draws both maps.
    fn draw(&self, alloc: Global, page: &mut Page) -> Result<(), WantOfMemory>
        ensures elements { OnOk result (page.new.elements ≡ page.old.elements) }
        ensures marks { OnOk result (page.new.marks ≡ page.old.marks) }
    {
        map_change(
            alloc,
            page,
            self.title.as_bytes(),
            &self.before,
            &self.after,
        )
    }
}

/// What of a run is drawn behind its rows. This project's own.
struct Kept {
    used: RunRows,
    names: DriverNames,
    reserved: Vec<Res>,
    before: Vec<Holding>,
    changes: Vec<Change>,
}

impl Drop for Kept {
    fn drop(self) {
        let Kept {
            used: _,
            names: _,
            reserved: _,
            before: _,
            changes: _,
        } = self;
    }
}

/// What was drawn of a run, what of it is drawn behind its rows, and the states behind them. This project's own.
pub struct Sketch {
    rows: Rows,
    kept: Kept,
    pub states: States,
}

impl Drop for Sketch {
    fn drop(self) {
        let Sketch {
            rows: _,
            kept: _,
            states: _,
        } = self;
    }
}

/// Says that something is not drawn.
fn say(page: &mut Page, words: &[u8]) -> Result<(), WantOfMemory>
    ensures elements { OnOk result (page.new.elements ≡ page.old.elements) }
    ensures marks { OnOk result (page.new.marks ≡ page.old.marks) }
{
    page.element(Tag::P, &[(Attribute::Class, b"note")], words)
}

impl Kept {
    fn new(alloc: Global) -> Kept {
        Kept {
            used: RunRows::new(alloc),
            names: DriverNames::new(alloc),
            reserved: Vec::new(alloc),
            before: Vec::new(alloc),
            changes: Vec::new(alloc),
        }
    }

    /// Keeps what devices hold after a commit, and what they held before.
    fn keep_change(&mut self, alloc: Global, tree: &Tree, movers: u64) -> Result<(), WantOfMemory> {
        let before = mem::replace(&mut self.before, Vec::new(alloc));
        if self.changes.len() < MOST_CHANGES {
            let after = holdings(alloc, tree, &self.reserved)?;
            let number = self.changes.len() as u64;
            let place = number.saturating_add(1);
            let title = format!(in alloc;
                "Commit {place}: before and after, devices that move: {movers}"
            )?;
            self.changes.push(Change {
                title,
                before,
                after,
            })?;
        }
        Ok(())
    }

    /// Keeps what of a label is drawn later. The tree is that behind the label.
    fn keep(&mut self, alloc: Global, tree: &Tree, label: &Label) -> Result<(), WantOfMemory> {
        self.used.note(label)?;
        match label {
            Label::Add {
                path,
                driver,
                ok: true,
            } => self.names.note_added(alloc, tree, path, driver),
            Label::Begin {
                op: OpKind::Rebalance | OpKind::Change,
                ..
            } => {
                self.before = holdings(alloc, tree, &self.reserved)?;
                Ok(())
            }
            Label::Commit { movers } => self.keep_change(alloc, tree, *movers),
            Label::Did(Deed::Reserved { res }) => {
                self.reserved.push(*res)?;
                Ok(())
            }
            _ => Ok(()),
        }
    }

    /// Draws the changes of the map.
    fn draw_changes(&self, alloc: Global, page: &mut Page) -> Result<(), WantOfMemory>
        ensures elements { OnOk result (page.new.elements ≡ page.old.elements) }
        ensures marks { OnOk result (page.new.marks ≡ page.old.marks) }
    {
        'changes: for change in &self.changes {
            if change.after.len() <= MOST_HELD && change.before.len() <= MOST_HELD {
                change.draw(alloc, page)?;
            } else {
                say(
                    page,
                    b"More than 512 ranges are held: this commit is not drawn.",
                )?;
            }
        }
        if self.changes.len() == MOST_CHANGES {
            say(page, b"No more than 32 commits are drawn.")?;
        }
        Ok(())
    }

    /// Draws the map at the end.
    fn draw_map(&self, alloc: Global, tree: &Tree, page: &mut Page) -> Result<(), WantOfMemory>
        ensures elements { OnOk result (page.new.elements ≡ page.old.elements) }
        ensures marks { OnOk result (page.new.marks ≡ page.old.marks) }
    {
        let held = holdings(alloc, tree, &self.reserved)?;
        if held.len() <= MOST_HELD {
            resource_map(alloc, page, b"Resource map at the end", &held)
        } else {
            resource_table(alloc, page, b"Resources at the end", &held)
        }
    }

    /// Draws what stands behind the rows. The tree is that at the end.
    fn draw_rest(&self, alloc: Global, tree: &Tree, page: &mut Page) -> Result<(), WantOfMemory>
        ensures elements { OnOk result (page.new.elements ≡ page.old.elements) }
        ensures marks { OnOk result (page.new.marks ≡ page.old.marks) }
    {
        state_diagram(
            alloc,
            page,
            b"State diagram, with the rows that this run used",
            self.used.all(),
        )?;
        self.draw_changes(alloc, page)?;
        device_tree(alloc, page, b"Device tree at the end", tree, &self.names)?;
        self.draw_map(alloc, tree, page)
    }
}

impl Sketch {
    /// Nothing was drawn yet, and no state told. It takes no memory.
    pub fn new(alloc: Global, steps: bool) -> Sketch
        ensures rows { result.rows ≡ [] }
        ensures states { Tells result.states.written [] result.states.last }
    {
        Sketch {
            rows: Rows::new(alloc),
            kept: Kept::new(alloc),
            states: States::new(alloc, steps),
        }
    }

    /// Draws a label, or keeps it until the rest of its event is there. The tree is that behind the label.
    pub fn draw(
        &mut self,
        alloc: Global,
        tree: &Tree,
        page: &mut Page,
        label: Label,
    ) -> Result<(), WantOfMemory>
        ensures elements { OnOk result (page.new.elements ≡ page.old.elements) }
        ensures marks { OnOk result (page.new.marks ++ rows self.new.rows ≡ (page.old.marks ++ rows self.old.rows) ++ row_of label) }
        ensures states { self.new.states ≡ self.old.states }
    {
        self.kept.keep(alloc, tree, &label)?;
        self.rows.draw(alloc, page, label)
    }

    /// Ends the rows. Condition: they are open, as `begin` leaves them.
    pub fn end_rows(&mut self, alloc: Global, page: &mut Page) -> Result<(), WantOfMemory>
        requires { page.old.elements ≡ Tag.Ol ∷ Tag.Div ∷ Tag.Section ∷ Tag.Body ∷ [] }
        ensures elements { OnOk result (page.new.elements ≡ Tag.Body ∷ []) }
        ensures marks { OnOk result (page.new.marks ≡ page.old.marks ++ rows self.old.rows) }
        ensures states { self.new.states ≡ self.old.states }
    {
        self.rows.end(alloc, page)
    }

    /// Draws what stands behind the rows. The tree is that at the end.
    pub fn draw_rest(&self, alloc: Global, tree: &Tree, page: &mut Page) -> Result<(), WantOfMemory>
        ensures elements { OnOk result (page.new.elements ≡ page.old.elements) }
        ensures marks { OnOk result (page.new.marks ≡ page.old.marks) }
    {
        self.kept.draw_rest(alloc, tree, page)
    }
}
