//! The lanes of the diagram: the manager's, and one for each driver that was asked and each client that was told.
ghost use Rattle.std.specs.Prelude.{◌≡◌, OnOk};

use device_ids::{Text, WantOfMemory};
use std::alloc::Global;
use view_page::{Attribute, Page, Tag};

/// No more lanes than these are drawn; what goes to further ones ends beside the last one.
const MOST_LANES: usize = 256;

/// Who has a lane.
#[derive(Clone, Copy, Debug, PartialEq, Eq)]
pub enum Party {
    Driver,
    Client,
}

#[derive(Drop)]
struct Lane {
    party: Party,
    name: Text,
}

impl Lane {
    fn is_of(&self, party: Party, name: &Text) -> bool {
        match (self.party, party) {
            (Party::Driver, Party::Driver) => self.name.same(name),
            (Party::Client, Party::Client) => self.name.bytes() == name.bytes(),
            _ => false,
        }
    }
}

/// Who has a lane, in the order in which they were first asked or told. This project's own.
#[derive(Drop)]
pub struct Lanes {
    lanes: Vec<Lane>,
}

/// The class by which the style knows how many lanes there are, the manager's among them; above 24, how many at most.
fn class_of(alloc: Global, lanes: usize) -> Result<String, WantOfMemory> {
    let count = match lanes {
        0..=24 => lanes,
        25..=32 => 32,
        33..=48 => 48,
        49..=64 => 64,
        65..=128 => 128,
        _ => 257,
    };
    format!(in alloc; "heads lanes-{count}")
}

impl Lanes {
    /// Nobody has one. It takes no memory.
    pub fn new(alloc: Global) -> Lanes {
        Lanes {
            lanes: Vec::new(alloc),
        }
    }

    /// The lane of a driver or a client, from now on. Lane 0 is the manager's.
    pub fn lane_of(
        &mut self,
        alloc: Global,
        party: Party,
        name: &Text,
    ) -> Result<u64, WantOfMemory> {
        let mut place = 1u64;
        for lane in &self.lanes {
            if lane.is_of(party, name) {
                return Ok(place);
            }
            place = place.saturating_add(1);
        }
        if self.lanes.len() < MOST_LANES {
            let name = name.copy(alloc)?;
            self.lanes.push(Lane { party, name })?;
        }
        Ok(place)
    }

    /// The names of the lanes.
    fn draw_names(&self, page: &mut Page) -> Result<(), WantOfMemory>
        ensures elements { OnOk result (page.new.elements ≡ page.old.elements) }
        ensures marks { OnOk result (page.new.marks ≡ page.old.marks) }
    {
        'lanes: for lane in &self.lanes {
            let class: &[u8] = match lane.party {
                Party::Driver => b"",
                Party::Client => b"client",
            };
            page.element(Tag::Span, &[(Attribute::Class, class)], lane.name.bytes())?;
        }
        Ok(())
    }

    /// Draws the names of the lanes, which stand above the rows.
    pub fn draw_heads(&self, alloc: Global, page: &mut Page) -> Result<(), WantOfMemory>
        ensures elements { OnOk result (page.new.elements ≡ page.old.elements) }
        ensures marks { OnOk result (page.new.marks ≡ page.old.marks) }
    {
        let class = class_of(alloc, self.lanes.len().saturating_add(1))?;
        page.open(Tag::Div, &[(Attribute::Class, class.as_bytes())])?;
        page.element(Tag::Span, &[(Attribute::Class, b"lines")], b"Trace")?;
        page.element(Tag::Span, &[], b"manager")?;
        self.draw_names(page)?;
        page.close()
    }
}
