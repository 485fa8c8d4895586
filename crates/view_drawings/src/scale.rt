use crate::holding::Holding;
use crate::shapes::numbered;
use device_ids::WantOfMemory;
use pnp_labels::decimal;
use resource_reqs::{Kind, Owner};
use std::alloc::Global;

/// How wide a stretch of free numbers is drawn, in pixels.
const BREAK: u64 = 30;

/// How wide a letter is at most.
const LETTER: u64 = 8;

/// Numbers of a kind from one on up to another, all held by the same or all free, and where they are drawn.
#[derive(Clone, Copy)]
pub(crate) struct Stretch {
    pub(crate) first: u64,
    pub(crate) last: u64,
    pub(crate) is_held: bool,
    /// Whether it is held and what stands before it is not.
    pub(crate) is_start: bool,
    pub(crate) x: u64,
    pub(crate) width: u64,
}

/// The numbers of a kind as far as they are used, from the left: each stretch that is held is wider by a step with each doubling, and
/// free ones between them are cut to one width.
#[derive(Drop)]
pub(crate) struct Scale {
    pub(crate) stretches: Vec<Stretch>,
    pub(crate) width: u64,
}

impl Scale {
    /// Where the block of these numbers is drawn: its left end and its width.
    pub(crate) fn block(&self, first: u64, last: u64) -> (u64, u64) {
        let from = self
            .stretches
            .partition_point(|stretch| stretch.first < first);
        let to = self
            .stretches
            .partition_point(|stretch| stretch.last < last);
        match (self.stretches.get(from), self.stretches.get(to)) {
            (Some(from), Some(to)) => {
                let end = to.x.saturating_add(to.width);
                (from.x, end.saturating_sub(from.x))
            }
            _ => (0, 0),
        }
    }
}

/// What stands in a block: the number of the device, or that it is reserved.
pub(crate) fn owner_text(alloc: Global, owner: Owner) -> Result<Vec<u8>, WantOfMemory> {
    match owner {
        Owner::Reserved => Vec::from_slice(alloc, b"res."),
        Owner::Device(serial) => numbered(alloc, b"#", serial),
    }
}

/// A number as it is written for a kind: of ports and memory in hexadecimal digits.
pub(crate) fn number_text(alloc: Global, kind: Kind, number: u64) -> Result<String, WantOfMemory> {
    match kind {
        Kind::Port | Kind::Mem => format!(in alloc; "0x{number:x}"),
        Kind::Irq | Kind::Dma | Kind::Bus => decimal(alloc, number),
    }
}

/// The ends of what is held of a kind.
#[derive(Drop)]
struct Ends {
    /// The first numbers.
    firsts: Vec<u64>,
    /// The last numbers.
    lasts: Vec<u64>,
    /// How wide the widest text in a block is.
    text: u64,
}

impl Ends {
    fn add(&mut self, alloc: Global, kind: Kind, holdings: &[Holding]) -> Result<(), WantOfMemory> {
        for holding in holdings {
            if holding.res.kind == kind {
                self.firsts.push(holding.res.lo)?;
                self.lasts.push(holding.res.hi)?;
                let letters = owner_text(alloc, holding.owner)?.len() as u64;
                self.text = self.text.max(letters.saturating_mul(LETTER));
            }
        }
        Ok(())
    }

    /// Where a stretch begins.
    fn cuts(&self, alloc: Global) -> Result<Vec<u64>, WantOfMemory> {
        let mut cuts = Vec::from_slice(alloc, &self.firsts)?;
        for last in &self.lasts {
            if *last < u64::MAX {
                cuts.push(*last + 1)?;
            }
        }
        cuts.sort_unstable();
        cuts.dedup();
        Ok(cuts)
    }

    /// Whether a number at which a stretch begins is held: more ranges began up to it than ended before it.
    fn is_held(&self, number: u64) -> bool {
        let began = self.firsts.partition_point(|first| *first <= number);
        let over = self.lasts.partition_point(|last| *last < number);
        over < began
    }
}

/// How wide a stretch is drawn that is held: a text wide, and four pixels more with each doubling; and at least as wide as the number
/// below it, where one is written.
fn width_of(alloc: Global, kind: Kind, stretch: &Stretch, text: u64) -> Result<u64, WantOfMemory> {
    let beyond = stretch.last.saturating_sub(stretch.first);
    let doublings = (u64::BITS - beyond.leading_zeros()) as u64;
    let width = text.saturating_add(28).saturating_add(doublings * 4);
    if !stretch.is_start {
        return Ok(width);
    }
    let letters = number_text(alloc, kind, stretch.first)?.len() as u64;
    Ok(width.max(letters.saturating_mul(LETTER).saturating_add(8)))
}

/// The stretches between these cuts.
fn laid_out(alloc: Global, kind: Kind, ends: &Ends, cuts: &[u64]) -> Result<Scale, WantOfMemory> {
    let mut stretches = Vec::new(alloc);
    let mut x = 0u64;
    let mut was_held = false;
    for (at, first) in cuts.iter().enumerate() {
        let next = cuts.get(at + 1);
        let is_held = ends.is_held(*first);
        if is_held || next.is_some() {
            let last = next.map_or(u64::MAX, |next| next.saturating_sub(1));
            let mut stretch = Stretch {
                first: *first,
                last,
                is_held,
                is_start: is_held && !was_held,
                x,
                width: BREAK,
            };
            if is_held {
                stretch.width = width_of(alloc, kind, &stretch, ends.text)?;
            }
            x = x.saturating_add(stretch.width);
            was_held = is_held;
            stretches.push(stretch)?;
        }
    }
    Ok(Scale {
        stretches,
        width: x,
    })
}

/// The scale on which what these lists hold of a kind is drawn. Cost: their number times its logarithm.
pub(crate) fn scale_of(
    alloc: Global,
    kind: Kind,
    one: &[Holding],
    other: &[Holding],
) -> Result<Scale, WantOfMemory> {
    let mut ends = Ends {
        firsts: Vec::new(alloc),
        lasts: Vec::new(alloc),
        text: 0,
    };
    ends.add(alloc, kind, one)?;
    ends.add(alloc, kind, other)?;
    ends.firsts.sort_unstable();
    ends.lasts.sort_unstable();
    let cuts = ends.cuts(alloc)?;
    laid_out(alloc, kind, &ends, &cuts)
}
