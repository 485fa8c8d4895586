ghost use Rattle.std.specs.Prelude.{◌≡◌, ◌∷◌, OnOk};

use crate::holding::Holding;
use crate::legend::draw_legend;
use crate::scale::{Scale, Stretch, number_text, owner_text, scale_of};
use crate::shapes::{Place, label, numbered, rect, stroke, worded};
use device_ids::WantOfMemory;
use pnp_labels::decimal;
use resource_reqs::{Kind, Owner};
use std::alloc::Global;
use view_page::{Attribute, Page, Tag};

/// A bar: what is held, beside what is held before or after it.
#[derive(Clone, Copy)]
pub(crate) struct Bar<'a> {
    /// What stands above it.
    pub(crate) name: &'a [u8],
    /// What stands in a block that the other list does not have.
    pub(crate) sign: &'a [u8],
    /// What the table says of it.
    pub(crate) moved: &'a [u8],
    /// Whether the table has also what both lists have.
    pub(crate) has_kept: bool,
    pub(crate) holdings: &'a [Holding],
    pub(crate) others: &'a [Holding],
}

impl Bar<'_> {
    /// Whether the other list does not have it.
    pub(crate) fn is_moved(&self, holding: &Holding) -> bool {
        let key = holding.key();
        self.others
            .binary_search_by_key(&key, |other| other.key())
            .is_err()
    }

    /// Whether one of the other list is not in this one.
    pub(crate) fn is_new(&self, other: &Holding) -> bool {
        let key = other.key();
        self.holdings
            .binary_search_by_key(&key, |holding| holding.key())
            .is_err()
    }

    /// Whether something of a kind is held.
    fn has_kind(&self, kind: Kind) -> bool {
        for holding in self.holdings {
            if holding.res.kind == kind {
                return true;
            }
        }
        false
    }
}

/// How high a lane of blocks is, in pixels.
const LANE: u64 = 26;

/// All kinds.
const KINDS: [Kind; 5] = [Kind::Port, Kind::Irq, Kind::Mem, Kind::Dma, Kind::Bus];

/// The name of a kind.
fn kind_text(kind: Kind) -> &'static [u8] {
    match kind {
        Kind::Port => b"Ports",
        Kind::Irq => b"Interrupts",
        Kind::Mem => b"Memory",
        Kind::Dma => b"DMA channels",
        Kind::Bus => b"Bus numbers",
    }
}

/// Which lane each block is in: one that begins before an earlier one has ended goes below the last.
#[derive(Clone, Copy)]
struct Lanes {
    /// The lane of the last block, counted from 0, and the greatest number so far; none before the first block.
    last: Option<(u64, u64)>,
    /// How many lanes there are.
    count: u64,
}

impl Lanes {
    fn new() -> Lanes {
        Lanes {
            last: None,
            count: 0,
        }
    }

    /// The lane of the next block.
    fn next(&mut self, holding: &Holding) -> u64 {
        let lane = match self.last {
            Some((lane, reach)) if holding.res.lo <= reach => lane.saturating_add(1),
            _ => 0,
        };
        let reach = match self.last {
            Some((_, reach)) => reach.max(holding.res.hi),
            None => holding.res.hi,
        };
        self.last = Some((lane, reach));
        self.count = self.count.max(lane.saturating_add(1));
        lane
    }
}

/// How many lanes the blocks of a kind take.
fn lanes_of(kind: Kind, holdings: &[Holding]) -> u64 {
    let mut lanes = Lanes::new();
    for holding in holdings {
        if holding.res.kind == kind {
            let _ = lanes.next(holding);
        }
    }
    lanes.count
}

/// How high a bar is, with its name.
fn height_of(kind: Kind, bar: &Bar<'_>) -> u64 {
    let name = if bar.name.is_empty() { 6 } else { 22 };
    lanes_of(kind, bar.holdings)
        .max(1)
        .saturating_mul(LANE)
        .saturating_add(name)
}

/// The class of a block.
fn block_class(holding: &Holding, is_moved: bool) -> &'static [u8] {
    match (holding.owner, holding.res.shared, is_moved) {
        (Owner::Reserved, _, false) => b"block reserved",
        (Owner::Reserved, _, true) => b"block reserved moved",
        (Owner::Device(_), false, false) => b"block",
        (Owner::Device(_), false, true) => b"block moved",
        (Owner::Device(_), true, false) => b"block shared",
        (Owner::Device(_), true, true) => b"block shared moved",
    }
}

/// What stands in a block: the bar's sign where the other list does not have it, and who holds it.
fn block_words(
    alloc: Global,
    bar: &Bar<'_>,
    holding: &Holding,
    is_moved: bool,
) -> Result<Vec<u8>, WantOfMemory> {
    let mut words = Vec::new(alloc);
    if is_moved {
        words.extend_from_slice(bar.sign)?;
    }
    words.extend_from_slice(&owner_text(alloc, holding.owner)?)?;
    Ok(words)
}

/// A block with who holds it.
fn draw_block(
    alloc: Global,
    page: &mut Page,
    scale: &Scale,
    bar: &Bar<'_>,
    holding: &Holding,
    y: u64,
) -> Result<(), WantOfMemory>
    ensures elements { OnOk result (page.new.elements ≡ page.old.elements) }
    ensures marks { OnOk result (page.new.marks ≡ page.old.marks) }
{
    let is_moved = bar.is_moved(holding);
    let (x, width) = scale.block(holding.res.lo, holding.res.hi);
    let place = Place {
        x: x.saturating_add(1),
        y,
        width: width.saturating_sub(2),
        height: LANE - 4,
    };
    rect(alloc, page, block_class(holding, is_moved), place)?;
    let words = block_words(alloc, bar, holding, is_moved)?;
    label(
        alloc,
        page,
        b"block-words",
        x.saturating_add(8),
        y.saturating_add(16),
        &words,
    )
}

/// The blocks of a bar.
fn draw_blocks(
    alloc: Global,
    page: &mut Page,
    kind: Kind,
    scale: &Scale,
    bar: &Bar<'_>,
    y: u64,
) -> Result<(), WantOfMemory>
    ensures elements { OnOk result (page.new.elements ≡ page.old.elements) }
    ensures marks { OnOk result (page.new.marks ≡ page.old.marks) }
{
    let mut lanes = Lanes::new();
    let held = bar.holdings;
    'each: for holding in held {
        if holding.res.kind == kind {
            let lane = lanes.next(holding);
            let top = y.saturating_add(lane.saturating_mul(LANE));
            draw_block(alloc, page, scale, bar, holding, top)?;
        }
    }
    Ok(())
}

/// The zigzag that stands for free numbers.
fn break_path(alloc: Global, x: u64, y: u64) -> Result<Vec<u8>, WantOfMemory> {
    let mut path = numbered(alloc, b"M", x)?;
    path.extend_from_slice(&numbered(alloc, b" ", y)?)?;
    path.extend_from_slice(b"h7l4-5l8 10l4-5h7")?;
    Ok(path)
}

/// The line of the axis below a stretch that is held, or the zigzag below a free one.
fn draw_stretch(
    alloc: Global,
    page: &mut Page,
    stretch: &Stretch,
    y: u64,
) -> Result<(), WantOfMemory>
    ensures elements { OnOk result (page.new.elements ≡ page.old.elements) }
    ensures marks { OnOk result (page.new.marks ≡ page.old.marks) }
{
    if stretch.is_held {
        let place = Place {
            x: stretch.x,
            y,
            width: stretch.width,
            height: 2,
        };
        return rect(alloc, page, b"axis", place);
    }
    let path = break_path(alloc, stretch.x, y.saturating_add(1))?;
    stroke(page, b"axis-break", &path)
}

/// The first number of a stretch.
fn draw_first(
    alloc: Global,
    page: &mut Page,
    kind: Kind,
    stretch: &Stretch,
    y: u64,
) -> Result<(), WantOfMemory>
    ensures elements { OnOk result (page.new.elements ≡ page.old.elements) }
    ensures marks { OnOk result (page.new.marks ≡ page.old.marks) }
{
    let number = number_text(alloc, kind, stretch.first)?;
    let x = stretch.x.saturating_add(1);
    label(
        alloc,
        page,
        b"axis-words",
        x,
        y.saturating_add(16),
        number.as_bytes(),
    )
}

/// The axis: a line below each stretch that is held, with its first number where it follows a free one, and a zigzag below a free
/// one.
fn draw_axis(
    alloc: Global,
    page: &mut Page,
    kind: Kind,
    scale: &Scale,
    y: u64,
) -> Result<(), WantOfMemory>
    ensures elements { OnOk result (page.new.elements ≡ page.old.elements) }
    ensures marks { OnOk result (page.new.marks ≡ page.old.marks) }
{
    'stretches: for stretch in &scale.stretches {
        draw_stretch(alloc, page, stretch, y)?;
        if stretch.is_start {
            draw_first(alloc, page, kind, stretch, y)?;
        }
    }
    Ok(())
}

/// The bars of a kind on one scale, one below the other.
fn draw_bars(
    alloc: Global,
    page: &mut Page,
    kind: Kind,
    scale: &Scale,
    bars: &[Bar<'_>],
) -> Result<(), WantOfMemory>
    ensures elements { OnOk result (page.new.elements ≡ page.old.elements) }
    ensures marks { OnOk result (page.new.marks ≡ page.old.marks) }
{
    let mut y = 0u64;
    'bars: for bar in bars {
        let bottom = y.saturating_add(height_of(kind, bar));
        if bar.name.is_empty() {
            draw_blocks(alloc, page, kind, scale, bar, y.saturating_add(2))?;
        } else {
            label(alloc, page, b"bar-words", 1, y.saturating_add(14), bar.name)?;
            draw_blocks(alloc, page, kind, scale, bar, y.saturating_add(20))?;
        }
        y = bottom;
    }
    draw_axis(alloc, page, kind, scale, y)
}

/// How high all bars of a kind are, with the axis.
fn heights_of(kind: Kind, bars: &[Bar<'_>]) -> u64 {
    let mut height = 24u64;
    for bar in bars {
        height = height.saturating_add(height_of(kind, bar));
    }
    height
}

/// Begins the drawing of the bars, in pixels.
fn open_bars<'a>(
    page: &mut Page,
    name: &'a [u8],
    width: &'a [u8],
    height: &'a [u8],
) -> Result<(), WantOfMemory>
    ensures elements { OnOk result (page.new.elements ≡ Tag.Svg ∷ page.old.elements) }
    ensures marks { OnOk result (page.new.marks ≡ page.old.marks) }
{
    page.open(
        Tag::Svg,
        &[
            (Attribute::Class, b"map-bars"),
            (Attribute::Width, width),
            (Attribute::Height, height),
            (Attribute::Role, b"img"),
            (Attribute::AriaLabel, name),
        ],
    )
}

/// Begins the frame of a kind's bars, which scrolls where it is too narrow.
fn open_frame(
    alloc: Global,
    page: &mut Page,
    kind: Kind,
    scale: &Scale,
    bars: &[Bar<'_>],
) -> Result<(), WantOfMemory>
    ensures elements { OnOk result (page.new.elements ≡ Tag.Svg ∷ Tag.Div ∷ page.old.elements) }
    ensures marks { OnOk result (page.new.marks ≡ page.old.marks) }
{
    let width = decimal(alloc, scale.width.max(80))?;
    let height = decimal(alloc, heights_of(kind, bars))?;
    page.open(
        Tag::Div,
        &[
            (Attribute::Class, b"drawing-scroll"),
            (Attribute::Tabindex, b"0"),
        ],
    )?;
    open_bars(page, kind_text(kind), width.as_bytes(), height.as_bytes())
}

/// The bars of a kind in a frame that scrolls where it is too narrow.
fn draw_frame(
    alloc: Global,
    page: &mut Page,
    kind: Kind,
    scale: &Scale,
    bars: &[Bar<'_>],
) -> Result<(), WantOfMemory>
    ensures elements { OnOk result (page.new.elements ≡ page.old.elements) }
    ensures marks { OnOk result (page.new.marks ≡ page.old.marks) }
{
    open_frame(alloc, page, kind, scale, bars)?;
    draw_bars(alloc, page, kind, scale, bars)?;
    page.close()?;
    page.close()
}

/// The bars of a kind and the table of their blocks; nothing where nothing of the kind is held.
fn draw_kind(
    alloc: Global,
    page: &mut Page,
    kind: Kind,
    bars: &[Bar<'_>],
    scale: &Scale,
) -> Result<(), WantOfMemory>
    ensures elements { OnOk result (page.new.elements ≡ page.old.elements) }
    ensures marks { OnOk result (page.new.marks ≡ page.old.marks) }
{
    if scale.stretches.is_empty() {
        return Ok(());
    }
    worded(page, Tag::P, b"map-kind", kind_text(kind))?;
    draw_frame(alloc, page, kind, scale, bars)?;
    draw_legend(alloc, page, kind, bars)
}

/// The table of what is held of a kind, if anything is.
fn draw_table(
    alloc: Global,
    page: &mut Page,
    kind: Kind,
    bars: &[Bar<'_>],
) -> Result<(), WantOfMemory>
    ensures elements { OnOk result (page.new.elements ≡ page.old.elements) }
    ensures marks { OnOk result (page.new.marks ≡ page.old.marks) }
{
    if !bars.iter().any(|bar| bar.has_kind(kind)) {
        return Ok(());
    }
    worded(page, Tag::P, b"map-kind", kind_text(kind))?;
    draw_legend(alloc, page, kind, bars)
}

/// The kinds of which something is held, and the words on the scale.
fn draw_kinds(
    alloc: Global,
    page: &mut Page,
    title: &[u8],
    one: &[Holding],
    other: &[Holding],
    bars: &[Bar<'_>],
) -> Result<(), WantOfMemory>
    ensures elements { OnOk result (page.new.elements ≡ page.old.elements) }
    ensures marks { OnOk result (page.new.marks ≡ page.old.marks) }
{
    page.open(Tag::Figure, &[(Attribute::Class, b"drawing")])?;
    worded(page, Tag::Figcaption, b"drawing-title", title)?;
    'kinds: for kind in &KINDS {
        let scale = scale_of(alloc, *kind, one, other)?;
        draw_kind(alloc, page, *kind, bars, &scale)?;
    }
    let note: &[u8] = if one.is_empty() && other.is_empty() {
        b"Nothing is held."
    } else {
        b"Not to scale: a block is a little wider with each doubling of its size, and free numbers between blocks are cut to a zigzag."
    };
    worded(page, Tag::P, b"map-note", note)?;
    page.close()
}

/// Draws the map of resources with a title: a bar for each kind with a block for each holding, and its table. Condition: the
/// holdings are in order, as `holdings` makes them; else blocks may cover one another. Afterwards the same elements are open and the
/// marks are the same. Cost: their number times its logarithm.
pub fn resource_map(
    alloc: Global,
    page: &mut Page,
    title: &[u8],
    holdings: &[Holding],
) -> Result<(), WantOfMemory>
    ensures elements { OnOk result (page.new.elements ≡ page.old.elements) }
    ensures marks { OnOk result (page.new.marks ≡ page.old.marks) }
{
    let bars = [Bar {
        name: b"",
        sign: b"",
        moved: b"",
        has_kept: true,
        holdings,
        others: holdings,
    }];
    draw_kinds(alloc, page, title, holdings, &[], &bars)
}

/// Draws what a commit changed in the map of resources, with a title: for each kind the bar before and the bar after it on one
/// scale, with what was given up and what was taken. Conditions, result and cost as for `resource_map`.
pub fn map_change(
    alloc: Global,
    page: &mut Page,
    title: &[u8],
    before: &[Holding],
    after: &[Holding],
) -> Result<(), WantOfMemory>
    ensures elements { OnOk result (page.new.elements ≡ page.old.elements) }
    ensures marks { OnOk result (page.new.marks ≡ page.old.marks) }
{
    let bars = [
        Bar {
            name: b"before",
            sign: b"-",
            moved: b"given up",
            has_kept: false,
            holdings: before,
            others: after,
        },
        Bar {
            name: b"after",
            sign: b"+",
            moved: b"taken",
            has_kept: true,
            holdings: after,
            others: before,
        },
    ];
    draw_kinds(alloc, page, title, before, after, &bars)
}

/// Draws what is held as tables alone, one for each kind, with a title: where there is too much for bars. Conditions and result as for
/// `resource_map`. Cost: their number times its logarithm.
pub fn resource_table(
    alloc: Global,
    page: &mut Page,
    title: &[u8],
    holdings: &[Holding],
) -> Result<(), WantOfMemory>
    ensures elements { OnOk result (page.new.elements ≡ page.old.elements) }
    ensures marks { OnOk result (page.new.marks ≡ page.old.marks) }
{
    let bars = [Bar {
        name: b"",
        sign: b"",
        moved: b"",
        has_kept: true,
        holdings,
        others: holdings,
    }];
    page.open(Tag::Figure, &[(Attribute::Class, b"drawing")])?;
    worded(page, Tag::Figcaption, b"drawing-title", title)?;
    'kinds: for kind in &KINDS {
        draw_table(alloc, page, *kind, &bars)?;
    }
    page.close()
}
