ghost use Rattle.std.specs.Prelude.{◌≡◌, ◌∷◌, OnOk};

use crate::bars::Bar;
use crate::holding::Holding;
use crate::scale::{number_text, owner_text};
use device_ids::WantOfMemory;
use resource_reqs::Kind;
use std::alloc::Global;
use view_page::{Attribute, Page, Tag};

/// Appends the first and the last number, once where they are one.
fn push_range(words: &mut Vec<u8>, alloc: Global, holding: &Holding) -> Result<(), WantOfMemory> {
    let first = number_text(alloc, holding.res.kind, holding.res.lo)?;
    words.extend_from_slice(first.as_bytes())?;
    if holding.res.lo != holding.res.hi {
        let last = number_text(alloc, holding.res.kind, holding.res.hi)?;
        words.extend_from_slice(b" - ")?;
        words.extend_from_slice(last.as_bytes())?;
    }
    Ok(())
}

/// The numbers, behind those in whose place they came.
fn range_words(
    alloc: Global,
    holding: &Holding,
    partner: Option<&Holding>,
) -> Result<Vec<u8>, WantOfMemory> {
    let mut words = Vec::new(alloc);
    if let Some(partner) = partner {
        push_range(&mut words, alloc, partner)?;
        words.extend_from_slice(b" -> ")?;
    }
    push_range(&mut words, alloc, holding)?;
    Ok(words)
}

/// Whether both are of one kind and one holder.
fn is_alike(one: &Holding, other: &Holding) -> bool {
    one.res.kind == other.res.kind && one.owner == other.owner
}

/// How many ranges of its kind its holder has before this one that the other list does not have.
fn place_of(bar: &Bar<'_>, holding: &Holding) -> usize {
    let mut place = 0usize;
    for other in bar.holdings {
        if other.key() == holding.key() {
            return place;
        }
        if is_alike(other, holding) && bar.is_moved(other) {
            place = place.saturating_add(1);
        }
    }
    place
}

/// The range of the other list that this one came in the place of, or that came in its place: the first of its kind that its holder
/// gave up is for the first that it took, and so on.
fn partner_of<'a>(bar: &Bar<'a>, holding: &Holding) -> Option<&'a Holding> {
    if !bar.is_moved(holding) {
        return None;
    }
    let mut left = place_of(bar, holding);
    for other in bar.others {
        if is_alike(other, holding) && bar.is_new(other) {
            if left == 0 {
                return Some(other);
            }
            left = left.saturating_sub(1);
        }
    }
    None
}

/// Whether the table has a row for it: what both lists have once, and what moved beside the numbers that it has now.
fn is_told(bar: &Bar<'_>, holding: &Holding) -> bool {
    bar.has_kept || bar.is_moved(holding) && partner_of(bar, holding).is_none()
}

/// What changed: it was kept, it moved, or it was given up or taken.
fn change_of<'a>(bar: &Bar<'a>, is_moved: bool, has_partner: bool) -> &'a [u8] {
    if !is_moved {
        b"kept"
    } else if has_partner {
        b"moved"
    } else {
        bar.moved
    }
}

/// What changed, where the bar stands beside another.
fn draw_change(page: &mut Page, bar: &Bar<'_>, change: &[u8]) -> Result<(), WantOfMemory>
    ensures elements { OnOk result (page.new.elements ≡ page.old.elements) }
    ensures marks { OnOk result (page.new.marks ≡ page.old.marks) }
{
    if bar.name.is_empty() {
        return Ok(());
    }
    page.element(Tag::Td, &[], change)
}

/// The cells of a row: who, the numbers, the path, and whether they are shared.
fn draw_cells(
    page: &mut Page,
    who: &[u8],
    range: &[u8],
    holding: &Holding,
) -> Result<(), WantOfMemory>
    ensures elements { OnOk result (page.new.elements ≡ page.old.elements) }
    ensures marks { OnOk result (page.new.marks ≡ page.old.marks) }
{
    let shared: &[u8] = if holding.res.shared { b"shared" } else { b"" };
    page.element(Tag::Td, &[], who)?;
    page.element(Tag::Td, &[], range)?;
    page.element(Tag::Td, &[], holding.words.bytes())?;
    page.element(Tag::Td, &[], shared)
}

/// Begins a row of the table.
fn open_line(page: &mut Page, is_moved: bool) -> Result<(), WantOfMemory>
    ensures elements { OnOk result (page.new.elements ≡ Tag.Tr ∷ page.old.elements) }
    ensures marks { OnOk result (page.new.marks ≡ page.old.marks) }
{
    if is_moved {
        page.open(Tag::Tr, &[(Attribute::Class, b"moved")])
    } else {
        page.open(Tag::Tr, &[])
    }
}

/// A row of the table, with the words for who and for the numbers.
fn draw_line_with(
    page: &mut Page,
    who: &[u8],
    range: &[u8],
    bar: &Bar<'_>,
    holding: &Holding,
    has_partner: bool,
) -> Result<(), WantOfMemory>
    ensures elements { OnOk result (page.new.elements ≡ page.old.elements) }
    ensures marks { OnOk result (page.new.marks ≡ page.old.marks) }
{
    let is_moved = bar.is_moved(holding);
    open_line(page, is_moved)?;
    draw_cells(page, who, range, holding)?;
    draw_change(page, bar, change_of(bar, is_moved, has_partner))?;
    page.close()
}

/// A row of the table: who, the numbers, the path, whether they are shared, and what changed.
fn draw_line(
    alloc: Global,
    page: &mut Page,
    bar: &Bar<'_>,
    holding: &Holding,
) -> Result<(), WantOfMemory>
    ensures elements { OnOk result (page.new.elements ≡ page.old.elements) }
    ensures marks { OnOk result (page.new.marks ≡ page.old.marks) }
{
    let partner = partner_of(bar, holding);
    let who = owner_text(alloc, holding.owner)?;
    let range = range_words(alloc, holding, partner)?;
    draw_line_with(page, &who, &range, bar, holding, partner.is_some())
}

/// The rows of a bar.
fn draw_lines(alloc: Global, page: &mut Page, kind: Kind, bar: &Bar<'_>) -> Result<(), WantOfMemory>
    ensures elements { OnOk result (page.new.elements ≡ page.old.elements) }
    ensures marks { OnOk result (page.new.marks ≡ page.old.marks) }
{
    'lines: for holding in bar.holdings {
        if holding.res.kind == kind && is_told(bar, holding) {
            draw_line(alloc, page, bar, holding)?;
        }
    }
    Ok(())
}

/// The table of the blocks of a kind.
pub(crate) fn draw_legend(
    alloc: Global,
    page: &mut Page,
    kind: Kind,
    bars: &[Bar<'_>],
) -> Result<(), WantOfMemory>
    ensures elements { OnOk result (page.new.elements ≡ page.old.elements) }
    ensures marks { OnOk result (page.new.marks ≡ page.old.marks) }
{
    page.open(Tag::Table, &[(Attribute::Class, b"map-table")])?;
    page.open(Tag::Tbody, &[])?;
    'bars: for bar in bars {
        draw_lines(alloc, page, kind, bar)?;
    }
    page.close()?;
    page.close()
}
