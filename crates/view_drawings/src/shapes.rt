ghost use Rattle.std.specs.Prelude.{◌≡◌, OnOk};

use device_ids::WantOfMemory;
use pnp_labels::decimal;
use std::alloc::Global;
use view_page::{Attribute, Empty, Page, Tag};

/// Where a box stands, and its size, in units of the drawing.
#[derive(Clone, Copy)]
pub(crate) struct Place {
    pub(crate) x: u64,
    pub(crate) y: u64,
    pub(crate) width: u64,
    pub(crate) height: u64,
}

/// A box with round corners, by the texts of its numbers.
fn rect_by<'a>(
    page: &mut Page,
    class: &'a [u8],
    x: &'a [u8],
    y: &'a [u8],
    width: &'a [u8],
    height: &'a [u8],
) -> Result<(), WantOfMemory>
    ensures elements { OnOk result (page.new.elements ≡ page.old.elements) }
    ensures marks { OnOk result (page.new.marks ≡ page.old.marks) }
{
    page.empty(
        Empty::Rect,
        &[
            (Attribute::Class, class),
            (Attribute::X, x),
            (Attribute::Y, y),
            (Attribute::Width, width),
            (Attribute::Height, height),
            (Attribute::Rx, b"4"),
        ],
    )
}

/// A box with round corners, by the texts of its place.
fn rect_at(
    alloc: Global,
    page: &mut Page,
    class: &[u8],
    x: &[u8],
    y: &[u8],
    place: Place,
) -> Result<(), WantOfMemory>
    ensures elements { OnOk result (page.new.elements ≡ page.old.elements) }
    ensures marks { OnOk result (page.new.marks ≡ page.old.marks) }
{
    let width = decimal(alloc, place.width)?;
    let height = decimal(alloc, place.height)?;
    rect_by(page, class, x, y, width.as_bytes(), height.as_bytes())
}

/// A box with round corners.
pub(crate) fn rect(
    alloc: Global,
    page: &mut Page,
    class: &[u8],
    place: Place,
) -> Result<(), WantOfMemory>
    ensures elements { OnOk result (page.new.elements ≡ page.old.elements) }
    ensures marks { OnOk result (page.new.marks ≡ page.old.marks) }
{
    let x = decimal(alloc, place.x)?;
    let y = decimal(alloc, place.y)?;
    rect_at(alloc, page, class, x.as_bytes(), y.as_bytes(), place)
}

/// Words whose first line stands at a point.
pub(crate) fn label(
    alloc: Global,
    page: &mut Page,
    class: &[u8],
    x: u64,
    y: u64,
    words: &[u8],
) -> Result<(), WantOfMemory>
    ensures elements { OnOk result (page.new.elements ≡ page.old.elements) }
    ensures marks { OnOk result (page.new.marks ≡ page.old.marks) }
{
    let x = decimal(alloc, x)?;
    let y = decimal(alloc, y)?;
    page.element(
        Tag::Text,
        &[
            (Attribute::Class, class),
            (Attribute::X, x.as_bytes()),
            (Attribute::Y, y.as_bytes()),
        ],
        words,
    )
}

/// A line along a path.
pub(crate) fn stroke(page: &mut Page, class: &[u8], path: &[u8]) -> Result<(), WantOfMemory>
    ensures elements { OnOk result (page.new.elements ≡ page.old.elements) }
    ensures marks { OnOk result (page.new.marks ≡ page.old.marks) }
{
    page.empty(
        Empty::Path,
        &[(Attribute::Class, class), (Attribute::D, path)],
    )
}

/// Words in an element of a class.
pub(crate) fn worded(
    page: &mut Page,
    tag: Tag,
    class: &[u8],
    words: &[u8],
) -> Result<(), WantOfMemory>
    ensures elements { OnOk result (page.new.elements ≡ page.old.elements) }
    ensures marks { OnOk result (page.new.marks ≡ page.old.marks) }
{
    page.element(tag, &[(Attribute::Class, class)], words)
}

/// The text of a number, behind other text.
pub(crate) fn numbered(alloc: Global, text: &[u8], number: u64) -> Result<Vec<u8>, WantOfMemory> {
    let digits = decimal(alloc, number)?;
    let mut all = Vec::from_slice(alloc, text)?;
    all.extend_from_slice(digits.as_bytes())?;
    Ok(all)
}
