//! How an arrow looks, and that it is drawn. Where it ends is its origin; its line begins far to the left, and the style cuts it off at
//! the manager's lane.
ghost use Rattle.std.specs.Prelude.{◌≡◌, ◌++◌, ◌∷◌, [], OnOk};
ghost use Rattle.view_page.specs.declared.words.Part.{Part};

use device_ids::WantOfMemory;
use pnp_labels::Shown;
use std::alloc::Global;
use view_page::{Attribute, Empty, Page, Tag};

/// The line of an arrow from the manager's lane to another: a head for a success, a cross for a failure, a ring for what is pending, a
/// cross in a box for a failure that must not be.
pub fn path_of(shown: Shown) -> &'static [u8] {
    match shown {
        Shown::Ok => b"M-9999 12H0m-9-5l9 5l-9 5",
        Shown::Fail => b"M-9999 12H0m-6-6l12 12m0-12l-12 12",
        Shown::Pend => b"M-9999 12H-7a7 7 0 1 1 14 0a7 7 0 1 1-14 0",
        Shown::Violation => b"M-9999 12H-7m0-7h14v14h-14zl14 14m0-14l-14 14",
    }
}

/// The class of an arrow.
pub fn class_of(shown: Shown) -> &'static [u8] {
    match shown {
        Shown::Ok => b"ok",
        Shown::Fail => b"fail",
        Shown::Pend => b"pend",
        Shown::Violation => b"violation",
    }
}

/// Begins the drawing of what ends in a lane.
fn open_at(alloc: Global, page: &mut Page, lane: u64) -> Result<(), WantOfMemory>
    ensures elements { OnOk result (page.new.elements ≡ Tag.Svg ∷ page.old.elements) }
    ensures marks { OnOk result (page.new.marks ≡ page.old.marks) }
{
    let place = format!(in alloc; "--k:{lane}")?;
    page.open(
        Tag::Svg,
        &[
            (Attribute::AriaHidden, b"true"),
            (Attribute::Style, place.as_bytes()),
        ],
    )
}

/// Draws what ends in a lane, with its line of the trace as its mark.
fn draw_marked(
    alloc: Global,
    page: &mut Page,
    line: &[u8],
    lane: u64,
    class: &[u8],
    path: &[u8],
) -> Result<(), WantOfMemory>
    ensures elements { OnOk result (page.new.elements ≡ page.old.elements) }
    ensures marks { OnOk result (page.new.marks ≡ page.old.marks ++ (Part.Arrow, line.now) ∷ []) }
{
    open_at(alloc, page, lane)?;
    page.arrow(line, &[(Attribute::Class, class), (Attribute::D, path)])?;
    page.close()
}

/// Draws the arrow of an ask, with its line of the trace as its mark.
pub fn draw_ask(
    alloc: Global,
    page: &mut Page,
    line: &[u8],
    lane: u64,
    shown: Shown,
) -> Result<(), WantOfMemory>
    ensures elements { OnOk result (page.new.elements ≡ page.old.elements) }
    ensures marks { OnOk result (page.new.marks ≡ page.old.marks ++ (Part.Arrow, line.now) ∷ []) }
{
    draw_marked(alloc, page, line, lane, class_of(shown), path_of(shown))
}

/// Draws a line that is no arrow of an ask.
fn draw_path(
    alloc: Global,
    page: &mut Page,
    lane: u64,
    class: &[u8],
    path: &[u8],
) -> Result<(), WantOfMemory>
    ensures elements { OnOk result (page.new.elements ≡ page.old.elements) }
    ensures marks { OnOk result (page.new.marks ≡ page.old.marks) }
{
    open_at(alloc, page, lane)?;
    page.empty(
        Empty::Path,
        &[(Attribute::Class, class), (Attribute::D, path)],
    )?;
    page.close()
}

/// Draws what a client is told: a head where it is told alone or agrees, a cross where it refuses.
pub fn draw_notice(
    alloc: Global,
    page: &mut Page,
    lane: u64,
    agrees: Option<bool>,
) -> Result<(), WantOfMemory>
    ensures elements { OnOk result (page.new.elements ≡ page.old.elements) }
    ensures marks { OnOk result (page.new.marks ≡ page.old.marks) }
{
    let (class, shown): (&[u8], Shown) = match agrees {
        None => (b"told", Shown::Ok),
        Some(true) => (b"ok", Shown::Ok),
        Some(false) => (b"fail", Shown::Fail),
    };
    draw_path(alloc, page, lane, class, path_of(shown))
}

/// Draws the end of what was pended: a line from the driver's lane, which has its line of the trace as its mark, with its head at the
/// manager's.
pub fn draw_end(
    alloc: Global,
    page: &mut Page,
    line: &[u8],
    lane: u64,
    shown: Shown,
) -> Result<(), WantOfMemory>
    ensures elements { OnOk result (page.new.elements ≡ page.old.elements) }
    ensures marks { OnOk result (page.new.marks ≡ page.old.marks ++ (Part.Arrow, line.now) ∷ []) }
{
    draw_marked(
        alloc,
        page,
        line,
        lane,
        class_of(shown),
        b"M-9999 12H0m0-5v10",
    )?;
    draw_path(alloc, page, 0, class_of(shown), b"M9 7l-9 5l9 5")
}
