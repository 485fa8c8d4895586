ghost use Rattle.std.specs.Prelude.{◌≡◌, OnOk};

use crate::places::{Edge, STATES, VIEW, edge_of, line_of, place_of};
use crate::rows::{ROWS, Row};
use crate::shapes::{label, numbered, rect, stroke, worded};
use crate::used::Used;
use device_ids::WantOfMemory;
use pnp_labels::{DevState, minor_text, state_text};
use std::alloc::Global;
use view_page::{Attribute, Page, Tag};

/// The request of a row.
fn request_text(row: Row) -> &'static [u8] {
    match row.minor() {
        Some(minor) => minor_text(minor),
        None => b"AddDevice",
    }
}

/// Appends how often a row was used, if it was.
fn push_count(alloc: Global, words: &mut Vec<u8>, count: u64) -> Result<(), WantOfMemory> {
    if count > 9999 {
        words.extend_from_slice(b" x9999+")
    } else if count > 0 {
        words.extend_from_slice(&numbered(alloc, b" x", count)?)
    } else {
        Ok(())
    }
}

/// Appends the words of a row: its request, whether it was refused, and how often it was used.
fn push_words(
    alloc: Global,
    words: &mut Vec<u8>,
    row: Row,
    count: u64,
) -> Result<(), WantOfMemory> {
    words.extend_from_slice(request_text(row))?;
    if row.is_bad() {
        words.extend_from_slice(b" refused")?;
    }
    push_count(alloc, words, count)
}

/// A small arrow that turns back to where it began, before the words of a row that keeps a state.
fn loop_path(alloc: Global, x: u64, y: u64) -> Result<Vec<u8>, WantOfMemory> {
    let mut path = numbered(alloc, b"M", x)?;
    path.extend_from_slice(&numbered(alloc, b" ", y)?)?;
    path.extend_from_slice(b"a5 5 0 1 1 5-5m-4-1l4 1l1-4")?;
    Ok(path)
}

/// A row that leads to another state: a line with its words.
fn draw_edge(
    alloc: Global,
    page: &mut Page,
    edge: Edge,
    is_used: bool,
    words: &[u8],
) -> Result<(), WantOfMemory>
    ensures elements { OnOk result (page.new.elements ≡ page.old.elements) }
    ensures marks { OnOk result (page.new.marks ≡ page.old.marks) }
{
    let line_class: &[u8] = if is_used {
        b"row-line used"
    } else {
        b"row-line"
    };
    stroke(page, line_class, edge.path)?;
    let words_class: &[u8] = match (edge.is_before, is_used) {
        (true, true) => b"row-words before used",
        (true, false) => b"row-words before",
        (false, true) => b"row-words used",
        (false, false) => b"row-words",
    };
    label(alloc, page, words_class, edge.x, edge.y, words)
}

/// The arrow of a row that keeps a state.
fn draw_arrow(
    alloc: Global,
    page: &mut Page,
    class: &[u8],
    x: u64,
    y: u64,
) -> Result<(), WantOfMemory>
    ensures elements { OnOk result (page.new.elements ≡ page.old.elements) }
    ensures marks { OnOk result (page.new.marks ≡ page.old.marks) }
{
    let path = loop_path(alloc, x, y)?;
    stroke(page, class, &path)
}

/// A row that keeps a state: a line of words in the state's box.
fn draw_loop(
    alloc: Global,
    page: &mut Page,
    row: Row,
    is_used: bool,
    words: &[u8],
) -> Result<(), WantOfMemory>
    ensures elements { OnOk result (page.new.elements ≡ page.old.elements) }
    ensures marks { OnOk result (page.new.marks ≡ page.old.marks) }
{
    let arrow_class: &[u8] = if is_used {
        b"row-loop used"
    } else {
        b"row-loop"
    };
    let words_class: &[u8] = if is_used {
        b"row-words used"
    } else {
        b"row-words"
    };
    let place = place_of(row.from());
    let y = place
        .y
        .saturating_add(line_of(row).saturating_mul(20))
        .saturating_add(48);
    draw_arrow(alloc, page, arrow_class, place.x.saturating_add(20), y)?;
    let x = place.x.saturating_add(32);
    label(alloc, page, words_class, x, y, words)
}

/// A row: a line with its words, or a line of words in the box of the state that it keeps.
fn draw_row(alloc: Global, page: &mut Page, row: Row, count: u64) -> Result<(), WantOfMemory>
    ensures elements { OnOk result (page.new.elements ≡ page.old.elements) }
    ensures marks { OnOk result (page.new.marks ≡ page.old.marks) }
{
    let mut words = Vec::new(alloc);
    push_words(alloc, &mut words, row, count)?;
    match edge_of(row) {
        Some(edge) => draw_edge(alloc, page, edge, count > 0, &words),
        None => draw_loop(alloc, page, row, count > 0, &words),
    }
}

/// A state: a box with its name.
fn draw_state(
    alloc: Global,
    page: &mut Page,
    state: DevState,
    is_used: bool,
) -> Result<(), WantOfMemory>
    ensures elements { OnOk result (page.new.elements ≡ page.old.elements) }
    ensures marks { OnOk result (page.new.marks ≡ page.old.marks) }
{
    let place = place_of(state);
    let box_class: &[u8] = if is_used {
        b"state-box used"
    } else {
        b"state-box"
    };
    rect(alloc, page, box_class, place)?;
    let words_class: &[u8] = if is_used {
        b"state-words used"
    } else {
        b"state-words"
    };
    let x = place.x.saturating_add(12);
    label(
        alloc,
        page,
        words_class,
        x,
        place.y.saturating_add(24),
        state_text(state),
    )
}

/// Whether a row that was used leads from a state or to it.
fn is_passed(used: &Used, state: DevState) -> bool {
    ROWS.iter().any(|row| used.of(*row) > 0 && (row.from() == state || row.to() == state))
}

/// The states and the rows, those that were used bold and with how often.
fn draw_all(alloc: Global, page: &mut Page, used: &Used) -> Result<(), WantOfMemory>
    ensures elements { OnOk result (page.new.elements ≡ page.old.elements) }
    ensures marks { OnOk result (page.new.marks ≡ page.old.marks) }
{
    'states: for state in &STATES {
        draw_state(alloc, page, *state, is_passed(used, *state))?;
    }
    'rows: for row in &ROWS {
        draw_row(alloc, page, *row, used.of(*row))?;
    }
    Ok(())
}

/// Draws the state diagram with a title: all rows, and those that were used bold and with how often. Afterwards the same elements
/// are open and the marks are the same. Cost: constant, and the title.
pub fn state_diagram(
    alloc: Global,
    page: &mut Page,
    title: &[u8],
    used: &Used,
) -> Result<(), WantOfMemory>
    ensures elements { OnOk result (page.new.elements ≡ page.old.elements) }
    ensures marks { OnOk result (page.new.marks ≡ page.old.marks) }
{
    page.open(Tag::Figure, &[(Attribute::Class, b"drawing")])?;
    worded(page, Tag::Figcaption, b"drawing-title", title)?;
    page.open(
        Tag::Div,
        &[
            (Attribute::Class, b"drawing-scroll"),
            (Attribute::Tabindex, b"0"),
        ],
    )?;
    page.open(
        Tag::Svg,
        &[
            (Attribute::Class, b"state-diagram"),
            (Attribute::ViewBox, VIEW),
            (Attribute::Role, b"img"),
            (Attribute::AriaLabel, title),
        ],
    )?;
    draw_all(alloc, page, used)?;
    page.close()?;
    page.close()?;
    page.close()
}
