//! What stands before the rows.
ghost use Rattle.std.specs.Prelude.{◌≡◌, ◌∷◌, [], OnOk};

use crate::arrow;
use crate::style::style;
use device_ids::WantOfMemory;
use pnp_labels::Shown;
use view_page::{Attribute, Empty, Page, Tag};

/// What a page that is stepped through has in its head: what the browser may run, and the style of what it makes.
#[derive(Clone, Copy)]
pub struct Stepping<'a> {
    pub policy: &'a [u8],
    pub style: &'a [u8],
}

/// Says what the browser may run.
fn draw_policy(page: &mut Page, stepping: Option<Stepping<'_>>) -> Result<(), WantOfMemory>
    ensures elements { OnOk result (page.new.elements ≡ page.old.elements) }
    ensures marks { OnOk result (page.new.marks ≡ page.old.marks) }
{
    match stepping {
        Some(stepping) => page.empty(
            Empty::Meta,
            &[
                (Attribute::HttpEquiv, b"Content-Security-Policy"),
                (Attribute::Content, stepping.policy),
            ],
        ),
        None => Ok(()),
    }
}

/// The style of what is made where a page is stepped through.
fn style_of<'a>(stepping: Option<Stepping<'a>>) -> &'a [u8] {
    match stepping {
        Some(stepping) => stepping.style,
        None => b"",
    }
}

/// The style of the page, of what else it has, and of what is made where it is stepped through: no character of them is escaped.
fn draw_style(
    page: &mut Page,
    more: &[u8],
    stepping: Option<Stepping<'_>>,
) -> Result<(), WantOfMemory>
    ensures elements { OnOk result (page.new.elements ≡ page.old.elements) }
    ensures marks { OnOk result (page.new.marks ≡ page.old.marks) }
{
    page.open(Tag::Style, &[])?;
    page.words(style())?;
    page.words(more)?;
    page.words(style_of(stepping))?;
    page.close()
}

/// The head of the page.
fn head(
    page: &mut Page,
    title: &[u8],
    more: &[u8],
    stepping: Option<Stepping<'_>>,
) -> Result<(), WantOfMemory>
    ensures elements { OnOk result (page.new.elements ≡ page.old.elements) }
    ensures marks { OnOk result (page.new.marks ≡ page.old.marks) }
{
    page.open(Tag::Head, &[])?;
    page.empty(Empty::Meta, &[(Attribute::Charset, b"utf-8")])?;
    page.empty(
        Empty::Meta,
        &[
            (Attribute::Name, b"viewport"),
            (Attribute::Content, b"width=device-width, initial-scale=1"),
        ],
    )?;
    draw_policy(page, stepping)?;
    page.element(Tag::Title, &[], title)?;
    draw_style(page, more, stepping)?;
    page.close()
}

/// An arrow of the legend, with what it means.
fn sample(page: &mut Page, shown: Shown, meaning: &[u8]) -> Result<(), WantOfMemory>
    ensures elements { OnOk result (page.new.elements ≡ page.old.elements) }
    ensures marks { OnOk result (page.new.marks ≡ page.old.marks) }
{
    page.open(Tag::Li, &[])?;
    page.open(
        Tag::Svg,
        &[
            (Attribute::ViewBox, b"-48 0 60 24"),
            (Attribute::AriaHidden, b"true"),
        ],
    )?;
    page.empty(
        Empty::Path,
        &[
            (Attribute::Class, arrow::class_of(shown)),
            (Attribute::D, arrow::path_of(shown)),
        ],
    )?;
    page.close()?;
    page.element(Tag::Span, &[], meaning)?;
    page.close()
}

/// What the arrows mean.
fn legend(page: &mut Page) -> Result<(), WantOfMemory>
    ensures elements { OnOk result (page.new.elements ≡ page.old.elements) }
    ensures marks { OnOk result (page.new.marks ≡ page.old.marks) }
{
    page.open(Tag::Ul, &[(Attribute::Class, b"legend")])?;
    sample(page, Shown::Ok, b"succeeded")?;
    sample(page, Shown::Fail, b"failed")?;
    sample(page, Shown::Pend, b"pending")?;
    sample(page, Shown::Violation, b"failed where it must not")?;
    page.close()
}

/// The heading of the page.
fn heading(page: &mut Page, title: &[u8]) -> Result<(), WantOfMemory>
    ensures elements { OnOk result (page.new.elements ≡ page.old.elements) }
    ensures marks { OnOk result (page.new.marks ≡ page.old.marks) }
{
    page.open(Tag::Header, &[])?;
    page.element(Tag::H1, &[], title)?;
    page.element(
        Tag::P,
        &[],
        b"Each row is a line of the trace. An arrow goes from the manager to the driver that it asked. The page with #row-12 behind its name opens at row 12.",
    )?;
    legend(page)?;
    page.close()
}

/// Begins a page with its head, its heading, and the place of the rows. `more` is the style of what else the page has.
pub fn begin(
    page: &mut Page,
    title: &[u8],
    more: &[u8],
    stepping: Option<Stepping<'_>>,
) -> Result<(), WantOfMemory>
    requires { page.old.elements ≡ [] }
    ensures elements { OnOk result (page.new.elements ≡ Tag.Ol ∷ Tag.Div ∷ Tag.Section ∷ Tag.Body ∷ []) }
    ensures marks { OnOk result (page.new.marks ≡ page.old.marks) }
{
    head(page, title, more, stepping)?;
    page.open(Tag::Body, &[])?;
    heading(page, title)?;
    page.open(
        Tag::Section,
        &[(Attribute::Class, b"run"), (Attribute::Tabindex, b"0")],
    )?;
    page.open(Tag::Div, &[(Attribute::Class, b"grid")])?;
    page.open(Tag::Ol, &[])
}

/// Begins a page without rows.
pub fn begin_plain(page: &mut Page, title: &[u8]) -> Result<(), WantOfMemory>
    requires { page.old.elements ≡ [] }
    ensures elements { OnOk result (page.new.elements ≡ Tag.Body ∷ []) }
    ensures marks { OnOk result (page.new.marks ≡ page.old.marks) }
{
    head(page, title, b"", None)?;
    page.open(Tag::Body, &[])?;
    page.element(Tag::H1, &[], title)
}
