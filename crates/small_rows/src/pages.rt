//! A page with each sort of content.
ghost use Rattle.std.specs.Prelude.{◌≡◌, OnOk};

use rows_told::same;
use std::test::Fail;
use view_page::{Attribute, Empty, Page, Tag};

const PAGE: &[u8] =
    b"<!DOCTYPE html>\n<html lang=\"en\">\n<body><p class=\"a&quot;b\" id=\"x\">a &lt; b</p><br/><code>c &gt; d</code><path data-mark=\"one &amp; two\" d=\"M0 0\"/></body></html>\n";

/// Puts in each sort of content, and leaves open what was open.
fn put_content(page: &mut Page) -> Result<(), Fail>
    ensures { OnOk result (page.new.elements ≡ page.old.elements) }
{
    page.open(Tag::Body, &[])?;
    page.element(
        Tag::P,
        &[(Attribute::Class, b"a\"b"), (Attribute::Id, b"x")],
        b"a < b",
    )?;
    page.empty(Empty::Br, &[])?;
    page.marked(Tag::Code, &[], b"c > d")?;
    page.arrow(b"one & two", &[(Attribute::D, b"M0 0")])?;
    page.close()?;
    Ok(())
}

#[test]
fn a_page_is_written(rt: HostRuntime) -> Result<(), Fail> {
    let mut page = Page::new(rt.alloc())?;
    put_content(&mut page)?;
    same(&page.finish()?, PAGE)
}
