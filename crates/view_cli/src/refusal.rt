//! The page for an INF that is refused.
ghost use Rattle.std.specs.Prelude.{◌≡◌, ◌++◌, ◌∷◌, [], IfOk, OnOk};
ghost use Rattle.view_page.specs.Pages.{IsPage};
ghost use Rattle.view_page.specs.declared.words.Part.{Part};
ghost use Rattle.view_page.specs.declared.words.Tag.{Tag as Tags};
ghost use Rattle.pnp_cli.specs.Infs.{refusal_line};
ghost use Rattle.pnp_cli.specs.declared.status.Status.{Status};

use crate::viewed::{Viewed, finished};
use device_ids::{TextList, WantOfMemory};
use inf_reader::InfError;
use pnp_cli::{Status, refusal_line};
use std::alloc::Global;
use view_page::{Attribute, Page, Tag};
use view_trace::begin_plain;

/// The name of the INF of this number, counted from 1.
fn draw_name(number: u64, names: &TextList, page: &mut Page) -> Result<(), WantOfMemory>
    ensures elements { OnOk result (page.new.elements ≡ page.old.elements) }
    ensures marks { OnOk result (page.new.marks ≡ page.old.marks) }
{
    if 0 < number && number <= names.len() {
        page.element(Tag::P, &[], names.get(number - 1).bytes())?;
    }
    Ok(())
}

/// Says that an INF is refused.
fn draw_refusal(
    alloc: Global,
    title: &[u8],
    number: u64,
    error: InfError,
    names: &TextList,
    page: &mut Page,
) -> Result<(), WantOfMemory>
    requires { page.old.elements ≡ [] }
    ensures elements { OnOk result (page.new.elements ≡ []) }
    ensures marks { OnOk result (page.new.marks ≡ page.old.marks ++ (Part.Words Tags.P, refusal_line number error) ∷ []) }
{
    let line = refusal_line(alloc, number, error)?;
    begin_plain(page, title)?;
    draw_name(number, names, page)?;
    page.marked(Tag::P, &[(Attribute::Class, b"bad")], &line)?;
    page.close()
}

/// The page for a refused INF, and the answer. It has the line that tells of it, and no arrow.
pub fn page_refusal(
    alloc: Global,
    title: &[u8],
    number: u64,
    error: InfError,
    names: &TextList,
) -> Result<Viewed, WantOfMemory>
    ensures page { IfOk result (λ v. IsPage ((Part.Words Tags.P, refusal_line number error) ∷ []) v.text.items) }
    ensures answer { IfOk result (λ v. v.status ≡ Status.BadInf) }
{
    let mut page = Page::new(alloc)?;
    match draw_refusal(alloc, title, number, error, names, &mut page) {
        Ok(()) => finished(page, Status::BadInf),
        Err(error) => Err(error),
    }
}
