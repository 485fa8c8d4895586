//! How the line of a row is written: with what it says in words, which the browser shows beside it.
ghost use Rattle.std.specs.Prelude.{◌≡◌, ◌⊎◌, ◌++◌, ◌∷◌, [], OnOk, true};
ghost use Rattle.label_words.specs.Words.{is_wrong, label_words};
ghost use Rattle.view_page.specs.Pages.{text_element};
ghost use Rattle.view_page.specs.declared.words.Attribute.{Attribute as Attributes};
ghost use Rattle.view_page.specs.declared.words.Part.{Part};
ghost use Rattle.view_page.specs.declared.words.Tag.{Tag as Tags};
ghost use Rattle.view_trace.specs.Rows.{class_within};

use device_ids::WantOfMemory;
use label_words::{is_wrong, label_words};
use pnp_labels::Label;
use view_page::{Attribute, Page, Tag};

/// Writes a line, and what it says in words.
fn draw_worded(
    page: &mut Page,
    label: &Label,
    line: &[u8],
    is_within: bool,
) -> Result<(), WantOfMemory>
    ensures elements { OnOk result (page.new.elements ≡ page.old.elements) }
    ensures marks { OnOk result (page.new.marks ≡ page.old.marks ++ (Part.Words Tags.Code, line.now) ∷ []) }
    ensures text { OnOk result (page.new.text ≡ page.old.text ++ text_element Tags.Code (class_within is_within ++ (Attributes.Title, label_words label.now) ∷ []) line.now) }
{
    let words = label_words(label);
    if is_within {
        page.marked(
            Tag::Code,
            &[(Attribute::Class, b"within"), (Attribute::Title, words)],
            line,
        )
    } else {
        page.marked(Tag::Code, &[(Attribute::Title, words)], line)
    }
}

/// Writes a line alone.
fn draw_plain(page: &mut Page, line: &[u8], is_within: bool) -> Result<(), WantOfMemory>
    ensures elements { OnOk result (page.new.elements ≡ page.old.elements) }
    ensures marks { OnOk result (page.new.marks ≡ page.old.marks ++ (Part.Words Tags.Code, line.now) ∷ []) }
{
    if is_within {
        page.marked(Tag::Code, &[(Attribute::Class, b"within")], line)
    } else {
        page.marked(Tag::Code, &[], line)
    }
}

/// Writes a line, and what it says in words, where all lines so far have them or it tells that something went wrong.
pub fn draw_code(
    page: &mut Page,
    label: &Label,
    line: &[u8],
    is_within: bool,
    are_worded: bool,
) -> Result<(), WantOfMemory>
    ensures elements { OnOk result (page.new.elements ≡ page.old.elements) }
    ensures marks { OnOk result (page.new.marks ≡ page.old.marks ++ (Part.Words Tags.Code, line.now) ∷ []) }
    ensures words { (are_worded ≡ true) ⊎ (is_wrong label.now ≡ true) → OnOk result (page.new.text ≡ page.old.text ++ text_element Tags.Code (class_within is_within ++ (Attributes.Title, label_words label.now) ∷ []) line.now) }
{
    if are_worded || is_wrong(label) {
        draw_worded(page, label, line, is_within)
    } else {
        draw_plain(page, line, is_within)
    }
}
