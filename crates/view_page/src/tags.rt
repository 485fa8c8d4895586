//! Tags with their attributes.
ghost use Rattle.std.specs.Prelude.{◌≡◌, ◌++◌, IfOk, OnOk, map};
ghost use Rattle.view_page.specs.Pages.{arrow_tag, attribute, attributes_text, close_tag, empty_tag, open_tag, text_element, valued};

use crate::escape::{WantOfMemory, push_escaped};
use crate::words::{Attribute, Empty, Tag, attribute_front, attribute_text, empty_text, tag_text};
use std::alloc::Global;

/// Appends a name with its value in quotation marks.
fn push_valued(text: &mut Vec<u8>, name: &[u8], value: &[u8]) -> Result<(), WantOfMemory>
    ensures { OnOk result (text.new.items ≡ text.old.items ++ valued name.now value.now) }
{
    text.push(b' ')?;
    text.extend_from_slice(name)?;
    text.extend_from_slice(b"=\"")?;
    push_escaped(text, value)?;
    text.push(b'"')?;
    Ok(())
}

/// Appends an attribute with its value.
fn push_attribute(text: &mut Vec<u8>, name: Attribute, value: &[u8]) -> Result<(), WantOfMemory>
    ensures { OnOk result (text.new.items ≡ text.old.items ++ attribute (name, value.now)) }
{
    text.push(b' ')?;
    text.extend_from_slice(attribute_text(name))?;
    text.extend_from_slice(b"=\"")?;
    text.extend_from_slice(attribute_front(name))?;
    push_escaped(text, value)?;
    text.push(b'"')?;
    Ok(())
}

/// Appends names with their values.
fn push_attributes(
    text: &mut Vec<u8>,
    attributes: &[(Attribute, &[u8])],
) -> Result<(), WantOfMemory>
    ensures { OnOk result (text.new.items ≡ text.old.items ++ attributes_text (map (λ a. (a.0, a.1.now)) attributes.now)) }
{
    for attribute in attributes {
        push_attribute(text, attribute.0, attribute.1)?;
    }
    Ok(())
}

/// The tag that begins an element.
pub fn open_tag(
    alloc: Global,
    tag: Tag,
    attributes: &[(Attribute, &[u8])],
) -> Result<Vec<u8>, WantOfMemory>
    ensures { IfOk result (λ text. text.items ≡ open_tag tag (map (λ a. (a.0, a.1.now)) attributes.now)) }
{
    let mut text = Vec::from_slice(alloc, b"<")?;
    text.extend_from_slice(tag_text(tag))?;
    push_attributes(&mut text, attributes)?;
    text.push(b'>')?;
    Ok(text)
}

/// The tag that ends an element.
pub fn close_tag(alloc: Global, tag: Tag) -> Result<Vec<u8>, WantOfMemory>
    ensures { IfOk result (λ text. text.items ≡ close_tag tag) }
{
    let mut text = Vec::from_slice(alloc, b"</")?;
    text.extend_from_slice(tag_text(tag))?;
    text.push(b'>')?;
    Ok(text)
}

/// The tag of an element without content.
pub fn empty_tag(
    alloc: Global,
    name: Empty,
    attributes: &[(Attribute, &[u8])],
) -> Result<Vec<u8>, WantOfMemory>
    ensures { IfOk result (λ text. text.items ≡ empty_tag name (map (λ a. (a.0, a.1.now)) attributes.now)) }
{
    let mut text = Vec::from_slice(alloc, b"<")?;
    text.extend_from_slice(empty_text(name))?;
    push_attributes(&mut text, attributes)?;
    text.extend_from_slice(b"/>")?;
    Ok(text)
}

/// The tag of an arrow.
pub fn arrow_tag(
    alloc: Global,
    mark: &[u8],
    attributes: &[(Attribute, &[u8])],
) -> Result<Vec<u8>, WantOfMemory>
    ensures { IfOk result (λ text. text.items ≡ arrow_tag mark.now (map (λ a. (a.0, a.1.now)) attributes.now)) }
{
    let mut text = Vec::from_slice(alloc, b"<path")?;
    push_valued(&mut text, b"data-mark", mark)?;
    push_attributes(&mut text, attributes)?;
    text.extend_from_slice(b"/>")?;
    Ok(text)
}

/// An element that holds a text alone.
pub fn text_element(
    alloc: Global,
    tag: Tag,
    attributes: &[(Attribute, &[u8])],
    words: &[u8],
) -> Result<Vec<u8>, WantOfMemory>
    ensures { IfOk result (λ text. text.items ≡ text_element tag (map (λ a. (a.0, a.1.now)) attributes.now) words.now) }
{
    let mut text = open_tag(alloc, tag, attributes)?;
    push_escaped(&mut text, words)?;
    let end = close_tag(alloc, tag)?;
    text.extend_from_slice(&end)?;
    Ok(text)
}
