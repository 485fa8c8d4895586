//! A page as it is written.
ghost use Rattle.std.specs.Prelude.{◌≡◌, ◌++◌, ◌∷◌, [], List, IfOk, OnOk, OnErr, map};
ghost use Rattle.view_page.specs.Pages.{IsContent, IsPage, arrow_tag, close_tag, empty_tag, escaped, open_tag, page_end, page_front, text_element};
ghost use Rattle.view_page.specs.declared.words.Part.{Part as Parts};
ghost use Rattle.view_page.specs.declared.words.Tag.{Tag as Tags};

use crate::escape::{WantOfMemory, push_escaped};
use crate::tags::{arrow_tag, close_tag, empty_tag, open_tag, text_element};
use crate::words::{Attribute, Empty, Part, Tag};
use std::alloc::Global;
use std::marker::Model;

/// What stands on a page, and what it is marked by.
#[derive(Drop)]
struct Mark {
    part: Part,
    text: Vec<u8>,
}

/// A page as it is written. A contract sees the elements that are open in html, the newest first, the marks, in order,
/// and the bytes. This project's own.
#[derive(Drop)]
pub struct Page {
    alloc: Global,
    elements: Vec<Tag>,
    marks: Vec<Mark>,
    text: Vec<u8>,
}

impl Model for Page {
    ghost use Rattle.std.specs.Prelude.{map, reverse};
    ghost use Rattle.view_page.specs.Pages.{PageSoFar, IsOpen};

    ghost Value = { PageSoFar };

    ghost view = { λ p. record { elements = reverse p.elements.items; marks = map (λ m. (m.part, m.text.items)) p.marks.items; text = p.text.items } };

    ghost invariant = { λ p. IsOpen (reverse p.elements.items) (map (λ m. (m.part, m.text.items)) p.marks.items) p.text.items };
}

/// Appends a piece. After want of memory the text is as before.
fn append(text: &mut Vec<u8>, piece: &[u8]) -> Result<(), WantOfMemory>
    ensures items { OnOk result (text.new.items ≡ text.old.items ++ piece.now) }
    ensures err { OnErr result (text.new.items ≡ text.old.items) }
{
    text.extend_from_slice(piece)?;
    Ok(())
}

impl Page {
    /// A page with nothing in it: html is begun. Its language is English.
    pub fn new(alloc: Global) -> Result<Page, WantOfMemory>
        ensures elements { IfOk result (λ p. p.elements ≡ []) }
        ensures marks { IfOk result (λ p. p.marks ≡ []) }
        ensures text { IfOk result (λ p. p.text ≡ page_front) }
    {
        let text = Vec::from_slice(alloc, b"<!DOCTYPE html>\n<html lang=\"en\">\n")?;
        Ok(Page {
            alloc,
            elements: Vec::new(alloc),
            marks: Vec::new(alloc),
            text,
        })
    }

    /// Begins an element. Condition: no attribute stands twice, which nothing looks at. Cost: the length of what is written.
    pub fn open(&mut self, tag: Tag, attributes: &[(Attribute, &[u8])]) -> Result<(), WantOfMemory>
        ensures elements { OnOk result (self.new.elements ≡ tag ∷ self.old.elements) }
        ensures marks { OnOk result (self.new.marks ≡ self.old.marks) }
        ensures text { OnOk result (self.new.text ≡ self.old.text ++ open_tag tag (map (λ a. (a.0, a.1.now)) attributes.now)) }
        ensures err { OnErr result (self.new ≡ self.old) }
    {
        let piece = open_tag(self.alloc, tag, attributes)?;
        self.elements.push(tag)?;
        match self.text.extend_from_slice(&piece) {
            Ok(()) => Ok(()),
            Err(error) => {
                let _ = self.elements.pop();
                Err(error)
            }
        }
    }

    /// Ends the element that was begun last. Condition: one is open. Cost: the length of its name.
    pub fn close(&mut self) -> Result<(), WantOfMemory>
        requires { (tag : Tags) × (outer : List Tags) × (self.old.elements ≡ tag ∷ outer) }
        ensures elements { OnOk result ((tag : Tags) (outer : List Tags) → self.old.elements ≡ tag ∷ outer → self.new.elements ≡ outer) }
        ensures marks { OnOk result (self.new.marks ≡ self.old.marks) }
        ensures text { OnOk result ((tag : Tags) (outer : List Tags) → self.old.elements ≡ tag ∷ outer → self.new.text ≡ self.old.text ++ close_tag tag) }
        ensures err { OnErr result (self.new ≡ self.old) }
    {
        let tag = self.elements[self.elements.len() - 1];
        let piece = close_tag(self.alloc, tag)?;
        append(&mut self.text, &piece)?;
        let _ = self.elements.pop();
        Ok(())
    }

    /// Writes a text, escaped. Cost: its length.
    pub fn words(&mut self, words: &[u8]) -> Result<(), WantOfMemory>
        ensures elements { OnOk result (self.new.elements ≡ self.old.elements) }
        ensures marks { OnOk result (self.new.marks ≡ self.old.marks) }
        ensures text { OnOk result (self.new.text ≡ self.old.text ++ escaped words.now) }
        ensures err { OnErr result (self.new ≡ self.old) }
    {
        let mut piece = Vec::new(self.alloc);
        push_escaped(&mut piece, words)?;
        self.text.extend_from_slice(&piece)?;
        Ok(())
    }

    /// Writes an element without content. Condition: no attribute stands twice, which nothing looks at.
    pub fn empty(
        &mut self,
        name: Empty,
        attributes: &[(Attribute, &[u8])],
    ) -> Result<(), WantOfMemory>
        ensures elements { OnOk result (self.new.elements ≡ self.old.elements) }
        ensures marks { OnOk result (self.new.marks ≡ self.old.marks) }
        ensures text { OnOk result (self.new.text ≡ self.old.text ++ empty_tag name (map (λ a. (a.0, a.1.now)) attributes.now)) }
        ensures err { OnErr result (self.new ≡ self.old) }
    {
        let piece = empty_tag(self.alloc, name, attributes)?;
        self.text.extend_from_slice(&piece)?;
        Ok(())
    }

    /// Writes an arrow: an element path of SVG, which carries a mark. Condition: no attribute stands twice, which nothing looks at.
    pub fn arrow(
        &mut self,
        mark: &[u8],
        attributes: &[(Attribute, &[u8])],
    ) -> Result<(), WantOfMemory>
        ensures elements { OnOk result (self.new.elements ≡ self.old.elements) }
        ensures marks { OnOk result (self.new.marks ≡ self.old.marks ++ (Parts.Arrow, mark.now) ∷ []) }
        ensures text { OnOk result (self.new.text ≡ self.old.text ++ arrow_tag mark.now (map (λ a. (a.0, a.1.now)) attributes.now)) }
        ensures err { OnErr result (self.new ≡ self.old) }
    {
        let piece = arrow_tag(self.alloc, mark, attributes)?;
        self.push_marked(Part::Arrow, mark, &piece)
    }

    /// Writes an element that holds a text alone, and marks it by the text. Cost: its length.
    pub fn marked(
        &mut self,
        tag: Tag,
        attributes: &[(Attribute, &[u8])],
        words: &[u8],
    ) -> Result<(), WantOfMemory>
        ensures elements { OnOk result (self.new.elements ≡ self.old.elements) }
        ensures marks { OnOk result (self.new.marks ≡ self.old.marks ++ (Parts.Words tag, words.now) ∷ []) }
        ensures text { OnOk result (self.new.text ≡ self.old.text ++ text_element tag (map (λ a. (a.0, a.1.now)) attributes.now) words.now) }
        ensures err { OnErr result (self.new ≡ self.old) }
    {
        let piece = text_element(self.alloc, tag, attributes, words)?;
        self.push_marked(Part::Words(tag), words, &piece)
    }

    /// Appends a piece that has this mark.
    fn push_marked(&mut self, part: Part, text: &[u8], piece: &[u8]) -> Result<(), WantOfMemory>
        requires { IsContent ((part, text.now) ∷ []) piece.now }
        ensures elements { OnOk result (self.new.elements ≡ self.old.elements) }
        ensures marks { OnOk result (self.new.marks ≡ self.old.marks ++ (part, text.now) ∷ []) }
        ensures text { OnOk result (self.new.text ≡ self.old.text ++ piece.now) }
        ensures err { OnErr result (self.new ≡ self.old) }
    {
        let text = Vec::from_slice(self.alloc, text)?;
        self.marks.push(Mark { part, text })?;
        match self.text.extend_from_slice(piece) {
            Ok(()) => Ok(()),
            Err(error) => {
                let _ = self.marks.pop();
                Err(error)
            }
        }
    }

    /// The bytes of the page. Condition: no element in html is open.
    pub fn finish(self) -> Result<Vec<u8>, WantOfMemory>
        requires { self.elements ≡ [] }
        ensures page { IfOk result (λ bytes. IsPage self.marks bytes.items) }
        ensures text { IfOk result (λ bytes. bytes.items ≡ self.text ++ page_end) }
    {
        let mut text = self.text;
        text.extend_from_slice(b"</html>\n")?;
        Ok(text)
    }

    /// Writes an element with a text.
    pub fn element(
        &mut self,
        tag: Tag,
        attributes: &[(Attribute, &[u8])],
        words: &[u8],
    ) -> Result<(), WantOfMemory>
        ensures elements { OnOk result (self.new.elements ≡ self.old.elements) }
        ensures marks { OnOk result (self.new.marks ≡ self.old.marks) }
        ensures text { OnOk result (self.new.text ≡ self.old.text ++ open_tag tag (map (λ a. (a.0, a.1.now)) attributes.now) ++ escaped words.now ++ close_tag tag) }
    {
        self.open(tag, attributes)?;
        self.words(words)?;
        self.close()
    }
}
