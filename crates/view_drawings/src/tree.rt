ghost use Rattle.std.specs.Prelude.{◌≡◌, ◌∷◌, OnOk};

use crate::names::DriverNames;
use crate::shapes::{numbered, worded};
use device_ids::WantOfMemory;
use devnode_tree::{Node, PrintRow, Tree};
use label_words::problem_words;
use pnp_labels::{Problem, Stack, problem_text, res_text, state_text};
use resource_reqs::ResList;
use std::alloc::Global;
use view_page::{Attribute, Page, Tag};

/// The drivers of a device in one line, the lowest first.
fn driver_line(alloc: Global, stack: &Stack, names: &DriverNames) -> Result<Vec<u8>, WantOfMemory> {
    let mut line = Vec::from_slice(alloc, b"drivers: ")?;
    'drivers: for at in 0..stack.len() {
        if at > 0 {
            line.extend_from_slice(b", ")?;
        }
        let number = *stack.get(at);
        match names.of(number) {
            Some(name) => line.extend_from_slice(name.bytes())?,
            None => line.extend_from_slice(&numbered(alloc, b"driver ", number as u64)?)?,
        }
    }
    Ok(line)
}

/// What a device holds, each resource by itself.
fn draw_holdings(alloc: Global, page: &mut Page, held: &ResList) -> Result<(), WantOfMemory>
    ensures elements { OnOk result (page.new.elements ≡ page.old.elements) }
    ensures marks { OnOk result (page.new.marks ≡ page.old.marks) }
{
    'held: for at in 0..held.len() {
        let text = res_text(alloc, held.get(at))?;
        page.element(Tag::Code, &[], &text)?;
    }
    Ok(())
}

/// Its number.
fn draw_number(alloc: Global, page: &mut Page, serial: u64) -> Result<(), WantOfMemory>
    ensures elements { OnOk result (page.new.elements ≡ page.old.elements) }
    ensures marks { OnOk result (page.new.marks ≡ page.old.marks) }
{
    let number = numbered(alloc, b"#", serial)?;
    page.element(Tag::Span, &[], &number)
}

/// Its problem, in words too.
fn draw_problem(alloc: Global, page: &mut Page, problem: Problem) -> Result<(), WantOfMemory>
    ensures elements { OnOk result (page.new.elements ≡ page.old.elements) }
    ensures marks { OnOk result (page.new.marks ≡ page.old.marks) }
{
    let mut text = Vec::from_slice(alloc, b"problem ")?;
    text.extend_from_slice(problem_text(problem))?;
    text.extend_from_slice(b": ")?;
    text.extend_from_slice(problem_words(problem))?;
    worded(page, Tag::Span, b"tree-problem", &text)
}

/// Its number, path, state and problem.
fn draw_head(alloc: Global, page: &mut Page, node: &Node) -> Result<(), WantOfMemory>
    ensures elements { OnOk result (page.new.elements ≡ page.old.elements) }
    ensures marks { OnOk result (page.new.marks ≡ page.old.marks) }
{
    draw_number(alloc, page, node.serial)?;
    page.element(Tag::B, &[], node.path.bytes())?;
    page.element(Tag::Em, &[], state_text(node.state))?;
    match node.problem {
        Some(problem) => draw_problem(alloc, page, problem),
        None => Ok(()),
    }
}

/// Its drivers, if it has any.
fn draw_drivers(
    alloc: Global,
    page: &mut Page,
    stack: &Stack,
    names: &DriverNames,
) -> Result<(), WantOfMemory>
    ensures elements { OnOk result (page.new.elements ≡ page.old.elements) }
    ensures marks { OnOk result (page.new.marks ≡ page.old.marks) }
{
    if stack.len() == 0 {
        return Ok(());
    }
    let line = driver_line(alloc, stack, names)?;
    page.element(Tag::Div, &[], &line)
}

/// Begins the line of a device, so many levels below the root.
fn open_node(alloc: Global, page: &mut Page, depth: u64) -> Result<(), WantOfMemory>
    ensures elements { OnOk result (page.new.elements ≡ Tag.Li ∷ page.old.elements) }
    ensures marks { OnOk result (page.new.marks ≡ page.old.marks) }
{
    let style = numbered(alloc, b"--depth:", depth)?;
    page.open(Tag::Li, &[(Attribute::Style, style.as_slice())])
}

/// A device as a line of the tree, so many levels below the root.
fn draw_node(
    alloc: Global,
    page: &mut Page,
    depth: u64,
    node: &Node,
    names: &DriverNames,
) -> Result<(), WantOfMemory>
    ensures elements { OnOk result (page.new.elements ≡ page.old.elements) }
    ensures marks { OnOk result (page.new.marks ≡ page.old.marks) }
{
    open_node(alloc, page, depth)?;
    draw_head(alloc, page, node)?;
    draw_drivers(alloc, page, &node.stack, names)?;
    draw_holdings(alloc, page, &node.holds)?;
    page.close()
}

/// The devices, in the order in which they are printed.
fn draw_nodes(
    alloc: Global,
    page: &mut Page,
    rows: &[PrintRow],
    tree: &Tree,
    names: &DriverNames,
) -> Result<(), WantOfMemory>
    ensures elements { OnOk result (page.new.elements ≡ page.old.elements) }
    ensures marks { OnOk result (page.new.marks ≡ page.old.marks) }
{
    'rows: for row in rows {
        if let Some(node) = tree.node(row.serial) {
            draw_node(alloc, page, row.depth, node, names)?;
        }
    }
    Ok(())
}

/// The drawing with its title, by the rows of the tree.
fn draw_tree(
    alloc: Global,
    page: &mut Page,
    title: &[u8],
    rows: &[PrintRow],
    tree: &Tree,
    names: &DriverNames,
) -> Result<(), WantOfMemory>
    ensures elements { OnOk result (page.new.elements ≡ page.old.elements) }
    ensures marks { OnOk result (page.new.marks ≡ page.old.marks) }
{
    page.open(Tag::Figure, &[(Attribute::Class, b"drawing")])?;
    worded(page, Tag::Figcaption, b"drawing-title", title)?;
    page.open(Tag::Ul, &[(Attribute::Class, b"device-tree")])?;
    draw_nodes(alloc, page, rows, tree, names)?;
    page.close()?;
    page.close()
}

/// Draws the device tree with a title: for each device its number, path, state, problem, drivers (the lowest first) and what it
/// holds, indented below its parent. Afterwards the same elements are open and the marks are the same. Cost: the number of nodes
/// times its logarithm, and what is written.
pub fn device_tree(
    alloc: Global,
    page: &mut Page,
    title: &[u8],
    tree: &Tree,
    names: &DriverNames,
) -> Result<(), WantOfMemory>
    ensures elements { OnOk result (page.new.elements ≡ page.old.elements) }
    ensures marks { OnOk result (page.new.marks ≡ page.old.marks) }
{
    let rows = tree.print_rows(alloc)?;
    draw_tree(alloc, page, title, &rows, tree, names)
}
