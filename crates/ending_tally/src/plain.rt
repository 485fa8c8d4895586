//! An ending without what tells only the order of events.
ghost use Rattle.std.specs.Prelude.{◌≡◌, ◌≤◌, ◌++◌, [], ℕ, IfOk, OnOk, map, if◌then◌else◌};
ghost use Rattle.std.specs.Option.{option_map};
ghost use Rattle.ending_tally.specs.Plain.{begins_part, depth_of, node_of, parent_of, form_of, line_form, with_node, tree_forms, unless_empty, part_of, part_forms, part_form, with_heading, plain};
ghost use Rattle.ending_tally.specs.Nodes.{seen, above_of};

use crate::words::copied;
use device_ids::{WantOfMemory, cut, split_once};
use std::alloc::Global;

/// The lines that begin a part of an ending.
fn begins_part(line: &[u8]) -> bool
    ensures { result ≡ begins_part line.now }
{
    line == b"tree".as_slice()
        || line == b"map".as_slice()
        || line == b"outstanding".as_slice()
        || line == b"handles".as_slice()
}

/// How many blanks a line begins with.
fn depth_of(line: &[u8]) -> usize
    ensures { result ≡ depth_of line.now }
{
    for at in 0..line.len() {
        if line[at] != b' ' {
            return at;
        }
    }
    line.len()
}

/// The line of a node: how deep it stands, its path, and what else is said of it.
#[derive(Clone, Copy)]
struct Node<'a> {
    depth: usize,
    path: &'a [u8],
    rest: &'a [u8],
}

/// What a line says of a node; none where it has not three words.
fn node_of(line: &[u8]) -> Option<Node>
    ensures { option_map seen result ≡ node_of line.now }
{
    let depth = depth_of(line);
    let (_, said) = split_once(line.get(depth..)?, b' ')?;
    let (path, rest) = split_once(said, b' ')?;
    Some(Node { depth, path, rest })
}

/// The path of the parent of a node so deep, which is the last of these that is less deep. Those behind it are taken off: they are above no node
/// that comes behind this one.
fn parent_of<'a>(above: &mut Vec<Node<'a>>, depth: usize) -> Option<&'a [u8]>
    ensures parent { option_map (λ path. path.now) result ≡ parent_of depth (above_of above.old.items) }
    ensures others { (other : ℕ) → other ≤ depth → parent_of other (above_of above.new.items) ≡ parent_of other (above_of above.old.items) }
{
    'nodes: while let Some(node) = above.last().copied() {
        if node.depth < depth {
            return Some(node.path);
        }
        let _ = above.pop();
    }
    None
}

/// The plain form of a node: its path, what else is said of it, and the path of its parent, if it has one.
fn node_form(alloc: Global, node: Node, parent: Option<&[u8]>) -> Result<Vec<u8>, WantOfMemory>
    ensures { IfOk result (λ form. form.items ≡ form_of (seen node.entry) (option_map (λ path. path.now) parent.entry)) }
{
    let mut form = Vec::from_slice(alloc, node.path)?;
    form.push(b' ')?;
    form.extend_from_slice(node.rest)?;
    if let Some(parent) = parent {
        form.extend_from_slice(b" under ")?;
        form.extend_from_slice(parent)?;
    }
    Ok(form)
}

/// The plain form of a line of a tree, below these nodes, among which its node is put.
fn line_form<'a>(
    alloc: Global,
    above: &mut Vec<Node<'a>>,
    line: &'a [u8],
) -> Result<Vec<u8>, WantOfMemory>
    ensures form { IfOk result (λ form. form.items ≡ line_form (above_of above.old.items) line.now (node_of line.now)) }
    ensures above { OnOk result ((depth : ℕ) → parent_of depth (above_of above.new.items) ≡ parent_of depth (with_node (node_of line.now) (above_of above.old.items))) }
{
    match node_of(line) {
        None => Ok(Vec::from_slice(alloc, line)?),
        Some(node) => {
            let parent = parent_of(above, node.depth);
            let form = node_form(alloc, node, parent)?;
            above.push(node)?;
            Ok(form)
        }
    }
}

/// The plain forms of the lines of a tree.
fn tree_forms(alloc: Global, lines: &[&[u8]]) -> Result<Vec<Vec<u8>>, WantOfMemory>
    ensures { IfOk result (λ forms. map (λ form. form.items) forms.items ≡ tree_forms [] (map (λ line. line.now) lines.now)) }
{
    let mut forms = Vec::new(alloc);
    let mut above = Vec::new(alloc);
    for line in lines {
        let form = line_form(alloc, &mut above, *line)?;
        forms.push(form)?;
    }
    Ok(forms)
}

/// Takes a line, unless it is empty.
fn take_line<'a>(part: &mut Vec<&'a [u8]>, line: &'a [u8]) -> Result<(), WantOfMemory>
    ensures { OnOk result (map (λ line. line.now) part.new.items ≡ map (λ line. line.now) part.old.items ++ unless_empty line.now) }
{
    if line.is_empty() {
        return Ok(());
    }
    part.push(line)?;
    Ok(())
}

/// The lines of a part: those up to the next part, but for empty ones.
fn part_of<'a>(alloc: Global, lines: &[&'a [u8]]) -> Result<Vec<&'a [u8]>, WantOfMemory>
    ensures { IfOk result (λ part. map (λ line. line.now) part.items ≡ part_of (map (λ line. line.now) lines.now)) }
{
    let mut part = Vec::new(alloc);
    for line in lines {
        if begins_part(*line) {
            return Ok(part);
        }
        take_line(&mut part, *line)?;
    }
    Ok(part)
}

/// The plain forms of lines: of nodes, or of others, which are their own forms.
fn forms_of(alloc: Global, is_tree: bool, lines: &[&[u8]]) -> Result<Vec<Vec<u8>>, WantOfMemory>
    ensures { IfOk result (λ forms. map (λ form. form.items) forms.items ≡ (if is_tree then tree_forms [] (map (λ line. line.now) lines.now) else map (λ line. line.now) lines.now)) }
{
    if is_tree {
        tree_forms(alloc, lines)
    } else {
        copied(alloc, lines)
    }
}

/// The plain forms of the lines of a part, in order.
fn part_forms(alloc: Global, is_tree: bool, lines: &[&[u8]]) -> Result<Vec<Vec<u8>>, WantOfMemory>
    ensures { IfOk result (λ forms. map (λ form. form.items) forms.items ≡ part_forms is_tree (map (λ line. line.now) lines.now)) }
{
    let part = part_of(alloc, lines)?;
    let mut forms = forms_of(alloc, is_tree, &part)?;
    forms.sort()?;
    Ok(forms)
}

/// Appends the lines of a part in their plain form, each with its line feed.
fn push_part(
    alloc: Global,
    out: &mut Vec<u8>,
    is_tree: bool,
    lines: &[&[u8]],
) -> Result<(), WantOfMemory>
    ensures { OnOk result (out.new.items ≡ out.old.items ++ part_form is_tree (map (λ line. line.now) lines.now)) }
{
    let forms = part_forms(alloc, is_tree, lines)?;
    for form in &forms {
        out.extend_from_slice(form)?;
        out.push(b'\n')?;
    }
    Ok(())
}

/// Appends a line that begins a part, and the part in its plain form; nothing for any other line.
fn push_heading(
    alloc: Global,
    out: &mut Vec<u8>,
    line: &[u8],
    lines: &[&[u8]],
) -> Result<(), WantOfMemory>
    ensures { OnOk result (out.new.items ≡ out.old.items ++ with_heading line.now (map (λ line. line.now) lines.now)) }
{
    if !begins_part(line) {
        return Ok(());
    }
    out.extend_from_slice(line)?;
    out.push(b'\n')?;
    push_part(alloc, out, line == b"tree".as_slice(), lines)
}

/// The ending of an output in its plain form: a line of a device is its path, state and problem and the path of its parent, without its serial, and
/// the lines of each of the four parts are sorted. Two endings with one plain form have the same lines but for serials and order. Cost: the
/// length, times the logarithm of the lines. This project's own.
pub fn plain_ending(alloc: Global, text: &[u8]) -> Result<Vec<u8>, WantOfMemory>
    ensures { IfOk result (λ form. form.items ≡ plain text.now) }
{
    let mut out = Vec::new(alloc);
    let lines = cut(alloc, text, b'\n')?;
    push_part(alloc, &mut out, false, &lines)?;
    for at in 0..lines.len() {
        push_heading(alloc, &mut out, lines[at], &lines[at + 1..])?;
    }
    Ok(out)
}
