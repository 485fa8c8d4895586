//! Numbers, ranks and lists as people read them.
ghost use Rattle.std.specs.Prelude.{◌≡◌, IfOk};
ghost use Rattle.std.specs.Fmt.{decimal};

use device_ids::{IdList, InstancePath, PathError, Text, TextList, WantOfMemory};
use devnode_tree::{Node, Tree};
use pnp_labels::{decimal, res_text};
use resource_reqs::{Res, Want};
use std::alloc::{AllocError, Global};

/// A number in decimal digits.
pub fn number(alloc: Global, n: u64) -> Result<Vec<u8>, WantOfMemory>
    ensures { IfOk result (λ digits. digits.items ≡ decimal n) }
{
    let digits = decimal(alloc, n)?;
    Vec::from_slice(alloc, digits.as_bytes())
}

/// A rank in eight hexadecimal digits.
pub fn rank_text(alloc: Global, rank: u32) -> Result<Vec<u8>, WantOfMemory> {
    let digits = format!(in alloc; "{rank:x}")?;
    let zeros = 8usize.saturating_sub(digits.len());
    let mut text = vec![in alloc; b'0'; zeros]?;
    text.extend_from_slice(digits.as_bytes())?;
    Ok(text)
}

/// Identifiers between commas; `none` where there is none.
pub fn ids_text(alloc: Global, ids: &IdList) -> Result<Vec<u8>, WantOfMemory> {
    let mut text = Vec::new(alloc);
    for at in 0..ids.len() {
        if at > 0 {
            text.extend_from_slice(b", ")?;
        }
        text.extend_from_slice(ids.get(at).bytes())?;
    }
    if text.is_empty() {
        text.extend_from_slice(b"none")?;
    }
    Ok(text)
}

/// What a want asks for, nearly as a script writes it.
pub fn want_text(alloc: Global, want: &Want) -> Result<Vec<u8>, WantOfMemory> {
    let Some(range) = Res::make(want.kind, want.min, want.max, want.shared) else {
        return Ok(Vec::new(alloc));
    };
    let mut text = res_text(alloc, &range)?;
    if want.len > 1 {
        text.extend_from_slice(b", ")?;
        text.extend_from_slice(&number(alloc, want.len)?)?;
        text.extend_from_slice(b" in a row")?;
    }
    Ok(text)
}

/// The node of a path, in any letters; none where the text is no path or the tree has none. Cost: a look-up. This project's own.
pub fn node_at<'a>(
    alloc: Global,
    tree: &'a Tree,
    path: &[u8],
) -> Result<Option<&'a Node>, WantOfMemory> {
    match InstancePath::read(alloc, path) {
        Ok(path) => match tree.find(&path) {
            Some(serial) => Ok(tree.node(serial)),
            None => Ok(None),
        },
        Err(PathError::WantOfMemory) => Err(AllocError),
        Err(_) => Ok(None),
    }
}

/// The node of a path that a label tells. Cost: a look-up. This project's own.
pub fn node_of<'a>(
    alloc: Global,
    tree: &'a Tree,
    path: &Text,
) -> Result<Option<&'a Node>, WantOfMemory> {
    node_at(alloc, tree, path.bytes())
}

/// A name between brackets is added to a text.
fn add_bracketed(text: &mut Vec<u8>, name: &Text) -> Result<(), WantOfMemory> {
    text.extend_from_slice(b" (")?;
    text.extend_from_slice(name.bytes())?;
    text.extend_from_slice(b")")
}

/// The number of an INF, counted from 1, and its name, are added to a text.
fn add_inf(
    alloc: Global,
    names: &TextList,
    inf: u64,
    text: &mut Vec<u8>,
) -> Result<(), WantOfMemory> {
    text.extend_from_slice(&number(alloc, inf.saturating_add(1))?)?;
    if inf < names.len() {
        add_bracketed(text, names.get(inf))?;
    }
    Ok(())
}

/// The number of an INF, counted from 1, and its name.
pub fn inf_text(alloc: Global, names: &TextList, inf: u64) -> Result<Vec<u8>, WantOfMemory> {
    let mut text = Vec::from_slice(alloc, b"INF ")?;
    add_inf(alloc, names, inf, &mut text)?;
    Ok(text)
}
