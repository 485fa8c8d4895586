//! How a text changes into another: lines stay, go and come.
ghost use Rattle.std.specs.Prelude.{◌≡◌, ◌≤◌, ◌++◌, ◌∷◌, [], List, IfOk, IfSome, OnOk, length, take};
ghost use Rattle.view_states.specs.States.{Edit, IsEdited, IsNext, edit_text};

use device_ids::WantOfMemory;
use pnp_labels::push_decimal;

/// After so many places where a text changes, all that is left of it is replaced.
const MOST_EDITS: usize = 4096;

/// A line is sought among so many.
const MOST_SOUGHT: usize = 256;

/// What changes at a place: so many bytes go, and so many come.
#[derive(Clone, Copy)]
struct Change {
    go: usize,
    come: usize,
}

/// How many bytes the whole lines have with which both texts begin.
fn same_front(old: &[u8], new: &[u8]) -> usize
    ensures old { result ≤ length old.now }
    ensures new { result ≤ length new.now }
    ensures same { take result old.now ≡ take result new.now }
{
    let mut whole = 0;
    let mut at = 0;
    while at < old.len() && at < new.len() && old[at] == new[at] {
        at += 1;
        if old[at - 1] == b'\n' {
            whole = at;
        }
    }
    whole
}

/// How many bytes the first line of a text has, with its line feed.
fn line_length(text: &[u8]) -> usize
    ensures { result ≤ length text.now }
{
    for at in 0..text.len() {
        if text[at] == b'\n' {
            return at + 1;
        }
    }
    text.len()
}

/// Where among the first lines of a text this one begins.
fn place_of(line: &[u8], text: &[u8]) -> Option<usize>
    ensures { IfSome result (λ at. at ≤ length text.now) }
{
    let mut at = 0;
    for _ in 0..MOST_SOUGHT {
        let (_, rest) = text.split_at(at);
        let length = line_length(rest);
        let (first, _) = rest.split_at(length);
        if first == line {
            return Some(at);
        }
        at += length;
    }
    None
}

/// What changes between two texts that begin with different lines: lines go, or come, up to one that both have; else the first one
/// changes.
fn change_of(old: &[u8], new: &[u8]) -> Change
    ensures go { result.go ≤ length old.now }
    ensures come { result.come ≤ length new.now }
{
    let first = line_length(old);
    let (old_line, _) = old.split_at(first);
    let (new_line, _) = new.split_at(line_length(new));
    if let Some(come) = place_of(old_line, new) {
        return Change { go: 0, come };
    }
    if let Some(go) = place_of(new_line, old) {
        return Change { go, come: 0 };
    }
    Change {
        go: first,
        come: new_line.len(),
    }
}

/// Appends an edit.
fn push_edit(out: &mut Vec<u8>, stay: usize, go: usize, come: &[u8]) -> Result<(), WantOfMemory>
    ensures { OnOk result (out.new.items ≡ out.old.items ++ edit_text (record { stay = stay; go = go; come = come.now })) }
{
    push_decimal(out, stay as u64)?;
    out.push(b' ')?;
    push_decimal(out, go as u64)?;
    out.push(b' ')?;
    push_decimal(out, come.len() as u64)?;
    out.push(b' ')?;
    out.extend_from_slice(come)?;
    Ok(())
}

/// What of two texts stands behind an edit that makes the one into the other.
#[derive(Clone, Copy)]
struct Rest<'a> {
    old: &'a [u8],
    new: &'a [u8],
}

/// Appends the first edit that makes a text into another, and answers what stands behind it.
fn push_first<'a>(out: &mut Vec<u8>, old: &'a [u8], new: &'a [u8]) -> Result<Rest<'a>, WantOfMemory>
    ensures { IfOk result (λ rest. IsNext out.old.items out.new.items old.now new.now rest.old.now rest.new.now) }
{
    let stay = same_front(old, new);
    let (_, old) = old.split_at(stay);
    let (_, new) = new.split_at(stay);
    let change = change_of(old, new);
    let (_, old) = old.split_at(change.go);
    let (come, new) = new.split_at(change.come);
    push_edit(out, stay, change.go, come)?;
    Ok(Rest { old, new })
}

/// Appends the edits that make a text into another. Cost: the length of both.
pub fn push_edits(out: &mut Vec<u8>, old: &[u8], new: &[u8]) -> Result<(), WantOfMemory>
    ensures { OnOk result (IsEdited out.old.items out.new.items old.now new.now) }
{
    let mut rest = Rest { old, new };
    for _ in 0..MOST_EDITS {
        if rest.old == rest.new {
            return Ok(());
        }
        rest = push_first(out, rest.old, rest.new)?;
    }
    push_edit(out, 0, rest.old.len(), rest.new)?;
    Ok(())
}
