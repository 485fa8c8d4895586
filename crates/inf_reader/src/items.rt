//! What stands in a text, line by line.
ghost use Rattle.std.specs.Prelude.{◌≡◌, ◌+◌, ◌<◌, ◌≤◌, ◌^◌, ◌++◌, ◌∷◌, length, IfOk, OnOk, Option, Some, None, List, ℕ};
ghost use Rattle.std.specs.Str.Lines.{strip_carriage_return};
ghost use Rattle.device_ids.specs.Folding.{folded};
ghost use Rattle.inf_reader.specs.Symbols.{trimmed_bytes};
ghost use Rattle.inf_reader.specs.Items.{header_of, is_header, goes_on, joined_line, settled, opened, given, open_after, left_open, symbols_in, items_of, long_mark, written_lines, written_of};

use crate::symbols::{Symbol, Symbols, is_plain, trimmed_bytes, written_bytes};
use crate::texts::folded_bytes;
use device_ids::{Text, split_once};
use std::alloc::{AllocError, Global};

/// The most bytes of a line before its LF; this project's own limit.
const LONGEST: usize = 4096;

/// What stands in a text, with line numbers from 1: a line that is too long, a header without its end, a
/// header with its folded name, a joined line.
#[derive(Drop)]
pub enum Item {
    TooLong(u32),
    OpenHeader(u32),
    Header(Text),
    Line(u32, Symbols),
}

/// A line that goes on: the number of its first line, and what it has so far.
#[derive(Drop)]
pub struct Open {
    pub number: u32,
    pub symbols: Symbols,
}

/// Whether a line is a header.
fn is_header(symbols: &[Symbol]) -> bool
    ensures { result ≡ is_header symbols.now }
{
    !symbols.is_empty() && is_plain(symbols[0], b'[')
}

/// The folded name that a header writes.
fn header_name(alloc: Global, written: &[u8]) -> Result<Text, AllocError>
    ensures { IfOk result (λ name. name ≡ folded (trimmed_bytes written.now)) }
{
    let name = folded_bytes(alloc, trimmed_bytes(written))?;
    Text::make(alloc, &name)
}

/// The header that a line is.
#[tactic(auto, unfolding(crate::specs::Items::header_of))]
fn header_of(alloc: Global, number: u32, symbols: &[Symbol]) -> Result<Item, AllocError>
    requires { 0 < length symbols.now }
    ensures { IfOk result (λ item. item ≡ header_of number symbols.now) }
{
    let written = written_bytes(alloc, symbols)?;
    match split_once(&written[1..], b']') {
        Some((name, _)) => Ok(Item::Header(header_name(alloc, name)?)),
        None => Ok(Item::OpenHeader(number)),
    }
}

/// Whether a line of the text goes on with the next one: its own last character tells.
fn goes_on(symbols: &[Symbol]) -> bool
    ensures { result ≡ goes_on symbols.now }
{
    !symbols.is_empty() && is_plain(symbols[symbols.len() - 1], b'\\')
}

/// Adds a joined line that is not empty.
fn push_joined(items: &mut Vec<Item>, number: u32, symbols: Symbols) -> Result<(), AllocError>
    ensures { OnOk result (items.new.items ≡ items.old.items ++ joined_line number symbols) }
{
    if !symbols.as_slice().is_empty() {
        items.push(Item::Line(number, symbols))?;
    }
    Ok(())
}

/// Takes in the next line behind what is open, which stays open where that line goes on.
fn settle(
    items: &mut Vec<Item>,
    begun: Open,
    mut symbols: Symbols,
) -> Result<Option<Open>, AllocError>
    ensures items { OnOk result (items.new.items ≡ items.old.items ++ settled begun.number begun.symbols symbols) }
    ensures still { IfOk result (λ left. left ≡ opened begun.number begun.symbols symbols) }
{
    let Open {
        number,
        symbols: mut before,
    } = begun;
    let goes_on = goes_on(symbols.as_slice());
    if goes_on {
        symbols.drop_last();
    }
    before.append(&symbols)?;
    if goes_on {
        return Ok(Some(Open {
            number,
            symbols: before,
        }));
    }
    push_joined(items, number, before)?;
    Ok(None)
}

/// Takes in the next line, behind what is open.
fn take_in(
    alloc: Global,
    items: &mut Vec<Item>,
    begun: Option<Open>,
    number: u32,
    symbols: Symbols,
) -> Result<Option<Open>, AllocError>
    ensures items { OnOk result (items.new.items ≡ items.old.items ++ given begun number symbols) }
    ensures still { IfOk result (λ left. left ≡ open_after begun number symbols) }
{
    match begun {
        Some(open) => settle(items, open, symbols),
        None => {
            if is_header(symbols.as_slice()) {
                items.push(header_of(alloc, number, symbols.as_slice())?)?;
                return Ok(None);
            }
            settle(
                items,
                Open {
                    number,
                    symbols: Symbols::new(alloc),
                },
                symbols,
            )
        }
    }
}

/// A line without the CR before its LF.
fn without_return(line: &[u8]) -> &[u8]
    ensures { result.now ≡ strip_carriage_return line.now }
{
    if !line.is_empty() && line[line.len() - 1] == b'\r' {
        &line[..line.len() - 1]
    } else {
        line
    }
}

/// The first line of a text: its length before the LF, the line without the CR, and the text behind it.
fn first_line(text: &[u8]) -> (usize, &[u8], &[u8])
    requires { 0 < length text.now }
    ensures first { written_lines text.now ≡ written_of result.0 result.1.now ∷ written_lines result.2.now }
    ensures shorter { length result.2.now < length text.now }
{
    match split_once(text, b'\n') {
        Some((part, after)) => (part.len(), without_return(part), after),
        None => (text.len(), text, &[]),
    }
}

/// Adds a mark for a line that is too long.
fn push_long(items: &mut Vec<Item>, number: u32, len: usize) -> Result<(), AllocError>
    ensures { OnOk result (items.new.items ≡ items.old.items ++ long_mark number len) }
{
    if len > LONGEST {
        items.push(Item::TooLong(number))?;
    }
    Ok(())
}

/// Takes in a line of the text.
fn take_line(
    alloc: Global,
    items: &mut Vec<Item>,
    begun: Option<Open>,
    number: u32,
    len: usize,
    line: &[u8],
) -> Result<Option<Open>, AllocError>
    ensures items { OnOk result (items.new.items ≡ items.old.items ++ (long_mark number len ++ given begun number (symbols_in line.now))) }
    ensures still { IfOk result (λ left. left ≡ open_after begun number (symbols_in line.now)) }
{
    push_long(items, number, len)?;
    let symbols = Symbols::of_line(alloc, line)?;
    take_in(alloc, items, begun, number, symbols)
}

/// Takes in what is still open at the end of the text.
fn push_left(items: &mut Vec<Item>, begun: Option<Open>) -> Result<(), AllocError>
    ensures { OnOk result (items.new.items ≡ items.old.items ++ left_open begun) }
{
    if let Some(begun) = begun {
        push_joined(items, begun.number, begun.symbols)?;
    }
    Ok(())
}

/// The items of a text. Cost: its length.
#[tactic(auto, unfolding(crate::specs::Items::items_of))]
pub fn items_of(alloc: Global, text: &[u8]) -> Result<Vec<Item>, AllocError>
    requires { length text.now < 2 ^ 31 }
    ensures { IfOk result (λ items. items.items ≡ items_of text.now) }
{
    let mut items = Vec::new(alloc);
    let mut begun = None;
    let mut number = 1;
    let mut rest = text;
    while !rest.is_empty() {
        let (len, line, after) = first_line(rest);
        begun = take_line(alloc, &mut items, begun, number, len, line)?;
        number += 1;
        rest = after;
    }
    push_left(&mut items, begun)?;
    Ok(items)
}
