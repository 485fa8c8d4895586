//! A line's characters, with what is quoted told apart.
ghost use Rattle.std.specs.Prelude.{◌≡◌, ◌+◌, ◌-◌, ◌<◌, ◌≤◌, ◌++◌, [], length, take, count_by, option_map, IfOk, OnOk, IfSome, map};
ghost use Rattle.std.specs.List.{position};
ghost use Rattle.inf_reader.specs.Cuts.{cut_at};
ghost use Rattle.std.specs.Option.{option_to_list};
ghost use Rattle.inf_reader.specs.Items.{symbols_in};
ghost use Rattle.inf_reader.specs.Symbols.{next_place, shown, symbols_of, is_plain, is_blank, is_blank_byte, trimmed, trimmed_bytes, bare, bare_byte, written};

use std::alloc::{AllocError, Global};
use std::marker::Model;

/// A character of a line: outside quotes, inside them, or a quote mark that begins or ends a quoted part.
#[derive(Clone, Copy, PartialEq, Eq)]
pub enum Symbol {
    Plain(u8),
    Quoted(u8),
    Mark,
}

/// Where a line stands: outside or inside quotes, at the second of two quote marks, or in the comment.
#[derive(Clone, Copy, PartialEq, Eq)]
pub enum Place {
    Outside,
    Inside,
    Doubled,
    Comment,
}

/// The characters of a line. A contract sees their list.
pub struct Symbols {
    symbols: Vec<Symbol>,
}

impl Drop for Symbols {
    fn drop(self) {
        let Symbols { symbols: _ } = self;
    }
}

impl Model for Symbols {
    ghost use Rattle.std.specs.Prelude.{List};
    ghost use Rattle.inf_reader.specs.declared.symbols.Symbol.{Symbol};

    ghost Value = { List Symbol };

    ghost view = { λ s. s.symbols.items };
}

impl Symbols {
    /// No character. It takes no memory.
    pub fn new(alloc: Global) -> Symbols
        ensures { result ≡ [] }
    {
        Symbols {
            symbols: Vec::new(alloc),
        }
    }

    /// The characters of a line, without its comment and without blanks at its ends.
    pub fn of_line(alloc: Global, line: &[u8]) -> Result<Symbols, AllocError>
        ensures { IfOk result (λ symbols. symbols ≡ symbols_in line.now) }
    {
        let all = symbols_of(alloc, line)?;
        let symbols = Vec::from_slice(alloc, trimmed(&all))?;
        Ok(Symbols { symbols })
    }

    /// The characters in order.
    pub fn as_slice(&self) -> &[Symbol]
        ensures { result.now ≡ self.now }
    {
        self.symbols.as_slice()
    }

    /// Appends those of the next line.
    pub fn append(&mut self, next: &Symbols) -> Result<(), AllocError>
        ensures { OnOk result (self.new ≡ self.old ++ next.now) }
    {
        self.symbols.extend_from_slice(&next.symbols)
    }

    /// Drops the last character.
    pub fn drop_last(&mut self)
        ensures { self.new ≡ take (length self.old - 1) self.old }
    {
        let len = self.symbols.len();
        if 0 < len {
            self.symbols.truncate(len - 1);
        }
    }
}

/// Where a line stands behind a byte; `quote` says whether a quote mark follows.
fn next_place(place: Place, byte: u8, quote: bool) -> Place
    ensures { result ≡ next_place place byte quote }
{
    match place {
        Place::Outside => match byte {
            b'"' => Place::Inside,
            b';' => Place::Comment,
            _ => Place::Outside,
        },
        Place::Inside => {
            if byte != b'"' {
                Place::Inside
            } else if quote {
                Place::Doubled
            } else {
                Place::Outside
            }
        }
        Place::Doubled => Place::Inside,
        Place::Comment => Place::Comment,
    }
}

/// What a byte stands for, if anything.
fn shown(place: Place, byte: u8, quote: bool) -> Option<Symbol>
    ensures { option_to_list result ≡ shown place byte quote }
{
    match place {
        Place::Outside => match byte {
            b'"' => Some(Symbol::Mark),
            b';' => None,
            _ => Some(Symbol::Plain(byte)),
        },
        Place::Inside => {
            if byte != b'"' || quote {
                Some(Symbol::Quoted(byte))
            } else {
                Some(Symbol::Mark)
            }
        }
        Place::Doubled | Place::Comment => None,
    }
}

/// The characters of a line, without its comment.
fn symbols_of(alloc: Global, line: &[u8]) -> Result<Vec<Symbol>, AllocError>
    ensures { IfOk result (λ symbols. symbols.items ≡ symbols_of line.now) }
{
    let mut symbols = Vec::new(alloc);
    let mut place = Place::Outside;
    for i in 0..line.len() {
        let byte = line[i];
        let quote = i + 1 < line.len() && line[i + 1] == b'"';
        if let Some(symbol) = shown(place, byte, quote) {
            symbols.push(symbol)?;
        }
        place = next_place(place, byte, quote);
    }
    Ok(symbols)
}

/// Whether a symbol is this character, outside quotes.
pub fn is_plain(symbol: Symbol, byte: u8) -> bool
    ensures { result ≡ is_plain byte symbol }
{
    match symbol {
        Symbol::Plain(other) => other == byte,
        Symbol::Quoted(_) | Symbol::Mark => false,
    }
}

/// Whether a byte is a space or a tab.
fn is_blank_byte(byte: u8) -> bool
    ensures { result ≡ is_blank_byte byte }
{
    byte == b' ' || byte == b'\t'
}

/// Whether a symbol is a blank outside quotes.
fn is_blank(symbol: Symbol) -> bool
    ensures { result ≡ is_blank symbol }
{
    match symbol {
        Symbol::Plain(byte) => is_blank_byte(byte),
        Symbol::Quoted(_) | Symbol::Mark => false,
    }
}

/// The first place of a character outside quotes.
fn position_of_plain(byte: u8, symbols: &[Symbol]) -> Option<usize>
    ensures place { result ≡ position (is_plain byte) symbols.now }
    ensures within { IfSome result (λ at. at < length symbols.now) }
{
    symbols.iter().position(|symbol| is_plain(*symbol, byte))
}

/// The symbols before the first character outside quotes, and those behind it.
pub fn cut_plain(byte: u8, symbols: &[Symbol]) -> Option<(&[Symbol], &[Symbol])>
    ensures parts { option_map (λ p. (p.0.now, p.1.now)) result ≡ cut_at (is_plain byte) symbols.now }
    ensures shorter { IfSome result (λ p. length p.0.now + length p.1.now + 1 ≡ length symbols.now) }
{
    match position_of_plain(byte, symbols) {
        Some(at) => Some((&symbols[..at], &symbols[at + 1..])),
        None => None,
    }
}

/// The symbols without the blanks at both ends.
#[tactic(auto, unfolding(crate::specs::Symbols::trimmed))]
fn trimmed(symbols: &[Symbol]) -> &[Symbol]
    ensures { result.now ≡ trimmed symbols.now }
{
    let mut start = 0;
    while start < symbols.len() && is_blank(symbols[start]) {
        start += 1;
    }
    let front = &symbols[start..];
    let mut end = front.len();
    while 0 < end && is_blank(front[end - 1]) {
        end -= 1;
    }
    &front[..end]
}

/// The bytes without the blanks at both ends.
#[tactic(auto, unfolding(crate::specs::Symbols::trimmed_bytes))]
pub fn trimmed_bytes(bytes: &[u8]) -> &[u8]
    ensures { result.now ≡ trimmed_bytes bytes.now }
{
    let mut start = 0;
    while start < bytes.len() && is_blank_byte(bytes[start]) {
        start += 1;
    }
    let front = &bytes[start..];
    let mut end = front.len();
    while 0 < end && is_blank_byte(front[end - 1]) {
        end -= 1;
    }
    &front[..end]
}

/// A symbol's byte, if it is no quote mark.
fn bare_byte(symbol: Symbol) -> Option<u8>
    ensures { option_to_list result ≡ bare_byte symbol }
{
    match symbol {
        Symbol::Plain(byte) | Symbol::Quoted(byte) => Some(byte),
        Symbol::Mark => None,
    }
}

/// How many places a character has outside quotes; at most all.
pub fn count_of_plain(byte: u8, symbols: &[Symbol]) -> usize
    ensures count { result ≡ count_by (is_plain byte) symbols.now }
    ensures within { result ≤ length symbols.now }
{
    symbols
        .iter()
        .filter(|symbol| is_plain(**symbol, byte))
        .count()
}

/// A key or a value, without the blanks at its ends and without its quotes.
#[tactic(auto, unfolding(crate::specs::Symbols::bare))]
pub fn bare(alloc: Global, symbols: &[Symbol]) -> Result<Vec<u8>, AllocError>
    ensures { IfOk result (λ bytes. bytes.items ≡ bare symbols.now) }
{
    let mut bytes = Vec::new(alloc);
    for symbol in trimmed(symbols) {
        if let Some(byte) = bare_byte(*symbol) {
            bytes.push(byte)?;
        }
    }
    Ok(bytes)
}

/// A symbol's byte as it was written.
fn written(symbol: Symbol) -> u8
    ensures { result ≡ written symbol }
{
    match symbol {
        Symbol::Plain(byte) | Symbol::Quoted(byte) => byte,
        Symbol::Mark => b'"',
    }
}

/// The bytes of symbols as they were written.
pub fn written_bytes(alloc: Global, symbols: &[Symbol]) -> Result<Vec<u8>, AllocError>
    ensures { IfOk result (λ bytes. bytes.items ≡ map written symbols.now) }
{
    let mut bytes = Vec::new(alloc);
    for symbol in symbols {
        bytes.push(written(*symbol))?;
    }
    Ok(bytes)
}
