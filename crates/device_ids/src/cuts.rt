ghost use Rattle.std.specs.Prelude.{◌≡◌, ◌∷◌, ◌++◌, ◌==◌, [], MatchOption, IfOk, IfSome, map};
ghost use Rattle.std.specs.List.{position, position_or_len};
ghost use Rattle.std.specs.Option.{option_map};
ghost use Rattle.device_ids.specs.Cuts.{parts, cut_once};

use std::alloc::{AllocError, Global};

/// How many bytes are looked at together.
const ROW: usize = 64;

/// The place of the first such byte in a row, and the length of the row where there is none. All are looked at, without a
/// branch between two.
#[inline]
fn place_in_row(row: &[u8; ROW], byte: u8) -> usize
    ensures { result ≡ position_or_len (λ b. b == byte) row.now }
{
    let mut place = ROW as u8;
    for at in 0..ROW as u8 {
        let here = if row[at as usize] == byte {
            at
        } else {
            ROW as u8
        };
        place = place.min(here);
    }
    place as usize
}

/// The place of the first such byte; none where there is none. Cost: the length.
fn place_of(bytes: &[u8], byte: u8) -> Option<usize>
    ensures { result ≡ position (λ b. b == byte) bytes.now }
{
    let mut at = 0;
    while at + ROW <= bytes.len() {
        let mut row = [0; ROW];
        row.copy_from_slice(&bytes[at..at + ROW]);
        let place = place_in_row(&row, byte);
        if place < ROW {
            return Some(at + place);
        }
        at += ROW;
    }
    while at < bytes.len() {
        if bytes[at] == byte {
            return Some(at);
        }
        at += 1;
    }
    None
}

/// The bytes before the first such byte, and those after it; none where there is no such byte. It takes
/// no memory. Cost: the length. This project's own.
pub fn split_once(bytes: &[u8], at: u8) -> Option<(&[u8], &[u8])>
    ensures exact { option_map (λ x. (x.0.now, x.1.now)) result ≡ cut_once at bytes.now }
    ensures front { IfSome result (λ x. parts at x.0.now ≡ x.0.now ∷ []) }
    ensures cut { MatchOption result (parts at bytes.now ≡ bytes.now ∷ []) (λ x. (parts at bytes.now ≡ x.0.now ∷ parts at x.1.now) × (bytes.now ≡ x.0.now ++ at ∷ x.1.now)) }
{
    let index = place_of(bytes, at)?;
    Some((&bytes[..index], &bytes[index + 1..]))
}

/// The parts between these bytes, one more than there are such bytes. Cost: the length. This project's
/// own.
pub fn cut(alloc: Global, bytes: &[u8], at: u8) -> Result<Vec<&[u8]>, AllocError>
    ensures { IfOk result (λ v. map (λ x. x.now) v.items ≡ parts at bytes.now) }
{
    let mut found = Vec::new(alloc);
    let mut rest = bytes;
    while let Some((part, more)) = split_once(rest, at) {
        found.push(part)?;
        rest = more;
    }
    found.push(rest)?;
    Ok(found)
}
