//! Numbers, written digit by digit at the end of a row on the stack: no text of their own is made. This project's own.
ghost use Rattle.std.specs.Prelude.{◌≡◌, ◌≤◌, ◌<◌, ◌++◌, OnOk, take, drop, false};
ghost use Rattle.std.specs.Fmt.{decimal, digits, digit_glyph};
ghost use Rattle.pnp_labels.specs.Texts.{rank_text};

use device_ids::WantOfMemory;

/// The sign of a digit below 16, in lower case.
fn glyph(digit: u64) -> u8
    requires { digit < 16 }
    ensures { result ≡ digit_glyph false digit }
{
    let digit = digit as u8;
    if digit < 10 {
        b'0' + digit
    } else {
        b'a' + (digit - 10)
    }
}

/// Writes the digits of a number at the end of a row, and answers where they start. What stands before them stays. A number of 64 bits
/// has at most 64 digits, whatever the base.
#[inline(always)]
fn put_digits(row: &mut [u8; 64], number: u64, base: u64) -> usize
    requires low { 2 ≤ base }
    requires high { base ≤ 16 }
    ensures within { result ≤ 64 }
    ensures value { drop result row.new ≡ digits base false number }
    ensures front { take result row.new ≡ take result row.old }
{
    let mut at = 64;
    let mut rest = number;
    while at > 0 {
        at -= 1;
        row[at] = glyph(rest % base);
        rest /= base;
        if rest == 0 {
            break;
        }
    }
    at
}

/// A number in decimal digits, in a row.
pub(crate) fn decimal_in(row: &mut [u8; 64], number: u64) -> &[u8]
    ensures { result.now ≡ decimal number }
{
    let first = put_digits(row, number, 10);
    &row[first..]
}

/// A number in lower-case hexadecimal digits, in a row.
pub(crate) fn hexadecimal_in(row: &mut [u8; 64], number: u64) -> &[u8]
    ensures { result.now ≡ digits 16 false number }
{
    let first = put_digits(row, number, 16);
    &row[first..]
}

/// A number in at least eight lower-case hexadecimal digits, in a row.
pub(crate) fn rank_in(row: &mut [u8; 64], rank: u32) -> &[u8]
    ensures { result.now ≡ rank_text rank }
{
    *row = [b'0'; 64];
    let first = put_digits(row, rank as u64, 16).min(56);
    &row[first..]
}

/// Appends a number in decimal digits. Cost: their number; no memory but what the text grows by. This project's own.
pub fn push_decimal(out: &mut Vec<u8>, number: u64) -> Result<(), WantOfMemory>
    ensures { OnOk result (out.new.items ≡ out.old.items ++ decimal number) }
{
    let mut row = [0; 64];
    out.extend_from_slice(decimal_in(&mut row, number))
}

/// Appends a number in lower-case hexadecimal digits.
pub(crate) fn push_hexadecimal(out: &mut Vec<u8>, number: u64) -> Result<(), WantOfMemory>
    ensures { OnOk result (out.new.items ≡ out.old.items ++ digits 16 false number) }
{
    let mut row = [0; 64];
    out.extend_from_slice(hexadecimal_in(&mut row, number))
}
