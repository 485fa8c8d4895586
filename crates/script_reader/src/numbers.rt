ghost use Rattle.std.specs.Prelude.{◌≡◌, ◌<◌, ◌≤◌, ◌⊎◌, ◌^◌, IfSome};
ghost use Rattle.script_reader.specs.Numbers.{digit_of, numeral, number_of, range_of, has_number, range_in, uses_of};

use device_ids::split_once;
use resource_reqs::Kind;

/// The greatest number of a bus.
const LAST_BUS: u64 = 255;

/// The greatest number of uses of a rule.
const MOST_USES: u64 = 1_000_000;

/// The value of a digit of the base.
pub fn digit_of(byte: u8, base: u64) -> Option<u64>
    ensures { result ≡ digit_of base byte }
{
    let value = match byte {
        b'0'..=b'9' => byte - b'0',
        b'a'..=b'f' => byte - b'a' + 10,
        b'A'..=b'F' => byte - b'A' + 10,
        _ => return None,
    };
    if (value as u64) < base {
        Some(value as u64)
    } else {
        None
    }
}

/// The number that the digits of the base spell, below 2^64.
fn numeral(text: &[u8], base: u64) -> Option<u64>
    requires { (base ≡ 10) ⊎ (base ≡ 16) }
    ensures { result ≡ numeral base text.now }
{
    if text.is_empty() {
        return None;
    }
    let mut value = 0u64;
    for byte in text {
        let digit = digit_of(*byte, base)?;
        value = value.checked_mul(base)?.checked_add(digit)?;
    }
    Some(value)
}

/// The number that the text is.
pub fn number_of(text: &[u8]) -> Option<u64>
    ensures { result ≡ number_of text.now }
{
    match text {
        [b'0', b'x', digits @ ..] => numeral(digits, 16),
        _ => numeral(text, 10),
    }
}

/// The least and the greatest number of the range that the text is.
pub fn range_of(text: &[u8]) -> Option<(u64, u64)>
    ensures is { result ≡ range_of text.now }
    ensures ordered { IfSome result (λ range. range.0 ≤ range.1) }
{
    let Some((lo, hi)) = split_once(text, b'-') else {
        let number = number_of(text)?;
        return Some((number, number));
    };
    let lo = number_of(lo)?;
    let hi = number_of(hi)?;
    if lo <= hi { Some((lo, hi)) } else { None }
}

/// Whether the kind has the number: a bus has one of 256, the other kinds have all.
fn has_number(kind: Kind, number: u64) -> bool
    ensures { result ≡ has_number kind number }
{
    match kind {
        Kind::Bus => number <= LAST_BUS,
        _ => true,
    }
}

/// The least and the greatest number of the range that the text is, where the kind has them.
pub fn range_in(kind: Kind, text: &[u8]) -> Option<(u64, u64)>
    ensures is { result ≡ range_in kind text.now }
    ensures ordered { IfSome result (λ range. range.0 ≤ range.1) }
{
    let (lo, hi) = range_of(text)?;
    if has_number(kind, hi) {
        Some((lo, hi))
    } else {
        None
    }
}

/// The number of uses of a rule.
pub fn uses_of(word: &[u8]) -> Option<u32>
    ensures { result ≡ uses_of word.now }
{
    let uses = number_of(word)?;
    if uses < 1 || uses > MOST_USES {
        return None;
    }
    Some(uses as u32)
}
