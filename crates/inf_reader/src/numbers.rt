//! Numbers, dates, versions and scores.
ghost use Rattle.std.specs.Prelude.{◌≡◌, ◌≤◌, ◌<◌, IfSome, option_map, not, if◌then◌else◌, true, false};
ghost use Rattle.std.specs.List.{list_any};
ghost use Rattle.inf_reader.specs.Numbers.{digit_of, number_of, number_from, prefixed_number, flags_of, score_of, part_of, date_by, date_of, next_part, version_of, is_no_digit};

use device_ids::split_once;

/// What a digit of the base 10 or 16 stands for.
fn digit_of(base: u32, byte: u8) -> Option<u32>
    ensures value { result ≡ digit_of base byte }
    ensures small { IfSome result (λ d. d < 16) }
{
    match byte {
        b'0'..=b'9' => Some((byte - b'0') as u32),
        b'A'..=b'F' if base == 16 => Some((byte - b'A' + 10) as u32),
        b'a'..=b'f' if base == 16 => Some((byte - b'a' + 10) as u32),
        _ => None,
    }
}

/// The number that digits write, where it is at most the limit.
#[tactic(auto, unfolding(crate::specs::Numbers::number_of))]
pub fn number_of(limit: u32, base: u32, text: &[u8]) -> Option<u32>
    requires low { 1 ≤ base }
    requires high { base ≤ 16 }
    ensures value { result ≡ number_of limit base text.now }
    ensures within { IfSome result (λ n. n ≤ limit) }
{
    if text.is_empty() {
        return None;
    }
    let mut number = 0u32;
    for byte in text {
        let Some(digit) = digit_of(base, *byte) else {
            return None;
        };
        let next = number as u64 * base as u64 + digit as u64;
        if next > limit as u64 {
            return None;
        }
        number = next as u32;
    }
    Some(number)
}

/// `0x` and hexadecimal digits, or decimal digits.
#[tactic(auto, unfolding(crate::specs::Numbers::prefixed_number))]
fn prefixed_number(limit: u32, text: &[u8]) -> Option<u32>
    ensures { result ≡ prefixed_number limit text.now }
{
    if text.starts_with(b"0x") {
        number_of(limit, 16, &text[2..])
    } else {
        number_of(limit, 10, text)
    }
}

/// A number below 2^32; another text counts as 0.
#[tactic(auto, unfolding(crate::specs::Numbers::flags_of))]
pub fn flags_of(text: &[u8]) -> u32
    ensures { result ≡ flags_of text.now }
{
    prefixed_number(u32::MAX, text).unwrap_or(0)
}

/// Whether a byte is no decimal digit.
fn is_no_digit(byte: u8) -> bool
    ensures { result ≡ is_no_digit byte }
{
    byte < b'0' || b'9' < byte
}

/// Whether some byte is no decimal digit.
fn has_no_digit(text: &[u8]) -> bool
    ensures { result ≡ list_any is_no_digit text.now }
{
    text.iter().any(|byte| is_no_digit(*byte))
}

/// The score that a text writes, in one of three forms.
#[tactic(auto, unfolding(crate::specs::Numbers::score_of))]
pub fn score_of(text: &[u8]) -> Option<u8>
    ensures { result ≡ score_of text.now }
{
    let score = if text.starts_with(b"0x") {
        number_of(255, 16, &text[2..])
    } else if !has_no_digit(text) {
        number_of(255, 10, text)
    } else if text.len() <= 2 {
        number_of(255, 16, text)
    } else {
        None
    };
    match score {
        Some(score) => Some(score as u8),
        None => None,
    }
}

/// A number of some digits, from `low` to `high`.
fn part_of(shortest: usize, longest: usize, low: u32, high: u32, text: &[u8]) -> Option<u32>
    ensures value { result ≡ part_of shortest longest low high text.now }
    ensures within { IfSome result (λ n. n ≤ high) }
{
    if text.len() < shortest || longest < text.len() {
        return None;
    }
    match number_of(high, 10, text) {
        Some(number) if low <= number => Some(number),
        _ => None,
    }
}

/// Month, day and year between two marks.
#[tactic(auto, unfolding(crate::specs::Numbers::date_by))]
fn date_by(mark: u8, text: &[u8]) -> Option<u32>
    ensures { result ≡ date_by mark text.now }
{
    let (month, rest) = split_once(text, mark)?;
    let (day, year) = split_once(rest, mark)?;
    let month = part_of(1, 2, 1, 12, month)?;
    let day = part_of(1, 2, 1, 31, day)?;
    let year = part_of(4, 4, 0, 9999, year)?;
    Some(year * 10000 + month * 100 + day)
}

/// The date that a text writes.
#[tactic(auto, unfolding(crate::specs::Numbers::date_of))]
pub fn date_of(text: &[u8]) -> Option<u32>
    ensures { result ≡ date_of text.now }
{
    match date_by(b'/', text) {
        Some(date) => Some(date),
        None => date_by(b'-', text),
    }
}

/// The next number of a version, and what is left.
#[tactic(auto, unfolding(crate::specs::Numbers::next_part))]
fn next_part(rest: Option<&[u8]>) -> Option<(u64, Option<&[u8]>)>
    ensures value { option_map (λ p. (p.0, option_map (λ t. t.now) p.1)) result ≡ next_part (option_map (λ t. t.now) rest.entry) }
    ensures small { IfSome result (λ p. p.0 ≤ 65535) }
{
    let Some(text) = rest else {
        return Some((0, None));
    };
    match split_once(text, b'.') {
        Some((part, after)) => {
            let number = number_of(65535, 10, part)?;
            Some((number as u64, Some(after)))
        }
        None => {
            let number = number_of(65535, 10, text)?;
            Some((number as u64, None))
        }
    }
}

/// The version that a text writes: one to four numbers between points.
#[tactic(auto, unfolding(crate::specs::Numbers::version_of))]
pub fn version_of(text: &[u8]) -> Option<u64>
    ensures { result ≡ version_of text.now }
{
    let (first, rest) = next_part(Some(text))?;
    let (second, rest) = next_part(rest)?;
    let (third, rest) = next_part(rest)?;
    let (fourth, rest) = next_part(rest)?;
    if rest.is_some() {
        return None;
    }
    Some(first * (1 << 48) + second * (1 << 32) + third * (1 << 16) + fourth)
}
