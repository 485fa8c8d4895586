//! Why a text is no number, no range, no want, or no bytes of requirements: asked of a line that is refused.
ghost use Rattle.std.specs.Prelude.{◌≡◌, ◌<◌, ◌≤◌, ◌⊎◌, ◌^◌, IfSome};
ghost use Rattle.std.specs.List.{list_all};
ghost use Rattle.std.specs.Option.{is_some, option_map};
ghost use Rattle.script_reader.specs.Causes.{are_digits, is_spelled, has_size, number_cause, ends_cause, cut_cause, range_cause, tail_cause, size_cause, bytes_cause};
ghost use Rattle.script_reader.specs.Numbers.{digit_of, number_of, range_of};

use crate::cause::Cause;
use crate::numbers::{digit_of, number_of, range_of};
use device_ids::split_once;
use req_bytes::BytesError;

/// Whether each byte is a digit of the base.
fn all_digits(text: &[u8], base: u64) -> bool
    ensures { result ≡ list_all (λ byte. is_some (digit_of base byte)) text.now }
{
    text.iter().all(|byte| digit_of(*byte, base).is_some())
}

/// Whether the text is one digit of the base or more, and nothing else.
fn are_digits(text: &[u8], base: u64) -> bool
    ensures { result ≡ are_digits base text.now }
{
    !text.is_empty() && all_digits(text, base)
}

/// Whether the text is digits, however many.
fn is_spelled(text: &[u8]) -> bool
    ensures { result ≡ is_spelled text.now }
{
    match text {
        [b'0', b'x', digits @ ..] => are_digits(digits, 16),
        _ => are_digits(text, 10),
    }
}

/// Whether a slash or an at sign stands in the text.
fn has_size(text: &[u8]) -> bool
    ensures { result ≡ has_size text.now }
{
    split_once(text, b'/').is_some() || split_once(text, b'@').is_some()
}

/// Why the text is no number.
pub fn number_cause(text: &[u8]) -> Cause
    ensures { result ≡ number_cause text.now }
{
    if is_spelled(text) {
        Cause::WideNumber
    } else if has_size(text) {
        Cause::NoSizeHere
    } else {
        Cause::NotNumber
    }
}

/// Why the texts are not the ends of a range.
fn ends_cause(lo: &[u8], hi: &[u8]) -> Cause
    ensures { result ≡ ends_cause (lo.now, hi.now) }
{
    if number_of(lo).is_none() {
        number_cause(lo)
    } else if number_of(hi).is_none() {
        number_cause(hi)
    } else {
        Cause::TurnedRange
    }
}

/// Why the text is no range of numbers that the kind has.
pub fn range_cause(text: &[u8]) -> Cause
    ensures { result ≡ range_cause text.now }
{
    if range_of(text).is_some() {
        return Cause::WideBus;
    }
    match split_once(text, b'-') {
        Some((lo, hi)) => ends_cause(lo, hi),
        None => number_cause(text),
    }
}

/// Why a tail is no number.
pub fn tail_cause(tail: Option<&[u8]>) -> Cause
    ensures { result ≡ tail_cause (option_map (λ x. x.now) tail.entry) }
{
    match tail {
        Some(text) => number_cause(text),
        None => Cause::NotNumber,
    }
}

/// Why such numbers make no want.
pub fn size_cause(len: u64, align: u64) -> Cause
    ensures { result ≡ size_cause len align }
{
    if len == 0 {
        Cause::ZeroLength
    } else if align == 0 {
        Cause::ZeroAlignment
    } else {
        Cause::LongLength
    }
}

/// Why bytes are no requirements. That of want of memory is never told.
pub fn bytes_cause(error: BytesError) -> Cause
    ensures { result ≡ bytes_cause error }
{
    match error {
        BytesError::Size | BytesError::WantOfMemory => Cause::BytesSize,
        BytesError::BadType { .. } => Cause::BytesType,
        BytesError::AltFirst { .. } => Cause::BytesAlternative,
        BytesError::BadWant { .. } => Cause::BytesWant,
        BytesError::Full { .. } => Cause::BytesFull,
        BytesError::EmptyList { .. } => Cause::BytesEmpty,
    }
}
