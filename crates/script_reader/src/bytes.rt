//! Requirements as the hexadecimal digits of their bytes.
ghost use Rattle.std.specs.Prelude.{◌≡◌, IfOk};
ghost use Rattle.std.specs.Option.{option_map};
ghost use Rattle.script_reader.specs.Bytes.{hex_byte, hex_pair, hex_bytes};
ghost use Rattle.script_reader.specs.Faults.{Gives};
ghost use Rattle.script_reader.specs.Wants.{reqs_by_bytes};

use crate::cause::Cause;
use crate::causes::bytes_cause;
use crate::fault::{LineError, fault};
use crate::numbers::digit_of;
use req_bytes::{BytesError, decode};
use resource_reqs::Reqs;
use std::alloc::{AllocError, Global};

/// The number below 256 that two hexadecimal digits spell.
fn hex_byte(high: u8, low: u8) -> Option<u8>
    ensures { result ≡ hex_byte high low }
{
    let high = digit_of(high, 16)?;
    let low = digit_of(low, 16)?;
    Some((16 * high + low) as u8)
}

/// The number that a pair of digits spells.
fn hex_pair(pair: &[u8]) -> Option<u8>
    ensures { result ≡ hex_pair pair.now }
{
    let [high, low] = pair else {
        return None;
    };
    hex_byte(*high, *low)
}

/// The bytes of hexadecimal digits, two for each; none where a digit is none, or has no partner. Cost: the digits.
fn hex_bytes(alloc: Global, text: &[u8]) -> Result<Option<Vec<u8>>, AllocError>
    ensures { IfOk result (λ bytes. option_map (λ b. b.items) bytes ≡ hex_bytes text.now) }
{
    let mut bytes = Vec::new(alloc);
    let mut rest = text;
    for _ in 0..text.len() / 2 {
        let (pair, more) = rest.split_at(2);
        let Some(byte) = hex_pair(pair) else {
            return Ok(None);
        };
        bytes.push(byte)?;
        rest = more;
    }
    if rest.is_empty() {
        Ok(Some(bytes))
    } else {
        Ok(None)
    }
}

/// The requirements that the bytes of these digits say.
pub fn reqs_by_bytes<'a>(alloc: Global, text: &'a [u8]) -> Result<Reqs, LineError<'a>>
    ensures { Gives result (reqs_by_bytes text.now) }
{
    let Some(bytes) = hex_bytes(alloc, text)? else {
        return Err(LineError::Bad(fault(Cause::NotHex, text)));
    };
    match decode(alloc, &bytes) {
        Ok(reqs) => Ok(reqs),
        Err(BytesError::WantOfMemory) => Err(LineError::WantOfMemory),
        Err(error) => Err(LineError::Bad(fault(bytes_cause(error), text))),
    }
}
