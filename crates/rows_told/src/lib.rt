//! What a test says where something came out otherwise than it must.
#![tactic(auto)]

ghost use Rattle.std.specs.Prelude.{◌≡◌, ◌↔◌, IsOk, true};

use std::test::Fail;

/// What must hold does; or the test fails, and says what did not.
pub fn must(holds: bool, what: &str) -> Result<(), Fail>
    ensures { IsOk result ↔ (holds ≡ true) }
{
    if holds { Ok(()) } else { Err(Fail::new(what)) }
}

/// The bytes are those that must come; or the test fails, and says what came. Cost: their length.
pub fn same(bytes: &[u8], want: &[u8]) -> Result<(), Fail>
    ensures { IsOk result ↔ (bytes.now ≡ want.now) }
{
    if bytes == want {
        return Ok(());
    }
    match str::from_utf8(bytes) {
        Ok(text) => Err(Fail::new(text)),
        Err(_) => Err(Fail::new("bytes that are no text")),
    }
}
