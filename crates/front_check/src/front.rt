//! Whether a line stands at the front of what is left of a trace.
ghost use Rattle.std.specs.Prelude.{◌≡◌, ◌<◌, [], ◌∷◌, ◌++◌, length};
ghost use Rattle.pnp_labels.specs.Texts.{Text};
ghost use Rattle.free_model.specs.Checks.{has_feed};
ghost use Rattle.trace_check.specs.Turns.{IfFront, IfStands};

/// Whether there is an LF among these bytes.
fn has_feed(bytes: &[u8]) -> bool
    ensures { result ≡ has_feed bytes.now }
{
    bytes.contains(&b'\n')
}

/// Whether these bytes stand at the front of what is left.
pub(crate) fn begins_with(rest: &[u8], line: &[u8]) -> bool
    ensures { IfFront result rest.now line.now }
{
    rest.starts_with(line)
}

/// How many bytes a line has that stands at the front of what is left, with its LF, which is its last byte.
pub(crate) fn standing(rest: &[u8], line: &[u8]) -> Option<usize>
    ensures { (text : Text) → line.now ≡ text ++ 10 ∷ [] → IfStands result rest.now text }
{
    if begins_with(rest, line) {
        Some(line.len())
    } else {
        None
    }
}

/// Whether there is an LF in a line before its last byte.
pub(crate) fn has_feed_inside(line: &[u8]) -> bool
    requires { 0 < length line.now }
    ensures { (text : Text) → line.now ≡ text ++ 10 ∷ [] → result ≡ has_feed text }
{
    has_feed(&line[..line.len() - 1])
}
