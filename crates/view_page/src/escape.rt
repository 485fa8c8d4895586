//! Texts as a page has them.
ghost use Rattle.std.specs.Prelude.{◌≡◌, ◌++◌, OnOk};
ghost use Rattle.view_page.specs.Pages.{escaped, escaped_byte};

use std::alloc::AllocError;

/// The one refusal of a call that takes memory and nothing else.
pub type WantOfMemory = AllocError;

/// Appends a byte as it is written.
fn push_byte(text: &mut Vec<u8>, byte: u8) -> Result<(), WantOfMemory>
    ensures { OnOk result (text.new.items ≡ text.old.items ++ escaped_byte byte) }
{
    match byte {
        b'<' => text.extend_from_slice(b"&lt;")?,
        b'>' => text.extend_from_slice(b"&gt;")?,
        b'&' => text.extend_from_slice(b"&amp;")?,
        b'"' => text.extend_from_slice(b"&quot;")?,
        b'\'' => text.extend_from_slice(b"&#39;")?,
        b'\n' => text.push(b'\n')?,
        0..32 | 127.. => text.push(b'?')?,
        _ => text.push(byte)?,
    }
    Ok(())
}

/// Appends a text as it is written.
pub fn push_escaped(text: &mut Vec<u8>, words: &[u8]) -> Result<(), WantOfMemory>
    ensures { OnOk result (text.new.items ≡ text.old.items ++ escaped words.now) }
{
    for byte in words {
        push_byte(text, *byte)?;
    }
    Ok(())
}
