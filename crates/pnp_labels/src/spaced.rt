//! Words with a space between any two, as the lines of the output have them: this project's own.
ghost use Rattle.std.specs.Prelude.{◌≡◌, ◌+◌, ◌≤◌, ◌++◌, ◌∷◌, [], OnOk, length, take};
ghost use Rattle.pnp_labels.specs.Texts.{spaced};

use device_ids::WantOfMemory;

/// Writes a text at a place, and answers the place after it.
fn put(line: &mut [u8], at: usize, text: &[u8]) -> usize
    requires { at + length text.now ≤ length line.old }
    ensures len { length line.new ≡ length line.old }
    ensures end { result ≡ at + length text.now }
    ensures front { take result line.new ≡ take at line.old ++ text.now }
{
    let end = at + text.len();
    line[at..end].copy_from_slice(text);
    end
}

/// Writes a space and a text at a place, and answers the place after them.
fn put_next(line: &mut [u8], at: usize, text: &[u8]) -> usize
    requires { at + 1 + length text.now ≤ length line.old }
    ensures len { length line.new ≡ length line.old }
    ensures end { result ≡ at + 1 + length text.now }
    ensures front { take result line.new ≡ take at line.old ++ 32 ∷ text.now }
{
    line[at] = b' ';
    put(line, at + 1, text)
}

/// Appends two words with a space between them. Cost: the length.
pub fn two<'a>(line: &mut Vec<u8>, first: &'a [u8], second: &'a [u8]) -> Result<(), WantOfMemory>
    ensures { OnOk result (line.new.items ≡ line.old.items ++ spaced (first.now ∷ second.now ∷ [])) }
{
    let start = line.len();
    let length = start
        .saturating_add(first.len())
        .saturating_add(second.len());
    line.resize(length.saturating_add(1), b' ')?;
    let words = line.as_mut_slice();
    let at = put(words, start, first);
    put_next(words, at, second);
    Ok(())
}

/// Appends three words with a space between any two. Cost: the length.
pub fn three<'a>(
    line: &mut Vec<u8>,
    first: &'a [u8],
    second: &'a [u8],
    third: &'a [u8],
) -> Result<(), WantOfMemory>
    ensures { OnOk result (line.new.items ≡ line.old.items ++ spaced (first.now ∷ second.now ∷ third.now ∷ [])) }
{
    let start = line.len();
    let length = start
        .saturating_add(first.len())
        .saturating_add(second.len());
    line.resize(length.saturating_add(third.len()).saturating_add(2), b' ')?;
    let words = line.as_mut_slice();
    let at = put(words, start, first);
    let at = put_next(words, at, second);
    put_next(words, at, third);
    Ok(())
}

/// Appends four words with a space between any two. Cost: the length.
pub fn four<'a>(
    line: &mut Vec<u8>,
    first: &'a [u8],
    second: &'a [u8],
    third: &'a [u8],
    fourth: &'a [u8],
) -> Result<(), WantOfMemory>
    ensures { OnOk result (line.new.items ≡ line.old.items ++ spaced (first.now ∷ second.now ∷ third.now ∷ fourth.now ∷ [])) }
{
    let start = line.len();
    let length = start
        .saturating_add(first.len())
        .saturating_add(second.len());
    let length = length
        .saturating_add(third.len())
        .saturating_add(fourth.len());
    line.resize(length.saturating_add(3), b' ')?;
    let words = line.as_mut_slice();
    let at = put(words, start, first);
    let at = put_next(words, at, second);
    let at = put_next(words, at, third);
    put_next(words, at, fourth);
    Ok(())
}
