//! The notes between the lines of a run.
ghost use Rattle.std.specs.Prelude.{◌≡◌, ◌++◌, ◌∷◌, [], map, OnOk};
ghost use Rattle.std.specs.Fmt.{decimal};
ghost use Rattle.live_model.specs.Notes.{ask_line, broke_line, broke_lines, done_line};

use device_ids::WantOfMemory;
use pnp_labels::push_decimal;

/// Appends a word, a blank between it and the next.
fn push_word(out: &mut Vec<u8>, word: &[u8]) -> Result<(), WantOfMemory>
    ensures { OnOk result (out.new.items ≡ out.old.items ++ 32 ∷ word.now) }
{
    out.push(b' ')?;
    out.extend_from_slice(word)
}

/// Appends a line of these words and a number behind them.
pub(crate) fn push_numbered(
    out: &mut Vec<u8>,
    words: &[u8],
    number: u64,
) -> Result<(), WantOfMemory>
    ensures { OnOk result (out.new.items ≡ out.old.items ++ (words.now ++ decimal number ++ 10 ∷ [])) }
{
    out.extend_from_slice(words)?;
    push_decimal(out, number)?;
    out.push(b'\n')?;
    Ok(())
}

/// Appends the note of an ask.
pub(crate) fn push_ask(out: &mut Vec<u8>, ask: u64, words: &[u8]) -> Result<(), WantOfMemory>
    ensures { OnOk result (out.new.items ≡ out.old.items ++ ask_line ask words.now) }
{
    out.extend_from_slice(b"# ask ")?;
    push_decimal(out, ask)?;
    push_word(out, words)?;
    out.push(b'\n')?;
    Ok(())
}

/// Appends the note that a poll was answered by a completion of this driver.
pub(crate) fn push_done(out: &mut Vec<u8>, ask: u64, driver: &[u8]) -> Result<(), WantOfMemory>
    ensures { OnOk result (out.new.items ≡ out.old.items ++ done_line ask driver.now) }
{
    out.extend_from_slice(b"# done ")?;
    push_decimal(out, ask)?;
    push_word(out, driver)?;
    out.push(b'\n')?;
    Ok(())
}

/// Appends the note that a driver broke the rule of a tag.
pub(crate) fn push_broke(
    out: &mut Vec<u8>,
    ask: u64,
    driver: &[u8],
    tag: &[u8],
) -> Result<(), WantOfMemory>
    ensures { OnOk result (out.new.items ≡ out.old.items ++ broke_line ask driver.now tag.now) }
{
    out.extend_from_slice(b"# broke ")?;
    push_decimal(out, ask)?;
    push_word(out, driver)?;
    push_word(out, tag)?;
    out.push(b'\n')?;
    Ok(())
}

/// Appends such a note for each tag, in their order.
pub(crate) fn push_tags(
    out: &mut Vec<u8>,
    ask: u64,
    driver: &[u8],
    tags: &[&[u8]],
) -> Result<(), WantOfMemory>
    ensures { OnOk result (out.new.items ≡ out.old.items ++ broke_lines ask driver.now (map (λ t. t.now) tags.now)) }
{
    for tag in tags {
        push_broke(out, ask, driver, tag)?;
    }
    Ok(())
}
