ghost use Rattle.std.specs.Prelude.{◌≡◌, ◌++◌, ◌∷◌, [], IfOk, OnOk, map, string_bytes, false, codes};
ghost use Rattle.std.specs.Fmt.{decimal, digits};
ghost use Rattle.pnp_labels.specs.Texts.{label_line, word_text, res_text, spaced, range_text, hex, ok_text, end_text};

use crate::deed::Deed;
use crate::digits::{decimal_in, push_decimal, push_hexadecimal, rank_in};
use crate::label::{EventWord, Label, NoticeKind, OpEnd, OpKind, Shown, TaskKind};
use crate::spaced::{four, three, two};
use crate::texts::{
    minor_text, notice_text, op_text, problem_text, reason_text, shown_text, state_text, task_text,
    word_text,
};
use crate::words::Minor;
use device_ids::{Text, WantOfMemory};
use resource_reqs::{Kind, Res, ResList};
use std::alloc::Global;

/// A number in decimal digits. Cost: their number. This project's own.
pub fn decimal(alloc: Global, number: u64) -> Result<String, WantOfMemory>
    ensures { IfOk result (λ text. string_bytes text ≡ decimal number) }
{
    format!(in alloc; "{number}")
}

/// Appends a name, and a range in hexadecimal.
fn push_hexadecimals(text: &mut Vec<u8>, name: &[u8], lo: u64, hi: u64) -> Result<(), WantOfMemory>
    ensures { OnOk result (text.new.items ≡ text.old.items ++ name.now ++ digits 16 false lo ++ 45 ∷ hex hi) }
{
    text.extend_from_slice(name)?;
    push_hexadecimal(text, lo)?;
    text.extend_from_slice(b"-0x")?;
    push_hexadecimal(text, hi)
}

/// Appends a name, and a range in decimal.
fn push_decimals(text: &mut Vec<u8>, name: &[u8], lo: u64, hi: u64) -> Result<(), WantOfMemory>
    ensures { OnOk result (text.new.items ≡ text.old.items ++ name.now ++ decimal lo ++ 45 ∷ decimal hi) }
{
    text.extend_from_slice(name)?;
    push_decimal(text, lo)?;
    text.push(b'-')?;
    push_decimal(text, hi)
}

/// Appends a kind with its first and last number: ports and memory in hexadecimal, interrupts, channels and buses in decimal.
fn push_range(text: &mut Vec<u8>, kind: Kind, lo: u64, hi: u64) -> Result<(), WantOfMemory>
    ensures { OnOk result (text.new.items ≡ text.old.items ++ range_text kind lo hi) }
{
    match kind {
        Kind::Port => push_hexadecimals(text, b"port:0x", lo, hi),
        Kind::Irq => push_decimals(text, b"irq:", lo, hi),
        Kind::Mem => push_hexadecimals(text, b"mem:0x", lo, hi),
        Kind::Dma => push_decimals(text, b"dma:", lo, hi),
        Kind::Bus => push_decimals(text, b"bus:", lo, hi),
    }
}

/// Appends the text of a resource: kind, first and last number, and whether it is shared. Cost: the length. This project's own.
pub fn push_res(text: &mut Vec<u8>, res: &Res) -> Result<(), WantOfMemory>
    ensures { OnOk result (text.new.items ≡ text.old.items ++ res_text res.now) }
{
    push_range(text, res.kind, res.lo, res.hi)?;
    if res.shared {
        text.extend_from_slice(b":shared")?;
    }
    Ok(())
}

/// The text of a resource: kind, first and last number, and whether it is shared. Cost: the length. This
/// project's own.
pub fn res_text(alloc: Global, res: &Res) -> Result<Vec<u8>, WantOfMemory>
    ensures { IfOk result (λ text. text.items ≡ res_text res.now) }
{
    let mut text = Vec::new(alloc);
    push_res(&mut text, res)?;
    Ok(text)
}

/// What an AddDevice routine answered.
fn ok_text(ok: bool) -> &'static [u8]
    ensures { result.now ≡ ok_text ok }
{
    if ok { b"ok" } else { b"fail" }
}

/// Appends how an operation ended.
fn push_end_text(text: &mut Vec<u8>, end: &OpEnd) -> Result<(), WantOfMemory>
    ensures { OnOk result (text.new.items ≡ text.old.items ++ end_text end.now) }
{
    match end {
        OpEnd::Moved => text.extend_from_slice(b"moved"),
        OpEnd::NoFit => text.extend_from_slice(b"nofit"),
        OpEnd::Spent => text.extend_from_slice(b"spent"),
        OpEnd::Refused => text.extend_from_slice(b"refused"),
        OpEnd::Done => text.extend_from_slice(b"done"),
        OpEnd::Waiting => text.extend_from_slice(b"waiting"),
        OpEnd::Veto(path) => two(text, b"veto", path.bytes()),
    }
}

/// Appends a path with the resources that its device holds.
fn push_assign(line: &mut Vec<u8>, path: &[u8], held: &ResList) -> Result<(), WantOfMemory>
    ensures { OnOk result (line.new.items ≡ line.old.items ++ spaced (codes "assign" ∷ path.now ∷ map res_text held.now)) }
{
    two(line, b"assign", path)?;
    for at in 0..held.len() {
        line.push(b' ')?;
        push_res(line, held.get(at))?;
    }
    Ok(())
}

/// Appends an operation, a path, and how the operation ended.
fn push_end(line: &mut Vec<u8>, op: OpKind, path: &[u8], end: &OpEnd) -> Result<(), WantOfMemory>
    ensures { OnOk result (line.new.items ≡ line.old.items ++ label_line (Label.End op path.now end.now)) }
{
    three(line, b"end", op_text(op), path)?;
    line.push(b' ')?;
    push_end_text(line, end)
}

/// Appends which event was taken, and the first word of what was done.
fn push_event(line: &mut Vec<u8>, word: EventWord, first: &Text) -> Result<(), WantOfMemory>
    ensures { OnOk result (line.new.items ≡ line.old.items ++ spaced (codes "event" ∷ word_text word ∷ first.now ∷ [])) }
{
    three(line, b"event", word_text(word), first.bytes())
}

/// Appends which event was taken, and the two words of what was done.
fn push_event_of_two(
    line: &mut Vec<u8>,
    word: EventWord,
    first: &Text,
    second: &Text,
) -> Result<(), WantOfMemory>
    ensures { OnOk result (line.new.items ≡ line.old.items ++ spaced (codes "event" ∷ word_text word ∷ first.now ∷ second.now ∷ [])) }
{
    let (first, second) = (first.bytes(), second.bytes());
    four(line, b"event", word_text(word), first, second)
}

/// Appends that a pended request got its answer.
fn push_completed(
    line: &mut Vec<u8>,
    path: &Text,
    minor: Minor,
    shown: Shown,
) -> Result<(), WantOfMemory>
    ensures { OnOk result (line.new.items ≡ line.old.items ++ label_line (Label.Did (Deed.Completed path.now minor shown))) }
{
    push_event(line, EventWord::Complete, path)?;
    line.push(b' ')?;
    two(line, minor_text(minor), shown_text(shown))
}

/// Appends that a range was reserved.
fn push_reserved(line: &mut Vec<u8>, res: &Res) -> Result<(), WantOfMemory>
    ensures { OnOk result (line.new.items ≡ line.old.items ++ label_line (Label.Did (Deed.Reserved res.now))) }
{
    two(line, b"event", word_text(EventWord::Reserve))?;
    line.push(b' ')?;
    push_res(line, res)
}

/// Appends that a device passes on only what lies in a range.
fn push_windowed(line: &mut Vec<u8>, path: &Text, res: &Res) -> Result<(), WantOfMemory>
    ensures { OnOk result (line.new.items ≡ line.old.items ++ label_line (Label.Did (Deed.Windowed path.now res.now))) }
{
    push_event(line, EventWord::Window, path)?;
    line.push(b' ')?;
    push_res(line, res)
}

/// Appends that an event was taken, and what was done.
fn push_deed(line: &mut Vec<u8>, deed: &Deed) -> Result<(), WantOfMemory>
    ensures { OnOk result (line.new.items ≡ line.old.items ++ label_line (Label.Did deed.now)) }
{
    match deed {
        Deed::Plugged { path } => push_event(line, EventWord::Plug, path),
        Deed::Pulled { path } => push_event(line, EventWord::Pull, path),
        Deed::Named { driver } => push_event(line, EventWord::Name, driver),
        Deed::Taught { driver } => push_event(line, EventWord::Teach, driver),
        Deed::Disabled { path } => push_event(line, EventWord::Disable, path),
        Deed::Enabled { path } => push_event(line, EventWord::Enable, path),
        Deed::Ejected { path } => push_event(line, EventWord::Eject, path),
        Deed::Related { owner, member, .. } => {
            push_event_of_two(line, EventWord::Relate, owner, member)
        }
        Deed::Reserved { res } => push_reserved(line, res),
        Deed::Completed { path, minor, shown } => push_completed(line, path, *minor, *shown),
        Deed::HandleOpened { path } => push_event(line, EventWord::HandleOpen, path),
        Deed::HandleClosed { path } => push_event(line, EventWord::HandleClose, path),
        Deed::Windowed { path, res } => push_windowed(line, path, res),
        Deed::Changed { path } => push_event(line, EventWord::Change, path),
        Deed::Watched { client, path } => push_event_of_two(line, EventWord::Watch, client, path),
        Deed::Unwatched { client, path } => {
            push_event_of_two(line, EventWord::Unwatch, client, path)
        }
    }
}

fn push_skip(line: &mut Vec<u8>, task: TaskKind, serial: u64) -> Result<(), WantOfMemory>
    ensures { OnOk result (line.new.items ≡ line.old.items ++ label_line (Label.Skip task serial)) }
{
    let mut row = [0; 64];
    let serial = decimal_in(&mut row, serial);
    three(line, b"skip", task_text(task), serial)
}

fn push_join(line: &mut Vec<u8>, serial: u64, path: &[u8]) -> Result<(), WantOfMemory>
    ensures { OnOk result (line.new.items ≡ line.old.items ++ label_line (Label.Join serial path.now)) }
{
    let mut row = [0; 64];
    let serial = decimal_in(&mut row, serial);
    three(line, b"join", serial, path)
}

fn push_install(
    line: &mut Vec<u8>,
    path: &[u8],
    rank: u32,
    driver: &[u8],
) -> Result<(), WantOfMemory>
    ensures { OnOk result (line.new.items ≡ line.old.items ++ label_line (Label.Install path.now rank driver.now)) }
{
    let mut row = [0; 64];
    let rank = rank_in(&mut row, rank);
    four(line, b"install", path, rank, driver)
}

fn push_commit(line: &mut Vec<u8>, movers: u64) -> Result<(), WantOfMemory>
    ensures { OnOk result (line.new.items ≡ line.old.items ++ label_line (Label.Commit movers)) }
{
    let mut row = [0; 64];
    let movers = decimal_in(&mut row, movers);
    two(line, b"commit", movers)
}

/// Appends a notice, and where it asks, what the client answered.
fn push_notice(
    line: &mut Vec<u8>,
    what: NoticeKind,
    client: &[u8],
    path: &[u8],
    agrees: Option<bool>,
) -> Result<(), WantOfMemory>
    ensures { OnOk result (line.new.items ≡ line.old.items ++ label_line (Label.Notice what client.now path.now agrees)) }
{
    four(line, b"notice", notice_text(what), client, path)?;
    match agrees {
        None => {}
        Some(true) => line.extend_from_slice(b" ok")?,
        Some(false) => line.extend_from_slice(b" refuse")?,
    }
    Ok(())
}

/// Appends the words of a label with a space between any two.
fn push_words(line: &mut Vec<u8>, label: &Label) -> Result<(), WantOfMemory>
    ensures { OnOk result (line.new.items ≡ line.old.items ++ label_line label.now) }
{
    match label {
        Label::Did(deed) => push_deed(line, deed),
        Label::Refused { word, reason } => {
            three(line, b"refused", word_text(*word), reason_text(*reason))
        }
        Label::Skip { task, serial } => push_skip(line, *task, *serial),
        Label::Join { serial, path } => push_join(line, *serial, path.bytes()),
        Label::Gone { path } => two(line, b"gone", path.bytes()),
        Label::Listed { path } => two(line, b"listed", path.bytes()),
        Label::Install { path, rank, driver } => {
            push_install(line, path.bytes(), *rank, driver.bytes())
        }
        Label::Trouble { path, problem } => {
            three(line, b"problem", path.bytes(), problem_text(*problem))
        }
        Label::Add { path, driver, ok } => {
            four(line, b"add", path.bytes(), driver.bytes(), ok_text(*ok))
        }
        Label::Assign { path, held } => push_assign(line, path.bytes(), held),
        Label::Fits { path } => two(line, b"fits", path.bytes()),
        Label::NoFit { path } => two(line, b"nofit", path.bytes()),
        Label::Spent { path } => two(line, b"spent", path.bytes()),
        Label::Asked {
            minor,
            path,
            driver,
            shown,
        } => {
            let (path, driver) = (path.bytes(), driver.bytes());
            four(line, minor_text(*minor), path, driver, shown_text(*shown))
        }
        Label::State { path, state } => three(line, b"state", path.bytes(), state_text(*state)),
        Label::Begin { op, path } => three(line, b"begin", op_text(*op), path.bytes()),
        Label::Commit { movers } => push_commit(line, *movers),
        Label::Leave { path } => two(line, b"leave", path.bytes()),
        Label::Ejected { path } => two(line, b"ejected", path.bytes()),
        Label::Handles { path } => two(line, b"handles", path.bytes()),
        Label::Waits { path } => two(line, b"waits", path.bytes()),
        Label::End { op, path, result } => push_end(line, *op, path.bytes(), result),
        Label::Notice {
            what,
            client,
            path,
            agrees,
        } => push_notice(line, *what, client.bytes(), path.bytes(), *agrees),
        Label::Declined { op, path, client } => {
            four(
                line,
                b"declined",
                op_text(*op),
                path.bytes(),
                client.bytes(),
            )
        }
    }
}

/// Appends the line of a label in the trace, with its line feed; after want of memory what was there, and perhaps a part of the line.
/// Cost: the length. This project's own.
pub fn push_line(line: &mut Vec<u8>, label: &Label) -> Result<(), WantOfMemory>
    ensures { OnOk result (line.new.items ≡ line.old.items ++ (label_line label.now ++ 10 ∷ [])) }
{
    push_words(line, label)?;
    line.push(b'\n')?;
    Ok(())
}

/// The line of a label in the trace, with its line feed. Cost: the length. This project's own.
pub fn label_line(alloc: Global, label: &Label) -> Result<Vec<u8>, WantOfMemory>
    ensures { IfOk result (λ line. line.items ≡ label_line label.now ++ 10 ∷ []) }
{
    let mut line = Vec::new(alloc);
    push_line(&mut line, label)?;
    Ok(line)
}
