ghost use Rattle.std.specs.Prelude.{◌≡◌, map};
ghost use Rattle.script_reader.specs.Tables.{among, keyword_of, driver_kind_of, rel_kind_of, kind_of, answer_of, agrees_of, ok_of, minor_of, ask_of};

use crate::words::is_same;
use pnp_labels::{Answer, AskWhat, DriverKind, EventWord, Minor, RelKind};
use resource_reqs::Kind;

const KEYWORDS: [(&[u8], EventWord); 16] = [
    (b"plug", EventWord::Plug),
    (b"pull", EventWord::Pull),
    (b"driver", EventWord::Name),
    (b"teach", EventWord::Teach),
    (b"disable", EventWord::Disable),
    (b"enable", EventWord::Enable),
    (b"eject", EventWord::Eject),
    (b"relate", EventWord::Relate),
    (b"reserve", EventWord::Reserve),
    (b"complete", EventWord::Complete),
    (b"open", EventWord::HandleOpen),
    (b"close", EventWord::HandleClose),
    (b"window", EventWord::Window),
    (b"change", EventWord::Change),
    (b"watch", EventWord::Watch),
    (b"unwatch", EventWord::Unwatch),
];

const DRIVER_KINDS: [(&[u8], DriverKind); 3] = [
    (b"scripted", DriverKind::Scripted),
    (b"steady", DriverKind::Steady),
    (b"stubborn", DriverKind::Stubborn),
];

const REL_KINDS: [(&[u8], RelKind); 2] = [
    (b"removal", RelKind::Removal),
    (b"ejection", RelKind::Ejection),
];

const KINDS: [(&[u8], Kind); 5] = [
    (b"port", Kind::Port),
    (b"irq", Kind::Irq),
    (b"mem", Kind::Mem),
    (b"dma", Kind::Dma),
    (b"bus", Kind::Bus),
];

const ANSWERS: [(&[u8], Answer); 3] = [
    (b"ok", Answer::Ok),
    (b"fail", Answer::Fail),
    (b"pend", Answer::Pend),
];

const AGREEMENTS: [(&[u8], bool); 2] = [(b"ok", true), (b"refuse", false)];

const OKS: [(&[u8], bool); 2] = [(b"ok", true), (b"fail", false)];

const MINORS: [(&[u8], Minor); 8] = [
    (b"START_DEVICE", Minor::Start),
    (b"QUERY_REMOVE_DEVICE", Minor::QueryRemove),
    (b"REMOVE_DEVICE", Minor::Remove),
    (b"CANCEL_REMOVE_DEVICE", Minor::CancelRemove),
    (b"STOP_DEVICE", Minor::Stop),
    (b"QUERY_STOP_DEVICE", Minor::QueryStop),
    (b"CANCEL_STOP_DEVICE", Minor::CancelStop),
    (b"SURPRISE_REMOVAL", Minor::SurpriseRemoval),
];

/// What stands beside the word in the first row that has it.
fn among<T: Copy>(rows: &[(&[u8], T)], word: &[u8]) -> Option<T>
    ensures { result ≡ among (map (λ row. (row.0.now, row.1)) rows.now) word.now }
{
    for row in rows {
        if is_same(row.0, word) {
            return Some(row.1);
        }
    }
    None
}

/// The event that a line is for whose first word this is.
pub fn keyword_of(word: &[u8]) -> Option<EventWord>
    ensures { result ≡ keyword_of word.now }
{
    among(&KEYWORDS, word)
}

/// The kind of driver that the word names.
pub fn driver_kind_of(word: &[u8]) -> Option<DriverKind>
    ensures { result ≡ driver_kind_of word.now }
{
    among(&DRIVER_KINDS, word)
}

/// The kind of relation that the word names.
pub fn rel_kind_of(word: &[u8]) -> Option<RelKind>
    ensures { result ≡ rel_kind_of word.now }
{
    among(&REL_KINDS, word)
}

/// The kind of resource that the word names.
pub fn kind_of(word: &[u8]) -> Option<Kind>
    ensures { result ≡ kind_of word.now }
{
    among(&KINDS, word)
}

/// The answer that the word names.
pub fn answer_of(word: &[u8]) -> Option<Answer>
    ensures { result ≡ answer_of word.now }
{
    among(&ANSWERS, word)
}

/// What a client says of a removal: `ok` or `refuse`.
pub fn agrees_of(word: &[u8]) -> Option<bool>
    ensures { result ≡ agrees_of word.now }
{
    among(&AGREEMENTS, word)
}

/// What `complete` says of the request: `ok` or `fail`.
pub fn ok_of(word: &[u8]) -> Option<bool>
    ensures { result ≡ ok_of word.now }
{
    among(&OKS, word)
}

/// The request that the word names.
pub fn minor_of(word: &[u8]) -> Option<Minor>
    ensures { result ≡ minor_of word.now }
{
    among(&MINORS, word)
}

/// What a driver is asked, as the word names it.
pub fn ask_of(word: &[u8]) -> Option<AskWhat>
    ensures { result ≡ ask_of word.now }
{
    if word == b"add".as_slice() {
        return Some(AskWhat::Add);
    }
    let minor = minor_of(word)?;
    Some(AskWhat::Irp(minor))
}
