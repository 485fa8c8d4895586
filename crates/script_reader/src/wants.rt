ghost use Rattle.std.specs.Prelude.{◌≡◌, ◌<◌, ◌≤◌, ◌+◌, ◌^◌, length, map, IfOk};
ghost use Rattle.std.specs.Option.{option_map};
ghost use Rattle.script_reader.specs.Faults.{Gives};
ghost use Rattle.script_reader.specs.Wants.{tail_at, shared_of, number_or_one, range_at, size_at, want_from, sized_by, sized, counted, want_by, want_of, all_of, group_of, list_of, id_of, id_in, ids_of};

use crate::cause::Cause;
use crate::causes::{range_cause, size_cause, tail_cause};
use crate::fault::{LineError, fault};
use crate::numbers::{number_of, range_in};
use crate::pushes::{push_group, push_want};
use crate::tables::kind_of;
use device_ids::{DeviceId, IdError, IdList, cut, split_once};
use resource_reqs::{AltList, Group, Kind, Want};
use std::alloc::Global;

/// The most identifiers of an attribute.
const MOST_IDS: usize = 64;

/// The most wants of a group, and groups of a list.
const MOST_PARTS: usize = 16;

/// The text without its tail, and the tail behind the first such byte.
fn tail_at(text: &[u8], at: u8) -> (&[u8], Option<&[u8]>)
    ensures { (result.0.now, option_map (λ x. x.now) result.1) ≡ tail_at at text.now }
{
    match split_once(text, at) {
        Some((front, tail)) => (front, Some(tail)),
        None => (text, None),
    }
}

/// Whether the tail is the word for sharing; none where it is another.
fn shared_of(tail: Option<&[u8]>) -> Option<bool>
    ensures { result ≡ shared_of (option_map (λ x. x.now) tail.entry) }
{
    let Some(text) = tail else {
        return Some(false);
    };
    if text == b"shared".as_slice() {
        return Some(true);
    }
    None
}

/// The number that the tail is, and 1 where there is none.
fn number_or_one(tail: Option<&[u8]>) -> Option<u64>
    ensures { result ≡ number_or_one (option_map (λ x. x.now) tail.entry) }
{
    match tail {
        Some(text) => number_of(text),
        None => Some(1),
    }
}

/// The range that the text is; a fault names the whole word.
pub fn range_at<'a>(whole: &'a [u8], kind: Kind, text: &[u8]) -> Result<(u64, u64), LineError<'a>>
    ensures gives { Gives result (range_at whole.now kind text.now) }
    ensures ordered { IfOk result (λ range. range.0 ≤ range.1) }
{
    match range_in(kind, text) {
        Some(range) => Ok(range),
        None => Err(LineError::Bad(fault(range_cause(text), whole))),
    }
}

/// The length or the alignment that the tail is.
fn size_at<'a>(whole: &'a [u8], tail: Option<&[u8]>) -> Result<u64, LineError<'a>>
    ensures { Gives result (size_at whole.now (option_map (λ x. x.now) tail.entry)) }
{
    match number_or_one(tail) {
        Some(number) => Ok(number),
        None => Err(LineError::Bad(fault(tail_cause(tail), whole))),
    }
}

/// The want of these numbers, if it is one.
fn want_from<'a>(
    whole: &'a [u8],
    kind: Kind,
    range: (u64, u64),
    len: u64,
    align: u64,
    shared: bool,
) -> Result<Want, LineError<'a>>
    ensures { Gives result (want_from whole.now kind range len align shared) }
{
    match Want::make(kind, range.0, range.1, len, align, shared) {
        Ok(want) => Ok(want),
        Err(_) => Err(LineError::Bad(fault(size_cause(len, align), whole))),
    }
}

/// A want of a range and a length, with this alignment.
fn sized_by<'a>(
    whole: &'a [u8],
    kind: Kind,
    text: &[u8],
    align: Option<&[u8]>,
    shared: bool,
) -> Result<Want, LineError<'a>>
    ensures { Gives result (sized_by whole.now kind text.now (option_map (λ x. x.now) align.entry) shared) }
{
    let (range, len) = tail_at(text, b'/');
    let range = range_at(whole, kind, range)?;
    let len = size_at(whole, len)?;
    let align = size_at(whole, align)?;
    want_from(whole, kind, range, len, align, shared)
}

/// A want of ports or memory: a range, a length and an alignment.
fn sized<'a>(whole: &'a [u8], kind: Kind, text: &[u8], shared: bool) -> Result<Want, LineError<'a>>
    ensures { Gives result (sized whole.now kind text.now shared) }
{
    let (text, align) = tail_at(text, b'@');
    sized_by(whole, kind, text, align, shared)
}

/// A want of an interrupt or a DMA channel: a range.
fn counted<'a>(
    whole: &'a [u8],
    kind: Kind,
    text: &[u8],
    shared: bool,
) -> Result<Want, LineError<'a>>
    ensures { Gives result (counted whole.now kind text.now shared) }
{
    let range = range_at(whole, kind, text)?;
    want_from(whole, kind, range, 1, 1, shared)
}

/// The want of this kind; that of bus numbers has no alignment.
fn want_by<'a>(
    whole: &'a [u8],
    kind: Kind,
    text: &[u8],
    shared: bool,
) -> Result<Want, LineError<'a>>
    ensures { Gives result (want_by whole.now kind text.now shared) }
{
    match kind {
        Kind::Port => sized(whole, Kind::Port, text, shared),
        Kind::Irq => counted(whole, Kind::Irq, text, shared),
        Kind::Mem => sized(whole, Kind::Mem, text, shared),
        Kind::Dma => counted(whole, Kind::Dma, text, shared),
        Kind::Bus => sized_by(whole, Kind::Bus, text, None, shared),
    }
}

/// The want that the text is.
fn want_of(text: &[u8]) -> Result<Want, LineError<'_>>
    ensures { Gives result (want_of text.now) }
{
    let Some((kind, form)) = split_once(text, b':') else {
        return Err(LineError::Bad(fault(Cause::NoKind, text)));
    };
    let Some(kind) = kind_of(kind) else {
        return Err(LineError::Bad(fault(Cause::NotKind, text)));
    };
    let (form, share) = tail_at(form, b':');
    let Some(shared) = shared_of(share) else {
        return Err(LineError::Bad(fault(Cause::NotShared, text)));
    };
    want_by(text, kind, form, shared)
}

/// The group that the text is.
fn group_of<'a>(alloc: Global, text: &'a [u8]) -> Result<Group, LineError<'a>>
    ensures { Gives result (group_of text.now) }
{
    let parts = cut(alloc, text, b'|')?;
    if parts.len() > MOST_PARTS {
        return Err(LineError::Bad(fault(Cause::ManyWants, text)));
    }
    let mut group = Group::new(alloc);
    for part in &parts {
        push_want(&mut group, want_of(part)?)?;
    }
    Ok(group)
}

/// The alternative list that the text is.
pub fn list_of<'a>(alloc: Global, text: &'a [u8]) -> Result<AltList, LineError<'a>>
    ensures { Gives result (list_of text.now) }
{
    let parts = cut(alloc, text, b';')?;
    if parts.len() > MOST_PARTS {
        return Err(LineError::Bad(fault(Cause::ManyGroups, text)));
    }
    let mut list = AltList::new(alloc);
    for part in &parts {
        push_group(&mut list, group_of(alloc, part)?)?;
    }
    Ok(list)
}

/// The identifier that the text is.
pub fn id_of<'a>(alloc: Global, text: &'a [u8]) -> Result<DeviceId, LineError<'a>>
    ensures { Gives result (id_of text.now) }
{
    match DeviceId::read(alloc, text) {
        Ok(id) => Ok(id),
        Err(IdError::WantOfMemory) => Err(LineError::WantOfMemory),
        Err(_) => Err(LineError::Bad(fault(Cause::NotId, text))),
    }
}

/// The identifier that the text of a list is; an empty one is told by the whole list.
fn id_in<'a>(alloc: Global, whole: &'a [u8], text: &'a [u8]) -> Result<DeviceId, LineError<'a>>
    ensures { Gives result (id_in whole.now text.now) }
{
    if text.is_empty() {
        return Err(LineError::Bad(fault(Cause::EmptyId, whole)));
    }
    id_of(alloc, text)
}

/// The identifiers that the text is.
pub fn ids_of<'a>(alloc: Global, text: &'a [u8]) -> Result<IdList, LineError<'a>>
    ensures { Gives result (ids_of text.now) }
{
    let parts = cut(alloc, text, b',')?;
    if parts.len() > MOST_IDS {
        return Err(LineError::Bad(fault(Cause::ManyIds, text)));
    }
    let mut ids = IdList::new(alloc);
    for part in &parts {
        ids.push(id_in(alloc, text, part)?)?;
    }
    Ok(ids)
}
