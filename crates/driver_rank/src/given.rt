//! The identifiers of a device by their folded texts.
ghost use Rattle.std.specs.Prelude.{◌≡◌, ◌≤◌, ◌<◌, ℕ, List, length, take, true, false, IfOk, OnOk};
ghost use Rattle.device_ids.specs.Folding.{folded};
ghost use Rattle.driver_rank.specs.Best.{given_from, given_of};
ghost use Rattle.driver_rank.specs.Lookups.{base_found, base_mapped, base_among, base_of, base_with, base_at, rank_from_base, id_rank};

use device_ids::{IdList, WantOfMemory};
use std::alloc::Global;
use std::collections::HashMap;

/// The most identifiers of one device that are compared one by one; more stand in a map.
const FEW: u64 = 4;

/// The identifiers of a device, to be found by those of an INF.
#[derive(Drop)]
pub enum GivenIds<'a> {
    /// The hardware IDs and the compatible IDs as they stand, where they are few: to compare them costs less than a map.
    Few(&'a IdList, &'a IdList),
    Mapped(MappedIds),
}

impl<'a> GivenIds<'a> {
    /// The identifiers of a device, to be found by those of few lines or of many. Cost: where lines or identifiers are more than
    /// a few the bytes of all.
    pub fn new(
        alloc: Global,
        hw: &'a IdList,
        compat: &'a IdList,
        few_lines: bool,
    ) -> Result<GivenIds<'a>, WantOfMemory>
        requires hw { length hw.now ≤ 64 }
        requires compat { length compat.now ≤ 64 }
        ensures { IfOk result (λ ids. (q : List ℕ) → base_found ids q ≡ base_of (given_of hw.now compat.now) q) }
    {
        if few_lines && hw.len() + compat.len() <= FEW {
            return Ok(GivenIds::Few(hw, compat));
        }
        Ok(GivenIds::Mapped(MappedIds::new(alloc, hw, compat)?))
    }

    /// What the rank of a match with this ID as the hardware ID of an INF begins with. The buffer is for its folded text.
    fn find(&self, buffer: &mut Vec<u8>, id: &[u8]) -> Result<Option<u16>, WantOfMemory>
        ensures { IfOk result (λ base. base ≡ base_found self.now (folded id.now)) }
    {
        match self {
            GivenIds::Few(hw, compat) => Ok(base_of_few(hw, compat, id)),
            GivenIds::Mapped(ids) => ids.find(buffer, id),
        }
    }

    /// The least rank at which an ID of an INF matches, with a score and at its place on the line. The buffer is for its
    /// folded text. Cost: the length of the ID; of few lines and few IDs of the device at most
    /// four times.
    pub fn rank(
        &self,
        buffer: &mut Vec<u8>,
        score: u8,
        at: u64,
        id: &[u8],
    ) -> Result<Option<u32>, WantOfMemory>
        requires { at < 8 }
        ensures { IfOk result (λ rank. rank ≡ id_rank (base_found self.now) score at id.now) }
    {
        if id.is_empty() {
            return Ok(None);
        }
        match self.find(buffer, id)? {
            Some(base) => Ok(Some(rank_from_base(score, at, base))),
            None => Ok(None),
        }
    }
}

/// What the rank of a match with a hardware ID of an INF begins with, by the folded text: for an ID of the device, its
/// match type and its place.
#[derive(Drop)]
pub struct MappedIds {
    bases: HashMap<Vec<u8>, u16>,
}

impl MappedIds {
    /// The identifiers of a device. Cost: the bytes of all.
    fn new(alloc: Global, hw: &IdList, compat: &IdList) -> Result<MappedIds, WantOfMemory>
        requires hw { length hw.now ≤ 64 }
        requires compat { length compat.now ≤ 64 }
        ensures { IfOk result (λ ids. (q : List ℕ) → base_mapped ids q ≡ base_of (given_of hw.now compat.now) q) }
    {
        let mut ids = MappedIds {
            bases: HashMap::new(alloc),
        };
        ids.put(alloc, compat, true)?;
        ids.put(alloc, hw, false)?;
        Ok(ids)
    }

    /// Puts identifiers before those that are there: the first one of a text is found.
    fn put(&mut self, alloc: Global, ids: &IdList, compatible: bool) -> Result<(), WantOfMemory>
        requires { length ids.now ≤ 64 }
        ensures { OnOk result ((q : List ℕ) → base_mapped self.new q ≡ base_with (base_mapped self.old) (given_from compatible 0 ids.now) q) }
    {
        let mut at = ids.len();
        while at > 0 {
            at -= 1;
            let key = folded(alloc, ids.get(at).bytes())?;
            self.bases.insert(key, base_at(compatible, at))?;
        }
        Ok(())
    }

    /// What is found by the folded text of an ID. The buffer is for that text.
    fn find(&self, buffer: &mut Vec<u8>, id: &[u8]) -> Result<Option<u16>, WantOfMemory>
        ensures { IfOk result (λ base. base ≡ base_mapped self.now (folded id.now)) }
    {
        buffer.clear();
        buffer.extend_from_slice(id)?;
        buffer.make_ascii_lowercase();
        Ok(self.bases.get(buffer.as_slice()).copied())
    }
}

/// What the first hardware ID that agrees gives, else the first compatible ID.
fn base_of_few(hw: &IdList, compat: &IdList, id: &[u8]) -> Option<u16>
    ensures { result ≡ base_with (base_among true compat.now) (given_from false 0 (take 4 hw.now)) (folded id.now) }
{
    match base_among(hw, false, id) {
        Some(base) => Some(base),
        None => base_among(compat, true, id),
    }
}

/// What the first of a few IDs that agrees gives.
fn base_among(ids: &IdList, compatible: bool, id: &[u8]) -> Option<u16>
    ensures { result ≡ base_among compatible ids.now (folded id.now) }
{
    for at in 0..ids.len().min(FEW) {
        if id.eq_ignore_ascii_case(ids.get(at).bytes()) {
            return Some(base_at(compatible, at));
        }
    }
    None
}

/// The bytes with ASCII letters folded.
fn folded(alloc: Global, bytes: &[u8]) -> Result<Vec<u8>, WantOfMemory>
    ensures { IfOk result (λ text. text.items ≡ folded bytes.now) }
{
    let mut text = Vec::from_slice(alloc, bytes)?;
    text.make_ascii_lowercase();
    Ok(text)
}

/// What the rank of a match with the first ID of a line adds to the score.
fn base_at(compatible: bool, at: u64) -> u16
    requires { at < 64 }
    ensures { result ≡ base_at compatible at }
{
    let base = if compatible { 0x2000 } else { 0 };
    base + 8 * at as u16
}

/// The rank of a match at a place of a line.
fn rank_from_base(score: u8, at: u64, base: u16) -> u32
    requires { at < 8 }
    ensures { result ≡ rank_from_base score at base }
{
    let other = if at == 0 { 0 } else { 0x1000 };
    score as u32 * 0x1_0000 + base as u32 + other + at as u32
}
