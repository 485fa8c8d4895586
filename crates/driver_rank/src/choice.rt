//! The drivers that are chosen for a device.
ghost use Rattle.std.specs.Prelude.{◌≡◌, IfOk};
ghost use Rattle.driver_rank.specs.Best.{choice_of};
ghost use Rattle.driver_rank.specs.Candidates.{match_of};

use crate::candidate::Candidate;
use device_ids::{Text, TextList, WantOfMemory};
use std::alloc::Global;

/// What the best models line gives for a device, with where it stands and how well it matches (the driver kit, "How
/// Windows Selects a Driver Package for a Device").
#[derive(Drop)]
pub struct Choice {
    /// The place of its INF among those that are named, from 0.
    pub inf: u32,
    /// The number of the line in its INF, from 1.
    pub line: u32,
    /// How well it matches; less is better. This project's own number.
    pub rank: u32,
    /// The service of the function driver, if one is named.
    pub service: Option<Text>,
    /// The lower filters, in order.
    pub lower: TextList,
    /// The upper filters, in order.
    pub upper: TextList,
}

/// Texts copied.
fn copied(alloc: Global, from: &TextList) -> Result<TextList, WantOfMemory>
    ensures { IfOk result (λ texts. texts ≡ from.now) }
{
    let mut texts = TextList::new(alloc);
    for at in 0..from.len() {
        texts.push(from.get(at).copy(alloc)?)?;
    }
    Ok(texts)
}

/// A service copied, if there is one.
fn copied_service(alloc: Global, from: &Option<Text>) -> Result<Option<Text>, WantOfMemory>
    ensures { IfOk result (λ service. service ≡ from.now) }
{
    match from {
        Some(service) => Ok(Some(service.copy(alloc)?)),
        None => Ok(None),
    }
}

/// What the line of a match gives.
pub fn choice_of(alloc: Global, best: &Candidate) -> Result<Choice, WantOfMemory>
    ensures { IfOk result (λ choice. choice ≡ choice_of (match_of best.now)) }
{
    let line = best.line;
    let service = copied_service(alloc, &line.service)?;
    let lower = copied(alloc, &line.lower)?;
    let upper = copied(alloc, &line.upper)?;
    Ok(Choice {
        inf: best.number,
        line: line.line,
        rank: best.rank,
        service,
        lower,
        upper,
    })
}
