//! Why of two lines of the same rank one is taken.
use crate::lines::Lines;
use crate::matches::Match;
use device_ids::WantOfMemory;
use std::alloc::Global;

/// A number of two digits.
fn add_two_digits(alloc: Global, number: u32, lines: &mut Lines) -> Result<(), WantOfMemory> {
    if number < 10 {
        lines.add(b"0")?;
    }
    lines.add_number(alloc, number as u64)
}

/// A date as month, day and year.
fn add_date(alloc: Global, date: u32, lines: &mut Lines) -> Result<(), WantOfMemory> {
    add_two_digits(alloc, date / 100 % 100, lines)?;
    lines.add(b"/")?;
    add_two_digits(alloc, date % 100, lines)?;
    lines.add(b"/")?;
    lines.add_number(alloc, (date / 10_000) as u64)
}

/// A version as four numbers.
fn add_version(alloc: Global, version: u64, lines: &mut Lines) -> Result<(), WantOfMemory> {
    lines.add_number(alloc, version / 0x1_0000_0000_0000)?;
    lines.add(b".")?;
    lines.add_number(alloc, version / 0x1_0000_0000 % 0x1_0000)?;
    lines.add(b".")?;
    lines.add_number(alloc, version / 0x1_0000 % 0x1_0000)?;
    lines.add(b".")?;
    lines.add_number(alloc, version % 0x1_0000)
}

/// The date and the version of the INF of a line.
fn add_driver_version(alloc: Global, found: &Match, lines: &mut Lines) -> Result<(), WantOfMemory> {
    if found.date == 0 {
        return lines.add(b"none");
    }
    add_date(alloc, found.date, lines)?;
    lines.add(b",")?;
    add_version(alloc, found.version, lines)
}

/// That the DriverVer of a line is older than that of the line that was taken.
fn add_older(
    alloc: Global,
    what: &[u8],
    found: &Match,
    taken: &Match,
    lines: &mut Lines,
) -> Result<(), WantOfMemory> {
    lines.add(what)?;
    add_driver_version(alloc, found, lines)?;
    lines.add(b" against ")?;
    add_driver_version(alloc, taken, lines)
}

/// Why a line of the same rank is behind the one that was taken; nothing where the rank says it.
pub fn add_tie(
    alloc: Global,
    found: &Match,
    taken: &Match,
    lines: &mut Lines,
) -> Result<(), WantOfMemory> {
    if found.rank != taken.rank {
        return Ok(());
    }
    if found.date != taken.date {
        let older = b". The rank is the same, and its DriverVer is older: ";
        return add_older(alloc, older, found, taken, lines);
    }
    if found.version != taken.version {
        let lower = b". The rank and the date are the same, and its version is lower: ";
        return add_older(alloc, lower, found, taken, lines);
    }
    if found.inf != taken.inf {
        lines.add(b". Rank and DriverVer are the same, and its INF is named later: INF ")?;
        lines.add_number(alloc, found.inf.saturating_add(1))?;
        lines.add(b" against INF ")?;
        return lines.add_number(alloc, taken.inf.saturating_add(1));
    }
    lines.add(b". Rank and INF are the same, and it stands later: line ")?;
    lines.add_number(alloc, found.line as u64)?;
    lines.add(b" against line ")?;
    lines.add_number(alloc, taken.line as u64)
}
