//! What the parts of an exploration came to is put together.
ghost use Rattle.std.specs.Prelude.{◌≡◌, ◌<◌, ◌^◌, IfOk, OnOk, length, true};
ghost use Rattle.pnp_io.specs.Outside.{Holds};
ghost use Rattle.ending_tally.specs.Steps.{told};
ghost use Rattle.explore_report.specs.Scripts.{IsPart};
ghost use Rattle.explore_report.specs.Merging.{HasCome, HasMerged, AreMerged};
ghost use Rattle.explore_report.specs.Reports.{part_text};

use crate::error::ReportError;
use crate::part_file::{Of, PartRead, read_part};
use crate::parts::Part;
use device_ids::{TextList, WantOfMemory};
use ending_tally::Tally;
use pnp_io::{Files, read_all};
use std::alloc::Global;

/// The most bytes that a part may have: this project's own.
const MOST_BYTES: u64 = 1_073_741_824;

/// A part comes; whether it is one of these, and did not come before.
fn comes(came: &mut Vec<bool>, part: Part) -> bool
    requires { IsPart part }
    ensures few { length came.new.items ≡ length came.old.items }
    ensures new { result ≡ true → HasCome part came.old.items came.new.items }
{
    if part.of != came.len() as u64 {
        return false;
    }
    let at = part.number as usize - 1;
    let new = !came[at];
    came[at] = true;
    new
}

/// Reads the part of a name.
fn read_named<F: Files>(
    alloc: Global,
    name: &[u8],
    of: Of,
    files: &mut F,
) -> Result<PartRead, ReportError>
    ensures part { IfOk result (λ read. IsPart read.part) }
    ensures written { IfOk result (λ read. Holds (F.contents files.old) name.now (part_text read.part of.entry.mark.now of.entry.count (length of.entry.expected.now.never.items) (told read.tally))) }
    ensures same { F.contents files.new ≡ F.contents files.old }
{
    let text = read_all(alloc, files, name, MOST_BYTES)?;
    match read_part(alloc, &text, of)? {
        Some(read) => Ok(read),
        None => Err(ReportError::BadParts),
    }
}

/// Reads the part of a name, and puts what it tells to the rest.
fn merge_one<F: Files>(
    alloc: Global,
    name: &[u8],
    of: Of,
    files: &mut F,
    came: &mut Vec<bool>,
    tally: &mut Tally,
) -> Result<(), ReportError>
    ensures merged { OnOk result (HasMerged (F.contents files.old) of.entry.mark.now of.entry.count (length of.entry.expected.now.never.items) name.now came.old.items came.new.items (told tally.old) (told tally.new)) }
    ensures same { F.contents files.new ≡ F.contents files.old }
{
    let PartRead { part, tally: own } = read_named(alloc, name, of, files)?;
    if !comes(came, part) {
        return Err(ReportError::BadParts);
    }
    tally.merge(&own)?;
    Ok(())
}

/// Reads the parts of these names, which are to be all parts of one exploration, and puts together what they tell. Cost: their bytes.
pub(crate) fn merge_parts<F: Files>(
    alloc: Global,
    names: &TextList,
    of: Of,
    files: &mut F,
) -> Result<Tally, ReportError>
    requires { length names.now < 2 ^ 32 }
    ensures { IfOk result (λ tally. AreMerged (F.contents files.old) of.entry.mark.now of.entry.count of.entry.expected.now names.now (told tally)) }
{
    let mut tally = Tally::new(alloc, of.expected.never() + of.expected.always())?;
    let mut came = vec![in alloc; false; names.len() as usize]?;
    for at in 0..names.len() {
        merge_one(
            alloc,
            names.get(at).bytes(),
            of,
            files,
            &mut came,
            &mut tally,
        )?;
    }
    if came.iter().all(|came| *came) {
        Ok(tally)
    } else {
        Err(ReportError::BadParts)
    }
}
