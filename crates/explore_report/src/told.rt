//! What is asked of the scripts of a family is found out.
ghost use Rattle.std.specs.Prelude.{◌≡◌, ◌<◌, ◌≤◌, ◌-◌, ◌^◌, IfOk, IsErrOf, length};
ghost use Rattle.sha2.specs.Sha256.{sha256};
ghost use Rattle.script_family.specs.Families.{scripts};
ghost use Rattle.script_family.specs.Counts.{capped};
ghost use Rattle.ending_tally.specs.Steps.{told};
ghost use Rattle.explore_report.specs.declared.error.ReportError.TheVariants.{BadWords};
ghost use Rattle.explore_report.specs.Scripts.{IsPart, IsShare, script_text, below_of};
ghost use Rattle.explore_report.specs.Reports.{count_line};
ghost use Rattle.explore_report.specs.Marks.{mark_text};
ghost use Rattle.explore_report.specs.Answers.{is_all, found_by, are_many, is_broken, count_of, IsWholeReport, IsPartReport, TellsWhole, TellsPart, IsMergedReport, IsReport};
ghost use Rattle.explore_report.specs.Merging.{AreMerged};

use crate::error::ReportError;
use crate::mark::mark_of;
use crate::merging::merge_parts;
use crate::part_file::Of;
use crate::parts::{Exploration, Part, Share};
use crate::report::{part_report, push_count, report};
use crate::runs::{Progress, Runs, run_part};
use device_ids::{TextList, WantOfMemory};
use ending_tally::Tally;
use pnp_io::Files;
use script_family::ScriptFamily;
use std::alloc::Global;

/// What the scripts that were looked at say of the expectations. This project's own.
#[derive(Clone, Copy, Debug, PartialEq, Eq)]
pub enum Found {
    /// All scripts were run, and all expectations hold.
    Holds,
    /// One is broken.
    Broken,
    /// None is broken by the scripts that were run, and these were not all.
    NotAll,
}

/// A text that is to be written, and what was found.
#[derive(Drop)]
pub struct Report {
    pub text: Vec<u8>,
    pub found: Found,
}

/// Whether the scripts below a bound are all of a count, which is exact where it is no greater than all that are told apart.
fn is_all(below: u64, count: u64) -> bool
    ensures { result ≡ is_all below count }
{
    below == count && count < u64::MAX
}

/// What is found, by whether an expectation is broken, and whether all scripts were run.
fn found_by(broken: bool, all: bool) -> Found
    ensures { result ≡ found_by broken all }
{
    match (broken, all) {
        (true, _) => Found::Broken,
        (false, true) => Found::Holds,
        (false, false) => Found::NotAll,
    }
}

/// Whether there are more endings than there may be.
fn are_many(most: Option<u64>, endings: usize) -> bool
    ensures { result ≡ are_many most endings }
{
    match most {
        Some(most) => endings as u64 > most,
        None => false,
    }
}

/// Whether a tally has more endings than there may be, or an expectation that is broken.
fn is_broken(most: Option<u64>, tally: &Tally) -> bool
    ensures { result ≡ is_broken most (told tally.now) }
{
    are_many(most, tally.len()) || tally.broken().iter().any(|broken| broken.scripts > 0)
}

/// What is to be told of a family: the scripts below a bound, held against what is expected.
#[derive(Clone, Copy)]
struct Asked<'a> {
    family: &'a ScriptFamily,
    below: u64,
    exploration: &'a Exploration,
    mark: &'a [u8; 32],
}

/// The report on a tally of all scripts below the bound.
fn tell_whole(alloc: Global, asked: Asked, tally: &Tally) -> Result<Report, WantOfMemory>
    ensures { IfOk result (λ r. IsWholeReport asked.entry.family.now asked.entry.exploration.now asked.entry.below (told tally.now) r) }
{
    let exploration = asked.exploration;
    let text = report(alloc, asked.family, exploration.expected.never(), tally)?;
    let all = is_all(asked.below, asked.family.count());
    let found = found_by(is_broken(exploration.endings, tally), all);
    Ok(Report { text, found })
}

/// The report on the tally of a part.
fn tell_part(alloc: Global, asked: Asked, part: Part, tally: &Tally) -> Result<Report, WantOfMemory>
    ensures { IfOk result (λ r. IsPartReport asked.entry.family.now asked.entry.exploration.now asked.entry.below asked.entry.mark.now part (told tally.now) r) }
{
    let count = asked.family.count();
    let never = asked.exploration.expected.never();
    let text = part_report(alloc, count, part, asked.mark, never, tally)?;
    let found = found_by(is_broken(None, tally), is_all(asked.below, count));
    Ok(Report { text, found })
}

/// The tally of all scripts below the bound, which were run in parts.
fn merge<F: Files>(
    alloc: Global,
    asked: Asked,
    names: &TextList,
    files: &mut F,
) -> Result<Tally, ReportError>
    requires { length names.now < 2 ^ 32 }
    ensures { IfOk result (λ tally. AreMerged (F.contents files.old) asked.entry.mark.now (count_of asked.entry.family.now) asked.entry.exploration.now.expected names.now (told tally)) }
{
    let exploration = asked.exploration;
    let of = Of {
        mark: asked.mark,
        count: asked.family.count(),
        below: asked.below,
        exact: exploration.exact,
        expected: &exploration.expected,
    };
    merge_parts(alloc, names, of, files)
}

/// The line that tells how many scripts a family has.
pub fn tell_count(alloc: Global, family: &ScriptFamily) -> Result<Vec<u8>, WantOfMemory>
    ensures { IfOk result (λ text. text.items ≡ count_line (capped (length (scripts family.now.family)))) }
{
    let mut text = Vec::new(alloc);
    push_count(&mut text, family.count())?;
    Ok(text)
}

/// The script of a number, counted from 1; the words are bad where there is none.
pub fn tell_script(family: &ScriptFamily, number: u64) -> Result<Vec<u8>, ReportError>
    ensures script { IfOk result (λ text. (0 < number) × (number ≤ capped (length (scripts family.now.family))) × (text.items ≡ script_text family.now (number - 1))) }
    ensures none { IsErrOf result BadWords → 0 < number → capped (length (scripts family.now.family)) < number }
{
    if number == 0 || number > family.count() {
        return Err(ReportError::BadWords);
    }
    let text = family.script(number - 1)?;
    Ok(text)
}

/// The report on all scripts below the bound, which are run here.
fn explore_whole<R: Runs, P: Progress>(
    alloc: Global,
    asked: Asked,
    runs: &mut R,
    progress: &mut P,
) -> Result<Report, ReportError>
    requires { asked.below ≤ capped (length (scripts asked.family.now.family)) }
    ensures { IfOk result (λ r. TellsWhole (R.shows runs.old) asked.entry.family.now asked.entry.exploration.now asked.entry.below r) }
{
    let Asked {
        family,
        below,
        exploration,
        ..
    } = asked;
    let all = Part { number: 1, of: 1 };
    let tally = run_part(alloc, family, all, below, exploration, runs, progress)?;
    let report = tell_whole(alloc, asked, &tally)?;
    Ok(report)
}

/// The report on the scripts of a part, which are run here.
fn explore_part<R: Runs, P: Progress>(
    alloc: Global,
    asked: Asked,
    part: Part,
    runs: &mut R,
    progress: &mut P,
) -> Result<Report, ReportError>
    requires below { asked.below ≤ capped (length (scripts asked.family.now.family)) }
    requires part { IsPart part }
    ensures { IfOk result (λ r. TellsPart (R.shows runs.old) asked.entry.family.now asked.entry.exploration.now asked.entry.below asked.entry.mark.now part r) }
{
    let Asked {
        family,
        below,
        exploration,
        ..
    } = asked;
    let tally = run_part(alloc, family, part, below, exploration, runs, progress)?;
    let report = tell_part(alloc, asked, part, &tally)?;
    Ok(report)
}

/// The report on what the parts in these files came to.
fn explore_merged<F: Files>(
    alloc: Global,
    asked: Asked,
    names: &TextList,
    files: &mut F,
) -> Result<Report, ReportError>
    requires { length names.now < 2 ^ 32 }
    ensures { IfOk result (λ r. IsMergedReport (F.contents files.old) asked.entry.family.now asked.entry.exploration.now asked.entry.below asked.entry.mark.now names.now r) }
{
    let tally = merge(alloc, asked, names, files)?;
    let report = tell_whole(alloc, asked, &tally)?;
    Ok(report)
}

/// The same as `explore_family`, of what is asked.
fn explore_asked<R: Runs, F: Files, P: Progress>(
    alloc: Global,
    asked: Asked,
    runs: &mut R,
    files: &mut F,
    progress: &mut P,
) -> Result<Report, ReportError>
    requires below { asked.below ≤ capped (length (scripts asked.family.now.family)) }
    requires share { IsShare asked.exploration.now.share }
    ensures { IfOk result (λ r. IsReport (R.shows runs.old) (F.contents files.old) asked.entry.family.now asked.entry.exploration.now asked.entry.below asked.entry.mark.now asked.entry.exploration.now.share r) }
{
    match &asked.exploration.share {
        Share::Whole => explore_whole(alloc, asked, runs, progress),
        Share::Part(part) => explore_part(alloc, asked, *part, runs, progress),
        Share::Merged(names) => explore_merged(alloc, asked, names, files),
    }
}

/// What is asked of the scripts of a family: they are run by what is given, or the parts that the words name are read. The digests are
/// those of the family's text and of each INF. Condition: a part has a number from 1 to how many parts there are.
pub fn explore_family<R: Runs, F: Files, P: Progress>(
    alloc: Global,
    family: &ScriptFamily,
    text_digest: &[u8; 32],
    inf_digests: &[[u8; 32]],
    exploration: &Exploration,
    runs: &mut R,
    files: &mut F,
    progress: &mut P,
) -> Result<Report, ReportError>
    requires { IsShare exploration.now.share }
    ensures { IfOk result (λ r. IsReport (R.shows runs.old) (F.contents files.old) family.now exploration.now (below_of family.now exploration.now) (sha256 (mark_text text_digest.now inf_digests.now exploration.now)) exploration.now.share r) }
{
    let mark = mark_of(alloc, text_digest, inf_digests, exploration)?;
    let below = family.count().min(exploration.first);
    let asked = Asked {
        family,
        below,
        exploration,
        mark: &mark,
    };
    explore_asked(alloc, asked, runs, files, progress)
}
