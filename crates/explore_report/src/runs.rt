//! The scripts of a family are run one after another.
ghost use Rattle.std.specs.Prelude.{◌≡◌, ◌≤◌, ◌<◌, ℕ, List, [], IfOk, OnOk, length};
ghost use Rattle.script_family.specs.Families.{scripts};
ghost use Rattle.script_family.specs.Counts.{capped};
ghost use Rattle.ending_tally.specs.Steps.{told};
ghost use Rattle.explore_report.specs.Expectations.{HasSeen};
ghost use Rattle.explore_report.specs.Scripts.{IsSeen, HasRun, IsTallyOf, IsPart, kind_of, numbers_of};

use crate::expected::{Expected, Seen};
use crate::part_file::scripts_in;
use crate::parts::{Exploration, Part};
use device_ids::WantOfMemory;
use ending_tally::{Tally, plain_ending};
use script_family::ScriptFamily;
use std::alloc::Global;

/// What runs scripts. A contract sees what the run of each script shows: the lines of its trace, and the end of its output. This project's own.
pub trait Runs: Drop {
    ghost use Rattle.std.specs.Prelude.{◌≡◌, List, ℕ};

    /// The run of a script has these lines of its trace, and this end of its output.
    ghost shows: { Self → List ℕ → List (List ℕ) → List ℕ → Type 0 };

    /// Runs a script from the start; each line of its trace is shown to what is expected, and the end of its output is answered. What the runs of
    /// scripts show stays as it was. Conditions: the script has at most 16,777,216 bytes, and no line was seen before.
    fn run(
        &mut self,
        script: &[u8],
        expected: &Expected,
        seen: &mut Seen,
    ) -> Result<Vec<u8>, WantOfMemory>
        requires small { length script.now ≤ 16777216 }
        requires cleared { HasSeen expected.now [] seen.old }
        ensures shown { IfOk result (λ text. IsSeen (shows self.old script.now) expected.now seen.new text.items) }
        ensures same { OnOk result ((other : List ℕ) (lines : List (List ℕ)) (text : List ℕ) → shows self.new other lines text → shows self.old other lines text) };

    /// A script has one run.
    ghost one: { (runs : Self) (script : List ℕ) (lines others : List (List ℕ)) (text other : List ℕ) → shows runs script lines text → shows runs script others other → (lines ≡ others) × (text ≡ other) };
}

/// Where it is told how far the runs are. This project's own.
pub trait Progress {
    /// So many scripts were run, of so many.
    fn tell(&mut self, done: u64, of: u64);
}

/// What makes an ending one with other endings: its text, or its plain form.
fn kind_of(alloc: Global, exact: bool, text: &[u8]) -> Result<Vec<u8>, WantOfMemory>
    ensures { IfOk result (λ kind. kind.items ≡ kind_of exact text.now) }
{
    if exact {
        Ok(Vec::from_slice(alloc, text)?)
    } else {
        plain_ending(alloc, text)
    }
}

/// The script of a number is run, and what it comes to is added.
fn run_one<R: Runs>(
    alloc: Global,
    family: &ScriptFamily,
    number: u64,
    exploration: &Exploration,
    runs: &mut R,
    seen: &mut Seen,
    tally: &mut Tally,
) -> Result<(), WantOfMemory>
    requires below { number < capped (length (scripts family.now.family)) }
    requires seen { (lines : List (List ℕ)) × HasSeen exploration.now.expected lines seen.old }
    ensures ran { OnOk result (HasRun (R.shows runs.old) family.now exploration.now.expected exploration.now.exact number (told tally.old) (told tally.new)) }
    ensures seen { OnOk result ((lines : List (List ℕ)) × HasSeen exploration.now.expected lines seen.new) }
    ensures same { OnOk result ((other : List ℕ) (lines : List (List ℕ)) (text : List ℕ) → R.shows runs.new other lines text → R.shows runs.old other lines text) }
{
    let script = family.script(number)?;
    seen.clear();
    let ending = runs.run(&script, &exploration.expected, seen)?;
    let broken = seen.broken(alloc)?;
    let kind = kind_of(alloc, exploration.exact, &ending)?;
    tally.add(number, &broken, &kind, &ending)
}

/// After how many scripts it is told how far the runs are.
const EACH: u64 = 1_024;

/// It is told, now and then, how far the runs are.
fn tell_progress<P: Progress>(done: u64, of: u64, progress: &mut P) {
    if done % EACH == 0 || done == of {
        progress.tell(done, of);
    }
}

/// The scripts of a part, of those below a bound, are run: what they come to. Cost: for each script that of its run.
pub(crate) fn run_part<R: Runs, P: Progress>(
    alloc: Global,
    family: &ScriptFamily,
    part: Part,
    below: u64,
    exploration: &Exploration,
    runs: &mut R,
    progress: &mut P,
) -> Result<Tally, WantOfMemory>
    requires below { below ≤ capped (length (scripts family.now.family)) }
    requires part { IsPart part }
    ensures { IfOk result (λ tally. IsTallyOf (R.shows runs.old) family.now exploration.now.expected exploration.now.exact (numbers_of part below) (told tally)) }
{
    let expected = &exploration.expected;
    let mut tally = Tally::new(alloc, expected.never() + expected.always())?;
    let mut seen = Seen::none(alloc, expected)?;
    let all = scripts_in(part, below);
    let mut number = part.number - 1;
    let mut done = 0u64;
    'numbers: while number < below {
        run_one(
            alloc,
            family,
            number,
            exploration,
            runs,
            &mut seen,
            &mut tally,
        )?;
        done = done.saturating_add(1);
        tell_progress(done, all, progress);
        number = number.saturating_add(part.of);
    }
    Ok(tally)
}
