//! A tally.
ghost use Rattle.std.specs.Prelude.{◌≡◌, ℕ, List, ◌∷◌, ◌++◌, [], ◌+◌, ◌<◌, length, map, OnOk, IfOk, replicate, slice_set, Some};
ghost use Rattle.std.specs.Option.{option_map, IfSome};
ghost use Rattle.std.specs.FinMap.{empty, values, len};
ghost use Rattle.ending_tally.specs.Tallies.{Run, IsTally, is_broken_at, capped, mark_at, no_mark};
ghost use Rattle.ending_tally.specs.Steps.{told, both, mark_if, with_kind, with_ended, ended, by_first};

use device_ids::WantOfMemory;
use std::alloc::Global;
use std::collections::BTreeMap;

/// How many scripts, and the least of their numbers; 0 where there is none. This project's own.
#[derive(Clone, Copy)]
pub struct Mark {
    /// How many.
    pub scripts: u64,
    /// The least number.
    pub first: u64,
}

/// An ending to which scripts came. This project's own.
#[derive(Drop)]
pub struct Ending {
    /// How many scripts, and the least of their numbers.
    pub mark: Mark,
    /// The text of the ending of the script with that number.
    pub text: Vec<u8>,
}

/// What the runs of scripts come to. After want of memory a tally is of no more use. A contract sees what it tells (`told`). This project's own.
#[derive(Drop)]
pub struct Tally {
    alloc: Global,
    scripts: u64,
    broken: Vec<Mark>,
    /// Under what makes two endings one: the plain form, or the text.
    endings: BTreeMap<Vec<u8>, Ending>,
}

/// The mark of no script.
const NONE: Mark = Mark {
    scripts: 0,
    first: 0,
};

/// Both marks.
fn both(one: Mark, other: Mark) -> Mark
    ensures { result ≡ both one other }
{
    if other.scripts == 0 {
        return one;
    }
    if one.scripts == 0 {
        return other;
    }
    Mark {
        scripts: one.scripts.saturating_add(other.scripts),
        first: one.first.min(other.first),
    }
}

/// The mark of the script of a number, or of none.
fn mark_if(there: bool, number: u64) -> Mark
    ensures { result ≡ mark_if there number }
{
    if there {
        Mark {
            scripts: 1,
            first: number,
        }
    } else {
        NONE
    }
}

/// A script of this number is put to the marks of the expectations that it breaks.
fn mark_broken(marks: &mut Vec<Mark>, number: u64, broken: &[bool])
    ensures few { length marks.new.items ≡ length marks.old.items }
    ensures each { (place : ℕ) → place < length marks.old.items → mark_at marks.new.items place ≡ both (mark_at marks.old.items place) (mark_if (is_broken_at broken.now place) number) }
{
    for at in 0..marks.len() {
        let is_broken = broken.get(at).copied().unwrap_or(false);
        marks[at] = both(marks[at], mark_if(is_broken, number));
    }
}

/// Marks of other scripts are put to those of the same expectations.
fn mark_all(marks: &mut Vec<Mark>, others: &[Mark])
    ensures few { length marks.new.items ≡ length marks.old.items }
    ensures each { (place : ℕ) → place < length marks.old.items → mark_at marks.new.items place ≡ both (mark_at marks.old.items place) (mark_at others.now place) }
{
    for at in 0..marks.len() {
        marks[at] = both(marks[at], others.get(at).copied().unwrap_or(NONE));
    }
}

/// An ending to which more scripts came.
fn raised(alloc: Global, ending: Ending, mark: Mark, text: &[u8]) -> Result<Ending, WantOfMemory>
    ensures { IfOk result (λ more. ended more ≡ with_ended (Some (ended ending)) (record { mark = mark; text = text.now })) }
{
    let Ending {
        mark: before,
        text: known,
    } = ending;
    let first = if mark.first < before.first {
        Vec::from_slice(alloc, text)?
    } else {
        known
    };
    Ok(Ending {
        mark: both(before, mark),
        text: first,
    })
}

/// What stands under a kind, after more scripts came: under the key that was there, or a copy of the kind. Condition: the key that was there is the kind.
fn with_more(
    alloc: Global,
    found: Option<(Vec<u8>, Ending)>,
    kind: &[u8],
    mark: Mark,
    text: &[u8],
) -> Result<(Vec<u8>, Ending), WantOfMemory>
    requires { IfSome found (λ e. e.0.items ≡ kind.now) }
    ensures key { IfOk result (λ e. e.0.items ≡ kind.now) }
    ensures ending { IfOk result (λ e. ended e.1 ≡ with_ended (option_map (λ e. ended e.1) found) (record { mark = mark; text = text.now })) }
{
    match found {
        Some((key, ending)) => Ok((key, raised(alloc, ending, mark, text)?)),
        None => {
            let key = Vec::from_slice(alloc, kind)?;
            let text = Vec::from_slice(alloc, text)?;
            Ok((key, Ending { mark, text }))
        }
    }
}

impl Tally {
    /// The tally of no scripts, with so many expectations.
    pub fn new(alloc: Global, few: usize) -> Result<Tally, WantOfMemory>
        ensures tally { IfOk result (λ tally. IsTally few [] (told tally)) }
        ensures empty { IfOk result (λ tally. told tally ≡ record { scripts = 0; broken = replicate few no_mark; endings = empty }) }
    {
        Ok(Tally {
            alloc,
            scripts: 0,
            broken: vec![in alloc; NONE; few]?,
            endings: BTreeMap::new(alloc),
        })
    }

    /// Adds the script of this number: which expectations it breaks, its ending's kind and text. Cost: the length of both, for each of a logarithm of endings.
    pub fn add(
        &mut self,
        number: u64,
        broken: &[bool],
        kind: &[u8],
        text: &[u8],
    ) -> Result<(), WantOfMemory>
        ensures { OnOk result ((few : ℕ) (runs : List Run) → IsTally few runs (told self.old)
            → IsTally few (runs ++ record { number = number; broken = broken.now; kind = kind.now; text = text.now } ∷ []) (told self.new)) }
    {
        let one = Mark {
            scripts: 1,
            first: number,
        };
        self.add_scripts(1);
        mark_broken(&mut self.broken, number, broken);
        self.add_ending(kind, one, text)
    }

    /// Adds to the number of scripts.
    pub fn add_scripts(&mut self, scripts: u64)
        ensures { told self.new ≡ record (told self.old) { scripts = capped (self.old.scripts + scripts) } }
    {
        self.scripts = self.scripts.saturating_add(scripts);
    }

    /// Adds scripts that break the expectation of this place, if there is one.
    pub fn add_broken(&mut self, place: usize, mark: Mark)
        ensures { told self.new ≡ record (told self.old) { broken = slice_set (told self.old).broken place (both (mark_at (told self.old).broken place) mark) } }
    {
        if let Some(broken) = self.broken.get_mut(place) {
            *broken = both(*broken, mark);
        }
    }

    /// Adds scripts that came to an ending, with the text of the ending of the first of them. Cost: the length of both, for each of a logarithm of endings.
    pub fn add_ending(&mut self, kind: &[u8], mark: Mark, text: &[u8]) -> Result<(), WantOfMemory>
        ensures { OnOk result (told self.new ≡ record (told self.old) { endings = with_kind (told self.old).endings kind.now (record { mark = mark; text = text.now }) }) }
    {
        let found = self.endings.remove_entry(kind);
        let (key, ending) = with_more(self.alloc, found, kind, mark, text)?;
        self.endings.insert(key, ending)?;
        Ok(())
    }

    /// Adds the tally of other scripts. Cost: that of adding each of its endings.
    pub fn merge(&mut self, other: &Tally) -> Result<(), WantOfMemory>
        ensures { OnOk result ((few : ℕ) (runs others : List Run) → IsTally few runs (told self.old) → IsTally few others (told other.now) → IsTally few (runs ++ others) (told self.new)) }
    {
        self.add_scripts(other.scripts);
        mark_all(&mut self.broken, &other.broken);
        for (kind, ending) in other.endings.iter() {
            self.add_ending(kind, ending.mark, &ending.text)?;
        }
        Ok(())
    }

    /// How many scripts were run.
    pub fn scripts(&self) -> u64
        ensures { result ≡ (told self.now).scripts }
    {
        self.scripts
    }

    /// For each expectation the scripts that break it.
    pub fn broken(&self) -> &[Mark]
        ensures { result.now ≡ (told self.now).broken }
    {
        &self.broken
    }

    /// How many endings there are.
    pub fn len(&self) -> usize
        ensures { result ≡ len (told self.now).endings }
    {
        self.endings.len()
    }

    /// The endings, by their first scripts. Cost: their number, times its logarithm.
    pub fn endings(&self) -> Result<Vec<&Ending>, WantOfMemory>
        ensures { IfOk result (λ all. map (λ e. ended e.now) all.items ≡ by_first (values (told self.now).endings)) }
    {
        let mut all = Vec::new(self.alloc);
        for ending in self.endings.values() {
            all.push(ending)?;
        }
        all.sort_by_key(|ending| ending.mark.first)?;
        Ok(all)
    }
}
