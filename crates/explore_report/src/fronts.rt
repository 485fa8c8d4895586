//! Which of the endings before has a first script that goes longest together with another one.
ghost use Rattle.std.specs.Prelude.{◌≡◌, ◌++◌, ◌∷◌, [], IfOk, map, length};
ghost use Rattle.explore_report.specs.Fronts.{key_of, edges_of, Puts, IsLongest, AreFrontsOf, HasTaken};

use device_ids::WantOfMemory;
use std::alloc::{AllocError, Global};
use std::collections::BTreeMap;

/// How far two scripts go together.
#[derive(Clone, Copy, PartialEq, Eq)]
pub(crate) struct Together {
    /// The place of the other ending.
    pub(crate) other: usize,
    /// How many lines both begin with.
    pub(crate) lines: usize,
}

/// The fronts of the scripts that were taken, each with a number; that of the empty one is 0.
#[derive(Drop)]
pub(crate) struct Fronts {
    /// The number of a front, by the number of the front without its last line, and this line.
    longer: BTreeMap<Vec<u8>, usize>,
    /// For each front the place of the first ending whose script begins with it.
    first: Vec<usize>,
}

/// What the number of a longer front is found by.
fn key(alloc: Global, front: usize, line: &[u8]) -> Result<Vec<u8>, WantOfMemory>
    ensures { IfOk result (λ key. key.items ≡ key_of front line.now) }
{
    let mut key = Vec::from_slice(alloc, &(front as u64).to_le_bytes())?;
    key.extend_from_slice(line)?;
    Ok(key)
}

impl Fronts {
    /// The empty front alone, of the first ending.
    pub(crate) fn new(alloc: Global) -> Result<Fronts, WantOfMemory>
        ensures { IfOk result (AreFrontsOf []) }
    {
        let mut first = Vec::new(alloc);
        first.push(0)?;
        Ok(Fronts {
            longer: BTreeMap::new(alloc),
            first,
        })
    }

    /// The number of the front with one line more, if there is one.
    fn with_line(
        &self,
        alloc: Global,
        front: usize,
        line: &[u8],
    ) -> Result<Option<usize>, WantOfMemory>
        ensures { IfOk result (λ next. next ≡ edges_of self.now.longer front line.now) }
    {
        let key = key(alloc, front, line)?;
        Ok(self.longer.get(&key).copied())
    }

    /// One more front, of the ending at a place.
    fn add(
        &mut self,
        alloc: Global,
        at: usize,
        front: usize,
        line: &[u8],
    ) -> Result<usize, AllocError>
        ensures number { IfOk result (λ next. next ≡ length self.old.first.items) }
        ensures first { IfOk result (λ _. self.new.first.items ≡ self.old.first.items ++ at ∷ []) }
        ensures longer { IfOk result (λ _. Puts (edges_of self.old.longer) (edges_of self.new.longer) front line.now (length self.old.first.items)) }
    {
        let number = self.first.len();
        self.longer.insert(key(alloc, front, line)?, number)?;
        self.first.push(at)?;
        Ok(number)
    }

    /// The longest front of these lines that there is, by its number, and how many lines it has.
    fn longest(&self, alloc: Global, lines: &[&[u8]]) -> Result<(usize, usize), WantOfMemory>
        ensures { IfOk result (λ r. IsLongest (edges_of self.now.longer) (map (λ line. line.now) lines.now) r.0 r.1) }
    {
        let mut front = 0;
        for at in 0..lines.len() {
            match self.with_line(alloc, front, lines[at])? {
                Some(next) => front = next,
                None => return Ok((front, at)),
            }
        }
        Ok((front, lines.len()))
    }

    /// Takes the script of the ending at a place, line by line, and answers how far it goes together with one that was taken before:
    /// the longest way, and the first of these. Cost: the bytes of the script, for each of a logarithm of fronts.
    pub(crate) fn take(
        &mut self,
        alloc: Global,
        at: usize,
        lines: &[&[u8]],
    ) -> Result<Together, WantOfMemory>
        ensures { IfOk result (HasTaken at (map (λ line. line.now) lines.now) self.old self.new) }
    {
        let (longest, together) = self.longest(alloc, lines)?;
        let other = self.first.get(longest).copied().unwrap_or(0);
        let mut front = longest;
        for place in together..lines.len() {
            front = self.add(alloc, at, front, lines[place])?;
        }
        Ok(Together {
            other,
            lines: together,
        })
    }
}
