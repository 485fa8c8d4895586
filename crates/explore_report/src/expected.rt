//! What is expected of the trace of each script.
ghost use Rattle.std.specs.Prelude.{◌≡◌, ◌+◌, ◌∷◌, ◌++◌, ℕ, List, [], IfOk, IfSome, OnOk, map, length};
ghost use Rattle.ending_tally.specs.Patterns.{words_of};
ghost use Rattle.pnp_labels.specs.Texts.{label_line};
ghost use Rattle.explore_report.specs.Expectations.{has_line, broken_by, HasSeen};

use device_ids::{TextList, WantOfMemory};
use ending_tally::Pattern;
use pnp_labels::{Label, push_line};
use std::alloc::{AllocError, Global};

/// Patterns of lines: those that no trace is to have, and those of which each trace is to have one. This project's own.
#[derive(Drop)]
pub struct Expected {
    never: Vec<Pattern>,
    always: Vec<Pattern>,
}

/// The patterns of these texts; none where one of them is no pattern.
fn patterns_of(alloc: Global, texts: &TextList) -> Result<Option<Vec<Pattern>>, AllocError>
    ensures { IfOk result (λ found. IfSome found (λ patterns. patterns.items ≡ map words_of texts.now)) }
{
    let mut patterns = Vec::new(alloc);
    for at in 0..texts.len() {
        match Pattern::read(alloc, texts.get(at).bytes())? {
            Some(pattern) => patterns.push(pattern)?,
            None => return Ok(None),
        }
    }
    Ok(Some(patterns))
}

impl Expected {
    /// What these texts say; none where one of them is no pattern.
    pub(crate) fn read(
        alloc: Global,
        never: &TextList,
        always: &TextList,
    ) -> Result<Option<Expected>, AllocError>
        ensures { IfOk result (λ found. IfSome found (λ e. (e.never.items ≡ map words_of never.now) × (e.always.items ≡ map words_of always.now))) }
    {
        let Some(never) = patterns_of(alloc, never)? else {
            return Ok(None);
        };
        let Some(always) = patterns_of(alloc, always)? else {
            return Ok(None);
        };
        Ok(Some(Expected { never, always }))
    }

    /// How many patterns are of lines that are not to come.
    pub(crate) fn never(&self) -> usize
        ensures { result ≡ length self.now.never.items }
    {
        self.never.len()
    }

    /// How many patterns are of lines of which one is to come.
    pub(crate) fn always(&self) -> usize
        ensures { result ≡ length self.now.always.items }
    {
        self.always.len()
    }
}

/// Which patterns a line of a trace fitted so far. This project's own.
#[derive(Drop)]
pub struct Seen {
    never: Vec<bool>,
    always: Vec<bool>,
    line: Vec<u8>,
}

/// A line comes, and is held against each pattern that none fitted so far.
fn look(patterns: &[Pattern], fitted: &mut [bool], line: &[u8]) -> Result<(), WantOfMemory>
    requires { length fitted.old ≡ length patterns.now }
    ensures { OnOk result ((lines : List (List ℕ)) → fitted.old ≡ map (has_line lines) patterns.now → fitted.new ≡ map (has_line (lines ++ line.now ∷ [])) patterns.now) }
{
    for at in 0..patterns.len() {
        let fits = fitted[at] || patterns[at].fits(line)?;
        fitted[at] = fits;
    }
    Ok(())
}

impl Seen {
    /// None of these.
    pub(crate) fn none(alloc: Global, expected: &Expected) -> Result<Seen, AllocError>
        ensures { IfOk result (λ seen. HasSeen expected.now [] seen) }
    {
        Ok(Seen {
            never: vec![in alloc; false; expected.never.len()]?,
            always: vec![in alloc; false; expected.always.len()]?,
            line: Vec::new(alloc),
        })
    }

    /// A trace begins.
    pub(crate) fn clear(&mut self)
        ensures { (expected : Expected) (lines : List (List ℕ)) → HasSeen expected lines self.old → HasSeen expected [] self.new }
    {
        self.never.fill(false);
        self.always.fill(false);
    }

    /// The line of a label comes. Condition: these are the patterns that were looked for before. Cost: its length, for each pattern.
    pub fn see(&mut self, expected: &Expected, label: &Label) -> Result<(), WantOfMemory>
        requires { (lines : List (List ℕ)) × HasSeen expected.now lines self.old }
        ensures { OnOk result ((lines : List (List ℕ)) → HasSeen expected.now lines self.old → HasSeen expected.now (lines ++ label_line label.now ∷ []) self.new) }
    {
        if expected.never.is_empty() && expected.always.is_empty() {
            return Ok(());
        }
        self.line.clear();
        push_line(&mut self.line, label)?;
        let _ = self.line.pop();
        look(&expected.never, &mut self.never, &self.line)?;
        look(&expected.always, &mut self.always, &self.line)
    }

    /// For each expectation, once the trace is over, whether it is broken.
    pub(crate) fn broken(&self, alloc: Global) -> Result<Vec<bool>, AllocError>
        ensures { IfOk result (λ broken. (expected : Expected) (lines : List (List ℕ)) → HasSeen expected lines self.now → broken.items ≡ broken_by expected lines) }
    {
        let mut broken = Vec::from_slice(alloc, &self.never)?;
        for fitted in &self.always {
            broken.push(!*fitted)?;
        }
        Ok(broken)
    }
}
