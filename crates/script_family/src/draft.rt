//! A family as it is read.
ghost use Rattle.std.specs.Prelude.{◌≡◌, ◌+◌, ◌<◌, ◌≤◌, ◌∷◌, IfOk, MatchResult, length, get_or};
ghost use Rattle.script_family.specs.Families.{Silent, Followed};
ghost use Rattle.script_family.specs.Reading.{same_kind, is_small, joined, turn, next_part, closed, beginning};
ghost use Rattle.script_family.specs.Drafts.{standing_of, standing_most, IsIn, IsDraft, Stopped, Went, Joined, NotJoined};
ghost use Rattle.script_family.specs.Loops.{Opened};

use crate::error::FamilyError;
use crate::parts::Parts;
use crate::sort::{BlockKind, LineSort};
use device_ids::WantOfMemory;
use std::alloc::Global;

/// The most lines that are woven.
const MOST_WOVEN: usize = 1024;

/// A block that is open.
#[derive(Clone, Copy)]
pub(crate) struct OpenBlock {
    kind: BlockKind,
    line: u64,
    before: usize,
    over: Option<usize>,
}

/// What was read so far: the part that is being read, and the blocks around it.
#[derive(Drop)]
pub(crate) struct Draft {
    pub(crate) parts: Parts,
    pub(crate) current: usize,
    blocks: Vec<OpenBlock>,
}

/// Whether two kinds are the same.
fn same_kind(one: BlockKind, other: BlockKind) -> bool
    ensures { result ≡ same_kind one other }
{
    match (one, other) {
        (BlockKind::Either, BlockKind::Either) => true,
        (BlockKind::Together, BlockKind::Together) => true,
        _ => false,
    }
}

impl Draft {
    /// Nothing was read.
    pub(crate) fn new(alloc: Global) -> Result<Draft, WantOfMemory>
        ensures good { IfOk result (λ d. IsDraft d) }
        ensures begins { IfOk result (λ d. standing_of d ≡ beginning) }
    {
        let mut parts = Parts::new(alloc);
        parts.push_silent()?;
        Ok(Draft {
            parts,
            current: 0,
            blocks: Vec::new(alloc),
        })
    }

    /// Appends a line to the part that is being read.
    fn say(&mut self, line: u64, at: usize) -> Result<(), FamilyError>
        requires good { IsDraft self.old }
        requires few { standing_most (standing_of self.old) < 16777216 }
        ensures { MatchResult result (λ _. Went (turn LineSort.Said line at (standing_of self.old)) self.new)
            (λ e. Stopped e (turn LineSort.Said line at (standing_of self.old))) }
    {
        let said = self.parts.len();
        self.parts.push_line(at)?;
        let current = self.parts.len();
        self.parts.push_followed(self.current, said)?;
        self.current = current;
        Ok(())
    }

    /// Opens a block.
    fn open(&mut self, kind: BlockKind, line: u64) -> Result<(), FamilyError>
        requires { IsDraft self.old }
        ensures { MatchResult result (λ _. Went (turn (LineSort.Opens kind) line 0 (standing_of self.old)) self.new)
            (λ e. Stopped e (turn (LineSort.Opens kind) line 0 (standing_of self.old))) }
    {
        self.blocks.push(OpenBlock {
            kind,
            line,
            before: self.current,
            over: None,
        })?;
        self.current = self.parts.len();
        self.parts.push_silent()?;
        Ok(())
    }

    /// The parts of a block put together.
    fn join(&mut self, block: OpenBlock) -> Result<usize, FamilyError>
        requires current { self.old.current < length self.old.parts.families }
        requires block { IsIn (length self.old.parts.families) block }
        ensures { MatchResult result (λ i. Joined self.old self.new block i) (λ e. NotJoined e self.old block) }
    {
        let Some(over) = block.over else {
            return Ok(self.current);
        };
        let joined = self.parts.len();
        match block.kind {
            BlockKind::Either => self.parts.push_chosen(over, self.current)?,
            BlockKind::Together => {
                if self.parts.most(over) + self.parts.most(self.current) > MOST_WOVEN {
                    return Err(FamilyError::TooLarge);
                }
                self.parts.push_woven(over, self.current)?
            }
        }
        Ok(joined)
    }

    /// Begins the next part of the innermost block.
    fn next_part(&mut self, kind: BlockKind, line: u64) -> Result<(), FamilyError>
        requires { IsDraft self.old }
        ensures { MatchResult result (λ _. Went (turn (LineSort.Parts kind) line 0 (standing_of self.old)) self.new)
            (λ e. Stopped e (turn (LineSort.Parts kind) line 0 (standing_of self.old))) }
    {
        let Some(block) = self.blocks.pop() else {
            return Err(FamilyError::BadLine { line });
        };
        if !same_kind(kind, block.kind) {
            return Err(FamilyError::BadLine { line });
        }
        let over = self.join(block)?;
        self.blocks.push(OpenBlock {
            kind: block.kind,
            line: block.line,
            before: block.before,
            over: Some(over),
        })?;
        self.current = self.parts.len();
        self.parts.push_silent()?;
        Ok(())
    }

    /// Ends the innermost block.
    fn close(&mut self, line: u64) -> Result<(), FamilyError>
        requires good { IsDraft self.old }
        requires few { standing_most (standing_of self.old) ≤ 16777216 }
        ensures { MatchResult result (λ _. Went (turn LineSort.Closes line 0 (standing_of self.old)) self.new)
            (λ e. Stopped e (turn LineSort.Closes line 0 (standing_of self.old))) }
    {
        let Some(block) = self.blocks.pop() else {
            return Err(FamilyError::BadLine { line });
        };
        let joined = self.join(block)?;
        self.current = self.parts.len();
        self.parts.push_followed(block.before, joined)?;
        Ok(())
    }

    /// Takes the line of this number, that begins at this place.
    pub(crate) fn take(&mut self, sort: LineSort, line: u64, at: usize) -> Result<(), FamilyError>
        requires good { IsDraft self.old }
        requires few { standing_most (standing_of self.old) < 16777216 }
        ensures { MatchResult result (λ _. Went (turn sort line at (standing_of self.old)) self.new)
            (λ e. Stopped e (turn sort line at (standing_of self.old))) }
    {
        match sort {
            LineSort::Nothing => Ok(()),
            LineSort::Said => self.say(line, at),
            LineSort::Opens(kind) => self.open(kind, line),
            LineSort::Parts(kind) => self.next_part(kind, line),
            LineSort::Closes => self.close(line),
            LineSort::Bad => Err(FamilyError::BadLine { line }),
        }
    }

    /// The line that opened the innermost block, if one is open.
    pub(crate) fn open_line(&self) -> Option<u64>
        ensures { Opened result (standing_of self.now).blocks }
    {
        let block = self.blocks.last()?;
        Some(block.line)
    }
}
