//! What is read of an INF, and why one is refused.
use device_ids::{Text, TextList, WantOfMemory};
use std::alloc::{AllocError, Global};
use std::marker::Model;
use thiserror::Error;

/// Why an INF is refused; lines are counted from 1. The refusals, their order and the limit of a line are
/// this project's own.
#[derive(Clone, Copy, Debug, PartialEq, Eq, Error)]
pub enum InfError {
    /// `[Version]` has no `Signature` of one of the two known values, and nothing else is wrong.
    #[error("there is no signature")]
    NoSignature,
    /// A header has no `]`.
    #[error("line {line}: a header without its end")]
    OpenHeader { line: u32 },
    /// A line has more than 4,096 bytes before its LF.
    #[error("line {line}: more than 4096 bytes")]
    LineTooLong { line: u32 },
    /// The first `DriverVer` is no date with a version.
    #[error("line {line}: no date and version")]
    BadDate { line: u32 },
    /// A `FeatureScore` is no number up to 255.
    #[error("line {line}: no score")]
    BadScore { line: u32 },
    /// Memory ran out.
    #[error("out of memory")]
    WantOfMemory,
}

impl From<AllocError> for InfError {
    ghost use Rattle.std.specs.Prelude.{◌≡◌};
    ghost use Rattle.inf_reader.specs.declared.parts.InfError.TheVariants.{WantOfMemory};

    ghost from_gives = { λ _ e. e ≡ WantOfMemory };

    fn from(_error: AllocError) -> InfError {
        InfError::WantOfMemory
    }
}

/// A line of a models section, with what its install section gives (the driver kit, "INF Models Section",
/// "INF DDInstall Section").
pub struct ModelLine {
    /// The number of the line in its file, from 1; of a line that others continue, that of the first.
    pub line: u32,
    /// Up to eight IDs, the hardware ID first. An empty one matches nothing and keeps its place.
    pub ids: TextList,
    /// The feature score; 255 where the install section tells none.
    pub score: u8,
    /// The service of the function driver, if one is named.
    pub service: Option<Text>,
    /// The lower filters, in order.
    pub lower: TextList,
    /// The upper filters, in order.
    pub upper: TextList,
}

impl Drop for ModelLine {
    fn drop(self) {
        let ModelLine {
            line: _,
            ids: _,
            score: _,
            service: _,
            lower: _,
            upper: _,
        } = self;
    }
}

/// Models lines in order. A contract sees their list. This project's own.
pub struct ModelLines {
    lines: Vec<ModelLine>,
}

impl Drop for ModelLines {
    fn drop(self) {
        let ModelLines { lines: _ } = self;
    }
}

impl Model for ModelLines {
    ghost use Rattle.std.specs.Prelude.{List};
    ghost use Rattle.inf_reader.specs.declared.parts.ModelLine.{ModelLine};

    ghost Value = { List ModelLine };

    ghost view = { λ l. l.lines.items };
}

impl ModelLines {
    ghost use Rattle.std.specs.Prelude.{◌≡◌, ◌<◌, [], ◌∷◌, ◌++◌, length, OnOk, OnErr, slice_get, slice_index_or, Some};
    ghost use Rattle.inf_reader.specs.declared.parts.ModelLine.{ModelLine};

    /// No line. It takes no memory.
    pub fn new(alloc: Global) -> ModelLines
        ensures { result ≡ [] }
    {
        ModelLines {
            lines: Vec::new(alloc),
        }
    }

    /// Takes memory for so many more lines.
    pub fn reserve(&mut self, more: usize) -> Result<(), WantOfMemory>
        ensures { self.new ≡ self.old }
    {
        self.lines.reserve(more)
    }

    /// Appends a line; after want of memory the list is as before.
    pub fn push(&mut self, part: ModelLine) -> Result<(), WantOfMemory>
        ensures pushed { OnOk result (self.new ≡ self.old ++ part ∷ []) }
        ensures err { OnErr result (self.new ≡ self.old) }
    {
        self.lines.push(part)?;
        Ok(())
    }

    /// How many lines there are.
    pub fn len(&self) -> u64
        ensures { result ≡ length self.now }
    {
        self.lines.len() as u64
    }

    /// The line at a place.
    pub fn get(&self, at: u64) -> &ModelLine
        requires { at < length self.now }
        ensures part { slice_get self.now at ≡ Some result.now }
        ensures item { (d : ModelLine) → slice_index_or self.now at d ≡ result.now }
    {
        &self.lines[at as usize]
    }
}

/// The meaning of an INF (the driver kit, "INF Version Section", "INF Manufacturer Section").
pub struct Inf {
    /// The date of `DriverVer` as `year * 10000 + month * 100 + day`; 0 without one.
    pub date: u32,
    /// The version of `DriverVer`, 16 bits for each of four numbers, the first highest; 0 without one.
    pub version: u64,
    /// The models lines, in the order of the entries of `[Manufacturer]` and of each models section.
    pub lines: ModelLines,
}

impl Drop for Inf {
    fn drop(self) {
        let Inf {
            date: _,
            version: _,
            lines: _,
        } = self;
    }
}
