ghost use Rattle.std.specs.Prelude.{◌≡◌, ◌≤◌, ◌<◌, ◌++◌, ◌∷◌, [], IfOk, OnOk, OnErr, IsErr, IsErrOf, length};
ghost use Rattle.pnp_io.specs.Outside.{Rose, Appends, AppendsFront};
ghost use Rattle.pnp_labels.specs.Texts.{label_line};
ghost use Rattle.pnp_cli.specs.Outputs.{text_of};
ghost use Rattle.pnp_cli.specs.Turns.{AnswerFront, AnswerHeld, Held, MovedFront, MovedHeld, Passes, Keeps};

use crate::tally::{Tally, count};
use crate::turn::WriteError;
use device_ids::WantOfMemory;
use pnp_io::{Failed, Sink, write_all};
use pnp_labels::{Label, push_line};
use pnp_machine::Moved;
use std::alloc::Global;

/// Where so many bytes wait, they are written.
const MOST: usize = 16384;

/// The lines that wait to be written, and beside them room for the one that comes next: where memory runs out in the midst of a
/// line, those that wait are as they were.
pub struct Lines {
    waiting: Vec<u8>,
    one: Vec<u8>,
}

impl Drop for Lines {
    fn drop(self) {
        let Lines { waiting: _, one: _ } = self;
    }
}

impl Lines {
    /// Nothing waits.
    pub fn new(alloc: Global) -> Lines
        ensures { result.waiting.items ≡ [] }
    {
        Lines {
            waiting: Vec::new(alloc),
            one: Vec::new(alloc),
        }
    }

    /// The line of a label comes behind those that wait.
    fn push(&mut self, label: &Label) -> Result<(), WantOfMemory>
        ensures ok { OnOk result (self.new.waiting.items ≡ self.old.waiting.items ++ (label_line label.now ++ 10 ∷ [])) }
        ensures err { OnErr result (self.new.waiting.items ≡ self.old.waiting.items) }
    {
        self.one.clear();
        push_line(&mut self.one, label)?;
        self.waiting.extend_from_slice(&self.one)
    }

    /// All lines that wait are written.
    pub fn write<K: Sink>(&mut self, sink: &mut K) -> Result<(), Failed>
        ensures took { OnOk result (Appends (K.taken sink.old) (K.taken sink.new) self.old.waiting.items) }
        ensures none { OnOk result (self.new.waiting.items ≡ []) }
        ensures front { OnErr result (AppendsFront (K.taken sink.old) (K.taken sink.new) self.old.waiting.items) }
        ensures failed { IsErr result → Rose (K.faults sink.old) (K.faults sink.new) }
        ensures counts { K.faults sink.old ≤ K.faults sink.new }
    {
        write_lines(sink, &mut self.waiting)
    }
}

/// Writes the lines that wait.
pub fn write_lines<K: Sink>(sink: &mut K, lines: &mut Vec<u8>) -> Result<(), Failed>
    ensures took { OnOk result (Appends (K.taken sink.old) (K.taken sink.new) lines.old.items) }
    ensures none { OnOk result (lines.new.items ≡ []) }
    ensures front { OnErr result (AppendsFront (K.taken sink.old) (K.taken sink.new) lines.old.items) }
    ensures failed { IsErr result → Rose (K.faults sink.old) (K.faults sink.new) }
    ensures counts { K.faults sink.old ≤ K.faults sink.new }
{
    write_all(sink, lines)?;
    lines.clear();
    Ok(())
}

/// Writes the lines that wait, where they have 16,384 bytes.
fn write_many<K: Sink>(sink: &mut K, lines: &mut Vec<u8>) -> Result<(), Failed>
    ensures passes { OnOk result (Passes (K.taken sink.old) lines.old.items (K.taken sink.new) lines.new.items) }
    ensures few { OnOk result (length lines.new.items < 16384) }
    ensures front { OnErr result (AppendsFront (K.taken sink.old) (K.taken sink.new) lines.old.items) }
    ensures failed { IsErr result → Rose (K.faults sink.old) (K.faults sink.new) }
    ensures counts { K.faults sink.old ≤ K.faults sink.new }
{
    if lines.len() < MOST {
        return Ok(());
    }
    write_lines(sink, lines)
}

/// Appends the line of a label to those that wait, which are written where they have 16,384 bytes; and counts it. At want of memory
/// nothing was written, and what waits is as before.
fn tell_one<K: Sink>(
    sink: &mut K,
    lines: &mut Lines,
    tally: &mut Tally,
    label: &Label,
) -> Result<(), WriteError>
    ensures held { OnOk result (Held (K.taken sink.old) lines.old.waiting.items tally.old (label.now ∷ []) (K.taken sink.new) lines.new.waiting.items tally.new) }
    ensures few { OnOk result (length lines.new.waiting.items < 16384) }
    ensures front { AppendsFront (K.taken sink.old) (K.taken sink.new) (lines.old.waiting.items ++ text_of (label.now ∷ [])) }
    ensures kept { IsErrOf result WriteError.WantOfMemory → Keeps (K.taken sink.old) lines.old.waiting.items (K.taken sink.new) lines.new.waiting.items }
    ensures failed { IsErrOf result WriteError.WriteFault → Rose (K.faults sink.old) (K.faults sink.new) }
    ensures counts { K.faults sink.old ≤ K.faults sink.new }
{
    lines.push(label)?;
    count(tally, label);
    write_many(sink, &mut lines.waiting)?;
    Ok(())
}

/// The same of what a call answers, which goes here alone: each place where a label goes takes it apart. It is lent on as it
/// stands, since it is large.
pub fn tell_answer<K: Sink>(
    sink: &mut K,
    lines: &mut Lines,
    tally: &mut Tally,
    answer: Result<Label, WantOfMemory>,
) -> Result<(), WriteError>
    ensures held { OnOk result (AnswerHeld answer (K.taken sink.old) lines.old.waiting.items tally.old (K.taken sink.new) lines.new.waiting.items tally.new) }
    ensures few { OnOk result (length lines.new.waiting.items < 16384) }
    ensures front { AnswerFront answer (K.taken sink.old) lines.old.waiting.items (K.taken sink.new) }
    ensures kept { IsErrOf result WriteError.WantOfMemory → Keeps (K.taken sink.old) lines.old.waiting.items (K.taken sink.new) lines.new.waiting.items }
    ensures failed { IsErrOf result WriteError.WriteFault → Rose (K.faults sink.old) (K.faults sink.new) }
    ensures counts { K.faults sink.old ≤ K.faults sink.new }
{
    match &answer {
        Ok(label) => tell_one(sink, lines, tally, label),
        Err(_) => Err(WriteError::WantOfMemory),
    }
}

/// The same of what a step came to, and whether one was next.
pub fn tell_moved<K: Sink>(
    sink: &mut K,
    lines: &mut Lines,
    tally: &mut Tally,
    moved: Result<Moved, WantOfMemory>,
) -> Result<bool, WriteError>
    ensures held { IfOk result (λ was_next. MovedHeld moved was_next (K.taken sink.old) lines.old.waiting.items tally.old (K.taken sink.new) lines.new.waiting.items tally.new) }
    ensures few { length lines.old.waiting.items < 16384 → OnOk result (length lines.new.waiting.items < 16384) }
    ensures front { MovedFront moved (K.taken sink.old) lines.old.waiting.items (K.taken sink.new) }
    ensures kept { IsErrOf result WriteError.WantOfMemory → Keeps (K.taken sink.old) lines.old.waiting.items (K.taken sink.new) lines.new.waiting.items }
    ensures failed { IsErrOf result WriteError.WriteFault → Rose (K.faults sink.old) (K.faults sink.new) }
    ensures counts { K.faults sink.old ≤ K.faults sink.new }
{
    match &moved {
        Ok(Moved::Label(label)) => {
            tell_one(sink, lines, tally, label)?;
            Ok(true)
        }
        Ok(Moved::Quiet) => Ok(false),
        Err(_) => Err(WriteError::WantOfMemory),
    }
}
