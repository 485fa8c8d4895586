ghost use Rattle.std.specs.Prelude.{◌≡◌, ◌+◌, ◌<◌, ◌≤◌, ◌^◌, ◌++◌, [], length, drop, IfOk, OnOk, OnErr, Ok, true, false, List, ℕ};
ghost use Rattle.script_reader.specs.Reading.{HasRead, SkipsTo};
ghost use Rattle.script_reader.specs.Script.{GivesEvent, IsStuck};
ghost use Rattle.script_reader.specs.Answers.{Answers, given};
ghost use Rattle.script_reader.specs.declared.line.Line.{Line};
ghost use Rattle.pnp_labels.specs.declared.event.Event.{Event};

use crate::events::{Opening, event_at, opening_of, read_by};
use crate::next::Next;
use crate::skip::{Skipped, skip_lines};
use crate::step::Step;
use device_ids::{InstancePath, WantOfMemory};
use std::alloc::{AllocError, Global};
use std::marker::Model;

/// Reads a script that comes in pieces. It keeps the bytes that no answer has passed yet: where the events are
/// taken until `NeedMore` before each piece, that is at most 4,096 bytes of one line and the piece. A contract
/// sees a record: the bytes that are left, the lines passed, the line of the last answer, the bytes fed, the
/// bytes kept, and whether the script is finished and whether a bad line was met. This project's own.
#[derive(Drop)]
pub struct Reader {
    alloc: Global,
    bytes: Vec<u8>,
    at: usize,
    passed: u64,
    line: u64,
    fed: u64,
    finished: bool,
    bad: bool,
    /// The path of the last line of one path alone: the next such line often names it again.
    recent: Option<InstancePath>,
}

impl Model for Reader {
    ghost use Rattle.std.specs.Prelude.{◌≤◌, length, drop};
    ghost use Rattle.script_reader.specs.Reading.{Reading, IsReading};

    ghost Value = { Reading };

    ghost view = { λ r. record {
      rest = drop r.at r.bytes.items;
      passed = r.passed;
      line = r.line;
      fed = r.fed;
      stored = length r.bytes.items;
      finished = r.finished;
      bad = r.bad;
    } };

    ghost invariant = { λ r. (r.at ≤ length r.bytes.items)
        × IsReading (record {
          rest = drop r.at r.bytes.items;
          passed = r.passed;
          line = r.line;
          fed = r.fed;
          stored = length r.bytes.items;
          finished = r.finished;
          bad = r.bad;
        }) };
}

/// Drops so many bytes from the front. Cost: the bytes that stay.
fn drop_front(bytes: &mut Vec<u8>, count: usize)
    requires { count ≤ length bytes.old.items }
    ensures { bytes.new.items ≡ drop count bytes.old.items }
{
    bytes.copy_within(count.., 0);
    bytes.truncate(bytes.len() - count);
}

impl Reader {
    /// A reader to which nothing was fed. It takes no memory.
    pub fn new(alloc: Global) -> Reader
        ensures new { result ≡ record {
          rest = [];
          passed = 0;
          line = 0;
          fed = 0;
          stored = 0;
          finished = false;
          bad = false;
        } }
        ensures reads { HasRead [] [] result }
    {
        Reader {
            alloc,
            bytes: Vec::new(alloc),
            at: 0,
            passed: 0,
            line: 0,
            fed: 0,
            finished: false,
            bad: false,
            recent: None,
        }
    }

    /// Takes the next piece of the script, of any size. Conditions: `finish` was not called, and fewer than
    /// 2^63 bytes are fed in all. After want of memory the reader is as before. Cost: the length.
    pub fn feed(&mut self, bytes: &[u8]) -> Result<(), WantOfMemory>
        requires open { self.old.finished ≡ false }
        requires small { self.old.fed + length bytes.now < 2 ^ 63 }
        ensures ok { OnOk result (self.new ≡ record self.old {
          rest = self.old.rest ++ bytes.now;
          fed = self.old.fed + length bytes.now;
          stored = self.old.stored + length bytes.now;
        }) }
        ensures reads { OnOk result ((all : List ℕ) (events : List Line)
            → HasRead all events self.old → HasRead (all ++ bytes.now) events self.new) }
        ensures err { OnErr result (self.new ≡ self.old) }
    {
        self.bytes.extend_from_slice(bytes)?;
        self.fed += bytes.len() as u64;
        Ok(())
    }

    /// Says that no more pieces come, so that the last line may stand without LF.
    pub fn finish(&mut self)
        ensures shut { self.new ≡ record self.old { finished = true } }
        ensures reads { (all : List ℕ) (events : List Line)
            → HasRead all events self.old → HasRead all events self.new }
    {
        self.finished = true;
    }

    /// The number of the line from which the last event or bad line came, 0 before the first.
    pub fn line(&self) -> u64
        ensures { result ≡ self.now.line }
    {
        self.line
    }

    /// Passes so many bytes, so many lines, up to a line outside the grammar.
    fn stop(&mut self, count: usize, lines: u64) -> Next
        requires reach { SkipsTo self.old.finished self.old.rest count lines }
        requires stuck { IsStuck self.old.finished (drop count self.old.rest) }
        ensures new { self.new ≡ record self.old {
          rest = drop count self.old.rest;
          passed = self.old.passed + lines;
          line = self.old.passed + lines + 1;
          bad = true;
        } }
        ensures result { result ≡ Next.Bad self.new.line }
    {
        self.at += count;
        self.passed += lines;
        self.line = self.passed + 1;
        self.bad = true;
        Next::Bad { line: self.line }
    }

    /// Passes so many bytes and so many lines, which have no event, and then a line of so many bytes, which has one.
    #[inline(always)]
    fn pass(&mut self, count: usize, more: usize, lines: u64)
        requires reach { SkipsTo self.old.finished self.old.rest count lines }
        requires event { (event : Event) × GivesEvent self.old.finished (drop count self.old.rest) more event }
        requires open { self.old.bad ≡ false }
        requires few { length self.old.rest < 2 ^ 63 }
        ensures answers { (event : Event) → GivesEvent self.old.finished (drop count self.old.rest) more event
            → Answers (Next.Event event) self.old self.new }
        ensures reads { (event : Event) → GivesEvent self.old.finished (drop count self.old.rest) more event
            → (all : List ℕ) (events : List Line) → HasRead all events self.old → HasRead all (events ++ given (Next.Event event) self.new) self.new }
    {
        self.at += count + more;
        self.passed += lines + 1;
        self.line = self.passed;
    }

    /// The answer to a line that gave no event, behind so many bytes and lines that have none: it is bad, or memory was wanting.
    #[inline(always)]
    fn refuse(&mut self, is_bad: bool, count: usize, lines: u64) -> Result<Next, WantOfMemory>
        requires reach { SkipsTo self.old.finished self.old.rest count lines }
        requires stuck { is_bad ≡ true → IsStuck self.old.finished (drop count self.old.rest) }
        ensures answers { IfOk result (λ next. Answers next self.old self.new) }
        ensures reads { IfOk result (λ next. (all : List ℕ) (events : List Line)
            → HasRead all events self.old → HasRead all (events ++ given next self.new) self.new) }
        ensures err { OnErr result (self.new ≡ self.old) }
    {
        if is_bad {
            Ok(self.stop(count, lines))
        } else {
            Err(AllocError)
        }
    }

    /// The event of the next line that has one; lines without an event are passed over. Else why there is none:
    /// `NeedMore` exactly where no whole line is left, the rest has at most 4,096 bytes and `finish` was not
    /// called; `End` exactly where `finish` was called and nothing is left; `Bad` at the first line outside the
    /// grammar, which each later call answers again. After want of memory the reader is as before. Cost: the
    /// bytes of the lines passed, and of the line that is not whole.
    pub fn next_event(&mut self) -> Result<Next, WantOfMemory>
        ensures answers { IfOk result (λ next. Answers next self.old self.new) }
        ensures reads { IfOk result (λ next. (all : List ℕ) (events : List Line)
            → HasRead all events self.old → HasRead all (events ++ given next self.new) self.new) }
        ensures again { self.old.bad ≡ true → result ≡ Ok (Next.Bad self.old.line) }
        ensures err { OnErr result (self.new ≡ self.old) }
    {
        if self.bad {
            return Ok(Next::Bad { line: self.line });
        }
        let Skipped { count, lines, step } = skip_lines(&self.bytes[self.at..], self.finished);
        match step {
            Step::Read { count: more, text } => {
                match opening_of(self.alloc, text, &mut self.recent) {
                    Ok(Opening::At(event, path)) => {
                        self.pass(count, more, lines);
                        Ok(Next::Event(event_at(event, path)))
                    }
                    Ok(Opening::By(event, keyword, rest)) => {
                        match read_by(self.alloc, event, keyword, rest) {
                            Ok(event) => {
                                self.pass(count, more, lines);
                                Ok(Next::Event(event))
                            }
                            Err(error) => {
                                let is_bad = error.is_bad();
                                self.refuse(is_bad, count, lines)
                            }
                        }
                    }
                    Err(error) => {
                        let is_bad = error.is_bad();
                        self.refuse(is_bad, count, lines)
                    }
                }
            }
            Step::NeedMore => {
                drop_front(&mut self.bytes, self.at + count);
                self.at = 0;
                self.passed += lines;
                Ok(Next::NeedMore)
            }
            Step::End => {
                self.at += count;
                self.passed += lines;
                Ok(Next::End)
            }
            _ => Ok(self.stop(count, lines)),
        }
    }
}
