ghost use Rattle.std.specs.Prelude.{◌≡◌, OnOk, map};
ghost use Rattle.std.specs.Fmt.{decimal};
ghost use Rattle.why_facts.specs.Notes.{nothing, added, ended, said};

use crate::texts::number;
use device_ids::WantOfMemory;
use std::alloc::Global;
use std::marker::Model;

/// Lines of a note, without what begins and ends them. A contract sees those that are over, and the one that is being written. This
/// project's own.
pub struct Lines {
    lines: Vec<Vec<u8>>,
    open: Vec<u8>,
}

impl Drop for Lines {
    fn drop(self) {
        let Lines { lines: _, open: _ } = self;
    }
}

impl Model for Lines {
    ghost use Rattle.std.specs.Prelude.{map};
    ghost use Rattle.why_facts.specs.Notes.{Noting};

    ghost Value = { Noting };

    ghost view = { λ l. record { lines = map (λ line. line.items) l.lines.items; open_ = l.open.items } };
}

impl Lines {
    /// No line. It takes no memory.
    pub fn new(alloc: Global) -> Lines
        ensures { result ≡ nothing }
    {
        Lines {
            lines: Vec::new(alloc),
            open: Vec::new(alloc),
        }
    }

    /// The line that is being written goes on with this.
    pub fn add(&mut self, part: &[u8]) -> Result<(), WantOfMemory>
        ensures { OnOk result (self.new ≡ added part.now self.old) }
    {
        self.open.extend_from_slice(part)
    }

    /// The line that is being written goes on with these two.
    pub fn add_two(&mut self, one: &[u8], two: &[u8]) -> Result<(), WantOfMemory>
        ensures { OnOk result (self.new ≡ added two.now (added one.now self.old)) }
    {
        self.add(one)?;
        self.add(two)
    }

    /// The line that is being written goes on with these three.
    pub fn add_three(&mut self, one: &[u8], two: &[u8], three: &[u8]) -> Result<(), WantOfMemory>
        ensures { OnOk result (self.new ≡ added three.now (added two.now (added one.now self.old))) }
    {
        self.add_two(one, two)?;
        self.add(three)
    }

    /// The line that is being written goes on with a number.
    pub fn add_number(&mut self, alloc: Global, n: u64) -> Result<(), WantOfMemory>
        ensures { OnOk result (self.new ≡ added (decimal n) self.old) }
    {
        self.open.extend_from_slice(&number(alloc, n)?)
    }

    /// The line that is being written is over.
    pub fn end(&mut self, alloc: Global) -> Result<(), WantOfMemory>
        ensures { OnOk result (self.new ≡ ended self.old) }
    {
        let line = Vec::from_slice(alloc, &self.open)?;
        self.open.clear();
        self.lines.push(line)?;
        Ok(())
    }

    /// One more line.
    pub fn say(&mut self, alloc: Global, line: &[u8]) -> Result<(), WantOfMemory>
        ensures { OnOk result (self.new ≡ said line.now self.old) }
    {
        self.add(line)?;
        self.end(alloc)
    }

    /// The line that is being written goes on with these two, and is over.
    pub fn say_two(&mut self, alloc: Global, one: &[u8], two: &[u8]) -> Result<(), WantOfMemory>
        ensures { OnOk result (self.new ≡ said two.now (added one.now self.old)) }
    {
        self.add_two(one, two)?;
        self.end(alloc)
    }

    /// The line that is being written goes on with these three, and is over.
    pub fn say_three(
        &mut self,
        alloc: Global,
        one: &[u8],
        two: &[u8],
        three: &[u8],
    ) -> Result<(), WantOfMemory>
        ensures { OnOk result (self.new ≡ said three.now (added two.now (added one.now self.old))) }
    {
        self.add_three(one, two, three)?;
        self.end(alloc)
    }

    /// The lines of others behind these.
    pub fn take(&mut self, others: Lines) -> Result<(), WantOfMemory> {
        let Lines { lines, open: _ } = others;
        for line in lines {
            self.lines.push(line)?;
        }
        Ok(())
    }

    /// The lines, copied.
    pub fn copied(&self, alloc: Global) -> Result<Vec<Vec<u8>>, WantOfMemory> {
        let mut lines = Vec::new(alloc);
        for line in &self.lines {
            lines.push(Vec::from_slice(alloc, line)?)?;
        }
        Ok(lines)
    }

    /// The lines in order.
    pub fn all(&self) -> &[Vec<u8>]
        ensures { map (λ line. line.items) result.now ≡ self.now.lines }
    {
        &self.lines
    }
}
