//! The parts of a family, each behind those that it names.
ghost use Rattle.std.specs.Prelude.{◌≡◌, ◌+◌, ◌-◌, ◌<◌, ◌≤◌, ◌^◌, ◌∷◌, ◌++◌, [], true, false, min, max, OnOk, IfOk, ℕ, length, get_or};
ghost use Rattle.script_family.specs.Families.{Silent, Says, Followed, Chosen, Woven, most};
ghost use Rattle.script_family.specs.Counts.{count, capped, sums, firsts_of};
ghost use Rattle.script_family.specs.Parts.{row_at, family_of, families, IsPart};
ghost use Rattle.script_family.specs.Pairs.{ArePair};
ghost use Rattle.script_family.specs.Numbered.{paired, Numbered};
ghost use Rattle.script_family.specs.Steps.{shape, Has, Begins};

use crate::pairs::{Pair, Place, pair_row, place_of};
use crate::part::{Node, Part, count_at};
use crate::ways::Ways;
use device_ids::WantOfMemory;
use std::alloc::Global;
use std::marker::Model;

/// With what a script of a part begins.
#[derive(Clone, Copy)]
pub(crate) enum Step {
    /// It has no lines.
    Nothing,
    /// It is the line that begins at this place.
    Line {
        at: usize,
    },
    /// It is the script of this number of another part.
    One {
        part: usize,
        number: u64,
    },
    /// It is one of the first, and then one of the second.
    Both {
        first: usize,
        second: usize,
        place: Place,
    },
    /// It is one of the first and one of the second, woven.
    Woven {
        first: usize,
        second: usize,
        place: Place,
    },
}

/// The parts of a family, and Pascal's table for those that are woven. A contract sees the family of each part and the rows of the table.
#[derive(Drop)]
pub(crate) struct Parts {
    alloc: Global,
    list: Vec<Part>,
    ways: Ways,
}

impl Model for Parts {
    ghost use Rattle.script_family.specs.Parts.{families, IsParts};
    ghost use Rattle.script_family.specs.Steps.{Shapes};
    ghost use Rattle.script_family.specs.Codes.{shapes_code};

    ghost Value = { Shapes };

    ghost coded = { shapes_code };

    ghost view = { λ p. record { families = families p.list.items; rows = p.ways } };

    ghost invariant = { λ p. IsParts (families p.list.items) p.ways p.list.items };
}

/// How many scripts one of two parts has, for each number of lines from this one on.
fn chosen_row(
    alloc: Global,
    first: &Part,
    second: &Part,
    least: usize,
    width: usize,
) -> Result<Vec<u64>, WantOfMemory>
    requires { least + width < 2 ^ 32 }
    ensures width { IfOk result (λ row. length row.items ≡ width) }
    ensures counts { IfOk result (λ row. (at : ℕ) → at < length row.items
        → get_or row.items at 0 ≡ min (row_at first.now.least first.now.row.items (least + at) + row_at second.now.least second.now.row.items (least + at)) (2 ^ 64 - 1)) }
{
    let mut row = Vec::new(alloc);
    for at in 0..width {
        let of_first = count_at(first.least, &first.row, least + at);
        let of_second = count_at(second.least, &second.row, least + at);
        row.push(of_first.saturating_add(of_second))?;
    }
    Ok(row)
}

#[tactic(auto, using(crate::proofs::Growing::length_families))]
impl Parts {
    /// No parts. It takes no memory.
    pub(crate) fn new(alloc: Global) -> Parts
        ensures { result.families ≡ [] }
    {
        Parts {
            alloc,
            list: Vec::new(alloc),
            ways: Ways::new(alloc),
        }
    }

    /// How many parts there are.
    pub(crate) fn len(&self) -> usize
        ensures { result ≡ length self.now.families }
    {
        self.list.len()
    }

    /// The most lines of a script of this part.
    pub(crate) fn most(&self, part: usize) -> usize
        requires { part < length self.now.families }
        ensures value { result ≡ most (shape self.now part) }
        ensures few { result ≤ 16777216 }
    {
        let part = &self.list[part];
        part.least + part.row.len() - 1
    }

    /// How many scripts of so many lines this part has, up to 2^64 - 1.
    pub(crate) fn count(&self, part: usize, lines: usize) -> u64
        requires { part < length self.now.families }
        ensures { result ≡ capped (count (shape self.now part) lines) }
    {
        let part = &self.list[part];
        count_at(part.least, &part.row, lines)
    }

    /// Adds a part.
    fn push(&mut self, node: Node, least: usize, row: Vec<u64>) -> Result<(), WantOfMemory>
        requires { IsPart (self.old.families ++ family_of self.old.families node ∷ []) self.old.rows (length self.old.families) (record { node = node; least = least; row = row }) }
        ensures { OnOk result (self.new.families ≡ self.old.families ++ family_of self.old.families node ∷ []) }
    {
        self.list.push(Part { node, least, row })?;
        Ok(())
    }

    /// Adds a part that is silent.
    pub(crate) fn push_silent(&mut self) -> Result<(), WantOfMemory>
        ensures { OnOk result (self.new.families ≡ self.old.families ++ Silent ∷ []) }
    {
        let row = Vec::from_slice(self.alloc, &[1])?;
        self.push(Node::Silent, 0, row)
    }

    /// Adds a line.
    pub(crate) fn push_line(&mut self, at: usize) -> Result<(), WantOfMemory>
        ensures { OnOk result (self.new.families ≡ self.old.families ++ Says at ∷ []) }
    {
        let row = Vec::from_slice(self.alloc, &[1])?;
        self.push(Node::Line { at }, 1, row)
    }

    /// Adds a part that is the one, then the other.
    pub(crate) fn push_followed(&mut self, first: usize, second: usize) -> Result<(), WantOfMemory>
        requires first { first < length self.old.families }
        requires second { second < length self.old.families }
        requires few { most (shape self.old first) + most (shape self.old second) ≤ 16777216 }
        ensures { OnOk result (self.new.families ≡ self.old.families ++ Followed (shape self.old first) (shape self.old second) ∷ []) }
    {
        let pair = Pair {
            first: &self.list[first],
            second: &self.list[second],
            ways: &self.ways,
            woven: false,
        };
        let least = pair.first.least + pair.second.least;
        let row = pair_row(self.alloc, pair)?;
        self.push(Node::Followed { first, second }, least, row)
    }

    /// Adds a part that is both, in any order among them.
    pub(crate) fn push_woven(&mut self, first: usize, second: usize) -> Result<(), WantOfMemory>
        requires first { first < length self.old.families }
        requires second { second < length self.old.families }
        requires few { most (shape self.old first) + most (shape self.old second) ≤ 1024 }
        ensures { OnOk result (self.new.families ≡ self.old.families ++ Woven (shape self.old first) (shape self.old second) ∷ []) }
    {
        let most = self.most(first) + self.most(second);
        self.ways.grow(most + 1)?;
        let pair = Pair {
            first: &self.list[first],
            second: &self.list[second],
            ways: &self.ways,
            woven: true,
        };
        let least = pair.first.least + pair.second.least;
        let row = pair_row(self.alloc, pair)?;
        self.push(Node::Woven { first, second }, least, row)
    }

    /// Adds a part that is exactly one of both.
    pub(crate) fn push_chosen(&mut self, first: usize, second: usize) -> Result<(), WantOfMemory>
        requires first { first < length self.old.families }
        requires second { second < length self.old.families }
        ensures { OnOk result (self.new.families ≡ self.old.families ++ Chosen (shape self.old first) (shape self.old second) ∷ []) }
    {
        let one = &self.list[first];
        let other = &self.list[second];
        let least = one.least.min(other.least);
        let end = (one.least + one.row.len()).max(other.least + other.row.len());
        let row = chosen_row(self.alloc, one, other, least, end - least)?;
        self.push(Node::Chosen { first, second }, least, row)
    }

    /// Where a script of this number stands in a part that is two.
    fn place(&self, first: usize, second: usize, woven: bool, lines: usize, number: u64) -> Place
        requires first { first < length self.now.families }
        requires second { second < length self.now.families }
        requires there { number < count (paired woven (shape self.now first) (shape self.now second)) lines }
        requires exact { number < 2 ^ 64 - 1 }
        requires few { lines < 2 ^ 32 }
        requires table { woven ≡ true → lines < self.now.rows }
        ensures { Numbered (shape self.now first) (shape self.now second) woven lines number result.lines result.first result.second result.way }
    {
        let pair = Pair {
            first: &self.list[first],
            second: &self.list[second],
            ways: &self.ways,
            woven,
        };
        place_of(pair, lines, number)
    }

    /// With what the script of this number, among those of so many lines, of a part begins. Condition: the part has it.
    pub(crate) fn step(&self, part: usize, lines: usize, number: u64) -> Step
        requires { Has self.now part lines number }
        ensures { Begins self.now part lines number result }
    {
        match self.list[part].node {
            Node::Silent => Step::Nothing,
            Node::Line { at } => Step::Line { at },
            Node::Followed { first, second } => Step::Both {
                first,
                second,
                place: self.place(first, second, false, lines, number),
            },
            Node::Woven { first, second } => Step::Woven {
                first,
                second,
                place: self.place(first, second, true, lines, number),
            },
            Node::Chosen { first, second } => {
                let of_first = self.count(first, lines);
                if number < of_first {
                    Step::One {
                        part: first,
                        number,
                    }
                } else {
                    Step::One {
                        part: second,
                        number: number - of_first,
                    }
                }
            }
        }
    }

    /// How many of the ways that are left begin with a line of the first, where so many lines are left after it, and so many of the first
    /// before it. Condition: the table has a row for so many lines.
    pub(crate) fn begin(&self, left: usize, firsts: usize) -> u64
        requires { left < self.now.rows }
        ensures { result ≡ capped (firsts_of left firsts) }
    {
        if firsts == 0 {
            0
        } else {
            self.ways.of(left, firsts - 1)
        }
    }
}
