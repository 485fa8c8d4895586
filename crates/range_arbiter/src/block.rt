ghost use Rattle.std.specs.Prelude.{◌≡◌, ◌<◌, ◌≤◌, ◌+◌, ◌++◌, [], ◌∷◌, false, true, length, take, drop, vec_len, vec_capacity};
ghost use Rattle.std.specs.List.{list_any, insert, remove};
ghost use Rattle.resource_reqs.specs.Resources.{clashes};
ghost use Rattle.range_arbiter.specs.Pairs.{Pair, is_before, res_list};
ghost use Rattle.range_arbiter.specs.Orders.{In, IsOrdered};
ghost use Rattle.range_arbiter.specs.Spans.{Covers};
ghost use Rattle.range_arbiter.specs.Blocks.{first_of};

use crate::known::{Known, known_of};
use crate::order::comes_before;
use crate::room::Room;
use crate::span::Span;
use resource_reqs::{Owner, Res, clash};
use std::marker::Model;

/// One to 32 pairs in a row, and what is known of them at once. A contract sees the list of them.
#[derive(Drop)]
pub struct Block {
    pairs: Vec<(Owner, Res)>,
    known: Known,
}

impl Model for Block {
    ghost use Rattle.std.specs.Prelude.{List};
    ghost use Rattle.range_arbiter.specs.Pairs.{Pair};

    ghost Value = { List Pair };

    ghost use Rattle.range_arbiter.specs.Blocks.{IsBlock};

    ghost view = { λ b. b.pairs.items };

    ghost invariant = { λ b. IsBlock b.pairs b.known };
}

impl Block {
    /// The block of these pairs. Cost: the number of pairs.
    fn of(pairs: Vec<(Owner, Res)>) -> Block
        requires some { 0 < vec_len pairs }
        requires few { vec_len pairs ≤ 32 }
        requires place { 32 ≤ vec_capacity pairs }
        ensures { result ≡ pairs.items }
    {
        let known = known_of(&pairs);
        Block { pairs, known }
    }

    /// The block of one pair.
    pub fn single(room: Room, pair: (Owner, Res)) -> Block
        ensures { result ≡ pair ∷ [] }
    {
        let mut pairs = room.pairs;
        let _ = pairs.push(pair);
        Block::of(pairs)
    }

    /// Its memory.
    pub fn emptied(self) -> Room {
        let mut pairs = self.pairs;
        pairs.clear();
        Room { pairs }
    }

    /// Its pairs.
    #[inline(always)]
    pub fn pairs(&self) -> &[(Owner, Res)]
        ensures pairs { result.now ≡ self.now }
        ensures some { 0 < length self.now }
        ensures few { length self.now ≤ 32 }
    {
        &self.pairs
    }

    /// Its first pair.
    #[inline(always)]
    pub fn first(&self) -> &(Owner, Res)
        ensures { result.now ≡ first_of self.now }
    {
        &self.pairs[0]
    }

    /// What is known of the pairs at once, of all or of those that do not share.
    #[inline(always)]
    pub fn span(&self, shared: bool) -> Span
        ensures { Covers shared self.now result }
    {
        self.known.span(shared)
    }

    /// Whether the resource clashes with one of the pairs. A block that it does not meet is passed at once.
    pub fn clashes(&self, res: &Res) -> bool
        ensures { result ≡ list_any (clashes res.now) (res_list self.now) }
    {
        let span = self.span(res.shared);
        if span.misses(res.lo, res.hi) {
            return false;
        }
        one_clashes(&self.pairs, res)
    }

    /// How many of the pairs do not come after this one: it goes behind them. Cost: the logarithm of the number of pairs.
    pub fn place_of(&self, pair: &(Owner, Res)) -> usize
        requires { IsOrdered self.now }
        ensures within { result ≤ length self.now }
        ensures front { (q : Pair) → In q (take result self.now) → is_before pair.now q ≡ false }
        ensures back { (q : Pair) → In q (drop result self.now) → is_before pair.now q ≡ true }
    {
        let last = self.pairs.len() - 1;
        if !comes_before(pair, &self.pairs[last]) {
            return last + 1;
        }
        self.pairs.partition_point(|held| !comes_before(pair, held))
    }

    /// Puts a pair in at a place. It takes no memory. Cost: the number of pairs.
    pub fn put(&mut self, at: usize, pair: (Owner, Res))
        requires within { at ≤ length self.old }
        requires place { length self.old < 32 }
        ensures { self.new ≡ insert self.old at pair }
    {
        let cut = self.known.is_cut_by(&pair.1);
        let more = self.known.and(&pair);
        let _ = self.pairs.insert(at, pair);
        self.known = if cut { known_of(&self.pairs) } else { more };
    }

    /// Takes the pair at a place out, which is not the only one. It takes no memory. Cost: the number of pairs.
    pub fn take(&mut self, at: usize)
        requires within { at < length self.old }
        requires several { 1 < length self.old }
        ensures { self.new ≡ remove self.old at }
    {
        self.pairs.remove(at);
        self.known = known_of(&self.pairs);
    }

    /// Parts the block at a place: the pairs from there on are another block. It takes no memory. Cost: the number of pairs.
    fn part(&mut self, at: usize, room: Room) -> Block
        requires some { 0 < at }
        requires within { at < length self.old }
        ensures both { self.old ≡ self.new ++ result }
        ensures front { length self.new ≡ at }
    {
        let mut back = room.pairs;
        let _ = back.extend_from_slice(&self.pairs[at..]);
        self.pairs.truncate(at);
        self.known = known_of(&self.pairs);
        Block::of(back)
    }

    /// Puts a pair in at a place of a full block, whose second half, with the pair where it goes there, is another block; a pair
    /// that goes behind all is one alone. It takes no memory. Cost: the number of pairs.
    pub fn put_parting(&mut self, at: usize, pair: (Owner, Res), room: Room) -> Block
        requires within { at ≤ length self.old }
        requires full { length self.old ≡ 32 }
        ensures both { self.new ++ result ≡ insert self.old at pair }
        ensures front { 0 < length self.new }
        ensures back { 0 < length result }
    {
        if at == 32 {
            return Block::single(room, pair);
        }
        let mut back = self.part(16, room);
        if at <= 16 {
            self.put(at, pair);
        } else {
            back.put(at - 16, pair);
        }
        back
    }

    /// The pairs of another block come behind its own; the memory of that is left. Cost: the number of pairs.
    pub fn join(&mut self, back: Block) -> Room
        requires { length self.old + length back ≤ 32 }
        ensures { self.new ≡ self.old ++ back }
    {
        let _ = self.pairs.extend_from_slice(&back.pairs);
        self.known = known_of(&self.pairs);
        back.emptied()
    }
}

/// Whether the resource clashes with one of the pairs. Cost: the number of pairs.
fn one_clashes(pairs: &[(Owner, Res)], res: &Res) -> bool
    ensures { result ≡ list_any (clashes res.now) (res_list pairs.now) }
{
    for pair in pairs {
        if clash(res, &pair.1) {
            return true;
        }
    }
    false
}
