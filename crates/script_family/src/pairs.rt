//! Two parts of which each script takes one of both: how many there are, and where a number stands among them.
ghost use Rattle.std.specs.Prelude.{◌≡◌, ◌+◌, ◌-◌, ◌*◌, ◌<◌, ◌≤◌, ◌^◌, suc, true, length, get_or, IfOk, ℕ};
ghost use Rattle.script_family.specs.Counts.{sums, capped};
ghost use Rattle.script_family.specs.Parts.{row_at};
ghost use Rattle.script_family.specs.Pairs.{times, count_of, term, ArePair, HasTable, IsPlace};

use crate::part::{Part, count_at};
use crate::ways::Ways;
use device_ids::WantOfMemory;
use std::alloc::Global;

/// Two parts, in one order or woven.
#[derive(Clone, Copy)]
pub(crate) struct Pair<'a> {
    pub(crate) first: &'a Part,
    pub(crate) second: &'a Part,
    pub(crate) ways: &'a Ways,
    pub(crate) woven: bool,
}

/// A script of two parts: how many lines are of the first, and the numbers of both scripts and of the way in which they are woven.
#[derive(Clone, Copy)]
pub(crate) struct Place {
    pub(crate) lines: usize,
    pub(crate) first: u64,
    pub(crate) second: u64,
    pub(crate) way: u64,
}

/// In how many ways a script of k lines goes together with another, to n lines in all.
fn factor(pair: Pair, n: usize, k: usize) -> u64
    requires { HasTable pair n }
    ensures { result ≡ capped (times pair.entry.woven n k) }
{
    if pair.woven { pair.ways.of(n, k) } else { 1 }
}

/// How many scripts of n lines have k of the first. Condition: k is at most n.
fn block(pair: Pair, n: usize, k: usize) -> u64
    requires table { HasTable pair n }
    requires inside { k ≤ n }
    ensures { result ≡ capped (term pair.entry n k) }
{
    count_at(pair.first.least, &pair.first.row, k)
        .saturating_mul(count_at(pair.second.least, &pair.second.row, n - k))
        .saturating_mul(factor(pair, n, k))
}

/// From which number of lines of the first on there may be scripts of n lines, and one more than up to which.
fn window(pair: Pair, n: usize) -> (usize, usize)
    requires pair { ArePair pair }
    requires few { n < 2 ^ 32 }
    ensures order { result.0 ≤ result.1 }
    ensures inside { result.1 ≤ n + 1 }
    ensures before { (k : ℕ) → k < result.0 → term pair.entry n k ≡ 0 }
    ensures behind { (k : ℕ) → result.1 ≤ k → k < n + 1 → term pair.entry n k ≡ 0 }
{
    let second_end = pair.second.least + pair.second.row.len();
    let first_end = pair.first.least + pair.first.row.len();
    let start = (n + 1)
        .saturating_sub(second_end)
        .max(pair.first.least)
        .min(n + 1);
    let end = (n + 1)
        .saturating_sub(pair.second.least)
        .min(first_end)
        .max(start);
    (start, end)
}

/// How many scripts have n lines.
fn count_pair(pair: Pair, n: usize) -> u64
    requires pair { ArePair pair }
    requires table { HasTable pair n }
    requires few { n < 2 ^ 32 }
    ensures { result ≡ capped (sums (term pair.entry n) (n + 1)) }
{
    let (start, end) = window(pair, n);
    let mut sum: u64 = 0;
    for k in start..end {
        sum = sum.saturating_add(block(pair, n, k));
    }
    sum
}

/// How many scripts there are of each number of lines, from the least to the most.
pub(crate) fn pair_row(alloc: Global, pair: Pair) -> Result<Vec<u64>, WantOfMemory>
    requires pair { ArePair pair }
    requires table { pair.woven ≡ true → pair.first.now.least + pair.second.now.least + length pair.first.now.row.items + length pair.second.now.row.items ≤ pair.ways.now + 1 }
    ensures width { IfOk result (λ row. length row.items + 1 ≡ length pair.entry.first.now.row.items + length pair.entry.second.now.row.items) }
    ensures counts { IfOk result (λ row. (at : ℕ) → at < length row.items
        → get_or row.items at 0 ≡ capped (sums (term pair.entry (pair.entry.first.now.least + pair.entry.second.now.least + at)) (pair.entry.first.now.least + pair.entry.second.now.least + at + 1))) }
{
    let least = pair.first.least + pair.second.least;
    let width = pair.first.row.len() + pair.second.row.len() - 1;
    let mut row = Vec::new(alloc);
    for at in 0..width {
        row.push(count_pair(pair, least + at))?;
    }
    Ok(row)
}

/// How many lines the first has in the script of this number among those of n lines, and how many such scripts are before it.
fn find_lines(pair: Pair, n: usize, number: u64) -> (usize, u64)
    requires pair { ArePair pair }
    requires table { HasTable pair n }
    requires few { n < 2 ^ 32 }
    requires there { number < sums (term pair n) (n + 1) }
    requires exact { number < 2 ^ 64 - 1 }
    ensures inside { result.0 ≤ n }
    ensures number { sums (term pair.entry n) result.0 + result.1 ≡ number }
    ensures block { result.1 < term pair.entry n result.0 }
{
    let (start, end) = window(pair, n);
    let mut rest = number;
    for k in start..end {
        let many = block(pair, n, k);
        if rest < many {
            return (k, rest);
        }
        rest -= many;
    }
    unreachable!()
}

/// The script of this number among those of n lines.
pub(crate) fn place_of(pair: Pair, n: usize, number: u64) -> Place
    requires pair { ArePair pair }
    requires table { HasTable pair n }
    requires few { n < 2 ^ 32 }
    requires there { number < sums (term pair n) (n + 1) }
    requires exact { number < 2 ^ 64 - 1 }
    ensures { IsPlace pair.entry n number result }
{
    let (lines, rest) = find_lines(pair, n, number);
    let ways = factor(pair, n, lines);
    let each = count_at(pair.second.least, &pair.second.row, n - lines).saturating_mul(ways);
    let among = rest % each;
    Place {
        lines,
        first: rest / each,
        second: among / ways,
        way: among % ways,
    }
}
