//! Two scripts that stand one behind the other, woven in a way.
ghost use Rattle.std.specs.Prelude.{◌≡◌, ◌+◌, ◌<◌, ◌≤◌, ◌++◌, ◌-◌, ◌^◌, [], OnOk, length, get_or};
ghost use Rattle.script_family.specs.Families.{patterns, woven};
ghost use Rattle.script_family.specs.Counts.{ways};
ghost use Rattle.script_family.specs.Tasks.{rewoven};

use crate::parts::Parts;
use device_ids::WantOfMemory;
use std::alloc::Global;

/// Appends the two scripts woven: so many lines in all.
fn weave_both(
    parts: &Parts,
    out: &mut Vec<usize>,
    first: &[usize],
    second: &[usize],
    way: u64,
) -> Result<(), WantOfMemory>
    requires rows { length first.now + length second.now < parts.now.rows }
    requires there { way < ways (length first.now + length second.now) (length first.now) }
    requires exact { way < 2 ^ 64 - 1 }
    requires small { length first.now + length second.now < 2 ^ 64 }
    ensures { OnOk result (out.new.items ≡ out.old.items ++ woven (get_or (patterns (length first.now + length second.now) (length first.now)) way []) first.now second.now) }
{
    let mut firsts = first;
    let mut seconds = second;
    let mut way = way;
    'lines: loop {
        let left = firsts.len() + seconds.len();
        if left == 0 {
            return Ok(());
        }
        let begin = parts.begin(left - 1, firsts.len());
        if way < begin {
            out.push(firsts[0])?;
            firsts = &firsts[1..];
        } else {
            way -= begin;
            out.push(seconds[0])?;
            seconds = &seconds[1..];
        }
    }
}

/// Weaves the last so many lines, of which so many are the first script's.
pub(crate) fn weave(
    alloc: Global,
    parts: &Parts,
    out: &mut Vec<usize>,
    lines: usize,
    first: usize,
    way: u64,
) -> Result<(), WantOfMemory>
    requires first { first ≤ lines }
    requires inside { lines ≤ length out.old.items }
    requires rows { lines < parts.now.rows }
    requires there { way < ways lines first }
    requires exact { way < 2 ^ 64 - 1 }
    ensures { OnOk result (out.new.items ≡ rewoven lines first way out.old.items) }
{
    let base = out.len() - lines;
    let both = Vec::from_slice(alloc, &out[base..])?;
    out.truncate(base);
    weave_both(parts, out, &both[..first], &both[first..], way)
}
