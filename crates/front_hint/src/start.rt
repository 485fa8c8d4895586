//! Where each walk begins.
ghost use Rattle.std.specs.Prelude.{◌≡◌, ◌≤◌, ◌<◌, ◌^◌, true, All, IfOk, List, length};
ghost use Rattle.inf_reader.specs.declared.parts.Inf.{Inf};
ghost use Rattle.start_sequence.specs.Begins.{settings_of};
ghost use Rattle.script_reader.specs.Script as scripts;
ghost use Rattle.front_check.specs.FrontChecks.{beginning};
ghost use Rattle.front_hint.specs.Spots.{IsOf, IsReady, place};
ghost use Rattle.trace_hint.specs.Hints.{AreRead, IsInf};

use crate::spot::Spot;
use device_ids::WantOfMemory;
use free_front::FreeFront;
use pnp_labels::DriverKind;
use script_reader::Reader;
use std::alloc::Global;
use trace_hint::read_infs;

/// A run that begins, and a reader of the whole script.
pub(crate) fn start(
    alloc: Global,
    script: &[u8],
    infs: &[Vec<u8>],
    kinds: &[DriverKind],
    budget: u64,
) -> Result<Spot, WantOfMemory>
    requires script { length script.now ≤ 16777216 }
    requires infs { length infs.now ≤ 64 }
    requires accepted { All (λ bytes. IsInf bytes.items) infs.now }
    requires kinds { length kinds.now < 2 ^ 32 }
    requires budget { budget ≤ 1000000 }
    ensures begins { IfOk result (λ spot. (read : List Inf) → AreRead infs.now read
        → (place spot ≡ beginning kinds.now (scripts.trace true 0 script.now)) × IsOf (settings_of read budget) spot) }
    ensures ready { IfOk result (λ spot. IsReady spot) }
{
    let mut reader = Reader::new(alloc);
    reader.feed(script)?;
    reader.finish();
    let infs = read_infs(alloc, infs)?;
    let run = FreeFront::new(alloc, infs, kinds, budget)?;
    Ok(Spot::Runs { run, reader })
}
