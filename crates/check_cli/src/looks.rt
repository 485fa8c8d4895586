//! The look at a trace: by the machine alone, or where the script has lines of clients by what stands before it.
ghost use Rattle.std.specs.Prelude.{◌≡◌, ◌≤◌, ◌<◌, ◌^◌, All, IfOk, List, length};
ghost use Rattle.inf_reader.specs.declared.parts.Inf.{Inf};
ghost use Rattle.start_sequence.specs.Begins.{settings_of};
ghost use Rattle.check_cli.specs.Checks.{IsLooked};
ghost use Rattle.trace_hint.specs.Hints.{AreRead, IsInf};

use device_ids::WantOfMemory;
use front_check::has_clients;
use front_hint::look_at_front;
use pnp_labels::DriverKind;
use std::alloc::Global;
use trace_hint::{Seen, look_at};

/// Looks at a trace of a script, with or without clients. Conditions and cost: those of `look_at`.
pub(crate) fn look_over(
    alloc: Global,
    script: &[u8],
    infs: &[Vec<u8>],
    kinds: &[DriverKind],
    budget: u64,
    trace: &[u8],
) -> Result<Seen, WantOfMemory>
    requires script { length script.now ≤ 16777216 }
    requires infs { length infs.now ≤ 64 }
    requires accepted { All (λ bytes. IsInf bytes.items) infs.now }
    requires kinds { length kinds.now < 2 ^ 32 }
    requires budget { budget ≤ 1000000 }
    ensures { IfOk result (λ seen. (read : List Inf) → AreRead infs.now read → IsLooked (settings_of read budget) kinds.now script.now trace.now seen) }
{
    if has_clients(alloc, script)? {
        look_at_front(alloc, script, infs, kinds, budget, trace)
    } else {
        look_at(alloc, script, infs, kinds, budget, trace)
    }
}
