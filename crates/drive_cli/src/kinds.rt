//! The drivers of the program, by kind and number.
ghost use Rattle.std.specs.Prelude.{◌≡◌, IfOk, length};
ghost use Rattle.drive_cli.specs.Files.{program_kinds};

use pnp_labels::DriverKind;
use std::alloc::{AllocError, Global};

/// The kinds of the drivers that `pnpmgr` has: 128 scripted ones, 32 steady ones, 16 stubborn ones, in this order.
pub(crate) fn program_kinds(alloc: Global) -> Result<Vec<DriverKind>, AllocError>
    ensures kinds { IfOk result (λ kinds. kinds.items ≡ program_kinds) }
    ensures number { IfOk result (λ kinds. length kinds.items ≡ 176) }
{
    let mut kinds = Vec::new(alloc);
    kinds.resize(128, DriverKind::Scripted)?;
    kinds.resize(160, DriverKind::Steady)?;
    kinds.resize(176, DriverKind::Stubborn)?;
    Ok(kinds)
}
