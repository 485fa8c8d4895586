//! The lines of labels, with their LFs.
ghost use Rattle.std.specs.Prelude.{◌≡◌, [], ◌∷◌, ◌++◌, IfOk};
ghost use Rattle.pnp_labels.specs.Texts.{label_line};

use device_ids::WantOfMemory;
use pnp_labels::{Label, label_line};
use std::alloc::Global;

/// The line of a label, which is let go. Cost: the length.
pub(crate) fn line_of(alloc: Global, label: Label) -> Result<Vec<u8>, WantOfMemory>
    ensures { IfOk result (λ line. line.items ≡ label_line label ++ 10 ∷ []) }
{
    label_line(alloc, &label)
}
