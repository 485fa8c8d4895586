ghost use Rattle.std.specs.Prelude.{◌≡◌, ◌==◌, [], ◌∷◌, ◌++◌, reverse, IfOk, IfNone, OnOk, option_to_list};
ghost use Rattle.pnp_model.specs.Keyed.{without_first};

use device_ids::WantOfMemory;
use operation_frame::SerialQueue;
use std::alloc::Global;

/// Takes the next device.
pub(crate) fn take_first(queue: &mut SerialQueue) -> Option<u64>
    ensures taken { queue.old ≡ option_to_list result ++ queue.new }
    ensures none { IfNone result (queue.old ≡ []) }
{
    let serial = queue.get(0)?;
    queue.drop_first();
    Some(serial)
}

/// The same devices, the last one first.
pub(crate) fn reversed(alloc: Global, queue: &SerialQueue) -> Result<SerialQueue, WantOfMemory>
    ensures { IfOk result (λ turned. turned ≡ reverse queue.now) }
{
    let mut left = queue.copy(alloc)?;
    let mut turned = SerialQueue::new(alloc);
    'left: while let Some(serial) = take_first(&mut left) {
        turned.push_front(serial)?;
    }
    Ok(turned)
}

/// Appends a device, and then these without it, which empties the queue.
fn push_with_first(
    all: &mut Vec<u64>,
    first: u64,
    queue: &mut SerialQueue,
) -> Result<(), WantOfMemory>
    ensures { OnOk result (all.new.items ≡ all.old.items ++ first ∷ without_first (λ j. j == first) queue.old) }
{
    all.push(first)?;
    let mut is_left_out = false;
    'queue: while let Some(serial) = take_first(queue) {
        if serial == first && !is_left_out {
            is_left_out = true;
        } else {
            all.push(serial)?;
        }
    }
    Ok(())
}

/// A device, and then these without it.
pub(crate) fn with_first(
    alloc: Global,
    first: u64,
    queue: &SerialQueue,
) -> Result<Vec<u64>, WantOfMemory>
    ensures { IfOk result (λ all. all.items ≡ first ∷ without_first (λ j. j == first) queue.now) }
{
    let mut left = queue.copy(alloc)?;
    let mut all = Vec::new(alloc);
    push_with_first(&mut all, first, &mut left)?;
    Ok(all)
}
