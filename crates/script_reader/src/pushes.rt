//! Parts appended to lists that have room for them, so that memory alone can be wanting.
ghost use Rattle.std.specs.Prelude.{◌≡◌, ◌≢◌, ◌<◌, ◌++◌, ◌∷◌, [], length, OnOk};

use resource_reqs::{AltList, Group, ReqError, Reqs, Want, WantOfMemory};
use std::alloc::AllocError;

/// Appends a want to a group that has room.
pub fn push_want(group: &mut Group, want: Want) -> Result<(), WantOfMemory>
    requires { length group.old < 16 }
    ensures { OnOk result (group.new ≡ group.old ++ want ∷ []) }
{
    match group.push(want) {
        Ok(()) => Ok(()),
        Err(ReqError::WantOfMemory) => Err(AllocError),
        Err(ReqError::Full | ReqError::EmptyPart) => unreachable!(),
    }
}

/// Appends a group that is not empty to a list that has room.
pub fn push_group(list: &mut AltList, group: Group) -> Result<(), WantOfMemory>
    requires room { length list.old < 16 }
    requires some { group ≢ [] }
    ensures { OnOk result (list.new ≡ list.old ++ group ∷ []) }
{
    match list.push(group) {
        Ok(()) => Ok(()),
        Err(ReqError::WantOfMemory) => Err(AllocError),
        Err(ReqError::Full | ReqError::EmptyPart) => unreachable!(),
    }
}

/// Appends a list that is not empty to requirements that have room.
pub fn push_list(reqs: &mut Reqs, list: AltList) -> Result<(), WantOfMemory>
    requires room { length reqs.old < 8 }
    requires some { list ≢ [] }
    ensures { OnOk result (reqs.new ≡ reqs.old ++ list ∷ []) }
{
    match reqs.push(list) {
        Ok(()) => Ok(()),
        Err(ReqError::WantOfMemory) => Err(AllocError),
        Err(ReqError::Full | ReqError::EmptyPart) => unreachable!(),
    }
}
