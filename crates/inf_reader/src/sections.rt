//! Sections by their folded names.
ghost use Rattle.std.specs.Prelude.{◌≡◌, IfOk, option_map};
ghost use Rattle.device_ids.specs.Folding.{folded};
ghost use Rattle.inf_reader.specs.Sections.{keyed_in, is_there};
ghost use Rattle.inf_reader.specs.Found.{section_found};

use crate::entries::Entry;
use crate::section::Section;
use crate::texts::folded_bytes;
use std::alloc::{AllocError, Global};
use std::collections::BTreeMap;

/// What each section holds, by its folded name. Cost of each look-up: the name's length for each of a
/// logarithm of sections.
pub struct Sections {
    pub sections: BTreeMap<Vec<u8>, Section>,
}

impl Drop for Sections {
    fn drop(self) {
        let Sections { sections: _ } = self;
    }
}

impl Sections {
    /// A section, if it is there; the name is folded here.
    pub fn get(&self, alloc: Global, name: &[u8]) -> Result<Option<&Section>, AllocError>
        ensures { IfOk result (λ found. option_map (λ s. s.now) found ≡ section_found self.now (folded name.now)) }
    {
        let folded = folded_bytes(alloc, name)?;
        Ok(self.sections.get(folded.as_slice()))
    }

    /// The entries of a section that have a key, none if it is not there.
    pub fn keyed(&self, alloc: Global, name: &[u8]) -> Result<&[Entry], AllocError>
        ensures { IfOk result (λ entries. entries.now ≡ keyed_in (section_found self.now) name.now) }
    {
        match self.get(alloc, name)? {
            Some(section) => Ok(section.keyed()),
            None => Ok(&[]),
        }
    }

    /// Whether a section is there.
    pub fn is_there(&self, alloc: Global, name: &[u8]) -> Result<bool, AllocError>
        ensures { IfOk result (λ found. found ≡ is_there (section_found self.now) name.now) }
    {
        Ok(self.get(alloc, name)?.is_some())
    }
}
