//! What a live driver is asked.
ghost use Rattle.std.specs.Prelude.{◌≡◌, [], IfOk};
ghost use Rattle.live_model.specs.Notes.{ask_words};

use device_ids::{Text, WantOfMemory};
use std::alloc::Global;

/// An ask of a live driver: its words behind the number, the driver's name, and whether the answer may be that it is pending.
pub struct LiveAsk {
    pub words: Vec<u8>,
    pub driver: Text,
    pub may_pend: bool,
}

impl Drop for LiveAsk {
    fn drop(self) {
        let LiveAsk {
            words: _,
            driver: _,
            may_pend: _,
        } = self;
    }
}

/// The words of an ask: what is asked, for which device, and whom.
pub fn ask_words(
    alloc: Global,
    what: &[u8],
    path: &[u8],
    driver: &Text,
) -> Result<Vec<u8>, WantOfMemory>
    ensures { IfOk result (λ words. words.items ≡ ask_words what.now path.now driver.now []) }
{
    let mut words = Vec::from_slice(alloc, what)?;
    words.push(b' ')?;
    words.extend_from_slice(path)?;
    words.push(b' ')?;
    words.extend_from_slice(driver.bytes())?;
    Ok(words)
}
