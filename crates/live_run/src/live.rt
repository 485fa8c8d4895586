ghost use Rattle.std.specs.Prelude.{◌≡◌, ◌++◌, ◌∷◌, [], OnErr, OnOk, false, true, length, ◌==◌};
ghost use Rattle.live_model.specs.Lives.{is_live};
ghost use Rattle.live_run.specs.Views.{lives_of};

use device_ids::{Text, WantOfMemory};
use std::alloc::Global;

/// The drivers that are live, by name, and whether they are probed. Case does not matter, as in a script. This project's own.
pub struct LiveDrivers {
    names: Vec<Text>,
    probed: bool,
}

impl Drop for LiveDrivers {
    fn drop(self) {
        let LiveDrivers {
            names: _,
            probed: _,
        } = self;
    }
}

impl LiveDrivers {
    /// No driver. It takes no memory.
    pub fn new(alloc: Global) -> LiveDrivers
        ensures { lives_of result ≡ record { names = []; probed = false } }
    {
        LiveDrivers {
            names: Vec::new(alloc),
            probed: false,
        }
    }

    /// The driver of a name is live too. After want of memory all is as before.
    pub fn add(&mut self, alloc: Global, name: &[u8]) -> Result<(), WantOfMemory>
        ensures added { OnOk result (lives_of self.new ≡ record (lives_of self.old) { names = (lives_of self.old).names ++ name.now ∷ [] }) }
        ensures err { OnErr result (lives_of self.new ≡ lives_of self.old) }
    {
        let name = Text::make(alloc, name)?;
        self.names.push(name)?;
        Ok(())
    }

    /// From now on they are probed.
    pub fn probe(&mut self)
        ensures { lives_of self.new ≡ record (lives_of self.old) { probed = true } }
    {
        self.probed = true;
    }

    /// Whether there is none.
    pub fn is_empty(&self) -> bool
        ensures { result ≡ (length (lives_of self.now).names == 0) }
    {
        self.names.len() == 0
    }

    /// Whether they are probed.
    pub(crate) fn are_probed(&self) -> bool
        ensures { result ≡ (lives_of self.now).probed }
    {
        self.probed
    }

    /// Whether a driver of this name is live. Cost: the number of names.
    pub fn has(&self, name: &Text) -> bool
        ensures { result ≡ is_live (lives_of self.now) name.now }
    {
        self.names.iter().any(|own| own.same(name))
    }
}
