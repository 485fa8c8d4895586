ghost use Rattle.std.specs.Prelude.{◌≡◌, IfOk};
ghost use Rattle.notify_front.specs.Fronts.{is_of, notice};

use device_ids::{Text, WantOfMemory};
use pnp_labels::{Label, NoticeKind};
use std::alloc::Global;
use std::marker::Model;

/// A client that is registered on a device, and agrees to its removal or not. The path of the device is kept, as the device
/// may have left when the client hears of it.
pub(crate) struct Registration {
    pub(crate) client: Text,
    pub(crate) device: u64,
    pub(crate) path: Text,
    pub(crate) agrees: bool,
}

impl Drop for Registration {
    fn drop(self) {
        let Registration {
            client: _,
            device: _,
            path: _,
            agrees: _,
        } = self;
    }
}

impl Model for Registration {
    ghost use Rattle.notify_front.specs.Fronts.{Registration};

    ghost Value = { Registration };

    ghost view = { λ r. record { client = r.client; device = r.device; path = r.path; agrees = r.agrees } };
}

impl Registration {
    /// An equal registration. Cost: the length of its texts.
    pub(crate) fn copy(&self, alloc: Global) -> Result<Registration, WantOfMemory>
        ensures { IfOk result (λ r. r ≡ self.now) }
    {
        Ok(Registration {
            client: self.client.copy(alloc)?,
            device: self.device,
            path: self.path.copy(alloc)?,
            agrees: self.agrees,
        })
    }

    /// Whether it is of this client, byte by byte, on this device.
    pub(crate) fn is_of(&self, client: &Text, device: u64) -> bool
        ensures { result ≡ is_of client.now device self.now }
    {
        self.client.bytes() == client.bytes() && self.device == device
    }

    /// What the client is told. Cost: the length of the texts.
    pub(crate) fn notice(
        &self,
        alloc: Global,
        what: NoticeKind,
        agrees: Option<bool>,
    ) -> Result<Label, WantOfMemory>
        ensures { IfOk result (λ label. label ≡ notice what self.now agrees) }
    {
        Ok(Label::Notice {
            what,
            client: self.client.copy(alloc)?,
            path: self.path.copy(alloc)?,
            agrees,
        })
    }
}
