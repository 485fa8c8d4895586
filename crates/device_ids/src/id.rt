ghost use Rattle.std.specs.Prelude.{◌≡◌, ◌↔◌, ◌≤◌, ◌<◌, ◌++◌, ℕ, [], ◌∷◌, length, List, slice_get, slice_index_or, Some, IsTrue, IfOk, IfErr, OnOk, OnErr, IsErrOf, IsNone, IsOkUnless, Err};
ghost use Rattle.device_ids.specs.Ids.{is_id_byte, is_id, first_bad};
ghost use Rattle.device_ids.specs.Faults.{id_fault};
ghost use Rattle.device_ids.specs.declared.error.IdError.{IdError};

use crate::error::IdError;
use crate::text::{Text, WantOfMemory};
use std::alloc::{AllocError, Global};
use std::marker::Model;

/// The most bytes of an identifier. The driver kit's "Device Identification Strings" leaves room for a
/// final zero in 200 characters.
const LONGEST: usize = 199;

/// Whether an identifier may have the byte.
pub(crate) fn is_id_byte(byte: u8) -> bool
    ensures { result ≡ is_id_byte byte }
{
    0x20 < byte && byte <= 0x7F && byte != b','
}

/// The place of the first byte that an identifier may not have.
fn first_bad(bytes: &[u8]) -> Option<usize>
    ensures { result ≡ first_bad bytes.now }
{
    bytes.iter().position(|byte| !is_id_byte(*byte))
}

/// Why the bytes are no legal identifier, if they are none: the first test that fails.
fn id_fault(bytes: &[u8]) -> Option<IdError>
    ensures { result ≡ id_fault bytes.now }
{
    if bytes.is_empty() {
        return Some(IdError::Empty);
    }
    if bytes.len() > LONGEST {
        return Some(IdError::TooLong);
    }
    match first_bad(bytes) {
        Some(at) => Some(IdError::BadByte { at: at as u64 }),
        None => None,
    }
}

/// Whether the bytes are a legal identifier: 1 to 199 bytes, each above 0x20 and at most 0x7F, and none
/// a comma (the driver kit, "Device Identification Strings"). Cost: the length.
#[tactic(auto, using(crate::proofs::Legal::no_fault, crate::proofs::Legal::a_fault))]
pub fn is_legal(bytes: &[u8]) -> bool
    ensures { result ≡ is_id bytes.now }
{
    match id_fault(bytes) {
        None => true,
        Some(_) => false,
    }
}

/// A legal identifier of a device: its device ID, instance ID, or a hardware or compatible ID. A contract
/// sees the list of its bytes (the driver kit, "Device Identification Strings").
pub struct DeviceId {
    text: Text,
}

impl Drop for DeviceId {
    fn drop(self) {
        let DeviceId { text: _ } = self;
    }
}

impl Model for DeviceId {
    ghost use Rattle.std.specs.Prelude.{List, ℕ, IsTrue};
    ghost use Rattle.device_ids.specs.Ids.{is_id};

    ghost Value = { List ℕ };

    ghost view = { λ d. d.text };

    ghost invariant = { λ d. IsTrue (is_id d.text) };
}

impl DeviceId {
    /// The identifier of these bytes. Errors, the first that holds: `Empty` for no byte, `TooLong` for more
    /// than 199, `BadByte` with the place of the first illegal byte; and `WantOfMemory`. Cost: the length.
    #[tactic(auto, using(crate::proofs::Legal::no_fault, crate::proofs::Legal::a_fault))]
    pub fn read(alloc: Global, bytes: &[u8]) -> Result<DeviceId, IdError>
        ensures ok { IfOk result (λ id. (id ≡ bytes.now) × IsTrue (is_id id)) }
        ensures fault { (fault : IdError) → id_fault bytes.now ≡ Some fault → result ≡ Err fault }
        ensures legal { IsTrue (is_id bytes.now) → IsOkUnless result IdError.WantOfMemory }
    {
        if let Some(fault) = id_fault(bytes) {
            return Err(fault);
        }
        match Text::make(alloc, bytes) {
            Ok(text) => Ok(DeviceId { text }),
            Err(_) => Err(IdError::WantOfMemory),
        }
    }

    /// The bytes.
    pub fn bytes(&self) -> &[u8]
        ensures bytes { result.now ≡ self.now }
        ensures legal { IsTrue (is_id self.now) }
    {
        self.text.bytes()
    }

    /// An equal identifier, which keeps the same bytes.
    pub fn copy(&self, alloc: Global) -> Result<DeviceId, WantOfMemory>
        ensures { IfOk result (λ id. id ≡ self.now) }
    {
        let text = self.text.copy(alloc)?;
        Ok(DeviceId { text })
    }
}

/// Identifiers in order of preference, as the hardware IDs of a device. A contract sees the list of their
/// bytes (the driver kit, "Hardware IDs", "Compatible IDs").
pub struct IdList {
    ids: Vec<DeviceId>,
}

impl Drop for IdList {
    fn drop(self) {
        let IdList { ids: _ } = self;
    }
}

impl Model for IdList {
    ghost use Rattle.std.specs.Prelude.{List, ℕ};

    ghost Value = { List (List ℕ) };

    ghost view = { λ l. l.ids.items };
}

impl IdList {
    /// No identifier. It takes no memory.
    pub fn new(alloc: Global) -> IdList
        ensures { result ≡ [] }
    {
        IdList {
            ids: Vec::new(alloc),
        }
    }

    /// Appends an identifier; after want of memory the list is as before.
    pub fn push(&mut self, part: DeviceId) -> Result<(), WantOfMemory>
        ensures pushed { OnOk result (self.new ≡ self.old ++ part ∷ []) }
        ensures err { OnErr result (self.new ≡ self.old) }
    {
        self.ids.push(part)?;
        Ok(())
    }

    /// How many identifiers there are.
    pub fn len(&self) -> u64
        ensures { result ≡ length self.now }
    {
        self.ids.len() as u64
    }

    /// The identifier at a place.
    pub fn get(&self, at: u64) -> &DeviceId
        requires { at < length self.now }
        ensures part { slice_get self.now at ≡ Some result.now }
        ensures item { (d : List ℕ) → slice_index_or self.now at d ≡ result.now }
    {
        &self.ids[at as usize]
    }

    /// An equal list, whose identifiers keep the same bytes. Cost: their number.
    pub fn copy(&self, alloc: Global) -> Result<IdList, WantOfMemory>
        ensures { IfOk result (λ ids. ids ≡ self.now) }
    {
        let mut ids = Vec::with_capacity(alloc, self.ids.len())?;
        for id in &self.ids {
            ids.push(id.copy(alloc)?)?;
        }
        Ok(IdList { ids })
    }
}
