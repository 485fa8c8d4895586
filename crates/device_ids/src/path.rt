ghost use Rattle.std.specs.Prelude.{◌≡◌, ◌≢◌, ◌↔◌, ◌≤◌, ◌<◌, ◌+◌, ◌++◌, ℕ, [], ◌∷◌, length, take, drop, Some, None, false, true, IsTrue, IfOk, OnOk, OnErr, IsErrOf, IsOkUnless, MatchOption, Err};
ghost use Rattle.device_ids.specs.Faults.{path_fault};
ghost use Rattle.std.specs.Cmp.{partial_equiv_from_equiv};
ghost use Rattle.std.specs.Cmp.Lexicographic.{on_texts_equal};
ghost use Rattle.std.specs.Cmp.Rules.{hashing};
ghost use Rattle.std.proofs.Common.{rules};
ghost use Rattle.device_ids.specs.declared.error.PathError.{PathError};
ghost use Rattle.device_ids.specs.Folding.{folded, same};
ghost use Rattle.device_ids.specs.Kept.{text_of, padded, HasFolded};
ghost use Rattle.device_ids.specs.Ids.{joined, has_parts, has_ids, is_path, Sides};

use crate::cuts::split_once;
use crate::error::PathError;
use crate::id::{DeviceId, is_id_byte, is_legal};
use crate::text::{Bytes, FEW, Kept, Text, WantOfMemory, padded};
use std::alloc::Global;
use std::hash::{Hash, Hasher};
use std::marker::Model;
use std::rc::Rc;

/// The most bytes of two identifiers with a backslash between them.
const LONGEST_JOINED: usize = 399;

/// The place of the last backslash, where the bytes are three parts between two, none of them empty.
fn last_backslash(bytes: &[u8]) -> Option<usize>
    ensures { MatchOption result (has_parts bytes.now ≡ false) (λ at. Sides bytes.now at) }
{
    let (bus, rest) = split_once(bytes, b'\\')?;
    let (name, instance) = split_once(rest, b'\\')?;
    if let Some((_, _)) = split_once(instance, b'\\') {
        return None;
    }
    if bus.is_empty() || name.is_empty() || instance.is_empty() {
        return None;
    }
    Some(bus.len() + 1 + name.len())
}

/// Why the bytes are no path, if they are none: the first test that fails.
fn path_fault(bytes: &[u8]) -> Option<PathError>
    ensures { result ≡ path_fault bytes.now }
{
    let Some(at) = last_backslash(bytes) else {
        return Some(PathError::Parts);
    };
    if is_legal(&bytes[..at]) && is_legal(&bytes[at + 1..]) {
        return None;
    }
    Some(PathError::BadId)
}

/// Why few bytes are no path, if they are none: the first test that fails. They are looked at with the backslashes after
/// them, so that each time as many bytes are, without a branch between two.
#[inline]
fn few_fault(bytes: &[u8], text: &[u8; FEW]) -> Option<PathError>
    requires few { length bytes.now ≤ 32 }
    requires text { text.now ≡ padded bytes.now }
    ensures { result ≡ path_fault bytes.now }
{
    let mut backslashes: u8 = 0;
    let mut parts: u8 = 0;
    let mut illegal: u8 = 0;
    let mut begins = true;
    for byte in text {
        let is_backslash = *byte == b'\\';
        let begins_part = begins && !is_backslash;
        let is_illegal = !is_id_byte(*byte);
        backslashes += is_backslash as u8;
        parts += begins_part as u8;
        illegal += is_illegal as u8;
        begins = is_backslash;
    }
    if backslashes as usize + bytes.len() != FEW + 2 || parts != 3 {
        return Some(PathError::Parts);
    }
    if illegal != 0 {
        return Some(PathError::BadId);
    }
    None
}

/// The bytes, and the same bytes with ASCII letters folded.
fn with_folded(alloc: Global, bytes: &[u8]) -> Result<Rc<Kept>, WantOfMemory>
    ensures { IfOk result (λ kept. HasFolded kept.value × (text_of kept.value ≡ bytes.now)) }
{
    let len = bytes.len();
    if len <= FEW {
        return Ok(Rc::new(alloc, Kept::few(padded(bytes), len))?);
    }
    let mut both = Vec::with_capacity(alloc, len.saturating_mul(2))?;
    both.extend_from_slice(bytes)?;
    both.extend_from_slice(bytes)?;
    both[len..].make_ascii_lowercase();
    let bytes = Bytes::Many(both);
    Ok(Rc::new(alloc, Kept { bytes, len })?)
}

/// What is kept of a path of few bytes.
#[inline]
#[tactic(auto, using(crate::proofs::Legal::no_path_fault, crate::proofs::Legal::a_path_fault))]
fn few_read(alloc: Global, bytes: &[u8]) -> Result<Rc<Kept>, PathError>
    requires few { length bytes.now ≤ 32 }
    ensures ok { IfOk result (λ kept. HasFolded kept.value × (text_of kept.value ≡ bytes.now) × IsTrue (is_path bytes.now)) }
    ensures fault { (fault : PathError) → path_fault bytes.now ≡ Some fault → result ≡ Err fault }
    ensures legal { IsTrue (is_path bytes.now) → IsOkUnless result PathError.WantOfMemory }
{
    let text = padded(bytes);
    if let Some(fault) = few_fault(bytes, &text) {
        return Err(fault);
    }
    match Rc::new(alloc, Kept::few(text, bytes.len())) {
        Ok(kept) => Ok(kept),
        Err(_) => Err(PathError::WantOfMemory),
    }
}

/// What is kept of a path.
#[tactic(auto, using(crate::proofs::Legal::no_path_fault, crate::proofs::Legal::a_path_fault))]
fn many_read(alloc: Global, bytes: &[u8]) -> Result<Rc<Kept>, PathError>
    ensures ok { IfOk result (λ kept. HasFolded kept.value × (text_of kept.value ≡ bytes.now) × IsTrue (is_path bytes.now)) }
    ensures fault { (fault : PathError) → path_fault bytes.now ≡ Some fault → result ≡ Err fault }
    ensures legal { IsTrue (is_path bytes.now) → IsOkUnless result PathError.WantOfMemory }
{
    if let Some(fault) = path_fault(bytes) {
        return Err(fault);
    }
    match with_folded(alloc, bytes) {
        Ok(kept) => Ok(kept),
        Err(_) => Err(PathError::WantOfMemory),
    }
}

/// The name of a device in the tree: device ID, backslash, instance ID (the driver kit, "Device Instance
/// IDs"). A contract sees the list of its bytes. The folded text is kept beside them, so that a look-up by it
/// takes no memory. They are kept once for a path, its copies and their texts.
pub struct InstancePath {
    kept: Rc<Kept>,
}

impl Drop for InstancePath {
    fn drop(self) {
        let InstancePath { kept: _ } = self;
    }
}

impl Model for InstancePath {
    ghost use Rattle.std.specs.Prelude.{List, ℕ, IsTrue};
    ghost use Rattle.device_ids.specs.Kept.{text_of, HasFolded};
    ghost use Rattle.device_ids.specs.Ids.{is_path};

    ghost Value = { List ℕ };

    ghost view = { λ p. text_of p.kept.value };

    ghost invariant = { λ p. IsTrue (is_path (text_of p.kept.value)) × HasFolded p.kept.value };
}

impl InstancePath {
    /// Device ID, backslash, instance ID. Errors: those of `read` at the joined bytes, in its order: they are
    /// joined on the stack, so want of memory comes last. Cost: the length.
    pub fn join(
        alloc: Global,
        device: &DeviceId,
        instance: &DeviceId,
    ) -> Result<InstancePath, PathError>
        ensures ok { IfOk result (λ path. (path ≡ joined device.now instance.now) × IsTrue (is_path path)) }
        ensures fault { (fault : PathError) → path_fault (joined device.now instance.now) ≡ Some fault → result ≡ Err fault }
        ensures legal { IsTrue (is_path (joined device.now instance.now)) → IsOkUnless result PathError.WantOfMemory }
    {
        let mut bytes = [0; LONGEST_JOINED];
        let len = write_joined(&mut bytes, device.bytes(), instance.bytes());
        InstancePath::read(alloc, &bytes[..len])
    }

    /// The path of these bytes. Errors, the first that holds: `Parts` where they are not three non-empty
    /// parts between two backslashes, `BadId` where a side of the last backslash is no legal identifier;
    /// and `WantOfMemory`. Cost: the length.
    pub fn read(alloc: Global, bytes: &[u8]) -> Result<InstancePath, PathError>
        ensures ok { IfOk result (λ path. (path ≡ bytes.now) × IsTrue (is_path path)) }
        ensures fault { (fault : PathError) → path_fault bytes.now ≡ Some fault → result ≡ Err fault }
        ensures legal { IsTrue (is_path bytes.now) → IsOkUnless result PathError.WantOfMemory }
    {
        let kept = if bytes.len() <= FEW {
            few_read(alloc, bytes)
        } else {
            many_read(alloc, bytes)
        };
        match kept {
            Ok(kept) => Ok(InstancePath { kept }),
            Err(fault) => Err(fault),
        }
    }

    /// Whether both agree after ASCII letters are folded. Cost: the length.
    pub fn same(&self, other: &InstancePath) -> bool
        ensures { result ≡ same self.now other.now }
    {
        self.bytes().eq_ignore_ascii_case(other.bytes())
    }

    /// The bytes, as they were given.
    pub fn bytes(&self) -> &[u8]
        ensures bytes { result.now ≡ self.now }
        ensures legal { IsTrue (is_path self.now) }
    {
        self.kept.text()
    }

    /// The bytes with ASCII letters folded: equal for paths that are the same.
    pub fn folded(&self) -> &[u8]
        ensures { result.now ≡ folded self.now }
    {
        self.kept.folded()
    }

    /// An equal path, which keeps the same bytes. Where they have as many owners as there may be, they are copied.
    pub fn copy(&self, alloc: Global) -> Result<InstancePath, WantOfMemory>
        ensures { IfOk result (λ path. path ≡ self.now) }
    {
        let kept = match self.kept.clone() {
            Ok(kept) => kept,
            Err(_) => with_folded(alloc, self.bytes())?,
        };
        Ok(InstancePath { kept })
    }

    /// The path as a text, which keeps the same bytes.
    pub fn text(&self, alloc: Global) -> Result<Text, WantOfMemory>
        ensures { IfOk result (λ text. text ≡ self.now) }
    {
        Text::front(alloc, &self.kept)
    }
}

/// Two paths are equal where they agree after ASCII letters are folded, as Windows compares names.
impl PartialEq for InstancePath {
    ghost eq = { same };

    ghost laws = { partial_equiv_from_equiv (on_texts_equal folded) };

    fn eq(&self, other: &InstancePath) -> bool {
        self.folded() == other.folded()
    }
}

impl Eq for InstancePath {
    ghost laws = { on_texts_equal folded };
}

/// The folded text is written whole.
impl Hash for InstancePath {
    ghost hash_input = { λ path. folded path ∷ [] };

    ghost respects_eq = { Prim.search (hashing, rules) };

    fn hash<H: Hasher>(&self, state: &mut H) {
        state.write(self.folded());
    }
}

/// Writes both, with a backslash between them, to the front, and answers their length.
fn write_joined(bytes: &mut [u8], device: &[u8], instance: &[u8]) -> usize
    requires { length device.now + 1 + length instance.now ≤ length bytes.old }
    ensures len { result ≡ length (joined device.now instance.now) }
    ensures front { take result bytes.new ≡ joined device.now instance.now }
{
    let at = device.len();
    let len = at + 1 + instance.len();
    bytes[..at].copy_from_slice(device);
    bytes[at] = b'\\';
    bytes[at + 1..len].copy_from_slice(instance);
    len
}
