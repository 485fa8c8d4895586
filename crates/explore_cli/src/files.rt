//! The files that the words name.
ghost use Rattle.std.specs.Prelude.{◌≡◌, ◌≤◌, ◌+◌, ◌∷◌, ◌++◌, [], IfOk, IfErr, IfSome, OnOk, length};
ghost use Rattle.sha2.specs.Sha256.{sha256};
ghost use Rattle.inf_reader.specs.Meaning.{inf};
ghost use Rattle.pnp_cli.specs.Infs.{Gives, numbered};
ghost use Rattle.explore_cli.specs.Explored.{AreInfs, HasKept, RefusedAs, RefusedIn};

use device_ids::{TextList, WantOfMemory};
use inf_reader::{Inf, InfError, read};
use pnp_cli::{InfsError, LIMIT};
use pnp_io::{Files, read_all};
use sha2::{Digest, Sha256};
use std::alloc::Global;

/// INFs that were read, and the digest of the bytes of each.
#[derive(Drop)]
pub(crate) struct Infs {
    pub(crate) read: Vec<Inf>,
    pub(crate) digests: Vec<[u8; 32]>,
}

/// The meaning of the bytes of an INF, or its number and why it is refused.
fn check(alloc: Global, number: u64, bytes: &[u8]) -> Result<Inf, InfsError>
    requires { length bytes.now ≤ 16777216 }
    ensures { Gives result (numbered number (inf bytes.now)) }
{
    match read(alloc, bytes) {
        Ok(read) => Ok(read),
        Err(InfError::WantOfMemory) => Err(InfsError::WantOfMemory),
        Err(error) => Err(InfsError::Refused(number, error)),
    }
}

/// Appends an INF and its digest.
fn keep(infs: &mut Infs, inf: Inf, digest: [u8; 32]) -> Result<(), WantOfMemory>
    ensures infs { OnOk result (infs.new.read.items ≡ infs.old.read.items ++ inf ∷ []) }
    ensures digests { OnOk result (infs.new.digests.items ≡ infs.old.digests.items ++ digest ∷ []) }
{
    infs.read.push(inf)?;
    infs.digests.push(digest)?;
    Ok(())
}

/// Reads and checks the INF of a name, and puts it to those that were read.
#[tactic(auto, using(crate::proofs::Reading::inf_kept, crate::proofs::Reading::inf_refused))]
fn keep_inf<F: Files>(
    alloc: Global,
    files: &mut F,
    name: &[u8],
    infs: &mut Infs,
) -> Result<(), InfsError>
    ensures kept { OnOk result (IfSome (F.contents files.old) (λ told. HasKept told name.now infs.old infs.new)) }
    ensures few { OnOk result (length infs.new.read.items ≡ length infs.old.read.items + 1) }
    ensures refused { IfErr result (λ error. IfSome (F.contents files.old) (λ told. RefusedAs told name.now (length infs.old.read.items + 1) error)) }
    ensures same { F.contents files.new ≡ F.contents files.old }
{
    let bytes = read_all(alloc, files, name, LIMIT)?;
    let inf = check(alloc, infs.read.len() as u64 + 1, &bytes)?;
    keep(infs, inf, Sha256::digest(&bytes))?;
    Ok(())
}

/// Reads the INFs of these names, each of which is checked before the next one is read.
#[tactic(auto, using(crate::proofs::Infs::read_all))]
pub(crate) fn read_infs<F: Files>(
    alloc: Global,
    files: &mut F,
    names: &TextList,
) -> Result<Infs, InfsError>
    ensures infs { IfOk result (λ infs. IfSome (F.contents files.old) (λ told. AreInfs told names.now infs.read.items infs.digests.items)) }
    ensures few { IfOk result (λ infs. length infs.read.items ≡ length names.now) }
    ensures refused { IfErr result (λ error. IfSome (F.contents files.old) (λ told. RefusedIn told names.now error)) }
    ensures same { F.contents files.new ≡ F.contents files.old }
{
    let mut infs = Infs {
        read: Vec::new(alloc),
        digests: Vec::new(alloc),
    };
    for at in 0..names.len() {
        keep_inf(alloc, files, names.get(at).bytes(), &mut infs)?;
    }
    Ok(infs)
}
