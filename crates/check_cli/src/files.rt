//! The files that the words name.
ghost use Rattle.std.specs.Prelude.{◌≡◌, ◌≤◌, ◌++◌, ◌∷◌, [], ℕ, List, All, IfOk, OnOk, IsErrOf, length};
ghost use Rattle.pnp_io.specs.Outside.{Holds, Rose};
ghost use Rattle.check_cli.specs.declared.error.CheckError.TheVariants.{ReadFault};
ghost use Rattle.check_cli.specs.Checks.{HoldAll, SomeRose, texts};
ghost use Rattle.trace_hint.specs.Hints.{IsInf};

use crate::error::CheckError;
use inf_reader::{InfError, read};
use pnp_io::{Files, read_all};
use std::alloc::{AllocError, Global};

/// The most bytes that a file may have: this project's own.
const LIMIT: u64 = 16_777_216;

/// Reads a whole file of at most 16,777,216 bytes.
pub(crate) fn read_file<F: Files>(
    alloc: Global,
    files: &mut F,
    name: &[u8],
) -> Result<Vec<u8>, CheckError>
    ensures holds { IfOk result (λ bytes. Holds (F.contents files.old) name.now bytes.items) }
    ensures within { IfOk result (λ bytes. length bytes.items ≤ 16777216) }
    ensures failed { IsErrOf result ReadFault → Rose (F.faults files.old name.now) (F.faults files.new name.now) }
    ensures counts { (other : List ℕ) → F.faults files.old other ≤ F.faults files.new other }
    ensures same { F.contents files.new ≡ F.contents files.old }
{
    let bytes = read_all(alloc, files, name, LIMIT)?;
    Ok(bytes)
}

/// Reads an INF and checks it; its bytes.
fn read_inf<F: Files>(
    alloc: Global,
    files: &mut F,
    number: u64,
    name: &[u8],
) -> Result<Vec<u8>, CheckError>
    ensures holds { IfOk result (λ bytes. Holds (F.contents files.old) name.now bytes.items) }
    ensures accepted { IfOk result (λ bytes. IsInf bytes.items) }
    ensures failed { IsErrOf result ReadFault → Rose (F.faults files.old name.now) (F.faults files.new name.now) }
    ensures counts { (other : List ℕ) → F.faults files.old other ≤ F.faults files.new other }
    ensures same { F.contents files.new ≡ F.contents files.old }
{
    let bytes = read_file(alloc, files, name)?;
    match read(alloc, &bytes) {
        Ok(_) => Ok(bytes),
        Err(InfError::WantOfMemory) => Err(CheckError::WantOfMemory),
        Err(error) => Err(CheckError::Refused(number, error)),
    }
}

/// Appends the bytes of an INF.
fn keep(infs: &mut Vec<Vec<u8>>, bytes: Vec<u8>) -> Result<(), AllocError>
    ensures { OnOk result (infs.new.items ≡ infs.old.items ++ bytes ∷ []) }
{
    infs.push(bytes)?;
    Ok(())
}

/// Reads the INFs of these names, each of which is checked before the next one is read.
#[tactic(auto, using(crate::proofs::Faults::rose_behind))]
pub(crate) fn read_infs<F: Files>(
    alloc: Global,
    files: &mut F,
    names: &[Vec<u8>],
) -> Result<Vec<Vec<u8>>, CheckError>
    ensures hold { IfOk result (λ infs. HoldAll (F.contents files.old) (texts names.now) (texts infs.items)) }
    ensures accepted { IfOk result (λ infs. All (λ bytes. IsInf bytes.items) infs.items) }
    ensures failed { IsErrOf result ReadFault → SomeRose (F.faults files.old) (F.faults files.new) }
    ensures counts { (other : List ℕ) → F.faults files.old other ≤ F.faults files.new other }
    ensures same { F.contents files.new ≡ F.contents files.old }
{
    let mut infs = Vec::new(alloc);
    for at in 0..names.len() {
        let bytes = read_inf(alloc, files, at as u64 + 1, &names[at])?;
        keep(&mut infs, bytes)?;
    }
    Ok(infs)
}
