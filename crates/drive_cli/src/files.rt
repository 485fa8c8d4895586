//! The files that the words name.
ghost use Rattle.std.specs.Prelude.{◌≡◌, ◌≤◌, ◌++◌, ◌∷◌, [], ℕ, List, IfOk, Ok, OnOk, IsErrOf, length};
ghost use Rattle.pnp_io.specs.Outside.{Holds, Rose};
ghost use Rattle.drive_cli.specs.declared.fault.DriveFault.TheVariants.{BadWords, Client, ReadFault};
ghost use Rattle.inf_reader.specs.Meaning.{inf};
ghost use Rattle.drive_cli.specs.Files.{AreRead, SomeRose, texts};

use crate::fault::DriveFault;
use inf_reader::{Inf, InfError, read};
use pnp_io::{Files, read_all};
use std::alloc::{AllocError, Global};

/// The most bytes that a file may have: this project's own.
const LIMIT: u64 = 16_777_216;

/// Reads a whole file of at most 16,777,216 bytes.
pub(crate) fn read_file<F: Files>(
    alloc: Global,
    files: &mut F,
    name: &[u8],
) -> Result<Vec<u8>, DriveFault>
    ensures holds { IfOk result (λ bytes. Holds (F.contents files.old) name.now bytes.items) }
    ensures within { IfOk result (λ bytes. length bytes.items ≤ 16777216) }
    ensures words { IsErrOf result BadWords → ⊥ }
    ensures client { IsErrOf result Client → ⊥ }
    ensures failed { IsErrOf result ReadFault → Rose (F.faults files.old name.now) (F.faults files.new name.now) }
    ensures counts { (other : List ℕ) → F.faults files.old other ≤ F.faults files.new other }
    ensures same { F.contents files.new ≡ F.contents files.old }
{
    let bytes = read_all(alloc, files, name, LIMIT)?;
    Ok(bytes)
}

/// Reads an INF.
fn read_inf<F: Files>(
    alloc: Global,
    files: &mut F,
    number: u64,
    name: &[u8],
) -> Result<Inf, DriveFault>
    ensures read { IfOk result (λ read. (bytes : List ℕ) × Holds (F.contents files.old) name.now bytes × (inf bytes ≡ Ok read)) }
    ensures words { IsErrOf result BadWords → ⊥ }
    ensures client { IsErrOf result Client → ⊥ }
    ensures failed { IsErrOf result ReadFault → Rose (F.faults files.old name.now) (F.faults files.new name.now) }
    ensures counts { (other : List ℕ) → F.faults files.old other ≤ F.faults files.new other }
    ensures same { F.contents files.new ≡ F.contents files.old }
{
    let bytes = read_file(alloc, files, name)?;
    match read(alloc, &bytes) {
        Ok(inf) => Ok(inf),
        Err(InfError::WantOfMemory) => Err(DriveFault::WantOfMemory),
        Err(error) => Err(DriveFault::Refused(number, error)),
    }
}

/// Appends an INF.
fn keep(infs: &mut Vec<Inf>, inf: Inf) -> Result<(), AllocError>
    ensures { OnOk result (infs.new.items ≡ infs.old.items ++ inf ∷ []) }
{
    infs.push(inf)?;
    Ok(())
}

/// Reads the INFs of these names, each of which is checked before the next one is read.
#[tactic(auto, using(crate::proofs::Faults::rose_behind))]
pub(crate) fn read_infs<F: Files>(
    alloc: Global,
    files: &mut F,
    names: &[Vec<u8>],
) -> Result<Vec<Inf>, DriveFault>
    ensures as_many { IfOk result (λ infs. length infs.items ≡ length names.now) }
    ensures read { IfOk result (λ infs. AreRead (F.contents files.old) (texts names.now) infs.items) }
    ensures words { IsErrOf result BadWords → ⊥ }
    ensures client { IsErrOf result Client → ⊥ }
    ensures failed { IsErrOf result ReadFault → SomeRose (F.faults files.old) (F.faults files.new) }
    ensures counts { (other : List ℕ) → F.faults files.old other ≤ F.faults files.new other }
    ensures same { F.contents files.new ≡ F.contents files.old }
{
    let mut infs = Vec::new(alloc);
    for at in 0..names.len() {
        let inf = read_inf(alloc, files, at as u64 + 1, &names[at])?;
        keep(&mut infs, inf)?;
    }
    Ok(infs)
}
