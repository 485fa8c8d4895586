//! The INFs that the words name: each is read and checked before the next one is read.
ghost use Rattle.std.specs.Prelude.{◌≡◌, ◌≤◌, ◌++◌, ◌∷◌, [], ℕ, List, IfOk, IfSome, IsErrOf, OnOk, length};
ghost use Rattle.pnp_io.specs.Outside.{Rose};
ghost use Rattle.inf_reader.specs.Meaning.{inf};
ghost use Rattle.pnp_cli.specs.Infs.{infs_in, inf_in, numbered, Gives, GivesAll, SomeRose, error_number, error_at, refusal_line};
ghost use Rattle.pnp_cli.specs.declared.infs.InfsError.TheVariants.{ReadFault};

use device_ids::{TextList, WantOfMemory};
use inf_reader::{Inf, InfError, read};
use pnp_io::{Files, ReadError, read_all};
use pnp_labels::push_decimal;
use std::alloc::{AllocError, Global};

/// The most bytes that a file may have: this project's own.
pub const LIMIT: u64 = 16_777_216;

/// Why the INFs of some names were not all taken.
#[derive(Clone, Copy, Debug, PartialEq, Eq)]
pub enum InfsError {
    /// A read failed, and the count of its name rose.
    ReadFault,
    /// A file has more than 16,777,216 bytes.
    TooLarge,
    /// The INF of this number, counted from 1, is refused.
    Refused(u64, InfError),
    /// Memory was refused.
    WantOfMemory,
}

impl From<AllocError> for InfsError {
    ghost use Rattle.std.specs.Prelude.{◌≡◌};
    ghost use Rattle.pnp_cli.specs.declared.infs.InfsError.TheVariants.{WantOfMemory};

    ghost from_gives = { λ _ e. e ≡ WantOfMemory };

    fn from(_: AllocError) -> Self {
        InfsError::WantOfMemory
    }
}

impl From<ReadError> for InfsError {
    ghost use Rattle.std.specs.Prelude.{◌≡◌};
    ghost use Rattle.pnp_cli.specs.Infs.{of_read_error};

    ghost from_gives = { λ from e. e ≡ of_read_error from };

    fn from(error: ReadError) -> Self {
        match error {
            ReadError::ReadFault => InfsError::ReadFault,
            ReadError::TooLarge => InfsError::TooLarge,
            ReadError::WantOfMemory => InfsError::WantOfMemory,
        }
    }
}

/// The meaning of the bytes of an INF, or its number and why it is refused.
fn check(alloc: Global, number: u64, bytes: &[u8]) -> Result<Inf, InfsError>
    requires { length bytes.now ≤ 16777216 }
    ensures gives { Gives result (numbered number (inf bytes.now)) }
    ensures no_fault { IsErrOf result ReadFault → ⊥ }
{
    match read(alloc, bytes) {
        Ok(read) => Ok(read),
        Err(InfError::WantOfMemory) => Err(InfsError::WantOfMemory),
        Err(error) => Err(InfsError::Refused(number, error)),
    }
}

/// Reads and checks the INF of a name.
fn read_inf<F: Files>(
    alloc: Global,
    files: &mut F,
    number: u64,
    name: &[u8],
) -> Result<Inf, InfsError>
    ensures gives { IfSome (F.contents files.old) (λ told. Gives result (inf_in number (told name.now))) }
    ensures failed { IsErrOf result ReadFault → Rose (F.faults files.old name.now) (F.faults files.new name.now) }
    ensures counts { (other : List ℕ) → F.faults files.old other ≤ F.faults files.new other }
    ensures same { F.contents files.new ≡ F.contents files.old }
{
    let bytes = read_all(alloc, files, name, LIMIT)?;
    check(alloc, number, &bytes)
}

/// Appends an INF.
fn keep(infs: &mut Vec<Inf>, inf: Inf) -> Result<(), WantOfMemory>
    ensures { OnOk result (infs.new.items ≡ infs.old.items ++ inf ∷ []) }
{
    infs.push(inf)?;
    Ok(())
}

/// Reads the INFs of the names, each of which is checked before the next one is read, and gives their meanings in
/// order. Where files tell their contents, `Ok`, `TooLarge` and `Refused` come only where the contents of these
/// names say so, the earliest name first; `ReadFault` comes only where the count of one of the names rose in this
/// call, and `WantOfMemory` may come at any time. Cost: the bytes of each.
pub fn read_infs<F: Files>(
    alloc: Global,
    files: &mut F,
    names: &TextList,
) -> Result<Vec<Inf>, InfsError>
    ensures gives { IfSome (F.contents files.old) (λ told. GivesAll result (infs_in told names.now)) }
    ensures each { IfOk result (λ infs. length infs.items ≡ length names.now) }
    ensures failed { IsErrOf result ReadFault → SomeRose (F.faults files.old) (F.faults files.new) names.now }
    ensures counts { (other : List ℕ) → F.faults files.old other ≤ F.faults files.new other }
    ensures same { F.contents files.new ≡ F.contents files.old }
{
    let mut infs = Vec::new(alloc);
    for at in 0..names.len() {
        let inf = read_inf(alloc, files, at + 1, names.get(at).bytes())?;
        keep(&mut infs, inf)?;
    }
    Ok(infs)
}

/// The number of an error of an INF: this project's own. That of want of memory is never printed.
fn error_number(error: InfError) -> u64
    ensures { result ≡ error_number error }
{
    match error {
        InfError::NoSignature => 1,
        InfError::OpenHeader { .. } => 2,
        InfError::LineTooLong { .. } => 3,
        InfError::BadDate { .. } => 4,
        InfError::BadScore { .. } => 5,
        InfError::WantOfMemory => 6,
    }
}

/// The line of an error of an INF, 0 where it has none.
fn error_at(error: InfError) -> u64
    ensures { result ≡ error_at error }
{
    match error {
        InfError::OpenHeader { line }
        | InfError::LineTooLong { line }
        | InfError::BadDate { line }
        | InfError::BadScore { line } => line as u64,
        InfError::NoSignature | InfError::WantOfMemory => 0,
    }
}

/// The line that tells of a refused INF: its number, counted from 1, the error's number and its line.
pub fn refusal_line(alloc: Global, number: u64, error: InfError) -> Result<Vec<u8>, WantOfMemory>
    ensures { IfOk result (λ line. line.items ≡ refusal_line number error) }
{
    let mut line = Vec::from_slice(alloc, b"inf ")?;
    push_decimal(&mut line, number)?;
    line.extend_from_slice(b" error ")?;
    push_decimal(&mut line, error_number(error))?;
    line.extend_from_slice(b" line ")?;
    push_decimal(&mut line, error_at(error))?;
    line.push(b'\n')?;
    Ok(line)
}
