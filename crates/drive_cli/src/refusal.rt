use inf_reader::InfError;
use pnp_labels::decimal;
use std::alloc::{AllocError, Global};

/// The number of an error of an INF, as pnpmgr prints it. That of want of memory is never printed.
fn error_number(error: InfError) -> u64 {
    match error {
        InfError::NoSignature => 1,
        InfError::OpenHeader { .. } => 2,
        InfError::LineTooLong { .. } => 3,
        InfError::BadDate { .. } => 4,
        InfError::BadScore { .. } => 5,
        InfError::WantOfMemory => 6,
    }
}

/// The line of an error of an INF, 0 where it has none.
fn error_at(error: InfError) -> u64 {
    match error {
        InfError::OpenHeader { line }
        | InfError::LineTooLong { line }
        | InfError::BadDate { line }
        | InfError::BadScore { line } => line as u64,
        InfError::NoSignature | InfError::WantOfMemory => 0,
    }
}

/// The line that tells of a refused INF, as pnpmgr prints it: its number, counted from 1, the error's number and its line.
pub(crate) fn refusal(alloc: Global, number: u64, error: InfError) -> Result<Vec<u8>, AllocError> {
    let mut line = Vec::from_slice(alloc, b"inf ")?;
    line.extend_from_slice(decimal(alloc, number)?.as_bytes())?;
    line.extend_from_slice(b" error ")?;
    line.extend_from_slice(decimal(alloc, error_number(error))?.as_bytes())?;
    line.extend_from_slice(b" line ")?;
    line.extend_from_slice(decimal(alloc, error_at(error))?.as_bytes())?;
    line.push(b'\n')?;
    Ok(line)
}
