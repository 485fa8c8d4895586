//! The program `pnpview`: the rack of drivers, the files of the system and standard output, handed to `view`. It prints nothing
//! itself: whatever comes before `view` has a status of its own.
#![tactic(auto)]

use pnp_cli::{Status, program_drivers};
use pnp_io::{HostFiles, HostSink};
use std::alloc::AllocError;
use std::io::ErrorKind;
use std::process::ExitCode;
use view_cli::view;

/// The words of the command line. Words that are not UTF-8 are refused as `BadWords`; else memory was refused.
fn words_of(rt: &HostRuntime) -> Result<Vec<String>, Status> {
    match std::env::args(rt) {
        Ok(words) => match words.collect(rt.alloc()) {
            Ok(words) => Ok(words),
            Err(_) => Err(Status::WantOfMemory),
        },
        Err(error) => match error.kind() {
            ErrorKind::InvalidData => Err(Status::BadWords),
            _ => Err(Status::WantOfMemory),
        },
    }
}

/// Shows what the words name, over the drivers of the program.
fn view_words(rt: &HostRuntime, words: &[String]) -> Result<Status, AllocError> {
    let alloc = rt.alloc();
    let drivers = program_drivers(alloc)?;
    let mut files = HostFiles::make(rt);
    let mut sink = HostSink::make(rt);
    Ok(view(alloc, words, drivers, &mut files, &mut sink))
}

/// The status of a run.
fn answer(rt: &HostRuntime) -> Status {
    match words_of(rt) {
        Err(status) => status,
        Ok(words) => match view_words(rt, &words) {
            Ok(status) => status,
            Err(_) => Status::WantOfMemory,
        },
    }
}

fn main(rt: HostRuntime) -> ExitCode {
    ExitCode::from(answer(&rt) as u8)
}
