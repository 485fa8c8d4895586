//! The program `pnpmgr`: the rack of drivers, the files of the system and standard output, handed to `run`. It prints nothing
//! itself: whatever comes before `run` has a status of its own.
#![tactic(auto)]

use driver_rack::Driver;
use pnp_cli::{Status, program_drivers, run};
use pnp_io::{HostFiles, HostSink};
use std::alloc::AllocError;
use std::io::ErrorKind;
use std::process::ExitCode;

/// The words of the command line. Words that are not UTF-8 are refused as `BadWords`; else memory was refused.
fn words_of(rt: &HostRuntime) -> Result<Vec<String>, Status> {
    match std::env::args(rt) {
        Ok(words) => match words.collect(rt.alloc()) {
            Ok(words) => Ok(words),
            Err(_) => Err(Status::WantOfMemory),
        },
        Err(error) => match error.kind() {
            ErrorKind::InvalidData => Err(Status::BadWords),
            _ => Err(Status::WantOfMemory),
        },
    }
}

/// Runs what the words name, over the drivers of the program, each in a box of its own.
fn run_words(rt: &HostRuntime, words: &[String]) -> Result<Status, AllocError> {
    let alloc = rt.alloc();
    let drivers = program_drivers(alloc)?;
    let mut rack: Vec<Box<dyn Driver>> = Vec::new(alloc);
    'boxes: for driver in drivers {
        rack.push(Box::new(alloc, driver)?)?;
    }
    let mut files = HostFiles::make(rt);
    let mut sink = HostSink::make(rt);
    Ok(run(alloc, words, rack, &mut files, &mut sink))
}

/// The status of a run.
fn answer(rt: &HostRuntime) -> Status {
    match words_of(rt) {
        Err(status) => status,
        Ok(words) => match run_words(rt, &words) {
            Ok(status) => status,
            Err(_) => Status::WantOfMemory,
        },
    }
}

fn main(rt: HostRuntime) -> ExitCode {
    ExitCode::from(answer(&rt) as u8)
}
