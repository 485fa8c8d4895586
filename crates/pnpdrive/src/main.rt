//! The program `pnpdrive`: the words, the files of the system and standard output, handed to `drive_words`. It prints nothing itself: whatever
//! comes before `drive_words` has a status of its own.
#![tactic(auto)]

use drive_cli::{Status, drive_words};
use live_io::FilePeer;
use pnp_io::{HostFiles, HostSink};
use std::io::ErrorKind;
use std::process::ExitCode;

/// The words of the command line. Words that are not UTF-8 are refused as `BadWords`; else memory was refused.
fn words_of(rt: &HostRuntime) -> Result<Vec<String>, Status> {
    match std::env::args(rt) {
        Ok(words) => match words.collect(rt.alloc()) {
            Ok(words) => Ok(words),
            Err(_) => Err(Status::WantOfMemory),
        },
        Err(error) => match error.kind() {
            ErrorKind::InvalidData => Err(Status::BadWords),
            _ => Err(Status::WantOfMemory),
        },
    }
}

/// The status of a live run.
fn answer(rt: &HostRuntime) -> Status {
    match words_of(rt) {
        Err(status) => status,
        Ok(words) => {
            let mut files = HostFiles::make(rt);
            let mut peer = FilePeer::new(rt.alloc(), HostFiles::make(rt), HostSink::make(rt));
            drive_words(rt.alloc(), &words, &mut files, &mut peer)
        }
    }
}

fn main(rt: HostRuntime) -> ExitCode {
    ExitCode::from(answer(&rt) as u8)
}
