//! The program `pnpexplore`: the words, the files of the system and standard output, handed to `explore`. It prints nothing itself
//! but how far the runs are, on standard error where that is a terminal: whatever comes before `explore` has a status of its own.
#![tactic(auto)]

use explore_cli::{Progress, Status, explore};
use pnp_io::{HostFiles, HostSink};
use std::io::{ErrorKind, IsTerminal};
use std::process::ExitCode;
use std::time::{Clock, Instant};

/// Standard error, where it is told how far the runs are.
#[derive(Drop)]
struct Screen<'a, R: Eprint + Clock> {
    rt: &'a R,
    /// Whether it is a terminal; else nothing is told.
    is_shown: bool,
    /// When it began, if the clock tells.
    start: Option<Instant>,
}

/// How many of so many scripts were run in a second.
fn rate<R: Clock>(rt: &R, start: Option<Instant>, done: u64) -> u64 {
    let Some(start) = start else {
        return 0;
    };
    match start.elapsed(rt) {
        Ok(gone) => done / gone.as_secs().max(1),
        Err(_) => 0,
    }
}

impl<'a, R: Eprint + Clock> Progress for Screen<'a, R> {
    fn tell(&mut self, done: u64, of: u64) {
        if !self.is_shown {
            return;
        }
        let rt = self.rt;
        let rate = rate(rt, self.start, done);
        let end = if done == of { "\n" } else { "" };
        let _ = eprint!(rt; "\r{done} of {of} scripts, {rate} a second{end}");
    }
}

/// The words of the command line. Words that are not UTF-8 are refused as `BadWords`; else memory was refused.
fn words_of(rt: &HostRuntime) -> Result<Vec<String>, Status> {
    match std::env::args(rt) {
        Ok(words) => match words.collect(rt.alloc()) {
            Ok(words) => Ok(words),
            Err(_) => Err(Status::WantOfMemory),
        },
        Err(error) => match error.kind() {
            ErrorKind::InvalidData => Err(Status::BadWords),
            _ => Err(Status::WantOfMemory),
        },
    }
}

/// The status of an exploration.
fn answer(rt: &HostRuntime) -> Status {
    match words_of(rt) {
        Err(status) => status,
        Ok(words) => {
            let mut files = HostFiles::make(rt);
            let mut sink = HostSink::make(rt);
            let mut screen = Screen {
                rt,
                is_shown: rt.stderr().is_terminal(),
                start: Instant::now(rt).ok(),
            };
            explore(rt.alloc(), &words, &mut files, &mut sink, &mut screen)
        }
    }
}

fn main(rt: HostRuntime) -> ExitCode {
    ExitCode::from(answer(&rt) as u8)
}
