//! The bad lines of a whole script.
ghost use Rattle.std.specs.Prelude.{◌≡◌, ◌++◌, OnOk, IfOk, map, true};
ghost use Rattle.std.specs.Option.{option_map};
ghost use Rattle.script_reader.specs.Script.{trace};
ghost use Rattle.script_reader.specs.Faults.{seen};
ghost use Rattle.script_lint.specs.Script.{found_at, told, faults_in, first_line, stop_of};

use crate::line::fault_of;
use device_ids::split_once;
use script_reader::LineFault;
use std::alloc::{AllocError, Global};

/// A bad line of a script: its number, counted from 1, and what is wrong with it. This project's own.
#[derive(Clone, Copy)]
pub struct BadLine<'a> {
    /// The number of the line.
    pub line: u64,
    /// What is wrong with it.
    pub fault: LineFault<'a>,
}

/// Appends a line that has a fault.
fn push_fault<'a>(
    bad: &mut Vec<BadLine<'a>>,
    line: u64,
    fault: Option<LineFault<'a>>,
) -> Result<(), AllocError>
    ensures { OnOk result (map told bad.new.items ≡ map told bad.old.items ++ found_at line (option_map seen fault.entry)) }
{
    if let Some(fault) = fault {
        bad.push(BadLine { line, fault })?;
    }
    Ok(())
}

/// The bad lines of a script, line by line.
fn bad_lines<'a>(alloc: Global, script: &'a [u8]) -> Result<Vec<BadLine<'a>>, AllocError>
    ensures { IfOk result (λ bad. map told bad.items ≡ faults_in script.now) }
{
    let mut bad = Vec::new(alloc);
    let mut number = 0u64;
    let mut rest = script;
    while let Some((line, after)) = split_once(rest, b'\n') {
        number += 1;
        push_fault(&mut bad, number, fault_of(alloc, line, true)?)?;
        rest = after;
    }
    if !rest.is_empty() {
        push_fault(&mut bad, number + 1, fault_of(alloc, rest, false)?)?;
    }
    Ok(bad)
}

/// Every bad line of a script. The first of them is the one that ends a run of the script, and there is none exactly where the
/// reader of scripts finds none. Or want of memory. Cost: the length. This project's own.
#[tactic(auto, using(crate::proofs::Stops::stops_at_first))]
pub fn faults_of<'a>(alloc: Global, script: &'a [u8]) -> Result<Vec<BadLine<'a>>, AllocError>
    ensures all { IfOk result (λ bad. map told bad.items ≡ faults_in script.now) }
    ensures first { IfOk result (λ bad. first_line (map told bad.items) ≡ stop_of (trace true 0 script.now)) }
{
    bad_lines(alloc, script)
}
