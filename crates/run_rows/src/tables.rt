//! All tables of scripts: each writes its text, and each text is one of the machine. A function that names a table costs the prover each of its rows, so
//! one test names them all.
use crate::rows::{Row, checks, writes};
use crate::{changes, clients, needs, rebalances, removals, starts, surprises};
use std::alloc::Global;
use std::test::Fail;

/// Each script of a table writes its text.
fn all_write(alloc: Global, rows: &[Row]) -> Result<(), Fail> {
    for row in rows {
        writes(alloc, row)?;
    }
    Ok(())
}

/// Each script of a table writes its text, and each text, as a trace, is a run of its script.
fn all_run(alloc: Global, rows: &[Row]) -> Result<(), Fail> {
    all_write(alloc, rows)?;
    for row in rows {
        checks(alloc, row)?;
    }
    Ok(())
}

/// The check of a trace knows nothing of clients.
#[test]
fn each_script_writes_its_text(rt: HostRuntime) -> Result<(), Fail> {
    let alloc = rt.alloc();
    all_run(alloc, starts::ROWS)?;
    all_run(alloc, needs::ROWS)?;
    all_run(alloc, rebalances::ROWS)?;
    all_run(alloc, changes::ROWS)?;
    all_run(alloc, removals::ROWS)?;
    all_run(alloc, surprises::ROWS)?;
    all_write(alloc, clients::ROWS)
}
