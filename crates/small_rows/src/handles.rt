//! Handles that are open to devices.
use devnode_tree::{HandleRow, Handles};
use rows_told::must;
use std::alloc::Global;
use std::test::Fail;

/// A handle is closed, where one is open.
fn close(handles: &mut Handles, serial: u64) -> Result<(), Fail> {
    if !handles.is_open(serial) {
        return Err(Fail::new("a handle"));
    }
    handles.drop_one(serial);
    Ok(())
}

/// Two handles to device 7 and one to device 3.
fn three(alloc: Global) -> Result<Handles, Fail> {
    let mut handles = Handles::new(alloc);
    handles.add_one(7)?;
    handles.add_one(3)?;
    handles.add_one(7)?;
    Ok(handles)
}

/// So many are open to devices 3, 5 and 7.
fn counts_are(handles: &Handles, third: u64, fifth: u64, seventh: u64) -> Result<(), Fail> {
    must(handles.count(3) == third, "handles to device 3")?;
    must(handles.count(5) == fifth, "handles to device 5")?;
    must(handles.count(7) == seventh, "handles to device 7")
}

/// A row has this device and this count.
fn row_is(rows: &[HandleRow], at: usize, serial: u64, count: u64) -> bool {
    match rows.get(at) {
        Some(row) => row.serial == serial && row.count == count,
        None => false,
    }
}

#[test]
fn handles_stand_in_order_of_serial(rt: HostRuntime) -> Result<(), Fail> {
    let rows = three(rt.alloc())?.rows(rt.alloc())?;
    must(rows.len() == 2, "how many rows")?;
    must(row_is(&rows, 0, 3, 1), "the row of device 3")?;
    must(row_is(&rows, 1, 7, 2), "the row of device 7")
}

/// Each of the three is closed, and the others are counted.
fn close_three(handles: &mut Handles) -> Result<(), Fail> {
    counts_are(handles, 1, 0, 2)?;
    close(handles, 7)?;
    counts_are(handles, 1, 0, 1)?;
    close(handles, 7)?;
    counts_are(handles, 1, 0, 0)?;
    close(handles, 3)
}

#[test]
fn handles_are_closed_one_by_one(rt: HostRuntime) -> Result<(), Fail> {
    let mut handles = three(rt.alloc())?;
    close_three(&mut handles)?;
    must(handles.rows(rt.alloc())?.is_empty(), "a row that is left")
}

/// A handle to each device from 200,000 down to 1.
fn descending(alloc: Global) -> Result<Handles, Fail> {
    let mut handles = Handles::new(alloc);
    for turn in 0..200_000u64 {
        handles.add_one(200_000u64.saturating_sub(turn))?;
    }
    Ok(handles)
}

/// A body that shifts a list does not end in the minute that a test has.
#[test]
fn handles_to_many_devices(rt: HostRuntime) -> Result<(), Fail> {
    let mut handles = descending(rt.alloc())?;
    for serial in 1..200_001u64 {
        close(&mut handles, serial)?;
    }
    counts_are(&handles, 0, 0, 0)
}
