//! Handles that are opened and closed: the lines, with the event or the refusal that the language's description gives.
use crate::script_lines::{are_bad, reads};
use std::test::Fail;

const HANDLES: &[(&[u8], &[u8])] = &[
    (b"open OWN\\DEV\\1", b"OpenHandle OWN\\DEV\\1 "),
    (b"close OWN\\DEV\\1", b"CloseHandle OWN\\DEV\\1 "),
    (b"open own\\dev\\1", b"OpenHandle own\\dev\\1 "),
    (b"close HTREE\\ROOT\\0", b"CloseHandle HTREE\\ROOT\\0 "),
    (b"\topen  OWN\\DEV\\1\t", b"OpenHandle OWN\\DEV\\1 "),
    (b" close\tOWN\\DEV\\1 \r", b"CloseHandle OWN\\DEV\\1 "),
];

const BAD_HANDLES: &[&[u8]] = &[
    b"open",
    b"close",
    b"open OWN\\DEV",
    b"close OWN\\DEV\\1\\2",
    b"open \\DEV\\1",
    b"close OWN\\D,V\\1",
    b"open *",
    b"close *",
    b"open OWN\\DEV\\1 OWN\\DEV\\2",
    b"close OWN\\DEV\\1 2",
    b"close all",
    b"Open OWN\\DEV\\1",
    b"CLOSE OWN\\DEV\\1",
    b"opens OWN\\DEV\\1",
    b"closed OWN\\DEV\\1",
];

#[test]
fn handles(rt: HostRuntime) -> Result<(), Fail> {
    reads(rt.alloc(), HANDLES)?;
    are_bad(rt.alloc(), BAD_HANDLES)
}
