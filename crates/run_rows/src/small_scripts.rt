//! Small scripts, read without an INF.
use crate::runs::{ends, files_of, rack_of};
use pnp_cli::Status;
use std::alloc::Global;
use std::test::Fail;

/// A script, its status and what it writes over a Scripted driver, a Steady one and a Stubborn one: an empty script; devices
/// that join and find no driver; a bad line, which ends the script; bytes that are no text.
const ROWS: [(&[u8], Status, &[u8]); 4] = [
    (
        b"",
        Status::Done,
        b"tree\n0 HTREE\\ROOT\\0 Started\nmap\noutstanding\n",
    ),
    (
        b"driver dev steady\nplug HTREE\\ROOT\\0 OWN\\DEV 1\ndriver DEV stubborn\ndriver two steady\nplug htree\\root\\0 own\\dev 1\n",
        Status::Done,
        b"event driver dev\nevent plug OWN\\DEV\\1\njoin 1 OWN\\DEV\\1\nlisted HTREE\\ROOT\\0\nproblem OWN\\DEV\\1 28\nrefused driver SameName\nrefused driver RackEmpty\nrefused plug SameId\ntree\n0 HTREE\\ROOT\\0 Started\n 1 OWN\\DEV\\1 NoStack problem 28\nmap\noutstanding\n",
    ),
    (
        b"plug HTREE\\ROOT\\0 OWN\\DEV 1\n# comment\nplag\nplug HTREE\\ROOT\\0 OWN\\DEV 2\n",
        Status::BadScript,
        b"event plug OWN\\DEV\\1\njoin 1 OWN\\DEV\\1\nlisted HTREE\\ROOT\\0\nproblem OWN\\DEV\\1 28\nscript error line 3\ntree\n0 HTREE\\ROOT\\0 Started\n 1 OWN\\DEV\\1 NoStack problem 28\nmap\noutstanding\n",
    ),
    (
        b"\x00\xFF\r\n",
        Status::BadScript,
        b"script error line 1\ntree\n0 HTREE\\ROOT\\0 Started\nmap\noutstanding\n",
    ),
];

#[test]
fn small_scripts(rt: HostRuntime) -> Result<(), Fail> {
    let alloc = rt.alloc();
    for (script, status, text) in ROWS {
        let mut files = files_of(alloc, &[("s", script)])?;
        let rack = rack_of(alloc, 1, 1, 1)?;
        ends(alloc, &["pnpmgr", "s"], rack, &mut files, (status, text))?;
    }
    Ok(())
}
