//! Of two INFs the best match gives the driver.
use crate::infs::{HIGH_INF, LATE_INF, NEW_INF, OLD_INF};
use crate::rows::{comes, files_for, words_for};
use pnp_cli::Status;
use std::alloc::Global;
use std::test::Fail;

const SCRIPT: &str = r"driver new steady
driver old steady
driver late steady
driver high steady
plug HTREE\ROOT\0 OWN\X 1 hw=OWN\X compat=OWN\ANY
";

const PLUGGED_TEXT: &str = r"event driver new
event driver old
event driver late
event driver high
event plug OWN\X\1
join 1 OWN\X\1
listed HTREE\ROOT\0
";

/// The text of an INF in UTF-16LE.
fn in_utf16(alloc: Global, text: &[u8]) -> Result<Vec<u8>, Fail> {
    let mut bytes = Vec::from_slice(alloc, b"\xFF\xFE")?;
    for byte in text {
        bytes.push(*byte)?;
        bytes.push(0)?;
    }
    Ok(bytes)
}

/// Two INFs, and the service whose driver is chosen: that of the second.
fn chooses(alloc: Global, infs: &[&[u8]], service: &str) -> Result<(), Fail> {
    let text = format!(in alloc;
        "{PLUGGED_TEXT}\
        install OWN\\X\\1 00ff0000 {service}\n\
        add OWN\\X\\1 {service} ok\n\
        assign OWN\\X\\1\n\
        START_DEVICE OWN\\X\\1 {service} ok\n\
        state OWN\\X\\1 Started\n\
        listed OWN\\X\\1\n\
        tree\n\
        0 HTREE\\ROOT\\0 Started\n \
        1 OWN\\X\\1 Started\n\
        map\n\
        outstanding\n"
    )?;
    let words = words_for(alloc, &[], infs.len())?;
    let mut files = files_for(alloc, SCRIPT.as_bytes(), infs)?;
    comes(alloc, &words, &mut files, (Status::Done, text.as_bytes()))
}

/// Two INFs, and the service.
const PAIRS: &[(&[u8], &[u8], &str)] = &[
    (NEW_INF, OLD_INF, "old"),
    (OLD_INF, LATE_INF, "late"),
    (LATE_INF, HIGH_INF, "high"),
];

/// A match of the hardware ID, a later date, and a higher version, which an INF in UTF-16 has too.
#[test]
fn the_best_driver(rt: HostRuntime) -> Result<(), Fail> {
    let alloc = rt.alloc();
    let wide = in_utf16(alloc, HIGH_INF)?;
    for (first, second, service) in PAIRS {
        chooses(alloc, &[*first, *second], service)?;
    }
    chooses(alloc, &[LATE_INF, &wide], "high")
}
