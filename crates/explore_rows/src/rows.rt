//! Families, and what their scripts come to.
use crate::runs::{Last, NOTHING, ends, files_of, words_of};
use explore_cli::{Status, explore};
use pnp_io::MemSink;
use rows_told::must;
use std::alloc::Global;
use std::test::Fail;

/// An INF with one model.
pub const OWN_INF: &[u8] = br#"[Version]
Signature="$Windows NT$"
DriverVer=01/01/2020,1.0.0.0
[Manufacturer]
Own=M
[M]
Device=I,OWN\DEV
[I.Services]
AddService=dev,2,S
"#;

/// A device is plugged and its start completed, and it is pulled at any point.
pub const PULLED: &[u8] = br"driver dev scripted
teach dev START_DEVICE * pend
together
plug HTREE\ROOT\0 OWN\DEV 1
complete OWN\DEV\1 START_DEVICE ok
and
pull OWN\DEV\1
end
";

/// What its three scripts come to.
pub const PULLED_REPORT: &[u8] = br"scripts 3
run 3
endings 2
ending 1 scripts 2 first 1
tree
0 HTREE\ROOT\0 Started
map
outstanding
ending 2 scripts 1 first 3
differs from 1 line 3
< plug HTREE\ROOT\0 OWN\DEV 1
> pull OWN\DEV\1
tree
0 HTREE\ROOT\0 Started
 1 OWN\DEV\1 Started
map
outstanding
";

/// Two arrivals in either order.
const ARRIVALS: &[u8] = br"driver dev steady
together
plug HTREE\ROOT\0 OWN\DEV 1
and
plug HTREE\ROOT\0 OWN\DEV 2
end
";

const ARRIVALS_REPORT: &[u8] = br"scripts 2
run 2
endings 1
ending 1 scripts 2 first 1
tree
0 HTREE\ROOT\0 Started
 1 OWN\DEV\1 Started
 2 OWN\DEV\2 Started
map
outstanding
";

const EXACT_REPORT: &[u8] = br"scripts 2
run 2
endings 2
ending 1 scripts 1 first 1
tree
0 HTREE\ROOT\0 Started
 1 OWN\DEV\1 Started
 2 OWN\DEV\2 Started
map
outstanding
ending 2 scripts 1 first 2
differs from 1 line 2
< plug HTREE\ROOT\0 OWN\DEV 1
> plug HTREE\ROOT\0 OWN\DEV 2
tree
0 HTREE\ROOT\0 Started
 1 OWN\DEV\2 Started
 2 OWN\DEV\1 Started
map
outstanding
";

const EMPTY_REPORT: &[u8] = br"scripts 1
run 1
endings 1
ending 1 scripts 1 first 1
tree
0 HTREE\ROOT\0 Started
map
outstanding
";

const FIRST_REPORT: &[u8] = br"scripts 3
run 1
never 1 broken by 0
always 1 broken by 0
endings 1
ending 1 scripts 1 first 1
tree
0 HTREE\ROOT\0 Started
map
outstanding
";

const BROKEN_REPORT: &[u8] = br"scripts 3
run 3
never 1 broken by 1 first 3
never 2 broken by 0
always 1 broken by 2 first 1
endings 2
ending 1 scripts 2 first 1
tree
0 HTREE\ROOT\0 Started
map
outstanding
ending 2 scripts 1 first 3
differs from 1 line 3
< plug HTREE\ROOT\0 OWN\DEV 1
> pull OWN\DEV\1
tree
0 HTREE\ROOT\0 Started
 1 OWN\DEV\1 Started
map
outstanding
";

const THIRD_SCRIPT: &[u8] = br"driver dev scripted
teach dev START_DEVICE * pend
pull OWN\DEV\1
plug HTREE\ROOT\0 OWN\DEV 1
complete OWN\DEV\1 START_DEVICE ok
";

/// Words, and the status and the bytes that they come to.
const ROWS: &[(&[&str], Status, &[u8])] = &[
    (&["p", "empty"], Status::Done, EMPTY_REPORT),
    (&["p", "pulled", "own"], Status::Done, PULLED_REPORT),
    (
        &["p", "--endings", "2", "pulled", "own"],
        Status::Done,
        PULLED_REPORT,
    ),
    (
        &["p", "--endings", "1", "pulled", "own"],
        Status::Broken,
        PULLED_REPORT,
    ),
    (
        &["p", "--endings", "1", "arrivals", "own"],
        Status::Done,
        ARRIVALS_REPORT,
    ),
    (
        &["p", "--exact", "--endings=1", "arrivals", "own"],
        Status::Broken,
        EXACT_REPORT,
    ),
    (
        &[
            "p",
            "--never",
            "refused * * no_such_node",
            "--always",
            "event driver",
            "--first=1",
            "pulled",
            "own",
        ],
        Status::NotAll,
        FIRST_REPORT,
    ),
    (
        &[
            "p",
            "--never",
            "refused pull",
            "--never",
            "problem * 12",
            "--always",
            "refused pull",
            "pulled",
            "own",
        ],
        Status::Broken,
        BROKEN_REPORT,
    ),
    (&["p", "--count", "pulled"], Status::Done, b"scripts 3\n"),
    (
        &["p", "--script", "3", "pulled"],
        Status::Done,
        THIRD_SCRIPT,
    ),
    (&["p", "--script", "4", "pulled"], Status::BadWords, b""),
    (&["p", "open"], Status::BadFamily, b"family error line 2\n"),
    (
        &["p", "pulled", "own", "unsigned"],
        Status::BadInf,
        b"inf 2 error 1 line 0\n",
    ),
    (&["p", "pulled", "none"], Status::ReadFault, b""),
    (&["p", "none"], Status::ReadFault, b""),
];

/// The files that the rows name.
const FILES: &[(&str, &[u8])] = &[
    ("empty", b""),
    ("pulled", PULLED),
    ("arrivals", ARRIVALS),
    ("open", b"driver dev steady\neither\npull A\\B\\1\n"),
    ("own", OWN_INF),
    ("unsigned", b""),
];

#[test]
fn each_row(rt: HostRuntime) -> Result<(), Fail> {
    let alloc = rt.alloc();
    let mut files = files_of(alloc, FILES)?;
    for (texts, status, text) in ROWS {
        ends(alloc, texts, &mut files, (*status, *text))?;
    }
    Ok(())
}

/// How far the runs are is told at their end.
#[test]
fn progress(rt: HostRuntime) -> Result<(), Fail> {
    let alloc = rt.alloc();
    let mut files = files_of(alloc, FILES)?;
    let words = words_of(alloc, &["p", "pulled", "own"])?;
    let mut sink = MemSink::new(alloc, 4096)?;
    let mut last: Last = NOTHING;
    let status = explore(alloc, &words, &mut files, &mut sink, &mut last);
    must(status == Status::Done, "how it ended")?;
    must(last.done == 3 && last.of == 3, "how far it was")
}
