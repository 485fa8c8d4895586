//! Parts: put together they come to what one run comes to, and what is no part of this exploration is refused.
use crate::rows::{OWN_INF, PULLED, PULLED_REPORT};
use crate::runs::{ends, files_of, written};
use explore_cli::Status;
use pnp_io::MemFiles;
use rows_told::must;
use std::alloc::Global;
use std::test::Fail;

/// Words for the first part of the scripts of `pulled`, for the second, and to put both together.
const ONE: &[&str] = &["p", "--part", "1/2", "pulled", "own"];

const TWO: &[&str] = &["p", "--part=2/2", "pulled", "own"];

const BOTH: &[&str] = &["p", "--from", "one", "--from", "two", "pulled", "own"];

/// A family, an INF and what both parts came to, in files, and the first of the parts.
fn parts(alloc: Global) -> Result<(MemFiles, Vec<u8>), Fail> {
    let mut files = files_of(alloc, &[("pulled", PULLED), ("own", OWN_INF)])?;
    let one = written(alloc, ONE, &mut files, Status::Done)?;
    let two = written(alloc, TWO, &mut files, Status::Done)?;
    files.add(b"one", &one)?;
    files.add(b"two", &two)?;
    Ok((files, one))
}

/// What is written of the second part, behind its first line, where it has a mark.
const SECOND: &[u8] = br"scripts 3
run 1
endings 1
ending 1 scripts 1 first 2
lines 4
tree
0 HTREE\ROOT\0 Started
map
outstanding
sum ";

#[test]
fn put_together(rt: HostRuntime) -> Result<(), Fail> {
    let alloc = rt.alloc();
    let (mut files, _) = parts(alloc)?;
    ends(alloc, BOTH, &mut files, (Status::Done, PULLED_REPORT))?;
    let turned: &[&str] = &[
        "p",
        "--endings",
        "1",
        "--from",
        "two",
        "--from=one",
        "pulled",
        "own",
    ];
    ends(alloc, turned, &mut files, (Status::Broken, PULLED_REPORT))
}

#[test]
fn as_it_is_written(rt: HostRuntime) -> Result<(), Fail> {
    let alloc = rt.alloc();
    let mut files = files_of(alloc, &[("pulled", PULLED), ("own", OWN_INF)])?;
    let text = written(alloc, TWO, &mut files, Status::Done)?;
    must(text.starts_with(b"part 2/2 "), "how a part begins")?;
    match text.get(74..) {
        Some(rest) => must(rest.starts_with(SECOND), "what a part tells"),
        None => Err(Fail::new("how long a part is")),
    }
}

/// With these bytes in place of the first part, nothing is put together, and nothing is written.
fn refuses(alloc: Global, files: &mut MemFiles, one: &[u8]) -> Result<(), Fail> {
    files.add(b"one", one)?;
    ends(alloc, BOTH, files, (Status::BadParts, b""))
}

/// Wherever it is cut: at each 14th byte, and before the last one.
#[test]
fn cut(rt: HostRuntime) -> Result<(), Fail> {
    let alloc = rt.alloc();
    let (mut files, one) = parts(alloc)?;
    for at in 0..24usize {
        if let Some(front) = one.get(..at * 14) {
            refuses(alloc, &mut files, front)?;
        }
    }
    match one.as_slice() {
        [front @ .., _] => refuses(alloc, &mut files, front),
        [] => Err(Fail::new("a part of no byte")),
    }
}

/// The part with a bit of this byte changed.
fn changed_at(alloc: Global, part: &[u8], at: usize) -> Result<Vec<u8>, Fail> {
    let mut changed = Vec::from_slice(alloc, part)?;
    match changed.get_mut(at) {
        Some(byte) => *byte = *byte ^ 1,
        None => return Err(Fail::new("how long a part is")),
    }
    Ok(changed)
}

/// Whichever byte is changed: each 11th one.
#[test]
fn changed(rt: HostRuntime) -> Result<(), Fail> {
    let alloc = rt.alloc();
    let (mut files, one) = parts(alloc)?;
    for at in 0..31usize {
        let changed = changed_at(alloc, &one, at * 11)?;
        refuses(alloc, &mut files, &changed)?;
    }
    Ok(())
}

/// Words with which these parts are not all parts, each once, of one exploration.
const OTHERS: &[&[&str]] = &[
    &["p", "--from", "one", "pulled", "own"],
    &["p", "--from", "two", "pulled", "own"],
    &["p", "--from", "one", "--from", "one", "pulled", "own"],
    &[
        "p", "--from", "one", "--from", "two", "--from", "two", "pulled", "own",
    ],
    &["p", "--from", "one", "--from", "two", "pulled"],
    &[
        "p", "--from", "one", "--from", "two", "pulled", "own", "own",
    ],
    &["p", "--from", "one", "--from", "two", "other", "own"],
    &["p", "--from", "one", "--from", "pulled", "pulled", "own"],
    &[
        "p", "--exact", "--from", "one", "--from", "two", "pulled", "own",
    ],
    &[
        "p",
        "--budget=7",
        "--from",
        "one",
        "--from",
        "two",
        "pulled",
        "own",
    ],
    &[
        "p",
        "--first=3",
        "--from",
        "one",
        "--from",
        "two",
        "pulled",
        "own",
    ],
    &[
        "p",
        "--never=x",
        "--from",
        "one",
        "--from",
        "two",
        "pulled",
        "own",
    ],
];

/// The same scripts, of another text.
const OTHER: &[u8] = br"# Another text.
driver dev scripted
teach dev START_DEVICE * pend
together
plug HTREE\ROOT\0 OWN\DEV 1
complete OWN\DEV\1 START_DEVICE ok
and
pull OWN\DEV\1
end
";

#[test]
fn of_something_else(rt: HostRuntime) -> Result<(), Fail> {
    let alloc = rt.alloc();
    let (mut files, _) = parts(alloc)?;
    files.add(b"other", OTHER)?;
    for texts in OTHERS {
        ends(alloc, texts, &mut files, (Status::BadParts, b""))?;
    }
    let missing: &[&str] = &["p", "--from", "one", "--from", "none", "pulled", "own"];
    ends(alloc, missing, &mut files, (Status::ReadFault, b""))
}
