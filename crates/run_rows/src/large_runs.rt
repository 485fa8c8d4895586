//! Scripts at a limit and large ones, and what is written for them, byte for byte. Scripts and outputs are put together from texts that differ in
//! their numbers alone.
use crate::runs::{comes_to, ended, files_of, rack_of};
use pnp_cli::Status;
use pnp_io::MemSink;
use std::alloc::{AllocError, Global};
use std::test::Fail;

/// The driver of each device of the scripts.
const INF: &[u8] = b"[Version]\nSignature=\"$Windows NT$\"\nDriverVer=01/01/2020,1.0.0.0\n\
    [Manufacturer]\nOwn=M\n[M]\nDevice=I,OWN\\DEV\n[I.Services]\nAddService=dev,2,S\n";

/// A text that comes once for each number, from the first to the last, which may be the lower one. In it `@` stands for the number, `^` for the
/// one before, and `~` for as many spaces.
type Lines = (&'static [u8], u64, u64);

/// The budget, a script, its status and what is written, each text in parts.
type Run = (
    &'static str,
    &'static [&'static [Lines]],
    Status,
    &'static [&'static [Lines]],
);

/// Devices each on the one before, as many as may be in the world.
const CHAIN: &[Lines] = &[
    (b"driver dev steady\nplug HTREE\\ROOT\\0 OWN\\DEV @\n", 1, 1),
    (b"plug OWN\\DEV\\^ OWN\\DEV @\n", 2, 4096),
];

/// They start.
const CHAIN_STARTS: &[Lines] = &[
    (
        b"event driver dev\nevent plug OWN\\DEV\\@\njoin @ OWN\\DEV\\@\nlisted HTREE\\ROOT\\0\ninstall OWN\\DEV\\@ 00ff0000 dev\nadd OWN\\DEV\\@ dev ok\nassign OWN\\DEV\\@\nSTART_DEVICE OWN\\DEV\\@ dev ok\nstate OWN\\DEV\\@ Started\nlisted OWN\\DEV\\@\n",
        1,
        1,
    ),
    (
        b"event plug OWN\\DEV\\@\njoin @ OWN\\DEV\\@\nlisted OWN\\DEV\\^\ninstall OWN\\DEV\\@ 00ff0000 dev\nadd OWN\\DEV\\@ dev ok\nassign OWN\\DEV\\@\nSTART_DEVICE OWN\\DEV\\@ dev ok\nstate OWN\\DEV\\@ Started\nlisted OWN\\DEV\\@\n",
        2,
        4096,
    ),
];

/// One device more, and the tree.
const WORLD_FULL_SCRIPT: &[Lines] = &[(b"plug OWN\\DEV\\^ OWN\\DEV @\n", 4097, 4097)];

/// What follows.
const WORLD_FULL: &[Lines] = &[
    (
        b"refused plug WorldFull\ntree\n0 HTREE\\ROOT\\0 Started\n",
        1,
        1,
    ),
    (b"~@ OWN\\DEV\\@ Started\n", 1, 4096),
    (b"map\noutstanding\n", 1, 1),
];

/// The first of them is disabled, and the others leave.
const CHAIN_DISABLED_SCRIPT: &[Lines] = &[(b"disable OWN\\DEV\\1\n", 1, 1)];

/// What follows.
const CHAIN_DISABLED: &[Lines] = &[
    (
        b"event disable OWN\\DEV\\1\nbegin disable OWN\\DEV\\1\n",
        1,
        1,
    ),
    (
        b"QUERY_REMOVE_DEVICE OWN\\DEV\\@ dev ok\nstate OWN\\DEV\\@ RemovePending\n",
        4096,
        1,
    ),
    (
        b"REMOVE_DEVICE OWN\\DEV\\@ dev ok\nstate OWN\\DEV\\@ NoStack\nleave OWN\\DEV\\@\n",
        4096,
        2,
    ),
    (
        b"REMOVE_DEVICE OWN\\DEV\\@ dev ok\nstate OWN\\DEV\\@ NoStack\nproblem OWN\\DEV\\@ 22\nend disable OWN\\DEV\\@ done\ntree\n0 HTREE\\ROOT\\0 Started\n @ OWN\\DEV\\@ NoStack problem 22\nmap\noutstanding\n",
        1,
        1,
    ),
];

/// A hub with as many devices as there may be, and one more, is pulled.
const HUB_PULLED_SCRIPT: &[Lines] = &[
    (b"driver dev steady\nplug HTREE\\ROOT\\0 OWN\\DEV @\n", 1, 1),
    (b"plug OWN\\DEV\\1 OWN\\DEV @\n", 2, 4097),
    (b"pull OWN\\DEV\\1\n", 1, 1),
];

/// What is written.
const HUB_PULLED: &[Lines] = &[
    (
        b"event driver dev\nevent plug OWN\\DEV\\@\njoin @ OWN\\DEV\\@\nlisted HTREE\\ROOT\\0\ninstall OWN\\DEV\\@ 00ff0000 dev\nadd OWN\\DEV\\@ dev ok\nassign OWN\\DEV\\@\nSTART_DEVICE OWN\\DEV\\@ dev ok\nstate OWN\\DEV\\@ Started\nlisted OWN\\DEV\\@\n",
        1,
        1,
    ),
    (
        b"event plug OWN\\DEV\\@\njoin @ OWN\\DEV\\@\nlisted OWN\\DEV\\1\ninstall OWN\\DEV\\@ 00ff0000 dev\nadd OWN\\DEV\\@ dev ok\nassign OWN\\DEV\\@\nSTART_DEVICE OWN\\DEV\\@ dev ok\nstate OWN\\DEV\\@ Started\nlisted OWN\\DEV\\@\n",
        2,
        4096,
    ),
    (
        b"refused plug WorldFull\nevent pull OWN\\DEV\\1\ngone OWN\\DEV\\1\nlisted HTREE\\ROOT\\0\nbegin surprise OWN\\DEV\\1\n",
        1,
        1,
    ),
    (
        b"SURPRISE_REMOVAL OWN\\DEV\\@ dev ok\nstate OWN\\DEV\\@ SurpriseRemoved\n",
        4096,
        1,
    ),
    (
        b"REMOVE_DEVICE OWN\\DEV\\@ dev ok\nstate OWN\\DEV\\@ NoStack\nleave OWN\\DEV\\@\n",
        4096,
        1,
    ),
    (
        b"end surprise OWN\\DEV\\1 done\ntree\n0 HTREE\\ROOT\\0 Started\nmap\noutstanding\n",
        1,
        1,
    ),
];

/// A chain of relations, whose last device leaves first.
const RELATED_DISABLED_SCRIPT: &[Lines] = &[
    (b"driver dev steady\n", 1, 1),
    (b"plug HTREE\\ROOT\\0 OWN\\DEV @\n", 1, 4096),
    (b"relate removal OWN\\DEV\\^ OWN\\DEV\\@\n", 2, 4096),
    (b"disable OWN\\DEV\\1\n", 1, 1),
];

/// What is written.
const RELATED_DISABLED: &[Lines] = &[
    (b"event driver dev\n", 1, 1),
    (
        b"event plug OWN\\DEV\\@\njoin @ OWN\\DEV\\@\nlisted HTREE\\ROOT\\0\ninstall OWN\\DEV\\@ 00ff0000 dev\nadd OWN\\DEV\\@ dev ok\nassign OWN\\DEV\\@\nSTART_DEVICE OWN\\DEV\\@ dev ok\nstate OWN\\DEV\\@ Started\nlisted OWN\\DEV\\@\n",
        1,
        4096,
    ),
    (b"event relate OWN\\DEV\\^ OWN\\DEV\\@\n", 2, 4096),
    (
        b"event disable OWN\\DEV\\1\nbegin disable OWN\\DEV\\1\n",
        1,
        1,
    ),
    (
        b"QUERY_REMOVE_DEVICE OWN\\DEV\\@ dev ok\nstate OWN\\DEV\\@ RemovePending\n",
        4096,
        1,
    ),
    (
        b"REMOVE_DEVICE OWN\\DEV\\@ dev ok\nstate OWN\\DEV\\@ NoStack\nproblem OWN\\DEV\\@ held\n",
        4096,
        2,
    ),
    (
        b"REMOVE_DEVICE OWN\\DEV\\@ dev ok\nstate OWN\\DEV\\@ NoStack\nproblem OWN\\DEV\\@ 22\nend disable OWN\\DEV\\@ done\ntree\n0 HTREE\\ROOT\\0 Started\n @ OWN\\DEV\\@ NoStack problem 22\n",
        1,
        1,
    ),
    (b" @ OWN\\DEV\\@ NoStack problem held\n", 2, 4096),
    (b"map\noutstanding\n", 1, 1),
];

const LARGE: &[Run] = &[
    (
        "20000",
        &[CHAIN, WORLD_FULL_SCRIPT],
        Status::Done,
        &[CHAIN_STARTS, WORLD_FULL],
    ),
    (
        "20000",
        &[CHAIN, CHAIN_DISABLED_SCRIPT],
        Status::Done,
        &[CHAIN_STARTS, CHAIN_DISABLED],
    ),
    ("20000", &[HUB_PULLED_SCRIPT], Status::Done, &[HUB_PULLED]),
    (
        "20000",
        &[RELATED_DISABLED_SCRIPT],
        Status::Done,
        &[RELATED_DISABLED],
    ),
];

/// A book with one rule more than it may have.
const RULES_SCRIPT: &[Lines] = &[
    (b"driver dev scripted\n", 1, 1),
    (b"teach dev add OWN\\DEV\\@ ok\n", 1, 65),
];

/// What is written.
const RULES_TEXT: &[Lines] = &[
    (b"event driver dev\n", 1, 1),
    (b"event teach dev\n", 1, 64),
    (
        b"refused teach BookFull\ntree\n0 HTREE\\ROOT\\0 Started\nmap\noutstanding\n",
        1,
        1,
    ),
];

/// A comment as long as a line may be.
const COMMENT_SCRIPT: &[Lines] = &[(b"#", 1, 4096), (b"\n", 1, 1)];

/// What is written.
const COMMENT_TEXT: &[Lines] = &[(b"tree\n0 HTREE\\ROOT\\0 Started\nmap\noutstanding\n", 1, 1)];

/// A comment that is a byte longer.
const LONG_COMMENT_SCRIPT: &[Lines] = &[(b"#", 1, 4097), (b"\n", 1, 1)];

/// What is written.
const LONG_COMMENT_TEXT: &[Lines] = &[(
    b"script error line 1\ntree\n0 HTREE\\ROOT\\0 Started\nmap\noutstanding\n",
    1,
    1,
)];

/// Nine devices of which eight can have an interrupt.
const NINE_SCRIPT: &[Lines] = &[
    (b"driver dev steady\n", 1, 1),
    (b"plug HTREE\\ROOT\\0 OWN\\DEV @ need=irq:1-8\n", 1, 9),
];

/// Eight start, and are asked to stop.
const NINE_ASKED: &[Lines] = &[
    (b"event driver dev\n", 1, 1),
    (
        b"event plug OWN\\DEV\\@\njoin @ OWN\\DEV\\@\nlisted HTREE\\ROOT\\0\ninstall OWN\\DEV\\@ 00ff0000 dev\nadd OWN\\DEV\\@ dev ok\nassign OWN\\DEV\\@ irq:@-@\nSTART_DEVICE OWN\\DEV\\@ dev ok\nstate OWN\\DEV\\@ Started\nlisted OWN\\DEV\\@\n",
        1,
        8,
    ),
    (
        b"event plug OWN\\DEV\\@\njoin @ OWN\\DEV\\@\nlisted HTREE\\ROOT\\0\ninstall OWN\\DEV\\@ 00ff0000 dev\nadd OWN\\DEV\\@ dev ok\nnofit OWN\\DEV\\@\nbegin rebalance OWN\\DEV\\@\n",
        9,
        9,
    ),
    (
        b"QUERY_STOP_DEVICE OWN\\DEV\\@ dev ok\nstate OWN\\DEV\\@ StopPending\n",
        8,
        1,
    ),
];

/// The search is spent.
const SPENT: &[Lines] = &[
    (b"spent OWN\\DEV\\@\n", 9, 9),
    (
        b"CANCEL_STOP_DEVICE OWN\\DEV\\@ dev ok\nstate OWN\\DEV\\@ Started\n",
        1,
        8,
    ),
    (
        b"problem OWN\\DEV\\@ budget\nend rebalance OWN\\DEV\\@ spent\nREMOVE_DEVICE OWN\\DEV\\@ dev ok\nstate OWN\\DEV\\@ NoStack\ntree\n0 HTREE\\ROOT\\0 Started\n",
        9,
        9,
    ),
    (b" @ OWN\\DEV\\@ Started\n", 1, 8),
    (b" @ OWN\\DEV\\@ NoStack problem budget\nmap\n", 9, 9),
    (b"irq:@-@ OWN\\DEV\\@\n", 1, 8),
    (b"outstanding\n", 1, 1),
];

/// It comes to its end.
const NOFIT: &[Lines] = &[
    (b"nofit OWN\\DEV\\@\n", 9, 9),
    (
        b"CANCEL_STOP_DEVICE OWN\\DEV\\@ dev ok\nstate OWN\\DEV\\@ Started\n",
        1,
        8,
    ),
    (
        b"problem OWN\\DEV\\@ 12\nend rebalance OWN\\DEV\\@ nofit\nREMOVE_DEVICE OWN\\DEV\\@ dev ok\nstate OWN\\DEV\\@ NoStack\ntree\n0 HTREE\\ROOT\\0 Started\n",
        9,
        9,
    ),
    (b" @ OWN\\DEV\\@ Started\n", 1, 8),
    (b" @ OWN\\DEV\\@ NoStack problem 12\nmap\n", 9, 9),
    (b"irq:@-@ OWN\\DEV\\@\n", 1, 8),
    (b"outstanding\n", 1, 1),
];

/// Of a book and of a line.
const LIMITS: &[Run] = &[
    ("20000", &[RULES_SCRIPT], Status::Done, &[RULES_TEXT]),
    ("20000", &[COMMENT_SCRIPT], Status::Done, &[COMMENT_TEXT]),
    (
        "20000",
        &[LONG_COMMENT_SCRIPT],
        Status::BadScript,
        &[LONG_COMMENT_TEXT],
    ),
];

/// A prefix less than the search tries, and just as many.
const BUDGETS: &[Run] = &[
    ("178880", &[NINE_SCRIPT], Status::Done, &[NINE_ASKED, SPENT]),
    ("178881", &[NINE_SCRIPT], Status::Done, &[NINE_ASKED, NOFIT]),
];

/// Adds a number's digits.
fn push_number(alloc: Global, out: &mut Vec<u8>, number: u64) -> Result<(), AllocError> {
    let text = number.to_string(alloc)?;
    out.extend_from_slice(text.as_bytes())
}

/// Adds so many spaces.
fn push_spaces(out: &mut Vec<u8>, many: u64) -> Result<(), AllocError> {
    for _ in 0..many {
        out.push(b' ')?;
    }
    Ok(())
}

/// Adds a text for a number.
fn push_text(alloc: Global, out: &mut Vec<u8>, text: &[u8], number: u64) -> Result<(), AllocError> {
    for byte in text {
        match *byte {
            b'@' => push_number(alloc, out, number)?,
            b'^' => push_number(alloc, out, number.saturating_sub(1))?,
            b'~' => push_spaces(out, number)?,
            other => out.push(other)?,
        }
    }
    Ok(())
}

/// Adds a text for each of its numbers.
fn push_each(alloc: Global, out: &mut Vec<u8>, lines: &Lines) -> Result<(), AllocError> {
    let (text, first, last) = *lines;
    let steps = first.max(last).saturating_sub(first.min(last));
    for step in 0..steps.saturating_add(1) {
        let number = if first <= last {
            first.saturating_add(step)
        } else {
            first.saturating_sub(step)
        };
        push_text(alloc, out, text, number)?;
    }
    Ok(())
}

/// The text of these parts.
fn text_of(alloc: Global, parts: &[&[Lines]]) -> Result<Vec<u8>, AllocError> {
    let mut text = Vec::new(alloc);
    for part in parts {
        for lines in *part {
            push_each(alloc, &mut text, lines)?;
        }
    }
    Ok(text)
}

/// The most bytes that are written.
const ROOM: u64 = 12_000_000;

/// A script over a Scripted driver and a Steady one ends so, and this is written.
fn writes(alloc: Global, budget: &str, script: &[u8], want: (Status, &[u8])) -> Result<(), Fail> {
    let words = ["pnpmgr", "--budget", budget, "s", "inf"];
    let mut files = files_of(alloc, &[("s", script), ("inf", INF)])?;
    let mut sink = MemSink::new(alloc, ROOM)?;
    let rack = rack_of(alloc, 1, 1, 0)?;
    let status = ended(alloc, &words, rack, &mut files, &mut sink)?;
    comes_to(status, &sink, want)
}

/// Each of these runs does.
fn all_write(alloc: Global, runs: &[Run]) -> Result<(), Fail> {
    for (budget, script, status, text) in runs {
        let script = text_of(alloc, script)?;
        let text = text_of(alloc, text)?;
        writes(alloc, budget, &script, (*status, &text))?;
    }
    Ok(())
}

#[test]
fn large_runs(rt: HostRuntime) -> Result<(), Fail> {
    all_write(rt.alloc(), LARGE)
}

#[test]
fn at_a_limit(rt: HostRuntime) -> Result<(), Fail> {
    all_write(rt.alloc(), LIMITS)
}

#[test]
fn at_a_budget(rt: HostRuntime) -> Result<(), Fail> {
    all_write(rt.alloc(), BUDGETS)
}
