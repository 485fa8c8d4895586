//! What an event led to is on the sink before more of the script is asked for.
use crate::runs::{rack_of, words_of};
use pnp_cli::{Status, run};
use pnp_io::{Failed, Files, Sink};
use rows_told::must;
use std::cell::Cell;
use std::test::Fail;

/// How many reads are noted.
const NOTED: usize = 8;

/// A sink that counts the bytes that it took, where others can see it.
#[derive(Drop)]
struct Counting<'a> {
    taken: &'a Cell<usize>,
}

impl<'a> Sink for Counting<'a> {
    ghost use Rattle.std.specs.Prelude.{None};

    ghost taken = { λ sink. None };

    ghost faults = { λ sink. 0 };

    fn write(&mut self, bytes: &[u8]) -> Result<usize, Failed> {
        self.taken.set(self.taken.get().saturating_add(bytes.len()));
        Ok(bytes.len())
    }
}

/// A script that comes in these parts, and how many bytes the sink had taken when each was asked for.
#[derive(Drop)]
struct Parts<'a> {
    parts: &'a [&'a [u8]],
    next: usize,
    taken: &'a Cell<usize>,
    seen: [usize; NOTED],
}

impl<'a> Files for Parts<'a> {
    ghost use Rattle.std.specs.Prelude.{None};

    ghost contents = { λ files. None };

    ghost faults = { λ files name. 0 };

    fn read(&mut self, _name: &[u8], _at: u64, into: &mut [u8]) -> Result<usize, Failed> {
        let at = self.next;
        if at < NOTED {
            self.seen[at] = self.taken.get();
        }
        if at >= self.parts.len() {
            return Ok(0);
        }
        self.next = at + 1;
        let part = self.parts[at];
        let n = part.len().min(into.len());
        into[..n].copy_from_slice(&part[..n]);
        Ok(n)
    }
}

/// Two events, the second of which comes in two parts.
const PARTS: [&[u8]; 3] = [
    b"driver dev steady\n",
    b"plug HTREE\\ROOT\\0 ",
    b"OWN\\DEV 1\n# more\n",
];

const FIRST: &str = "event driver dev\n";

const SECOND: &str =
    "event plug OWN\\DEV\\1\njoin 1 OWN\\DEV\\1\nlisted HTREE\\ROOT\\0\nproblem OWN\\DEV\\1 28\n";

/// All lines of an event are on the sink when the next part is asked for, and none of the end.
#[test]
fn no_line_is_held_back(rt: HostRuntime) -> Result<(), Fail> {
    let alloc = rt.alloc();
    let rack = rack_of(alloc, 0, 1, 0)?;
    if rack.len() >= 8 {
        return Err(Fail::new("eight drivers or more"));
    }
    let taken = Cell::new(0usize);
    let mut files = Parts {
        parts: &PARTS,
        next: 0,
        taken: &taken,
        seen: [0; NOTED],
    };
    let mut sink = Counting { taken: &taken };
    let words = words_of(alloc, &["pnpmgr", "s"])?;
    let status = run(alloc, &words, rack, &mut files, &mut sink);
    must(status == Status::Done, "how a run ended")?;
    let first = FIRST.len();
    let both = FIRST.len() + SECOND.len();
    must(
        files.seen == [0, first, first, both, 0, 0, 0, 0],
        "how much was written before each read",
    )
}
