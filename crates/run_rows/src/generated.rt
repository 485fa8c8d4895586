//! Summaries of generated scripts, over racks of drivers; and the generated texts.
use crate::runs::{Rack, ends, rack_of};
use driver_rack::{Driver, TeachError};
use pnp_cli::{Status, gen_inf, gen_script};
use pnp_io::MemFiles;
use pnp_labels::{Answer, Ask, AskWhat, DriverKind, Minor, Rule};
use rows_told::must;
use std::alloc::Global;
use std::test::Fail;

/// A driver that fails each START_DEVICE, answers all else with success and can be taught nothing.
#[derive(Drop)]
struct Unwilling {}

impl Driver for Unwilling {
    ghost use Rattle.std.specs.Prelude.{[], ◌∷◌};
    ghost use Rattle.pnp_labels.specs.declared.words.DriverKind.TheVariants as kinds;
    ghost use Rattle.pnp_labels.specs.declared.words.Minor.TheVariants as minors;
    ghost use Rattle.driver_rack.specs.Teaching.{always_fails};

    ghost book = { λ _. always_fails minors.Start ∷ [] };

    ghost kind_of = { λ _. kinds.Steady };

    fn kind(&self) -> DriverKind {
        DriverKind::Steady
    }

    fn teach(&mut self, _rule: Rule) -> Result<(), TeachError> {
        Err(TeachError::NotTeachable)
    }

    fn answer(&mut self, ask: &Ask) -> Answer {
        match ask.what {
            AskWhat::Irp(Minor::Start) => Answer::Fail,
            _ => Answer::Ok,
        }
    }
}

/// `--gen` with this number over a rack writes this summary.
fn sums_up(alloc: Global, rack: Rack, n: &str, text: &[u8]) -> Result<(), Fail> {
    let mut files = MemFiles::new(alloc);
    ends(
        alloc,
        &["pnpmgr", "--gen", n],
        rack,
        &mut files,
        (Status::Done, text),
    )
}

/// How many Steady drivers, how many devices, and the summary: no driver; one device; fifty, of which the last needs the ports of the
/// first, which moves.
const SUMMARIES: [(u32, &str, &[u8]); 3] = [
    (
        0,
        "1",
        b"devices 1\nsteps 8\nstarted 0\nproblem12 0\nmoved 0\n",
    ),
    (
        2,
        "1",
        b"devices 1\nsteps 20\nstarted 2\nproblem12 0\nmoved 0\n",
    ),
    (
        2,
        "50",
        b"devices 50\nsteps 765\nstarted 51\nproblem12 0\nmoved 1\n",
    ),
];

#[test]
fn summaries(rt: HostRuntime) -> Result<(), Fail> {
    let alloc = rt.alloc();
    for (drivers, n, text) in SUMMARIES {
        sums_up(alloc, rack_of(alloc, 0, drivers, 0)?, n, text)?;
    }
    Ok(())
}

/// One driver for the bus, while that of the device fails its start.
#[test]
fn a_driver_that_fails_its_start(rt: HostRuntime) -> Result<(), Fail> {
    let alloc = rt.alloc();
    let mut rack = rack_of(alloc, 0, 1, 0)?;
    rack.push(Box::new(alloc, Unwilling {})?)?;
    let failed = b"devices 1\nsteps 22\nstarted 1\nproblem12 0\nmoved 0\n";
    sums_up(alloc, rack, "1", failed)
}

/// The generated texts.
#[test]
fn generated_texts(rt: HostRuntime) -> Result<(), Fail> {
    let alloc = rt.alloc();
    let script = gen_script(alloc, 50)?;
    let first =
        b"driver bus steady\ndriver dev steady\nplug HTREE\\ROOT\\0 GEN\\BUS 0\nplug GEN\\BUS\\0 GEN\\DEV 1 need=port:4096-65535/8@8;irq:16-23:shared\n";
    let last =
        b"\nplug GEN\\BUS\\0 GEN\\DEV 49 need=port:4096-65535/8@8;irq:16-23:shared\nplug GEN\\BUS\\0 GEN\\DEV 50 need=port:4096-4103/8@8\n";
    must(script.starts_with(first), "the first generated lines")?;
    must(script.ends_with(last), "the last generated lines")?;
    let inf = gen_inf(alloc)?;
    must(
        inf.ends_with(b"\n[D.Services]\nAddService=dev,2,S\n"),
        "the end of the generated INF",
    )
}
