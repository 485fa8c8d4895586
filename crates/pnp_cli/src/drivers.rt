ghost use Rattle.std.specs.Prelude.{◌≡◌, IfOk, map};
ghost use Rattle.pnp_cli.specs.Racks.{program_rack, row_of};

use driver_rack::{Driver, Scripted, Steady, Stubborn, TeachError};
use pnp_labels::{Answer, Ask, DriverKind, Rule};
use std::alloc::{AllocError, Global};

/// How many scripted drivers the program has: this project's own.
const SCRIPTED: u32 = 128;

/// How many steady drivers the program has: this project's own.
const STEADY: u32 = 32;

/// How many stubborn drivers the program has: this project's own.
const STUBBORN: u32 = 16;

/// A driver of the program, of one of the three kinds. This project's own.
#[derive(Drop)]
pub enum ProgramDriver {
    /// It answers by rules that it is taught.
    Scripted(Scripted),
    /// It answers all with success.
    Steady(Steady),
    /// It refuses to be stopped or removed.
    Stubborn(Stubborn),
}

impl Driver for ProgramDriver {
    ghost use Rattle.pnp_cli.specs.Racks.{kind_in, book_in};

    ghost book = { λ d. book_in d };

    ghost kind_of = { λ d. kind_in d };

    fn kind(&self) -> DriverKind {
        match self {
            ProgramDriver::Scripted(driver) => driver.kind(),
            ProgramDriver::Steady(driver) => driver.kind(),
            ProgramDriver::Stubborn(driver) => driver.kind(),
        }
    }

    fn teach(&mut self, rule: Rule) -> Result<(), TeachError> {
        match self {
            ProgramDriver::Scripted(driver) => driver.teach(rule),
            ProgramDriver::Steady(driver) => driver.teach(rule),
            ProgramDriver::Stubborn(driver) => driver.teach(rule),
        }
    }

    fn answer(&mut self, ask: &Ask) -> Answer {
        match self {
            ProgramDriver::Scripted(driver) => driver.answer(ask),
            ProgramDriver::Steady(driver) => driver.answer(ask),
            ProgramDriver::Stubborn(driver) => driver.answer(ask),
        }
    }
}

/// The drivers of the program: 128 scripted ones, then 32 steady ones, then 16 stubborn ones, all without names, the
/// scripted ones with empty books; or want of memory. This project's own.
#[tactic(auto, using(crate::proofs::Racks::one_more))]
pub fn program_drivers(alloc: Global) -> Result<Vec<ProgramDriver>, AllocError>
    ensures { IfOk result (λ drivers. map row_of drivers.items ≡ program_rack) }
{
    let mut drivers = Vec::new(alloc);
    'scripted: for _ in 0..SCRIPTED {
        drivers.push(ProgramDriver::Scripted(Scripted::make(alloc)?))?;
    }
    'steady: for _ in 0..STEADY {
        drivers.push(ProgramDriver::Steady(Steady::make()))?;
    }
    'stubborn: for _ in 0..STUBBORN {
        drivers.push(ProgramDriver::Stubborn(Stubborn::make()))?;
    }
    Ok(drivers)
}
