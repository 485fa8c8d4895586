ghost use Rattle.std.specs.Prelude.{◌≡◌, IfOk, []};

use crate::driver::Driver;
use crate::errors::TeachError;
use crate::rules::answer_by;
use device_ids::WantOfMemory;
use pnp_labels::{Answer, Ask, AskWhat, DriverKind, Minor, Rule};
use std::alloc::Global;
use std::marker::Model;

/// The most rules of a book: this project's own.
const MOST_RULES: usize = 64;

/// A driver that answers by the rules that it was taught. A contract sees the list of the rules. This project's own.
pub struct Scripted {
    rules: Vec<Rule>,
}

impl Drop for Scripted {
    fn drop(self) {
        let Scripted { rules: _ } = self;
    }
}

impl Model for Scripted {
    ghost use Rattle.std.specs.Prelude.{List, ◌≤◌, vec_capacity};
    ghost use Rattle.pnp_labels.specs.declared.event.Rule.{Rule};

    ghost Value = { List Rule };

    ghost view = { λ d. d.rules.items };

    ghost invariant = { λ d. 64 ≤ vec_capacity d.rules };
}

impl Scripted {
    /// A driver with an empty book, and room for 64 rules, so that teaching it takes no memory.
    pub fn make(alloc: Global) -> Result<Scripted, WantOfMemory>
        ensures { IfOk result (λ driver. driver ≡ []) }
    {
        let rules = Vec::with_capacity(alloc, MOST_RULES)?;
        Ok(Scripted { rules })
    }
}

impl Driver for Scripted {
    ghost use Rattle.pnp_labels.specs.declared.words.DriverKind.TheVariants as kinds;

    ghost book = { λ d. d };

    ghost kind_of = { λ _. kinds.Scripted };

    fn kind(&self) -> DriverKind {
        DriverKind::Scripted
    }

    fn teach(&mut self, rule: Rule) -> Result<(), TeachError> {
        if self.rules.len() >= MOST_RULES {
            return Err(TeachError::BookFull);
        }
        self.rules.push(rule).unwrap();
        Ok(())
    }

    fn answer(&mut self, ask: &Ask) -> Answer {
        answer_by(&mut self.rules, ask)
    }
}

/// A driver that answers every request with success. This project's own.
#[derive(Drop)]
pub struct Steady {}

impl Steady {
    /// A driver with an empty book.
    pub fn make() -> Steady {
        Steady {}
    }
}

impl Driver for Steady {
    ghost use Rattle.std.specs.Prelude.{[]};
    ghost use Rattle.pnp_labels.specs.declared.words.DriverKind.TheVariants as kinds;

    ghost book = { λ _. [] };

    ghost kind_of = { λ _. kinds.Steady };

    fn kind(&self) -> DriverKind {
        DriverKind::Steady
    }

    fn teach(&mut self, _rule: Rule) -> Result<(), TeachError> {
        Err(TeachError::NotTeachable)
    }

    fn answer(&mut self, _ask: &Ask) -> Answer {
        Answer::Ok
    }
}

/// A driver that fails IRP_MN_QUERY_STOP_DEVICE and IRP_MN_QUERY_REMOVE_DEVICE, as the driver kit lets it, and
/// answers all else with success. This project's own.
#[derive(Drop)]
pub struct Stubborn {}

impl Stubborn {
    /// A driver with two endless rules for every path.
    pub fn make() -> Stubborn {
        Stubborn {}
    }
}

impl Driver for Stubborn {
    ghost use Rattle.pnp_labels.specs.declared.words.DriverKind.TheVariants as kinds;
    ghost use Rattle.driver_rack.specs.Teaching.{stubborn_book};

    ghost book = { λ _. stubborn_book };

    ghost kind_of = { λ _. kinds.Stubborn };

    fn kind(&self) -> DriverKind {
        DriverKind::Stubborn
    }

    fn teach(&mut self, _rule: Rule) -> Result<(), TeachError> {
        Err(TeachError::NotTeachable)
    }

    fn answer(&mut self, ask: &Ask) -> Answer {
        match ask.what {
            AskWhat::Irp(Minor::QueryStop) => Answer::Fail,
            AskWhat::Irp(Minor::QueryRemove) => Answer::Fail,
            _ => Answer::Ok,
        }
    }
}
