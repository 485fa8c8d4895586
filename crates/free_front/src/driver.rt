ghost use Rattle.std.specs.Prelude.{◌≡◌, IfOk, map};
ghost use Rattle.free_model.specs.Frees.{whats, endless, own_rules};

use device_ids::WantOfMemory;
use driver_rack::{Driver, Scripted, TeachError};
use pnp_labels::{Answer, Ask, AskWhat, DriverKind, Minor, Rule};
use std::alloc::Global;

/// All that a driver may be asked.
const WHATS: [AskWhat; 9] = [
    AskWhat::Add,
    AskWhat::Irp(Minor::Start),
    AskWhat::Irp(Minor::QueryRemove),
    AskWhat::Irp(Minor::Remove),
    AskWhat::Irp(Minor::CancelRemove),
    AskWhat::Irp(Minor::Stop),
    AskWhat::Irp(Minor::QueryStop),
    AskWhat::Irp(Minor::CancelStop),
    AskWhat::Irp(Minor::SurpriseRemoval),
];

/// A rule for every path and without an end.
fn endless(answer: Answer, what: AskWhat) -> Rule
    ensures { result ≡ endless answer what }
{
    Rule {
        what,
        path: None,
        answer,
        uses: None,
    }
}

/// A driver of any kind that answers by rules which it is given. This project's own.
#[derive(Drop)]
pub(crate) struct FreeDriver {
    kind: DriverKind,
    rules: Scripted,
}

impl FreeDriver {
    /// A driver that was taught nothing: a stubborn one has its two rules, another none.
    pub(crate) fn own(alloc: Global, kind: DriverKind) -> Result<FreeDriver, WantOfMemory>
        ensures { IfOk result (λ driver. driver ≡ record { kind = kind; rules = own_rules kind }) }
    {
        let mut rules = Scripted::make(alloc)?;
        if let DriverKind::Stubborn = kind {
            rules
                .teach(endless(Answer::Fail, AskWhat::Irp(Minor::QueryStop)))
                .unwrap();
            rules
                .teach(endless(Answer::Fail, AskWhat::Irp(Minor::QueryRemove)))
                .unwrap();
        }
        Ok(FreeDriver { kind, rules })
    }

    /// A driver that answers so, whatever it is asked.
    pub(crate) fn telling(
        alloc: Global,
        kind: DriverKind,
        answer: Answer,
    ) -> Result<FreeDriver, WantOfMemory>
        ensures { IfOk result (λ driver. driver ≡ record { kind = kind; rules = map (endless answer) whats }) }
    {
        let mut rules = Scripted::make(alloc)?;
        for what in WHATS {
            rules.teach(endless(answer, what)).unwrap();
        }
        Ok(FreeDriver { kind, rules })
    }
}

impl Driver for FreeDriver {
    ghost book = { λ d. d.rules };

    ghost kind_of = { λ d. d.kind };

    fn kind(&self) -> DriverKind {
        self.kind
    }

    fn teach(&mut self, rule: Rule) -> Result<(), TeachError> {
        match self.kind {
            DriverKind::Scripted => self.rules.teach(rule),
            _ => Err(TeachError::NotTeachable),
        }
    }

    fn answer(&mut self, ask: &Ask) -> Answer {
        self.rules.answer(ask)
    }
}
