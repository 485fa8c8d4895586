ghost use Rattle.std.specs.Prelude.{◌≡◌};
ghost use Rattle.pnp_model.specs.Books.{reply, later};
ghost use Rattle.driver_rack.specs.Teaching.{Learns};

use crate::errors::TeachError;
use pnp_labels::{Answer, Ask, DriverKind, Rule};

/// A driver: a kind, and a book of rules by which it answers. This project's own; that a driver is asked by
/// requests and answers each with a status is the driver kit's ("Plug and Play Minor IRPs").
pub trait Driver: Drop {
    ghost use Rattle.std.specs.Prelude.{List};
    ghost use Rattle.pnp_labels.specs.declared.words.DriverKind.{DriverKind};
    ghost use Rattle.pnp_labels.specs.declared.event.Rule.{Rule};

    /// The rules by which it answers.
    ghost book: { Self → List Rule };

    /// Its kind.
    ghost kind_of: { Self → DriverKind };

    /// The kind, which never changes.
    fn kind(&self) -> DriverKind
        ensures { result ≡ kind_of self.now };

    /// Appends a rule to the book. Errors, the first that holds: `NotTeachable` where the kind is not Scripted,
    /// `BookFull` at 64 rules; the book is then as before. It takes no memory.
    fn teach(&mut self, rule: Rule) -> Result<(), TeachError>
        ensures learns { Learns result rule (kind_of self.old) (book self.old) (book self.new) }
        ensures kind { kind_of self.new ≡ kind_of self.old };

    /// The answer of the first rule that matches and has uses left, else Ok; that rule has one use less then,
    /// where its uses are counted. It takes no memory. Cost: the rules of the book.
    fn answer(&mut self, ask: &Ask) -> Answer
        ensures reply { result ≡ reply ask.now.what ask.now.path.now (book self.old) }
        ensures later { book self.new ≡ later ask.now.what ask.now.path.now (book self.old) }
        ensures kind { kind_of self.new ≡ kind_of self.old };
}

/// A boxed driver is the driver in the box.
impl Driver for Box<dyn Driver> {
    ghost book = { λ b. (Driver-box b).book b.value };

    ghost kind_of = { λ b. (Driver-box b).kind_of b.value };

    fn kind(&self) -> DriverKind {
        (**self).kind()
    }

    fn teach(&mut self, rule: Rule) -> Result<(), TeachError> {
        (**self).teach(rule)
    }

    fn answer(&mut self, ask: &Ask) -> Answer {
        (**self).answer(ask)
    }
}
