ghost use Rattle.std.specs.Prelude.{◌≡◌, ◌<◌, ◌^◌, length, option_map, slice_get};
ghost use Rattle.pnp_model.specs.Books.{driver_named};
ghost use Rattle.driver_rack.specs.Rows.{Named, Taught, Asked, name_in};

use crate::errors::{NameError, TeachError};
use device_ids::Text;
use pnp_labels::{Answer, Ask, DriverKind, Rule};

/// The drivers of a rack, as what stands above sees them: a list of kind, name and book, by number. A type over
/// boxes has no value that tells the books of what is in the boxes, so what stands above the rack is generic in
/// this trait. This project's own.
pub trait Drivers: Drop {
    ghost use Rattle.std.specs.Prelude.{List};
    ghost use Rattle.pnp_model.specs.Records.{Driver};

    /// The kind, name and book of each driver, by number.
    ghost rows: { Self → List Driver };

    /// How many drivers there are.
    fn len(&self) -> u32
        ensures { result ≡ length (rows self.now) };

    /// The number of the driver of a name, up to ASCII case; none exactly where no driver has it. It takes no
    /// memory.
    fn find(&self, name: &Text) -> Option<u32>
        ensures { result ≡ driver_named name.now (rows self.now) };

    /// The name of a driver, as it was given; none exactly where the number names no driver with a name.
    fn name_of(&self, driver: u32) -> Option<&Text>
        ensures { option_map (λ text. text.now) result ≡ name_in (rows self.now) driver };

    /// Gives a name to the first driver of the kind that has none, and answers its number. Errors, the first
    /// that holds: `SameName` where a driver has the name up to ASCII case, `RackEmpty` where no driver of the
    /// kind is without a name; and, where neither holds, `WantOfMemory`. After an error the rack is as before.
    fn name(&mut self, kind: DriverKind, name: &Text) -> Result<u32, NameError>
        ensures { Named result kind name.now (rows self.old) (rows self.new) };

    /// Asks a driver, through its box. Its book loses a use of the rule that answers; all else stays. It takes
    /// no memory.
    fn ask(&mut self, driver: u32, ask: &Ask) -> Answer
        requires { driver < length (rows self.old) }
        ensures { Asked driver ask.now.what ask.now.path.now result (rows self.old) (rows self.new) };

    /// Teaches a driver a rule, through its box. Errors, the first that holds: `NotTeachable` where its kind is
    /// not Scripted, `BookFull` at 64 rules. After an error the rack is as before. It takes no memory.
    fn teach(&mut self, driver: u32, rule: Rule) -> Result<(), TeachError>
        requires { driver < length (rows self.old) }
        ensures { Taught driver rule result (rows self.old) (rows self.new) };
}
