ghost use Rattle.std.specs.Prelude.{◌≡◌, IfOk, option_map};
ghost use Rattle.pnp_model.specs.Books.{name_of, rack_reply, rack_after};

use device_ids::{Text, WantOfMemory};
use driver_rack::Drivers;
use pnp_labels::{Answer, Ask};
use std::alloc::Global;

/// Asks the driver of a number, through its box; only its book changes, by `rack_after`. A number that names no
/// driver of the rack answers Ok, and nothing changes. It takes no memory. Cost: the rules of the driver's book.
pub fn ask_driver<R: Drivers>(rack: &mut R, driver: u32, ask: &Ask) -> Answer
    ensures reply { result ≡ rack_reply ask.now.what ask.now.path.now (R.rows rack.old) driver }
    ensures rack { R.rows rack.new ≡ rack_after ask.now.what ask.now.path.now (R.rows rack.old) driver }
{
    if driver < rack.len() {
        rack.ask(driver, ask)
    } else {
        Answer::Ok
    }
}

/// The name of a driver, as it was given; empty where the number names no driver with a name. Cost: the length.
pub fn driver_name<R: Drivers>(alloc: Global, rack: &R, driver: u32) -> Result<Text, WantOfMemory>
    ensures { IfOk result (λ name. name ≡ name_of (R.rows rack.now) driver) }
{
    match rack.name_of(driver) {
        Some(name) => name.copy(alloc),
        None => Text::make(alloc, b""),
    }
}
