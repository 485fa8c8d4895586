//! The least free place beside what is held.
ghost use Rattle.std.specs.Prelude.{◌≡◌};

use range_arbiter::{Kind, Owner, RangeArbiter, Res, Want};
use rows_told::must;
use std::test::Fail;

/// Whether a place that was looked for is this one.
fn is_at(place: Option<u64>, number: u64) -> bool {
    match place {
        Some(found) => found == number,
        None => false,
    }
}

/// The places of a wide want and of a tight one beside 0x10 to 0x1f.
fn places_are(arbiter: &RangeArbiter, wide: &Want, tight: &Want) -> Result<(), Fail>
    requires wide { wide.now.kind ≡ arbiter.now.kind }
    requires tight { tight.now.kind ≡ arbiter.now.kind }
{
    must(is_at(arbiter.next_place(wide, 0), 0), "from 0 on")?;
    must(is_at(arbiter.next_place(wide, 1), 0x20), "from 1 on")?;
    must(arbiter.next_place(wide, 0x21).is_none(), "from 0x21 on")?;
    must(
        is_at(arbiter.next_place(tight, 0), 0x20),
        "of the tight range",
    )
}

/// Places for sixteen ports, aligned, beside 0x10 to 0x1f: in a range from 0 on, and in one that begins occupied.
#[test]
fn the_least_place(rt: HostRuntime) -> Result<(), Fail> {
    let Some(held) = Res::make(Kind::Port, 0x10, 0x1f, false) else {
        return Err(Fail::new("held"));
    };
    let wide = Want::make(Kind::Port, 0, 0x2f, 0x10, 0x10, false)?;
    let tight = Want::make(Kind::Port, 0x10, 0x2f, 0x10, 0x10, false)?;
    let mut arbiter = RangeArbiter::new(rt.alloc(), Kind::Port)?;
    arbiter.room(1)?;
    arbiter.put(Owner::Device(3), held);
    places_are(&arbiter, &wide, &tight)
}
