//! Identifiers, paths, texts and wants, and the best driver of no INF.
use device_ids::{DeviceId, IdError, IdList, InstancePath, PathError, Text};
use driver_rank::best;
use resource_reqs::{Kind, Want, WantError};
use rows_told::{must, same};
use std::alloc::Global;
use std::test::Fail;

/// The bytes are no identifier, for this reason.
fn faulty(alloc: Global, bytes: &[u8], want: IdError) -> Result<(), Fail> {
    match DeviceId::read(alloc, bytes) {
        Ok(_) => Err(Fail::new("an identifier that was read")),
        Err(error) => must(error == want, "why it is no identifier"),
    }
}

#[test]
fn identifiers_and_paths(rt: HostRuntime) -> Result<(), Fail> {
    let alloc = rt.alloc();
    DeviceId::read(alloc, &[b'A'; 199])?;
    faulty(alloc, &[b'A'; 200], IdError::TooLong)?;
    faulty(alloc, b"", IdError::Empty)?;
    faulty(alloc, b"A,B", IdError::BadByte { at: 1 })?;
    match InstancePath::read(alloc, b"A\\B") {
        Err(PathError::Parts) => Ok(()),
        _ => Err(Fail::new("a path of two parts")),
    }
}

#[test]
fn a_want_is_too_long() -> Result<(), Fail> {
    match Want::make(Kind::Port, 0, 7, 9, 1, false) {
        Err(WantError::LenAboveRange) => Ok(()),
        _ => Err(Fail::new("a want")),
    }
}

#[test]
fn a_text_is_copied(rt: HostRuntime) -> Result<(), Fail> {
    let text = Text::make(rt.alloc(), b"dev")?;
    let copy = text.copy(rt.alloc())?;
    same(copy.bytes(), b"dev")
}

#[test]
fn nothing_is_best_of_none(rt: HostRuntime) -> Result<(), Fail> {
    let none = IdList::new(rt.alloc());
    let choice = best(rt.alloc(), &[], &none, &none)?;
    must(choice.is_none(), "a driver of no INF")
}
