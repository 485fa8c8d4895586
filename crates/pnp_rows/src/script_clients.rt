//! Clients that are registered on devices: the lines, with the event or the refusal that the language's description gives.
use crate::script_lines::{are_bad, reads};
use std::test::Fail;

const CLIENTS: &[(&[u8], &[u8])] = &[
    (b"watch ed OWN\\DEV\\1 ok", b"Watch ed OWN\\DEV\\1 true "),
    (
        b"watch ed OWN\\DEV\\1 refuse",
        b"Watch ed OWN\\DEV\\1 false ",
    ),
    (b"watch ED own\\dev\\1 ok", b"Watch ED own\\dev\\1 true "),
    (
        b"watch d-e_v.2 HTREE\\ROOT\\0 refuse",
        b"Watch d-e_v.2 HTREE\\ROOT\\0 false ",
    ),
    (b"watch ok OWN\\DEV\\1 ok", b"Watch ok OWN\\DEV\\1 true "),
    (
        b"\twatch  ed\tOWN\\DEV\\1\t ok ",
        b"Watch ed OWN\\DEV\\1 true ",
    ),
    (b"watch ed OWN\\DEV\\1 ok\r", b"Watch ed OWN\\DEV\\1 true "),
    (
        b"watch abcdefghijklmnopqrstuvwxyzABCDEFGHIJKLMNOPQRSTUVWXYZ0123456789-. OWN\\DEV\\1 ok",
        b"Watch abcdefghijklmnopqrstuvwxyzABCDEFGHIJKLMNOPQRSTUVWXYZ0123456789-. OWN\\DEV\\1 true ",
    ),
    (b"unwatch ed OWN\\DEV\\1", b"Unwatch ed OWN\\DEV\\1 "),
    (b"unwatch Ed own\\dev\\1", b"Unwatch Ed own\\dev\\1 "),
    (b" unwatch\t- OWN\\DEV\\1 \r", b"Unwatch - OWN\\DEV\\1 "),
    (
        b"unwatch abcdefghijklmnopqrstuvwxyzABCDEFGHIJKLMNOPQRSTUVWXYZ0123456789-. OWN\\DEV\\1",
        b"Unwatch abcdefghijklmnopqrstuvwxyzABCDEFGHIJKLMNOPQRSTUVWXYZ0123456789-. OWN\\DEV\\1 ",
    ),
];

const BAD_CLIENTS: &[&[u8]] = &[
    b"watch",
    b"watch ed",
    b"watch ed OWN\\DEV\\1",
    b"watch OWN\\DEV\\1 ok",
    b"watch ed ok",
    b"watch ed ok OWN\\DEV\\1",
    b"watch ed OWN\\DEV\\1 ok now",
    b"watch ed OWN\\DEV\\1 ok 1",
    b"watch ed OWN\\DEV\\1 refuse # note",
    b"watch ed OWN\\DEV\\1 fail",
    b"watch ed OWN\\DEV\\1 pend",
    b"watch ed OWN\\DEV\\1 Ok",
    b"watch ed OWN\\DEV\\1 REFUSE",
    b"watch ed OWN\\DEV\\1 refused",
    b"watch ed OWN\\DEV\\1 o",
    b"watch ed OWN\\DEV\\1 refuse\r\r",
    b"watch ed * ok",
    b"watch ed OWN\\DEV ok",
    b"watch ed OWN\\DEV\\1\\2 refuse",
    b"watch ed OWN\\D,V\\1 ok",
    b"watch ed OWN\\DEV\\1,OWN\\DEV\\2 ok",
    b"watch e,d OWN\\DEV\\1 ok",
    b"watch e:d OWN\\DEV\\1 ok",
    b"watch e\\d OWN\\DEV\\1 ok",
    b"watch * OWN\\DEV\\1 refuse",
    b"watch e\xe9d OWN\\DEV\\1 ok",
    b"watch abcdefghijklmnopqrstuvwxyzABCDEFGHIJKLMNOPQRSTUVWXYZ0123456789-._ OWN\\DEV\\1 ok",
    b"Watch ed OWN\\DEV\\1 ok",
    b"WATCH ed OWN\\DEV\\1 refuse",
    b"watches ed OWN\\DEV\\1 ok",
    b"watc ed OWN\\DEV\\1 ok",
    b"unwatch",
    b"unwatch ed",
    b"unwatch OWN\\DEV\\1",
    b"unwatch ed OWN\\DEV\\1 ok",
    b"unwatch ed OWN\\DEV\\1 OWN\\DEV\\2",
    b"unwatch ed *",
    b"unwatch * OWN\\DEV\\1",
    b"unwatch e;d OWN\\DEV\\1",
    b"unwatch ed OWN\\DEV",
    b"unwatch abcdefghijklmnopqrstuvwxyzABCDEFGHIJKLMNOPQRSTUVWXYZ0123456789-._ OWN\\DEV\\1",
    b"Unwatch ed OWN\\DEV\\1",
    b"UNWATCH ed OWN\\DEV\\1",
    b"un watch ed OWN\\DEV\\1",
    b"unwatched ed OWN\\DEV\\1",
];

#[test]
fn clients(rt: HostRuntime) -> Result<(), Fail> {
    reads(rt.alloc(), CLIENTS)?;
    are_bad(rt.alloc(), BAD_CLIENTS)
}
