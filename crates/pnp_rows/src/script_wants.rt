//! Wants, bus numbers, windows and changed requirements: the lines, with the event or the refusal that the language's description gives.
use crate::script_lines::{are_bad, reads};
use std::test::Fail;

const WANTS: &[(&[u8], &[u8])] = &[
    (
        b"plug HTREE\\ROOT\\0 OWN\\DEV 1 need=irq:5",
        b"Plug HTREE\\ROOT\\0 OWN\\DEV\\1 hw OWN\\DEV compat list group Irq 5-5 1 1 false ",
    ),
    (
        b"plug HTREE\\ROOT\\0 OWN\\DEV 1 need=irq:3-7:shared",
        b"Plug HTREE\\ROOT\\0 OWN\\DEV\\1 hw OWN\\DEV compat list group Irq 3-7 1 1 true ",
    ),
    (
        b"plug HTREE\\ROOT\\0 OWN\\DEV 1 need=dma:1",
        b"Plug HTREE\\ROOT\\0 OWN\\DEV\\1 hw OWN\\DEV compat list group Dma 1-1 1 1 false ",
    ),
    (
        b"plug HTREE\\ROOT\\0 OWN\\DEV 1 need=dma:0-3:shared",
        b"Plug HTREE\\ROOT\\0 OWN\\DEV\\1 hw OWN\\DEV compat list group Dma 0-3 1 1 true ",
    ),
    (
        b"plug HTREE\\ROOT\\0 OWN\\DEV 1 need=port:0x3f8-0x3ff/8",
        b"Plug HTREE\\ROOT\\0 OWN\\DEV\\1 hw OWN\\DEV compat list group Port 1016-1023 8 1 false ",
    ),
    (
        b"plug HTREE\\ROOT\\0 OWN\\DEV 1 need=port:8-15/8@8",
        b"Plug HTREE\\ROOT\\0 OWN\\DEV\\1 hw OWN\\DEV compat list group Port 8-15 8 8 false ",
    ),
    (
        b"plug HTREE\\ROOT\\0 OWN\\DEV 1 need=port:8-15@8",
        b"Plug HTREE\\ROOT\\0 OWN\\DEV\\1 hw OWN\\DEV compat list group Port 8-15 1 8 false ",
    ),
    (
        b"plug HTREE\\ROOT\\0 OWN\\DEV 1 need=port:8-15@8:shared",
        b"Plug HTREE\\ROOT\\0 OWN\\DEV\\1 hw OWN\\DEV compat list group Port 8-15 1 8 true ",
    ),
    (
        b"plug HTREE\\ROOT\\0 OWN\\DEV 1 need=mem:0-0xff/0x10@0x10:shared",
        b"Plug HTREE\\ROOT\\0 OWN\\DEV\\1 hw OWN\\DEV compat list group Mem 0-255 16 16 true ",
    ),
    (
        b"plug HTREE\\ROOT\\0 OWN\\DEV 1 need=mem:4",
        b"Plug HTREE\\ROOT\\0 OWN\\DEV\\1 hw OWN\\DEV compat list group Mem 4-4 1 1 false ",
    ),
    (
        b"plug HTREE\\ROOT\\0 OWN\\DEV 1 need=irq:5|irq:7",
        b"Plug HTREE\\ROOT\\0 OWN\\DEV\\1 hw OWN\\DEV compat list group Irq 5-5 1 1 false Irq 7-7 1 1 false ",
    ),
    (
        b"plug HTREE\\ROOT\\0 OWN\\DEV 1 need=irq:5;port:8-15/8",
        b"Plug HTREE\\ROOT\\0 OWN\\DEV\\1 hw OWN\\DEV compat list group Irq 5-5 1 1 false group Port 8-15 8 1 false ",
    ),
    (
        b"plug HTREE\\ROOT\\0 OWN\\DEV 1 need=irq:5|irq:7;dma:1|dma:2:shared",
        b"Plug HTREE\\ROOT\\0 OWN\\DEV\\1 hw OWN\\DEV compat list group Irq 5-5 1 1 false Irq 7-7 1 1 false group Dma 1-1 1 1 false Dma 2-2 1 1 true ",
    ),
    (
        b"plug HTREE\\ROOT\\0 OWN\\DEV 1 need=irq:5 need=irq:6",
        b"Plug HTREE\\ROOT\\0 OWN\\DEV\\1 hw OWN\\DEV compat list group Irq 5-5 1 1 false list group Irq 6-6 1 1 false ",
    ),
    (
        b"plug HTREE\\ROOT\\0 OWN\\DEV 1 need=port:8-15@3",
        b"Plug HTREE\\ROOT\\0 OWN\\DEV\\1 hw OWN\\DEV compat list group Port 8-15 1 3 false ",
    ),
    (
        b"plug HTREE\\ROOT\\0 OWN\\DEV 1 need=mem:0-0xffffffffffffffff/0x8000000000000000",
        b"Plug HTREE\\ROOT\\0 OWN\\DEV\\1 hw OWN\\DEV compat list group Mem 0-18446744073709551615 9223372036854775808 1 false ",
    ),
];

const BAD_WANTS: &[&[u8]] = &[
    b"plug HTREE\\ROOT\\0 OWN\\DEV 1 need=irq:1 need=irq:1 need=irq:1 need=irq:1 need=irq:1 need=irq:1 need=irq:1 need=irq:1 need=irq:1",
    b"plug HTREE\\ROOT\\0 OWN\\DEV 1 need=",
    b"plug HTREE\\ROOT\\0 OWN\\DEV 1 need=irq:5;",
    b"plug HTREE\\ROOT\\0 OWN\\DEV 1 need=;irq:5",
    b"plug HTREE\\ROOT\\0 OWN\\DEV 1 need=irq:5|",
    b"plug HTREE\\ROOT\\0 OWN\\DEV 1 need=|irq:5",
    b"plug HTREE\\ROOT\\0 OWN\\DEV 1 need=irq:5;;irq:6",
    b"plug HTREE\\ROOT\\0 OWN\\DEV 1 need=irq",
    b"plug HTREE\\ROOT\\0 OWN\\DEV 1 need=irq:",
    b"plug HTREE\\ROOT\\0 OWN\\DEV 1 need=irq:7-3",
    b"plug HTREE\\ROOT\\0 OWN\\DEV 1 need=irq:5/1",
    b"plug HTREE\\ROOT\\0 OWN\\DEV 1 need=irq:5@1",
    b"plug HTREE\\ROOT\\0 OWN\\DEV 1 need=dma:5/1",
    b"plug HTREE\\ROOT\\0 OWN\\DEV 1 need=irq:5:Shared",
    b"plug HTREE\\ROOT\\0 OWN\\DEV 1 need=irq:5:shared:shared",
    b"plug HTREE\\ROOT\\0 OWN\\DEV 1 need=port:8-15@8/8",
    b"plug HTREE\\ROOT\\0 OWN\\DEV 1 need=port:8-15/8/8",
    b"plug HTREE\\ROOT\\0 OWN\\DEV 1 need=port:8-15:shared@8",
    b"plug HTREE\\ROOT\\0 OWN\\DEV 1 need=port:8-15/0",
    b"plug HTREE\\ROOT\\0 OWN\\DEV 1 need=port:8-15@0",
    b"plug HTREE\\ROOT\\0 OWN\\DEV 1 need=port:8-15/9",
    b"plug HTREE\\ROOT\\0 OWN\\DEV 1 need=port:8-15/",
    b"plug HTREE\\ROOT\\0 OWN\\DEV 1 need=port:8-15@",
    b"plug HTREE\\ROOT\\0 OWN\\DEV 1 need=pci:1",
    b"plug HTREE\\ROOT\\0 OWN\\DEV 1 need=irq:5,irq:6",
    b"plug HTREE\\ROOT\\0 OWN\\DEV 1 need=mem:0-18446744073709551616",
];

const BUSES: &[(&[u8], &[u8])] = &[
    (
        b"plug A\\B\\1 A\\B 2 need=bus:0-255/4",
        b"Plug A\\B\\1 A\\B\\2 hw A\\B compat list group Bus 0-255 4 1 false ",
    ),
    (
        b"plug A\\B\\1 A\\B 2 need=bus:3",
        b"Plug A\\B\\1 A\\B\\2 hw A\\B compat list group Bus 3-3 1 1 false ",
    ),
    (
        b"plug A\\B\\1 A\\B 2 need=bus:255",
        b"Plug A\\B\\1 A\\B\\2 hw A\\B compat list group Bus 255-255 1 1 false ",
    ),
    (
        b"plug A\\B\\1 A\\B 2 need=bus:0x10-0xff/16:shared",
        b"Plug A\\B\\1 A\\B\\2 hw A\\B compat list group Bus 16-255 16 1 true ",
    ),
    (
        b"plug A\\B\\1 A\\B 2 need=bus:0-255/256",
        b"Plug A\\B\\1 A\\B\\2 hw A\\B compat list group Bus 0-255 256 1 false ",
    ),
    (
        b"plug A\\B\\1 A\\B 2 need=bus:1:shared",
        b"Plug A\\B\\1 A\\B\\2 hw A\\B compat list group Bus 1-1 1 1 true ",
    ),
    (
        b"plug A\\B\\1 A\\B 2 need=bus:1-2|irq:5;bus:3",
        b"Plug A\\B\\1 A\\B\\2 hw A\\B compat list group Bus 1-2 1 1 false Irq 5-5 1 1 false group Bus 3-3 1 1 false ",
    ),
    (
        b"plug A\\B\\1 A\\B 2 need=irq:256",
        b"Plug A\\B\\1 A\\B\\2 hw A\\B compat list group Irq 256-256 1 1 false ",
    ),
    (b"reserve bus:0", b"Reserve Bus 0-0 false "),
    (b"reserve bus:0-255", b"Reserve Bus 0-255 false "),
    (b"reserve bus:0x10-0x1f", b"Reserve Bus 16-31 false "),
    (b"reserve irq:256", b"Reserve Irq 256-256 false "),
];

const BAD_BUSES: &[&[u8]] = &[
    b"plug A\\B\\1 A\\B 2 need=bus:256",
    b"plug A\\B\\1 A\\B 2 need=bus:0-256",
    b"plug A\\B\\1 A\\B 2 need=bus:255-256",
    b"plug A\\B\\1 A\\B 2 need=bus:0x100",
    b"plug A\\B\\1 A\\B 2 need=bus:0-255/257",
    b"plug A\\B\\1 A\\B 2 need=bus:0-3/0",
    b"plug A\\B\\1 A\\B 2 need=bus:0-3/",
    b"plug A\\B\\1 A\\B 2 need=bus:0-3@1",
    b"plug A\\B\\1 A\\B 2 need=bus:0-3/2@2",
    b"plug A\\B\\1 A\\B 2 need=bus:0-3:shared/2",
    b"plug A\\B\\1 A\\B 2 need=bus:3-0",
    b"plug A\\B\\1 A\\B 2 need=bus:",
    b"plug A\\B\\1 A\\B 2 need=bus",
    b"plug A\\B\\1 A\\B 2 need=Bus:1",
    b"plug A\\B\\1 A\\B 2 need=bus:1|bus:256",
    b"plug A\\B\\1 A\\B 2 need=bus:1:alone",
    b"reserve bus:256",
    b"reserve bus:0-256",
    b"reserve bus:18446744073709551615",
    b"reserve bus:0:shared",
    b"reserve bus:0/1",
    b"reserve bus:",
    b"reserve bus:2-1",
    b"reserve buses:4",
];

const WINDOWS: &[(&[u8], &[u8])] = &[
    (
        b"window OWN\\DEV\\B port:0x1000-0x1fff",
        b"Window OWN\\DEV\\B Port 4096-8191 false ",
    ),
    (
        b"window OWN\\DEV\\B mem:0-18446744073709551615",
        b"Window OWN\\DEV\\B Mem 0-18446744073709551615 false ",
    ),
    (
        b"window own\\dev\\b mem:7",
        b"Window own\\dev\\b Mem 7-7 false ",
    ),
    (
        b"window HTREE\\ROOT\\0 port:0-7",
        b"Window HTREE\\ROOT\\0 Port 0-7 false ",
    ),
    (
        b"\twindow  OWN\\DEV\\B\tmem:0-7 ",
        b"Window OWN\\DEV\\B Mem 0-7 false ",
    ),
];

const BAD_WINDOWS: &[&[u8]] = &[
    b"window OWN\\DEV\\B irq:1",
    b"window OWN\\DEV\\B dma:1",
    b"window OWN\\DEV\\B bus:1",
    b"window OWN\\DEV\\B port:0-7:shared",
    b"window OWN\\DEV\\B port:0-7/8",
    b"window OWN\\DEV\\B port:0-7@8",
    b"window OWN\\DEV\\B port:7-0",
    b"window OWN\\DEV\\B port:-1",
    b"window OWN\\DEV\\B port:",
    b"window OWN\\DEV\\B port",
    b"window OWN\\DEV\\B Port:0-7",
    b"window OWN\\DEV\\B port:0X10",
    b"window OWN\\DEV\\B mem:0-18446744073709551616",
    b"window OWN\\DEV\\B port:0-7 mem:0-7",
    b"window OWN\\DEV\\B",
    b"window port:0-7 OWN\\DEV\\B",
    b"window OWN\\DEV port:0-7",
    b"window * port:0-7",
    b"window",
    b"Window OWN\\DEV\\B port:0-7",
    b"windows OWN\\DEV\\B port:0-7",
];

const CHANGES: &[(&[u8], &[u8])] = &[
    (b"change A\\B\\1", b"Change A\\B\\1 "),
    (
        b"change a\\b\\1 need=irq:5",
        b"Change a\\b\\1 list group Irq 5-5 1 1 false ",
    ),
    (
        b"change HTREE\\ROOT\\0 need=irq:5 need=port:0-7/8@8;irq:3|irq:4:shared",
        b"Change HTREE\\ROOT\\0 list group Irq 5-5 1 1 false list group Port 0-7 8 8 false group Irq 3-3 1 1 false Irq 4-4 1 1 true ",
    ),
    (
        b"change A\\B\\1 reqs=480000000000000000000000000000000000000000000000000000000100000001000100010000000002010000000000050000000500000000000000000000000000000000000000",
        b"Change A\\B\\1 list group Irq 5-5 1 1 false ",
    ),
    (
        b"\tchange  A\\B\\1\tneed=bus:0-255/4 ",
        b"Change A\\B\\1 list group Bus 0-255 4 1 false ",
    ),
    (
        b"change A\\B\\1 need=irq:1 need=irq:1 need=irq:1 need=irq:1 need=irq:1 need=irq:1 need=irq:1 need=irq:1",
        b"Change A\\B\\1 list group Irq 1-1 1 1 false list group Irq 1-1 1 1 false list group Irq 1-1 1 1 false list group Irq 1-1 1 1 false list group Irq 1-1 1 1 false list group Irq 1-1 1 1 false list group Irq 1-1 1 1 false list group Irq 1-1 1 1 false ",
    ),
];

const BAD_CHANGES: &[&[u8]] = &[
    b"change A\\B\\1 need=irq:1 need=irq:1 need=irq:1 need=irq:1 need=irq:1 need=irq:1 need=irq:1 need=irq:1 need=irq:1",
    b"change",
    b"change A\\B",
    b"change * need=irq:5",
    b"change A\\B\\1 irq:5",
    b"change A\\B\\1 hw=A\\B",
    b"change A\\B\\1 compat=A\\B",
    b"change A\\B\\1 need=irq:5 hw=A\\B",
    b"change A\\B\\1 need=bus:256",
    b"change A\\B\\1 need=",
    b"change A\\B\\1 reqs=480000000000000000000000000000000000000000000000000000000100000001000100010000000002010000000000050000000500000000000000000000000000000000000000 need=irq:5",
    b"change A\\B\\1 reqs=480000000000000000000000000000000000000000000000000000000100000001000100010000000002010000000000050000000500000000000000000000000000000000000000 reqs=480000000000000000000000000000000000000000000000000000000100000001000100010000000002010000000000050000000500000000000000000000000000000000000000",
    b"change A\\B\\1 reqs=4800000000000000000000000000000000000000000000000000000001000000010001000100000000020100000000000500000005000000000000000000000000000000000000",
    b"change A\\B\\1 A\\B\\2",
    b"Change A\\B\\1",
    b"changes A\\B\\1",
];

#[test]
fn wants(rt: HostRuntime) -> Result<(), Fail> {
    reads(rt.alloc(), WANTS)?;
    are_bad(rt.alloc(), BAD_WANTS)
}

#[test]
fn buses(rt: HostRuntime) -> Result<(), Fail> {
    reads(rt.alloc(), BUSES)?;
    are_bad(rt.alloc(), BAD_BUSES)
}

#[test]
fn windows(rt: HostRuntime) -> Result<(), Fail> {
    reads(rt.alloc(), WINDOWS)?;
    are_bad(rt.alloc(), BAD_WINDOWS)
}

#[test]
fn changes(rt: HostRuntime) -> Result<(), Fail> {
    reads(rt.alloc(), CHANGES)?;
    are_bad(rt.alloc(), BAD_CHANGES)
}
