//! INFs in UTF-8, Latin-1 and UTF-16, and lines at their longest.
use crate::inf_told::{MODELS, UNDER_M, bytes_give, gives, joined, told, wide, wide_models};
use rows_told::{must, same};
use std::alloc::{AllocError, Global};
use std::test::Fail;

/// UTF-8, and what is none and so is Latin-1.
const NARROW: &[(&[u8], &str)] = &[
    (
        b"x=I,\xF0\x9F\x98\x80\n",
        "6 255 - ids|\u{1F600} lower upper\n",
    ),
    (
        b"x=I,\xC3\xA9 ;\xFF\n",
        "6 255 - ids|\u{C3}\u{A9} lower upper\n",
    ),
    (
        b"x=I,\xED\xA0\x80\n",
        "6 255 - ids|\u{ED}\u{A0}\u{80} lower upper\n",
    ),
    (b"x=I,\xC0\xAF\n", "6 255 - ids|\u{C0}\u{AF} lower upper\n"),
    (
        b"x=I,%\xE4%\n[Strings]\n\xE4=\"\xDF\"\n",
        "6 255 - ids|\u{DF} lower upper\n",
    ),
    (
        b"x=I,\xF4\x90\x80\x80\n",
        "6 255 - ids|\u{F4}\u{90}\u{80}\u{80} lower upper\n",
    ),
];

/// UTF-16: a text, the bytes behind it, and the models line.
const WIDE: &[(&str, &[u8], &str)] = &[
    ("x=I,A\r\n", b"", "6 255 - ids|A lower upper\n"),
    (
        "x=I,",
        b"\xAC \xE9\0\n\0",
        "6 255 - ids|\u{20AC}\u{E9} lower upper\n",
    ),
    (
        "x=I,A",
        b"\0\xDCB\0",
        "6 255 - ids|A\u{FFFD}B lower upper\n",
    ),
    ("x=I,A", b"\0\xD8\0", "6 255 - ids|A\u{FFFD} lower upper\n"),
    (
        "x=I,A",
        b"\0\xDC\0\xD8",
        "6 255 - ids|A\u{FFFD}\u{FFFD} lower upper\n",
    ),
    (
        "x=I,A",
        b"=\xD8\0\xDEB\0",
        "6 255 - ids|A\u{1F600}B lower upper\n",
    ),
    ("x=I,A", b"\xFF\xFE", "6 255 - ids|A\u{FEFF} lower upper\n"),
    ("x=I,A\0B\n", b"\n", "6 255 - ids|A\0B lower upper\n"),
];

/// A piece, so often.
fn often(alloc: Global, piece: &[u8], count: u32) -> Result<Vec<u8>, AllocError> {
    let mut all = Vec::new(alloc);
    for _ in 0..count {
        all.extend_from_slice(piece)?;
    }
    Ok(all)
}

/// Under `[M]`, a front, a piece so often, and an end.
fn long(
    alloc: Global,
    front: &[u8],
    piece: &[u8],
    count: u32,
    end: &[u8],
) -> Result<Vec<u8>, AllocError> {
    let mut inf = joined(alloc, &[MODELS.as_bytes(), front])?;
    inf.extend_from_slice(&often(alloc, piece, count)?)?;
    inf.extend_from_slice(end)?;
    Ok(inf)
}

/// Lines at their longest: what is before a piece, the piece, how often it stands there, and what is behind; and how
/// the text of what they give begins.
const LONG: &[(&[u8], &[u8], u32, &[u8], &str)] = &[
    (b"x=I,", b"\xE9", 2046, b"\n", "0 0\n"),
    (b"x=I,", b"\xE9", 2047, b"\n", "refused 3 6\n"),
    (b"x=I,", b"\xE2\x82\xAC", 1364, b"\n", "0 0\n"),
    (b"x=I,", b"\xE2\x82\xAC", 1365, b"\n", "refused 3 6\n"),
    (b"", b" ", 4096, b"", "0 0\n"),
    (b"", b" ", 4097, b"", "refused 3 6\n"),
    (b";", b"B", 4096, b"\n", "refused 3 6\n"),
    (b"x=I,A\\\n", b"B", 4097, b"\n", "refused 3 7\n"),
];

/// What an INF gives begins so.
fn begins(alloc: Global, inf: &[u8], want: &str) -> Result<(), Fail> {
    must(told(alloc, inf)?.starts_with(want.as_bytes()), want)
}

/// What the INF of a row gives begins so.
fn begins_long(
    alloc: Global,
    (front, piece, count, end, want): &(&[u8], &[u8], u32, &[u8], &str),
) -> Result<(), Fail> {
    begins(alloc, &long(alloc, front, piece, *count, end)?, want)
}

#[test]
fn narrow_encodings(rt: HostRuntime) -> Result<(), Fail> {
    bytes_give(rt.alloc(), UNDER_M, NARROW)
}

#[test]
fn wide_encodings(rt: HostRuntime) -> Result<(), Fail> {
    wide_models(rt.alloc(), WIDE)
}

#[test]
fn long_lines(rt: HostRuntime) -> Result<(), Fail> {
    let alloc = rt.alloc();
    for row in LONG {
        begins_long(alloc, row)?;
    }
    Ok(())
}

/// An INF with a line of so many signs of three bytes each, in UTF-16.
fn wide_signs(alloc: Global, count: u32) -> Result<Vec<u8>, AllocError> {
    let signs = often(alloc, b"\xAC\x20", count)?;
    wide(alloc, "x=I,", &signs)
}

/// What it gives where the line is not too long.
fn signs_given(alloc: Global, count: u32) -> Result<Vec<u8>, AllocError> {
    let shown = often(alloc, b"\xE2\x82\xAC", count)?;
    joined(alloc, &[b"0 0\n6 255 - ids|", &shown, b" lower upper\n"])
}

#[test]
fn long_wide_lines(rt: HostRuntime) -> Result<(), Fail> {
    let alloc = rt.alloc();
    let given = told(alloc, &wide_signs(alloc, 1364)?)?;
    same(&given, &signs_given(alloc, 1364)?)?;
    gives(alloc, &wide_signs(alloc, 1365)?, "refused 3 6\n")
}

#[test]
fn long_joined_lines(rt: HostRuntime) -> Result<(), Fail> {
    let alloc = rt.alloc();
    let half = often(alloc, b"B", 4000)?;
    let inf = joined(alloc, &[MODELS.as_bytes(), b"x=I,", &half, b"\\\n", &half])?;
    let want = joined(
        alloc,
        &[b"0 0\n6 255 - ids|", &half, &half, b" lower upper\n"],
    )?;
    same(&told(alloc, &inf)?, &want)
}
