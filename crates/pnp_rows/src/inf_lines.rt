//! The lines of INFs: line ends, quotes, comments, headers, continuations and entries, with the models lines that the
//! format's description gives.
use crate::inf_told::{REFUSED, UNDER_M, all_give};
use std::test::Fail;

/// Lines: their ends, their numbers, and blanks, which are space and tab alone.
const LINES: &[(&str, &str)] = &[
    ("x=I,A\rB\n", "6 255 - ids|A\rB lower upper\n"),
    ("\r\n; c\r\nx=I,A\r\n", "8 255 - ids|A lower upper\n"),
    (
        "x=I,A\n\n\n  \t\ny=I,B",
        "6 255 - ids|A lower upper\n10 255 - ids|B lower upper\n",
    ),
    ("x=I,\x0CA\n", "6 255 - ids|\x0CA lower upper\n"),
    ("x=I,\x0BA\x0B\n", "6 255 - ids|\x0BA\x0B lower upper\n"),
    ("x=I,\u{A0}A\n", "6 255 - ids|\u{A0}A lower upper\n"),
    ("x=I,A\0B\n", "6 255 - ids|A\0B lower upper\n"),
    (
        "x=I,A\n\x1Ay=I,B\n",
        "6 255 - ids|A lower upper\n7 255 - ids|B lower upper\n",
    ),
];

/// Quoted parts and comments.
const QUOTES: &[(&str, &str)] = &[
    ("x=I,A\"B;C\"D;E\n", "6 255 - ids|AB;CD lower upper\n"),
    ("x=I,\"A\" \"B\"\n", "6 255 - ids|A B lower upper\n"),
    ("x=I,\"\"\n", "6 255 - ids| lower upper\n"),
    ("x=I,\"\"\"\"\n", "6 255 - ids|\" lower upper\n"),
    ("x=I,\"\"\"A\"\n", "6 255 - ids|\"A lower upper\n"),
    ("x=I,A\"\"B\n", "6 255 - ids|AB lower upper\n"),
    ("x=I,\"A\"\"\n", "6 255 - ids|A\" lower upper\n"),
    (";x=I,A\ny=I,B\n", "7 255 - ids|B lower upper\n"),
    ("\t ; x=I,A\ny=I,B\n", "7 255 - ids|B lower upper\n"),
    ("x=I,\"A ; B\n", "6 255 - ids|A ; B lower upper\n"),
    ("\"x;y\"=I,A\n", "6 255 - ids|A lower upper\n"),
    ("x=I,'A;B'\n", "6 255 - ids|'A lower upper\n"),
    ("\"x\" = \"I\" , \"A\"\n", "6 255 - ids|A lower upper\n"),
    (
        "x=I,A;B;C\ny=I;,D\n",
        "6 255 - ids|A lower upper\n7 255 - ids lower upper\n",
    ),
    ("x=I,\"A\tB\"\n", "6 255 - ids|A\tB lower upper\n"),
    ("x=I,\"\" A\n", "6 255 - ids| A lower upper\n"),
];

/// Headers and sections.
const HEADERS: &[(&str, &str)] = &[
    ("[Z]]\nq=1\n[M]] x\nx=I,A\n", "9 255 - ids|A lower upper\n"),
    ("[]\nx=I,A\n[M]\ny=I,B\n", "9 255 - ids|B lower upper\n"),
    (
        "[ \t ]\nx=I,A\n [M] ; c\ny=I,B\n",
        "9 255 - ids|B lower upper\n",
    ),
    ("[Z][M]\nx=I,A\n", ""),
    ("[m]y=I,B\nx=I,A\n", "7 255 - ids|A lower upper\n"),
    (";[Z]\nx=I,A\n", "7 255 - ids|A lower upper\n"),
    ("x=[Z],[Q]\n", "6 255 - ids|[Q] lower upper\n"),
    ("\t[Z]\nx=I,A\n", ""),
    ("[M N]\nx=I,A\n", ""),
    ("[M.NTamd64]\nx=I,A\n", ""),
    ("x=I,\\\n[Z\n", "6 255 - ids|[Z lower upper\n"),
];

/// Lines that go on with the next one.
const CONTINUED: &[(&str, &str)] = &[
    ("x=I,A,\\\r\n\t B\r\n", "6 255 - ids|A|B lower upper\n"),
    ("x=I,A \\\nB\n", "6 255 - ids|A B lower upper\n"),
    ("x=I,A\\\n; c\nB\n", "6 255 - ids|A lower upper\n"),
    ("\\\nx=I,A\n", "6 255 - ids|A lower upper\n"),
    ("x=I,A\\\\\nB\n", "6 255 - ids|A\\B lower upper\n"),
    ("x=I,\"A\\\nB\"\n", "6 255 - ids|A\\ lower upper\n"),
    ("x\\\n=I,A\n", "6 255 - ids|A lower upper\n"),
    (
        "x=I,\\\n\\\n\\\nA\ny=I,B\n",
        "6 255 - ids|A lower upper\n10 255 - ids|B lower upper\n",
    ),
    (
        "x=I,A\\\n\ny=I,B\n",
        "6 255 - ids|A lower upper\n8 255 - ids|B lower upper\n",
    ),
    ("x=I,\"A\"\\\n\"B\"\n", "6 255 - ids|AB lower upper\n"),
    (
        "x=I,A, \\ ; and so on\n  B, \\ ; and on\n  C ; done\n",
        "6 255 - ids|A|B|C lower upper\n",
    ),
    ("x=I,A\\B\\\n\\C\n", "6 255 - ids|A\\B\\C lower upper\n"),
    ("[Z]\\\n[M]\nx=I,A\n", "8 255 - ids|A lower upper\n"),
    ("x=I,A\n\\", "6 255 - ids|A lower upper\n"),
];

/// Keys and values.
const ENTRIES: &[(&str, &str)] = &[
    ("x==I,A\n", "6 255 - ids|A lower upper\n"),
    (" x = I , A B ,C \n", "6 255 - ids|A B|C lower upper\n"),
    ("x=I,A,\n", "6 255 - ids|A| lower upper\n"),
    ("x=I,,,\n", "6 255 - ids||| lower upper\n"),
    ("x=,A\n", "6 255 - ids|A lower upper\n"),
    ("x=\n", "6 255 - ids lower upper\n"),
    ("\"\"=I,A\n", ""),
    ("\" \"=I,A\n", "6 255 - ids|A lower upper\n"),
    ("x=I,\"A\",\"B\"\n", "6 255 - ids|A|B lower upper\n"),
    ("x = \"I\",\"A,B\",C\n", "6 255 - ids|A,B|C lower upper\n"),
    (
        "x=I,A\nx=I,A\n",
        "6 255 - ids|A lower upper\n7 255 - ids|A lower upper\n",
    ),
    ("x,y=I,A\n", "6 255 - ids|A lower upper\n"),
    ("x=I,A=,=B\n", "6 255 - ids|A=|=B lower upper\n"),
    ("\"x=I\",A\n", ""),
    (
        "x=I,1,2,3,4,5,6,7,,9,10\n",
        "6 255 - ids|1|2|3|4|5|6|7| lower upper\n",
    ),
];

/// Headers without their end.
const OPEN_HEADERS: &[(&str, &str)] = &[
    ("[Z;]\nx=I,A\n", "refused 2 6"),
    ("x=I,A\n  [Z ; ]\n", "refused 2 7"),
    ("[\n", "refused 2 6"),
    ("[Z\r\n]\r\n", "refused 2 6"),
];

#[test]
fn lines(rt: HostRuntime) -> Result<(), Fail> {
    all_give(rt.alloc(), UNDER_M, LINES)
}

#[test]
fn quotes(rt: HostRuntime) -> Result<(), Fail> {
    all_give(rt.alloc(), UNDER_M, QUOTES)
}

#[test]
fn headers(rt: HostRuntime) -> Result<(), Fail> {
    all_give(rt.alloc(), UNDER_M, HEADERS)
}

#[test]
fn continued_lines(rt: HostRuntime) -> Result<(), Fail> {
    all_give(rt.alloc(), UNDER_M, CONTINUED)
}

#[test]
fn entries(rt: HostRuntime) -> Result<(), Fail> {
    all_give(rt.alloc(), UNDER_M, ENTRIES)
}

#[test]
fn open_headers(rt: HostRuntime) -> Result<(), Fail> {
    all_give(rt.alloc(), REFUSED, OPEN_HEADERS)
}
