//! Words that are refused: nothing is read, and nothing is written.
use crate::runs::{ends, files_of};
use explore_cli::Status;
use std::test::Fail;

const BAD: &[&[&str]] = &[
    &[],
    &["p"],
    &["p", "--count"],
    &["p", "--count", "f", "i"],
    &["p", "--count", "--script", "1", "f"],
    &["p", "--count", "--never", "x", "f"],
    &["p", "--script", "0", "f"],
    &["p", "--script", "x", "f"],
    &["p", "--script", "18446744073709551616", "f"],
    &["p", "--script", "1", "--first", "1", "f"],
    &["p", "--script", "1", "f", "i"],
    &["p", "--first", "0", "f"],
    &["p", "--first", "-1", "f"],
    &["p", "--first", "1", "--first", "1", "f"],
    &["p", "--endings", "0", "f"],
    &["p", "--endings", "1x", "f"],
    &["p", "--budget", "0", "f"],
    &["p", "--budget", "1000001", "f"],
    &["p", "--never", "", "f"],
    &["p", "--always", " ", "f"],
    &["p", "--never", "1 2 3 4 5 6 7 8 9 a b c d e f g h", "f"],
    &["p", "--part", "0/2", "f"],
    &["p", "--part", "3/2", "f"],
    &["p", "--part", "1/0", "f"],
    &["p", "--part", "1", "f"],
    &["p", "--part", "1/2/3", "f"],
    &["p", "--part", "1/1000001", "f"],
    &["p", "--part", "1/1", "--part", "1/1", "f"],
    &["p", "--part", "1/1", "--from", "x", "f"],
    &["p", "--exact", "--exact", "f"],
    &["p", "--progress", "f"],
    &["p", "--help"],
    &["p", "--check", "t", "f"],
    &["p", "--from"],
];

#[test]
fn bad_words(rt: HostRuntime) -> Result<(), Fail> {
    let alloc = rt.alloc();
    let mut files = files_of(alloc, &[("f", b"")])?;
    for texts in BAD {
        ends(alloc, texts, &mut files, (Status::BadWords, b""))?;
    }
    Ok(())
}
