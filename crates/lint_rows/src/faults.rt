//! Files and a sink that fail, and a file in UTF-16.
use crate::lints::{ends, gives};
use lint_cli::Status;
use pnp_io::MemFiles;
use std::alloc::Global;
use std::test::Fail;

#[test]
fn reads_and_writes_that_fail(rt: HostRuntime) -> Result<(), Fail> {
    let mut files = MemFiles::new(rt.alloc());
    files.add(b"s", b"Driver dev steady\n")?;
    ends(rt.alloc(), &mut files, 40, Status::ReadFault, "")?;
    files.add(b"i", b"[Version]\nSignature=$Chicago$\n")?;
    let front = "s:1: error: \"Driver\" is no keyword; keyw";
    ends(rt.alloc(), &mut files, 40, Status::WriteFault, front)
}

// A wrong body that it shows: the first fault told again in place of each further one (`push_others`).
#[test]
fn faults_behind_the_first(rt: HostRuntime) -> Result<(), Fail> {
    let inf = "[Manufacturer
Own = M
[M]
A = I, OWN\\A
[I]
FeatureScore = 300
[J
FeatureScore = 0x100
";
    let text = "i:3: error: a header has no ]: \"[Manufacturer\"
i:8: error: FeatureScore is no number up to 255: \"FeatureScore = 300\"
i:9: error: a header has no ]: \"[J\"
i:10: error: FeatureScore is no number up to 255: \"FeatureScore = 0x100\"
";
    gives(rt.alloc(), inf, Status::Found, text)
}

/// The text in UTF-16LE.
fn in_utf16(alloc: Global, text: &str) -> Result<Vec<u8>, Fail> {
    let mut bytes = Vec::from_slice(alloc, &[0xFF, 0xFE])?;
    for byte in text.as_bytes() {
        bytes.push(*byte)?;
        bytes.push(0)?;
    }
    Ok(bytes)
}

#[test]
fn an_inf_in_utf_16(rt: HostRuntime) -> Result<(), Fail> {
    let text =
        "[Version]\r\nSignature=$Chicago$\r\n[Manufacturer]\r\nOwn=M\r\n[M]\r\nA=I,OWN\\A\r\n";
    let mut files = MemFiles::new(rt.alloc());
    files.add(b"s", b"# nothing\n")?;
    files.add(b"i", &in_utf16(rt.alloc(), text)?)?;
    let wanted =
        "i:6: warning: \"OWN\\A\" gets no driver: its models line has no service, which an AddService with the flag 2 gives (problem 28)
i:6: warning: there is no section [I], which this line installs
i:6: warning: there is no section [I.Services], which gives the driver
";
    ends(rt.alloc(), &mut files, 4096, Status::Clean, wanted)
}
