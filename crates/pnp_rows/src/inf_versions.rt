//! Whole INFs: signatures, dates, versions, manufacturers and refusals, with what the format's description gives.
use crate::inf_told::{DATED, WHOLE, all_give, bytes_give, each_gives};
use std::test::Fail;

/// The values of a `DriverVer`, with date and version.
const DATES: &[(&str, &str)] = &[
    ("1/1/2021", "20210101 0"),
    ("12/31/9999", "99991231 0"),
    ("2/31/2021", "20210231 0"),
    ("1-1-2021", "20210101 0"),
    ("01-1-2021,", "20210101 0"),
    ("\"03/15/2021\"", "20210315 0"),
    (" 3/15/2021 , 1 ", "20210315 281474976710656"),
    ("1/1/0000", "101 0"),
    ("1/1/2021,1.2", "20210101 281483566645248"),
    ("1/1/2021,1.2.3", "20210101 281483566841856"),
    ("1/1/2021,1.2.3.4", "20210101 281483566841860"),
    (
        "1/1/2021,65535.65535.65535.65535",
        "20210101 18446744073709551615",
    ),
    ("1/1/2021,0001.02", "20210101 281483566645248"),
    ("1/1/2021,1,x", "20210101 281474976710656"),
    ("1/1/2021,0.0.0.65535", "20210101 65535"),
];

/// Values of a `DriverVer` that are no date and version.
const BAD_DATES: &[&str] = &[
    "00/10/2021",
    "1/0/2021",
    "1/32/2021",
    "001/1/2021",
    "1/1/21",
    "1/1/02021",
    "1 /1/2021",
    "1/1/2021/1",
    "1.1.2021",
    "",
    "2021/1/1",
    "1/1-2021",
    "x",
    "1//2021",
    "-1/1/2021",
    "1/1",
    "Jan/1/2021",
    "1/1/2021,1..2",
    "1/1/2021,.1",
    "1/1/2021,1.",
    "1/1/2021,1.2.3.x",
    "1/1/2021,-1",
    "1/1/2021,0x1",
    "1/1/2021,1.2.3.65536",
    "1/1/2021,1 .2",
    "1/1/2021,1.2.3.4.",
    "1/1/2021,99999999999999999999999",
];

/// Whole INFs: signatures and versions.
const VERSIONS: &[(&str, &str)] = &[
    (
        "[Version]\nSignature=x\nSignature=\"$Windows NT$\"\n",
        "0 0\n",
    ),
    ("[Version]\nSignature=x,\"$Windows NT$\"\n", "refused 1 0\n"),
    ("[Version]\nSIGNATURE=\"$WINDOWS nt$\"\n", "0 0\n"),
    ("[Version]\nSignature=\"$Windows 95$\"\n", "refused 1 0\n"),
    ("[Version]\nSignature\n", "refused 1 0\n"),
    ("[Version]\nSignature=\n", "refused 1 0\n"),
    ("[Versions]\nSignature=$Chicago$\n", "refused 1 0\n"),
    ("[Ver sion]\nSignature=$Chicago$\n", "refused 1 0\n"),
    ("Signature=$Chicago$\n[Version]\n", "refused 1 0\n"),
    (
        "[Version]\nClass=Net\n[Z]\nq=1\n[VERSION]\nSignature=$Chicago$\n",
        "0 0\n",
    ),
    (
        "[Version]\nSignature=%s%\n[Strings]\ns=\"$Windows NT$\"\n",
        "0 0\n",
    ),
    ("[Version]\nSignature=\"$Windows NT$ \"\n", "refused 1 0\n"),
    (
        "[Version]\nSignature=$Windows NT$;\nDriverVer=%d%\n[Strings]\nd=01/02/2020\n",
        "20200102 0\n",
    ),
    (
        "[Version]\nSignature=\"$Windows NT$\"\nDriverVer=%d%\n[Strings]\nd=\"01/02/2020,1.0\"\n",
        "refused 4 3\n",
    ),
    (
        "[Version]\nSignature=\"$Windows NT$\"\nDriverVer\n",
        "0 0\n",
    ),
    (
        "[Version]\nSignature=\"$Windows NT$\"\n[Z]\nDriverVer=x\n",
        "0 0\n",
    ),
    (
        "[Version]\nSignature=\"$Windows NT$\"\nDriverVer=x\nDriverVer=1/1/2021\n",
        "refused 4 3\n",
    ),
    (
        "[Version]\nSignature=\"$Windows NT$\"\nDriverVer=\\\n13/13/2021\n",
        "refused 4 3\n",
    ),
    (
        "[Version]\nSignature=\"$Windows NT$\"\nDriverVer=03/15/2021,\\\n 1.2.3.4\n",
        "20210315 281483566841860\n",
    ),
    (
        "[Version]\nSignature=\"$Windows NT$\"\n[Z]\n[Version]\ndriverver=1/1/2021\n",
        "20210101 0\n",
    ),
    (
        "FeatureScore=x\nDriverVer=x\n[Version]\nSignature=\"$Windows NT$\"\n",
        "0 0\n",
    ),
    (
        "\n; no header yet\nx=1\n\"q\"\n[Version]\nSignature=\"$Windows NT$\"\n",
        "0 0\n",
    ),
    (
        "[Version]\nSignature=\"$Windows NT$\"\n[Manufacturer]\n",
        "0 0\n",
    ),
];

/// Whole INFs: manufacturers and the models sections that they name.
const MAKERS: &[(&str, &str)] = &[
    (
        "[Version]\nSignature=\"$Windows NT$\"\n[Manufacturer]\nA=N\nB=M\n[M]\nx=I,1\n[N]\ny=I,2\n",
        "0 0\n9 255 - ids|2 lower upper\n7 255 - ids|1 lower upper\n",
    ),
    (
        "[Version]\nSignature=\"$Windows NT$\"\n[Manufacturer]\nM\n[M]\nx=I,A\n",
        "0 0\n6 255 - ids|A lower upper\n",
    ),
    (
        "[Version]\nSignature=\"$Windows NT$\"\n[Manufacturer]\no=M,NTx86\n[M]\nx=I,A\n[M.NTx86]\ny=I,B\n",
        "0 0\n6 255 - ids|A lower upper\n",
    ),
    (
        "[Version]\nSignature=\"$Windows NT$\"\n[Manufacturer]\no=M,NTamd64.\n[M.NTamd64.]\nx=I,A\n",
        "0 0\n6 255 - ids|A lower upper\n",
    ),
    (
        "[Version]\nSignature=\"$Windows NT$\"\n[Manufacturer]\no=M,NT.5\n[M.NT.5]\nx=I,A\n[M]\ny=I,B\n",
        "0 0\n8 255 - ids|B lower upper\n",
    ),
    (
        "[Version]\nSignature=\"$Windows NT$\"\n[Manufacturer]\no=M,NTamd64.6,NTamd64\n[M.NTamd64]\nx=I,A\n[M.NTamd64.6]\ny=I,B\n",
        "0 0\n6 255 - ids|A lower upper\n",
    ),
    (
        "[Version]\nSignature=\"$Windows NT$\"\n[Manufacturer]\no=M,NTamd6410\n[M]\nx=I,A\n",
        "0 0\n6 255 - ids|A lower upper\n",
    ),
    (
        "[Version]\nSignature=\"$Windows NT$\"\n[Manufacturer]\no=M,NTarm64,NTia64\n[M]\nx=I,A\n",
        "0 0\n6 255 - ids|A lower upper\n",
    ),
    (
        "[Version]\nSignature=\"$Windows NT$\"\n[Manufacturer]\no=M,nTaMd64\n[m.NTAMD64]\nx=I,A\n",
        "0 0\n6 255 - ids|A lower upper\n",
    ),
    (
        "[Version]\nSignature=\"$Windows NT$\"\n[Manufacturer]\no=Q\np=M\n[M]\nx=I,A\n",
        "0 0\n7 255 - ids|A lower upper\n",
    ),
    (
        "[Version]\nSignature=\"$Windows NT$\"\n[Manufacturer]\no=M,NT,NTamd64.10.0...16299\n[M.NT]\nx=I,A\n[M.NTamd64.10.0...16299]\ny=I,B\n",
        "0 0\n8 255 - ids|B lower upper\n",
    ),
    (
        "[Version]\nSignature=\"$Windows NT$\"\n[Manufacturer]\no=M,%d%\n[M.NTamd64]\nx=I,A\n[Strings]\nd=NTamd64\n",
        "0 0\n6 255 - ids|A lower upper\n",
    ),
    (
        "[Version]\nSignature=\"$Windows NT$\"\n[Manufacturer]\no=%s%\n[M]\nx=I,A\n[Strings]\ns=M\n",
        "0 0\n6 255 - ids|A lower upper\n",
    ),
    (
        "[Version]\nSignature=\"$Windows NT$\"\n[Manufacturer]\no=%s%\n[%s%]\nx=I,A\n[Strings]\ns=M\n",
        "0 0\n",
    ),
    (
        "[Version]\nSignature=\"$Windows NT$\"\n[Manufacturer]\no=M,,NT\n[M.NT]\nx=I,A\n",
        "0 0\n6 255 - ids|A lower upper\n",
    ),
    (
        "[Version]\nSignature=\"$Windows NT$\"\n[Manufacturer]\no=M\n[MANUFACTURER]\np=N\n[N]\nx=I,A\n[M]\ny=I,B\n",
        "0 0\n10 255 - ids|B lower upper\n8 255 - ids|A lower upper\n",
    ),
    (
        "[Version]\nSignature=\"$Windows NT$\"\n[Manufacturer]\no=M,\"NTamd64\"\n[\"M\".NTamd64]\nx=I,A\n[M.NTamd64]\ny=I,B\n",
        "0 0\n8 255 - ids|B lower upper\n",
    ),
    (
        "[Version]\nSignature=\"$Windows NT$\"\n[Manufacturer]\no=M.NTamd64\n[M.NTamd64]\nx=I,A\n",
        "0 0\n6 255 - ids|A lower upper\n",
    ),
];

/// Whole INFs: the refusal of the least line.
const REFUSALS: &[(&str, &str)] = &[
    (
        "[Version]\nDriverVer=x\n[Z]\nFeatureScore=x\n[Q\n",
        "refused 4 2\n",
    ),
    (
        "[Z]\nFeatureScore=x\n[Q\n[Version]\nDriverVer=x\n",
        "refused 5 2\n",
    ),
    ("[Q\n[Z]\nFeatureScore=x\n", "refused 2 1\n"),
    (
        "[Z]\nFeatureScore=1\nFeatureScore=x\nFeatureScore=y\n",
        "refused 5 3\n",
    ),
    ("[Z]\nq=1\\\n\\\nw=2\nFeatureScore=\\\nx\n", "refused 5 5\n"),
    ("\n\n\n[Version\n", "refused 2 4\n"),
    ("; nothing\n", "refused 1 0\n"),
    ("\n", "refused 1 0\n"),
    (
        "[Version]\n[Strings]\nSignature=$Chicago$\n",
        "refused 1 0\n",
    ),
    (
        "[Version]\nSignature=\"$Windows NT$\"\n[a]b]\n[c;]\n",
        "refused 2 4\n",
    ),
];

/// Whole INFs in bytes that are no INF.
const BYTES: &[(&[u8], &str)] = &[
    (b"\xFF\xFE", "refused 1 0\n"),
    (b"\xFF\xFE[", "refused 1 0\n"),
    (b"\xFE\xFF\0[\0V\0e\0r\0s\0i\0o\0n\0]\0\n", "refused 1 0\n"),
    (b"\xEF\xBB\xBF", "refused 1 0\n"),
    (
        b"\xEF\xBB\xBF\xEF\xBB\xBF[Version]\nSignature=$Chicago$\n",
        "refused 1 0\n",
    ),
    (b"\xEF\xBB[Version]\nSignature=$Chicago$\n", "refused 1 0\n"),
    (b"[Version]\rSignature=$Chicago$\r", "refused 1 0\n"),
    (b"\0", "refused 1 0\n"),
];

#[test]
fn versions(rt: HostRuntime) -> Result<(), Fail> {
    all_give(rt.alloc(), WHOLE, VERSIONS)
}

#[test]
fn makers(rt: HostRuntime) -> Result<(), Fail> {
    all_give(rt.alloc(), WHOLE, MAKERS)
}

#[test]
fn refusals(rt: HostRuntime) -> Result<(), Fail> {
    all_give(rt.alloc(), WHOLE, REFUSALS)
}

#[test]
fn dates(rt: HostRuntime) -> Result<(), Fail> {
    all_give(rt.alloc(), DATED, DATES)
}

#[test]
fn bytes_that_are_no_inf(rt: HostRuntime) -> Result<(), Fail> {
    bytes_give(rt.alloc(), WHOLE, BYTES)
}

#[test]
fn bad_dates(rt: HostRuntime) -> Result<(), Fail> {
    each_gives(rt.alloc(), DATED, BAD_DATES, "refused 4 3")
}
