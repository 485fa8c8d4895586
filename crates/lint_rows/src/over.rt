//! INFs with something that is read over here and that Windows would heed, and options. The lines of an INF are counted from its
//! `[Version]`, which stands on two lines before it.
use crate::lints::{ends_by, gives, gives_by};
use lint_cli::Status;
use pnp_io::MemFiles;
use std::alloc::Global;
use std::test::Fail;

#[test]
fn decorations_that_are_not_read(rt: HostRuntime) -> Result<(), Fail> {
    let inf = "[Manufacturer]
Own = M, NTamd64.6.1, NTamd64.10.0, NTarm64
[M.NTamd64.6.1]
A = I, OWN\\A
[M.NTamd64.10.0]
A = I, OWN\\A
[M.NTarm64]
A = I, OWN\\A
[I.Services]
AddService = dev, 2, Svc
";
    let text =
        "i:4: warning: [M.NTamd64.6.1] is read, and not [M.NTamd64.10.0] [M.NTarm64]: of the decorations NTamd64 is taken, else the first that begins with NTamd64., else NT
";
    gives(rt.alloc(), inf, Status::Clean, text)
}

#[test]
fn the_decoration_of_this_machine_before_nt(rt: HostRuntime) -> Result<(), Fail> {
    let inf = "[Manufacturer]
Own = M, NT, NTamd64
[M.NT]
A = I, OWN\\A
[M.NTamd64]
A = I, OWN\\A
B = J, OWN\\B
[I.Services]
AddService = dev, 2, Svc
[J.Services]
AddService = low, 2, Svc
[Manufacturer]
Other = N, NT, NTamd64.10.0
[N.NT]
A = I, OWN\\C
[N.NTamd64.10.0]
A = I, OWN\\C
";
    let text =
        "i:4: warning: [M.NTamd64] is read, and not [M.NT]: of the decorations NTamd64 is taken, else the first that begins with NTamd64., else NT
i:15: warning: [N.NTamd64.10.0] is read, and not [N.NT]: of the decorations NTamd64 is taken, else the first that begins with NTamd64., else NT
";
    gives(rt.alloc(), inf, Status::Clean, text)
}

#[test]
fn sections_of_other_machines(rt: HostRuntime) -> Result<(), Fail> {
    let inf = "[Manufacturer]
Own = M, NTamd64, NTarm64
[M.NTamd64]
A = I, OWN\\A
[M.NTarm64]
A = I, OWN\\A
[I.Services]
AddService = dev, 2, Svc
";
    let text =
        "i:4: warning: [M.NTamd64] is read, and not [M.NTarm64]: they are for other machines\n";
    gives(rt.alloc(), inf, Status::Clean, text)?;
    let script = "driver dev steady\nplug HTREE\\ROOT\\0 OWN\\A 1\n";
    gives_by(rt.alloc(), &["s", "i"], script, inf, Status::Clean, "")
}

#[test]
fn sections_that_are_needed(rt: HostRuntime) -> Result<(), Fail> {
    let inf = "[Manufacturer]
Own = M
[M]
A = I, OWN\\A
[I]
Include = %Other%, two.inf
Needs = Two.NT
ExcludeID = OWN\\B
[I.Services]
Needs = Two.NT.Services
AddService = dev, 2, Svc
[I.Filters]
AddFilter = low, , Low_Filter
[Strings]
Other = one.inf
";
    let text = "i:8: warning: Include = one.inf, two.inf is read over: no other INF counts here
i:9: warning: Needs = Two.NT is read over: nothing of these sections counts here
i:10: warning: ExcludeID = OWN\\B is read over: its devices are matched all the same
i:12: warning: Needs = Two.NT.Services is read over: nothing of these sections counts here
i:15: warning: AddFilter = low, , Low_Filter is read over: the filter is not added; UpperFilters and LowerFilters by AddReg of the section .HW add some
";
    gives(rt.alloc(), inf, Status::Clean, text)
}

#[test]
fn an_extension_and_a_class(rt: HostRuntime) -> Result<(), Fail> {
    let inf = "Class = Extension
[ClassInstall32]
AddReg = Class_Reg
[Class_Reg]
HKR,,Icon,,-5
HKR,,UpperFilters,0x00010000,guard
[Manufacturer]
Own = M
[M]
A = I, OWN\\A
[I.Services]
AddService = dev, , Svc
";
    let text =
        "i:12: warning: \"OWN\\A\" gets no driver: its models line has no service, which an AddService with the flag 2 gives (problem 28)
i:3: warning: Class = Extension is read over: the INF is taken for a rival of the one that it extends, and adds nothing to it
i:8: warning: UpperFilters of a class is read over: no device of the class has these filters
";
    gives(rt.alloc(), inf, Status::Clean, text)
}

#[test]
fn lines_of_other_devices(rt: HostRuntime) -> Result<(), Fail> {
    let inf = "[Manufacturer]
Own = M
[M]
A = I, OWN\\A
B = J, OWN\\B, OWN\\C
[I.Services]
AddService = div, 2, Svc
[J.HW]
";
    let script = "plug HTREE\\ROOT\\0 OWN\\D 1 compat=OWN\\X,own\\c\n";
    let text =
        "i:7: warning: \"OWN\\B\" gets no driver: its models line has no service, which an AddService with the flag 2 gives (problem 28)
i:7: warning: there is no section [J], which this line installs
i:7: warning: there is no section [J.Services], which gives the driver
";
    gives_by(rt.alloc(), &["s", "i"], script, inf, Status::Clean, text)?;
    gives_by(
        rt.alloc(),
        &["--strict", "s", "i"],
        script,
        inf,
        Status::Found,
        text,
    )?;
    gives_by(
        rt.alloc(),
        &["s", "i"],
        "# nothing\n",
        inf,
        Status::Clean,
        "",
    )?;
    gives_by(
        rt.alloc(),
        &["--strict", "s", "i"],
        "# nothing\n",
        inf,
        Status::Clean,
        "",
    )?;
    gives_by(
        rt.alloc(),
        &["--strict", "--inf", "i"],
        "",
        inf,
        Status::Found,
        text,
    )
}

/// A file with these bytes, given as the script, is told to be an INF, and no more.
fn is_misplaced(alloc: Global, bytes: &[u8]) -> Result<(), Fail> {
    let mut files = MemFiles::new(alloc);
    files.add(b"i", bytes)?;
    let text =
        "i:1: error: this begins as an INF does: the script comes first, its comments begin with #, and behind --inf there is none
";
    ends_by(alloc, &["i"], &mut files, 4096, Status::Found, text)
}

#[test]
fn an_inf_in_place_of_a_script(rt: HostRuntime) -> Result<(), Fail> {
    is_misplaced(rt.alloc(), b"\n[Version]\nplug\n")?;
    is_misplaced(rt.alloc(), b" ; a comment\n[Version]\n")?;
    is_misplaced(rt.alloc(), b"\xFF\xFE[\0V\0]\0")?;
    is_misplaced(rt.alloc(), b"\xFE\xFF\0[\0V\0]")
}

#[test]
fn bytes_that_are_read_otherwise(rt: HostRuntime) -> Result<(), Fail> {
    let mut files = MemFiles::new(rt.alloc());
    files.add(b"i", b"[\0V\0]\0\n\0")?;
    files.add(b"j", b"\xFE\xFF\0[\0V\0]\0\n")?;
    let text = "i:1: error: [Version] has no Signature of $Windows NT$ or $CHICAGO$
i:1: warning: the file looks like UTF-16 without the mark FF FE, and is not read as such
j:1: error: [Version] has no Signature of $Windows NT$ or $CHICAGO$
j:1: warning: the file looks like UTF-16 with the higher byte first, which is not read
";
    ends_by(
        rt.alloc(),
        &["--inf", "i", "j"],
        &mut files,
        4096,
        Status::Found,
        text,
    )
}

#[test]
fn words_that_are_refused(rt: HostRuntime) -> Result<(), Fail> {
    let mut files = MemFiles::new(rt.alloc());
    for behind in [["--inf", "--all"], ["--strict", "--none"], ["s", "--all"]] {
        ends_by(rt.alloc(), &behind, &mut files, 64, Status::BadWords, "")?;
    }
    Ok(())
}
