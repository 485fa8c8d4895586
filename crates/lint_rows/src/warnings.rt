//! INFs that lack something, and the warnings. The lines of an INF are counted from its `[Version]`, which stands on two lines before it.
use crate::lints::gives;
use lint_cli::Status;
use std::test::Fail;

#[test]
fn a_whole_inf_has_no_warning(rt: HostRuntime) -> Result<(), Fail> {
    let inf = "; all is there
[manufacturer]
%Own% = Models, NTx86, NTamd64.10.0
[Models.NTamd64.10.0]
\"A; device\" = \"In,st\", OWN\\DEV
[In,st.NTamd64]
[In,st.NTamd64.services]
AddService = \"DEV\", 0x00000002, Svc ; the driver
[In,st.NTamd64.HW]
AddReg = %Filters%
[Filters.Here]
HKR,,\"LowerFilters\",0x00010000,\"low\"
[Strings]
Own = \"Own\"
Filters = Filters.Here
";
    gives(rt.alloc(), inf, Status::Clean, "")
}

#[test]
fn an_inf_without_models_lines(rt: HostRuntime) -> Result<(), Fail> {
    let inf = "[Manufacturer]\nOwn = Models\n";
    let text =
        "i:1: warning: no models line is read, so no device gets a driver from it (problem 28)
i:4: warning: there is no models section [Models]
";
    gives(rt.alloc(), inf, Status::Clean, text)
}

#[test]
fn models_of_other_machines(rt: HostRuntime) -> Result<(), Fail> {
    let inf = "[Manufacturer]
Own = %Name%,NTx86, \\
  NTarm64
[Models.NTx86]
A = I, OWN\\DEV
[models.ntarm64]
A = I, OWN\\DEV
[Modelsome]
[Strings]
Name = Models
";
    let text =
        "i:1: warning: no models line is read, so no device gets a driver from it (problem 28)
i:4: warning: there is no models section [Models], and [Models.NTx86] [models.ntarm64] is not read: no decoration is NTamd64, NT, or begins with NTamd64.
";
    gives(rt.alloc(), inf, Status::Clean, text)
}

// A wrong body that it shows: a section that is not there told one line early (`push_absent`).
#[test]
fn a_service_under_another_name(rt: HostRuntime) -> Result<(), Fail> {
    let inf = "[Manufacturer]
Own = M
[M]
A = I, , OWN\\DEV
B = J, OWN\\OTHER
[I]
[I.Service]
AddService = dev, 2, Svc
";
    let text =
        "i:6: warning: \"OWN\\DEV\" gets no driver: its models line has no service, which an AddService with the flag 2 gives (problem 28)
i:7: warning: \"OWN\\OTHER\" gets no driver: its models line has no service, which an AddService with the flag 2 gives (problem 28)
i:6: warning: there is no section [I.Services], which gives the driver
i:7: warning: there is no section [J], which this line installs
i:7: warning: there is no section [J.Services], which gives the driver
";
    gives(rt.alloc(), inf, Status::Clean, text)
}

// Wrong bodies that it shows: odd flags taken for those of a driver (`is_function_driver`); a warning one line early (`push_no_driver`).
#[test]
fn services_without_the_flag(rt: HostRuntime) -> Result<(), Fail> {
    let inf = "[Manufacturer]
Own = M
[M]
A = I, OWN\\DEV
[I.Services]
AddService = power, 0x801, Svc
AddService = dev, , Svc
AddService = wide, 0x100000002, Svc
AddService = large, 0X2, Svc
";
    let text =
        "i:6: warning: \"OWN\\DEV\" gets no driver: its models line has no service, which an AddService with the flag 2 gives (problem 28)
i:8: warning: \"power\" is no function driver: its flags have not the bit 2
i:9: warning: \"dev\" is no function driver: its flags have not the bit 2
i:10: warning: \"wide\" is no function driver: its flags have not the bit 2
i:11: warning: \"large\" is no function driver: its flags have not the bit 2
";
    gives(rt.alloc(), inf, Status::Clean, text)
}

#[test]
fn flags_with_and_without_the_bit(rt: HostRuntime) -> Result<(), Fail> {
    let inf = "[Manufacturer]
Own = M
[M]
A = I, OWN\\A
B = J, OWN\\B
C = K, OWN\\C
D = L, OWN\\D
[I.Services]
AddService = one, 1, Svc
AddService = five, 0x5, Svc
AddService = four, 4, Svc
AddService = none, 0, Svc
[J.Services]
AddService = one, 1, Svc
AddService = dev, 3, Svc
[K.Services]
AddService = low, 0xFFFFFFFD, Svc
AddService = dev, 6, Svc
[L.Services]
AddService = word, 2x, Svc
AddService = below, -2, Svc
AddService = high, 4294967298, Svc
";
    let text =
        "i:6: warning: \"OWN\\A\" gets no driver: its models line has no service, which an AddService with the flag 2 gives (problem 28)
i:9: warning: \"OWN\\D\" gets no driver: its models line has no service, which an AddService with the flag 2 gives (problem 28)
i:11: warning: \"one\" is no function driver: its flags have not the bit 2
i:12: warning: \"five\" is no function driver: its flags have not the bit 2
i:13: warning: \"four\" is no function driver: its flags have not the bit 2
i:14: warning: \"none\" is no function driver: its flags have not the bit 2
i:22: warning: \"word\" is no function driver: its flags have not the bit 2
i:23: warning: \"below\" is no function driver: its flags have not the bit 2
i:24: warning: \"high\" is no function driver: its flags have not the bit 2
";
    gives(rt.alloc(), inf, Status::Clean, text)
}

#[test]
fn the_install_section_of_this_machine_before_nt(rt: HostRuntime) -> Result<(), Fail> {
    let inf = "[Manufacturer]
Own = M
[M]
A = I, OWN\\DEV
[I]
[I.Services]
AddService = dev, 2, Svc
[I.NT]
[I.NT.Services]
AddService = nt, , Svc
[I.NTamd64]
[I.NTamd64.Services]
AddService = own, 1, Svc
";
    let text =
        "i:6: warning: \"OWN\\DEV\" gets no driver: its models line has no service, which an AddService with the flag 2 gives (problem 28)
i:15: warning: \"own\" is no function driver: its flags have not the bit 2
";
    gives(rt.alloc(), inf, Status::Clean, text)
}

#[test]
fn faults_that_are_told_one_after_another(rt: HostRuntime) -> Result<(), Fail> {
    let inf = "DriverVer = 13/13/2000
[Manufacturer]
Own = M
[M]
[Open
A = I, OWN\\DEV
[I]
FeatureScore = 300
[J]
FeatureScore = 0x100
";
    let text =
        "i:3: error: DriverVer is no date MM/DD/YYYY, or the version behind it is none: \"DriverVer = 13/13/2000\"
i:7: error: a header has no ]: \"[Open\"
i:10: error: FeatureScore is no number up to 255: \"FeatureScore = 300\"
i:12: error: FeatureScore is no number up to 255: \"FeatureScore = 0x100\"
";
    gives(rt.alloc(), inf, Status::Found, text)
}

#[test]
fn a_line_that_matches_nothing(rt: HostRuntime) -> Result<(), Fail> {
    let inf = "[Manufacturer]
Own = M
[M]
A = I
[I.Services]
AddService = dev, 2, Svc
[J.Services]
";
    gives(rt.alloc(), inf, Status::Clean, "")
}

#[test]
fn drivers_that_no_line_names(rt: HostRuntime) -> Result<(), Fail> {
    let inf = "[Manufacturer]
Own = M
[M]
A = I, OWN\\DEV
B = I, OWN\\OTHER
C = J, OWN\\THIRD
[I.Services]
AddService = div, 2, Svc
[J.Services]
AddService = DIV, 2, Svc
[J.HW]
AddReg = Here, There
[Here]
HKR,,\"LowerFilters\",0x00010000,\"LOW\",\"lower\"
HKR,,\"UpperFilters\",0x00010000,\"div\",\"up\"
";
    let text = "i:6: warning: \"div\" is named by no driver line of the script (problem 39)
i:8: warning: \"lower\" is named by no driver line of the script (problem 39)
i:8: warning: \"up\" is named by no driver line of the script (problem 39)
i:14: warning: there is no section [There], which AddReg names
";
    gives(rt.alloc(), inf, Status::Clean, text)
}

#[test]
fn a_refused_inf_has_no_warnings(rt: HostRuntime) -> Result<(), Fail> {
    let inf = "[Manufacturer]\nOwn = M\n[I]\nFeatureScore = 300\n";
    let text = "i:6: error: FeatureScore is no number up to 255: \"FeatureScore = 300\"\n";
    gives(rt.alloc(), inf, Status::Found, text)
}

// Wrong bodies that it shows: `[NAME.NT]` taken before `[NAME.NTamd64]` (`install_name` of inf_sections); the section without a decoration
// before both.
#[test]
fn the_install_section_that_is_taken(rt: HostRuntime) -> Result<(), Fail> {
    let inf = "[Manufacturer]
Own = M
[M]
A = I, OWN\\A
[I]
[I.NT]
[I.NTamd64]
[I.Services]
AddService = bare, 0, Svc
[I.NT.Services]
AddService = other, 0, Svc
[I.NTamd64.Services]
AddService = dev, 2, Svc
";
    gives(rt.alloc(), inf, Status::Clean, "")
}
