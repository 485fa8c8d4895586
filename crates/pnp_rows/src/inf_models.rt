//! The parts of models lines in INFs: tokens, install sections, scores, services and filters, with what the format's
//! description gives.
use crate::inf_told::{Around, MODELS, REFUSED, UNDER_M, all_give, each_gives};
use std::test::Fail;

/// Tokens, and the texts that stand for them.
const TOKENS: &[(&str, &str)] = &[
    (
        "x=I,%a%%b%\n[Strings]\na=V\nb=W\n",
        "6 255 - ids|VW lower upper\n",
    ),
    (
        "x=I,%%a%%\n[Strings]\na=V\n",
        "6 255 - ids|%a% lower upper\n",
    ),
    (
        "x=I,%a b%\n[Strings]\na b = V\n",
        "6 255 - ids|V lower upper\n",
    ),
    (
        "x=I,% a %\n[Strings]\na=V\n",
        "6 255 - ids|% a % lower upper\n",
    ),
    (
        "x=I,\"%a%\"\n[Strings]\na=V\n",
        "6 255 - ids|V lower upper\n",
    ),
    (
        "x=I,\"%\"a%\n[Strings]\na=V\n",
        "6 255 - ids|V lower upper\n",
    ),
    (
        "x=I,%a%,B\n[Strings]\na=\"V,W\"\n",
        "6 255 - ids|V,W|B lower upper\n",
    ),
    (
        "x=I,%a%\n[Strings]\na=\"V\"\"W\"\n",
        "6 255 - ids|V\"W lower upper\n",
    ),
    ("%n%=I,A\n[Strings]\nn=\"\"\n", ""),
    ("x=I,A%a%B\n[Strings]\na=\n", "6 255 - ids|AB lower upper\n"),
    (
        "x=I,A%\ny=I,%\n",
        "6 255 - ids|A% lower upper\n7 255 - ids|% lower upper\n",
    ),
    (
        "x=I,%%%a%\n[Strings]\na=V\n",
        "6 255 - ids|%V lower upper\n",
    ),
    ("x=I,%%%%\n", "6 255 - ids|%% lower upper\n"),
    (
        "x=I,%a%\n[Strings]\na\nb=1\n",
        "6 255 - ids|%a% lower upper\n",
    ),
    (
        "x=I,%A%\n[Strings.0407]\na=W\n[strings]\nb=1\n[Strings]\na=V\n",
        "6 255 - ids|V lower upper\n",
    ),
    (
        "x=I,%a%\n[Strings.0409]\na=W\n",
        "6 255 - ids|%a% lower upper\n",
    ),
    (
        "x=I,%\u{E9}%\n[Strings]\n\u{E9}=V\n\u{C9}=W\n",
        "6 255 - ids|V lower upper\n",
    ),
    (
        "x=%i%,A\n[I]\nFeatureScore=%s%\n[Strings]\ni=I\ns=0x10\n",
        "6 16 - ids|A lower upper\n",
    ),
    (
        "x=I,%x%a%y%\n[Strings]\nx=1\ny=2\n",
        "6 255 - ids|1a2 lower upper\n",
    ),
    (
        "x=I,%y%a%x\n[Strings]\nx=1\ny=2\n",
        "6 255 - ids|2a%x lower upper\n",
    ),
];

/// Install sections, decorated and bare.
const INSTALLS: &[(&str, &str)] = &[
    (
        "x=I,A\n[I.NTamd64]\n[I.NT]\nFeatureScore=1\n[I]\nFeatureScore=2\n",
        "6 255 - ids|A lower upper\n",
    ),
    (
        "x=I,A\n[I.NTx86]\nFeatureScore=1\n[I.Services]\nAddService=s,2\n",
        "6 255 =s ids|A lower upper\n",
    ),
    (
        "x=I,A\n[I]\n[I.NTamd64.Services]\nAddService=s,2\n",
        "6 255 - ids|A lower upper\n",
    ),
    (
        "x=I,A\n[I.NTamd64.Services]\nAddService=s,2\n",
        "6 255 - ids|A lower upper\n",
    ),
    (
        "x=I,A\n[i.ntAMD64]\n[I.NTamd64.services]\naddservice=s,2\n",
        "6 255 =s ids|A lower upper\n",
    ),
    (
        "x=I,A\n[I.NTamd64.HW]\nAddReg=R\n[I.HW]\nAddReg=Q\n[R]\nHKR,,UpperFilters,0x10000,r\n[Q]\nHKR,,UpperFilters,0x10000,q\n",
        "6 255 - ids|A lower upper|q\n",
    ),
    (
        "x=I,A\n[I]\nFeatureScore=1\nFeatureScore=2\n",
        "6 1 - ids|A lower upper\n",
    ),
    ("x=I,A\n[I]\nFeatureScore\n", "6 255 - ids|A lower upper\n"),
    (
        "x=I,A\n[I]\nCopyFiles=C\n[i]\nfeaturescore=0xfe,1\n",
        "6 254 - ids|A lower upper\n",
    ),
    (
        "x=I,A\ny=J,B\n[I.NT]\nFeatureScore=7\n[J]\nFeatureScore=8\n",
        "6 7 - ids|A lower upper\n7 8 - ids|B lower upper\n",
    ),
    (
        "x=I.NT,A\n[I.NT]\nFeatureScore=7\n",
        "6 7 - ids|A lower upper\n",
    ),
];

/// Which sections an `AddReg` names.
const REGISTRY: &[(&str, &str)] = &[
    (
        "x=I,A\n[I]\nAddReg=R\n[R]\nHKR,,UpperFilters,0x10000,a\n",
        "6 255 - ids|A lower upper\n",
    ),
    (
        "x=I,A\n[I.HW]\nDelReg=R\n[R]\nHKR,,UpperFilters,0x10000,a\n",
        "6 255 - ids|A lower upper\n",
    ),
    (
        "x=I,A\n[I.HW]\nAddReg=Q,,R\n[R]\nHKR,,UpperFilters,0x10000,a\n",
        "6 255 - ids|A lower upper|a\n",
    ),
    (
        "x=I,A\n[I.HW]\naddreg=r\nAddReg=%q%\n[R]\nHKR,,UpperFilters,0x10000,a\n[Q]\nHKR,,UpperFilters,0x10000,b\n[Strings]\nq=Q\n",
        "6 255 - ids|A lower upper|a|b\n",
    ),
    (
        "x=I,A\n[I.HW]\nR\n[R]\nHKR,,UpperFilters,0x10000,a\n",
        "6 255 - ids|A lower upper\n",
    ),
    (
        "x=I,A\ny=J,B\n[I.HW]\nAddReg=R\n[J.HW]\nAddReg=R\n[R]\nHKR,,LowerFilters,0x10000,a\n",
        "6 255 - ids|A lower|a upper\n7 255 - ids|B lower|a upper\n",
    ),
];

/// Scores that are none, in whatever section.
const BAD_SCORES_ANYWHERE: &[(&str, &str)] = &[
    ("[Z]\n%f%=300\n[Strings]\nf=FeatureScore\n", "refused 5 7"),
    ("[Strings]\nFeatureScore=%x%\nx=1\n", "refused 5 7"),
    (
        "x=I,A\n[I]\nFeatureScore=1\nFeatureScore=x\n",
        "refused 5 9",
    ),
];

/// What stands before the value of a `FeatureScore`.
const SCORE: &str = "x=I,A\n[I]\nFeatureScore=";

/// The value of a `FeatureScore`, and the score.
const SCORES: &[(&str, &str)] = &[
    ("0", "6 0 - ids|A lower upper\n"),
    ("255", "6 255 - ids|A lower upper\n"),
    ("0xff", "6 255 - ids|A lower upper\n"),
    ("0x0000FE", "6 254 - ids|A lower upper\n"),
    ("007", "6 7 - ids|A lower upper\n"),
    ("FF", "6 255 - ids|A lower upper\n"),
    ("a", "6 10 - ids|A lower upper\n"),
    ("1A", "6 26 - ids|A lower upper\n"),
    ("a1", "6 161 - ids|A lower upper\n"),
    ("99", "6 99 - ids|A lower upper\n"),
    ("100", "6 100 - ids|A lower upper\n"),
    ("\"12\"", "6 12 - ids|A lower upper\n"),
    (" 12 ", "6 12 - ids|A lower upper\n"),
    ("0x0", "6 0 - ids|A lower upper\n"),
    ("e", "6 14 - ids|A lower upper\n"),
];

/// Values of a `FeatureScore` that are no score.
const BAD_SCORES: &[&str] = &[
    "0XFF",
    "0x",
    "",
    "-1",
    "+1",
    "g1",
    "1f0",
    "0x100",
    "256",
    "1 2",
    "fff",
    "0x1g",
    "12h",
    "%n%",
    "99999999999999999999",
];

/// The values of an `AddService`, and what is behind it, with the service that they give.
const SERVICES: &[(&str, &str)] = &[
    (
        "s,%SPSVCINST_ASSOCSERVICE%,T\n[Strings]\nSPSVCINST_ASSOCSERVICE=0x00000002",
        "6 255 =s ids|A lower upper\n",
    ),
    (
        "f,,F\nAddService=s,0x00000002,T",
        "6 255 =s ids|A lower upper\n",
    ),
    ("s,3", "6 255 =s ids|A lower upper\n"),
    ("s,4", "6 255 - ids|A lower upper\n"),
    ("s,1", "6 255 - ids|A lower upper\n"),
    ("s,0x802,T", "6 255 =s ids|A lower upper\n"),
    ("s,\"2\"", "6 255 =s ids|A lower upper\n"),
    ("s,+2", "6 255 - ids|A lower upper\n"),
    ("s,0x2g", "6 255 - ids|A lower upper\n"),
    ("s,0X2", "6 255 - ids|A lower upper\n"),
    ("s,4294967298", "6 255 - ids|A lower upper\n"),
    ("s,4294967295", "6 255 =s ids|A lower upper\n"),
    ("s,0xffffffff", "6 255 =s ids|A lower upper\n"),
    ("s,00000000000000000002", "6 255 =s ids|A lower upper\n"),
    ("s,0x00000000000000000002", "6 255 =s ids|A lower upper\n"),
    ("s", "6 255 - ids|A lower upper\n"),
    ("s,,2", "6 255 - ids|A lower upper\n"),
    ("\"a b\",2", "6 255 =a b ids|A lower upper\n"),
    ("%s%,2\n[Strings]\ns=svc", "6 255 =svc ids|A lower upper\n"),
    ("s,2 3", "6 255 - ids|A lower upper\n"),
    (
        "s,1\nDelService=t,2\nAddServices=u,2",
        "6 255 - ids|A lower upper\n",
    ),
    (
        "s,0x00000000\n[i.services]\nADDSERVICE=t,2",
        "6 255 =t ids|A lower upper\n",
    ),
];

/// The lines of a registry section, with the filters that they give.
const FILTERS: &[(&str, &str)] = &[
    (
        "HKR,,\"UpperFilters\",0x00010000,\"a\",\"b\"",
        "6 255 - ids|A lower upper|a|b\n",
    ),
    (
        "HKR,,UpperFilters,0x00010008,a",
        "6 255 - ids|A lower upper|a\n",
    ),
    (
        "HKR,,UpperFilters,0x00020000,a",
        "6 255 - ids|A lower upper\n",
    ),
    (
        "HKLM,,UpperFilters,0x00010000,a",
        "6 255 - ids|A lower upper\n",
    ),
    (
        "HKR,\"\",LowerFilters,0x00010000,a",
        "6 255 - ids|A lower|a upper\n",
    ),
    (
        "HKR,Sub,LowerFilters,0x00010000,a",
        "6 255 - ids|A lower upper\n",
    ),
    ("HKR,,Filters,0x00010000,a", "6 255 - ids|A lower upper\n"),
    ("HKR,,UpperFilters", "6 255 - ids|A lower upper\n"),
    ("HKR,,UpperFilters,,a", "6 255 - ids|A lower upper\n"),
    (
        "HKR,,UpperFilters,0x00010000",
        "6 255 - ids|A lower upper\n",
    ),
    (
        "HKR,,UpperFilters,0x00010000,,,",
        "6 255 - ids|A lower upper\n",
    ),
    (
        "HKR,,LowerFilters,65536,l\nHKR,,UpperFilters,65536,u\nHKR,,LowerFilters,65536,m",
        "6 255 - ids|A lower|l|m upper|u\n",
    ),
    (
        "hkr , , upperFILTERS , 0x00010000 , %f%\n[Strings]\nf=flt",
        "6 255 - ids|A lower upper|flt\n",
    ),
    (
        "HKR,,UpperFilters,0x00010000,a\\\n,b",
        "6 255 - ids|A lower upper|a|b\n",
    ),
    (
        "x=HKR,,UpperFilters,0x00010000,a",
        "6 255 - ids|A lower upper\n",
    ),
    (
        "\"HKR\",,UpperFilters,0x00010000,\"a;b\"",
        "6 255 - ids|A lower upper|a;b\n",
    ),
    (
        "HKR,,UpperFilters,0x00010000,a\n[r]\nHKR,,UpperFilters,0x00010000,a",
        "6 255 - ids|A lower upper|a|a\n",
    ),
];

/// The value of a `FeatureScore`, and the models line.
const SCORED: &Around = &Around {
    head: MODELS,
    front: SCORE,
    end: "\n",
    gives: "0 0\n",
    given_end: "",
};

/// The value of an `AddService` and what is behind it, and the models line.
const SERVED: &Around = &Around {
    head: MODELS,
    front: "x=I,A\n[I.Services]\nAddService=",
    end: "\n",
    gives: "0 0\n",
    given_end: "",
};

/// The lines of a registry section, and the models line.
const FILTERED: &Around = &Around {
    head: MODELS,
    front: "x=I,A\n[I.HW]\nAddReg=R\n[R]\n",
    end: "\n",
    gives: "0 0\n",
    given_end: "",
};

/// The value of a `FeatureScore`, and how it is refused.
const BADLY_SCORED: &Around = &Around {
    head: MODELS,
    front: SCORE,
    end: "\n",
    gives: "",
    given_end: "\n",
};

#[test]
fn tokens(rt: HostRuntime) -> Result<(), Fail> {
    all_give(rt.alloc(), UNDER_M, TOKENS)
}

#[test]
fn install_sections(rt: HostRuntime) -> Result<(), Fail> {
    all_give(rt.alloc(), UNDER_M, INSTALLS)
}

#[test]
fn registry_sections(rt: HostRuntime) -> Result<(), Fail> {
    all_give(rt.alloc(), UNDER_M, REGISTRY)
}

#[test]
fn scores(rt: HostRuntime) -> Result<(), Fail> {
    all_give(rt.alloc(), SCORED, SCORES)
}

#[test]
fn services(rt: HostRuntime) -> Result<(), Fail> {
    all_give(rt.alloc(), SERVED, SERVICES)
}

#[test]
fn filters(rt: HostRuntime) -> Result<(), Fail> {
    all_give(rt.alloc(), FILTERED, FILTERS)
}

#[test]
fn bad_scores_anywhere(rt: HostRuntime) -> Result<(), Fail> {
    all_give(rt.alloc(), REFUSED, BAD_SCORES_ANYWHERE)
}

#[test]
fn bad_scores(rt: HostRuntime) -> Result<(), Fail> {
    each_gives(rt.alloc(), BADLY_SCORED, BAD_SCORES, "refused 5 8")
}
