//! The INF of a small board, and one with a filter.
use crate::inf_told::{WHOLE, all_give};
use std::test::Fail;

/// A small board: six devices, of which one has a score and one an ID on a second line.
const BOARD: &str = r#"; devices of the board
[Version]
Signature = "$WINDOWS NT$"
Class = System
DriverVer = 03/15/2021,10.0.1.2
[Manufacturer]
%Mfg% = Board,NTx86,NTamd64.10.0
[Board.NTamd64.10.0]
%Bus% = Bus_Inst, *PNP0A03
"Display adapter" = Gfx_Inst, PCI\VEN_1234&DEV_0001
"Network adapter" = Net_Inst, PCI\VEN_1234&DEV_0002
"Storage controller" = Sto_Inst, PCI\VEN_1234&DEV_0003, \
    PCI\CC_0101
"Serial port" = Ser_Inst, *PNP0501
"Parallel port" = Par_Inst, *PNP0400
[Bus_Inst.NT]
FeatureScore = 0xFE
[Bus_Inst.NT.Services]
AddService = pci, 0x00000002, Svc   ; function driver
[Gfx_Inst.Services]
AddService = gfx, 0x00000002, Svc
[Net_Inst.Services]
AddService = net, 2, Svc
[Sto_Inst.Services]
AddService = disk, 2, Svc
[Ser_Inst.Services]
AddService = serial, 2, Svc
[Par_Inst.Services]
AddService = parport, 2, Svc
[Svc]
ServiceType = 1
[Strings]
Mfg = "Own Boards, Ltd."
Bus = "Root bus"
"#;

/// Three devices, the last with a lower filter.
const OWN: &str = r#"[Version]
Signature="$Windows NT$"
DriverVer=01/01/2020,1.0.0.0
[Manufacturer]
Own=M
[M]
Device=I,OWN\DEV
Hard one=J,OWN\HARD
Filtered=K,OWN\FIL
[I.Services]
AddService=dev,2,S
[J.Services]
AddService=hard,2,S
[K.Services]
AddService=dev,2,S
[K.HW]
AddReg=R
[R]
HKR,,"LowerFilters",0x00010000,"low"
"#;

#[test]
fn boards(rt: HostRuntime) -> Result<(), Fail> {
    let board = "20210315 2814749767172098\n9 254 =pci ids|*PNP0A03 lower upper\n\
        10 255 =gfx ids|PCI\\VEN_1234&DEV_0001 lower upper\n\
        11 255 =net ids|PCI\\VEN_1234&DEV_0002 lower upper\n\
        12 255 =disk ids|PCI\\VEN_1234&DEV_0003|PCI\\CC_0101 lower upper\n\
        14 255 =serial ids|*PNP0501 lower upper\n15 255 =parport ids|*PNP0400 lower upper\n";
    let own = "20200101 281474976710656\n7 255 =dev ids|OWN\\DEV lower upper\n\
        8 255 =hard ids|OWN\\HARD lower upper\n9 255 =dev ids|OWN\\FIL lower|low upper\n";
    all_give(rt.alloc(), WHOLE, &[(BOARD, board), (OWN, own)])
}
