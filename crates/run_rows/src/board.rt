//! A board with seven devices, whose script and INF come in pieces.
ghost use Rattle.std.specs.Prelude.{◌≤◌};

use crate::rows::{comes, files_for, words_for};
use pnp_cli::Status;
use std::alloc::Global;
use std::test::Fail;

const SCRIPT: &str = r"# a small board
driver pci steady
driver gfx steady
driver net steady
driver disk steady
driver serial steady
driver parport steady
reserve irq:4
plug HTREE\ROOT\0 ACPI\PNP0A03 0 hw=ACPI\PNP0A03,*PNP0A03
plug ACPI\PNP0A03\0 PCI\VEN_1234&DEV_0001 0 need=mem:0xE0000000-0xEFFFFFFF/0x1000000@0x1000000;irq:16-23:shared
plug ACPI\PNP0A03\0 PCI\VEN_1234&DEV_0002 0 need=mem:0xE0000000-0xEFFFFFFF/0x20000@0x20000;port:0xC000-0xFFFF/64@64;irq:16-23:shared
plug ACPI\PNP0A03\0 PCI\VEN_1234&DEV_0003 1 need=port:0xC000-0xFFFF/16@16;irq:14-15
plug ACPI\PNP0A03\0 PCI\VEN_1234&DEV_0009 2 compat=PCI\CC_0101 need=port:0xC000-0xFFFF/16@16;irq:14-15
plug ACPI\PNP0A03\0 ACPI\PNP0501 1 hw=ACPI\PNP0501,*PNP0501 need=port:0x3F8-0x3FF/8@8;irq:4 need=port:0x2F8-0x2FF/8@8;irq:3
plug ACPI\PNP0A03\0 ACPI\PNP0400 1 hw=ACPI\PNP0400,*PNP0400 need=port:0x378-0x37F/8@8;irq:7 need=port:0x278-0x27F/8@8;irq:5
";

const INF: &[u8] = br#"; devices of the board
[Version]
Signature = "$WINDOWS NT$"
Class = System
DriverVer = 03/15/2021,10.0.1.2
[Manufacturer]
%Mfg% = Board,NTx86,NTamd64.10.0
[Board.NTamd64.10.0]
%Bus% = Bus_Inst, *PNP0A03
"Display adapter" = Gfx_Inst, PCI\VEN_1234&DEV_0001
"Network adapter" = Net_Inst, PCI\VEN_1234&DEV_0002
"Storage controller" = Sto_Inst, PCI\VEN_1234&DEV_0003, \
    PCI\CC_0101
"Serial port" = Ser_Inst, *PNP0501
"Parallel port" = Par_Inst, *PNP0400
[Bus_Inst.NT]
FeatureScore = 0xFE
[Bus_Inst.NT.Services]
AddService = pci, 0x00000002, Svc   ; function driver
[Gfx_Inst.Services]
AddService = gfx, 0x00000002, Svc
[Net_Inst.Services]
AddService = net, 2, Svc
[Sto_Inst.Services]
AddService = disk, 2, Svc
[Ser_Inst.Services]
AddService = serial, 2, Svc
[Par_Inst.Services]
AddService = parport, 2, Svc
[Svc]
ServiceType = 1
[Strings]
Mfg = "Own Boards, Ltd."
Bus = "Root bus"
"#;

const TEXT: &str = r"event driver pci
event driver gfx
event driver net
event driver disk
event driver serial
event driver parport
event reserve irq:4-4
event plug ACPI\PNP0A03\0
join 1 ACPI\PNP0A03\0
listed HTREE\ROOT\0
install ACPI\PNP0A03\0 00fe0008 pci
add ACPI\PNP0A03\0 pci ok
assign ACPI\PNP0A03\0
START_DEVICE ACPI\PNP0A03\0 pci ok
state ACPI\PNP0A03\0 Started
listed ACPI\PNP0A03\0
event plug PCI\VEN_1234&DEV_0001\0
join 2 PCI\VEN_1234&DEV_0001\0
listed ACPI\PNP0A03\0
install PCI\VEN_1234&DEV_0001\0 00ff0000 gfx
add PCI\VEN_1234&DEV_0001\0 gfx ok
assign PCI\VEN_1234&DEV_0001\0 mem:0xe0000000-0xe0ffffff irq:16-16:shared
START_DEVICE PCI\VEN_1234&DEV_0001\0 gfx ok
state PCI\VEN_1234&DEV_0001\0 Started
listed PCI\VEN_1234&DEV_0001\0
event plug PCI\VEN_1234&DEV_0002\0
join 3 PCI\VEN_1234&DEV_0002\0
listed ACPI\PNP0A03\0
install PCI\VEN_1234&DEV_0002\0 00ff0000 net
add PCI\VEN_1234&DEV_0002\0 net ok
assign PCI\VEN_1234&DEV_0002\0 mem:0xe1000000-0xe101ffff port:0xc000-0xc03f irq:16-16:shared
START_DEVICE PCI\VEN_1234&DEV_0002\0 net ok
state PCI\VEN_1234&DEV_0002\0 Started
listed PCI\VEN_1234&DEV_0002\0
event plug PCI\VEN_1234&DEV_0003\1
join 4 PCI\VEN_1234&DEV_0003\1
listed ACPI\PNP0A03\0
install PCI\VEN_1234&DEV_0003\1 00ff0000 disk
add PCI\VEN_1234&DEV_0003\1 disk ok
assign PCI\VEN_1234&DEV_0003\1 port:0xc040-0xc04f irq:14-14
START_DEVICE PCI\VEN_1234&DEV_0003\1 disk ok
state PCI\VEN_1234&DEV_0003\1 Started
listed PCI\VEN_1234&DEV_0003\1
event plug PCI\VEN_1234&DEV_0009\2
join 5 PCI\VEN_1234&DEV_0009\2
listed ACPI\PNP0A03\0
install PCI\VEN_1234&DEV_0009\2 00ff3001 disk
add PCI\VEN_1234&DEV_0009\2 disk ok
assign PCI\VEN_1234&DEV_0009\2 port:0xc050-0xc05f irq:15-15
START_DEVICE PCI\VEN_1234&DEV_0009\2 disk ok
state PCI\VEN_1234&DEV_0009\2 Started
listed PCI\VEN_1234&DEV_0009\2
event plug ACPI\PNP0501\1
join 6 ACPI\PNP0501\1
listed ACPI\PNP0A03\0
install ACPI\PNP0501\1 00ff0008 serial
add ACPI\PNP0501\1 serial ok
assign ACPI\PNP0501\1 port:0x2f8-0x2ff irq:3-3
START_DEVICE ACPI\PNP0501\1 serial ok
state ACPI\PNP0501\1 Started
listed ACPI\PNP0501\1
event plug ACPI\PNP0400\1
join 7 ACPI\PNP0400\1
listed ACPI\PNP0A03\0
install ACPI\PNP0400\1 00ff0008 parport
add ACPI\PNP0400\1 parport ok
assign ACPI\PNP0400\1 port:0x378-0x37f irq:7-7
START_DEVICE ACPI\PNP0400\1 parport ok
state ACPI\PNP0400\1 Started
listed ACPI\PNP0400\1
tree
0 HTREE\ROOT\0 Started
 1 ACPI\PNP0A03\0 Started
  2 PCI\VEN_1234&DEV_0001\0 Started
  3 PCI\VEN_1234&DEV_0002\0 Started
  4 PCI\VEN_1234&DEV_0003\1 Started
  5 PCI\VEN_1234&DEV_0009\2 Started
  6 ACPI\PNP0501\1 Started
  7 ACPI\PNP0400\1 Started
map
port:0x2f8-0x2ff ACPI\PNP0501\1
port:0x378-0x37f ACPI\PNP0400\1
port:0xc000-0xc03f PCI\VEN_1234&DEV_0002\0
port:0xc040-0xc04f PCI\VEN_1234&DEV_0003\1
port:0xc050-0xc05f PCI\VEN_1234&DEV_0009\2
irq:3-3 ACPI\PNP0501\1
irq:4-4 reserved
irq:7-7 ACPI\PNP0400\1
irq:14-14 PCI\VEN_1234&DEV_0003\1
irq:15-15 PCI\VEN_1234&DEV_0009\2
irq:16-16:shared PCI\VEN_1234&DEV_0001\0
irq:16-16:shared PCI\VEN_1234&DEV_0002\0
mem:0xe0000000-0xe0ffffff PCI\VEN_1234&DEV_0001\0
mem:0xe1000000-0xe101ffff PCI\VEN_1234&DEV_0002\0
outstanding
";

/// How many reads are short: more than there are bytes.
const READS: u64 = 2000;

/// The script and the INF, in pieces of at most so many bytes, write that text.
fn in_pieces(alloc: Global, most: u64) -> Result<(), Fail>
    requires { 1 ≤ most }
{
    let words = words_for(alloc, &[], 1)?;
    let mut files = files_for(alloc, SCRIPT.as_bytes(), &[INF])?;
    for call in 1..READS + 1 {
        files.short_at(call, most)?;
    }
    comes(alloc, &words, &mut files, (Status::Done, TEXT.as_bytes()))
}

#[test]
fn a_board_in_pieces(rt: HostRuntime) -> Result<(), Fail> {
    in_pieces(rt.alloc(), 1)?;
    in_pieces(rt.alloc(), 4096)
}
