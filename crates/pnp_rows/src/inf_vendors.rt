//! INFs in the style of those that come with hardware, with all that is read over in them.
use crate::inf_told::{WHOLE, all_give, gives};
use std::alloc::Global;
use std::test::Fail;

/// A network adapter, for several systems.
const NET: &str = r#";------------------------------------------------------------
; Gigabit adapters, two generations of system
;------------------------------------------------------------
[Version]
Signature   = "$Windows NT$"
Class       = Net
ClassGUID   = {4d36e972-e325-11ce-bfc1-08002be10318}
Provider    = %Vendor%
CatalogFile = gbe.cat
DriverVer   = 11/05/2019,12.18.9.8

[Manufacturer]
%Vendor% = Gbe, NTx86.10.0, NTamd64.10.0, NTamd64.10.0...17763

[ControlFlags]
ExcludeFromSelect = \
    PCI\VEN_A0A0&DEV_1533,\
    PCI\VEN_A0A0&DEV_1536

[Gbe.NTx86.10.0]
%Gbe1533.Desc% = Old_Install, PCI\VEN_A0A0&DEV_1533

[Gbe.NTamd64.10.0]
; the one with a subsystem first
%Gbe1533.Desc% = Gbe1533, PCI\VEN_A0A0&DEV_1533&SUBSYS_00008086, \
                          PCI\VEN_A0A0&DEV_1533
%Gbe1536.Desc% = Gbe1536, PCI\VEN_A0A0&DEV_1536
%Gbe1536.Desc% = Gbe1536.Wol, PCI\VEN_A0A0&DEV_1537 ; with wake

[Gbe1533.ndi.NT]
AddReg = Unused.Reg

[Gbe1533.NTamd64]
FeatureScore    = 0xD0
Characteristics = 0x84 ; NCF_HAS_UI | NCF_PHYSICAL
BusType         = 5
AddReg          = Gbe.Reg
CopyFiles       = Gbe.CopyFiles
Include         = netvbase.inf
Needs           = Base.Install

[Gbe1533.NTamd64.Services]
Include    = netvbase.inf
AddService = vmsproxy,, Proxy.Service
AddService = gbeexpress, 2, Gbe.Service, Gbe.EventLog

[Gbe1533.NTamd64.HW]
AddReg = Msi.Reg, Filter.Reg

[Msi.Reg]
HKR, "Interrupt Management", 0x00000010
HKR, "Interrupt Management\MessageSignaledInterruptProperties", MSISupported, 0x00010001, 1

[Filter.Reg]
HKR,,"UpperFilters",0x00010008,"gbeup","gbetop"
HKR,,"LowerFilters",0x00010008,"gbelow"

[Gbe1536]
AddReg = Gbe.Reg

[Gbe1536.Services]
AddService = gbeexpress, %SPSVCINST_ASSOCSERVICE%, Gbe.Service

[Gbe1536.Wol.NT]
FeatureScore = E0

[Gbe1536.Wol.NT.Services]
AddService = gbewol, 0x00000802, Gbe.Service

[Gbe.Service]
DisplayName   = %Gbe1533.Desc%
ServiceType   = 1 ; SERVICE_KERNEL_DRIVER
ServiceBinary = %13%\gbe.sys

[Strings]
Vendor         = "Own Networks; Inc."
Gbe1533.Desc   = "Own ""Gigabit"" Adapter"
Gbe1536.Desc   = "Own Gigabit Adapter, server"
SPSVCINST_ASSOCSERVICE = 0x00000002
"#;

const NET_GIVES: &str = "20191105 3377777030529032\n\
    25 208 =gbeexpress ids|PCI\\VEN_A0A0&DEV_1533&SUBSYS_00008086|PCI\\VEN_A0A0&DEV_1533 lower|gbelow upper|gbeup|gbetop\n\
    27 255 =gbeexpress ids|PCI\\VEN_A0A0&DEV_1536 lower upper\n\
    28 224 =gbewol ids|PCI\\VEN_A0A0&DEV_1537 lower upper\n";

/// A sound card of old, with logical configurations.
const AUDIO: &str = r#"[Version]
Signature="$CHICAGO$"
Class=MEDIA
Provider=%Mfg%
DriverVer=07-01-2001,5.1.2600
LayoutFile=layout.inf, layout1.inf
[Manufacturer]
%Mfg%=Models
"Second name"=More,NT
[DestinationDirs]
DefaultDestDir=12
[Models]
%Wave%=WaveInst,*OWN0001,PNPB003
%Joy%=Joy,*OWN7001
[More.NT]
%Midi%=Midi,*OWN0002,,*OWN0003
[WaveInst]
AlsoInstall=ks.registration(ks.inf)
LogConfig=Lc1,Lc2
FeatureScore=64
[Lc1]
ConfigPriority=NORMAL
IOConfig=220-22F(3FF::)
IRQConfig=5,7,10
DMAConfig=0,1,3
[Lc2]
ConfigPriority=HARDWIRED
[WaveInst.Services]
AddService=ownwave,0x00000002,Svc
[WaveInst.Interfaces]
AddInterface=%KSCATEGORY_AUDIO%,"Wave",Wave.Interface
[Joy.NT]
[Joy.NT.Services]
AddService=,0x00000002
[Midi]
[Midi.HW]
AddReg=Midi.Reg
[Midi.Reg]
HKR,,LowerFilters,0x00010000,%Low%
HKR,,DevLoader,,*ntkern
HKR,,NTMPDriver,,ownmidi.sys
[Svc]
ServiceType=%SERVICE_KERNEL_DRIVER%
[Strings]
Mfg="Own Sounds"
Wave="Own wave device"
Joy="Own game port"
Midi="Own MIDI"
Low="ownlow"
KSCATEGORY_AUDIO="{6994AD04-93EF-11D0-A3CC-00A0C9223196}"
SERVICE_KERNEL_DRIVER=1
"#;

const AUDIO_GIVES: &str = "20010701 1407379348914176\n\
    13 64 =ownwave ids|*OWN0001|PNPB003 lower upper\n\
    14 255 - ids|*OWN7001 lower upper\n\
    16 255 - ids|*OWN0002||*OWN0003 lower|ownlow upper\n";

/// A function of a bus, whose driver is the system's own.
const USB: &str = r#"; A function that the system's own driver serves.
[Version]
Signature = "$Windows NT$"
Class     = USBDevice
Provider  = %ManufacturerName%
CatalogFile      = own.cat
CatalogFile.NTamd64 = own64.cat
DriverVer = 12/31/2022,1.0
PnpLockdown = 1

[Manufacturer]
%ManufacturerName% = Standard,NTamd64,NTarm64

[Standard.NTamd64]
%DeviceName% = USB_Install, USB\VID_1209&PID_0001
%DeviceName% = USB_Install, USB\VID_1209&PID_0002&MI_00
"%DeviceName% (%Unknown%)" = USB_Install, USB\VID_1209&PID_%Pid%

[Standard.NTarm64]
%DeviceName% = USB_Arm, USB\VID_1209&PID_0001

[USB_Install]
Include = winusb.inf
Needs   = WINUSB.NT

[USB_Install.Services]
Include = winusb.inf
AddService = WinUsb,0x00000002,WinUsb_ServiceInstall

[WinUsb_ServiceInstall]
ServiceType = 1

[USB_Install.HW]
AddReg = Dev_AddReg

[Dev_AddReg]
HKR,,DeviceInterfaceGUIDs,0x10000,"{9f543223-cede-4fa3-b376-a25ce9a30e74}"
HKR,,UpperFilters,0x00010000,ownup1
HKR,,UpperFilters,0x00010000,ownup2,"own up 3"

[Strings]
ManufacturerName="Own ""USB"" maker"
DeviceName="Own device"
Pid=00FF
"#;

const USB_GIVES: &str = "20221231 281474976710656\n\
    15 255 =WinUsb ids|USB\\VID_1209&PID_0001 lower upper|ownup1|ownup2|own up 3\n\
    16 255 =WinUsb ids|USB\\VID_1209&PID_0002&MI_00 lower upper|ownup1|ownup2|own up 3\n\
    17 255 =WinUsb ids|USB\\VID_1209&PID_00FF lower upper|ownup1|ownup2|own up 3\n";

/// Printers, with files in place of sections.
const PRINTER: &str = r#"[Version]
Signature="$Windows NT$"
Class=Printer
DriverVer=1/2/2003,4.05.006.0007
[Manufacturer]
"Own"=Own,NTx86,NTia64,NT
"Other"
=Third
Fourth,NT
[Own]
"Printer, nine-pin"=NINE.GPD,LPTENUM\OwnNine1234
[Own.NT]
"Printer, nine-pin" = NINE.GPD,LPTENUM\OwnNine1234,OwnNine
"Printer; laser"    = LASER,USBPRINT\OwnLaser77F0,LPTENUM\OwnLaser77F0,OwnLaser,,OwnGeneric
[Third]
"Third's"=THIRD,THIRD\1
[Fourth]
"never"=NEVER,NEVER\1
[Fourth.NT]
Fourth model=FOURTH,"FOURTH\1"
[NINE.GPD]
CopyFiles=@NINE.GPD
DataFile=NINE.GPD
[LASER.NT]
FeatureScore=00000
[LASER]
FeatureScore=255
[FOURTH.NTAMD64]
FeatureScore=7f
[FOURTH.NTAMD64.SERVICES]
AddService="fourth",2
"#;

const PRINTER_GIVES: &str = "20030102 1125921382072327\n\
    13 255 - ids|LPTENUM\\OwnNine1234|OwnNine lower upper\n\
    14 0 - ids|USBPRINT\\OwnLaser77F0|LPTENUM\\OwnLaser77F0|OwnLaser||OwnGeneric lower upper\n\
    16 255 - ids|THIRD\\1 lower upper\n\
    20 127 =fourth ids|FOURTH\\1 lower upper\n";

/// An INF in another language, all in strings.
const WIDE: &str = r#"[Version]
Signature=$Windows NT$
DriverVer=%Datum%,%Fassung%
[Manufacturer]
%Hersteller%=Geräte,%Ziel%
[Geräte.ntAMD64.6.1]
%Gerät%=Gerät_Inst,EIGEN\GERÄT,%Zweite%
%Zweite%=%Gerät%,EIGEN\ZWEI
[Gerät_Inst]
[Gerät_Inst.Services]
AddService=%Dienst%,%Zwei%
[EIGENES GERÄT]
[Eigenes Gerät]
FeatureScore=%Punkte%
[Strings]
Hersteller="Eigene Geräte GmbH"
Gerät="Eigenes Gerät"
Dienst="dienst"
Zweite="EIGEN\NR%%2"
Ziel=NTamd64.6.1
Datum=05-04-2011
Fassung=6.1.7601.17514
Zwei="0x2"
Punkte=1
[Strings.0409]
Gerät="Own device"
Punkte=300
"#;

const WIDE_GIVES: &str = "20110504 1688854653387882\n\
    7 255 =dienst ids|EIGEN\\GER\u{C4}T|EIGEN\\NR%%2 lower upper\n\
    8 1 - ids|EIGEN\\ZWEI lower upper\n";

/// A storage controller, all in small letters.
const STORAGE: &str = r#"[version]
signature="$windows nt$"
driverver=06/21/2006,10.0.22621.1
[manufacturer]
%mfg%=list,ntamd64.10.0...16299,ntamd64
%gen%=list.generic
[list.ntamd64]
;%a.desc%=a_inst,pci\cc_010601
%a.desc%=a_inst,pci\ven_1111&dev_2222&cc_010601
%b.desc%=b_inst,pci\ven_1111&dev_2223,pci\ven_1111&cc_0104,pci\cc_0104
[list.generic]
%g.desc%=a_inst,pci\cc_010601,pci\cc_0106
[list.ntamd64.10.0...16299]
%a.desc%=never,never
[a_inst.ntamd64]
copyfiles=@a.sys
[a_inst.ntamd64.hw]
addreg=a_hw,b_hw
[a_inst.ntamd64.services]
addservice=astor,%flags%,svc
[a_hw]
hkr,,"lowerfilters",%multi%,"alow"
hkr,"parameters",busytype,%dword%,3
hkr,,"upperfilters",%multi%,,"aup",""
[b_hw]
hkr,,"lowerfilters",%multi%,"blow"
hkr,,"lowerfilters",%dword%,"clow"
[b_inst.nt.services]
addservice=never,2
[b_inst.services]
addservice=bstor,0x00000006,svc
[b_inst.hw]
addreg=b_hw
[svc]
servicetype=1
[strings]
mfg=m
gen=g
flags="0x00000003"
multi="0x00010000"
dword="0x00010001"
"#;

const STORAGE_GIVES: &str = "20060621 2814751249596417\n\
    9 255 =astor ids|pci\\ven_1111&dev_2222&cc_010601 lower|alow|blow|clow upper|aup\n\
    10 255 =bstor ids|pci\\ven_1111&dev_2223|pci\\ven_1111&cc_0104|pci\\cc_0104 lower|blow|clow upper\n\
    12 255 =astor ids|pci\\cc_010601|pci\\cc_0106 lower|alow|blow|clow upper|aup\n";

const VENDORS: &[(&str, &str)] = &[
    (NET, NET_GIVES),
    (AUDIO, AUDIO_GIVES),
    (USB, USB_GIVES),
    (PRINTER, PRINTER_GIVES),
    (WIDE, WIDE_GIVES),
    (STORAGE, STORAGE_GIVES),
];

/// What is damaged in the first of them, what stands there then, and the refusal: a score that is none, a header without its end.
const DAMAGED: &[(&str, &str, &str)] = &[
    ("= 0xD0", "= 0x1D0", "refused 5 34\n"),
    ("[Gbe.Service]", "[Gbe.Service", "refused 2 70\n"),
];

/// The first of them gives this, where what it says is damaged.
fn damaged_gives(alloc: Global, old: &str, new: &str, want: &str) -> Result<(), Fail> {
    let bad = NET.replace(alloc, old, new)?;
    gives(alloc, bad.as_bytes(), want)
}

#[test]
fn vendors(rt: HostRuntime) -> Result<(), Fail> {
    all_give(rt.alloc(), WHOLE, VENDORS)
}

#[test]
fn damaged(rt: HostRuntime) -> Result<(), Fail> {
    for (old, new, want) in DAMAGED {
        damaged_gives(rt.alloc(), old, new, want)?;
    }
    Ok(())
}
