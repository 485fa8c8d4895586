//! INFs of the scripts.

/// Devices, some of whose drivers refuse to stop, and some with a filter.
pub const OWN_INF: &[u8] = br#"[Version]
Signature="$Windows NT$"
DriverVer=01/01/2020,1.0.0.0
[Manufacturer]
Own=M
[M]
Device=I,OWN\DEV
Hard one=J,OWN\HARD
Filtered=K,OWN\FIL
[I.Services]
AddService=dev,2,S
[J.Services]
AddService=hard,2,S
[K.Services]
AddService=dev,2,S
[K.HW]
AddReg=R
[R]
HKR,,"LowerFilters",0x00010000,"low"
"#;

/// The match of a compatible ID, of a late date.
pub const NEW_INF: &[u8] = br#"[Version]
Signature="$Windows NT$"
DriverVer=06/01/2024,1.0.0.0
[Manufacturer]
Own=M
[M]
Device=N,OWN\ANY
[N.Services]
AddService=new,2,T
"#;

/// The match of a hardware ID.
pub const OLD_INF: &[u8] = br#"[Version]
Signature="$Windows NT$"
DriverVer=01/01/2020,1.0.0.0
[Manufacturer]
Own=M
[M]
Device=N,OWN\X
[N.Services]
AddService=old,2,T
"#;

/// The same, a day later.
pub const LATE_INF: &[u8] = br#"[Version]
Signature="$Windows NT$"
DriverVer=01/02/2020,1.0.0.0
[Manufacturer]
Own=M
[M]
Device=N,OWN\X
[N.Services]
AddService=late,2,T
"#;

/// The same, of a higher version.
pub const HIGH_INF: &[u8] = br#"[Version]
Signature="$Windows NT$"
DriverVer=01/02/2020,1.0.0.1
[Manufacturer]
Own=M
[M]
Device=N,OWN\X
[N.Services]
AddService=high,2,T
"#;
