//! Scripts with the INF of their devices, and what is written for them.
use crate::infs::OWN_INF;
use crate::runs::{ended, files_of, rack_of};
use pnp_cli::Status;
use pnp_io::{MemFiles, MemSink};
use std::alloc::Global;
use std::test::Fail;

/// The words of a script with an INF.
pub const NAMED: [&str; 3] = ["pnpmgr", "s", "1"];

/// The files of a script with that INF.
pub fn named(alloc: Global, script: &str) -> Result<MemFiles, Fail> {
    files_of(alloc, &[("s", script.as_bytes()), ("1", OWN_INF)])
}

/// The status of such a run over these files, with two Scripted drivers, four Steady ones and a Stubborn one.
pub fn ended_over(
    alloc: Global,
    words: &[&str],
    files: &mut MemFiles,
    sink: &mut MemSink,
) -> Result<Status, Fail> {
    let rack = rack_of(alloc, 2, 4, 1)?;
    ended(alloc, words, rack, files, sink)
}

/// The status of a script with that INF.
pub fn ended_into(alloc: Global, script: &str, sink: &mut MemSink) -> Result<Status, Fail> {
    let mut files = named(alloc, script)?;
    ended_over(alloc, &NAMED, &mut files, sink)
}

/// One device starts.
pub const ONE_DEVICE_SCRIPT: &str = r"driver dev steady
plug HTREE\ROOT\0 OWN\DEV 1
";

pub const ONE_DEVICE_TEXT: &str = r"event driver dev
event plug OWN\DEV\1
join 1 OWN\DEV\1
listed HTREE\ROOT\0
install OWN\DEV\1 00ff0000 dev
add OWN\DEV\1 dev ok
assign OWN\DEV\1
START_DEVICE OWN\DEV\1 dev ok
state OWN\DEV\1 Started
listed OWN\DEV\1
tree
0 HTREE\ROOT\0 Started
 1 OWN\DEV\1 Started
map
outstanding
";

/// A rebalance in which two devices move.
pub const CHAIN_SCRIPT: &str = r"driver dev steady
plug HTREE\ROOT\0 OWN\DEV A need=irq:3-4
plug HTREE\ROOT\0 OWN\DEV B need=irq:4-5
plug HTREE\ROOT\0 OWN\DEV D need=irq:3
";

pub const CHAIN_TEXT: &str = r"event driver dev
event plug OWN\DEV\A
join 1 OWN\DEV\A
listed HTREE\ROOT\0
install OWN\DEV\A 00ff0000 dev
add OWN\DEV\A dev ok
assign OWN\DEV\A irq:3-3
START_DEVICE OWN\DEV\A dev ok
state OWN\DEV\A Started
listed OWN\DEV\A
event plug OWN\DEV\B
join 2 OWN\DEV\B
listed HTREE\ROOT\0
install OWN\DEV\B 00ff0000 dev
add OWN\DEV\B dev ok
assign OWN\DEV\B irq:4-4
START_DEVICE OWN\DEV\B dev ok
state OWN\DEV\B Started
listed OWN\DEV\B
event plug OWN\DEV\D
join 3 OWN\DEV\D
listed HTREE\ROOT\0
install OWN\DEV\D 00ff0000 dev
add OWN\DEV\D dev ok
nofit OWN\DEV\D
begin rebalance OWN\DEV\D
QUERY_STOP_DEVICE OWN\DEV\B dev ok
state OWN\DEV\B StopPending
QUERY_STOP_DEVICE OWN\DEV\A dev ok
state OWN\DEV\A StopPending
fits OWN\DEV\D
STOP_DEVICE OWN\DEV\B dev ok
state OWN\DEV\B Stopped
STOP_DEVICE OWN\DEV\A dev ok
state OWN\DEV\A Stopped
commit 3
START_DEVICE OWN\DEV\A dev ok
state OWN\DEV\A Started
START_DEVICE OWN\DEV\B dev ok
state OWN\DEV\B Started
end rebalance OWN\DEV\D moved
START_DEVICE OWN\DEV\D dev ok
state OWN\DEV\D Started
listed OWN\DEV\D
tree
0 HTREE\ROOT\0 Started
 1 OWN\DEV\A Started
 2 OWN\DEV\B Started
 3 OWN\DEV\D Started
map
irq:3-3 OWN\DEV\D
irq:4-4 OWN\DEV\A
irq:5-5 OWN\DEV\B
outstanding
";

/// A veto, after which the devices that agreed are told.
pub const VETO_SCRIPT: &str = r"driver dev steady
driver low scripted
teach low QUERY_REMOVE_DEVICE OWN\FIL\2 fail
plug HTREE\ROOT\0 OWN\DEV H
plug OWN\DEV\H OWN\DEV 1
plug OWN\DEV\H OWN\FIL 2
plug OWN\DEV\H OWN\DEV 3
disable OWN\DEV\H
";

pub const VETO_TEXT: &str = r"event driver dev
event driver low
event teach low
event plug OWN\DEV\H
join 1 OWN\DEV\H
listed HTREE\ROOT\0
install OWN\DEV\H 00ff0000 dev
add OWN\DEV\H dev ok
assign OWN\DEV\H
START_DEVICE OWN\DEV\H dev ok
state OWN\DEV\H Started
listed OWN\DEV\H
event plug OWN\DEV\1
join 2 OWN\DEV\1
listed OWN\DEV\H
install OWN\DEV\1 00ff0000 dev
add OWN\DEV\1 dev ok
assign OWN\DEV\1
START_DEVICE OWN\DEV\1 dev ok
state OWN\DEV\1 Started
listed OWN\DEV\1
event plug OWN\FIL\2
join 3 OWN\FIL\2
listed OWN\DEV\H
install OWN\FIL\2 00ff0000 dev
add OWN\FIL\2 low ok
add OWN\FIL\2 dev ok
assign OWN\FIL\2
START_DEVICE OWN\FIL\2 low ok
START_DEVICE OWN\FIL\2 dev ok
state OWN\FIL\2 Started
listed OWN\FIL\2
event plug OWN\DEV\3
join 4 OWN\DEV\3
listed OWN\DEV\H
install OWN\DEV\3 00ff0000 dev
add OWN\DEV\3 dev ok
assign OWN\DEV\3
START_DEVICE OWN\DEV\3 dev ok
state OWN\DEV\3 Started
listed OWN\DEV\3
event disable OWN\DEV\H
begin disable OWN\DEV\H
QUERY_REMOVE_DEVICE OWN\DEV\3 dev ok
state OWN\DEV\3 RemovePending
QUERY_REMOVE_DEVICE OWN\FIL\2 dev ok
QUERY_REMOVE_DEVICE OWN\FIL\2 low fail
state OWN\FIL\2 Started
CANCEL_REMOVE_DEVICE OWN\FIL\2 low ok
CANCEL_REMOVE_DEVICE OWN\FIL\2 dev ok
state OWN\FIL\2 Started
CANCEL_REMOVE_DEVICE OWN\DEV\3 dev ok
state OWN\DEV\3 Started
end disable OWN\DEV\H veto OWN\FIL\2
tree
0 HTREE\ROOT\0 Started
 1 OWN\DEV\H Started
  2 OWN\DEV\1 Started
  3 OWN\FIL\2 Started
  4 OWN\DEV\3 Started
map
outstanding
";

/// A rebalance in which a device does not start again.
pub const FAILED_RESTART_SCRIPT: &str = r"driver dev scripted
teach dev START_DEVICE OWN\DEV\H ok 1
teach dev START_DEVICE OWN\DEV\H fail
plug HTREE\ROOT\0 OWN\DEV H need=irq:5-6
plug OWN\DEV\H OWN\DEV C
plug HTREE\ROOT\0 OWN\DEV D need=irq:5
";

pub const FAILED_RESTART_TEXT: &str = r"event driver dev
event teach dev
event teach dev
event plug OWN\DEV\H
join 1 OWN\DEV\H
listed HTREE\ROOT\0
install OWN\DEV\H 00ff0000 dev
add OWN\DEV\H dev ok
assign OWN\DEV\H irq:5-5
START_DEVICE OWN\DEV\H dev ok
state OWN\DEV\H Started
listed OWN\DEV\H
event plug OWN\DEV\C
join 2 OWN\DEV\C
listed OWN\DEV\H
install OWN\DEV\C 00ff0000 dev
add OWN\DEV\C dev ok
assign OWN\DEV\C
START_DEVICE OWN\DEV\C dev ok
state OWN\DEV\C Started
listed OWN\DEV\C
event plug OWN\DEV\D
join 3 OWN\DEV\D
listed HTREE\ROOT\0
install OWN\DEV\D 00ff0000 dev
add OWN\DEV\D dev ok
nofit OWN\DEV\D
begin rebalance OWN\DEV\D
QUERY_STOP_DEVICE OWN\DEV\C dev ok
state OWN\DEV\C StopPending
QUERY_STOP_DEVICE OWN\DEV\H dev ok
state OWN\DEV\H StopPending
fits OWN\DEV\D
STOP_DEVICE OWN\DEV\C dev ok
state OWN\DEV\C Stopped
STOP_DEVICE OWN\DEV\H dev ok
state OWN\DEV\H Stopped
commit 3
START_DEVICE OWN\DEV\H dev fail
state OWN\DEV\H Stopped
problem OWN\DEV\H 10
end rebalance OWN\DEV\D moved
START_DEVICE OWN\DEV\D dev ok
state OWN\DEV\D Started
begin surprise OWN\DEV\H
SURPRISE_REMOVAL OWN\DEV\C dev ok
state OWN\DEV\C SurpriseRemoved
SURPRISE_REMOVAL OWN\DEV\H dev ok
state OWN\DEV\H SurpriseRemoved
REMOVE_DEVICE OWN\DEV\C dev ok
state OWN\DEV\C NoStack
leave OWN\DEV\C
REMOVE_DEVICE OWN\DEV\H dev ok
state OWN\DEV\H NoStack
end surprise OWN\DEV\H done
listed OWN\DEV\D
tree
0 HTREE\ROOT\0 Started
 1 OWN\DEV\H NoStack problem 10
 3 OWN\DEV\D Started
map
irq:5-5 OWN\DEV\D
outstanding
";
