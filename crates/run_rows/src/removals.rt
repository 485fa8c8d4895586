//! Scripts in which devices are disabled or ejected: what is written.
use crate::infs::OWN_INF;
use crate::rows::Row;
use pnp_cli::Status;

/// A filter below the hub refuses.
const VETO_SCRIPT: &str = r"driver dev steady
driver low scripted
teach low QUERY_REMOVE_DEVICE OWN\FIL\2 fail
plug HTREE\ROOT\0 OWN\DEV H
plug OWN\DEV\H OWN\DEV 1
plug OWN\DEV\H OWN\FIL 2
plug OWN\DEV\H OWN\DEV 3
disable OWN\DEV\H
";

const VETO_TEXT: &str = r"event driver dev
event driver low
event teach low
event plug OWN\DEV\H
join 1 OWN\DEV\H
listed HTREE\ROOT\0
install OWN\DEV\H 00ff0000 dev
add OWN\DEV\H dev ok
assign OWN\DEV\H
START_DEVICE OWN\DEV\H dev ok
state OWN\DEV\H Started
listed OWN\DEV\H
event plug OWN\DEV\1
join 2 OWN\DEV\1
listed OWN\DEV\H
install OWN\DEV\1 00ff0000 dev
add OWN\DEV\1 dev ok
assign OWN\DEV\1
START_DEVICE OWN\DEV\1 dev ok
state OWN\DEV\1 Started
listed OWN\DEV\1
event plug OWN\FIL\2
join 3 OWN\FIL\2
listed OWN\DEV\H
install OWN\FIL\2 00ff0000 dev
add OWN\FIL\2 low ok
add OWN\FIL\2 dev ok
assign OWN\FIL\2
START_DEVICE OWN\FIL\2 low ok
START_DEVICE OWN\FIL\2 dev ok
state OWN\FIL\2 Started
listed OWN\FIL\2
event plug OWN\DEV\3
join 4 OWN\DEV\3
listed OWN\DEV\H
install OWN\DEV\3 00ff0000 dev
add OWN\DEV\3 dev ok
assign OWN\DEV\3
START_DEVICE OWN\DEV\3 dev ok
state OWN\DEV\3 Started
listed OWN\DEV\3
event disable OWN\DEV\H
begin disable OWN\DEV\H
QUERY_REMOVE_DEVICE OWN\DEV\3 dev ok
state OWN\DEV\3 RemovePending
QUERY_REMOVE_DEVICE OWN\FIL\2 dev ok
QUERY_REMOVE_DEVICE OWN\FIL\2 low fail
state OWN\FIL\2 Started
CANCEL_REMOVE_DEVICE OWN\FIL\2 low ok
CANCEL_REMOVE_DEVICE OWN\FIL\2 dev ok
state OWN\FIL\2 Started
CANCEL_REMOVE_DEVICE OWN\DEV\3 dev ok
state OWN\DEV\3 Started
end disable OWN\DEV\H veto OWN\FIL\2
tree
0 HTREE\ROOT\0 Started
 1 OWN\DEV\H Started
  2 OWN\DEV\1 Started
  3 OWN\FIL\2 Started
  4 OWN\DEV\3 Started
map
outstanding
";

/// A related device leaves first, and is held; a relation that would close a circle is refused.
const RELATED_SCRIPT: &str = r"driver dev steady
plug HTREE\ROOT\0 OWN\DEV A
plug HTREE\ROOT\0 OWN\DEV B
relate removal OWN\DEV\B OWN\DEV\A
relate removal OWN\DEV\A OWN\DEV\B
disable OWN\DEV\B
";

const RELATED_TEXT: &str = r"event driver dev
event plug OWN\DEV\A
join 1 OWN\DEV\A
listed HTREE\ROOT\0
install OWN\DEV\A 00ff0000 dev
add OWN\DEV\A dev ok
assign OWN\DEV\A
START_DEVICE OWN\DEV\A dev ok
state OWN\DEV\A Started
listed OWN\DEV\A
event plug OWN\DEV\B
join 2 OWN\DEV\B
listed HTREE\ROOT\0
install OWN\DEV\B 00ff0000 dev
add OWN\DEV\B dev ok
assign OWN\DEV\B
START_DEVICE OWN\DEV\B dev ok
state OWN\DEV\B Started
listed OWN\DEV\B
event relate OWN\DEV\B OWN\DEV\A
refused relate RelationCycle
event disable OWN\DEV\B
begin disable OWN\DEV\B
QUERY_REMOVE_DEVICE OWN\DEV\A dev ok
state OWN\DEV\A RemovePending
QUERY_REMOVE_DEVICE OWN\DEV\B dev ok
state OWN\DEV\B RemovePending
REMOVE_DEVICE OWN\DEV\A dev ok
state OWN\DEV\A NoStack
problem OWN\DEV\A held
REMOVE_DEVICE OWN\DEV\B dev ok
state OWN\DEV\B NoStack
problem OWN\DEV\B 22
end disable OWN\DEV\B done
tree
0 HTREE\ROOT\0 Started
 1 OWN\DEV\A NoStack problem held
 2 OWN\DEV\B NoStack problem 22
map
outstanding
";

/// A path stays disabled when its device goes and comes again.
const STAYS_DISABLED_SCRIPT: &str = r"driver dev steady
plug HTREE\ROOT\0 OWN\DEV 1
disable OWN\DEV\1
pull OWN\DEV\1
plug HTREE\ROOT\0 OWN\DEV 1
";

const STAYS_DISABLED_TEXT: &str = r"event driver dev
event plug OWN\DEV\1
join 1 OWN\DEV\1
listed HTREE\ROOT\0
install OWN\DEV\1 00ff0000 dev
add OWN\DEV\1 dev ok
assign OWN\DEV\1
START_DEVICE OWN\DEV\1 dev ok
state OWN\DEV\1 Started
listed OWN\DEV\1
event disable OWN\DEV\1
begin disable OWN\DEV\1
QUERY_REMOVE_DEVICE OWN\DEV\1 dev ok
state OWN\DEV\1 RemovePending
REMOVE_DEVICE OWN\DEV\1 dev ok
state OWN\DEV\1 NoStack
problem OWN\DEV\1 22
end disable OWN\DEV\1 done
event pull OWN\DEV\1
gone OWN\DEV\1
listed HTREE\ROOT\0
begin surprise OWN\DEV\1
leave OWN\DEV\1
end surprise OWN\DEV\1 done
event plug OWN\DEV\1
join 2 OWN\DEV\1
listed HTREE\ROOT\0
problem OWN\DEV\1 22
tree
0 HTREE\ROOT\0 Started
 2 OWN\DEV\1 NoStack problem 22
map
outstanding
";

/// A related device is ejected with another, and remains.
const EJECTED_SCRIPT: &str = r"driver dev steady
plug HTREE\ROOT\0 OWN\DEV A
plug HTREE\ROOT\0 OWN\DEV B
relate ejection OWN\DEV\B OWN\DEV\A
eject OWN\DEV\B
";

const EJECTED_TEXT: &str = r"event driver dev
event plug OWN\DEV\A
join 1 OWN\DEV\A
listed HTREE\ROOT\0
install OWN\DEV\A 00ff0000 dev
add OWN\DEV\A dev ok
assign OWN\DEV\A
START_DEVICE OWN\DEV\A dev ok
state OWN\DEV\A Started
listed OWN\DEV\A
event plug OWN\DEV\B
join 2 OWN\DEV\B
listed HTREE\ROOT\0
install OWN\DEV\B 00ff0000 dev
add OWN\DEV\B dev ok
assign OWN\DEV\B
START_DEVICE OWN\DEV\B dev ok
state OWN\DEV\B Started
listed OWN\DEV\B
event relate OWN\DEV\B OWN\DEV\A
event eject OWN\DEV\B
begin eject OWN\DEV\B
QUERY_REMOVE_DEVICE OWN\DEV\A dev ok
state OWN\DEV\A RemovePending
QUERY_REMOVE_DEVICE OWN\DEV\B dev ok
state OWN\DEV\B RemovePending
REMOVE_DEVICE OWN\DEV\A dev ok
state OWN\DEV\A NoStack
problem OWN\DEV\A 47
REMOVE_DEVICE OWN\DEV\B dev ok
state OWN\DEV\B NoStack
ejected OWN\DEV\B
end eject OWN\DEV\B done
tree
0 HTREE\ROOT\0 Started
 1 OWN\DEV\A NoStack problem 47
map
outstanding
";

/// A range in use is not reserved, and none while a request waits.
const IN_USE_SCRIPT: &str = r"driver dev scripted
teach dev QUERY_REMOVE_DEVICE * pend
plug HTREE\ROOT\0 OWN\DEV A need=irq:5
reserve irq:5-5
disable OWN\DEV\A
reserve irq:9-9
";

const IN_USE_TEXT: &str = r"event driver dev
event teach dev
event plug OWN\DEV\A
join 1 OWN\DEV\A
listed HTREE\ROOT\0
install OWN\DEV\A 00ff0000 dev
add OWN\DEV\A dev ok
assign OWN\DEV\A irq:5-5
START_DEVICE OWN\DEV\A dev ok
state OWN\DEV\A Started
listed OWN\DEV\A
refused reserve InUse
event disable OWN\DEV\A
begin disable OWN\DEV\A
QUERY_REMOVE_DEVICE OWN\DEV\A dev pend
refused reserve Busy
tree
0 HTREE\ROOT\0 Started
 1 OWN\DEV\A Started
map
irq:5-5 OWN\DEV\A
outstanding
OWN\DEV\A QUERY_REMOVE_DEVICE dev
";

/// Nor is a handle opened then.
const OPEN_WHILE_BUSY_SCRIPT: &str = r"driver dev scripted
teach dev QUERY_REMOVE_DEVICE * pend
plug HTREE\ROOT\0 OWN\DEV A need=irq:5
reserve irq:5-5
disable OWN\DEV\A
reserve irq:9-9
open OWN\DEV\A
";

const OPEN_WHILE_BUSY_TEXT: &str = r"event driver dev
event teach dev
event plug OWN\DEV\A
join 1 OWN\DEV\A
listed HTREE\ROOT\0
install OWN\DEV\A 00ff0000 dev
add OWN\DEV\A dev ok
assign OWN\DEV\A irq:5-5
START_DEVICE OWN\DEV\A dev ok
state OWN\DEV\A Started
listed OWN\DEV\A
refused reserve InUse
event disable OWN\DEV\A
begin disable OWN\DEV\A
QUERY_REMOVE_DEVICE OWN\DEV\A dev pend
refused reserve Busy
refused open Busy
tree
0 HTREE\ROOT\0 Started
 1 OWN\DEV\A Started
map
irq:5-5 OWN\DEV\A
outstanding
OWN\DEV\A QUERY_REMOVE_DEVICE dev
";

/// A disabled device is enabled.
const ENABLED_SCRIPT: &str = r"driver dev steady
plug HTREE\ROOT\0 OWN\DEV 1
disable OWN\DEV\1
enable OWN\DEV\1
";

const ENABLED_TEXT: &str = r"event driver dev
event plug OWN\DEV\1
join 1 OWN\DEV\1
listed HTREE\ROOT\0
install OWN\DEV\1 00ff0000 dev
add OWN\DEV\1 dev ok
assign OWN\DEV\1
START_DEVICE OWN\DEV\1 dev ok
state OWN\DEV\1 Started
listed OWN\DEV\1
event disable OWN\DEV\1
begin disable OWN\DEV\1
QUERY_REMOVE_DEVICE OWN\DEV\1 dev ok
state OWN\DEV\1 RemovePending
REMOVE_DEVICE OWN\DEV\1 dev ok
state OWN\DEV\1 NoStack
problem OWN\DEV\1 22
end disable OWN\DEV\1 done
event enable OWN\DEV\1
install OWN\DEV\1 00ff0000 dev
add OWN\DEV\1 dev ok
assign OWN\DEV\1
START_DEVICE OWN\DEV\1 dev ok
state OWN\DEV\1 Started
listed OWN\DEV\1
tree
0 HTREE\ROOT\0 Started
 1 OWN\DEV\1 Started
map
outstanding
";

/// A device is to be disabled while a handle to it is open.
const HELD_OPEN_SCRIPT: &str = r"driver dev steady
plug HTREE\ROOT\0 OWN\DEV 1
open OWN\DEV\1
disable OWN\DEV\1
close OWN\DEV\1
close OWN\DEV\1
";

const HELD_OPEN_TEXT: &str = r"event driver dev
event plug OWN\DEV\1
join 1 OWN\DEV\1
listed HTREE\ROOT\0
install OWN\DEV\1 00ff0000 dev
add OWN\DEV\1 dev ok
assign OWN\DEV\1
START_DEVICE OWN\DEV\1 dev ok
state OWN\DEV\1 Started
listed OWN\DEV\1
event open OWN\DEV\1
event disable OWN\DEV\1
begin disable OWN\DEV\1
handles OWN\DEV\1
end disable OWN\DEV\1 veto OWN\DEV\1
event close OWN\DEV\1
refused close NoHandle
tree
0 HTREE\ROOT\0 Started
 1 OWN\DEV\1 Started
map
outstanding
";

pub const ROWS: &[Row] = &[
    Row {
        words: &[],
        infs: &[OWN_INF],
        script: VETO_SCRIPT,
        status: Status::Done,
        text: VETO_TEXT,
    },
    Row {
        words: &[],
        infs: &[OWN_INF],
        script: RELATED_SCRIPT,
        status: Status::Done,
        text: RELATED_TEXT,
    },
    Row {
        words: &[],
        infs: &[OWN_INF],
        script: STAYS_DISABLED_SCRIPT,
        status: Status::Done,
        text: STAYS_DISABLED_TEXT,
    },
    Row {
        words: &[],
        infs: &[OWN_INF],
        script: EJECTED_SCRIPT,
        status: Status::Done,
        text: EJECTED_TEXT,
    },
    Row {
        words: &[],
        infs: &[OWN_INF],
        script: IN_USE_SCRIPT,
        status: Status::Done,
        text: IN_USE_TEXT,
    },
    Row {
        words: &[],
        infs: &[OWN_INF],
        script: OPEN_WHILE_BUSY_SCRIPT,
        status: Status::Done,
        text: OPEN_WHILE_BUSY_TEXT,
    },
    Row {
        words: &[],
        infs: &[OWN_INF],
        script: ENABLED_SCRIPT,
        status: Status::Done,
        text: ENABLED_TEXT,
    },
    Row {
        words: &[],
        infs: &[OWN_INF],
        script: HELD_OPEN_SCRIPT,
        status: Status::Done,
        text: HELD_OPEN_TEXT,
    },
];
