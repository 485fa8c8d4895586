//! Scripts in which a running device is to have other resources: what is written.
use crate::infs::OWN_INF;
use crate::rows::Row;
use pnp_cli::Status;

/// It gets another interrupt.
const CHANGED_SCRIPT: &str = r"driver dev steady
plug HTREE\ROOT\0 OWN\DEV A need=irq:5
change OWN\DEV\A need=irq:6
";

const CHANGED_TEXT: &str = r"event driver dev
event plug OWN\DEV\A
join 1 OWN\DEV\A
listed HTREE\ROOT\0
install OWN\DEV\A 00ff0000 dev
add OWN\DEV\A dev ok
assign OWN\DEV\A irq:5-5
START_DEVICE OWN\DEV\A dev ok
state OWN\DEV\A Started
listed OWN\DEV\A
event change OWN\DEV\A
begin change OWN\DEV\A
QUERY_STOP_DEVICE OWN\DEV\A dev ok
state OWN\DEV\A StopPending
fits OWN\DEV\A
STOP_DEVICE OWN\DEV\A dev ok
state OWN\DEV\A Stopped
commit 1
START_DEVICE OWN\DEV\A dev ok
state OWN\DEV\A Started
end change OWN\DEV\A moved
tree
0 HTREE\ROOT\0 Started
 1 OWN\DEV\A Started
map
irq:6-6 OWN\DEV\A
outstanding
";

/// That interrupt is reserved.
const CHANGE_NOFIT_SCRIPT: &str = r"reserve irq:6
driver dev steady
plug HTREE\ROOT\0 OWN\DEV A need=irq:5
change OWN\DEV\A need=irq:6
";

const CHANGE_NOFIT_TEXT: &str = r"event reserve irq:6-6
event driver dev
event plug OWN\DEV\A
join 1 OWN\DEV\A
listed HTREE\ROOT\0
install OWN\DEV\A 00ff0000 dev
add OWN\DEV\A dev ok
assign OWN\DEV\A irq:5-5
START_DEVICE OWN\DEV\A dev ok
state OWN\DEV\A Started
listed OWN\DEV\A
event change OWN\DEV\A
begin change OWN\DEV\A
QUERY_STOP_DEVICE OWN\DEV\A dev ok
state OWN\DEV\A StopPending
nofit OWN\DEV\A
CANCEL_STOP_DEVICE OWN\DEV\A dev ok
state OWN\DEV\A Started
end change OWN\DEV\A nofit
tree
0 HTREE\ROOT\0 Started
 1 OWN\DEV\A Started
map
irq:5-5 OWN\DEV\A
irq:6-6 reserved
outstanding
";

/// The device refuses to stop.
const CHANGE_REFUSED_SCRIPT: &str = r"driver hard stubborn
plug HTREE\ROOT\0 OWN\HARD A need=irq:5
change OWN\HARD\A need=irq:6
";

const CHANGE_REFUSED_TEXT: &str = r"event driver hard
event plug OWN\HARD\A
join 1 OWN\HARD\A
listed HTREE\ROOT\0
install OWN\HARD\A 00ff0000 hard
add OWN\HARD\A hard ok
assign OWN\HARD\A irq:5-5
START_DEVICE OWN\HARD\A hard ok
state OWN\HARD\A Started
listed OWN\HARD\A
event change OWN\HARD\A
begin change OWN\HARD\A
QUERY_STOP_DEVICE OWN\HARD\A hard fail
state OWN\HARD\A Started
CANCEL_STOP_DEVICE OWN\HARD\A hard ok
state OWN\HARD\A Started
end change OWN\HARD\A refused
tree
0 HTREE\ROOT\0 Started
 1 OWN\HARD\A Started
map
irq:5-5 OWN\HARD\A
outstanding
";

pub const ROWS: &[Row] = &[
    Row {
        words: &[],
        infs: &[OWN_INF],
        script: CHANGED_SCRIPT,
        status: Status::Done,
        text: CHANGED_TEXT,
    },
    Row {
        words: &[],
        infs: &[OWN_INF],
        script: CHANGE_NOFIT_SCRIPT,
        status: Status::Done,
        text: CHANGE_NOFIT_TEXT,
    },
    Row {
        words: &[],
        infs: &[OWN_INF],
        script: CHANGE_REFUSED_SCRIPT,
        status: Status::Done,
        text: CHANGE_REFUSED_TEXT,
    },
];
