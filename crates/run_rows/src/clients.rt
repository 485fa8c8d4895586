//! Scripts in which clients are registered on a device: what is written.
use crate::infs::OWN_INF;
use crate::rows::Row;
use pnp_cli::Status;

/// A client refuses, so a disable does not begin; it cannot be registered twice.
const REFUSED_BY_A_CLIENT_SCRIPT: &str = r"driver dev steady
plug HTREE\ROOT\0 OWN\DEV 1
watch ed OWN\DEV\1 refuse
disable OWN\DEV\1
watch ed OWN\DEV\1 ok
";

const REFUSED_BY_A_CLIENT_TEXT: &str = r"event driver dev
event plug OWN\DEV\1
join 1 OWN\DEV\1
listed HTREE\ROOT\0
install OWN\DEV\1 00ff0000 dev
add OWN\DEV\1 dev ok
assign OWN\DEV\1
START_DEVICE OWN\DEV\1 dev ok
state OWN\DEV\1 Started
listed OWN\DEV\1
event watch ed OWN\DEV\1
event disable OWN\DEV\1
notice QUERY_REMOVE ed OWN\DEV\1 refuse
declined disable OWN\DEV\1 ed
refused watch SameWatch
tree
0 HTREE\ROOT\0 Started
 1 OWN\DEV\1 Started
map
outstanding
";

/// A driver refuses after all clients agreed, and then nobody does.
const VETOED_AND_DONE_SCRIPT: &str = r"driver dev scripted
teach dev QUERY_REMOVE_DEVICE * fail 1
plug HTREE\ROOT\0 OWN\DEV 1
watch a OWN\DEV\1 ok
watch b OWN\DEV\1 ok
disable OWN\DEV\1
disable OWN\DEV\1
";

const VETOED_AND_DONE_TEXT: &str = r"event driver dev
event teach dev
event plug OWN\DEV\1
join 1 OWN\DEV\1
listed HTREE\ROOT\0
install OWN\DEV\1 00ff0000 dev
add OWN\DEV\1 dev ok
assign OWN\DEV\1
START_DEVICE OWN\DEV\1 dev ok
state OWN\DEV\1 Started
listed OWN\DEV\1
event watch a OWN\DEV\1
event watch b OWN\DEV\1
event disable OWN\DEV\1
notice QUERY_REMOVE a OWN\DEV\1 ok
notice QUERY_REMOVE b OWN\DEV\1 ok
begin disable OWN\DEV\1
QUERY_REMOVE_DEVICE OWN\DEV\1 dev fail
state OWN\DEV\1 Started
CANCEL_REMOVE_DEVICE OWN\DEV\1 dev ok
state OWN\DEV\1 Started
end disable OWN\DEV\1 veto OWN\DEV\1
notice REMOVE_CANCELLED b OWN\DEV\1
notice REMOVE_CANCELLED a OWN\DEV\1
event disable OWN\DEV\1
notice QUERY_REMOVE a OWN\DEV\1 ok
notice QUERY_REMOVE b OWN\DEV\1 ok
begin disable OWN\DEV\1
QUERY_REMOVE_DEVICE OWN\DEV\1 dev ok
state OWN\DEV\1 RemovePending
REMOVE_DEVICE OWN\DEV\1 dev ok
state OWN\DEV\1 NoStack
problem OWN\DEV\1 22
end disable OWN\DEV\1 done
notice REMOVE_COMPLETE a OWN\DEV\1
notice REMOVE_COMPLETE b OWN\DEV\1
tree
0 HTREE\ROOT\0 Started
 1 OWN\DEV\1 NoStack problem 22
map
outstanding
";

pub const ROWS: &[Row] = &[
    Row {
        words: &[],
        infs: &[OWN_INF],
        script: REFUSED_BY_A_CLIENT_SCRIPT,
        status: Status::Done,
        text: REFUSED_BY_A_CLIENT_TEXT,
    },
    Row {
        words: &[],
        infs: &[OWN_INF],
        script: VETOED_AND_DONE_SCRIPT,
        status: Status::Done,
        text: VETOED_AND_DONE_TEXT,
    },
];
