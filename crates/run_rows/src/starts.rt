//! Scripts in which devices join and start, or do not: what is written.
use crate::infs::OWN_INF;
use crate::rows::Row;
use pnp_cli::Status;

/// No line.
const EMPTY_SCRIPT: &str = r"";

const EMPTY_TEXT: &str = r"tree
0 HTREE\ROOT\0 Started
map
outstanding
";

/// A device that no INF matches; and one of the same path.
const PLUGGED_TWICE_SCRIPT: &str = r"driver dev steady
plug HTREE\ROOT\0 OWN\DEV 1
plug HTREE\ROOT\0 OWN\DEV 1
";

const PLUGGED_TWICE_TEXT: &str = r"event driver dev
event plug OWN\DEV\1
join 1 OWN\DEV\1
listed HTREE\ROOT\0
problem OWN\DEV\1 28
refused plug SameId
tree
0 HTREE\ROOT\0 Started
 1 OWN\DEV\1 NoStack problem 28
map
outstanding
";

/// One device starts.
const ONE_DEVICE_SCRIPT: &str = r"driver dev steady
plug HTREE\ROOT\0 OWN\DEV 1
";

const ONE_DEVICE_TEXT: &str = r"event driver dev
event plug OWN\DEV\1
join 1 OWN\DEV\1
listed HTREE\ROOT\0
install OWN\DEV\1 00ff0000 dev
add OWN\DEV\1 dev ok
assign OWN\DEV\1
START_DEVICE OWN\DEV\1 dev ok
state OWN\DEV\1 Started
listed OWN\DEV\1
tree
0 HTREE\ROOT\0 Started
 1 OWN\DEV\1 Started
map
outstanding
";

/// Two starts are outstanding at once, and end in the other order.
const TWO_STARTS_SCRIPT: &str = r"driver dev scripted
teach dev START_DEVICE * pend
plug HTREE\ROOT\0 OWN\DEV 1
plug HTREE\ROOT\0 OWN\DEV 2
complete OWN\DEV\2 START_DEVICE ok
complete OWN\DEV\1 START_DEVICE ok
";

const TWO_STARTS_TEXT: &str = r"event driver dev
event teach dev
event plug OWN\DEV\1
join 1 OWN\DEV\1
listed HTREE\ROOT\0
install OWN\DEV\1 00ff0000 dev
add OWN\DEV\1 dev ok
assign OWN\DEV\1
START_DEVICE OWN\DEV\1 dev pend
event plug OWN\DEV\2
join 2 OWN\DEV\2
listed HTREE\ROOT\0
install OWN\DEV\2 00ff0000 dev
add OWN\DEV\2 dev ok
assign OWN\DEV\2
START_DEVICE OWN\DEV\2 dev pend
event complete OWN\DEV\2 START_DEVICE ok
state OWN\DEV\2 Started
listed OWN\DEV\2
event complete OWN\DEV\1 START_DEVICE ok
state OWN\DEV\1 Started
listed OWN\DEV\1
tree
0 HTREE\ROOT\0 Started
 1 OWN\DEV\1 Started
 2 OWN\DEV\2 Started
map
outstanding
";

/// A request that does not wait is not completed.
const NO_SUCH_REQUEST_SCRIPT: &str = r"driver dev steady
plug HTREE\ROOT\0 OWN\DEV 1
complete OWN\DEV\1 START_DEVICE ok
";

const NO_SUCH_REQUEST_TEXT: &str = r"event driver dev
event plug OWN\DEV\1
join 1 OWN\DEV\1
listed HTREE\ROOT\0
install OWN\DEV\1 00ff0000 dev
add OWN\DEV\1 dev ok
assign OWN\DEV\1
START_DEVICE OWN\DEV\1 dev ok
state OWN\DEV\1 Started
listed OWN\DEV\1
refused complete NoSuchRequest
tree
0 HTREE\ROOT\0 Started
 1 OWN\DEV\1 Started
map
outstanding
";

/// A line outside the language ends the script.
const BAD_LINE_SCRIPT: &str = r"driver dev steady
plug HTREE\ROOT\0 OWN\DEV 1
# comment
plag
";

const BAD_LINE_TEXT: &str = r"event driver dev
event plug OWN\DEV\1
join 1 OWN\DEV\1
listed HTREE\ROOT\0
install OWN\DEV\1 00ff0000 dev
add OWN\DEV\1 dev ok
assign OWN\DEV\1
START_DEVICE OWN\DEV\1 dev ok
state OWN\DEV\1 Started
listed OWN\DEV\1
script error line 4
tree
0 HTREE\ROOT\0 Started
 1 OWN\DEV\1 Started
map
outstanding
";

/// A device of the same path, and one without a parent.
const SAME_PATH_SCRIPT: &str = r"driver dev steady
plug HTREE\ROOT\0 OWN\DEV 1
plug htree\root\0 own\dev 1
plug OWN\NO\1 OWN\DEV 2
";

const SAME_PATH_TEXT: &str = r"event driver dev
event plug OWN\DEV\1
join 1 OWN\DEV\1
listed HTREE\ROOT\0
install OWN\DEV\1 00ff0000 dev
add OWN\DEV\1 dev ok
assign OWN\DEV\1
START_DEVICE OWN\DEV\1 dev ok
state OWN\DEV\1 Started
listed OWN\DEV\1
refused plug SameId
refused plug NoParent
tree
0 HTREE\ROOT\0 Started
 1 OWN\DEV\1 Started
map
outstanding
";

/// No INF matches the device.
const NO_MATCH_TEXT: &str = r"event driver dev
event plug OWN\DEV\1
join 1 OWN\DEV\1
listed HTREE\ROOT\0
problem OWN\DEV\1 28
tree
0 HTREE\ROOT\0 Started
 1 OWN\DEV\1 NoStack problem 28
map
outstanding
";

/// The driver of the INF has no namesake in the rack.
const NO_NAMESAKE_SCRIPT: &str = r"plug HTREE\ROOT\0 OWN\DEV 1
";

const NO_NAMESAKE_TEXT: &str = r"event plug OWN\DEV\1
join 1 OWN\DEV\1
listed HTREE\ROOT\0
problem OWN\DEV\1 39
tree
0 HTREE\ROOT\0 Started
 1 OWN\DEV\1 NoStack problem 39
map
outstanding
";

/// The only driver fails to add the device.
const ADD_FAILS_SCRIPT: &str = r"driver dev scripted
teach dev add * fail
plug HTREE\ROOT\0 OWN\DEV 1
";

const ADD_FAILS_TEXT: &str = r"event driver dev
event teach dev
event plug OWN\DEV\1
join 1 OWN\DEV\1
listed HTREE\ROOT\0
install OWN\DEV\1 00ff0000 dev
add OWN\DEV\1 dev fail
problem OWN\DEV\1 31
tree
0 HTREE\ROOT\0 Started
 1 OWN\DEV\1 NoStack problem 31
map
outstanding
";

/// The driver fails to start the device.
const START_FAILS_SCRIPT: &str = r"driver dev scripted
teach dev START_DEVICE * fail
plug HTREE\ROOT\0 OWN\DEV 1
";

const START_FAILS_TEXT: &str = r"event driver dev
event teach dev
event plug OWN\DEV\1
join 1 OWN\DEV\1
listed HTREE\ROOT\0
install OWN\DEV\1 00ff0000 dev
add OWN\DEV\1 dev ok
assign OWN\DEV\1
START_DEVICE OWN\DEV\1 dev fail
state OWN\DEV\1 NotStarted
problem OWN\DEV\1 10
REMOVE_DEVICE OWN\DEV\1 dev ok
state OWN\DEV\1 NoStack
tree
0 HTREE\ROOT\0 Started
 1 OWN\DEV\1 NoStack problem 10
map
outstanding
";

/// A lower filter has added the device, and the function driver fails to.
const FILTER_GOES_SCRIPT: &str = r"driver low steady
driver dev scripted
teach dev add * fail
plug HTREE\ROOT\0 OWN\FIL 1
";

const FILTER_GOES_TEXT: &str = r"event driver low
event driver dev
event teach dev
event plug OWN\FIL\1
join 1 OWN\FIL\1
listed HTREE\ROOT\0
install OWN\FIL\1 00ff0000 dev
add OWN\FIL\1 low ok
add OWN\FIL\1 dev fail
problem OWN\FIL\1 31
REMOVE_DEVICE OWN\FIL\1 low ok
state OWN\FIL\1 NoStack
tree
0 HTREE\ROOT\0 Started
 1 OWN\FIL\1 NoStack problem 31
map
outstanding
";

pub const ROWS: &[Row] = &[
    Row {
        words: &[],
        infs: &[],
        script: EMPTY_SCRIPT,
        status: Status::Done,
        text: EMPTY_TEXT,
    },
    Row {
        words: &[],
        infs: &[],
        script: PLUGGED_TWICE_SCRIPT,
        status: Status::Done,
        text: PLUGGED_TWICE_TEXT,
    },
    Row {
        words: &[],
        infs: &[OWN_INF],
        script: ONE_DEVICE_SCRIPT,
        status: Status::Done,
        text: ONE_DEVICE_TEXT,
    },
    Row {
        words: &[],
        infs: &[OWN_INF],
        script: TWO_STARTS_SCRIPT,
        status: Status::Done,
        text: TWO_STARTS_TEXT,
    },
    Row {
        words: &[],
        infs: &[OWN_INF],
        script: NO_SUCH_REQUEST_SCRIPT,
        status: Status::Done,
        text: NO_SUCH_REQUEST_TEXT,
    },
    Row {
        words: &[],
        infs: &[OWN_INF],
        script: BAD_LINE_SCRIPT,
        status: Status::BadScript,
        text: BAD_LINE_TEXT,
    },
    Row {
        words: &[],
        infs: &[OWN_INF],
        script: SAME_PATH_SCRIPT,
        status: Status::Done,
        text: SAME_PATH_TEXT,
    },
    Row {
        words: &[],
        infs: &[],
        script: ONE_DEVICE_SCRIPT,
        status: Status::Done,
        text: NO_MATCH_TEXT,
    },
    Row {
        words: &[],
        infs: &[OWN_INF],
        script: NO_NAMESAKE_SCRIPT,
        status: Status::Done,
        text: NO_NAMESAKE_TEXT,
    },
    Row {
        words: &[],
        infs: &[OWN_INF],
        script: ADD_FAILS_SCRIPT,
        status: Status::Done,
        text: ADD_FAILS_TEXT,
    },
    Row {
        words: &[],
        infs: &[OWN_INF],
        script: START_FAILS_SCRIPT,
        status: Status::Done,
        text: START_FAILS_TEXT,
    },
    Row {
        words: &[],
        infs: &[OWN_INF],
        script: FILTER_GOES_SCRIPT,
        status: Status::Done,
        text: FILTER_GOES_TEXT,
    },
];
