//! Scripts in which devices need resources, and nothing moves: what is written.
use crate::infs::OWN_INF;
use crate::rows::Row;
use pnp_cli::Status;

/// The search may try one prefix, and needs two.
const ONE_PREFIX_SCRIPT: &str = r"driver dev steady
plug HTREE\ROOT\0 OWN\DEV D need=irq:5
";

const ONE_PREFIX_TEXT: &str = r"event driver dev
event plug OWN\DEV\D
join 1 OWN\DEV\D
listed HTREE\ROOT\0
install OWN\DEV\D 00ff0000 dev
add OWN\DEV\D dev ok
spent OWN\DEV\D
problem OWN\DEV\D budget
REMOVE_DEVICE OWN\DEV\D dev ok
state OWN\DEV\D NoStack
tree
0 HTREE\ROOT\0 Started
 1 OWN\DEV\D NoStack problem budget
map
outstanding
";

/// It may try two.
const TWO_PREFIXES_TEXT: &str = r"event driver dev
event plug OWN\DEV\D
join 1 OWN\DEV\D
listed HTREE\ROOT\0
install OWN\DEV\D 00ff0000 dev
add OWN\DEV\D dev ok
assign OWN\DEV\D irq:5-5
START_DEVICE OWN\DEV\D dev ok
state OWN\DEV\D Started
listed OWN\DEV\D
tree
0 HTREE\ROOT\0 Started
 1 OWN\DEV\D Started
map
irq:5-5 OWN\DEV\D
outstanding
";

/// The last 4,096 numbers of memory.
const LAST_NUMBERS_SCRIPT: &str = r"driver dev steady
plug HTREE\ROOT\0 OWN\DEV 1 need=mem:0xfffffffffffff000-0xffffffffffffffff/4096@4096
";

const LAST_NUMBERS_TEXT: &str = r"event driver dev
event plug OWN\DEV\1
join 1 OWN\DEV\1
listed HTREE\ROOT\0
install OWN\DEV\1 00ff0000 dev
add OWN\DEV\1 dev ok
assign OWN\DEV\1 mem:0xfffffffffffff000-0xffffffffffffffff
START_DEVICE OWN\DEV\1 dev ok
state OWN\DEV\1 Started
listed OWN\DEV\1
tree
0 HTREE\ROOT\0 Started
 1 OWN\DEV\1 Started
map
mem:0xfffffffffffff000-0xffffffffffffffff OWN\DEV\1
outstanding
";

/// Bus numbers, of which one is reserved.
const BUSES_SCRIPT: &str = r"driver dev steady
reserve bus:0
plug HTREE\ROOT\0 OWN\DEV 1 need=bus:0-255/4
plug HTREE\ROOT\0 OWN\DEV 2 need=bus:0-255/4
";

const BUSES_TEXT: &str = r"event driver dev
event reserve bus:0-0
event plug OWN\DEV\1
join 1 OWN\DEV\1
listed HTREE\ROOT\0
install OWN\DEV\1 00ff0000 dev
add OWN\DEV\1 dev ok
assign OWN\DEV\1 bus:1-4
START_DEVICE OWN\DEV\1 dev ok
state OWN\DEV\1 Started
listed OWN\DEV\1
event plug OWN\DEV\2
join 2 OWN\DEV\2
listed HTREE\ROOT\0
install OWN\DEV\2 00ff0000 dev
add OWN\DEV\2 dev ok
assign OWN\DEV\2 bus:5-8
START_DEVICE OWN\DEV\2 dev ok
state OWN\DEV\2 Started
listed OWN\DEV\2
tree
0 HTREE\ROOT\0 Started
 1 OWN\DEV\1 Started
 2 OWN\DEV\2 Started
map
bus:0-0 reserved
bus:1-4 OWN\DEV\1
bus:5-8 OWN\DEV\2
outstanding
";

/// No bus has the number 256.
const BUS_256_SCRIPT: &str = r"driver dev steady
plug HTREE\ROOT\0 OWN\DEV 1 need=bus:0-256/4
";

const BUS_256_TEXT: &str = r"event driver dev
script error line 2
tree
0 HTREE\ROOT\0 Started
map
outstanding
";

/// An interrupt, as bytes.
const BYTES_SCRIPT: &str = r"driver dev steady
plug HTREE\ROOT\0 OWN\DEV D reqs=480000000000000000000000000000000000000000000000000000000100000001000100010000000002010000000000050000000500000000000000000000000000000000000000
";

const BYTES_TEXT: &str = r"event driver dev
event plug OWN\DEV\D
join 1 OWN\DEV\D
listed HTREE\ROOT\0
install OWN\DEV\D 00ff0000 dev
add OWN\DEV\D dev ok
assign OWN\DEV\D irq:5-5
START_DEVICE OWN\DEV\D dev ok
state OWN\DEV\D Started
listed OWN\DEV\D
tree
0 HTREE\ROOT\0 Started
 1 OWN\DEV\D Started
map
irq:5-5 OWN\DEV\D
outstanding
";

/// A byte less.
const BYTE_SHORT_SCRIPT: &str = r"driver dev steady
plug HTREE\ROOT\0 OWN\DEV D reqs=4800000000000000000000000000000000000000000000000000000001000000010001000100000000020100000000000500000005000000000000000000000000000000000000
";

const BYTE_SHORT_TEXT: &str = r"event driver dev
script error line 2
tree
0 HTREE\ROOT\0 Started
map
outstanding
";

/// The first descriptor of the list is an alternative.
const ALTERNATIVE_FIRST_SCRIPT: &str = r"driver dev steady
plug HTREE\ROOT\0 OWN\DEV D reqs=480000000000000000000000000000000000000000000000000000000100000001000100010000000802010000000000050000000500000000000000000000000000000000000000
";

const ALTERNATIVE_FIRST_TEXT: &str = r"event driver dev
script error line 2
tree
0 HTREE\ROOT\0 Started
map
outstanding
";

/// A device below a bridge gets ports of its window, and the bridge no further window.
const WINDOW_SCRIPT: &str = r"driver dev steady
plug HTREE\ROOT\0 OWN\DEV B
window OWN\DEV\B port:0x1000-0x1fff
plug OWN\DEV\B OWN\DEV 1 need=port:0-0xffff/8@8
window OWN\DEV\B mem:0-7
";

const WINDOW_TEXT: &str = r"event driver dev
event plug OWN\DEV\B
join 1 OWN\DEV\B
listed HTREE\ROOT\0
install OWN\DEV\B 00ff0000 dev
add OWN\DEV\B dev ok
assign OWN\DEV\B
START_DEVICE OWN\DEV\B dev ok
state OWN\DEV\B Started
listed OWN\DEV\B
event window OWN\DEV\B port:0x1000-0x1fff
event plug OWN\DEV\1
join 2 OWN\DEV\1
listed OWN\DEV\B
install OWN\DEV\1 00ff0000 dev
add OWN\DEV\1 dev ok
assign OWN\DEV\1 port:0x1000-0x1007
START_DEVICE OWN\DEV\1 dev ok
state OWN\DEV\1 Started
listed OWN\DEV\1
refused window HasChildren
tree
0 HTREE\ROOT\0 Started
 1 OWN\DEV\B Started
  2 OWN\DEV\1 Started
map
port:0x1000-0x1007 OWN\DEV\1
outstanding
";

/// Nothing that the device needs comes through, although nobody holds it.
const OUTSIDE_THE_WINDOW_SCRIPT: &str = r"driver dev steady
plug HTREE\ROOT\0 OWN\DEV B
window OWN\DEV\B port:0x1000-0x1fff
plug OWN\DEV\B OWN\DEV D need=port:0x2000-0x20ff/8@8
";

const OUTSIDE_THE_WINDOW_TEXT: &str = r"event driver dev
event plug OWN\DEV\B
join 1 OWN\DEV\B
listed HTREE\ROOT\0
install OWN\DEV\B 00ff0000 dev
add OWN\DEV\B dev ok
assign OWN\DEV\B
START_DEVICE OWN\DEV\B dev ok
state OWN\DEV\B Started
listed OWN\DEV\B
event window OWN\DEV\B port:0x1000-0x1fff
event plug OWN\DEV\D
join 2 OWN\DEV\D
listed OWN\DEV\B
install OWN\DEV\D 00ff0000 dev
add OWN\DEV\D dev ok
nofit OWN\DEV\D
begin rebalance OWN\DEV\D
QUERY_STOP_DEVICE OWN\DEV\B dev ok
state OWN\DEV\B StopPending
nofit OWN\DEV\D
CANCEL_STOP_DEVICE OWN\DEV\B dev ok
state OWN\DEV\B Started
problem OWN\DEV\D 12
end rebalance OWN\DEV\D nofit
REMOVE_DEVICE OWN\DEV\D dev ok
state OWN\DEV\D NoStack
tree
0 HTREE\ROOT\0 Started
 1 OWN\DEV\B Started
  2 OWN\DEV\D NoStack problem 12
map
outstanding
";

pub const ROWS: &[Row] = &[
    Row {
        words: &["--budget", "1"],
        infs: &[OWN_INF],
        script: ONE_PREFIX_SCRIPT,
        status: Status::Done,
        text: ONE_PREFIX_TEXT,
    },
    Row {
        words: &["--budget", "2"],
        infs: &[OWN_INF],
        script: ONE_PREFIX_SCRIPT,
        status: Status::Done,
        text: TWO_PREFIXES_TEXT,
    },
    Row {
        words: &[],
        infs: &[OWN_INF],
        script: LAST_NUMBERS_SCRIPT,
        status: Status::Done,
        text: LAST_NUMBERS_TEXT,
    },
    Row {
        words: &[],
        infs: &[OWN_INF],
        script: BUSES_SCRIPT,
        status: Status::Done,
        text: BUSES_TEXT,
    },
    Row {
        words: &[],
        infs: &[OWN_INF],
        script: BUS_256_SCRIPT,
        status: Status::BadScript,
        text: BUS_256_TEXT,
    },
    Row {
        words: &[],
        infs: &[OWN_INF],
        script: BYTES_SCRIPT,
        status: Status::Done,
        text: BYTES_TEXT,
    },
    Row {
        words: &[],
        infs: &[OWN_INF],
        script: BYTE_SHORT_SCRIPT,
        status: Status::BadScript,
        text: BYTE_SHORT_TEXT,
    },
    Row {
        words: &[],
        infs: &[OWN_INF],
        script: ALTERNATIVE_FIRST_SCRIPT,
        status: Status::BadScript,
        text: ALTERNATIVE_FIRST_TEXT,
    },
    Row {
        words: &[],
        infs: &[OWN_INF],
        script: WINDOW_SCRIPT,
        status: Status::Done,
        text: WINDOW_TEXT,
    },
    Row {
        words: &[],
        infs: &[OWN_INF],
        script: OUTSIDE_THE_WINDOW_SCRIPT,
        status: Status::Done,
        text: OUTSIDE_THE_WINDOW_TEXT,
    },
];
