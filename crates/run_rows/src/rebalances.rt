//! Scripts in which devices stop so that another can have what it needs: what is written.
use crate::infs::OWN_INF;
use crate::rows::Row;
use pnp_cli::Status;

/// One device moves.
const ONE_MOVES_SCRIPT: &str = r"driver dev steady
plug HTREE\ROOT\0 OWN\DEV A need=irq:5-6
plug HTREE\ROOT\0 OWN\DEV D need=irq:5
";

const ONE_MOVES_TEXT: &str = r"event driver dev
event plug OWN\DEV\A
join 1 OWN\DEV\A
listed HTREE\ROOT\0
install OWN\DEV\A 00ff0000 dev
add OWN\DEV\A dev ok
assign OWN\DEV\A irq:5-5
START_DEVICE OWN\DEV\A dev ok
state OWN\DEV\A Started
listed OWN\DEV\A
event plug OWN\DEV\D
join 2 OWN\DEV\D
listed HTREE\ROOT\0
install OWN\DEV\D 00ff0000 dev
add OWN\DEV\D dev ok
nofit OWN\DEV\D
begin rebalance OWN\DEV\D
QUERY_STOP_DEVICE OWN\DEV\A dev ok
state OWN\DEV\A StopPending
fits OWN\DEV\D
STOP_DEVICE OWN\DEV\A dev ok
state OWN\DEV\A Stopped
commit 2
START_DEVICE OWN\DEV\A dev ok
state OWN\DEV\A Started
end rebalance OWN\DEV\D moved
START_DEVICE OWN\DEV\D dev ok
state OWN\DEV\D Started
listed OWN\DEV\D
tree
0 HTREE\ROOT\0 Started
 1 OWN\DEV\A Started
 2 OWN\DEV\D Started
map
irq:5-5 OWN\DEV\D
irq:6-6 OWN\DEV\A
outstanding
";

/// The one device that could move refuses.
const REFUSED_SCRIPT: &str = r"driver hard stubborn
driver dev steady
plug HTREE\ROOT\0 OWN\HARD A need=irq:5-6
plug HTREE\ROOT\0 OWN\DEV D need=irq:5
";

const REFUSED_TEXT: &str = r"event driver hard
event driver dev
event plug OWN\HARD\A
join 1 OWN\HARD\A
listed HTREE\ROOT\0
install OWN\HARD\A 00ff0000 hard
add OWN\HARD\A hard ok
assign OWN\HARD\A irq:5-5
START_DEVICE OWN\HARD\A hard ok
state OWN\HARD\A Started
listed OWN\HARD\A
event plug OWN\DEV\D
join 2 OWN\DEV\D
listed HTREE\ROOT\0
install OWN\DEV\D 00ff0000 dev
add OWN\DEV\D dev ok
nofit OWN\DEV\D
begin rebalance OWN\DEV\D
QUERY_STOP_DEVICE OWN\HARD\A hard fail
state OWN\HARD\A Started
CANCEL_STOP_DEVICE OWN\HARD\A hard ok
state OWN\HARD\A Started
nofit OWN\DEV\D
problem OWN\DEV\D 12
end rebalance OWN\DEV\D nofit
REMOVE_DEVICE OWN\DEV\D dev ok
state OWN\DEV\D NoStack
tree
0 HTREE\ROOT\0 Started
 1 OWN\HARD\A Started
 2 OWN\DEV\D NoStack problem 12
map
irq:5-5 OWN\HARD\A
outstanding
";

/// Two devices move.
const CHAIN_SCRIPT: &str = r"driver dev steady
plug HTREE\ROOT\0 OWN\DEV A need=irq:3-4
plug HTREE\ROOT\0 OWN\DEV B need=irq:4-5
plug HTREE\ROOT\0 OWN\DEV D need=irq:3
";

const CHAIN_TEXT: &str = r"event driver dev
event plug OWN\DEV\A
join 1 OWN\DEV\A
listed HTREE\ROOT\0
install OWN\DEV\A 00ff0000 dev
add OWN\DEV\A dev ok
assign OWN\DEV\A irq:3-3
START_DEVICE OWN\DEV\A dev ok
state OWN\DEV\A Started
listed OWN\DEV\A
event plug OWN\DEV\B
join 2 OWN\DEV\B
listed HTREE\ROOT\0
install OWN\DEV\B 00ff0000 dev
add OWN\DEV\B dev ok
assign OWN\DEV\B irq:4-4
START_DEVICE OWN\DEV\B dev ok
state OWN\DEV\B Started
listed OWN\DEV\B
event plug OWN\DEV\D
join 3 OWN\DEV\D
listed HTREE\ROOT\0
install OWN\DEV\D 00ff0000 dev
add OWN\DEV\D dev ok
nofit OWN\DEV\D
begin rebalance OWN\DEV\D
QUERY_STOP_DEVICE OWN\DEV\B dev ok
state OWN\DEV\B StopPending
QUERY_STOP_DEVICE OWN\DEV\A dev ok
state OWN\DEV\A StopPending
fits OWN\DEV\D
STOP_DEVICE OWN\DEV\B dev ok
state OWN\DEV\B Stopped
STOP_DEVICE OWN\DEV\A dev ok
state OWN\DEV\A Stopped
commit 3
START_DEVICE OWN\DEV\A dev ok
state OWN\DEV\A Started
START_DEVICE OWN\DEV\B dev ok
state OWN\DEV\B Started
end rebalance OWN\DEV\D moved
START_DEVICE OWN\DEV\D dev ok
state OWN\DEV\D Started
listed OWN\DEV\D
tree
0 HTREE\ROOT\0 Started
 1 OWN\DEV\A Started
 2 OWN\DEV\B Started
 3 OWN\DEV\D Started
map
irq:3-3 OWN\DEV\D
irq:4-4 OWN\DEV\A
irq:5-5 OWN\DEV\B
outstanding
";

/// The search tries just six prefixes.
const SIX_PREFIXES_TEXT: &str = r"event driver dev
event plug OWN\DEV\A
join 1 OWN\DEV\A
listed HTREE\ROOT\0
install OWN\DEV\A 00ff0000 dev
add OWN\DEV\A dev ok
assign OWN\DEV\A irq:3-3
START_DEVICE OWN\DEV\A dev ok
state OWN\DEV\A Started
listed OWN\DEV\A
event plug OWN\DEV\B
join 2 OWN\DEV\B
listed HTREE\ROOT\0
install OWN\DEV\B 00ff0000 dev
add OWN\DEV\B dev ok
assign OWN\DEV\B irq:4-4
START_DEVICE OWN\DEV\B dev ok
state OWN\DEV\B Started
listed OWN\DEV\B
event plug OWN\DEV\D
join 3 OWN\DEV\D
listed HTREE\ROOT\0
install OWN\DEV\D 00ff0000 dev
add OWN\DEV\D dev ok
nofit OWN\DEV\D
begin rebalance OWN\DEV\D
QUERY_STOP_DEVICE OWN\DEV\B dev ok
state OWN\DEV\B StopPending
QUERY_STOP_DEVICE OWN\DEV\A dev ok
state OWN\DEV\A StopPending
fits OWN\DEV\D
STOP_DEVICE OWN\DEV\B dev ok
state OWN\DEV\B Stopped
STOP_DEVICE OWN\DEV\A dev ok
state OWN\DEV\A Stopped
commit 3
START_DEVICE OWN\DEV\A dev ok
state OWN\DEV\A Started
START_DEVICE OWN\DEV\B dev ok
state OWN\DEV\B Started
end rebalance OWN\DEV\D moved
START_DEVICE OWN\DEV\D dev ok
state OWN\DEV\D Started
listed OWN\DEV\D
tree
0 HTREE\ROOT\0 Started
 1 OWN\DEV\A Started
 2 OWN\DEV\B Started
 3 OWN\DEV\D Started
map
irq:3-3 OWN\DEV\D
irq:4-4 OWN\DEV\A
irq:5-5 OWN\DEV\B
outstanding
";

/// It may try five.
const FIVE_PREFIXES_TEXT: &str = r"event driver dev
event plug OWN\DEV\A
join 1 OWN\DEV\A
listed HTREE\ROOT\0
install OWN\DEV\A 00ff0000 dev
add OWN\DEV\A dev ok
assign OWN\DEV\A irq:3-3
START_DEVICE OWN\DEV\A dev ok
state OWN\DEV\A Started
listed OWN\DEV\A
event plug OWN\DEV\B
join 2 OWN\DEV\B
listed HTREE\ROOT\0
install OWN\DEV\B 00ff0000 dev
add OWN\DEV\B dev ok
assign OWN\DEV\B irq:4-4
START_DEVICE OWN\DEV\B dev ok
state OWN\DEV\B Started
listed OWN\DEV\B
event plug OWN\DEV\D
join 3 OWN\DEV\D
listed HTREE\ROOT\0
install OWN\DEV\D 00ff0000 dev
add OWN\DEV\D dev ok
nofit OWN\DEV\D
begin rebalance OWN\DEV\D
QUERY_STOP_DEVICE OWN\DEV\B dev ok
state OWN\DEV\B StopPending
QUERY_STOP_DEVICE OWN\DEV\A dev ok
state OWN\DEV\A StopPending
spent OWN\DEV\D
CANCEL_STOP_DEVICE OWN\DEV\A dev ok
state OWN\DEV\A Started
CANCEL_STOP_DEVICE OWN\DEV\B dev ok
state OWN\DEV\B Started
problem OWN\DEV\D budget
end rebalance OWN\DEV\D spent
REMOVE_DEVICE OWN\DEV\D dev ok
state OWN\DEV\D NoStack
tree
0 HTREE\ROOT\0 Started
 1 OWN\DEV\A Started
 2 OWN\DEV\B Started
 3 OWN\DEV\D NoStack problem budget
map
irq:3-3 OWN\DEV\A
irq:4-4 OWN\DEV\B
outstanding
";

/// Two devices share an interrupt, and refuse.
const SHARED_SCRIPT: &str = r"driver hard stubborn
driver dev steady
plug HTREE\ROOT\0 OWN\HARD 1 need=irq:9:shared
plug HTREE\ROOT\0 OWN\HARD 2 need=irq:9:shared
plug HTREE\ROOT\0 OWN\DEV 3 need=irq:9
";

const SHARED_TEXT: &str = r"event driver hard
event driver dev
event plug OWN\HARD\1
join 1 OWN\HARD\1
listed HTREE\ROOT\0
install OWN\HARD\1 00ff0000 hard
add OWN\HARD\1 hard ok
assign OWN\HARD\1 irq:9-9:shared
START_DEVICE OWN\HARD\1 hard ok
state OWN\HARD\1 Started
listed OWN\HARD\1
event plug OWN\HARD\2
join 2 OWN\HARD\2
listed HTREE\ROOT\0
install OWN\HARD\2 00ff0000 hard
add OWN\HARD\2 hard ok
assign OWN\HARD\2 irq:9-9:shared
START_DEVICE OWN\HARD\2 hard ok
state OWN\HARD\2 Started
listed OWN\HARD\2
event plug OWN\DEV\3
join 3 OWN\DEV\3
listed HTREE\ROOT\0
install OWN\DEV\3 00ff0000 dev
add OWN\DEV\3 dev ok
nofit OWN\DEV\3
begin rebalance OWN\DEV\3
QUERY_STOP_DEVICE OWN\HARD\2 hard fail
state OWN\HARD\2 Started
CANCEL_STOP_DEVICE OWN\HARD\2 hard ok
state OWN\HARD\2 Started
QUERY_STOP_DEVICE OWN\HARD\1 hard fail
state OWN\HARD\1 Started
CANCEL_STOP_DEVICE OWN\HARD\1 hard ok
state OWN\HARD\1 Started
nofit OWN\DEV\3
problem OWN\DEV\3 12
end rebalance OWN\DEV\3 nofit
REMOVE_DEVICE OWN\DEV\3 dev ok
state OWN\DEV\3 NoStack
tree
0 HTREE\ROOT\0 Started
 1 OWN\HARD\1 Started
 2 OWN\HARD\2 Started
 3 OWN\DEV\3 NoStack problem 12
map
irq:9-9:shared OWN\HARD\1
irq:9-9:shared OWN\HARD\2
outstanding
";

/// The upper half of the last 8,192 numbers of memory is reserved.
const ABOVE_THE_RESERVED_SCRIPT: &str = r"driver dev steady
reserve mem:0xfffffffffffff000-0xffffffffffffffff
plug HTREE\ROOT\0 OWN\DEV 1 need=mem:0xffffffffffffe000-0xffffffffffffffff/8192@4096
";

const ABOVE_THE_RESERVED_TEXT: &str = r"event driver dev
event reserve mem:0xfffffffffffff000-0xffffffffffffffff
event plug OWN\DEV\1
join 1 OWN\DEV\1
listed HTREE\ROOT\0
install OWN\DEV\1 00ff0000 dev
add OWN\DEV\1 dev ok
nofit OWN\DEV\1
begin rebalance OWN\DEV\1
nofit OWN\DEV\1
problem OWN\DEV\1 12
end rebalance OWN\DEV\1 nofit
REMOVE_DEVICE OWN\DEV\1 dev ok
state OWN\DEV\1 NoStack
tree
0 HTREE\ROOT\0 Started
 1 OWN\DEV\1 NoStack problem 12
map
mem:0xfffffffffffff000-0xffffffffffffffff reserved
outstanding
";

/// A device does not start again.
const RESTART_FAILS_SCRIPT: &str = r"driver dev scripted
teach dev START_DEVICE OWN\DEV\H ok 1
teach dev START_DEVICE OWN\DEV\H fail
plug HTREE\ROOT\0 OWN\DEV H need=irq:5-6
plug OWN\DEV\H OWN\DEV C
plug HTREE\ROOT\0 OWN\DEV D need=irq:5
";

const RESTART_FAILS_TEXT: &str = r"event driver dev
event teach dev
event teach dev
event plug OWN\DEV\H
join 1 OWN\DEV\H
listed HTREE\ROOT\0
install OWN\DEV\H 00ff0000 dev
add OWN\DEV\H dev ok
assign OWN\DEV\H irq:5-5
START_DEVICE OWN\DEV\H dev ok
state OWN\DEV\H Started
listed OWN\DEV\H
event plug OWN\DEV\C
join 2 OWN\DEV\C
listed OWN\DEV\H
install OWN\DEV\C 00ff0000 dev
add OWN\DEV\C dev ok
assign OWN\DEV\C
START_DEVICE OWN\DEV\C dev ok
state OWN\DEV\C Started
listed OWN\DEV\C
event plug OWN\DEV\D
join 3 OWN\DEV\D
listed HTREE\ROOT\0
install OWN\DEV\D 00ff0000 dev
add OWN\DEV\D dev ok
nofit OWN\DEV\D
begin rebalance OWN\DEV\D
QUERY_STOP_DEVICE OWN\DEV\C dev ok
state OWN\DEV\C StopPending
QUERY_STOP_DEVICE OWN\DEV\H dev ok
state OWN\DEV\H StopPending
fits OWN\DEV\D
STOP_DEVICE OWN\DEV\C dev ok
state OWN\DEV\C Stopped
STOP_DEVICE OWN\DEV\H dev ok
state OWN\DEV\H Stopped
commit 3
START_DEVICE OWN\DEV\H dev fail
state OWN\DEV\H Stopped
problem OWN\DEV\H 10
end rebalance OWN\DEV\D moved
START_DEVICE OWN\DEV\D dev ok
state OWN\DEV\D Started
begin surprise OWN\DEV\H
SURPRISE_REMOVAL OWN\DEV\C dev ok
state OWN\DEV\C SurpriseRemoved
SURPRISE_REMOVAL OWN\DEV\H dev ok
state OWN\DEV\H SurpriseRemoved
REMOVE_DEVICE OWN\DEV\C dev ok
state OWN\DEV\C NoStack
leave OWN\DEV\C
REMOVE_DEVICE OWN\DEV\H dev ok
state OWN\DEV\H NoStack
end surprise OWN\DEV\H done
listed OWN\DEV\D
tree
0 HTREE\ROOT\0 Started
 1 OWN\DEV\H NoStack problem 10
 3 OWN\DEV\D Started
map
irq:5-5 OWN\DEV\D
outstanding
";

/// A driver fails a request that must not be failed.
const VIOLATION_SCRIPT: &str = r"driver dev scripted
teach dev STOP_DEVICE * fail
plug HTREE\ROOT\0 OWN\DEV A need=irq:5-6
plug HTREE\ROOT\0 OWN\DEV D need=irq:5
";

const VIOLATION_TEXT: &str = r"event driver dev
event teach dev
event plug OWN\DEV\A
join 1 OWN\DEV\A
listed HTREE\ROOT\0
install OWN\DEV\A 00ff0000 dev
add OWN\DEV\A dev ok
assign OWN\DEV\A irq:5-5
START_DEVICE OWN\DEV\A dev ok
state OWN\DEV\A Started
listed OWN\DEV\A
event plug OWN\DEV\D
join 2 OWN\DEV\D
listed HTREE\ROOT\0
install OWN\DEV\D 00ff0000 dev
add OWN\DEV\D dev ok
nofit OWN\DEV\D
begin rebalance OWN\DEV\D
QUERY_STOP_DEVICE OWN\DEV\A dev ok
state OWN\DEV\A StopPending
fits OWN\DEV\D
STOP_DEVICE OWN\DEV\A dev violation
state OWN\DEV\A Stopped
commit 2
START_DEVICE OWN\DEV\A dev ok
state OWN\DEV\A Started
end rebalance OWN\DEV\D moved
START_DEVICE OWN\DEV\D dev ok
state OWN\DEV\D Started
listed OWN\DEV\D
tree
0 HTREE\ROOT\0 Started
 1 OWN\DEV\A Started
 2 OWN\DEV\D Started
map
irq:5-5 OWN\DEV\D
irq:6-6 OWN\DEV\A
outstanding
";

pub const ROWS: &[Row] = &[
    Row {
        words: &[],
        infs: &[OWN_INF],
        script: ONE_MOVES_SCRIPT,
        status: Status::Done,
        text: ONE_MOVES_TEXT,
    },
    Row {
        words: &[],
        infs: &[OWN_INF],
        script: REFUSED_SCRIPT,
        status: Status::Done,
        text: REFUSED_TEXT,
    },
    Row {
        words: &[],
        infs: &[OWN_INF],
        script: CHAIN_SCRIPT,
        status: Status::Done,
        text: CHAIN_TEXT,
    },
    Row {
        words: &["--budget", "6"],
        infs: &[OWN_INF],
        script: CHAIN_SCRIPT,
        status: Status::Done,
        text: SIX_PREFIXES_TEXT,
    },
    Row {
        words: &["--budget", "5"],
        infs: &[OWN_INF],
        script: CHAIN_SCRIPT,
        status: Status::Done,
        text: FIVE_PREFIXES_TEXT,
    },
    Row {
        words: &[],
        infs: &[OWN_INF],
        script: SHARED_SCRIPT,
        status: Status::Done,
        text: SHARED_TEXT,
    },
    Row {
        words: &[],
        infs: &[OWN_INF],
        script: ABOVE_THE_RESERVED_SCRIPT,
        status: Status::Done,
        text: ABOVE_THE_RESERVED_TEXT,
    },
    Row {
        words: &[],
        infs: &[OWN_INF],
        script: RESTART_FAILS_SCRIPT,
        status: Status::Done,
        text: RESTART_FAILS_TEXT,
    },
    Row {
        words: &[],
        infs: &[OWN_INF],
        script: VIOLATION_SCRIPT,
        status: Status::Done,
        text: VIOLATION_TEXT,
    },
];
