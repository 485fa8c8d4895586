//! Scripts in which devices are pulled: what is written.
use crate::infs::OWN_INF;
use crate::rows::Row;
use pnp_cli::Status;

/// A device goes while its start is outstanding.
const GONE_WHILE_STARTING_SCRIPT: &str = r"driver dev scripted
teach dev START_DEVICE * pend
plug HTREE\ROOT\0 OWN\DEV 1
pull OWN\DEV\1
complete OWN\DEV\1 START_DEVICE ok
";

const GONE_WHILE_STARTING_TEXT: &str = r"event driver dev
event teach dev
event plug OWN\DEV\1
join 1 OWN\DEV\1
listed HTREE\ROOT\0
install OWN\DEV\1 00ff0000 dev
add OWN\DEV\1 dev ok
assign OWN\DEV\1
START_DEVICE OWN\DEV\1 dev pend
event pull OWN\DEV\1
gone OWN\DEV\1
listed HTREE\ROOT\0
event complete OWN\DEV\1 START_DEVICE ok
state OWN\DEV\1 Started
begin surprise OWN\DEV\1
SURPRISE_REMOVAL OWN\DEV\1 dev ok
state OWN\DEV\1 SurpriseRemoved
REMOVE_DEVICE OWN\DEV\1 dev ok
state OWN\DEV\1 NoStack
leave OWN\DEV\1
end surprise OWN\DEV\1 done
skip list 1
tree
0 HTREE\ROOT\0 Started
map
outstanding
";

/// A hub goes with the device below it.
const HUB_PULLED_SCRIPT: &str = r"driver dev steady
plug HTREE\ROOT\0 OWN\DEV H
plug OWN\DEV\H OWN\DEV C
pull OWN\DEV\H
";

const HUB_PULLED_TEXT: &str = r"event driver dev
event plug OWN\DEV\H
join 1 OWN\DEV\H
listed HTREE\ROOT\0
install OWN\DEV\H 00ff0000 dev
add OWN\DEV\H dev ok
assign OWN\DEV\H
START_DEVICE OWN\DEV\H dev ok
state OWN\DEV\H Started
listed OWN\DEV\H
event plug OWN\DEV\C
join 2 OWN\DEV\C
listed OWN\DEV\H
install OWN\DEV\C 00ff0000 dev
add OWN\DEV\C dev ok
assign OWN\DEV\C
START_DEVICE OWN\DEV\C dev ok
state OWN\DEV\C Started
listed OWN\DEV\C
event pull OWN\DEV\H
gone OWN\DEV\H
listed HTREE\ROOT\0
begin surprise OWN\DEV\H
SURPRISE_REMOVAL OWN\DEV\C dev ok
state OWN\DEV\C SurpriseRemoved
SURPRISE_REMOVAL OWN\DEV\H dev ok
state OWN\DEV\H SurpriseRemoved
REMOVE_DEVICE OWN\DEV\C dev ok
state OWN\DEV\C NoStack
leave OWN\DEV\C
REMOVE_DEVICE OWN\DEV\H dev ok
state OWN\DEV\H NoStack
leave OWN\DEV\H
end surprise OWN\DEV\H done
tree
0 HTREE\ROOT\0 Started
map
outstanding
";

/// A hub is pulled while a handle to the device below it is open: both wait, and are finished when it is closed.
const HELD_WHILE_PULLED_SCRIPT: &str = r"driver dev steady
plug HTREE\ROOT\0 OWN\DEV H
plug OWN\DEV\H OWN\DEV C
open OWN\DEV\C
pull OWN\DEV\H
close OWN\DEV\C
";

const HELD_WHILE_PULLED_TEXT: &str = r"event driver dev
event plug OWN\DEV\H
join 1 OWN\DEV\H
listed HTREE\ROOT\0
install OWN\DEV\H 00ff0000 dev
add OWN\DEV\H dev ok
assign OWN\DEV\H
START_DEVICE OWN\DEV\H dev ok
state OWN\DEV\H Started
listed OWN\DEV\H
event plug OWN\DEV\C
join 2 OWN\DEV\C
listed OWN\DEV\H
install OWN\DEV\C 00ff0000 dev
add OWN\DEV\C dev ok
assign OWN\DEV\C
START_DEVICE OWN\DEV\C dev ok
state OWN\DEV\C Started
listed OWN\DEV\C
event open OWN\DEV\C
event pull OWN\DEV\H
gone OWN\DEV\H
listed HTREE\ROOT\0
begin surprise OWN\DEV\H
SURPRISE_REMOVAL OWN\DEV\C dev ok
state OWN\DEV\C SurpriseRemoved
SURPRISE_REMOVAL OWN\DEV\H dev ok
state OWN\DEV\H SurpriseRemoved
waits OWN\DEV\C
waits OWN\DEV\H
end surprise OWN\DEV\H waiting
event close OWN\DEV\C
begin finish OWN\DEV\C
REMOVE_DEVICE OWN\DEV\C dev ok
state OWN\DEV\C NoStack
leave OWN\DEV\C
REMOVE_DEVICE OWN\DEV\H dev ok
state OWN\DEV\H NoStack
leave OWN\DEV\H
end finish OWN\DEV\C done
tree
0 HTREE\ROOT\0 Started
map
outstanding
";

pub const ROWS: &[Row] = &[
    Row {
        words: &[],
        infs: &[OWN_INF],
        script: GONE_WHILE_STARTING_SCRIPT,
        status: Status::Done,
        text: GONE_WHILE_STARTING_TEXT,
    },
    Row {
        words: &[],
        infs: &[OWN_INF],
        script: HUB_PULLED_SCRIPT,
        status: Status::Done,
        text: HUB_PULLED_TEXT,
    },
    Row {
        words: &[],
        infs: &[OWN_INF],
        script: HELD_WHILE_PULLED_SCRIPT,
        status: Status::Done,
        text: HELD_WHILE_PULLED_TEXT,
    },
];
