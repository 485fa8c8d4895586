//! Whether a script has lines of clients.
ghost use Rattle.std.specs.Prelude.{◌≡◌, true, IfOk};
ghost use Rattle.script_reader.specs.Script as scripts;
ghost use Rattle.trace_check.specs.Clients.{IfOfMachine};
ghost use Rattle.front_check.specs.Clients.{IfClients, IsAhead, IsAheadOf, to_come};

use device_ids::WantOfMemory;
use pnp_labels::Event;
use script_reader::{Next, Reader};
use std::alloc::Global;

/// What a script gives next.
#[derive(Clone, Copy)]
enum Ahead {
    /// An event of a client.
    Client,
    /// Another event, behind which the reader stands.
    Other,
    /// None: the script is over, or its next line is bad.
    Over,
}

/// Whether it happens to the machine itself, and not to a client.
fn is_of_machine(event: &Event) -> bool
    ensures { IfOfMachine result event.now }
{
    !matches!(event, Event::Watch { .. } | Event::Unwatch { .. })
}

/// Whose event this is. It is let go.
fn ahead_of(event: Event) -> Ahead
    ensures { IsAheadOf result event }
{
    if is_of_machine(&event) {
        Ahead::Other
    } else {
        Ahead::Client
    }
}

/// What is ahead. Condition: the script was fed whole.
fn look_ahead(reader: &mut Reader) -> Result<Ahead, WantOfMemory>
    requires finished { reader.old.finished ≡ true }
    ensures { IfOk result (λ ahead. IsAhead ahead reader.old reader.new) }
{
    match reader.next_event() {
        Ok(Next::Event(event)) => Ok(ahead_of(event)),
        Ok(Next::Bad { line: _ }) => Ok(Ahead::Over),
        Ok(Next::End) => Ok(Ahead::Over),
        // a reader that was finished needs no more
        Ok(Next::NeedMore) => unreachable!(),
        Err(refused) => Err(refused),
    }
}

/// Whether a line of a client is still to come. Condition: the script was fed whole.
fn finds_clients(reader: Reader) -> Result<bool, WantOfMemory>
    requires finished { reader.finished ≡ true }
    ensures { IfOk result (λ found. IfClients found (to_come reader)) }
{
    let mut reader = reader;
    'events: loop {
        match look_ahead(&mut reader)? {
            Ahead::Client => return Ok(true),
            Ahead::Over => return Ok(false),
            Ahead::Other => {}
        }
    }
}

/// Whether a script has a line of a client, `watch` or `unwatch`, before its end or its first bad line. This project's own. Cost: the
/// bytes up to there.
pub fn has_clients(alloc: Global, script: &[u8]) -> Result<bool, WantOfMemory>
    ensures { IfOk result (λ found. IfClients found (scripts.trace true 0 script.now)) }
{
    let mut reader = Reader::new(alloc);
    reader.feed(script)?;
    reader.finish();
    finds_clients(reader)
}
