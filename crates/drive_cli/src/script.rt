ghost use Rattle.std.specs.Prelude.{◌≡◌, ◌<◌, ◌≤◌, IfOk, IfSome, IsErrOf, OnOk, length, true};
ghost use Rattle.script_reader.specs.Script.{trace};
ghost use Rattle.live_laws.specs.Scripts.{HasNoClients};
ghost use Rattle.drive_cli.specs.Runs.{GivesNext, IfClient, event_in};
ghost use Rattle.drive_cli.specs.declared.fault.DriveFault.TheVariants.{BadWords, Client, ReadFault};

use crate::fault::DriveFault;
use pnp_labels::Event;
use script_reader::{Next, Reader};
use std::alloc::{AllocError, Global};

/// A reader to which a whole script was fed.
pub(crate) fn reader_of(alloc: Global, script: &[u8]) -> Result<Reader, AllocError>
    requires { length script.now ≤ 16777216 }
    ensures finished { IfOk result (λ reader. reader.finished ≡ true) }
    ensures script { IfOk result (λ reader. trace true reader.passed reader.rest ≡ trace true 0 script.now) }
{
    let mut reader = Reader::new(alloc);
    reader.feed(script)?;
    reader.finish();
    Ok(reader)
}

/// Whether an event is one of a client.
fn is_client(event: &Event) -> bool
    ensures { IfClient result event.now }
{
    match event {
        Event::Watch { .. } | Event::Unwatch { .. } => true,
        _ => false,
    }
}

/// The event that a reader gave, if it gave one.
fn event_in(next: Next) -> Option<Event>
    ensures { result ≡ event_in next }
{
    match next {
        Next::Event(event) => Some(event),
        Next::NeedMore | Next::End | Next::Bad { .. } => None,
    }
}

/// The next event of a script that was fed whole, up to its bad line or its end.
fn next_of(reader: &mut Reader) -> Result<Option<Event>, AllocError>
    requires finished { reader.old.finished ≡ true }
    ensures gives { IfOk result (λ event. GivesNext event (trace true reader.old.passed reader.old.rest) (trace true reader.new.passed reader.new.rest)) }
    ensures finished { OnOk result (reader.new.finished ≡ true) }
    ensures smaller { IfOk result (λ event. IfSome event (λ e. length reader.new.rest < length reader.old.rest)) }
{
    let next = reader.next_event()?;
    Ok(event_in(next))
}

/// Refuses a script that has a line of a client before its bad line or its end.
pub(crate) fn refuse_clients(alloc: Global, script: &[u8]) -> Result<(), DriveFault>
    requires { length script.now ≤ 16777216 }
    ensures none { OnOk result (HasNoClients (trace true 0 script.now)) }
    ensures client { IsErrOf result Client → HasNoClients (trace true 0 script.now) → ⊥ }
    ensures words { IsErrOf result BadWords → ⊥ }
    ensures no_read { IsErrOf result ReadFault → ⊥ }
{
    let mut reader = reader_of(alloc, script)?;
    'events: while let Some(event) = next_of(&mut reader)? {
        if is_client(&event) {
            return Err(DriveFault::Client);
        }
    }
    Ok(())
}
