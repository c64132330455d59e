//! The headers of a text as they are read.

ghost use Rattle.std.specs.Prelude.{◌<◌, ◌^◌, IfOk};
ghost use Rattle.gabc_headers.specs.machine.Events.{AreHeaderEvents};

use crate::events::HeaderEvents;
use crate::header_machine::{HeaderMachine, HeaderStep};
use gabc_places::Text;
use std::alloc::{AllocError, Global};

/// Reads the headers of `text`, of which at most `limit` bytes may come before the line `%%`.
/// Returns their events and their ending.
pub(crate) fn events_of_headers(
    alloc: Global,
    text: &Text,
    limit: u32,
) -> Result<HeaderEvents, AllocError>
    requires { limit < 2 ^ 31 }
    ensures { IfOk result (λ t. AreHeaderEvents limit text.now t.events.items t.end) }
{
    let mut events = Vec::new(alloc);
    let mut machine = HeaderMachine::new(limit);
    for c in text.as_str().chars() {
        match machine.push(c) {
            HeaderStep::Read(Some(event)) => events.push(event)?,
            HeaderStep::Read(None) => {}
            HeaderStep::Ended(end) => return Ok(HeaderEvents { events, end }),
        }
    }
    Ok(HeaderEvents {
        events,
        end: machine.end(),
    })
}
