//! What one line does.

ghost use Rattle.std.specs.Prelude.{IfOk, Some};
ghost use Rattle.gs_session.specs.Session.{HearsEvent, HearsHeader, IsUnread, Steps, read_within};
ghost use Rattle.gs_script.specs.Header.{header_of};
ghost use Rattle.gs_script.specs.Rows.{event_of};

use crate::heard::Heard;
use gs_core::{Event, Machine, is_short};
use gs_script::{LineError, MOST_BYTES, NamedPolicy, Reason, ScriptFault, read_event, read_header};
use std::alloc::{AllocError, Global};
use std::slice;

/// Returns what is heard of the line of a number that was not read. It fails if that was for want of memory.
fn unread(number: usize, error: LineError) -> Result<Heard, AllocError>
    ensures { IfOk result (λ h. IsUnread number error h) }
{
    match error {
        LineError::Fault(reason) => Ok(Heard::Fault(ScriptFault {
            line: number,
            reason,
        })),
        LineError::OutOfMemory => Err(AllocError),
    }
}

/// Hears the line of a number before the header. Returns the machine that it opens too, if it is the header.
pub(crate) fn hear_header<P: NamedPolicy>(
    alloc: Global,
    number: usize,
    line: &[u8],
) -> Result<(Heard, Option<Machine<P>>), AllocError>
    ensures { IfOk result (λ p. HearsHeader number (read_within (header_of P.naming) line.now) p.0 p.1) }
{
    if line.len() > MOST_BYTES {
        return Ok((unread(number, LineError::Fault(Reason::TooLong))?, None));
    }
    match read_header(alloc, line) {
        Err(error) => Ok((unread(number, error)?, None)),
        Ok(None) => Ok((Heard::Nothing, None)),
        Ok(Some(config)) => {
            // (a configuration that was read can be opened, unless out of memory)
            let Ok(machine) = Machine::new(alloc, config) else {
                return Err(AllocError);
            };
            Ok((Heard::Opened, Some(machine)))
        }
    }
}

/// Lets an event happen. It fails if its reply tells that memory ran out.
fn step<P: NamedPolicy>(machine: &mut Machine<P>, event: &Event<P>) -> Result<Heard, AllocError>
    ensures { IfOk result (λ h. Steps P.chosen machine.old event.now h (Some machine.new)) }
{
    let reply = machine.step(event);
    if is_short(slice::from_ref(&reply)) {
        return Err(AllocError);
    }
    Ok(Heard::Stepped(reply))
}

/// Hears the line of a number behind the header. The room of the events is used for the one that it says.
pub(crate) fn hear_event<P: NamedPolicy>(
    alloc: Global,
    number: usize,
    line: &[u8],
    machine: &mut Machine<P>,
    events: &mut Vec<Event<P>>,
) -> Result<Heard, AllocError>
    ensures { IfOk result (λ h. HearsEvent P.chosen number machine.old (read_within (event_of P.naming) line.now) h (Some machine.new)) }
{
    if line.len() > MOST_BYTES {
        return unread(number, LineError::Fault(Reason::TooLong));
    }
    events.clear();
    match read_event(alloc, line, events) {
        Err(error) => unread(number, error),
        Ok(()) => match events.first() {
            None => Ok(Heard::Nothing),
            Some(event) => step(machine, event),
        },
    }
}
