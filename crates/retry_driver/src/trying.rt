//! Events that are tried, and stepped again if they are refused as out of memory.

use crate::failure::Failure;
use crate::looks::{Look, Looks};
use gs_agent::{Drained, Stop};
use gs_core::{Event, Machine, Reply, is_short};
use gs_lines::{Text, write_reply};
use gs_policy::AnyPolicy;
use std::alloc::{AllocError, Global};
use std::io::Write;
use std::slice;

/// Writes a line for the allocator to hear.
fn say<W: Write>(allocator: &mut W, line: &str) -> Result<(), Failure> {
    match allocator.write_all(line.as_bytes()) {
        Ok(()) => Ok(()),
        Err(_) => Err(Failure::Streams),
    }
}

/// Tries an event. Memory may be short meanwhile.
fn tried<W: Write>(
    machine: &mut Machine<AnyPolicy>,
    event: &Event<AnyPolicy>,
    allocator: &mut W,
) -> Result<Reply, Failure> {
    say(allocator, "try\n")?;
    let reply = machine.step(event);
    let is_short = is_short(slice::from_ref(&reply));
    say(allocator, if is_short { "refused\n" } else { "tried\n" })?;
    Ok(reply)
}

/// Returns the first look that is not as it has to be after an event that was out of memory. It is given what was shown before, the reply,
/// and what is shown after it. All is to be as before, but that a drain took in as many messages as it says.
fn difference(
    alloc: Global,
    before: &mut Looks,
    reply: &Reply,
    after: &Looks,
) -> Result<Option<Look>, AllocError> {
    if let Reply::Drained(drained) = reply {
        let wanted = Drained {
            stop: Some(Stop::Memory),
            ..before.take_in(alloc, drained.count)?
        };
        if *drained != wanted {
            return Ok(Some(Look::Drained));
        }
    }
    Ok(before.difference(after))
}

/// Returns the sum of two drains, one after the other.
fn sum(first: Drained, second: Drained) -> Drained {
    Drained {
        count: first.count.wrapping_add(second.count),
        skipped: first.skipped.wrapping_add(second.skipped),
        orphans: first.orphans.wrapping_add(second.orphans),
        stop: second.stop,
    }
}

/// Steps an event that was refused as out of memory again, or what is left of a drain that stopped for that. Returns the
/// reply to all of it.
fn step_again(
    machine: &mut Machine<AnyPolicy>,
    event: &Event<AnyPolicy>,
    refused: &Reply,
) -> Reply {
    let (Event::Drain { max }, Reply::Drained(first)) = (event, refused) else {
        return machine.step(event);
    };
    let taken = u32::try_from(first.count).unwrap_or(u32::MAX);
    let rest = Event::Drain {
        max: max.saturating_sub(taken),
    };
    match machine.step(&rest) {
        Reply::Drained(second) => Reply::Drained(sum(*first, second)),
        reply => reply,
    }
}

/// Tries the event of a number, and steps it again if memory was short. Returns its reply.
fn try_one<W: Write>(
    alloc: Global,
    machine: &mut Machine<AnyPolicy>,
    number: usize,
    event: &Event<AnyPolicy>,
    allocator: &mut W,
) -> Result<Reply, Failure> {
    let mut before = Looks::take(alloc, machine)?;
    let reply = tried(machine, event, allocator)?;
    if !is_short(slice::from_ref(&reply)) {
        return Ok(reply);
    }
    let after = Looks::take(alloc, machine)?;
    if let Some(look) = difference(alloc, &mut before, &reply, &after)? {
        return Err(Failure::Differs {
            event: number,
            look,
        });
    }
    Ok(step_again(machine, event, &reply))
}

/// Tries events one by one, and adds the lines of their replies.
pub(crate) fn try_all<W: Write>(
    alloc: Global,
    machine: &mut Machine<AnyPolicy>,
    events: &[Event<AnyPolicy>],
    allocator: &mut W,
    lines: &mut Text,
) -> Result<(), Failure> {
    let mut number: usize = 0;
    for event in events {
        number = number.wrapping_add(1);
        let reply = try_one(alloc, machine, number, event, allocator)?;
        if is_short(slice::from_ref(&reply)) {
            return Err(Failure::OutOfMemory);
        }
        write_reply(lines, &reply)?;
    }
    Ok(())
}
