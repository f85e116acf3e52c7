//! An agent that is replaced by another.

use crate::failure::Failure;
use crate::looks::{Look, Looks};
use gs_core::{Event, Machine, Reply};
use gs_lines::{Text, write_reply};
use gs_policy::AnyPolicy;
use gs_slots::SlotState;
use std::alloc::{AllocError, Global};

/// The CPU of the agent that takes the place of another.
const CPU: u16 = 0;

/// So many threads are told of in a page at most.
const PAGE: u16 = 1;

/// Adds the lines of replies.
fn write_all(lines: &mut Text, replies: &[Reply]) -> Result<(), AllocError> {
    for reply in replies {
        write_reply(lines, reply)?;
    }
    Ok(())
}

/// Steps an event, and adds the lines of its reply.
fn step(
    machine: &mut Machine<AnyPolicy>,
    event: &Event<AnyPolicy>,
    lines: &mut Text,
) -> Result<(), AllocError> {
    let reply = machine.step(event);
    write_reply(lines, &reply)
}

/// Returns whether the agent knows just the threads that live, as they are.
fn is_state(looks: &Looks) -> bool {
    let known = looks.view.iter();
    let live = looks.state.iter();
    looks.view.len() == looks.state.len()
        && known.zip(live).all(|((tid, known), thread)| *tid == thread.tid
            && *known == thread.known)
}

/// Returns the first look that is not as it has to be after a replacing and a drain of all messages. The agent has to be active, all slots
/// idle, and no message waits. It knows the threads that live.
fn difference(looks: &Looks) -> Option<Look> {
    let right = [
        (
            Look::Agent,
            looks.agent.active.is_some_and(|(_, cpu)| cpu == CPU),
        ),
        (
            Look::Slots,
            looks.slots.iter().all(|slot| *slot == Ok(SlotState::Idle)),
        ),
        (Look::Unread, looks.unread.is_empty()),
        (Look::View, is_state(looks)),
    ];
    right
        .iter()
        .find(|(_, is_right)| !is_right)
        .map(|(look, _)| *look)
}

/// Steps events, replaces the agent, and drains all messages. Adds the lines of the replies from the replacing on, and of what is
/// known and who lives then.
pub(crate) fn replace_after(
    alloc: Global,
    machine: &mut Machine<AnyPolicy>,
    events: &[Event<AnyPolicy>],
    lines: &mut Text,
) -> Result<(), Failure> {
    machine.run(events)?;
    let replies = machine.replace(CPU, PAGE)?;
    write_all(lines, &replies)?;
    step(machine, &Event::Drain { max: u32::MAX }, lines)?;
    step(machine, &Event::View, lines)?;
    step(machine, &Event::State, lines)?;
    match difference(&Looks::take(alloc, machine)?) {
        Some(look) => Err(Failure::Differs {
            event: events.len(),
            look,
        }),
        None => Ok(()),
    }
}
