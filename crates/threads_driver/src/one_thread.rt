//! The machine: the same events, in one thread.

use crate::events::config;
use crate::lists::{Crowd, Size, make_lists};
use crate::paced::BATCH;
use crate::timed::Timed;
use gs_core::{Event, Machine};
use gs_policy::FirstCome;
use gs_replies::Reply;
use gs_runner::Command;
use std::alloc::Global;
use std::rt::Clock;
use std::time::Instant;

/// Lets a command happen, and returns whether it was done.
fn step(machine: &mut Machine<FirstCome>, command: &Command) -> bool {
    let Command::Kernel { command } = command else {
        return false;
    };
    let reply = machine.step(&Event::Kernel { command: *command });
    matches!(reply, Reply::Done(_))
}

/// Lets commands happen, and has each batch drained. Returns how many were done.
fn step_all(machine: &mut Machine<FirstCome>, commands: &[Command]) -> u64 {
    let mut done: u64 = 0;
    let mut call: u32 = 0;
    for command in commands {
        if step(machine, command) {
            done = done.wrapping_add(1);
        }
        call = call.wrapping_add(1);
        if call % BATCH == 0 {
            machine.step(&Event::Drain { max: BATCH });
        }
    }
    machine.step(&Event::Drain { max: BATCH });
    done
}

/// Lets the commands of all lists happen. Returns how many were done.
fn step_lists(machine: &mut Machine<FirstCome>, lists: &[Vec<Command>]) -> u64 {
    let mut done: u64 = 0;
    for list in lists {
        done = done.wrapping_add(step_all(machine, list));
    }
    done
}

/// Lets a list of so many events happen in a machine. `None` if out of memory, if not all threads were created, or if there is no
/// clock.
pub(crate) fn run_machine<R: Clock>(rt: &R, alloc: Global, calls: u32) -> Option<Timed> {
    let lists = make_lists(alloc, Crowd::All, Size { lists: 1, calls }).ok()?;
    let start = Instant::now(rt).ok()?;
    let mut machine = Machine::new(alloc, config()).ok()?;
    let done = step_lists(&mut machine, lists.as_slice());
    Timed::since(rt, start, done)
}
