//! A script that is run by another policy than those that it names.

use gs_core::{Event, Machine, Reply, is_short};
use gs_lines::{Text, text_of};
use gs_policy::{AnyPolicy, FirstCome};
use gs_script::read_script;
use std::alloc::{AllocError, Global};

/// Two threads want one CPU. Both policies that are named would take it from the first one after a tick.
const SCRIPT: &str = "cpus 2 ring 256 policy two 1
create 2 1 r a
create 2 1 r b
drain 2
decide
commit 2
tick 1
drain 1
decide
crash
begin two 1
page 9
activate 0
tick 1
drain 1
decide
";

/// The lines of the replies if every agent decides by first come first served.
const LINES: &str = "created 1 seq 1
created 2 seq 1
drained 2
decided 1
stamped 1 cpu 1 thread 1
cpu 1 placed 1 seq 1
tick 1
drained 1
decided 0
crashed
begun generation 2
page 2 end
agent 0 generation 2
tick 1
drained 1
decided 0
";

/// Returns the same events, with this policy in place of each that they name.
fn own_events<P: Copy>(
    alloc: Global,
    events: &[Event<AnyPolicy>],
    policy: P,
) -> Result<Vec<Event<P>>, AllocError> {
    events
        .iter()
        .map(|event| event.with_policy(policy))
        .collect(alloc)
}

/// Returns what a machine replies to events, unless it is out of memory.
fn replies_of(
    machine: &mut Machine<FirstCome>,
    events: &[Event<FirstCome>],
) -> Result<Vec<Reply>, AllocError> {
    let replies = machine.run(events)?;
    if is_short(&replies) {
        return Err(AllocError);
    }
    Ok(replies)
}

/// Returns the lines of a script that is run by first come first served, whatever it names, or `None` if it is none.
fn replaced(alloc: Global, script: &str) -> Option<Text> {
    let script = read_script::<AnyPolicy>(alloc, script.as_bytes()).ok()?;
    let events = own_events(alloc, &script.events, FirstCome).ok()?;
    let mut machine = Machine::new(alloc, script.config.with_policy(FirstCome)).ok()?;
    text_of(alloc, &replies_of(&mut machine, &events).ok()?).ok()
}

/// Returns whether the script has these lines, by first come first served.
fn is_replaced(alloc: Global) -> bool {
    match replaced(alloc, SCRIPT) {
        Some(text) => text.as_bytes() == LINES.as_bytes(),
        None => false,
    }
}

#[test]
fn replaces_policies(rt: HostRuntime) {
    assert!(rt; is_replaced(rt.alloc()));
}
