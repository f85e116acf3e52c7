//! An agent that takes over after any event of a script learns all that the kernel has of the threads that live.

use gs_agent::{Drained, Role};
use gs_core::{Config, Event, Machine, Reply};
use gs_dump::DumpRecord;
use gs_journal::Entry;
use gs_layout::Refusal;
use gs_policy::AnyPolicy;
use gs_script::read_script;
use std::alloc::{AllocError, Global};

/// How a replacement of the agent ends.
#[derive(Clone, Copy, PartialEq, Eq, Debug)]
enum End {
    /// The new agent is active on CPU 0.
    Active,
    /// An event on the way was refused.
    Refused(Refusal),
    /// The enclave was torn down.
    Torn,
}

/// A script, the most threads of a page (none counts as one), and how the agent's replacement ends after so many
/// events of the script, and after more. If nothing is said, the new agent becomes active.
type Row = (&'static str, u16, &'static [(usize, End)]);

/// Of some threads no message was read, and one of them is dead.
const SEVERAL: &str =
    "cpus 2 ring 256\ncreate 3 0 r a\ncreate 3 1 b b\ncreate 1 0 r -\naffinity 2 1\ndie 3\ntick 0\ndrain 2\ncreate 2 0 r d\n";

const ROWS: [Row; 16] = [
    (
        "cpus 2 ring 128\ncreate 3 0 r web\ndrain 1\nstamp 1 1\ncommit 2\n",
        1,
        &[],
    ),
    // A thread blocks, wakes, yields and dies.
    (
        "cpus 2 ring 256\ncreate 3 0 r a\ndrain 1\nstamp 1 1\ncommit 2\nyield 1\ndrain 1\nstamp 1 1\ncommit 2\ndie 1\ndrain 1\n",
        1,
        &[],
    ),
    (
        "cpus 2 ring 256\ncreate 3 0 r a\ndrain 1\nstamp 1 1\ncommit 2\nblock 1\nwake 1\nwake 1\ndrain 2\ndecide\ncommit 2\n",
        1,
        &[],
    ),
    // A new mask takes a thread off a CPU.
    (
        "cpus 3 ring 256\ncreate 7 1 r -\ndrain 1\nstamp 1 1\ncommit 2\naffinity 1 2\naffinity 1 5\ndrain 9\n",
        1,
        &[],
    ),
    // The new agent takes CPU 0 from a thread.
    (
        "cpus 2 ring 256\ncreate 3 0 r a\ndrain 1\nhandoff 1\ndecide\ncommit 1\nhandoff 0\ndrain 1\ndecide\ncommit 2\n",
        1,
        &[],
    ),
    // One thread preempts the other.
    (
        "cpus 2 ring 256 policy two 2\ncreate 3 1 r lo\ndrain 1\ndecide\ncommit 2\ncreate 3 0 r hi\ndrain 1\ndecide\ncommit 2\ndrain 1\n",
        1,
        &[],
    ),
    (SEVERAL, 1, &[]),
    (SEVERAL, 0, &[]),
    (SEVERAL, 65_535, &[]),
    // It takes over from one that attaches, between its pages and after them.
    (
        "cpus 2 ring 256\ncreate 3 0 r a\ncreate 3 0 r b\ndrain 1\ncrash\nbegin\npage 1\naffinity 1 2\ndie 2\npage 1\nactivate 0\ndrain 9\n",
        1,
        &[],
    ),
    (
        "cpus 2 ring 256\ncreate 3 0 r a\ncreate 3 0 r b\ncrash\nbegin two 1\npage 1\ncrash\nbegin\ndrain 1\npage 5\nactivate 1\ndrain 5\n",
        1,
        &[],
    ),
    // The other class holds CPU 0.
    (
        "cpus 2 ring 128\ncreate 3 0 r a\nhandoff 1\ntake 0\ndrain 1\ngive 0\n",
        1,
        &[(3, End::Refused(Refusal::CpuTaken)), (5, End::Active)],
    ),
    // No generation is left.
    (
        "cpus 2 ring 128 first-gen 4294967294\ncreate 3 0 r a\nhandoff 1\ncrash\n",
        1,
        &[(2, End::Refused(Refusal::GenSpent))],
    ),
    // No number is left for the message to the thread on CPU 0.
    (
        "cpus 2 ring 256 first-tseq 4294967294\ncreate 3 0 r a\nhandoff 1\ndrain 1\nstamp 0 1\ncommit 1\n",
        1,
        &[(5, End::Refused(Refusal::SeqSpent))],
    ),
    // That message does not fit, and then the enclave was torn down before.
    (
        "cpus 2 ring 128\ncreate 3 0 r a\nhandoff 1\ndrain 1\nstamp 0 1\ncommit 1\ncreate 3 0 r b\ncreate 3 0 r c\ncreate 3 0 r d\ncreate 3 0 r e\n",
        1,
        &[(8, End::Torn), (9, End::Refused(Refusal::Gone))],
    ),
    // The journal has no room for all that a replacement adds.
    (
        "cpus 2 ring 256 history 5\ncreate 3 0 r a\ncreate 3 0 r b\ncreate 3 0 r c\ncreate 3 0 r d\n",
        1,
        &[(1, End::Refused(Refusal::HistoryFull))],
    ),
];

/// How a replacement is to end after so many events.
fn wanted_after(ends: &[(usize, End)], count: usize) -> End {
    let mut wanted = End::Active;
    for (from, end) in ends {
        if *from <= count {
            wanted = *end;
        }
    }
    wanted
}

/// Whether an agent became active on CPU 0.
fn is_role(entry: &Entry) -> bool {
    match entry {
        Entry::Role { cpu, .. } => *cpu == 0,
        _ => false,
    }
}

/// How a replacement ended.
fn end_of(replies: &[Reply]) -> Option<End> {
    match replies.last()? {
        Reply::Refused(refusal) => Some(End::Refused(*refusal)),
        Reply::Torn => Some(End::Torn),
        Reply::Done(entry) => {
            if is_role(entry) {
                Some(End::Active)
            } else {
                None
            }
        }
        _ => None,
    }
}

/// How many replies a whole replacement has. They are those of the crash of an agent that there is, of the
/// beginning, of each page, and of the activation.
fn most_replies(has_agent: bool, living: usize, max: u16) -> usize {
    let pages = if max > 1 { 1 } else { living.max(1) };
    let others = if has_agent { 3 } else { 2 };
    pages.saturating_add(others)
}

/// Whether an agent knows just these threads, each as it is.
fn knows(role: &Role<AnyPolicy>, living: &[DumpRecord]) -> bool {
    let mut walk = role.view().walk();
    for thread in living {
        let Some((tid, facts, tseq)) = walk.next() else {
            return false;
        };
        let known = &thread.known;
        if tid != thread.tid || *facts != known.facts || tseq != known.tseq {
            return false;
        }
    }
    walk.next().is_none()
}

/// Whether a drain went to its end.
fn is_whole(drained: &Drained) -> bool {
    drained.stop.is_none()
}

/// The agent takes in all messages that wait: whether it knows then what the kernel has of the threads that live.
fn catches_up(alloc: Global, machine: &mut Machine<AnyPolicy>) -> Result<bool, AllocError> {
    let drained = match machine.step(&Event::Drain { max: u32::MAX }) {
        Reply::Drained(drained) => is_whole(&drained),
        _ => false,
    };
    let living = machine.kernel().live_threads(alloc)?;
    match machine.role() {
        Some(role) => Ok(drained && knows(role, &living)),
        None => Ok(false),
    }
}

/// Whether the agent's replacement ends as it has to, and a new agent catches up.
fn is_replaced(
    alloc: Global,
    machine: &mut Machine<AnyPolicy>,
    max: u16,
    wanted: End,
) -> Result<bool, AllocError> {
    let living = machine.kernel().live_threads(alloc)?.len();
    let most = most_replies(machine.kernel().has_agent(), living, max);
    let replies = machine.replace(0, max.max(1))?;
    if end_of(&replies) != Some(wanted) {
        return Ok(false);
    }
    if wanted == End::Active {
        return Ok(replies.len() == most && catches_up(alloc, machine)?);
    }
    Ok(replies.len() <= most)
}

/// Whether that is so of a new machine after events.
fn is_replaced_after(
    alloc: Global,
    config: Config<AnyPolicy>,
    events: &[Event<AnyPolicy>],
    max: u16,
    wanted: End,
) -> Option<bool> {
    let mut machine = Machine::new(alloc, config).ok()?;
    for event in events {
        machine.step(event);
    }
    is_replaced(alloc, &mut machine, max, wanted).ok()
}

/// How many events of a script come before the first replacement that goes wrong.
fn first_wrong_event(
    alloc: Global,
    config: Config<AnyPolicy>,
    events: &[Event<AnyPolicy>],
    ends: &[(usize, End)],
    max: u16,
) -> Option<usize> {
    for count in 0..=events.len() {
        let wanted = wanted_after(ends, count);
        let before = &events[..count];
        if is_replaced_after(alloc, config, before, max, wanted) != Some(true) {
            return Some(count);
        }
    }
    None
}

/// The same of a script, as text. One that is not read goes wrong before its first event.
fn first_wrong_in(alloc: Global, text: &str, ends: &[(usize, End)], max: u16) -> Option<usize> {
    match read_script(alloc, text.as_bytes()) {
        Ok(script) => first_wrong_event(alloc, script.config, &script.events, ends, max),
        Err(_) => Some(0),
    }
}

/// The first row that goes wrong, and after how many of its events.
fn first_wrong(alloc: Global) -> Option<(usize, usize)> {
    for (row, (text, max, ends)) in ROWS.iter().enumerate() {
        if let Some(count) = first_wrong_in(alloc, text, ends, *max) {
            return Some((row, count));
        }
    }
    None
}

#[test]
fn learns_who_lives(rt: HostRuntime) {
    assert_eq!(rt; first_wrong(rt.alloc()), None);
}
