//! An agent that is handed off, as the board shows it.

use crate::running::{Course, run};
use gs_board::Shown;
use gs_journal::Entry;
use gs_kernel::Command as Told;
use gs_layout::Outcome;
use gs_replies::Reply;
use gs_runner::{Command, Pass, Receipt, Site, Station};
use gs_slots::{Flags, Region};
use gs_status::Mask;
use std::alloc::Global;
use std::sync::Wait;
use std::test::Fail;

/// What the board shows of these, with no CPU taken.
fn shown(generation: u32, cpu: u16) -> Shown {
    Shown {
        generation,
        cpu,
        taken: Mask::none(),
    }
}

/// Returns whether both seats read this.
fn both_read<L: Site>(
    station: &Station<L>,
    one: &mut Pass<L>,
    other: &mut Pass<L>,
    wanted: Shown,
) -> bool {
    let first = station.board().read(one.seat());
    let second = station.board().read(other.seat());
    first == wanted && second == wanted
}

/// Hands the agent off to CPU 1.
fn hand_off<L: Site, R: Wait>(rt: &R, station: &Station<L>, pass: &mut Pass<L>) -> Reply {
    let command = Command::Kernel {
        command: Told::HandOff { cpu: 1 },
    };
    station
        .enclave()
        .lock(rt)
        .serve(station.board(), pass.share(), &command)
        .reply
}

/// Stamps a transaction of generation 1 into the slot of CPU 0, if there is one.
fn stamp(region: &mut Region) {
    if region.cpus() > 0 {
        let _ = region.slot(0).stamp(1, 1, 1, Flags::NONE);
    }
}

/// Commits a transaction of generation 1 in the slot of CPU 0. `None` if the region has other than a slot for each CPU.
fn commit<L: Site, R: Wait>(
    rt: &R,
    station: &Station<L>,
    pass: &mut Pass<L>,
    region: &mut Region,
) -> Option<Receipt> {
    stamp(region);
    let mut enclave = station.enclave().lock(rt);
    if region.cpus() != enclave.kernel().settings().cpus {
        return None;
    }
    Some(enclave.commit(station.board(), pass.share(), region, Mask::new(1)))
}

/// Returns whether one transaction landed, of an agent that was displaced.
fn is_displaced(receipt: Option<Receipt>) -> bool {
    match receipt {
        Some(
            Receipt {
                reply: Reply::Landed { landings, .. },
                ..
            },
        ) => match landings.as_slice() {
            [landing] => landing.outcome == Outcome::Displaced,
            _ => false,
        },
        _ => false,
    }
}

/// Returns whether two seats, which have read the board before, read the generation and the CPU of an agent that was handed off. Besides, a
/// transaction that it stamped before has to be displaced.
fn both_see<L: Site, R: Wait>(
    rt: &R,
    station: &Station<L>,
    region: &mut Region,
    one: &mut Pass<L>,
    other: &mut Pass<L>,
) -> bool {
    let before = both_read(station, one, other, shown(1, 0));
    let reply = hand_off(rt, station, one);
    let after = both_read(station, one, other, shown(2, 1));
    let displaced = is_displaced(commit(rt, station, other, region));
    let role = Entry::Role {
        generation: 2,
        cpu: 1,
    };
    before && reply == Reply::Done(role) && after && displaced
}

/// Does that with a region of two slots.
fn both_see_with_slots<L: Site, R: Wait>(
    rt: &R,
    alloc: Global,
    station: &Station<L>,
    one: &mut Pass<L>,
    other: &mut Pass<L>,
) -> bool {
    match Region::new(alloc, 2) {
        Ok(mut region) => both_see(rt, station, &mut region, one, other),
        Err(_) => false,
    }
}

/// Does that with the first two passes.
pub(crate) fn sees_the_hand_off<L: Site, R: Wait>(
    rt: &R,
    alloc: Global,
    station: &Station<L>,
    passes: &mut [Pass<L>],
) -> bool {
    let Some((one, rest)) = passes.split_first_mut() else {
        return false;
    };
    let Some((other, _)) = rest.split_first_mut() else {
        return false;
    };
    both_see_with_slots(rt, alloc, station, one, other)
}

#[test]
fn a_hand_off_is_seen(rt: HostRuntime) -> Result<(), Fail> {
    let ended = run(&rt, rt.alloc(), 1, Course::HandOff, &mut []);
    assert!(rt;
        ended.is_some_and(|ended| ended.seen
            && ended.closed.is_some_and(|closed| closed.calls().len() == 2))
    );
    Ok(())
}
