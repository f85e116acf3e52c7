//! What a commit with a group returns, and how many entries come of it.

use gs_kernel::{Command, Kernel, LEAST_HISTORY, Landing, MOST_HISTORY, Settings};
use gs_layout::{Class, Facts, Name, Outcome};
use gs_ring::ByteRing;
use gs_slots::{Flags, Region, SlotState, Stamp};
use gs_status::Mask;
use std::alloc::Global;

/// A transaction: its CPU, its thread, the number that it was stamped at, whether it takes a thread off, and whether
/// it is one of a group.
type Wish = (u16, u32, u32, bool, bool);

/// What landed: its CPU, its thread, the outcome, the thread's number before, and where it is then.
type Landed = (u16, u32, Outcome, u32, Option<u16>);

/// How many entries the journal may have, how many ticks fill the ring beforehand, and what is stamped. Then what a commit of all CPUs
/// returns, and how many entries come of it.
type Row = (u32, u16, &'static [Wish], &'static [Landed], usize);

use Outcome::{AlreadyPlaced, Gone, GroupFailed, HistoryFull, Placed, Stale};

/// Of six CPUs, of which the agent has the first. Thread 1 is on CPU 1 and thread 2 on CPU 2; threads 3 and 4 are on none.
const ROWS: [Row; 15] = [
    // all are placed, and who was there makes way
    (
        100,
        0,
        &[(1, 3, 1, true, true), (2, 4, 1, true, true)],
        &[(1, 3, Placed, 1, Some(1)), (2, 4, Placed, 1, Some(2))],
        4,
    ),
    // one is stale: nobody is placed, and nobody is told
    (
        100,
        0,
        &[(1, 3, 1, true, true), (2, 4, 9, true, true)],
        &[(1, 3, GroupFailed, 1, None), (2, 4, Stale, 1, None)],
        0,
    ),
    // one thread in two slots
    (
        100,
        0,
        &[(3, 3, 1, false, true), (4, 3, 1, false, true)],
        &[(3, 3, GroupFailed, 1, None), (4, 3, GroupFailed, 1, None)],
        0,
    ),
    // a thread that would make way for another of the group is placed already
    (
        100,
        0,
        &[(1, 3, 1, true, true), (3, 1, 1, false, true)],
        &[
            (1, 3, GroupFailed, 1, None),
            (3, 1, AlreadyPlaced, 1, Some(1)),
        ],
        0,
    ),
    // a group of one lands as without the flag, but before the others
    (
        100,
        0,
        &[(1, 3, 1, true, false), (4, 4, 1, false, true)],
        &[(4, 4, Placed, 1, Some(4)), (1, 3, Placed, 1, Some(1))],
        3,
    ),
    // behind it a slot that names who made way is stale, and one that names who was placed finds it placed
    (
        100,
        0,
        &[
            (1, 3, 1, true, true),
            (3, 1, 1, false, false),
            (4, 3, 1, false, false),
        ],
        &[
            (1, 3, Placed, 1, Some(1)),
            (3, 1, Stale, 2, None),
            (4, 3, AlreadyPlaced, 1, Some(1)),
        ],
        2,
    ),
    // the journal has room for one entry: each would fit by itself
    (
        8,
        0,
        &[(3, 3, 1, false, true), (4, 4, 1, false, true)],
        &[(3, 3, HistoryFull, 1, None), (4, 4, HistoryFull, 1, None)],
        0,
    ),
    // and for one that needs two
    (
        8,
        0,
        &[(1, 3, 1, true, true), (4, 4, 1, false, true)],
        &[(1, 3, HistoryFull, 1, None), (4, 4, GroupFailed, 1, None)],
        0,
    ),
    // it has room for just those that there are
    (
        10,
        0,
        &[(1, 3, 1, true, true), (4, 4, 1, false, true)],
        &[(1, 3, Placed, 1, Some(1)), (4, 4, Placed, 1, Some(4))],
        3,
    ),
    // a group that fails leaves the others as they would be without it
    (
        100,
        0,
        &[
            (1, 3, 1, true, false),
            (2, 4, 9, true, true),
            (3, 2, 1, false, true),
        ],
        &[
            (2, 4, Stale, 1, None),
            (3, 2, AlreadyPlaced, 1, Some(2)),
            (1, 3, Placed, 1, Some(1)),
        ],
        2,
    ),
    // two groups cannot be: all that have the flag are one
    (
        100,
        0,
        &[
            (1, 3, 1, true, true),
            (3, 4, 1, false, true),
            (4, 9, 1, false, true),
        ],
        &[
            (1, 3, GroupFailed, 1, None),
            (3, 4, GroupFailed, 1, None),
            (4, 9, Outcome::NoThread, 0, None),
        ],
        0,
    ),
    // a group on the agent's CPU
    (
        100,
        0,
        &[(0, 3, 1, true, true), (3, 4, 1, false, true)],
        &[
            (0, 3, Outcome::CpuIsAgent, 1, None),
            (3, 4, GroupFailed, 1, None),
        ],
        0,
    ),
    // there is room for one message of two: the first stays told, and all are gone
    (
        100,
        5,
        &[
            (1, 3, 1, true, true),
            (2, 4, 1, true, true),
            (3, 3, 1, false, false),
        ],
        &[
            (1, 3, Gone, 1, None),
            (2, 4, Gone, 1, None),
            (3, 3, Gone, 1, None),
        ],
        2,
    ),
    // a slot of a group that fails keeps its own outcome, though another of its thread is in the group
    (
        100,
        0,
        &[(3, 3, 9, false, true), (4, 3, 1, false, true)],
        &[(3, 3, Stale, 1, None), (4, 3, GroupFailed, 1, None)],
        0,
    ),
    // without the flag each lands by itself
    (
        100,
        0,
        &[(1, 3, 1, true, false), (2, 4, 9, true, false)],
        &[(1, 3, Placed, 1, Some(1)), (2, 4, Stale, 1, None)],
        2,
    ),
];

/// A kernel of six CPUs, with a ring of 256 bytes, whose journal may have so many entries.
fn kernel_with(alloc: Global, history: u32) -> Option<Kernel<ByteRing>> {
    if history < LEAST_HISTORY || history > MOST_HISTORY {
        return None;
    }
    let settings = Settings {
        cpus: 6,
        first_tseq: 0,
        first_generation: 1,
        history,
    };
    let ring = ByteRing::new(alloc, 256).ok()?;
    Kernel::new(alloc, settings, ring).ok()
}

fn create(kernel: &mut Kernel<ByteRing>) -> Option<()> {
    let facts = Facts {
        runnable: true,
        mask: Mask::new(0b111111),
        class: Class::Zero,
        name: Name::new(b"a")?,
    };
    kernel.create(&facts).ok()?;
    Some(())
}

/// What is stamped.
fn stamp_of(tried: &Wish) -> Stamp {
    let (_, tid, tseq, preempt, group) = *tried;
    Stamp {
        generation: 1,
        tid,
        tseq,
        flags: Flags {
            group,
            ..Flags::single(preempt)
        },
    }
}

/// Threads 1 and 2 run on their CPUs, and the ring is filled by ticks.
fn begin(kernel: &mut Kernel<ByteRing>, ticks: u16) -> Option<()> {
    for _ in 0..4 {
        create(kernel)?;
    }
    if kernel.settings().cpus < 3 {
        return None;
    }
    kernel
        .land_stamp(1, &stamp_of(&(1, 1, 1, false, false)))
        .ok()?;
    kernel
        .land_stamp(2, &stamp_of(&(2, 2, 1, false, false)))
        .ok()?;
    for _ in 0..ticks {
        kernel.execute(&Command::Tick { cpu: 0 }).ok()?;
    }
    Some(())
}

/// Stamps transactions into the slots of their CPUs.
fn stamp_all(region: &mut Region, tried: &[Wish]) -> Option<()> {
    for one in tried {
        if one.0 >= region.cpus() {
            return None;
        }
        let Stamp {
            generation,
            tid,
            tseq,
            flags,
        } = stamp_of(one);
        region.slot(one.0).stamp(generation, tid, tseq, flags).ok()?;
    }
    Some(())
}

fn is_landed(landing: &Landing, wanted: &Landed) -> bool {
    let (cpu, tid, outcome, seen, at) = *wanted;
    *landing
        == Landing {
            cpu,
            tid,
            outcome,
            seen,
            at,
        }
}

/// Whether a slot is done with this.
fn is_done(region: &Region, wanted: &Landed) -> bool {
    let (cpu, tid, outcome, seen, at) = *wanted;
    if cpu >= region.cpus() {
        return false;
    }
    match region.state(cpu) {
        Ok(
            SlotState::Done {
                stamp,
                outcome: found,
                at: place,
                seen: number,
            },
        ) => stamp.tid == tid && found == outcome && place == at && number == seen,
        _ => false,
    }
}

/// Whether just these landed, in this order, and their slots say so.
fn are_landed(landings: &[Landing], region: &Region, wanted: &[Landed]) -> bool {
    landings.len() == wanted.len()
        && landings
            .iter()
            .zip(wanted)
            .all(|(one, it)| is_landed(one, it))
        && wanted.iter().all(|it| is_done(region, it))
}

/// Whether a commit of all CPUs returns what a row says, and so many entries come of it.
fn is_right(alloc: Global, kernel: &mut Kernel<ByteRing>, row: &Row) -> Option<bool> {
    let (_, ticks, tried, wanted, entries) = *row;
    begin(kernel, ticks)?;
    let mut region = Region::new(alloc, kernel.settings().cpus).ok()?;
    stamp_all(&mut region, tried)?;
    let before = kernel.journal().len();
    if region.cpus() != kernel.settings().cpus {
        return None;
    }
    let mask = Mask::new(0b111111);
    let landings = kernel.txns_commit(alloc, &mut region, mask).ok()?;
    let after = kernel.journal().len();
    Some(are_landed(&landings, &region, wanted) && after.checked_sub(before) == Some(entries))
}

/// The first row that comes out otherwise, each on a new kernel.
fn first_wrong(alloc: Global) -> Option<usize> {
    for (index, row) in ROWS.iter().enumerate() {
        let right = match kernel_with(alloc, row.0) {
            Some(mut kernel) => is_right(alloc, &mut kernel, row),
            None => None,
        };
        if right != Some(true) {
            return Some(index);
        }
    }
    None
}

#[test]
fn all_or_none_of_a_group(rt: HostRuntime) {
    assert_eq!(rt; first_wrong(rt.alloc()), None);
}

/// A late landing, and one of a slot by itself, pass over the flag.
fn lands_alone(kernel: &mut Kernel<ByteRing>) -> Option<bool> {
    begin(kernel, 0)?;
    if kernel.settings().cpus < 4 {
        return None;
    }
    let late = kernel
        .land_stamp(3, &stamp_of(&(3, 3, 1, false, true)))
        .ok()?;
    Some(is_landed(&late, &(3, 3, Placed, 1, Some(3))))
}

fn first_landing(alloc: Global) -> Option<bool> {
    match kernel_with(alloc, 100) {
        Some(mut kernel) => lands_alone(&mut kernel),
        None => None,
    }
}

#[test]
fn a_late_landing_has_no_group(rt: HostRuntime) {
    assert_eq!(rt; first_landing(rt.alloc()), Some(true));
}
