//! A role of an agent through drains, stamps, slots that land, and decisions.

ghost use Rattle.std.specs.Prelude.{◌≡◌, ◌<◌, IfErr, IfOk, OnErr, OnOk, Some, length, slice_get, slice_set, true, false, ℕ, List};
ghost use Rattle.gs_agent.specs.Role.{stamp_refusal};
ghost use Rattle.gs_layout.specs.View.{look_up};
ghost use Rattle.gs_agent.specs.Mind.{picture_of, thinks};
ghost use Rattle.gs_agent.specs.Picture.{after_stamp};
ghost use Rattle.gs_slots.specs.Flags.{single};
ghost use Rattle.gs_slots.specs.declared.state.SlotState.{SlotState};
ghost use Rattle.gs_slots.specs.Reading.{state_in};
ghost use Rattle.gs_slots.specs.Spelling.{slot_spelling};

use crate::messages::Told::{self, Creation, Thread, Tick};
use crate::messages::Tried;
use crate::owned::let_go;
use crate::plans::{Plan, is_order, is_plan};
use gs_agent::{Drained, Role, Stop};
use gs_layout::{Change, Class, Outcome, Refusal};
use gs_policy::{Choice, Counted, FirstCome, Policy, TwoClass};
use gs_ring::{ByteRing, Poster};
use gs_slots::{Flags, Region, SlotMut, SlotState, Stamp};
use gs_status::Mask;
use std::alloc::{AllocError, Global};

/// A policy that plans nothing.
#[derive(Clone, Copy, PartialEq, Eq, Debug)]
struct Idler;

/// A drain of at most so many messages, what it takes in, and what is so then. That is of how many threads
/// something is known, the number of thread 7, and how many messages still wait.
type DrainRow = (u32, Drained, usize, Option<u32>, usize);

/// What is done to a role and to the slots.
#[derive(Clone, Copy)]
enum Deed {
    /// A thread that is to preempt is stamped into the slot of a CPU, which returns this.
    Stamped(u16, u32, Result<u32, Refusal>),
    /// The transaction in the slot of a CPU is placed on CPU 0.
    Land(u16),
    /// The slots are collected.
    Collect,
}

use Deed::{Collect, Land, Stamped};

/// What is done, what is then in the slots of three CPUs, and who is believed to run on CPU 0, by its tid, its
/// number and its ticks.
type SlotRow = (Deed, [SlotState; 3], Option<(u32, u32, u16)>);

/// The mask of the CPUs that the other class holds, and what is decided then.
type DecisionRow = (u128, Plan);

const SEVENTH: Told = Creation(7, 5, Class::Zero, 3, "web");

const NINTH: Told = Creation(9, 6, Class::Zero, 3, "web");

const NOTHING: Drained = Drained {
    count: 0,
    skipped: 0,
    orphans: 0,
    stop: None,
};

/// One message.
const ONE: Drained = Drained {
    count: 1,
    skipped: 0,
    orphans: 0,
    stop: None,
};

/// Nothing waits.
const NO_MESSAGE: [DrainRow; 1] = [(9, NOTHING, 0, None, 0)];

/// A creation, a tick, a message that is known already, one about an unknown thread, and a death.
const FIVE_TOLD: [Told; 5] = [
    SEVENTH,
    Tick(1),
    Thread(7, 5, Change::Blocked { cpu: 1 }),
    Thread(8, 6, Change::Wakeup),
    Thread(7, 6, Change::Dead { cpu: None }),
];

/// They are drained bit by bit.
const FIVE_DRAINED: [DrainRow; 3] = [
    (0, NOTHING, 0, None, 5),
    (
        2,
        Drained {
            count: 2,
            skipped: 0,
            orphans: 0,
            stop: None,
        },
        1,
        Some(5),
        3,
    ),
    (
        9,
        Drained {
            count: 3,
            skipped: 1,
            orphans: 1,
            stop: None,
        },
        0,
        None,
        0,
    ),
];

/// A message is missing before the second of these.
const GAP_TOLD: [Told; 3] = [SEVENTH, Thread(7, 7, Change::Blocked { cpu: 1 }), Tick(1)];

/// Each drain stops before it.
const GAP_DRAINED: [DrainRow; 2] = [
    (
        9,
        Drained {
            count: 1,
            skipped: 0,
            orphans: 0,
            stop: Some(Stop::Gap),
        },
        1,
        Some(5),
        2,
    ),
    (
        9,
        Drained {
            count: 0,
            skipped: 0,
            orphans: 0,
            stop: Some(Stop::Gap),
        },
        1,
        Some(5),
        2,
    ),
];

const SEVENTH_STAMP: Stamp = Stamp {
    generation: 3,
    tid: 7,
    tseq: 5,
    flags: Flags {
        preempt: true,
        ..Flags::NONE
    },
};

const IDLE: SlotState = SlotState::Idle;

const SEVENTH_STAMPED: SlotState = SlotState::Stamped {
    stamp: SEVENTH_STAMP,
};

const SEVENTH_DONE: SlotState = SlotState::Done {
    stamp: SEVENTH_STAMP,
    outcome: Outcome::Placed,
    at: Some(0),
    seen: 5,
};

const NINTH_STAMPED: SlotState = SlotState::Stamped {
    stamp: Stamp {
        generation: 3,
        tid: 9,
        tseq: 6,
        flags: Flags {
            preempt: true,
            ..Flags::NONE
        },
    },
};

/// A stamp has the number that is known of its thread.
const STAMPS: [SlotRow; 2] = [
    (Stamped(1, 7, Ok(5)), [IDLE, SEVENTH_STAMPED, IDLE], None),
    (
        Stamped(2, 9, Ok(6)),
        [IDLE, SEVENTH_STAMPED, NINTH_STAMPED],
        None,
    ),
];

/// Nothing is known of thread 8. That is said first, even if the slot is not idle.
const UNKNOWN: [SlotRow; 3] = [
    (
        Stamped(0, 8, Err(Refusal::NoThread)),
        [IDLE, IDLE, IDLE],
        None,
    ),
    (Stamped(0, 7, Ok(5)), [SEVENTH_STAMPED, IDLE, IDLE], None),
    (
        Stamped(0, 8, Err(Refusal::NoThread)),
        [SEVENTH_STAMPED, IDLE, IDLE],
        None,
    ),
];

/// A slot takes no second transaction until it is collected.
const OPEN: [SlotRow; 4] = [
    (Stamped(0, 7, Ok(5)), [SEVENTH_STAMPED, IDLE, IDLE], None),
    (
        Stamped(0, 9, Err(Refusal::SlotOpen)),
        [SEVENTH_STAMPED, IDLE, IDLE],
        None,
    ),
    (Land(0), [SEVENTH_DONE, IDLE, IDLE], None),
    (
        Stamped(0, 9, Err(Refusal::SlotOpen)),
        [SEVENTH_DONE, IDLE, IDLE],
        None,
    ),
];

/// Only the slot that is done is freed, and then it takes a transaction again.
const COLLECTED: [SlotRow; 5] = [
    (Stamped(0, 7, Ok(5)), [SEVENTH_STAMPED, IDLE, IDLE], None),
    (
        Stamped(1, 9, Ok(6)),
        [SEVENTH_STAMPED, NINTH_STAMPED, IDLE],
        None,
    ),
    (Land(0), [SEVENTH_DONE, NINTH_STAMPED, IDLE], None),
    (Collect, [IDLE, NINTH_STAMPED, IDLE], Some((7, 5, 0))),
    (
        Stamped(0, 9, Ok(6)),
        [NINTH_STAMPED, NINTH_STAMPED, IDLE],
        Some((7, 5, 0)),
    ),
];

/// Thread 7 runs on CPU 0.
const RUNS: [SlotRow; 3] = [
    (Stamped(0, 7, Ok(5)), [SEVENTH_STAMPED, IDLE, IDLE], None),
    (Land(0), [SEVENTH_DONE, IDLE, IDLE], None),
    (Collect, [IDLE, IDLE, IDLE], Some((7, 5, 0))),
];

/// Of two CPUs the agent has the first. The other class holds CPU 1 for one decision alone.
const DECISIONS: [DecisionRow; 3] = [(0, &[(1, 7, false)]), (0b10, &[]), (0, &[(1, 7, false)])];

/// A ring of so many bytes in which these wait, each of which has to be a message for which there is room.
pub(crate) fn ring_with(alloc: Global, capacity: usize, told: &[Told]) -> Option<ByteRing>
    requires { length told.now < 1000 }
{
    let mut ring = ByteRing::new(alloc, capacity).ok()?;
    for one in told {
        ring.post(&one.message()?).ok()?;
    }
    Some(ring)
}

/// A role of generation 3 on CPU 3 of four, that knows nothing yet.
fn new_role(alloc: Global) -> Option<Role<Idler>> {
    Role::new(alloc, Idler, 4, 3, 3).ok()
}

/// Drains a ring: whether a role takes all in, and knows two threads then.
fn takes_two_in<P>(role: &mut Role<P>, ring: &mut ByteRing) -> bool {
    role.drain(ring, 9).stop.is_none() && role.view().len() == 2
}

/// A role hears of thread 7, with number 5, and of thread 9, with number 6: whether it took both in.
fn hears_of_two<P>(alloc: Global, role: &mut Role<P>) -> bool {
    match ring_with(alloc, 1024, &[SEVENTH, NINTH]) {
        Some(mut ring) => takes_two_in(role, &mut ring),
        None => false,
    }
}

/// What a role decides, by the bound alone.
fn decided<P: Policy>(
    alloc: Global,
    role: &Role<P>,
    taken: Mask,
) -> Result<Vec<Choice>, AllocError> {
    role.decide(alloc, taken)
}

/// What a role puts into a list, by the bound alone.
fn decided_into<P: Policy>(
    alloc: Global,
    role: &Role<P>,
    taken: Mask,
) -> Result<Vec<Choice>, AllocError> {
    let mut choices = Vec::new(alloc);
    role.decide_into(alloc, taken, &mut choices)?;
    Ok(choices)
}

/// How many choices a role counts, by the bound alone.
fn counted<P: Counted>(role: &Role<P>, taken: Mask) -> usize {
    role.count(taken)
}

/// The number that is known of thread 7.
fn seventh(role: &Role<Idler>) -> Option<u32> {
    Some(role.view().get(7)?.1)
}

/// The first drain of a ring that a role does not take as a row says, or after which it knows something else.
fn first_wrong_drain(
    role: &mut Role<Idler>,
    ring: &mut ByteRing,
    rows: &[DrainRow],
) -> Option<usize> {
    for (index, row) in rows.iter().enumerate() {
        let (max, drained, known, number, left) = row;
        let well = role.drain(ring, *max) == *drained
            && role.view().len() == *known
            && seventh(role) == *number
            && ring.waiting().len() == *left;
        if !well {
            return Some(index);
        }
    }
    None
}

/// Stamps a thread that is to preempt into the slot of a CPU of the region.
#[tactic(auto, using(gs_slots::proofs::Laws::set_as_it_was))]
fn stamp_one(
    role: &mut Role<Idler>,
    region: &mut Region,
    cpu: u16,
    tid: u32,
) -> Result<u32, Refusal>
    requires { cpu < length region.old }
    ensures ok { IfOk result (λ tseq. region.new ≡ slice_set region.old cpu (slot_spelling cpu (SlotState.Stamped (record { generation = role.old.generation; tid = tid; tseq = tseq; flags = single true })))) }
    ensures role { OnOk result (role.new ≡ record role.old { mind = thinks role.old.mind (after_stamp cpu tid (picture_of role.old.mind)) }) }
    ensures refused { IfErr result (λ refusal. (bytes : List ℕ) → slice_get region.old cpu ≡ Some bytes → stamp_refusal (look_up role.old.mind.records tid) (state_in cpu bytes) ≡ Some refusal) }
    ensures unchanged { OnErr result (region.new ≡ region.old) }
    ensures as_before { OnErr result (role.new ≡ role.old) }
{
    role.stamp(region.slot(cpu), tid, Flags::single(true))
}

/// Says of a stamped slot that its transaction was placed on CPU 0: whether it was stamped.
fn place(slot: SlotMut<'_>) -> bool {
    let Ok(SlotState::Stamped { .. }) = slot.state() else {
        return false;
    };
    slot.finish(Outcome::Placed, Some(0), 5);
    true
}

/// Does what a row says, and returns whether it came out so. The region has to have the slot.
fn is_answered(role: &mut Role<Idler>, region: &mut Region, deed: &Deed) -> bool {
    match deed {
        Deed::Stamped(cpu, tid, answer) => {
            *cpu < region.cpus() && stamp_one(role, region, *cpu, *tid) == *answer
        }
        Deed::Land(cpu) => *cpu < region.cpus() && place(region.slot(*cpu)),
        Deed::Collect => {
            role.collect(region);
            true
        }
    }
}

/// Whether a region has just these slots.
fn has_slots(region: &Region, slots: &[SlotState; 3]) -> bool {
    region.cpus() == 3
        && region.state(0) == Ok(slots[0])
        && region.state(1) == Ok(slots[1])
        && region.state(2) == Ok(slots[2])
}

/// Who is believed to run on a CPU, by its tid, its number and its ticks.
fn runner(role: &Role<Idler>, cpu: u16) -> Option<(u32, u32, u16)> {
    let running = role.believed(cpu)?;
    Some((running.tid, running.tseq, running.ticks))
}

/// The first row that a role which knows threads 7 and 9 does not take as it says. Also one after which the
/// slots or its beliefs are not as it says.
fn first_wrong_slot(
    role: &mut Role<Idler>,
    region: &mut Region,
    rows: &[SlotRow],
) -> Option<usize> {
    for (index, row) in rows.iter().enumerate() {
        let (deed, slots, runs) = row;
        let well = is_answered(role, region, deed)
            && has_slots(region, slots)
            && runner(role, 0) == *runs
            && runner(role, 1).is_none()
            && role.view().len() == 2;
        if !well {
            return Some(index);
        }
    }
    None
}

/// Whether a role decides this, and puts it into a list.
fn is_decided<P: Policy>(alloc: Global, role: &Role<P>, taken: Mask, expected: Plan) -> bool {
    match (
        decided(alloc, role, taken),
        decided_into(alloc, role, taken),
    ) {
        (Ok(choices), Ok(put)) => is_plan(&choices, expected) && is_plan(&put, expected),
        _ => false,
    }
}

/// The first row that a role does not decide, or counts otherwise.
fn first_undecided<P: Counted>(
    alloc: Global,
    role: &Role<P>,
    rows: &[DecisionRow],
) -> Option<usize> {
    for (index, (taken, expected)) in rows.iter().enumerate() {
        let taken = Mask::new(*taken);
        let well = is_decided(alloc, role, taken, expected)
            && counted(role, taken) == expected.len();
        if !well {
            return Some(index);
        }
    }
    None
}

/// Whether a role is of generation 3, by the policy that it was given, and knows and believes nothing yet.
fn is_blank(role: &Role<Idler>) -> bool {
    role.generation() == 3
        && *role.policy() == Idler
        && role.view().is_empty()
        && role.believed(0).is_none()
        && is_order(role.waiting(), &[])
}

// What owns a role, a ring or slots has one way out once they are made, and whatever it calls borrows them. A proof goes through all that
// they drop at each way out.

/// Whether a new role is blank.
fn begins_blank(alloc: Global) -> bool {
    match new_role(alloc) {
        Some(role) => {
            let blank = is_blank(&role);
            let_go(role);
            blank
        }
        None => false,
    }
}

/// Tries drains of a ring on a new role.
fn tried_on_ring(alloc: Global, ring: &mut ByteRing, rows: &[DrainRow]) -> Tried {
    match new_role(alloc) {
        Some(mut role) => {
            let wrong = first_wrong_drain(&mut role, ring, rows);
            let_go(role);
            Tried::with(wrong)
        }
        None => Tried::NotMade,
    }
}

/// The same, if these wait in the ring.
fn tried_drains(alloc: Global, told: &[Told], rows: &[DrainRow]) -> Tried
    requires { length told.now < 1000 }
{
    match ring_with(alloc, 1024, told) {
        Some(mut ring) => tried_on_ring(alloc, &mut ring, rows),
        None => Tried::NotMade,
    }
}

/// Tries rows on a role that hears of threads 7 and 9 first, with these slots.
fn tried_on_region(
    alloc: Global,
    role: &mut Role<Idler>,
    region: &mut Region,
    rows: &[SlotRow],
) -> Tried {
    if !hears_of_two(alloc, role) {
        return Tried::NotMade;
    }
    Tried::with(first_wrong_slot(role, region, rows))
}

/// The same, with three idle slots.
fn tried_on_role(alloc: Global, role: &mut Role<Idler>, rows: &[SlotRow]) -> Tried {
    match Region::new(alloc, 3) {
        Ok(mut region) => tried_on_region(alloc, role, &mut region, rows),
        Err(_) => Tried::NotMade,
    }
}

/// The same, on a new role.
fn tried_slots(alloc: Global, rows: &[SlotRow]) -> Tried {
    match new_role(alloc) {
        Some(mut role) => {
            let tried = tried_on_role(alloc, &mut role, rows);
            let_go(role);
            tried
        }
        None => Tried::NotMade,
    }
}

// A function for each table: a proof is cheaper if it sees one table alone.
fn try_no_message(alloc: Global) -> Tried {
    tried_drains(alloc, &[], &NO_MESSAGE)
}

fn try_five(alloc: Global) -> Tried {
    tried_drains(alloc, &FIVE_TOLD, &FIVE_DRAINED)
}

fn try_gap(alloc: Global) -> Tried {
    tried_drains(alloc, &GAP_TOLD, &GAP_DRAINED)
}

fn try_stamps(alloc: Global) -> Tried {
    tried_slots(alloc, &STAMPS)
}

fn try_unknown(alloc: Global) -> Tried {
    tried_slots(alloc, &UNKNOWN)
}

fn try_open(alloc: Global) -> Tried {
    tried_slots(alloc, &OPEN)
}

fn try_collected(alloc: Global) -> Tried {
    tried_slots(alloc, &COLLECTED)
}

fn try_runs(alloc: Global) -> Tried {
    tried_slots(alloc, &RUNS)
}

#[test]
fn drains(rt: HostRuntime) {
    let blank = begins_blank(rt.alloc());
    let tried = [
        try_no_message(rt.alloc()),
        try_five(rt.alloc()),
        try_gap(rt.alloc()),
    ];
    assert_eq!(rt; (blank, tried), (true, [Tried::Well; 3]));
}

#[test]
fn stamps_and_collects(rt: HostRuntime) {
    let tried = [
        try_stamps(rt.alloc()),
        try_unknown(rt.alloc()),
        try_open(rt.alloc()),
        try_collected(rt.alloc()),
        try_runs(rt.alloc()),
    ];
    assert_eq!(rt; tried, [Tried::Well; 5]);
}

/// What a role drains of a ring in which it waits that thread 7 is blocked on CPU 0.
fn drains_a_block(alloc: Global, role: &mut Role<Idler>) -> Option<Drained> {
    match ring_with(alloc, 128, &[Thread(7, 6, Change::Blocked { cpu: 0 })]) {
        Some(mut ring) => Some(role.drain(&mut ring, 9)),
        None => None,
    }
}

/// Whether this role runs thread 7 on CPU 0, and believes that no more once it hears that it is blocked.
fn runs_until_a_block(alloc: Global, role: &mut Role<Idler>) -> bool {
    tried_on_role(alloc, role, &RUNS) == Tried::Well
        && drains_a_block(alloc, role) == Some(ONE)
        && role.believed(0).is_none()
}

/// The same of a new role.
fn hears_of_a_block(alloc: Global) -> Option<bool> {
    match new_role(alloc) {
        Some(mut role) => {
            let runs = runs_until_a_block(alloc, &mut role);
            let_go(role);
            Some(runs)
        }
        None => None,
    }
}

/// Whether a role decides as the rows say once it hears of threads 7 and 9, and both wait.
fn decides_of_two<P: Counted>(alloc: Global, role: &mut Role<P>) -> bool {
    hears_of_two(alloc, role)
        && is_order(role.waiting(), &[7, 9])
        && first_undecided(alloc, role, &DECISIONS).is_none()
}

/// The same of a role on CPU 0 of two that plans by this policy: they wait for CPU 1.
fn decides<P: Counted + Drop>(alloc: Global, policy: P) -> Option<bool> {
    match Role::new(alloc, policy, 2, 3, 0) {
        Ok(mut role) => {
            let well = decides_of_two(alloc, &mut role);
            let_go(role);
            Some(well)
        }
        Err(_) => None,
    }
}

#[test]
fn believes_and_decides(rt: HostRuntime) {
    let believes = hears_of_a_block(rt.alloc());
    let first_come = decides(rt.alloc(), FirstCome);
    let two_class = decides(rt.alloc(), TwoClass { slice: 2 });
    assert_eq!(rt;
        (believes, first_come, two_class),
        (Some(true), Some(true), Some(true))
    );
}
