//! A mind of three CPUs, of which the agent has the first, through messages, stamps, collected slots and plans.

ghost use Rattle.gs_layout.specs.Spelling.{IsSpellable};

use crate::messages::Told::{self, Creation, Thread, Tick};
use crate::messages::Tried;
use crate::owned::let_go;
use crate::plans::{Plan, is_order, is_plan};
use gs_agent::Mind;
use gs_beliefs::CpuBeliefs;
use gs_layout::{Change, Class, Message, Outcome, Parcel};
use gs_policy::{Counted, FirstCome, TwoClass};
use gs_reader::MessageRef;
use gs_slots::{Flags, SlotState, Stamp};
use gs_status::Mask;
use gs_view::{ApplyFault, News};
use std::alloc::{AllocError, Global};

/// What is done to a mind.
#[derive(Clone, Copy)]
enum Deed {
    /// It is told a message, and returns this.
    Tell(Told, Result<News, ApplyFault>),
    /// A thread is stamped for a CPU: the CPU, the thread.
    Stamped(u16, u32),
    /// The idle slot of a CPU is collected.
    Pass(u16),
    /// The slot of a CPU is collected, in which a transaction landed: the CPU, the thread, its outcome, and the
    /// CPU that it was then on.
    Collect(u16, u32, Outcome, Option<u16>),
}

use Deed::{Collect, Pass, Stamped, Tell};

/// A thread that is believed to run: its tid, its number and its ticks.
type Runner = Option<(u32, u32, u16)>;

/// What is done, and then: who waits, in order, and of CPU 1 who is believed to run there and whom a stamp names.
type Row = (Deed, &'static [u32], Runner, Option<u32>);

/// The mask of the CPUs that the other class holds, and what is planned then.
type PlanRow = (u128, Plan);

const APPLIED: Result<News, ApplyFault> = Ok(News::Applied);

const SKIPPED: Result<News, ApplyFault> = Ok(News::Skipped);

const ORPHAN: Result<News, ApplyFault> = Ok(News::Orphan);

const GAP: Result<News, ApplyFault> = Err(ApplyFault::Gap);

/// Threads 7 and 8 of class 0 wait, and thread 9 of class 1.
const THREE_WAIT: [Row; 3] = [
    (
        Tell(Creation(9, 5, Class::One, 6, "web"), APPLIED),
        &[9],
        None,
        None,
    ),
    (
        Tell(Creation(7, 5, Class::Zero, 6, "web"), APPLIED),
        &[7, 9],
        None,
        None,
    ),
    (
        Tell(Creation(8, 5, Class::Zero, 6, "web"), APPLIED),
        &[7, 8, 9],
        None,
        None,
    ),
];

/// What does not apply changes nothing.
const NOT_APPLIED: [Row; 3] = [
    (
        Tell(Thread(7, 5, Change::Blocked { cpu: 1 }), SKIPPED),
        &[7, 8, 9],
        None,
        None,
    ),
    (
        Tell(Thread(6, 2, Change::Wakeup), ORPHAN),
        &[7, 8, 9],
        None,
        None,
    ),
    (
        Tell(Thread(7, 7, Change::Dead { cpu: None }), GAP),
        &[7, 8, 9],
        None,
        None,
    ),
];

/// Who begins to wait goes last of its class, and who blocks waits no more.
const GOES_LAST: [Row; 2] = [
    (
        Tell(Thread(7, 6, Change::Preempted { cpu: 1 }), APPLIED),
        &[8, 7, 9],
        None,
        None,
    ),
    (
        Tell(Thread(8, 6, Change::Blocked { cpu: 1 }), APPLIED),
        &[7, 9],
        None,
        None,
    ),
];

/// A thread that was placed runs until it blocks.
const RUNS: [Row; 4] = [
    (Stamped(1, 7), &[8, 9], None, Some(7)),
    (
        Collect(1, 7, Outcome::Placed, Some(1)),
        &[8, 9],
        Some((7, 5, 0)),
        None,
    ),
    (Tell(Tick(1), APPLIED), &[8, 9], Some((7, 5, 1)), None),
    (
        Tell(Thread(7, 6, Change::Blocked { cpu: 1 }), APPLIED),
        &[8, 9],
        None,
        None,
    ),
];

/// Who was not placed waits again, once its slot is collected.
const NOT_PLACED: [Row; 3] = [
    (Stamped(1, 7), &[8, 9], None, Some(7)),
    (Pass(1), &[8, 9], None, Some(7)),
    (Collect(1, 7, Outcome::Stale, None), &[8, 7, 9], None, None),
];

/// Who lost its stamp, or its CPU, to another waits again.
const DISPLACED: [Row; 5] = [
    (Stamped(1, 7), &[8, 9], None, Some(7)),
    (Stamped(1, 8), &[7, 9], None, Some(8)),
    (
        Collect(1, 8, Outcome::Placed, Some(1)),
        &[7, 9],
        Some((8, 5, 0)),
        None,
    ),
    (Stamped(1, 7), &[9], Some((8, 5, 0)), Some(7)),
    (
        Collect(1, 7, Outcome::Placed, Some(1)),
        &[8, 9],
        Some((7, 5, 0)),
        None,
    ),
];

/// Thread 9, of class 1, runs on CPU 1.
const NINTH_RUNS: [Row; 2] = [
    (Stamped(1, 9), &[7, 8], None, Some(9)),
    (
        Collect(1, 9, Outcome::Placed, Some(1)),
        &[7, 8],
        Some((9, 5, 0)),
        None,
    ),
];

/// First come first served, while all three wait.
const FIRST_COME: [PlanRow; 2] = [
    (0, &[(1, 7, false), (2, 8, false)]),
    (0b010, &[(2, 7, false)]),
];

/// While thread 9 runs on CPU 1 and the other class holds CPU 2, class 0 preempts class 1 under two classes alone.
const TWO_CLASS: [PlanRow; 1] = [(0b100, &[(1, 7, true)])];

const FIRST_COME_WAITS: [PlanRow; 1] = [(0b100, &[])];

/// What a mind returns for a message.
fn send(mind: &mut Mind, message: &Message) -> Result<News, ApplyFault>
    requires { IsSpellable message.now }
{
    let parcel = Parcel::new(message);
    mind.follow(MessageRef::in_parcel(&parcel))
}

/// A transaction of a thread that landed.
fn landed(tid: u32, outcome: Outcome, at: Option<u16>) -> SlotState {
    SlotState::Done {
        stamp: Stamp {
            generation: 3,
            tid,
            tseq: 5,
            flags: Flags::single(true),
        },
        outcome,
        at,
        seen: 5,
    }
}

/// Does what a row says, and returns whether it came out so.
fn is_answered(mind: &mut Mind, deed: &Deed) -> bool {
    match deed {
        Deed::Tell(told, answer) => {
            let Some(message) = told.message() else {
                return false;
            };
            return send(mind, &message) == *answer;
        }
        Deed::Stamped(cpu, tid) => mind.stamp(*cpu, *tid),
        Deed::Pass(cpu) => mind.collect(*cpu, SlotState::Idle),
        Deed::Collect(cpu, tid, outcome, at) => mind.collect(*cpu, landed(*tid, *outcome, *at)),
    }
    true
}

/// Who is believed to run on a CPU.
fn runner(mind: &Mind, cpu: u16) -> Runner {
    let running = mind.believed(cpu)?;
    Some((running.tid, running.tseq, running.ticks))
}

/// The first row that a mind does not take as it says, or after which it has something else in mind.
fn first_wrong(mind: &mut Mind, rows: &[Row]) -> Option<usize> {
    for (index, row) in rows.iter().enumerate() {
        let (deed, waits, runs, stamp) = row;
        let well = is_answered(mind, deed)
            && is_order(mind.waiting(), waits)
            && runner(mind, 1) == *runs
            && mind.beliefs().stamp_on(1) == *stamp;
        if !well {
            return Some(index);
        }
    }
    None
}

/// The first plan that a policy does not make, or counts otherwise.
fn first_unplanned<P: Counted>(
    alloc: Global,
    mind: &Mind,
    policy: &P,
    plans: &[PlanRow],
) -> Result<Option<usize>, AllocError> {
    let mut kept = Vec::new(alloc);
    for (index, (taken, expected)) in plans.iter().enumerate() {
        let taken = Mask::new(*taken);
        let choices = mind.plan(alloc, policy, taken)?;
        mind.plan_into(alloc, policy, taken, &mut kept)?;
        let well = is_plan(&choices, expected)
            && is_plan(&kept, expected)
            && mind.count(policy, taken) == expected.len();
        if !well {
            return Ok(Some(index));
        }
    }
    Ok(None)
}

/// Whether nothing is known or believed yet, and just these CPUs are free.
fn is_blank(mind: &Mind, free: u128) -> bool {
    let cpus = CpuBeliefs {
        beliefs: mind.beliefs(),
        taken: Mask::none(),
    };
    mind.view().is_empty()
        && is_order(mind.waiting(), &[])
        && runner(mind, 1).is_none()
        && cpus.cpus() == 3
        && cpus.free().bits() == free
}

/// Whether the mind of an agent on this CPU of three, `None` while it attaches, begins blank.
fn begins_blank(alloc: Global, agent: Option<u16>, free: u128) -> bool {
    match Mind::new(alloc, 3, agent) {
        Ok(mind) => is_blank(&mind, free),
        Err(_) => false,
    }
}

/// A mind of three CPUs, of which the agent has CPU 0.
fn three(alloc: Global) -> Result<Mind, AllocError> {
    Mind::new(alloc, 3, Some(0))
}

/// Lets threads 7, 8 and 9 wait: whether all went as it should.
fn three_wait(mind: &mut Mind) -> bool {
    first_wrong(mind, &THREE_WAIT).is_none()
}

/// Tries rows on a mind in which three threads wait at first, and are known at last.
fn tried_on(mind: &mut Mind, rows: &[Row]) -> Tried {
    let before = three_wait(mind);
    let wrong = first_wrong(mind, rows);
    if !before || mind.view().len() != 3 {
        return Tried::NotMade;
    }
    Tried::with(wrong)
}

/// The same on a new mind. What owns a mind has one way out once it is made: a proof goes through all that it
/// drops at each way out.
fn tried(alloc: Global, rows: &[Row]) -> Tried {
    match three(alloc) {
        Ok(mut mind) => {
            let tried = tried_on(&mut mind, rows);
            let_go(mind);
            tried
        }
        Err(_) => Tried::NotMade,
    }
}

// A function for each table: a proof is cheaper if it sees one table alone.
fn try_not_applied(alloc: Global) -> Tried {
    tried(alloc, &NOT_APPLIED)
}

fn try_goes_last(alloc: Global) -> Tried {
    tried(alloc, &GOES_LAST)
}

fn try_runs(alloc: Global) -> Tried {
    tried(alloc, &RUNS)
}

fn try_not_placed(alloc: Global) -> Tried {
    tried(alloc, &NOT_PLACED)
}

fn try_displaced(alloc: Global) -> Tried {
    tried(alloc, &DISPLACED)
}

#[test]
fn keeps_who_waits(rt: HostRuntime) {
    let active = begins_blank(rt.alloc(), Some(0), 0b110);
    let attaching = begins_blank(rt.alloc(), None, 0b111);
    let tried = [
        try_not_applied(rt.alloc()),
        try_goes_last(rt.alloc()),
        try_runs(rt.alloc()),
        try_not_placed(rt.alloc()),
        try_displaced(rt.alloc()),
    ];
    assert_eq!(rt; (active, attaching, tried), (true, true, [Tried::Well; 5]));
}

/// Thread 9 begins to run: whether all went as it should.
fn runs_ninth(mind: &mut Mind) -> bool {
    first_wrong(mind, &NINTH_RUNS).is_none()
}

/// Tries plans of a policy.
fn tried_plans<P: Counted>(alloc: Global, mind: &Mind, policy: &P, rows: &[PlanRow]) -> Tried {
    match first_unplanned(alloc, mind, policy, rows) {
        Ok(wrong) => Tried::with(wrong),
        Err(_) => Tried::NotMade,
    }
}

fn try_first_come(alloc: Global, mind: &Mind) -> Tried {
    tried_plans(alloc, mind, &FirstCome, &FIRST_COME)
}

fn try_two_class(alloc: Global, mind: &Mind) -> Tried {
    tried_plans(alloc, mind, &TwoClass { slice: 2 }, &TWO_CLASS)
}

fn try_first_come_waits(alloc: Global, mind: &Mind) -> Tried {
    tried_plans(alloc, mind, &FirstCome, &FIRST_COME_WAITS)
}

/// What comes of plans while three threads wait, whether thread 9 then runs, and what comes of plans of two
/// classes and of the first come then.
type Planned = (Tried, bool, Tried, Tried);

/// What comes of plans of this mind, or `None` if the three do not wait.
fn planned(alloc: Global, mind: &mut Mind) -> Option<Planned> {
    if !three_wait(mind) {
        return None;
    }
    let first_come = try_first_come(alloc, mind);
    let runs = runs_ninth(mind);
    let two_class = try_two_class(alloc, mind);
    let waits = try_first_come_waits(alloc, mind);
    Some((first_come, runs, two_class, waits))
}

/// The same of a new mind.
fn try_plans(alloc: Global) -> Option<Planned> {
    match three(alloc) {
        Ok(mut mind) => {
            let came = planned(alloc, &mut mind);
            let_go(mind);
            came
        }
        Err(_) => None,
    }
}

#[test]
fn plans(rt: HostRuntime) {
    let wanted = (Tried::Well, true, Tried::Well, Tried::Well);
    assert_eq!(rt; try_plans(rt.alloc()), Some(wanted));
}
