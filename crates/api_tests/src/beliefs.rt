//! What is believed of three CPUs, of which the agent has the first, after each change.

ghost use Rattle.gs_layout.specs.Spelling.{IsSpellable};

use crate::messages::Told::{self, Thread, Tick};
use crate::messages::Tried;
use gs_beliefs::{Beliefs, CpuBeliefs};
use gs_layout::{Change, Message, Outcome, Parcel};
use gs_reader::MessageRef;
use gs_status::Mask;
use std::alloc::Global;

/// What is done to the beliefs.
#[derive(Clone, Copy)]
enum Deed {
    /// A thread is placed on a CPU, at a number: the CPU, the thread, the number.
    Place(u16, u32, u32),
    /// The timer of a CPU ticks so many times.
    Ticks(u16, u32),
    /// A thread has this number now.
    Raise(u32, u32),
    /// A thread runs nowhere.
    Clear(u32),
    /// A message is heard.
    Hear(Told),
    /// An outcome is learnt, with the CPU that the thread was then on, the thread, and its number.
    Learn(Outcome, Option<u16>, u32, u32),
    /// A stamp on a CPU names a thread.
    Stamp(u16, u32),
    /// A CPU has no stamp.
    Unstamp(u16),
    /// The agent has this CPU.
    Agent(Option<u16>),
}

use Deed::{Agent, Clear, Hear, Learn, Place, Raise, Stamp, Ticks, Unstamp};

/// A thread that is believed to run: its tid, its number and its ticks.
type Runner = Option<(u32, u32, u16)>;

/// What is done, who is then believed to run on CPU 1 and on CPU 2, and whether thread 7 is believed to run.
type BeliefRow = (Deed, Runner, Runner, bool);

/// What is done, the mask of the CPUs that the other class holds, and what is so then. That is the masks of
/// the usable and of the free CPUs, the thread that a stamp on CPU 2 names, and the agent's CPU.
type MaskRow = (Deed, u128, u128, u128, Option<u32>, Option<u16>);

/// A thread is on one CPU, and its ticks begin anew when it is placed.
const MOVES: [BeliefRow; 3] = [
    (Place(1, 7, 4), Some((7, 4, 0)), None, true),
    (Ticks(1, 1), Some((7, 4, 1)), None, true),
    (Place(2, 7, 5), None, Some((7, 5, 0)), true),
];

/// What changes of one thread changes nothing of another.
const CHANGES: [BeliefRow; 5] = [
    (Place(1, 7, 4), Some((7, 4, 0)), None, true),
    (Place(2, 8, 1), Some((7, 4, 0)), Some((8, 1, 0)), true),
    (Ticks(1, 1), Some((7, 4, 1)), Some((8, 1, 0)), true),
    (Raise(7, 5), Some((7, 5, 1)), Some((8, 1, 0)), true),
    (Clear(7), None, Some((8, 1, 0)), false),
];

/// Ticks are counted up to 65,535.
const MOST_TICKS: [BeliefRow; 2] = [
    (Place(1, 7, 4), Some((7, 4, 0)), None, true),
    (Ticks(1, 70_000), Some((7, 4, 65_535)), None, true),
];

/// A mask that leaves the thread on its CPU gives it a number, and a block takes it off.
fn hears() -> [BeliefRow; 4] {
    [
        (Place(1, 7, 4), Some((7, 4, 0)), None, true),
        (Hear(Tick(1)), Some((7, 4, 1)), None, true),
        (
            Hear(Thread(
                7,
                5,
                Change::Affinity {
                    cpu: Some(1),
                    off: false,
                    mask: Mask::new(2),
                },
            )),
            Some((7, 5, 1)),
            None,
            true,
        ),
        (
            Hear(Thread(7, 6, Change::Blocked { cpu: 1 })),
            None,
            None,
            false,
        ),
    ]
}

/// Only `Placed` and `AlreadyPlaced` say where a thread is.
const LEARNS: [BeliefRow; 4] = [
    (Place(1, 7, 4), Some((7, 4, 0)), None, true),
    (
        Learn(Outcome::Stale, Some(2), 7, 4),
        Some((7, 4, 0)),
        None,
        true,
    ),
    (
        Learn(Outcome::AlreadyPlaced, Some(2), 7, 6),
        None,
        Some((7, 6, 0)),
        true,
    ),
    (
        Learn(Outcome::Placed, Some(1), 8, 3),
        Some((8, 3, 0)),
        Some((7, 6, 0)),
        true,
    ),
];

/// The other class holds a CPU on which a thread is believed to run, then a free one, and then both.
const TAKEN: [MaskRow; 4] = [
    (Place(1, 7, 4), 0, 0b110, 0b100, None, Some(0)),
    (Raise(7, 5), 0b010, 0b100, 0b100, None, Some(0)),
    (Raise(7, 6), 0b100, 0b010, 0, None, Some(0)),
    (Raise(7, 7), 0b110, 0, 0, None, Some(0)),
];

/// A stamp keeps its CPU from use until it is collected, and the agent's own is usable while it attaches.
const STAMPED: [MaskRow; 4] = [
    (Place(1, 7, 4), 0, 0b110, 0b100, None, Some(0)),
    (Stamp(2, 9), 0, 0b010, 0, Some(9), Some(0)),
    (Unstamp(2), 0, 0b110, 0b100, None, Some(0)),
    (Agent(None), 0, 0b111, 0b101, None, None),
];

/// The beliefs hear a message.
fn hear(beliefs: &mut Beliefs, message: &Message)
    requires { IsSpellable message.now }
{
    let parcel = Parcel::new(message);
    beliefs.hear(&MessageRef::in_parcel(&parcel));
}

/// Does what a row says. It returns whether that could be done: what is heard has to be a message.
fn is_done(beliefs: &mut Beliefs, deed: &Deed) -> bool {
    match deed {
        Deed::Place(cpu, tid, tseq) => beliefs.place(*cpu, *tid, *tseq),
        Deed::Ticks(cpu, count) => {
            for _ in 0..*count {
                beliefs.tick(*cpu);
            }
        }
        Deed::Raise(tid, tseq) => beliefs.raise(*tid, *tseq),
        Deed::Clear(tid) => beliefs.clear(*tid),
        Deed::Hear(told) => {
            let Some(message) = told.message() else {
                return false;
            };
            hear(beliefs, &message);
        }
        Deed::Learn(outcome, at, tid, tseq) => beliefs.learn(*outcome, *at, *tid, *tseq),
        Deed::Stamp(cpu, tid) => beliefs.stamp(*cpu, *tid),
        Deed::Unstamp(cpu) => beliefs.unstamp(*cpu),
        Deed::Agent(agent) => beliefs.set_agent(*agent),
    }
    true
}

/// Who is believed to run on a CPU.
fn runner(beliefs: &Beliefs, cpu: u16) -> Runner {
    let running = beliefs.believed(cpu)?;
    Some((running.tid, running.tseq, running.ticks))
}

/// The first row after which something else is believed than it says.
fn first_wrong_belief(beliefs: &mut Beliefs, rows: &[BeliefRow]) -> Option<usize> {
    for (index, row) in rows.iter().enumerate() {
        let (deed, first, second, runs) = row;
        let well = is_done(beliefs, deed)
            && runner(beliefs, 1) == *first
            && runner(beliefs, 2) == *second
            && beliefs.runs(7) == *runs;
        if !well {
            return Some(index);
        }
    }
    None
}

/// Whether just these of the three CPUs are usable, and just these are free, by each call that says so. The
/// other class holds those of a mask.
fn has_masks(beliefs: &Beliefs, taken: Mask, usable: u128, free: u128) -> bool {
    let cpus = CpuBeliefs { beliefs, taken };
    cpus.usable().bits() == usable
        && cpus.free().bits() == free
        && cpus.busy().bits() == usable & !free
        && (0..4).all(|cpu| cpus.is_usable(cpu) == Mask::new(usable).has(cpu))
        && (0..4).all(|cpu| cpus.is_free(cpu) == Mask::new(free).has(cpu))
}

/// Whether a policy is shown of each CPU what is believed there.
fn are_shown(beliefs: &Beliefs) -> bool {
    let cpus = CpuBeliefs {
        beliefs,
        taken: Mask::none(),
    };
    cpus.cpus() == beliefs.cpus()
        && cpus.agent() == beliefs.agent()
        && (0..4).all(|cpu| cpus.believed(cpu) == beliefs.believed(cpu))
        && (0..4).all(|cpu| cpus.stamp_on(cpu) == beliefs.stamp_on(cpu))
}

/// The first row after which other CPUs may be used than it says.
fn first_wrong_mask(beliefs: &mut Beliefs, rows: &[MaskRow]) -> Option<usize> {
    for (index, row) in rows.iter().enumerate() {
        let (deed, taken, usable, free, stamp, agent) = row;
        let well = is_done(beliefs, deed)
            && has_masks(beliefs, Mask::new(*taken), *usable, *free)
            && are_shown(beliefs)
            && beliefs.stamp_on(2) == *stamp
            && beliefs.names(9) == stamp.is_some()
            && !beliefs.names(7)
            && beliefs.agent() == *agent;
        if !well {
            return Some(index);
        }
    }
    None
}

/// Tries rows on what is believed at the beginning.
fn tried_beliefs(alloc: Global, rows: &[BeliefRow]) -> Tried {
    match Beliefs::new(alloc, 3, Some(0)) {
        Ok(mut beliefs) => Tried::with(first_wrong_belief(&mut beliefs, rows)),
        Err(_) => Tried::NotMade,
    }
}

/// The same of rows of masks.
fn tried_masks(alloc: Global, rows: &[MaskRow]) -> Tried {
    match Beliefs::new(alloc, 3, Some(0)) {
        Ok(mut beliefs) => Tried::with(first_wrong_mask(&mut beliefs, rows)),
        Err(_) => Tried::NotMade,
    }
}

// A function for each table: a proof is cheaper if it sees one table alone.
fn try_moves(alloc: Global) -> Tried {
    tried_beliefs(alloc, &MOVES)
}

fn try_changes(alloc: Global) -> Tried {
    tried_beliefs(alloc, &CHANGES)
}

fn try_most_ticks(alloc: Global) -> Tried {
    tried_beliefs(alloc, &MOST_TICKS)
}

fn try_hears(alloc: Global) -> Tried {
    tried_beliefs(alloc, &hears())
}

fn try_learns(alloc: Global) -> Tried {
    tried_beliefs(alloc, &LEARNS)
}

fn try_taken(alloc: Global) -> Tried {
    tried_masks(alloc, &TAKEN)
}

fn try_stamped(alloc: Global) -> Tried {
    tried_masks(alloc, &STAMPED)
}

/// Whether nothing is believed yet of 128 CPUs, while the agent attaches.
fn is_blank(beliefs: &Beliefs) -> bool {
    beliefs.cpus() == 128
        && beliefs.agent().is_none()
        && beliefs.believed(127).is_none()
        && beliefs.stamp_on(127).is_none()
        && has_masks(beliefs, Mask::none(), u128::MAX, u128::MAX)
}

/// Whether that is so at the beginning.
fn begins_blank(alloc: Global) -> bool {
    match Beliefs::new(alloc, 128, None) {
        Ok(beliefs) => is_blank(&beliefs),
        Err(_) => false,
    }
}

#[test]
fn believes_what_it_is_told(rt: HostRuntime) {
    let blank = begins_blank(rt.alloc());
    let tried = [
        try_moves(rt.alloc()),
        try_changes(rt.alloc()),
        try_most_ticks(rt.alloc()),
        try_hears(rt.alloc()),
        try_learns(rt.alloc()),
        try_taken(rt.alloc()),
        try_stamped(rt.alloc()),
    ];
    assert_eq!(rt; (blank, tried), (true, [Tried::Well; 7]));
}
