//! What a table of threads has of each thread, and which threads it shows.
use crate::layout::{Life, NOT_RUNNABLE, ON_CPU_1_ALONE, RUNNABLE, facts, life_of, thread_message};
use gs_layout::{Change, MOST_TIDS, Message};
use gs_status::Mask;
use gs_threads::ThreadTable;

/// A thread's sequence number, the CPU that it is on, and what it is.
type Seen = (u32, Option<u16>, Life);

/// A thread that may run, on CPU 0 alone.
const ON_CPU_0_ALONE: Life = Life::Live {
    runnable: true,
    mask: 1,
};

/// A thread that was just created, in a table whose sequence numbers begin above 4.
const CREATED: Seen = (5, None, RUNNABLE);

/// What is done with a table.
#[derive(Clone, Copy)]
enum Step {
    Place(u32, Option<u16>),
    Apply(Message),
}

fn told(tid: u32, tseq: u32, change: Change) -> Step {
    Step::Apply(thread_message(tid, tseq, change))
}

/// What is done with a table of three threads, and what it has of thread 2 then.
fn life_steps() -> [(Step, Seen); 16] {
    let stays = Change::Affinity {
        cpu: Some(0),
        off: false,
        mask: Mask::new(1),
    };
    let leaves = Change::Affinity {
        cpu: Some(0),
        off: true,
        mask: Mask::new(2),
    };
    [
        (Step::Place(2, Some(1)), (5, Some(1), RUNNABLE)),
        (
            Step::Apply(Message::TimerTick { cpu: 1 }),
            (5, Some(1), RUNNABLE),
        ),
        (
            told(2, 6, Change::Blocked { cpu: 1 }),
            (6, None, NOT_RUNNABLE),
        ),
        (told(2, 7, Change::Wakeup), (7, None, RUNNABLE)),
        (Step::Place(2, Some(0)), (7, Some(0), RUNNABLE)),
        (told(2, 8, stays), (8, Some(0), ON_CPU_0_ALONE)),
        (told(2, 9, leaves), (9, None, ON_CPU_1_ALONE)),
        (Step::Place(2, Some(1)), (9, Some(1), ON_CPU_1_ALONE)),
        (
            told(2, 10, Change::Preempted { cpu: 1 }),
            (10, None, ON_CPU_1_ALONE),
        ),
        (Step::Place(2, Some(1)), (10, Some(1), ON_CPU_1_ALONE)),
        (
            told(2, 11, Change::Yield { cpu: 1 }),
            (11, None, ON_CPU_1_ALONE),
        ),
        (Step::Place(2, Some(1)), (11, Some(1), ON_CPU_1_ALONE)),
        (
            told(2, 12, Change::Dead { cpu: Some(1) }),
            (12, None, Life::Dead),
        ),
        // The dead stay dead.
        (told(2, 13, Change::Wakeup), (13, None, Life::Dead)),
        // A thread that never was stays away.
        (Step::Place(4, Some(1)), (13, None, Life::Dead)),
        (told(4, 6, Change::Wakeup), (13, None, Life::Dead)),
    ]
}

/// Creates a thread. Returns how many threads there are then, or `None` if these bytes are no name, there are
/// threads enough, or if out of memory.
fn create(table: &mut ThreadTable, name: &[u8]) -> Option<usize> {
    let facts = facts(name)?;
    if table.len() >= MOST_TIDS as usize {
        return None;
    }
    table.reserve().ok()?;
    table.create(&facts);
    Some(table.len())
}

/// Whether three threads are created, with the numbers 1, 2 and 3.
fn creates_three(table: &mut ThreadTable) -> bool {
    create(table, b"a") == Some(1)
        && create(table, b"b") == Some(2)
        && create(table, b"c") == Some(3)
}

/// What the table has of a thread.
fn seen(table: &ThreadTable, tid: u32) -> Option<Seen> {
    let row = table.get(tid)?;
    Some((row.tseq, row.cpu, life_of(&row.record)))
}

/// Whether there are three threads, this of thread 2, and the others as they were created.
fn has_three(table: &ThreadTable, second: Seen) -> bool {
    let all = [
        (0, None),
        (1, Some(CREATED)),
        (2, Some(second)),
        (3, Some(CREATED)),
        (4, None),
        (u32::MAX, None),
    ];
    for (tid, wanted) in all {
        if seen(table, tid) != wanted {
            return false;
        }
    }
    table.len() == 3 && !table.is_empty()
}

/// The first step after which thread 2 is otherwise, or something else is.
fn first_wrong_step(table: &mut ThreadTable) -> Option<usize> {
    for (index, (step, second)) in life_steps().iter().enumerate() {
        match step {
            Step::Place(tid, cpu) => table.place(*tid, *cpu),
            Step::Apply(message) => table.apply(message),
        }
        if !has_three(table, *second) {
            return Some(index);
        }
    }
    None
}

#[test]
fn creates_and_changes_threads(rt: HostRuntime) {
    let mut table = ThreadTable::new(rt.alloc(), 4);
    let is_empty = table.is_empty()
        && table.get(1).is_none()
        && table.live_from(0).next().is_none();
    assert!(rt; is_empty);
    assert!(rt; creates_three(&mut table));
    assert!(rt; has_three(&table, CREATED));
    assert_eq!(rt; first_wrong_step(&mut table), None);
}

/// Whether a walk from a thread on shows just these.
fn walks(table: &ThreadTable, from: u32, wanted: &[u32]) -> bool {
    let mut left = wanted;
    for (tid, row) in table.live_from(from) {
        match left.split_first() {
            Some((next, later)) if tid == *next && row.is_live() => left = later,
            _ => return false,
        }
    }
    left.is_empty()
}

/// The thread that dies first, if one does, the thread that a walk then begins with, and those that it shows.
type WalkRow<'a> = (Option<u32>, u32, &'a [u32]);

/// Walks over a table of three threads.
const WALKS: [WalkRow<'_>; 8] = [
    (None, 0, &[1, 2, 3]),
    (None, 1, &[1, 2, 3]),
    (None, 2, &[2, 3]),
    (None, 4, &[]),
    (None, u32::MAX, &[]),
    (Some(2), 1, &[1, 3]),
    (None, 2, &[3]),
    (Some(3), 2, &[]),
];

/// The first walk that shows other threads.
fn first_wrong_walk(table: &mut ThreadTable) -> Option<usize> {
    for (index, (dies, from, wanted)) in WALKS.iter().enumerate() {
        if let Some(tid) = dies {
            table.apply(&thread_message(*tid, 6, Change::Dead { cpu: None }));
        }
        if !walks(table, *from, wanted) {
            return Some(index);
        }
    }
    None
}

#[test]
fn walks_over_the_living(rt: HostRuntime) {
    let mut table = ThreadTable::new(rt.alloc(), 4);
    assert!(rt; creates_three(&mut table));
    assert_eq!(rt; first_wrong_walk(&mut table), None);
    // The dead keep their numbers.
    assert_eq!(rt; create(&mut table, b"d"), Some(4));
    assert!(rt; walks(&table, 2, &[4]));
}

/// The threads of a full walk's table, of which these two live.
const MANY: u32 = 4_096;

const TWO_LEFT: [u32; 2] = [1_999, 4_095];

/// Whether so many threads are created.
fn creates_many(table: &mut ThreadTable) -> bool {
    for _ in 0..MANY {
        if create(table, b"a").is_none() {
            return false;
        }
    }
    table.len() == MANY as usize
}

/// All threads but two die.
fn kills_others(table: &mut ThreadTable) {
    for tid in 1..=MANY {
        if !TWO_LEFT.contains(&tid) {
            table.apply(&thread_message(tid, 6, Change::Dead { cpu: None }));
        }
    }
}

/// Walks over a table of which these two threads live: where each begins, and what it shows.
const WALKS_OVER_TWO: [(u32, &[u32]); 8] = [
    (0, &TWO_LEFT),
    (1, &TWO_LEFT),
    (1_999, &TWO_LEFT),
    (2_000, &[4_095]),
    (4_095, &[4_095]),
    (4_096, &[]),
    (4_097, &[]),
    (u32::MAX, &[]),
];

/// The first walk that shows other threads.
fn first_wrong_over_two(table: &ThreadTable) -> Option<usize> {
    for (index, (from, wanted)) in WALKS_OVER_TWO.iter().enumerate() {
        if !walks(table, *from, wanted) {
            return Some(index);
        }
    }
    None
}

#[test]
fn finds_two_of_many(rt: HostRuntime) {
    let mut table = ThreadTable::new(rt.alloc(), 4);
    let created = creates_many(&mut table);
    kills_others(&mut table);
    let wrong = first_wrong_over_two(&table);
    assert_eq!(rt; (created, wrong), (true, None));
}
