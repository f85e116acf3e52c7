//! Who waits in a queue, and in which order.
use gs_layout::{Class, MOST_TIDS};
use gs_runq::RunQueue;
use std::alloc::Global;

/// What is done with a queue.
#[derive(Clone, Copy)]
enum Step {
    Reserve(u32),
    Push(u32, Class),
    Remove(u32),
}

/// A step, who waits then, in order, and for how many of each class there is room.
type StepRow<'a> = (Step, &'a [u32], u32);

/// How many threads there can be.
const MOST: u32 = MOST_TIDS;

/// Nobody waits at first.
const EMPTY: [StepRow<'_>; 3] = [
    (Step::Remove(1), &[], 0),
    (Step::Reserve(0), &[], 0),
    (Step::Reserve(MOST), &[], MOST),
];

/// Class 0 comes before class 1.
const CLASSES: [StepRow<'_>; 5] = [
    (Step::Reserve(3), &[], MOST),
    (Step::Push(5, Class::One), &[5], MOST),
    (Step::Push(3, Class::Zero), &[3, 5], MOST),
    (Step::Push(7, Class::One), &[3, 5, 7], MOST),
    (Step::Push(65_536, Class::Zero), &[3, 65_536, 5, 7], MOST),
];

/// Who left and comes again goes last.
const COMES_AGAIN: [StepRow<'_>; 7] = [
    (Step::Reserve(3), &[], MOST),
    (Step::Push(1, Class::Zero), &[1], MOST),
    (Step::Push(2, Class::Zero), &[1, 2], MOST),
    (Step::Push(3, Class::Zero), &[1, 2, 3], MOST),
    (Step::Remove(1), &[2, 3], MOST),
    (Step::Push(1, Class::Zero), &[2, 3, 1], MOST),
    (Step::Reserve(4), &[2, 3, 1], MOST),
];

/// The last thread waits behind one of class 0.
const LAST_THREAD: [StepRow<'_>; 3] = [
    (Step::Reserve(3), &[], MOST),
    (Step::Push(65_536, Class::One), &[65_536], MOST),
    (Step::Push(2, Class::Zero), &[2, 65_536], MOST),
];

/// Who does not wait cannot leave.
const LEAVING: [StepRow<'_>; 8] = [
    (Step::Reserve(3), &[], MOST),
    (Step::Push(2, Class::One), &[2], MOST),
    (Step::Remove(0), &[2], MOST),
    (Step::Remove(1), &[2], MOST),
    (Step::Remove(65_536), &[2], MOST),
    (Step::Remove(65_537), &[2], MOST),
    (Step::Remove(u32::MAX), &[2], MOST),
    (Step::Remove(2), &[], MOST),
];

/// Threads that wait or do not, and numbers that no thread has.
const ASKED: [u32; 10] = [0, 1, 2, 3, 5, 7, 65_535, 65_536, 65_537, u32::MAX];

/// Takes a step. Returns whether it could be taken.
fn is_taken(queue: &mut RunQueue, step: Step) -> bool {
    match step {
        Step::Reserve(n) => n <= MOST && queue.reserve(n).is_ok(),
        Step::Push(tid, class) => {
            let is_thread = 1 <= tid && tid <= MOST;
            if !is_thread || queue.has(tid) || queue.room() != MOST {
                return false;
            }
            queue.push(tid, class);
            true
        }
        Step::Remove(tid) => {
            queue.remove(tid);
            true
        }
    }
}

/// Whether a walk shows just these.
fn walks(queue: &RunQueue, wanted: &[u32]) -> bool {
    let mut left = wanted;
    for tid in queue.walk() {
        match left.split_first() {
            Some((next, later)) if tid == *next => left = later,
            _ => return false,
        }
    }
    left.is_empty()
}

/// Whether just these wait, in this order.
fn is_order(queue: &RunQueue, wanted: &[u32]) -> bool {
    for tid in ASKED {
        if queue.has(tid) != wanted.contains(&tid) {
            return false;
        }
    }
    walks(queue, wanted) && queue.len() == wanted.len() && queue.is_empty() == wanted.is_empty()
}

/// The first step that cannot be taken, or after which others wait.
fn first_wrong_step(queue: &mut RunQueue, rows: &[StepRow<'_>]) -> Option<usize> {
    for (index, (step, order, room)) in rows.iter().enumerate() {
        if !is_taken(queue, *step) || !is_order(queue, order) || queue.room() != *room {
            return Some(index);
        }
    }
    None
}

/// The first table with such a step, by its place and that of the step. No step if somebody waits in the new
/// queue, or there is room.
fn first_wrong_table(alloc: Global, tables: &[&[StepRow<'_>]]) -> Option<(usize, Option<usize>)> {
    for (index, rows) in tables.iter().enumerate() {
        let mut queue = RunQueue::new(alloc);
        let is_new = is_order(&queue, &[]) && queue.room() == 0;
        let wrong = first_wrong_step(&mut queue, rows);
        if !is_new || wrong.is_some() {
            return Some((index, wrong));
        }
    }
    None
}

#[test]
fn queues(rt: HostRuntime) {
    let tables: [&[StepRow<'_>]; 5] = [&EMPTY, &CLASSES, &COMES_AGAIN, &LAST_THREAD, &LEAVING];
    assert_eq!(rt; first_wrong_table(rt.alloc(), &tables), None);
}
