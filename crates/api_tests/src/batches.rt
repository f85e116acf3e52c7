//! Batches of a ring: drained where they stand in both segments of its block, with a PAD between.

ghost use Rattle.std.specs.Prelude.{◌≡◌, ◌+◌, ◌≤◌, ◌<◌, List, length};
ghost use Rattle.gs_layout.specs.declared.message.Message.{Message};
ghost use Rattle.gs_ring.specs.RingState.{posts};

use crate::messages::Told::{self, Creation};
use crate::messages::Tried;
use crate::owned::let_go;
use gs_agent::{Drained, Role, Stop};
use gs_layout::Class;
use gs_policy::FirstCome;
use gs_ring::{ByteRing, Poster, Taker};
use std::alloc::Global;

/// A name with which a creation has 48 bytes.
const LONG: &str = "abcdefghijklmn";

const FIRST: Told = Creation(1, 1, Class::Zero, 3, LONG);

const SECOND: Told = Creation(2, 1, Class::Zero, 3, LONG);

const THIRD: Told = Creation(3, 1, Class::Zero, 3, LONG);

/// Two above what the second one tells of thread 2.
const GAP: Told = Creation(2, 3, Class::Zero, 3, LONG);

/// Not above it.
const AGAIN: Told = Creation(2, 1, Class::Zero, 3, LONG);

/// What stands behind the PAD, the most that a drain may take, what it takes in, and then: of how many threads
/// something is known, and how many messages wait.
type Row = (Told, u32, Drained, usize, usize);

const ROWS: [Row; 6] = [
    (THIRD, 0, NOTHING, 0, 2),
    (THIRD, 1, ONE, 1, 1),
    (THIRD, 2, TWO, 2, 0),
    (THIRD, 9, TWO, 2, 0),
    (AGAIN, 9, ONE_SKIPPED, 1, 0),
    // What stands behind the PAD stays unread.
    (GAP, 9, UP_TO_A_GAP, 1, 1),
];

const NOTHING: Drained = Drained {
    count: 0,
    skipped: 0,
    orphans: 0,
    stop: None,
};

const ONE: Drained = Drained {
    count: 1,
    skipped: 0,
    orphans: 0,
    stop: None,
};

const TWO: Drained = Drained {
    count: 2,
    skipped: 0,
    orphans: 0,
    stop: None,
};

const ONE_SKIPPED: Drained = Drained {
    count: 2,
    skipped: 1,
    orphans: 0,
    stop: None,
};

const UP_TO_A_GAP: Drained = Drained {
    count: 1,
    skipped: 0,
    orphans: 0,
    stop: Some(Stop::Gap),
};

/// Takes at most so many messages of a batch from whatever ring, and says how many.
fn take_batch<T: Taker>(taker: &mut T, max: usize) -> usize
    ensures takes { (ms : List Message) × T.passed taker.old ms taker.new × (length ms ≡ result) }
    ensures most { result ≤ max }
{
    let n = taker.batch().messages().len().min(max);
    taker.pass(n);
    n
}

/// Takes one message of a ring.
fn take_one(ring: &mut ByteRing) -> bool
    ensures { posts ring.new ≡ posts ring.old }
{
    take_batch(ring, 1) == 1
}

/// Posts a message: whether that was done.
fn is_posted(ring: &mut ByteRing, told: &Told) -> bool
    requires { posts ring.old < 1000 }
    ensures { posts ring.new ≤ posts ring.old + 1 }
{
    let Some(message) = told.message() else {
        return false;
    };
    ring.post(&message).is_ok()
}

/// A ring of 128 bytes in which the creation of thread 2 stands before a PAD of 32 bytes. Behind it this
/// message of 48 bytes stands at the start of the block.
fn round_the_end(alloc: Global, last: &Told) -> Option<ByteRing> {
    let mut ring = ByteRing::new(alloc, 128).ok()?;
    let ready = is_posted(&mut ring, &FIRST)
        && take_one(&mut ring)
        && is_posted(&mut ring, &SECOND)
        && is_posted(&mut ring, last);
    if !ready || ring.free() != 0 {
        return None;
    }
    Some(ring)
}

/// The tids of the first two messages of a batch that has no more.
fn tids(ring: &mut ByteRing) -> Option<(u32, u32)> {
    let mut messages = ring.batch().messages();
    let second = messages.next()?.tid();
    let third = messages.next()?.tid();
    if messages.next().is_some() {
        return None;
    }
    Some((second, third))
}

/// What a drain of at most so many takes in of that ring, and then: of how many threads something is known,
/// and how many messages wait.
fn drained(alloc: Global, last: &Told, max: u32) -> Option<(Drained, usize, usize)> {
    match round_the_end(alloc, last) {
        Some(mut ring) => drained_of(alloc, &mut ring, max),
        None => None,
    }
}

/// The same of this ring.
fn drained_of(alloc: Global, ring: &mut ByteRing, max: u32) -> Option<(Drained, usize, usize)> {
    match Role::new(alloc, FirstCome, 4, 3, 3) {
        Ok(mut role) => {
            let drained = role.drain(ring, max);
            let known = role.view().len();
            let_go(role);
            Some((drained, known, ring.waiting().len()))
        }
        Err(_) => None,
    }
}

/// The first row that is drained otherwise than it says.
fn first_wrong(alloc: Global, rows: &[Row]) -> Option<usize> {
    for (index, row) in rows.iter().enumerate() {
        let (last, max, taken, known, left) = row;
        if drained(alloc, last, *max) != Some((*taken, *known, *left)) {
            return Some(index);
        }
    }
    None
}

fn try_drains(alloc: Global) -> Tried {
    Tried::with(first_wrong(alloc, &ROWS))
}

#[test]
fn shows_both_segments_and_passes_some(rt: HostRuntime) {
    let Some(mut ring) = round_the_end(rt.alloc(), &THIRD) else {
        panic!(rt; "the ring could not be filled");
    };
    let shown = tids(&mut ring);
    let taken = take_batch(&mut ring, 1);
    let left = (ring.waiting().len(), ring.free());
    assert_eq!(rt; (shown, taken, left), (Some((2, 3)), 1, (1, 48)));
    let rest = take_batch(&mut ring, 9);
    assert_eq!(rt; (rest, ring.free()), (1, 128));
    assert_eq!(rt; take_batch(&mut ring, 9), 0);
}

#[test]
fn drains_round_the_end(rt: HostRuntime) {
    assert_eq!(rt; try_drains(rt.alloc()), Tried::Well);
}
