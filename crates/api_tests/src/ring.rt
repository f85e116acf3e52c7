//! A ring of bytes through posts and takings: what has room, how much is free then, and what waits.

ghost use Rattle.std.specs.Prelude.{◌≡◌, ◌+◌, ◌<◌, ◌≤◌, List, ◌∷◌, length, IfOk};
ghost use Rattle.gs_layout.specs.declared.message.Message.{Message};
ghost use Rattle.gs_layout.specs.Spelling.{IsSpellable};
ghost use Rattle.gs_ring.specs.RingState.{posts};

use crate::messages::Told::{self, Creation, Tick};
use crate::messages::Tried;
use gs_layout::{Change, Class, Message};
use gs_ring::{ByteRing, Poster, RingFault, Taker};
use gs_status::Mask;
use std::alloc::{AllocError, Global};

/// What is done to a ring.
#[derive(Clone, Copy)]
enum Deed {
    /// A message is posted: whether there is room for it.
    Post(Told, bool),
    /// At most so many messages are taken: how many there are.
    Take(usize, usize),
    /// It is asked how many bytes a record of so many needs, and returns this.
    Need(u16, usize),
}

use Deed::{Need, Post, Take};

/// What is done, and then: how many bytes are free, how many messages wait, and of the first of them the tid
/// and the CPU.
type Row = (Deed, usize, usize, Option<(u32, Option<u16>)>);

/// A name with which a creation has 48 bytes.
const LONG: &str = "abcdefghijklmn";

const FIRST: Told = Creation(1, 1, Class::Zero, 3, LONG);

const SECOND: Told = Creation(2, 1, Class::Zero, 3, LONG);

const THIRD: Told = Creation(3, 1, Class::Zero, 3, LONG);

/// One that has 56 bytes.
const LONGEST: Told = Creation(3, 1, Class::Zero, 3, "abcdefghijklmnop");

/// In a ring of 128 bytes: behind the first two creations the third would lie over the end of the block.
const ROUND_THE_END: [Row; 6] = [
    (Post(FIRST, true), 80, 1, Some((1, None))),
    (Post(SECOND, true), 32, 2, Some((1, None))),
    (Post(THIRD, false), 32, 2, Some((1, None))),
    (Take(9, 2), 128, 0, None),
    (Need(48, 80), 128, 0, None),
    // A PAD stands in the 32 bytes up to the end.
    (Post(THIRD, true), 48, 1, Some((3, None))),
];

/// In a ring of 128 bytes: the longest creation stands behind the longest PAD, which is of 48 bytes. They have 104
/// together, the most that a post may add.
const BEHIND_THE_LONGEST_PAD: [Row; 7] = [
    (
        Post(Creation(1, 1, Class::Zero, 3, ""), true),
        88,
        1,
        Some((1, None)),
    ),
    (
        Post(Creation(2, 1, Class::Zero, 3, ""), true),
        48,
        2,
        Some((1, None)),
    ),
    (Take(1, 1), 88, 1, Some((2, None))),
    (Post(LONGEST, false), 88, 1, Some((2, None))),
    (Take(1, 1), 128, 0, None),
    (Need(56, 104), 128, 0, None),
    (Post(LONGEST, true), 24, 1, Some((3, None))),
];

/// Eight ticks of 16 bytes fill a ring of 128 to the last byte.
const TO_THE_LAST_BYTE: [Row; 10] = [
    (Post(Tick(0), true), 112, 1, Some((0, Some(0)))),
    (Post(Tick(1), true), 96, 2, Some((0, Some(0)))),
    (Post(Tick(2), true), 80, 3, Some((0, Some(0)))),
    (Post(Tick(3), true), 64, 4, Some((0, Some(0)))),
    (Post(Tick(4), true), 48, 5, Some((0, Some(0)))),
    (Post(Tick(5), true), 32, 6, Some((0, Some(0)))),
    (Post(Tick(6), true), 16, 7, Some((0, Some(0)))),
    (Post(Tick(7), true), 0, 8, Some((0, Some(0)))),
    (Post(Tick(8), false), 0, 8, Some((0, Some(0)))),
    (Take(3, 3), 48, 5, Some((0, Some(3)))),
];

/// In a ring of 128 bytes: the second creation lies before the end of the block, and the third behind a PAD, at
/// its start.
const TWO_WAIT: [Row; 4] = [
    (Post(FIRST, true), 80, 1, Some((1, None))),
    (Post(SECOND, true), 32, 2, Some((1, None))),
    (Take(1, 1), 80, 1, Some((2, None))),
    (Post(THIRD, true), 0, 2, Some((2, None))),
];

/// The bytes of the creation of thread 3.
const THIRD_BYTES: [u8; 48] = [
    0x30, 0x00, 0x01, 0x00, 0x03, 0x00, 0x00, 0x00, 0x01, 0x00, 0x00, 0x00, 0xff, 0xff, 0x01, 0x00,
    0x03, 0x00, 0x00, 0x00, 0x00, 0x00, 0x00, 0x00, 0x00, 0x00, 0x00, 0x00, 0x00, 0x00, 0x00, 0x00,
    0x00, 0x0e, 0x61, 0x62, 0x63, 0x64, 0x65, 0x66, 0x67, 0x68, 0x69, 0x6a, 0x6b, 0x6c, 0x6d, 0x6e,
];

/// A PAD of 32 bytes.
const PAD_OF_32: [u8; 32] = [
    0x20, 0x00, 0x09, 0x00, 0x00, 0x00, 0x00, 0x00, 0x00, 0x00, 0x00, 0x00, 0x00, 0x00, 0x00, 0x00,
    0x00, 0x00, 0x00, 0x00, 0x00, 0x00, 0x00, 0x00, 0x00, 0x00, 0x00, 0x00, 0x00, 0x00, 0x00, 0x00,
];

/// Takes at most so many messages from whatever ring, and says how many.
fn take_some<T: Taker>(taker: &mut T, max: usize) -> usize
    ensures takes { (ms : List Message) × T.passed taker.old ms taker.new × (length ms ≡ result) }
    ensures most { result ≤ max }
    ensures short { result < max → (m : Message) (ms : List Message) → T.ahead taker.new (m ∷ ms) → ⊥ }
{
    let mut count = 0;
    'taking: while count < max {
        let Some(_) = taker.peek() else {
            break;
        };
        taker.advance();
        count += 1;
    }
    count
}

/// Whether a ring returns for what is done what a row says.
fn is_answered(ring: &mut ByteRing, deed: &Deed) -> bool
    requires { posts ring.old < 1000 }
    ensures { posts ring.new ≤ posts ring.old + 1 }
{
    match deed {
        Deed::Post(told, fits) => {
            let Some(message) = told.message() else {
                return false;
            };
            ring.post(&message).is_ok() == *fits
        }
        Deed::Take(max, count) => take_some(ring, *max) == *count,
        Deed::Need(len, need) => ring.need(usize::from(*len)) == *need,
    }
}

/// The tid and the CPU of the message that waits first.
fn first(ring: &ByteRing) -> Option<(u32, Option<u16>)> {
    let message = ring.first()?.message();
    Some((message.tid(), message.cpu()))
}

/// The first row that a ring does not take as it says, or after which it is not as it says.
fn first_wrong(ring: &mut ByteRing, rows: &[Row]) -> Option<usize>
    requires { posts ring.old + length rows.now < 1000 }
{
    for (index, row) in rows.iter().enumerate() {
        let (deed, free, count, next) = row;
        let well = is_answered(ring, deed)
            && ring.free() == *free
            && ring.waiting().len() == *count
            && first(ring) == *next;
        if !well {
            return Some(index);
        }
    }
    None
}

/// Whether the bytes that wait are these up to the end of the block, and these from its start.
fn is_front(ring: &ByteRing, to_end: &[u8], from_start: &[u8]) -> bool {
    let (first, second) = ring.front();
    first == to_end && second == from_start
}

/// Takes all bytes that wait.
fn consume_all(ring: &mut ByteRing) {
    let (first, second) = ring.front();
    let n = first.len() + second.len();
    ring.consume(n);
}

/// Posts a message and takes the one that waits first: whose it is.
fn pass_through(ring: &mut ByteRing, message: &Message) -> Option<u32>
    requires few { posts ring.old < 1000 }
    requires spellable { IsSpellable message.now }
    ensures { posts ring.new ≤ posts ring.old + 1 }
{
    let Ok(()) = ring.post(message) else {
        return None;
    };
    let tid = ring.first()?.message().tid();
    ring.advance();
    Some(tid)
}

/// The first of the threads 1 to 99 whose creation does not pass through a ring and leave all of it free.
fn first_stuck(ring: &mut ByteRing) -> Option<u32>
    requires { posts ring.old ≡ 0 }
{
    for tid in 1..100 {
        let Some(message) = Creation(tid, 1, Class::Zero, 3, LONG).message() else {
            return Some(tid);
        };
        let passed = pass_through(ring, &message);
        if passed != Some(tid) || ring.free() != ring.capacity() {
            return Some(tid);
        }
    }
    None
}

/// The messages that wait in a ring, each with a name of its own.
fn all_of(alloc: Global, ring: &ByteRing) -> Result<Vec<Message>, AllocError>
    ensures { IfOk result (λ v. v.items ≡ ring.now.unread) }
{
    let waiting = ring.waiting();
    let count = waiting.len();
    let mut all = Vec::with_capacity(alloc, count)?;
    for message in waiting {
        all.push_reserved(message.message());
    }
    prove!(all.as_slice().len() == count);
    Ok(all)
}

/// Whether it is the creation of this thread, with a name of 16 bytes.
fn is_created(message: &Message, tid: u32) -> bool {
    let Message::Thread {
        tid: of,
        tseq,
        change: Change::Created { facts },
    } = message
    else {
        return false;
    };
    (*of, *tseq) == (tid, 1)
        && facts.runnable
        && facts.mask == Mask::new(3)
        && facts.class == Class::Zero
        && facts.name.as_bytes() == LONG.as_bytes()
}

/// Whether these are the creations of threads 2 and 3.
fn are_two_created(messages: &[Message]) -> bool {
    match messages {
        [second, third] => is_created(second, 2) && is_created(third, 3),
        _ => false,
    }
}

/// Whether a walk shows the creations of threads 2 and 3, and no more.
fn shows_two(ring: &ByteRing) -> bool {
    let mut waiting = ring.waiting();
    let Some(second) = waiting.next() else {
        return false;
    };
    let left = waiting.len();
    let Some(third) = waiting.next() else {
        return false;
    };
    (second.tid(), left) == (2, 1)
        && third.as_bytes() == THIRD_BYTES.as_slice()
        && waiting.next().is_none()
}

#[test]
fn refuses_bad_capacities(rt: HostRuntime) {
    let bad = Some(RingFault::BadCapacity);
    let rows = [
        (0, bad),
        (8, bad),
        (120, bad),
        (127, bad),
        (129, bad),
        (132, bad),
        (1_048_577, bad),
        (1_048_584, bad),
        (usize::MAX, bad),
        (128, None),
        (136, None),
        (1_048_576, None),
    ];
    for (capacity, fault) in rows {
        assert_eq!(rt;
            ByteRing::new(rt.alloc(), capacity).err(),
            fault,
            "{capacity}"
        );
    }
}

// A function for each table: a proof is cheaper if it sees one table alone.
fn try_to_the_last_byte(alloc: Global) -> Tried {
    match ByteRing::new(alloc, 128) {
        Ok(mut ring) => Tried::with(first_wrong(&mut ring, &TO_THE_LAST_BYTE)),
        Err(_) => Tried::NotMade,
    }
}

fn try_longest_pad(alloc: Global) -> Tried {
    match ByteRing::new(alloc, 128) {
        Ok(mut ring) => Tried::with(first_wrong(&mut ring, &BEHIND_THE_LONGEST_PAD)),
        Err(_) => Tried::NotMade,
    }
}

fn try_several_laps(alloc: Global) -> Option<u32> {
    match ByteRing::new(alloc, 136) {
        Ok(mut ring) => first_stuck(&mut ring),
        Err(_) => Some(0),
    }
}

fn try_round_the_end(ring: &mut ByteRing) -> Tried
    requires { posts ring.old ≡ 0 }
{
    Tried::with(first_wrong(ring, &ROUND_THE_END))
}

/// Whether a PAD of 32 bytes and then the third creation wait, and none once they are consumed.
fn consumes_padded_third(ring: &mut ByteRing) -> bool {
    let padded = is_front(ring, &PAD_OF_32, &THIRD_BYTES);
    consume_all(ring);
    padded && ring.free() == 128 && first(ring).is_none()
}

/// What comes of the table, and whether a PAD and the third creation are then consumed as they should.
fn round_the_end(alloc: Global) -> Option<(Tried, bool)> {
    match ByteRing::new(alloc, 128) {
        Ok(mut ring) => {
            let tried = try_round_the_end(&mut ring);
            Some((tried, consumes_padded_third(&mut ring)))
        }
        Err(_) => None,
    }
}

#[test]
fn posts_and_takes(rt: HostRuntime) {
    let last_byte = try_to_the_last_byte(rt.alloc());
    let longest_pad = try_longest_pad(rt.alloc());
    let stuck = try_several_laps(rt.alloc());
    let round = round_the_end(rt.alloc());
    assert_eq!(rt;
        (last_byte, longest_pad, stuck, round),
        (Tried::Well, Tried::Well, None, Some((Tried::Well, true)))
    );
}

/// Whether the messages that wait are none.
fn has_none(alloc: Global, ring: &ByteRing) -> bool {
    match all_of(alloc, ring) {
        Ok(messages) => messages.is_empty(),
        Err(_) => false,
    }
}

/// Whether they are the creations of threads 2 and 3.
fn has_two_created(alloc: Global, ring: &ByteRing) -> bool {
    match all_of(alloc, ring) {
        Ok(messages) => are_two_created(&messages),
        Err(_) => false,
    }
}

/// Whether nothing waits in a ring at first, and then two messages, of which none is taken before both are.
fn shows_then_takes(alloc: Global, ring: &mut ByteRing) -> bool
    requires { posts ring.old ≡ 0 }
{
    let before = has_none(alloc, ring);
    let wrong = first_wrong(ring, &TWO_WAIT);
    let shown = has_two_created(alloc, ring) && shows_two(ring);
    let left = ring.free();
    let taken = take_some(ring, 9);
    before && wrong.is_none() && shown && (left, taken) == (0, 2) && ring.waiting().next().is_none()
}

/// The same of a new ring.
fn shows_of_new(alloc: Global) -> Option<bool> {
    match ByteRing::new(alloc, 128) {
        Ok(mut ring) => Some(shows_then_takes(alloc, &mut ring)),
        Err(_) => None,
    }
}

#[test]
fn shows_what_waits(rt: HostRuntime) {
    assert_eq!(rt; shows_of_new(rt.alloc()), Some(true));
}
