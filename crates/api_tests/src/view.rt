//! A view through messages: what it returns, and what it knows then.

ghost use Rattle.gs_layout.specs.Spelling.{IsSpellable};

use crate::messages::Told::{self, Creation, Thread, Tick};
use gs_layout::{Change, Class, Facts, Kind, Message, Parcel};
use gs_reader::MessageRef;
use gs_status::Mask;
use gs_view::{AgentView, ApplyFault, Heard, News};
use std::alloc::Global;
use std::test::Fail;

/// What a thread is known to be: whether it may run, its mask, and the number at which it was so.
type Seen = Option<(bool, u128, u32)>;

/// A message, what the view returns for it, a thread and what is then known of it, and of how many threads
/// something is known.
type Row = (Told, Result<News, ApplyFault>, u32, Seen, usize);

const APPLIED: Result<News, ApplyFault> = Ok(News::Applied);

const SKIPPED: Result<News, ApplyFault> = Ok(News::Skipped);

const ORPHAN: Result<News, ApplyFault> = Ok(News::Orphan);

const GAP: Result<News, ApplyFault> = Err(ApplyFault::Gap);

/// Thread 7 from its creation to its death, with messages between that do not come next.
fn life() -> [Row; 15] {
    [
        (
            Creation(7, 5, Class::Zero, 3, "web"),
            APPLIED,
            7,
            Some((true, 3, 5)),
            1,
        ),
        // The view knows these already.
        (
            Thread(7, 5, Change::Blocked { cpu: 1 }),
            SKIPPED,
            7,
            Some((true, 3, 5)),
            1,
        ),
        (
            Thread(7, 1, Change::Dead { cpu: None }),
            SKIPPED,
            7,
            Some((true, 3, 5)),
            1,
        ),
        // It knows nothing of these threads.
        (Thread(8, 6, Change::Wakeup), ORPHAN, 8, None, 1),
        (Thread(6, 1, Change::Dead { cpu: None }), ORPHAN, 8, None, 1),
        (Tick(1), APPLIED, 7, Some((true, 3, 5)), 1),
        // A message is missing before these.
        (
            Thread(7, 7, Change::Blocked { cpu: 1 }),
            GAP,
            7,
            Some((true, 3, 5)),
            1,
        ),
        (
            Thread(7, 9, Change::Dead { cpu: None }),
            GAP,
            7,
            Some((true, 3, 5)),
            1,
        ),
        // The one that was missing still fits.
        (
            Thread(7, 6, Change::Blocked { cpu: 1 }),
            APPLIED,
            7,
            Some((false, 3, 6)),
            1,
        ),
        (
            Thread(7, 7, Change::Wakeup),
            APPLIED,
            7,
            Some((true, 3, 7)),
            1,
        ),
        (
            Thread(
                7,
                8,
                Change::Affinity {
                    cpu: Some(1),
                    off: true,
                    mask: Mask::new(4),
                },
            ),
            APPLIED,
            7,
            Some((true, 4, 8)),
            1,
        ),
        (
            Thread(7, 9, Change::Preempted { cpu: 2 }),
            APPLIED,
            7,
            Some((true, 4, 9)),
            1,
        ),
        (
            Thread(7, 10, Change::Yield { cpu: 2 }),
            APPLIED,
            7,
            Some((true, 4, 10)),
            1,
        ),
        (
            Thread(7, 11, Change::Dead { cpu: Some(2) }),
            APPLIED,
            7,
            None,
            0,
        ),
        (Thread(7, 12, Change::Wakeup), ORPHAN, 7, None, 0),
    ]
}

/// Threads that come in no order, of which one blocks and one dies.
const SEVERAL: [Row; 7] = [
    (
        Creation(7, 5, Class::Zero, 3, "web"),
        APPLIED,
        7,
        Some((true, 3, 5)),
        1,
    ),
    (
        Creation(3, 2, Class::Zero, 3, "x"),
        APPLIED,
        3,
        Some((true, 3, 2)),
        2,
    ),
    (
        Creation(65_536, 2, Class::Zero, 3, "x"),
        APPLIED,
        65_536,
        Some((true, 3, 2)),
        3,
    ),
    (
        Creation(1, 2, Class::Zero, 3, "x"),
        APPLIED,
        1,
        Some((true, 3, 2)),
        4,
    ),
    (
        Creation(9, 2, Class::Zero, 3, "x"),
        APPLIED,
        9,
        Some((true, 3, 2)),
        5,
    ),
    (
        Thread(9, 3, Change::Blocked { cpu: 0 }),
        APPLIED,
        9,
        Some((false, 3, 3)),
        5,
    ),
    (
        Thread(3, 3, Change::Dead { cpu: None }),
        APPLIED,
        3,
        None,
        4,
    ),
];

/// What a walk over them shows, in increasing order of tid: the tid, whether the thread may run, and its
/// number.
const SHOWN: [(u32, bool, u32); 4] = [(1, true, 2), (7, true, 5), (9, false, 3), (65_536, true, 2)];

/// A message about a thread, what the view hears of it, and the class of thread 7 if that may run then.
type HeardRow = (Told, Result<Heard, ApplyFault>, Option<Class>);

/// What is heard of thread 7, and of another.
const HEARD: [HeardRow; 7] = [
    (
        Creation(7, 5, Class::One, 3, "web"),
        Ok(Heard {
            news: News::Applied,
            ready: Some(Class::One),
        }),
        Some(Class::One),
    ),
    (
        Thread(7, 6, Change::Blocked { cpu: 1 }),
        Ok(Heard {
            news: News::Applied,
            ready: None,
        }),
        None,
    ),
    (
        Thread(7, 7, Change::Wakeup),
        Ok(Heard {
            news: News::Applied,
            ready: Some(Class::One),
        }),
        Some(Class::One),
    ),
    (
        Thread(7, 7, Change::Blocked { cpu: 1 }),
        Ok(Heard {
            news: News::Skipped,
            ready: None,
        }),
        Some(Class::One),
    ),
    (
        Thread(8, 1, Change::Wakeup),
        Ok(Heard {
            news: News::Orphan,
            ready: None,
        }),
        Some(Class::One),
    ),
    (
        Thread(7, 9, Change::Wakeup),
        Err(ApplyFault::Gap),
        Some(Class::One),
    ),
    (
        Thread(7, 8, Change::Dead { cpu: None }),
        Ok(Heard {
            news: News::Applied,
            ready: None,
        }),
        None,
    ),
];

/// What the view hears of a message about a thread, or `None` if it is about none.
fn hear(view: &mut AgentView, message: &Message) -> Option<Result<Heard, ApplyFault>>
    requires { IsSpellable message.now }
{
    let parcel = Parcel::new(message);
    let message = MessageRef::in_parcel(&parcel);
    let kind = message.kind();
    if kind == Kind::TimerTick {
        return None;
    }
    Some(view.hear(kind, &message))
}

/// Whether the view hears what a row says, and thread 7 may run then as it says.
fn is_heard(view: &mut AgentView, row: &HeardRow) -> bool {
    let (told, heard, ready) = row;
    let Some(message) = told.message() else {
        return false;
    };
    hear(view, &message) == Some(*heard) && view.ready(7) == *ready
}

/// The first row that the view does not hear as it says.
fn first_unheard(view: &mut AgentView) -> Option<usize> {
    for (index, row) in HEARD.iter().enumerate() {
        if !is_heard(view, row) {
            return Some(index);
        }
    }
    None
}

/// What the view returns for a message.
pub(crate) fn send(view: &mut AgentView, message: &Message) -> Result<News, ApplyFault>
    requires { IsSpellable message.now }
{
    let parcel = Parcel::new(message);
    view.apply(MessageRef::in_parcel(&parcel))
}

/// What is known of a thread.
fn seen(view: &AgentView, tid: u32) -> Seen {
    let (facts, tseq) = view.get(tid)?;
    Some((facts.runnable, facts.mask.bits(), tseq))
}

/// Whether the view returns what a row says, and knows then what it says.
fn is_answered(view: &mut AgentView, row: &Row) -> bool {
    let (told, answer, tid, known, count) = row;
    let Some(message) = told.message() else {
        return false;
    };
    send(view, &message) == *answer
        && seen(view, *tid) == *known
        && view.len() == *count
        && view.is_empty() == (*count == 0)
}

/// The first row that the view does not take as it says.
fn first_wrong(view: &mut AgentView, rows: &[Row]) -> Option<usize> {
    for (index, row) in rows.iter().enumerate() {
        if !is_answered(view, row) {
            return Some(index);
        }
    }
    None
}

/// Whether a walk shows this, and no more.
pub(crate) fn shows(view: &AgentView, expected: &[(u32, bool, u32)]) -> bool {
    let mut walk = view.walk();
    for row in expected {
        let Some((tid, facts, tseq)) = walk.next() else {
            return false;
        };
        if (tid, facts.runnable, tseq) != *row {
            return false;
        }
    }
    walk.next().is_none()
}

/// Whether these are the facts of the creation of thread 7.
fn is_web(facts: &Facts) -> bool {
    facts.runnable
        && facts.mask == Mask::new(3)
        && facts.class == Class::Zero
        && facts.name.as_bytes() == b"web".as_slice()
}

/// Whether the view knows thread 7, at number 5 and by all facts of its creation, and no neighbour of it.
fn knows_seventh_alone(view: &AgentView) -> bool {
    let Some((facts, tseq)) = view.get(7) else {
        return false;
    };
    let mut neighbours = [0, 6, 8, u32::MAX].iter();
    is_web(facts) && tseq == 5 && neighbours.all(|tid| view.get(*tid).is_none())
}

/// Whether nothing is known yet.
fn is_blank(view: &AgentView) -> bool {
    view.is_empty() && view.get(7).is_none() && shows(view, &[])
}

// A function for each table: a proof is cheaper if it sees one table alone.
fn try_life(view: &mut AgentView) -> Option<usize> {
    first_wrong(view, &life())
}

/// Creates thread 7 anew, after its life.
fn try_birth(view: &mut AgentView) -> Option<usize> {
    first_wrong(view, &life()[..1])
}

fn try_several(view: &mut AgentView) -> Option<usize> {
    first_wrong(view, &SEVERAL)
}

/// Whether a new view is blank, and the first row of a life and of a birth that it does not take as it says. Then whether it knows thread 7
/// alone.
fn lives(alloc: Global) -> (bool, Option<usize>, Option<usize>, bool) {
    let mut view = AgentView::new(alloc);
    let blank = is_blank(&view);
    let life = try_life(&mut view);
    let birth = try_birth(&mut view);
    (blank, life, birth, knows_seventh_alone(&view))
}

/// The first row of several threads that a new view does not take as it says, and whether a walk shows them then.
fn walks(alloc: Global) -> (Option<usize>, bool) {
    let mut view = AgentView::new(alloc);
    let several = try_several(&mut view);
    (several, shows(&view, &SHOWN))
}

#[test]
fn takes_messages_in(rt: HostRuntime) {
    let lives = lives(rt.alloc());
    let walks = walks(rt.alloc());
    assert_eq!(rt; (lives, walks), ((true, None, None, true), (None, true)));
}

#[test]
fn hears_who_may_run(rt: HostRuntime) {
    let mut view = AgentView::new(rt.alloc());
    let unheard = first_unheard(&mut view);
    assert_eq!(rt; unheard, None);
}

#[test]
fn a_fault_says_why(rt: HostRuntime) -> Result<(), Fail> {
    let texts = [
        (
            ApplyFault::Gap,
            "messages about the thread are missing before this one",
        ),
        (
            ApplyFault::OutOfMemory,
            "no memory for the record of a new thread",
        ),
    ];
    for (fault, text) in texts {
        let said = format!(in rt.alloc(); "{fault}")?;
        assert_eq!(rt; said.as_str(), text);
    }
    Ok(())
}
