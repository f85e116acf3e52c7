//! What a journal makes room for, and what its first entries say.
use crate::layout::{Life, NOT_RUNNABLE, ON_CPU_1_ALONE, RUNNABLE, facts, life_of};
use gs_journal::{Entry, Journal};
use gs_layout::{Change, Facts, Message, Refusal};
use gs_status::Mask;
use std::alloc::Global;

/// What is done with a journal.
#[derive(Clone, Copy)]
enum Step {
    Reserve(usize),
    Add(Entry),
}

/// An agent of generation 1 became active on CPU 0.
const FIRST_ROLE: Entry = Entry::Role {
    generation: 1,
    cpu: 0,
};

/// A step with a journal of at most two entries, what it returns, and how many entries there are then.
const STEPS: [(Step, Result<(), Refusal>, usize); 7] = [
    (Step::Reserve(3), Err(Refusal::HistoryFull), 0),
    (Step::Reserve(2), Ok(()), 0),
    (Step::Add(FIRST_ROLE), Ok(()), 1),
    (Step::Reserve(2), Err(Refusal::HistoryFull), 1),
    (Step::Add(Entry::Torn), Ok(()), 2),
    (Step::Reserve(1), Err(Refusal::HistoryFull), 2),
    (Step::Reserve(0), Ok(()), 2),
];

/// Makes room for an entry, and appends it.
fn add(journal: &mut Journal, entry: Entry) -> Result<(), Refusal> {
    journal.reserve(1)?;
    journal.append(entry);
    Ok(())
}

fn add_all(journal: &mut Journal, entries: &[Entry]) -> Result<(), Refusal> {
    for entry in entries {
        add(journal, *entry)?;
    }
    Ok(())
}

fn take(journal: &mut Journal, step: Step) -> Result<(), Refusal> {
    match step {
        Step::Reserve(additional) => journal.reserve(additional),
        Step::Add(entry) => add(journal, entry),
    }
}

/// The first step that comes out otherwise, or after which there are more entries or fewer.
fn first_wrong_step(journal: &mut Journal) -> Option<usize> {
    for (index, (step, answer, len)) in STEPS.iter().enumerate() {
        let answered = take(journal, *step) == *answer;
        let has_len = journal.len() == *len && journal.is_empty() == (*len == 0);
        if !answered || !has_len || journal.limit() != 2 {
            return Some(index);
        }
    }
    None
}

#[test]
fn makes_room(rt: HostRuntime) {
    let mut journal = Journal::new(rt.alloc(), 0, 2);
    assert_eq!(rt; first_wrong_step(&mut journal), None);
    let kept = (journal.get(0), journal.get(1), journal.get(2));
    let is_kept = matches!(kept, (Some(Entry::Role { .. }), Some(Entry::Torn), None));
    assert!(rt; is_kept);
}

/// A message about thread 1.
fn posted(tseq: u32, change: Change) -> Entry {
    let message = Message::Thread {
        tid: 1,
        tseq,
        change,
    };
    Entry::Posted { message }
}

/// Thread 1 is placed.
fn placed(tseq: u32, cpu: u16) -> Entry {
    Entry::Placed {
        tid: 1,
        tseq,
        cpu,
        generation: 1,
    }
}

/// All that happens to thread 1.
fn life_entries(facts: Facts) -> [Entry; 7] {
    let off = Change::Affinity {
        cpu: Some(0),
        off: true,
        mask: Mask::new(2),
    };
    [
        posted(5, Change::Created { facts }),
        placed(5, 1),
        posted(6, Change::Blocked { cpu: 1 }),
        posted(7, Change::Wakeup),
        placed(7, 0),
        posted(8, off),
        posted(9, Change::Dead { cpu: None }),
    ]
}

/// What some entries say: what thread 1 is, its sequence number, the CPU of two that it is on, and who is
/// on CPU 1.
type Said = (Life, u64, Option<u16>, Option<u32>);

/// What is said after no entry, after one, and so on, and after one more than there are.
const LIFE: [Said; 9] = [
    (Life::Absent, 0, None, None),
    (RUNNABLE, 5, None, None),
    (RUNNABLE, 5, Some(1), Some(1)),
    (NOT_RUNNABLE, 6, None, None),
    (RUNNABLE, 7, None, None),
    (RUNNABLE, 7, Some(0), None),
    (ON_CPU_1_ALONE, 8, None, None),
    (Life::Dead, 9, None, None),
    (Life::Dead, 9, None, None),
];

/// What the first entries say.
fn said(journal: &Journal, n: usize) -> Said {
    (
        life_of(&journal.facts_at(n, 1)),
        journal.seq_at(n, 1),
        journal.at(n, 1, 2),
        journal.on_cpu(n, 1),
    )
}

/// Whether the first entries say that thread 2 never was.
fn has_no_other(journal: &Journal, n: usize) -> bool {
    life_of(&journal.facts_at(n, 2)) == Life::Absent
        && journal.seq_at(n, 2) == 0
        && journal.at(n, 2, 2).is_none()
}

/// The first count of entries that say otherwise.
fn first_wrong_life(journal: &Journal) -> Option<usize> {
    for (n, wanted) in LIFE.iter().enumerate() {
        if said(journal, n) != *wanted || !has_no_other(journal, n) {
            return Some(n);
        }
    }
    None
}

/// A journal whose numbers begin above 4, in which a thread named "web" lived.
fn life_journal(alloc: Global) -> Option<Journal> {
    let entries = life_entries(facts(b"web")?);
    let mut journal = Journal::new(alloc, 4, 100);
    add_all(&mut journal, &entries).ok()?;
    Some(journal)
}

#[test]
fn tells_a_life(rt: HostRuntime) {
    let journal = life_journal(rt.alloc()).expect(&rt, "a journal");
    assert_eq!(rt; (journal.len(), journal.first_tseq()), (7, 4));
    assert_eq!(rt; first_wrong_life(&journal), None);
    // Only the CPUs below the count are looked at.
    assert_eq!(rt; journal.at(2, 1, 1), None);
}

/// A new mask for thread 1.
fn masked(tseq: u32, cpu: Option<u16>, mask: u128) -> Entry {
    let mask = Mask::new(mask);
    let off = cpu.is_some();
    posted(tseq, Change::Affinity { cpu, off, mask })
}

/// An entry of each kind, with two of each that has facts or a mask.
fn each_kind(web: Facts, db: Facts) -> [Entry; 17] {
    let tick = Message::TimerTick { cpu: 3 };
    [
        FIRST_ROLE,
        posted(1, Change::Created { facts: web }),
        placed(1, 1),
        masked(2, Some(1), 1),
        posted(2, Change::Created { facts: db }),
        posted(3, Change::Wakeup),
        posted(4, Change::Blocked { cpu: 5 }),
        posted(5, Change::Preempted { cpu: 6 }),
        masked(6, None, u128::MAX),
        posted(7, Change::Yield { cpu: 7 }),
        posted(8, Change::Dead { cpu: Some(8) }),
        posted(9, Change::Dead { cpu: None }),
        Entry::Posted { message: tick },
        Entry::Begin { generation: 9 },
        Entry::Left,
        Entry::Taken { cpu: 10 },
        Entry::Given { cpu: 11 },
    ]
}

/// The first place at which a journal has another entry, or one too few or too many.
fn first_other(journal: &Journal, entries: &[Entry]) -> Option<usize> {
    for place in 0..journal.len().max(entries.len()) {
        match (journal.get(place), entries.get(place)) {
            (Some(entry), Some(wanted)) if entry == *wanted => {}
            _ => return Some(place),
        }
    }
    None
}

/// Whether a journal with no room at first gives back each entry that it took, and the last one.
fn gives_back(alloc: Global) -> Option<bool> {
    let entries = each_kind(facts(b"web")?, facts(b"db")?);
    let mut journal = Journal::new(alloc, 0, 20);
    add_all(&mut journal, &entries).ok()?;
    let is_last = matches!(journal.last()?.entry(), Entry::Given { cpu: 11 });
    Some(is_last && first_other(&journal, &entries).is_none())
}

#[test]
fn gives_back_each_entry(rt: HostRuntime) {
    assert_eq!(rt; gives_back(rt.alloc()), Some(true));
    assert!(rt; Journal::new(rt.alloc(), 0, 20).last().is_none());
}

/// Agents come and go, the other class takes CPU 1 for a while, and the enclave is torn down.
const AGENT_ENTRIES: [Entry; 7] = [
    FIRST_ROLE,
    Entry::Taken { cpu: 1 },
    Entry::Given { cpu: 1 },
    Entry::Left,
    Entry::Begin { generation: 2 },
    Entry::Role {
        generation: 2,
        cpu: 1,
    },
    Entry::Torn,
];

/// What some entries say of the enclave: the active agent, by its generation and its CPU, whether CPUs 0
/// and 1 are taken, and whether it is torn down.
type Standing = (Option<(u32, u16)>, bool, bool, bool);

/// What is said after no entry, after one, and so on.
const STANDINGS: [Standing; 8] = [
    (None, false, false, false),
    (Some((1, 0)), false, false, false),
    (Some((1, 0)), false, true, false),
    (Some((1, 0)), false, false, false),
    (None, false, false, false),
    (None, false, false, false),
    (Some((2, 1)), false, false, false),
    (None, false, false, true),
];

fn standing(journal: &Journal, n: usize) -> Standing {
    (
        journal.active(n),
        journal.is_taken(n, 0),
        journal.is_taken(n, 1),
        journal.is_torn(n),
    )
}

/// The first count of entries that say otherwise.
fn first_wrong_standing(journal: &Journal) -> Option<usize> {
    for (n, wanted) in STANDINGS.iter().enumerate() {
        if standing(journal, n) != *wanted {
            return Some(n);
        }
    }
    None
}

#[test]
fn tells_agents_and_the_other_class(rt: HostRuntime) {
    let mut journal = Journal::new(rt.alloc(), 0, 100);
    assert_eq!(rt; add_all(&mut journal, &AGENT_ENTRIES), Ok(()));
    assert_eq!(rt; first_wrong_standing(&journal), None);
}
