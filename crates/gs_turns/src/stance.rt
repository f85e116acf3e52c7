ghost use Rattle.std.specs.Prelude.{◌≡◌, None};
ghost use Rattle.gs_turns.specs.Stances.{class_by, placed_at, stance_by, stance_of_change};
ghost use Rattle.gs_turns.specs.Knowing.{heard, since_then, unseen};

use gs_journal::Entry;
use gs_layout::{Change, Class, Message};

/// How a thread stands.
#[derive(Clone, Copy, PartialEq, Eq, Debug)]
pub enum Stance {
    /// It may run, and is on no CPU.
    Ready,
    /// It is on a CPU.
    Running,
    /// It was not created, may not run, is dead, or its enclave is torn down.
    Away,
}

/// What is known of a thread behind so many entries.
#[derive(Clone, Copy, PartialEq, Eq, Debug)]
pub struct Known {
    /// The place of the entry since which it is ready, or none if it is not.
    pub since: Option<usize>,
    pub class: Option<Class>,
    /// The CPU that it was last placed on, or none if it never was.
    pub cpu: Option<u16>,
}

/// Returns how a change leaves its thread, or `None` if it leaves that as it is.
fn stance_of_change(change: &Change) -> Option<Stance>
    ensures { result ≡ stance_of_change change.now }
{
    match change {
        Change::Created { facts } if facts.runnable => Some(Stance::Ready),
        Change::Created { .. } | Change::Blocked { .. } | Change::Dead { .. } => {
            Some(Stance::Away)
        }
        Change::Wakeup | Change::Preempted { .. } | Change::Yield { .. } => Some(Stance::Ready),
        Change::Affinity { off, .. } => off.then_some(Stance::Ready),
    }
}

/// Returns how an entry leaves a thread, or `None` if it leaves that as it is.
pub fn stance_by(tid: u32, entry: &Entry) -> Option<Stance>
    ensures { result ≡ stance_by tid entry.now }
{
    match entry {
        Entry::Posted {
            message: Message::Thread {
                tid: other,
                change,
                ..
            },
        } if *other == tid => stance_of_change(change),
        Entry::Placed { tid: other, .. } if *other == tid => Some(Stance::Running),
        Entry::Torn => Some(Stance::Away),
        _ => None,
    }
}

/// Returns the class that an entry gives a thread, if it gives it one.
fn class_by(tid: u32, entry: &Entry) -> Option<Class>
    ensures { result ≡ class_by tid entry.now }
{
    match entry {
        Entry::Posted {
            message: Message::Thread {
                tid: other,
                change: Change::Created { facts },
                ..
            },
        } if *other == tid => Some(facts.class),
        _ => None,
    }
}

/// Returns the CPU that an entry places a thread on, if it places it.
fn placed_at(tid: u32, entry: &Entry) -> Option<u16>
    ensures { result ≡ placed_at tid entry.now }
{
    match entry {
        Entry::Placed {
            tid: other,
            cpu,
            ..
        } if *other == tid => Some(*cpu),
        _ => None,
    }
}

/// Returns since which entry a thread is ready that this entry leaves so.
fn since_then(place: usize, stance: Option<Stance>, since: Option<usize>) -> Option<usize>
    ensures { result ≡ since_then place stance since }
{
    match stance {
        None => since,
        Some(Stance::Ready) => Some(since.unwrap_or(place)),
        Some(_) => None,
    }
}

impl Known {
    /// What is known of a thread that no entry was about.
    pub(crate) fn unseen() -> Known
        ensures { result ≡ unseen }
    {
        Known {
            since: None,
            class: None,
            cpu: None,
        }
    }

    /// Returns what is known of a thread behind one more entry, the one of this place.
    pub(crate) fn heard(self, place: usize, tid: u32, entry: &Entry) -> Known
        ensures { result ≡ heard place tid entry.now self }
    {
        Known {
            since: since_then(place, stance_by(tid, entry), self.since),
            class: class_by(tid, entry).or(self.class),
            cpu: placed_at(tid, entry).or(self.cpu),
        }
    }
}
