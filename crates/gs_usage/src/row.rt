ghost use Rattle.std.specs.Prelude.{◌≡◌};
ghost use Rattle.gs_usage.specs.Uses.{mask_by};
ghost use Rattle.gs_usage.specs.Waiting.{is_behind, ready_at_then, row_then, no_change, unseen, waits_for};

use gs_journal::Entry;
use gs_layout::{Change, Message};
use gs_status::Mask;
use gs_turns::{Stance, stance_by};

/// What is known of a thread: whether it waits, and which CPUs it may run on.
#[derive(Clone, Copy, PartialEq, Eq, Debug)]
pub struct Row {
    /// The place of the entry that left it ready, or none if a later one left it otherwise. A tear-down may be later.
    pub ready_at: Option<usize>,
    /// The mask that it was last given, of no CPU if it was given none.
    pub mask: Mask,
}

/// The CPUs that a thread waits for, before an entry and behind it.
#[derive(Clone, Copy, PartialEq, Eq, Debug)]
pub struct WaitChange {
    pub before: Mask,
    pub after: Mask,
}

/// Returns the mask that an entry gives a thread, if it gives it one.
fn mask_by(tid: u32, entry: &Entry) -> Option<Mask>
    ensures { result ≡ mask_by tid entry.now }
{
    match entry {
        Entry::Posted {
            message: Message::Thread {
                tid: other,
                change,
                ..
            },
        } if *other == tid => match change {
            Change::Created { facts } => Some(facts.mask),
            Change::Affinity { mask, .. } => Some(*mask),
            _ => None,
        },
        _ => None,
    }
}

/// Returns at which entry a thread was left ready, behind the entry of this place, which leaves it so.
fn ready_at_then(place: usize, stance: Option<Stance>, ready_at: Option<usize>) -> Option<usize>
    ensures { result ≡ ready_at_then place stance ready_at }
{
    match stance {
        None => ready_at,
        Some(Stance::Ready) => Some(place),
        Some(_) => None,
    }
}

impl WaitChange {
    /// That of an entry by which nothing changes of what a thread waits for.
    pub(crate) fn none() -> WaitChange
        ensures { result ≡ no_change }
    {
        WaitChange {
            before: Mask::none(),
            after: Mask::none(),
        }
    }
}

impl Row {
    /// What is known of a thread that no entry was about.
    pub(crate) fn unseen() -> Row
        ensures { result ≡ unseen }
    {
        Row {
            ready_at: None,
            mask: Mask::none(),
        }
    }

    /// Returns whether the thread waits, if the last tear-down was before the entry of this place.
    fn is_behind(&self, torn: usize) -> bool
        ensures { result ≡ is_behind torn self.now.ready_at }
    {
        match self.ready_at {
            Some(place) => torn <= place,
            None => false,
        }
    }

    /// Returns the CPUs that the thread waits for.
    pub(crate) fn waits_for(&self, torn: usize) -> Mask
        ensures { result ≡ waits_for torn self.now }
    {
        if self.is_behind(torn) {
            self.mask
        } else {
            Mask::none()
        }
    }

    /// Notes the entry of this place, which is about the thread.
    pub(crate) fn hear(&mut self, place: usize, tid: u32, entry: &Entry)
        ensures { self.new ≡ row_then place tid entry.now self.old }
    {
        self.ready_at = ready_at_then(place, stance_by(tid, entry), self.ready_at);
        self.mask = mask_by(tid, entry).unwrap_or(self.mask);
    }
}
