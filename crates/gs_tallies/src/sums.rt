ghost use Rattle.std.specs.Prelude.{◌≡◌, ◌+◌, ◌<◌, ◌∷◌, ◌++◌, List, [], cond, length, min};
ghost use Rattle.gs_turns.specs.declared.turn.Turn.{Turn};
ghost use Rattle.gs_tallies.specs.Tallies.{is_migrated, is_preempted, sums_of};

use gs_timeline::Ending;
use gs_turns::{Time, Turn};

/// What turns come to.
#[derive(Clone, Copy, PartialEq, Eq, Debug)]
pub struct Sums {
    /// How many stays there are.
    pub stays: usize,
    /// How long the threads ran.
    pub ran: Time,
    /// How long they waited for these stays.
    pub waited: Time,
    /// How many of the stays were preempted.
    pub preempted: usize,
    /// How many are on another CPU than the thread's stay before.
    pub migrated: usize,
}

/// Returns whether a stay was preempted.
fn is_preempted(turn: &Turn) -> bool
    ensures { result ≡ is_preempted turn.now }
{
    matches!(turn.ending, Ending::Preempted)
}

/// Returns whether a stay is on another CPU than the thread's stay before.
fn is_migrated(turn: &Turn) -> bool
    ensures { result ≡ is_migrated turn.now }
{
    match turn.before {
        Some(cpu) => cpu != turn.stay.cpu,
        None => false,
    }
}

/// Returns a count and one more, if it is so. It stops at the most that 64 bits hold.
fn one_more_if(count: usize, is: bool) -> usize
    ensures { result ≡ min (count + cond is 1 0) usize.MAX }
{
    if is { count.saturating_add(1) } else { count }
}

impl Sums {
    /// What no turns come to.
    pub(crate) fn none() -> Sums
        ensures { result ≡ sums_of [] }
    {
        Sums {
            stays: 0,
            ran: Time::none(),
            waited: Time::none(),
            preempted: 0,
            migrated: 0,
        }
    }

    /// Returns what turns come to and one more.
    pub(crate) fn with(self, turn: &Turn) -> Sums
        ensures { (ts : List Turn) → length ts < usize.MAX → self ≡ sums_of ts → result ≡ sums_of (ts ++ turn.now ∷ []) }
    {
        Sums {
            stays: one_more_if(self.stays, true),
            ran: self.ran.with(turn.ran(), turn.ran_ticks),
            waited: self.waited.with(turn.waited(), turn.waited_ticks),
            preempted: one_more_if(self.preempted, is_preempted(turn)),
            migrated: one_more_if(self.migrated, is_migrated(turn)),
        }
    }
}
