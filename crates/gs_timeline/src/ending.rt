ghost use Rattle.std.specs.Prelude.{◌≡◌};
ghost use Rattle.std.specs.Option.{option_copied};
ghost use Rattle.gs_timeline.specs.Endings.{ending_of, ending_text};

use gs_journal::Entry;
use gs_layout::{Change, Message};

/// Why a stay ended.
#[derive(Clone, Copy, PartialEq, Eq, Debug)]
pub enum Ending {
    Preempted,
    Blocked,
    Yielded,
    Died,
    /// It was taken off by a new mask.
    Affinity,
    /// The enclave was torn down.
    Torn,
    /// Another thread was placed in its place.
    Replaced,
    /// It did not end: the thread is there still.
    StillThere,
}

impl Ending {
    /// Returns why a stay ended, by the entry that ended it, or by none.
    #[inline(always)]
    pub fn of(by: Option<&Entry>) -> Ending
        ensures { result ≡ ending_of (option_copied by.entry) }
    {
        match by {
            Some(
                Entry::Posted {
                    message: Message::Thread { change, .. },
                },
            ) => match change {
                Change::Preempted { .. } => Ending::Preempted,
                Change::Blocked { .. } => Ending::Blocked,
                Change::Yield { .. } => Ending::Yielded,
                Change::Dead { .. } => Ending::Died,
                Change::Affinity { .. } => Ending::Affinity,
                Change::Created { .. } | Change::Wakeup => Ending::Replaced,
            },
            Some(Entry::Torn) => Ending::Torn,
            Some(_) => Ending::Replaced,
            None => Ending::StillThere,
        }
    }

    /// Returns what it is called.
    pub fn name(self) -> &'static str
        ensures { result.now ≡ ending_text self }
    {
        match self {
            Ending::Preempted => "preempted",
            Ending::Blocked => "blocked",
            Ending::Yielded => "yielded",
            Ending::Died => "died",
            Ending::Affinity => "affinity",
            Ending::Torn => "torn",
            Ending::Replaced => "replaced",
            Ending::StillThere => "still there",
        }
    }
}
