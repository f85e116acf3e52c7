//! Whether a thread lives and may run, as a history is walked.

use gs_layout::Change;

/// Since which entry a thread lives and may run, if it does.
#[derive(Clone, Copy)]
pub(crate) struct Readiness {
    since: Option<usize>,
}

/// Returns whether a change of a thread may begin or end the time that it may run.
#[inline(always)]
pub(crate) fn is_turn(change: &Change) -> bool {
    matches!(
        change,
        Change::Created { .. } | Change::Blocked { .. } | Change::Dead { .. } | Change::Wakeup
    )
}

impl Readiness {
    /// That of a thread that may not run.
    pub(crate) fn none() -> Readiness {
        Readiness { since: None }
    }

    /// Ends the time that it may run. Returns the place of the entry that began it, if it might run.
    #[inline(always)]
    pub(crate) fn end(&mut self) -> Option<usize> {
        self.since.take()
    }

    /// Changes as a message about the thread says, whose entry is that of this place. If that ends the time that it may run,
    /// it returns the place of the entry that began it.
    #[inline(always)]
    pub(crate) fn tell(&mut self, place: usize, change: &Change) -> Option<usize> {
        match change {
            Change::Created { facts } => {
                self.since = facts.runnable.then_some(place);
                None
            }
            Change::Blocked { .. } | Change::Dead { .. } => self.end(),
            Change::Wakeup => {
                self.since = Some(self.since.unwrap_or(place));
                None
            }
            Change::Preempted { .. } | Change::Yield { .. } | Change::Affinity { .. } => None,
        }
    }
}
