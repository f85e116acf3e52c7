//! A gate by which a shift drains in batches.

use crate::count::Count;
use crate::events::THREADS;
use gs_runner::Gate;
use std::sync::Wait;

/// How many calls of a list are answered before a shift takes in as many messages.
pub(crate) const BATCH: u32 = 1_024;

/// The most batches of calls that are begun before one of them is taken in.
pub(crate) const AHEAD: u32 = 16;

/// Lets each call of the shift, which comes behind the lists, wait for a further batch of a list's calls. Each batch waits for the shift if
/// that is too far behind, and all lists but the first wait for the threads.
#[derive(Drop)]
pub(crate) struct Paced<'a, R: Wait> {
    rt: &'a R,
    lists: usize,
    /// How often all threads were created.
    created: Count,
    /// How many batches of calls were begun.
    begun: Count,
    /// How many were answered.
    answered: Count,
    /// How many were taken in.
    taken: Count,
}

impl<'a, R: Wait> Paced<'a, R> {
    pub(crate) fn new(rt: &'a R, lists: usize) -> Paced<'a, R> {
        Paced {
            rt,
            lists,
            created: Count::new(),
            begun: Count::new(),
            answered: Count::new(),
            taken: Count::new(),
        }
    }

    /// Lets a list begin a batch.
    fn begin(&self) {
        let number = self.begun.add(self.rt);
        self.taken
            .wait(self.rt, number.saturating_sub(AHEAD as u64));
    }
}

impl<R: Wait> Gate for Paced<'_, R> {
    fn before(&self, worker: usize, call: usize) {
        if worker >= self.lists {
            self.answered.wait(self.rt, (call as u64).wrapping_add(1));
            return;
        }
        if worker > 0 && call == 0 {
            self.created.wait(self.rt, 1);
        }
        if call % BATCH as usize == 0 {
            self.begin();
        }
    }

    fn after(&self, worker: usize, call: usize) {
        if worker >= self.lists {
            self.taken.add(self.rt);
            return;
        }
        let answered = call.wrapping_add(1);
        if worker == 0 && answered == THREADS as usize {
            self.created.add(self.rt);
        }
        if answered % BATCH as usize == 0 {
            self.answered.add(self.rt);
        }
    }
}
