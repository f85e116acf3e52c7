//! A gate that notes when a shift ends its turns.

use crate::count::Count;
use gs_runner::Gate;
use std::alloc::Global;
use std::rt::Clock;
use std::sync::{Mutex, Wait};
use std::time::Instant;

/// The steps of a turn.
pub(crate) const TURN: usize = 3;

/// Lets all lists but the first wait for the thread, and notes when the shift, which comes behind the lists, ends a turn.
#[derive(Drop)]
pub(crate) struct Watched<'a, R: Wait + Clock> {
    rt: &'a R,
    lists: usize,
    start: Instant,
    /// How often the thread was created.
    created: Count,
    /// The nanoseconds from the start to the end of each turn.
    ends: Mutex<Vec<u64>>,
}

impl<'a, R: Wait + Clock> Watched<'a, R> {
    /// A gate that begins now, with room for so many turns. `None` if out of memory, or if there is no clock.
    pub(crate) fn new(
        rt: &'a R,
        alloc: Global,
        lists: usize,
        turns: usize,
    ) -> Option<Watched<'a, R>> {
        Some(Watched {
            rt,
            lists,
            created: Count::new(),
            ends: Mutex::new(Vec::with_capacity(alloc, turns).ok()?),
            start: Instant::now(rt).ok()?,
        })
    }

    /// The nanoseconds since the start, 0 if the clock cannot be read.
    fn passed(&self) -> u64 {
        match self.start.elapsed(self.rt) {
            Ok(passed) => u64::try_from(passed.as_nanos()).unwrap_or(0),
            Err(_) => 0,
        }
    }

    /// The nanoseconds from the start to the end of each turn, in order.
    pub(crate) fn into_ends(self) -> Vec<u64> {
        let Watched { ends, .. } = self;
        ends.into_inner()
    }
}

impl<R: Wait + Clock> Gate for Watched<'_, R> {
    fn before(&self, worker: usize, call: usize) {
        if worker > 0 && worker < self.lists && call == 0 {
            self.created.wait(self.rt, 1);
        }
    }

    fn after(&self, worker: usize, call: usize) {
        if worker == 0 && call == 0 {
            self.created.add(self.rt);
        }
        if worker >= self.lists && call % TURN == TURN - 1 {
            let _ = self.ends.lock(self.rt).push(self.passed());
        }
    }
}
