//! How long a run took.

use crate::events::THREADS;
use std::rt::Clock;
use std::time::{Duration, Instant};

/// What is told of a run.
#[derive(Clone, Copy)]
pub(crate) enum Told {
    /// How many events were done.
    Done,
    /// How many nanoseconds that took.
    Nanoseconds,
}

/// How many events a run did, and how long that took.
#[derive(Clone, Copy)]
pub(crate) struct Timed {
    done: u64,
    took: Duration,
}

impl Timed {
    /// A run since this start, by which so many commands were done. The threads were created by some of them. `None` if not all were
    /// created, or if there is no clock.
    pub(crate) fn since<R: Clock>(rt: &R, start: Instant, done: u64) -> Option<Timed> {
        Some(Timed {
            done: done.checked_sub(THREADS as u64)?,
            took: start.elapsed(rt).ok()?,
        })
    }

    /// Returns what is told of it. `None` if that is too much for a number.
    pub(crate) fn number(self, told: Told) -> Option<u64> {
        match told {
            Told::Done => Some(self.done),
            Told::Nanoseconds => u64::try_from(self.took.as_nanos()).ok(),
        }
    }
}
