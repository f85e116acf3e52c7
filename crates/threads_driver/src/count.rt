//! A count that threads wait for.

use std::sync::{Condvar, Mutex, Wait};

/// How often something happened.
#[derive(Drop)]
pub(crate) struct Count {
    count: Mutex<u64>,
    more: Condvar,
}

impl Count {
    /// Nothing happened.
    pub(crate) fn new() -> Count {
        Count {
            count: Mutex::new(0),
            more: Condvar::new(),
        }
    }

    /// It happened once more. Returns how often it did then.
    pub(crate) fn add<R: Wait>(&self, rt: &R) -> u64 {
        let mut count = self.count.lock(rt);
        *count = count.wrapping_add(1);
        self.more.notify_all();
        *count
    }

    /// Waits until it happened so often.
    pub(crate) fn wait<R: Wait>(&self, rt: &R, wanted: u64) {
        let count = self.count.lock(rt);
        let _ = self.more.wait_while(rt, count, |count| *count < wanted);
    }
}
