//! A gate that lets some calls come one after another.

use gs_runner::Gate;
use std::sync::atomic::{AtomicU64, Ordering};
use std::thread;

/// How often a worker looks whether it is its turn, before it goes on anyway.
const LOOKS: u32 = 1_000_000;

/// Lets some calls, each of a worker and its call, come in this order. All others come as they like.
#[derive(Drop)]
pub(crate) struct InOrder {
    order: Vec<(usize, usize)>,
    next: AtomicU64,
    late: AtomicU64,
}

impl InOrder {
    pub(crate) fn new(order: Vec<(usize, usize)>) -> InOrder {
        InOrder {
            order,
            next: AtomicU64::new(0),
            late: AtomicU64::new(0),
        }
    }

    /// Returns the place of a call, if it has one.
    fn place(&self, worker: usize, call: usize) -> Option<u64> {
        let mut place: u64 = 0;
        for turn in &self.order {
            if *turn == (worker, call) {
                return Some(place);
            }
            place = place.wrapping_add(1);
        }
        None
    }

    /// Returns whether each call came in its turn.
    pub(crate) fn was_kept(&self) -> bool {
        self.late.load(Ordering::SeqCst) == 0
            && self.next.load(Ordering::SeqCst) == self.order.len() as u64
    }
}

impl Gate for InOrder {
    fn before(&self, worker: usize, call: usize) {
        let Some(place) = self.place(worker, call) else {
            return;
        };
        for _ in 0..LOOKS {
            if self.next.load(Ordering::SeqCst) == place {
                return;
            }
            thread::yield_now();
        }
        self.late.store(1, Ordering::SeqCst);
    }

    fn after(&self, worker: usize, call: usize) {
        if let Some(place) = self.place(worker, call) {
            self.next.store(place.wrapping_add(1), Ordering::SeqCst);
        }
    }
}
