use crate::fault::SimulateFault;
use std::alloc::Global;
use std::cmp::Reverse;
use std::collections::BinaryHeap;

/// Somebody who is due at a tick. The earlier is less, and of one tick the one of the lesser number.
#[derive(Clone, Copy, PartialEq, Eq, PartialOrd, Ord, Debug)]
struct Due {
    at: u64,
    who: u32,
}

/// Who is due, and when.
#[derive(Drop)]
pub(crate) struct Calendar {
    dues: BinaryHeap<Reverse<Due>>,
}

impl Calendar {
    /// Makes a calendar of nobody.
    pub(crate) fn new(alloc: Global) -> Calendar {
        Calendar {
            dues: BinaryHeap::new(alloc),
        }
    }

    /// Adds somebody who is due at a tick.
    pub(crate) fn add(&mut self, at: u64, who: u32) -> Result<(), SimulateFault> {
        match self.dues.push(Reverse(Due { at, who })) {
            Ok(()) => Ok(()),
            Err(_) => Err(SimulateFault::OutOfMemory),
        }
    }

    /// Returns the earliest who is due now, and leaves it there.
    pub(crate) fn due(&self, now: u32) -> Option<u32> {
        let Reverse(first) = self.dues.peek()?;
        if first.at > u64::from(now) {
            return None;
        }
        Some(first.who)
    }

    /// Takes the earliest off.
    pub(crate) fn pass(&mut self) {
        let _passed = self.dues.pop();
    }
}
