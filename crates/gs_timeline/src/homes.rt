//! Which CPU a thread may be on, for a walk that looks at one CPU for an entry about one thread.

ghost use Rattle.std.specs.Prelude.{◌≡◌, ◌==◌, ◌<◌, ℕ, [], Some, OnOk, false, slice_get};
ghost use Rattle.gs_timeline.specs.Homes.{AreHome, IsApart};

use crate::lane::Lane;
use gs_layout::MOST_TIDS;
use std::alloc::{AllocError, Global};

/// The CPU that each thread was placed on last, as a history is walked.
#[derive(Drop)]
pub(crate) struct Homes {
    /// By tid. That of a thread that was never placed is any, or there is none.
    cpus: Vec<u16>,
    /// Whether a thread was placed on a CPU while it was on another, or has too great a tid. Then nothing is known.
    lost: bool,
}

/// Notes the CPU that a thread is placed on.
fn settle(homes: &mut Vec<u16>, tid: u32, cpu: u16) -> Result<(), AllocError>
    ensures here { OnOk result (slice_get homes.new.items tid ≡ Some cpu) }
    ensures others { OnOk result ((u c : ℕ) → (u == tid) ≡ false → slice_get homes.old.items u ≡ Some c → slice_get homes.new.items u ≡ Some c) }
{
    let place = tid as usize;
    if place < homes.len() {
        homes[place] = cpu;
        return Ok(());
    }
    homes.resize(place + 1, cpu)
}

impl Homes {
    /// Knows of no thread. It does not allocate.
    pub(crate) fn new(alloc: Global) -> Homes
        ensures cpus { result.cpus.items ≡ [] }
        ensures lost { result.lost ≡ false }
    {
        Homes {
            cpus: Vec::new(alloc),
            lost: false,
        }
    }

    /// Returns whether nothing is known.
    pub(crate) fn is_lost(&self) -> bool
        ensures { result ≡ self.now.lost }
    {
        self.lost
    }

    /// Returns the CPU that a thread may be on, which is on no other one if anything is known.
    pub(crate) fn cpu(&self, tid: u32) -> Option<u16>
        ensures { result ≡ slice_get self.now.cpus.items tid }
    {
        self.cpus.get(tid as usize).copied()
    }

    /// Returns whether a thread is on another CPU than this one.
    fn is_elsewhere(&self, lanes: &[Lane], tid: u32, cpu: u16) -> bool
        ensures { result ≡ false → AreHome self.now.cpus.items 0 lanes.now → IsApart cpu tid 0 lanes.now }
    {
        let Some(home) = self.cpu(tid) else {
            return false;
        };
        if home == cpu {
            return false;
        }
        if home as usize >= lanes.len() {
            return false;
        }
        lanes[home as usize].has(tid)
    }

    /// Notes that a thread is placed on a CPU.
    pub(crate) fn place(&mut self, lanes: &[Lane], tid: u32, cpu: u16) -> Result<(), AllocError>
        ensures here { OnOk result (self.new.lost ≡ false → slice_get self.new.cpus.items tid ≡ Some cpu) }
        ensures others { OnOk result (self.new.lost ≡ false → (u c : ℕ) → (u == tid) ≡ false → slice_get self.old.cpus.items u ≡ Some c → slice_get self.new.cpus.items u ≡ Some c) }
        ensures apart { OnOk result (self.new.lost ≡ false → AreHome self.old.cpus.items 0 lanes.now → IsApart cpu tid 0 lanes.now) }
        ensures kept { OnOk result (self.new.lost ≡ false → self.old.lost ≡ false) }
    {
        if self.lost || tid > MOST_TIDS || self.is_elsewhere(lanes, tid, cpu) {
            self.lost = true;
            return Ok(());
        }
        settle(&mut self.cpus, tid, cpu)
    }
}
