//! The threads that are simulated, as the journal says what becomes of them.

ghost use Rattle.std.specs.Prelude.{◌≡◌};
ghost use Rattle.gs_simulate.specs.Chance.{seeded};

use crate::calendar::Calendar;
use crate::chance::Chance;
use crate::thread::{Stance, Thread};
use gs_workload::Group;
use std::alloc::{AllocError, Global};

/// All that is simulated beside the machine.
#[derive(Drop)]
pub(crate) struct World {
    /// Which tick it is.
    pub(crate) now: u32,
    pub(crate) groups: Vec<Group>,
    /// The threads that were created, in order: the first has tid 1.
    pub(crate) threads: Vec<Thread>,
    /// Who runs on each CPU.
    pub(crate) running: Vec<Option<u32>>,
    /// How many threads may run, and are on no CPU.
    pub(crate) waiting: usize,
    /// The threads that sleep.
    pub(crate) sleepers: Calendar,
    pub(crate) chance: Chance,
    /// How many entries of the journal were read.
    pub(crate) seen: usize,
}

impl World {
    /// Makes a world of no CPU and no thread, by the draws of a seed. It does not allocate.
    pub(crate) fn new(alloc: Global, seed: u64) -> World
        ensures { result.chance ≡ seeded seed }
    {
        World {
            now: 0,
            groups: Vec::new(alloc),
            threads: Vec::new(alloc),
            running: Vec::new(alloc),
            waiting: 0,
            sleepers: Calendar::new(alloc),
            chance: Chance::new(seed),
            seen: 0,
        }
    }

    /// Gives the world its groups, of which no thread is there yet, and so many CPUs, on which nobody runs.
    pub(crate) fn open(&mut self, groups: &[Group], cpus: u16) -> Result<(), AllocError>
        ensures { self.new.chance ≡ self.old.chance }
    {
        self.groups.extend_from_slice(groups)?;
        self.running.resize(usize::from(cpus), None)
    }

    /// Returns a thread by its tid.
    pub(crate) fn thread(&self, tid: u32) -> Option<Thread> {
        self.threads.get((tid as usize).checked_sub(1)?).copied()
    }

    /// Puts a thread into the place of the one that has this tid.
    pub(crate) fn put(&mut self, tid: u32, thread: Thread) {
        let Some(place) = (tid as usize).checked_sub(1) else {
            return;
        };
        let Some(there) = self.threads.get_mut(place) else {
            return;
        };
        if matches!(there.stance, Stance::Ready) {
            self.waiting = self.waiting.saturating_sub(1);
        }
        if matches!(thread.stance, Stance::Ready) {
            self.waiting = self.waiting.saturating_add(1);
        }
        *there = thread;
    }

    /// Adds a thread of a group, which was created.
    pub(crate) fn add(&mut self, group: usize) -> Result<(), AllocError> {
        let Some(plan) = self.groups.get(group) else {
            return Ok(());
        };
        let left = self.chance.draw(plan.run);
        self.threads.push(Thread {
            group,
            stance: Stance::Ready,
            left,
            bursts: plan.bursts,
        })?;
        self.waiting = self.waiting.saturating_add(1);
        Ok(())
    }

    /// Lets a tick of its CPU pass for a thread.
    pub(crate) fn pass_tick(&mut self, tid: u32) {
        if let Some(thread) = self.thread(tid) {
            self.put(tid, thread.after_tick());
        }
    }
}
