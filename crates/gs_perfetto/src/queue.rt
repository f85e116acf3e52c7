//! What is counted as a trace goes on: the bytes in the ring, and the threads that may run and are on no CPU.

ghost use Rattle.std.specs.Prelude.{◌≡◌};

use crate::tracks::{RING, WAITING};
use gs_journal::Entry;
use gs_layout::{Change, Message};
use gs_timeline::{Digits, Text};
use std::alloc::{AllocError, Global};

/// Tells how many bytes of the ring are in use.
pub(crate) fn write_fill(out: &mut Text, place: &Digits, used: usize) -> Result<(), AllocError>
    ensures { out.new.settled ≡ out.old.settled }
{
    out.push_digits(RING, place)?;
    out.push_number(",\"args\":{\"bytes\":", used as u64)?;
    out.push_str("}}")
}

/// Which threads may run, and how many of them are on a CPU.
#[derive(Drop)]
pub(crate) struct Queue {
    /// Whether each thread may run, by tid.
    ready: Vec<bool>,
    /// How many may.
    may_run: usize,
    running: usize,
    /// How many were shown to wait.
    shown: usize,
}

impl Queue {
    /// Makes the queue of an enclave without threads, with room for so many.
    pub(crate) fn new(alloc: Global, threads: usize) -> Result<Queue, AllocError> {
        Ok(Queue {
            ready: Vec::with_capacity(alloc, threads)?,
            may_run: 0,
            running: 0,
            shown: 0,
        })
    }

    /// Notes whether a thread may run from now on.
    fn set(&mut self, tid: u32, ready: bool) {
        let Some(before) = self.ready.get_mut((tid as usize).saturating_sub(1)) else {
            return;
        };
        match (*before, ready) {
            (false, true) => self.may_run = self.may_run.saturating_add(1),
            (true, false) => self.may_run = self.may_run.saturating_sub(1),
            _ => {}
        }
        *before = ready;
    }

    /// Notes a message about a thread.
    #[inline(always)]
    fn hear_change(&mut self, tid: u32, change: &Change) -> Result<(), AllocError> {
        let was_on = match change {
            Change::Dead { cpu } => cpu.is_some(),
            _ => change.takes_off_cpu(),
        };
        if was_on {
            self.running = self.running.saturating_sub(1);
        }
        match change {
            Change::Created { facts } => {
                self.ready.push(false)?;
                self.set(tid, facts.runnable);
            }
            Change::Wakeup => self.set(tid, true),
            Change::Blocked { .. } | Change::Dead { .. } => self.set(tid, false),
            Change::Preempted { .. } | Change::Yield { .. } | Change::Affinity { .. } => {}
        }
        Ok(())
    }

    /// Notes an entry.
    #[inline(always)]
    pub(crate) fn hear(&mut self, entry: &Entry) -> Result<(), AllocError> {
        match entry {
            Entry::Posted {
                message: Message::Thread { tid, change, .. },
            } => self.hear_change(*tid, change)?,
            Entry::Placed { .. } => self.running = self.running.saturating_add(1),
            Entry::Torn => {
                self.may_run = 0;
                self.running = 0;
            }
            _ => {}
        }
        Ok(())
    }

    /// Tells how many threads may run and are on no CPU.
    #[inline(always)]
    pub(crate) fn write(&self, out: &mut Text, place: &Digits) -> Result<(), AllocError>
        ensures { out.new.settled ≡ out.old.settled }
    {
        out.push_digits(WAITING, place)?;
        out.push_number(",\"args\":{\"threads\":", self.shown as u64)?;
        out.push_str("}}")
    }

    /// Tells it if it is not what was shown before.
    #[inline(always)]
    pub(crate) fn show(&mut self, out: &mut Text, place: &Digits) -> Result<(), AllocError>
        ensures { out.new.settled ≡ out.old.settled }
    {
        let waiting = self.may_run.saturating_sub(self.running);
        if waiting == self.shown {
            return Ok(());
        }
        self.shown = waiting;
        self.write(out, place)
    }
}
