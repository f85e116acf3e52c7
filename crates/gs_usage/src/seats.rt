//! Which thread is on each CPU.

ghost use Rattle.std.specs.Prelude.{◌≡◌, ◌<◌, ◌==◌, ◌+◌, ℕ, None, Some, IfOk, OnOk, cond, false, get_or, length};
ghost use Rattle.gs_status.specs.Masks.{has};
ghost use Rattle.gs_status.specs.declared.mask.TheConstants.{MOST_CPUS};
ghost use Rattle.gs_journal.specs.History.{ends_run, is_thread, placed_on};
ghost use Rattle.gs_journal.specs.Standing.{then_stands};
ghost use Rattle.gs_usage.specs.Seats.{IsKept, who};

use crate::sets::{contains, either, one, place_in, without};
use gs_journal::Entry;
use gs_layout::Message;
use gs_status::MOST_CPUS;
use std::alloc::{AllocError, Global};

/// Which thread is on each CPU of a block.
#[derive(Drop)]
pub(crate) struct Seats {
    /// The CPUs that a thread is on.
    pub(crate) busy: u128,
    /// By CPU, the thread that is on it. It says nothing of the others.
    threads: Vec<u32>,
    /// By tid, the CPUs that the thread is on.
    places: Vec<u128>,
}

/// Gives a list by tid room for a thread.
#[tactic(auto, using(crate::proofs::Seating::room_more))]
fn make_room(places: &mut Vec<u128>, tid: usize) -> Result<(), AllocError>
    ensures room { OnOk result (tid < length places.new.items) }
    ensures same { OnOk result ((t : ℕ) → get_or places.new.items t 0 ≡ get_or places.old.items t 0) }
{
    let missing = tid.saturating_add(1).saturating_sub(places.len());
    for _ in 0..missing {
        places.push(0)?;
    }
    Ok(())
}

impl Seats {
    /// Those of CPUs that nobody is on.
    ///
    /// # Errors
    ///
    /// `AllocError` if out of memory.
    pub(crate) fn new(alloc: Global) -> Result<Seats, AllocError>
        ensures kept { IfOk result (λ seats. IsKept seats.busy seats.threads.items seats.places.items) }
        ensures busy { IfOk result (λ seats. seats.busy ≡ 0) }
    {
        let mut threads = Vec::new(alloc);
        threads.resize(MOST_CPUS as usize, 0)?;
        Ok(Seats {
            busy: 0,
            threads,
            places: Vec::new(alloc),
        })
    }

    /// Notes that nobody is on a CPU.
    fn free(&mut self, cpu: u16)
        requires cpu { cpu < MOST_CPUS }
        requires kept { IsKept self.old.busy self.old.threads.items self.old.places.items }
        ensures kept { IsKept self.new.busy self.new.threads.items self.new.places.items }
        ensures who { (i : ℕ) → i < MOST_CPUS → who self.new i ≡ cond (cpu == i) None (who self.old i) }
        ensures free { has self.new.busy cpu ≡ false }
        ensures room { length self.new.places.items ≡ length self.old.places.items }
    {
        if !contains(self.busy, cpu) {
            return;
        }
        let seat = one(cpu);
        let tid = self.threads[cpu as usize] as usize;
        self.places[tid] = without(self.places[tid], seat);
        self.busy = without(self.busy, seat);
    }

    /// Notes that a thread is placed on a CPU.
    fn place(&mut self, cpu: u16, tid: u32) -> Result<(), AllocError>
        requires cpu { cpu < MOST_CPUS }
        requires kept { IsKept self.old.busy self.old.threads.items self.old.places.items }
        ensures kept { OnOk result (IsKept self.new.busy self.new.threads.items self.new.places.items) }
        ensures who { OnOk result ((i : ℕ) → i < MOST_CPUS → who self.new i ≡ cond (cpu == i) (Some tid) (who self.old i)) }
    {
        make_room(&mut self.places, tid as usize)?;
        self.free(cpu);
        let seat = one(cpu);
        self.places[tid as usize] = either(self.places[tid as usize], seat);
        self.threads[cpu as usize] = tid;
        self.busy = either(self.busy, seat);
        Ok(())
    }

    /// Notes that a thread left its CPU.
    fn leave(&mut self, tid: u32)
        requires { IsKept self.old.busy self.old.threads.items self.old.places.items }
        ensures kept { IsKept self.new.busy self.new.threads.items self.new.places.items }
        ensures who { (i : ℕ) → i < MOST_CPUS → who self.new i ≡ cond (is_thread tid (who self.old i)) None (who self.old i) }
    {
        let tid = tid as usize;
        if tid < self.places.len() {
            self.busy = without(self.busy, self.places[tid]);
            self.places[tid] = 0;
        }
    }

    /// Notes that nobody is on any CPU.
    fn clear(&mut self)
        requires { IsKept self.old.busy self.old.threads.items self.old.places.items }
        ensures kept { IsKept self.new.busy self.new.threads.items self.new.places.items }
        ensures busy { self.new.busy ≡ 0 }
    {
        self.busy = 0;
        self.places.clear();
    }

    /// Notes who is on the CPUs behind one more entry, in the block that begins with the first.
    pub(crate) fn hear(&mut self, first: u16, entry: &Entry) -> Result<(), AllocError>
        requires { IsKept self.old.busy self.old.threads.items self.old.places.items }
        ensures kept { OnOk result (IsKept self.new.busy self.new.threads.items self.new.places.items) }
        ensures who { OnOk result ((i : ℕ) → i < MOST_CPUS → who self.new i ≡ then_stands (placed_on (first + i) entry.now) ends_run entry.now (who self.old i)) }
    {
        match entry {
            Entry::Placed { tid, cpu, .. } => match place_in(first, *cpu) {
                Some(place) => self.place(place, *tid),
                None => Ok(()),
            },
            Entry::Posted {
                message: Message::Thread { tid, change, .. },
            } => {
                if change.takes_off_cpu() {
                    self.leave(*tid);
                }
                Ok(())
            }
            Entry::Torn => {
                self.clear();
                Ok(())
            }
            _ => Ok(()),
        }
    }
}
