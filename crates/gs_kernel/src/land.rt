//! Landings: what becomes of what was stamped.

ghost use Rattle.std.specs.Prelude.{◌≡◌, ℕ, ◌+◌, ◌<◌, ◌≤◌, IfOk, OnOk, OnErr, Some, true, false, not, length};
ghost use Rattle.gs_layout.specs.declared.message.Message.{Message};
ghost use Rattle.gs_layout.specs.Spelling.{IsCpuOrNone};
ghost use Rattle.gs_slots.specs.State.{is_malformed};
ghost use Rattle.gs_slots.specs.SlotMut.{bytes_of, cpu_of, left_in, state_of};
ghost use Rattle.gs_journal.specs.History.{on, posted, torn};
ghost use Rattle.gs_kernel.specs.Kernel.{is_agent_on};
ghost use Rattle.gs_kernel.specs.Landing.{verdict, verdict_in, cpu_verdict, is_generation, placing_entries};
ghost use Rattle.gs_kernel.specs.Legal.{Frame, RoomOf, Tells};
ghost use Rattle.gs_kernel.specs.Lands.{Lands, LandsBytes, placement};

use crate::kernel::Kernel;
use crate::landing::Landing;
use gs_journal::Entry;
use gs_layout::{Outcome, Record};
use gs_ring::Poster;
use gs_slots::{SlotMut, SlotState, Stamp};
use std::alloc::AllocError;

impl<P: Poster> Kernel<P> {
    /// Returns what becomes of what was stamped into the slot of a CPU.
    #[tactic(auto, unfolding(crate::specs::Landing::verdict))]
    #[inline(always)]
    pub(crate) fn verdict(&self, cpu: u16, slot: &Stamp) -> Outcome
        requires { cpu < self.now.settings.cpus }
        ensures value { result ≡ verdict self.now.settings self.now.history cpu slot.now }
        ensures known { is_malformed result ≡ false }
    {
        if self.torn {
            return Outcome::Gone;
        }
        if !is_generation(slot.generation, self.agents.active) {
            return Outcome::Displaced;
        }
        let Some(row) = self.row(slot.tid) else {
            return Outcome::NoThread;
        };
        let Record::Live { facts } = &row.record else {
            return Outcome::NoThread;
        };
        if slot.tseq != row.tseq {
            return Outcome::Stale;
        }
        if !facts.runnable {
            return Outcome::NotRunnable;
        }
        if row.cpu.is_some() {
            return Outcome::AlreadyPlaced;
        }
        if !facts.mask.has(cpu) {
            return Outcome::NotAllowed;
        }
        self.cpu_verdict(cpu, slot.flags.preempt)
    }

    /// Returns whether a CPU may be given to a thread, by a transaction that takes the thread there off or
    /// does not.
    #[inline(always)]
    fn cpu_verdict(&self, cpu: u16, preempt: bool) -> Outcome
        requires { cpu < self.now.settings.cpus }
        ensures value { result ≡ cpu_verdict self.now.settings self.now.history cpu preempt }
        ensures known { is_malformed result ≡ false }
    {
        if is_agent_on(cpu, self.agents.active) {
            return Outcome::CpuIsAgent;
        }
        if self.taken.has(cpu) {
            return Outcome::CpuTaken;
        }
        if self.running[cpu as usize].is_some() && !preempt {
            return Outcome::CpuBusy;
        }
        if self.is_spent_there(cpu) {
            return Outcome::SeqSpent;
        }
        if self.is_full(self.placing_entries(cpu)) {
            return Outcome::HistoryFull;
        }
        Outcome::Placed
    }

    /// Returns how many entries a placing on a CPU appends.
    pub(crate) fn placing_entries(&self, cpu: u16) -> usize
        requires { cpu < self.now.settings.cpus }
        ensures value { result ≡ placing_entries (on self.now.history cpu) }
        ensures most { result ≤ 2 }
    {
        match self.running[cpu as usize] {
            Some(_) => 2,
            None => 1,
        }
    }

    /// Lands the slot of a CPU of the enclave. What is stamped in it takes effect if its outcome is
    /// [`Outcome::Placed`]. The slot is done then, with the outcome, the CPU that the thread is on after the
    /// landing, and the thread's sequence number before it. Returns what became of it, or `None` for a slot
    /// that is idle or done, which stays as it is.
    ///
    /// If a thread is on the CPU and the stamp says that it is to be taken off, PREEMPTED of it is posted first. If that
    /// message does not fit, the enclave is torn down, and the outcome is [`Outcome::Gone`]. A malformed slot
    /// lands too, as [`Outcome::Malformed`] with no thread: nothing comes of it, and that alone is left in
    /// it.
    ///
    /// # Errors
    ///
    /// `AllocError` if out of memory. That happens only if the transaction is to be placed and no room was
    /// reserved for its entries: one, and one more if a thread is taken off. Then nothing changes.
    pub fn land(&mut self, slot: SlotMut<'_>) -> Result<Option<Landing>, AllocError>
        requires { cpu_of slot < self.old.settings.cpus }
        ensures lands { IfOk result (λ o. LandsBytes (RoomOf P.same P.consumed P.posted P.tight self.old.poster) self.old.settings self.old.history (cpu_of slot.entry) (bytes_of slot.entry) o (left_in slot.exit) self.new.history) }
        ensures refused { OnErr result ((self.new ≡ self.old) × (left_in slot.exit ≡ bytes_of slot.entry)) }
        ensures memory { OnErr result (verdict_in self.old.settings self.old.history (cpu_of slot.entry) (state_of slot.entry) ≡ Some Outcome.Placed) }
        ensures reserved { OnErr result (self.old.room < placing_entries (on self.old.history (cpu_of slot.entry))) }
        ensures frame { Frame P.same P.consumed P.posted self.old self.new }
        ensures room { self.old.room + length self.old.history ≤ self.new.room + length self.new.history }
    {
        // Reads a field to expose the invariant.
        let _settings = &self.settings;
        let cpu = slot.cpu();
        let landing = match slot.state() {
            Ok(SlotState::Stamped { stamp }) => self.land_stamp(cpu, &stamp)?,
            Ok(_) => return Ok(None),
            Err(_) => Landing::malformed(cpu),
        };
        slot.finish(landing.outcome, landing.at, landing.seen);
        Ok(Some(landing))
    }

    /// Lands what was stamped into the slot of a CPU of the enclave, as the slot would, but tells no slot of
    /// it. That is for a landing that comes late, and for a caller who makes the slot idle at once.
    ///
    /// # Errors
    ///
    /// As of [`Kernel::land`].
    #[inline(always)]
    pub fn land_stamp(&mut self, cpu: u16, slot: &Stamp) -> Result<Landing, AllocError>
        requires { cpu < self.old.settings.cpus }
        ensures lands { IfOk result (λ l. Lands (RoomOf P.same P.consumed P.posted P.tight self.old.poster) self.old.settings self.old.history cpu slot.now l self.new.history) }
        ensures known { IfOk result (λ l. is_malformed l.outcome ≡ false) }
        ensures below { IfOk result (λ l. IsCpuOrNone l.at) }
        ensures refused { OnErr result (self.new ≡ self.old) }
        ensures memory { OnErr result (verdict self.old.settings self.old.history cpu slot.now ≡ Outcome.Placed) }
        ensures reserved { OnErr result (self.old.room < placing_entries (on self.old.history cpu)) }
        ensures frame { Frame P.same P.consumed P.posted self.old self.new }
        ensures room { self.old.room + length self.old.history ≤ self.new.room + length self.new.history }
    {
        // Reads a field to expose the invariant.
        let _settings = &self.settings;
        let judged = self.verdict(cpu, slot);
        if judged == Outcome::Placed {
            return self.land_placed(cpu, slot);
        }
        Ok(Landing {
            cpu,
            tid: slot.tid,
            outcome: judged,
            seen: self.seq(slot.tid),
            at: self.at(slot.tid),
        })
    }

    /// Does the same with what may be placed. The thread's number is the one that was stamped then. After that the thread
    /// is on this CPU, or nowhere if the enclave was torn down. So no row is looked up for either.
    #[inline(always)]
    fn land_placed(&mut self, cpu: u16, slot: &Stamp) -> Result<Landing, AllocError>
        requires cpu { cpu < self.old.settings.cpus }
        requires placed { verdict self.old.settings self.old.history cpu slot.now ≡ Outcome.Placed }
        ensures lands { IfOk result (λ l. Lands (RoomOf P.same P.consumed P.posted P.tight self.old.poster) self.old.settings self.old.history cpu slot.now l self.new.history) }
        ensures known { IfOk result (λ l. is_malformed l.outcome ≡ false) }
        ensures below { IfOk result (λ l. IsCpuOrNone l.at) }
        ensures refused { OnErr result (self.new ≡ self.old) }
        ensures reserved { OnErr result (self.old.room < placing_entries (on self.old.history cpu)) }
        ensures frame { Frame P.same P.consumed P.posted self.old self.new }
        ensures room { self.old.room + length self.old.history ≤ self.new.room + length self.new.history }
    {
        // Reads a field to expose the invariant.
        let _settings = &self.settings;
        let placed = Landing {
            cpu,
            tid: slot.tid,
            outcome: Outcome::Placed,
            seen: slot.tseq,
            at: Some(cpu),
        };
        if self.place(cpu, slot)? {
            Ok(placed)
        } else {
            Ok(Landing {
                outcome: Outcome::Gone,
                at: None,
                ..placed
            })
        }
    }

    /// Posts PREEMPTED of the thread on the CPU, if there is one, and places a thread there. Returns whether that message
    /// fits; if it does not, the enclave is torn down and nobody placed.
    fn place(&mut self, cpu: u16, slot: &Stamp) -> Result<bool, AllocError>
        requires cpu { cpu < self.old.settings.cpus }
        requires placed { verdict self.old.settings self.old.history cpu slot.now ≡ Outcome.Placed }
        ensures tells { IfOk result (λ fit. Tells (RoomOf P.same P.consumed P.posted P.tight self.old.poster) self.old.history (placement self.old.settings self.old.history cpu slot.now) fit self.new.history) }
        ensures refused { OnErr result (self.new ≡ self.old) }
        ensures reserved { OnErr result (self.old.room < placing_entries (on self.old.history cpu)) }
        ensures frame { Frame P.same P.consumed P.posted self.old self.new }
        ensures room { self.old.room + length self.old.history ≤ self.new.room + length self.new.history }
    {
        let entries = self.placing_entries(cpu);
        if self.journal.reserve(entries).is_err() {
            return Err(AllocError);
        }
        let entry = Entry::Placed {
            tid: slot.tid,
            tseq: slot.tseq,
            cpu,
            generation: slot.generation,
        };
        Ok(self.tell_entry(cpu, entry))
    }
}

fn is_generation(generation: u32, active: Option<(u32, u16)>) -> bool
    ensures { result ≡ is_generation generation active }
{
    active.is_some_and(|(current, _)| current == generation)
}

pub(crate) fn is_agent_on(cpu: u16, active: Option<(u32, u16)>) -> bool
    ensures { result ≡ is_agent_on cpu active }
{
    active.is_some_and(|(_, there)| there == cpu)
}
