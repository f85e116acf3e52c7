ghost use Rattle.std.specs.Prelude.{◌≡◌, ◌↔◌, IsOk, IfOk, OnOk, OnErr, Ok, true, false};
ghost use Rattle.std.specs.Borrow.{sem};
ghost use Rattle.gs_layout.specs.Spelling.{IsCpuOrNone};
ghost use Rattle.gs_slots.specs.declared.state.SlotState.{SlotState};
ghost use Rattle.gs_slots.specs.declared.state.Stamp.{Stamp};
ghost use Rattle.gs_slots.specs.Lending.{LendsBytes};
ghost use Rattle.gs_slots.specs.Reading.{state_in};
ghost use Rattle.gs_slots.specs.Spelling.{idle_bytes, slot_spelling};
ghost use Rattle.gs_slots.specs.State.{has_stamp, is_malformed, refused, told_in};
ghost use Rattle.gs_slots.specs.SlotMut.{bytes_of, cpu_of, left_in, reference_of, state_of};

use crate::bytes::{finish, is_busy, state_at, write_stamped};
use crate::flags::Flags;
use crate::state::{Malformed, SlotBusy, SlotState, Stamp};
use crate::wire::SLOT_LEN;
use gs_layout::Outcome;

/// The slot of one CPU, lent: its bytes, read and written where they lie.
#[derive(Drop)]
pub struct SlotMut<'a> {
    bytes: &'a mut [u8; SLOT_LEN],
    cpu: u16,
}

impl<'a> SlotMut<'a> {
    /// Makes the slot of a CPU from its bytes. They may be any: bytes that spell no state of this CPU's slot
    /// are malformed.
    pub fn over(cpu: u16, bytes: &'a mut [u8; SLOT_LEN]) -> SlotMut<'a>
        ensures same_reference { reference_of result ≡ bytes.entry.ghost_name }
        ensures bytes { bytes_of result ≡ bytes.old }
        ensures cpu { cpu_of result ≡ cpu }
    {
        SlotMut { bytes, cpu }
    }

    /// Returns the CPU whose slot it is.
    pub fn cpu(&self) -> u16
        ensures { result ≡ cpu_of self.now }
    {
        self.cpu
    }

    /// Lends its bytes, to read or to write any into it.
    pub fn bytes(&mut self) -> &mut [u8; SLOT_LEN]
        ensures* writes_back { sem 𝓛 (LendsBytes self.entry result) }
        ensures bytes { result.now ≡ bytes_of self.old }
    {
        &mut *self.bytes
    }

    /// Returns what is in the slot.
    ///
    /// # Errors
    ///
    /// `Malformed` exactly if its bytes spell no state of a slot of its CPU. Another CPU stands there, a flag
    /// that there is not, a number that is no outcome's, or a byte that no field has is not zero.
    #[inline(always)]
    pub fn state(&self) -> Result<SlotState, Malformed>
        ensures state { result ≡ state_of self.now }
        ensures spelt { IfOk result (λ z. bytes_of self.now ≡ slot_spelling (cpu_of self.now) z) }
    {
        state_at(self.cpu, self.bytes)
    }

    /// Returns what became of the transaction, or `None` if none landed.
    pub fn outcome(&self) -> Option<Outcome>
        ensures { result ≡ told_in (state_of self.now) }
    {
        match self.state() {
            Ok(SlotState::Done { outcome, .. }) => Some(outcome),
            _ => None,
        }
    }

    /// Stamps a transaction into the slot.
    ///
    /// # Errors
    ///
    /// `SlotBusy` exactly if the slot is not idle. It stays as it is.
    pub fn stamp(self, generation: u32, tid: u32, tseq: u32, flags: Flags) -> Result<(), SlotBusy>
        ensures exact { IsOk result ↔ (state_of self.entry ≡ Ok SlotState.Idle) }
        ensures stamped { OnOk result (state_in (cpu_of self.entry) (left_in self.exit) ≡ Ok (SlotState.Stamped (record { generation = generation; tid = tid; tseq = tseq; flags = flags }))) }
        ensures busy { OnErr result (left_in self.exit ≡ bytes_of self.entry) }
    {
        let SlotMut { bytes, cpu } = self;
        if is_busy(bytes) {
            return Err(SlotBusy);
        }
        let stamp = Stamp {
            generation,
            tid,
            tseq,
            flags,
        };
        write_stamped(cpu, &stamp, bytes);
        Ok(())
    }

    /// Leaves in the slot what became of the transaction that is stamped in it. That is its outcome, the CPU
    /// that the thread is on, and the thread's sequence number before the landing. With the outcome
    /// [`Malformed`](Outcome::Malformed) any slot may be given, and nothing but that is left in it.
    pub fn finish(self, outcome: Outcome, at: Option<u16>, seen: u32)
        requires stamped { is_malformed outcome ≡ false → has_stamp (state_of self) ≡ true }
        requires at { IsCpuOrNone at }
        ensures done { (s : Stamp) → is_malformed outcome ≡ false → state_of self.entry ≡ Ok (SlotState.Stamped s) → state_in (cpu_of self.entry) (left_in self.exit) ≡ Ok (SlotState.Done s outcome at seen) }
        ensures refused { is_malformed outcome ≡ true → state_in (cpu_of self.entry) (left_in self.exit) ≡ Ok refused }
    {
        let SlotMut { bytes, cpu } = self;
        finish(cpu, outcome, at, seen, bytes);
    }

    /// Makes the slot idle, whatever is in it.
    pub fn clear(self)
        ensures { left_in self.exit ≡ idle_bytes }
    {
        let SlotMut { bytes, cpu: _ } = self;
        *bytes = [0; SLOT_LEN];
    }
}
