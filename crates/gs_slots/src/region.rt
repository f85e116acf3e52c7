ghost use Rattle.std.specs.Prelude.{◌≡◌, ◌↔◌, ◌+◌, ◌<◌, ◌≤◌, ◌^◌, ◌||◌, ◌==◌, ℕ, List, length, replicate, slice_get, slice_set, IfOk, IsOk, Ok, OnErr, OnOk, Some, false};
ghost use Rattle.std.specs.Borrow.{sem};
ghost use Rattle.std.specs.List.{list_any};
ghost use Rattle.gs_status.specs.Masks.{has};
ghost use Rattle.gs_slots.specs.declared.state.SlotState.{SlotState};
ghost use Rattle.gs_slots.specs.Busy.{CoversBusy, HasNoFlag, is_busy_at, is_flagged_at};
ghost use Rattle.gs_slots.specs.Lending.{LendsAll, LendsOne};
ghost use Rattle.gs_slots.specs.Reading.{is_flagged, states_in};
ghost use Rattle.gs_slots.specs.SlotMut.{bytes_of, cpu_of};
ghost use Rattle.gs_slots.specs.Spelling.{idle_bytes, slot_spelling};
ghost use Rattle.gs_slots.specs.State.{has_stamp};

use crate::bytes::{is_busy, is_flagged, state_at, write_stamped};
use crate::slot::SlotMut;
use crate::slots::Slots;
use crate::state::{Malformed, SlotBusy, SlotState, Stamp};
use crate::wire::SLOT_LEN;
use gs_status::{MOST_CPUS, Mask};
use std::alloc::{AllocError, Global};
use std::marker::Model;

/// The slots of all CPUs: one block of [`SLOT_LEN`] bytes for each, that of CPU 0 first.
///
/// Which slots are not idle is found without a look at each: one that was idle, and neither lent nor stamped since, still is.
#[derive(Drop)]
pub struct Region {
    blocks: Vec<[u8; SLOT_LEN]>,
    /// The CPUs below [`MOST_CPUS`] whose slots were lent or stamped since they were last seen to be idle.
    lent: Mask,
    /// Whether a slot of a CPU below [`MOST_CPUS`] may have the flag of a group, as far as is known without a look.
    flagged: bool,
}

impl Model for Region {
    ghost use Rattle.std.specs.Prelude.{List, ℕ};
    ghost use Rattle.gs_slots.specs.Busy.{IsRegion};

    ghost Value = { List (List ℕ) };

    ghost view = { λ region. region.blocks.items };

    ghost invariant = { λ region. IsRegion region.blocks.items region.lent region.flagged };
}

impl Region {
    /// Makes a region of so many slots, all idle.
    ///
    /// # Errors
    ///
    /// `AllocError` if out of memory.
    pub fn new(alloc: Global, cpus: u16) -> Result<Region, AllocError>
        ensures { IfOk result (λ region. region ≡ replicate cpus idle_bytes) }
    {
        let mut blocks = Vec::with_capacity(alloc, cpus as usize)?;
        for _ in 0..cpus {
            blocks.push_reserved([0; SLOT_LEN]);
        }
        Ok(Region {
            blocks,
            lent: Mask::none(),
            flagged: false,
        })
    }

    /// Returns how many slots there are, one for each CPU.
    pub fn cpus(&self) -> u16
        ensures { result ≡ length self.now }
    {
        self.blocks.len() as u16
    }

    /// Lends the bytes of the slot of a CPU.
    pub fn bytes(&self, cpu: u16) -> &[u8; SLOT_LEN]
        requires { cpu < length self.now }
        ensures { slice_get self.now cpu ≡ Some result.now }
    {
        &self.blocks[cpu as usize]
    }

    /// Returns what is in the slot of a CPU.
    ///
    /// # Errors
    ///
    /// `Malformed` exactly if its bytes spell no state of a slot of that CPU.
    #[inline(always)]
    pub fn state(&self, cpu: u16) -> Result<SlotState, Malformed>
        requires { cpu < length self.now }
        ensures { slice_get (states_in 0 self.now) cpu ≡ Some result }
    {
        state_at(cpu, self.bytes(cpu))
    }

    /// Returns whether a slot of a CPU below [`MOST_CPUS`] may have the flag of a group. If none has, as
    /// [`Region::busy`] saw them last, and since then none was lent or stamped with it, that is `false`.
    pub fn may_be_grouped(&self) -> bool
        ensures { result ≡ false → HasNoFlag self.now }
    {
        let _ = &self.blocks;
        self.flagged
    }

    /// Returns whether the slot of a CPU has the flag of a group, in bytes that need not be those of a slot. A
    /// transaction in a slot without it is of no group.
    pub fn is_flagged(&self, cpu: u16) -> bool
        requires { cpu < length self.now }
        ensures { (bytes : List ℕ) → slice_get self.now cpu ≡ Some bytes → result ≡ is_flagged bytes }
    {
        is_flagged(self.bytes(cpu))
    }

    /// Lends the slot of a CPU. What is written to it is written to the region, and every other slot stays as
    /// it is.
    ///
    /// # Examples
    ///
    /// The agent stamps a choice of its policy:
    ///
    /// ```
    /// if choice.cpu >= region.cpus() {
    ///     return false;
    /// }
    /// let slot = region.slot(choice.cpu);
    /// let flags = Flags::single(choice.preempt);
    /// if role.stamp(slot, choice.tid, flags).is_err() {
    ///     return false;
    /// }
    /// ```
    pub fn slot(&mut self, cpu: u16) -> SlotMut<'_>
        requires { cpu < length self.old }
        ensures* writes_back { sem 𝓛 (LendsOne self.entry cpu result) }
        ensures bytes { slice_get self.old cpu ≡ Some (bytes_of result) }
        ensures cpu { cpu_of result ≡ cpu }
    {
        self.lent = with_lent(self.lent, cpu);
        self.flagged = true;
        SlotMut::over(cpu, &mut self.blocks[cpu as usize])
    }

    /// Stamps a transaction into the slot of a CPU, as [`SlotMut::stamp`] does. A slot that is lent may get any flag, but
    /// one that is stamped so has that of a group only if the transaction has it.
    ///
    /// # Errors
    ///
    /// `SlotBusy` exactly if the slot is not idle. The region stays as it is.
    ///
    /// # Examples
    ///
    /// A role notes what was stamped:
    ///
    /// ```
    /// if self.region.stamp(choice.cpu, &stamp).is_ok() {
    ///     self.role.note_stamp(choice.cpu, choice.tid);
    /// }
    /// ```
    #[inline(always)]
    pub fn stamp(&mut self, cpu: u16, stamp: &Stamp) -> Result<(), SlotBusy>
        requires { cpu < length self.old }
        ensures exact { IsOk result ↔ (slice_get (states_in 0 self.old) cpu ≡ Some (Ok SlotState.Idle)) }
        ensures stamped { OnOk result (states_in 0 self.new ≡ slice_set (states_in 0 self.old) cpu (Ok (SlotState.Stamped stamp.now))) }
        ensures spelt { OnOk result (self.new ≡ slice_set self.old cpu (slot_spelling cpu (SlotState.Stamped stamp.now))) }
        ensures busy { OnErr result (self.new ≡ self.old) }
    {
        let bytes = &mut self.blocks[cpu as usize];
        if is_busy(bytes) {
            return Err(SlotBusy);
        }
        write_stamped(cpu, stamp, bytes);
        self.lent = with_lent(self.lent, cpu);
        self.flagged = self.flagged || stamp.flags.group;
        Ok(())
    }

    /// Makes the slot of a CPU idle, whatever is in it.
    #[inline(always)]
    pub fn clear_slot(&mut self, cpu: u16)
        requires { cpu < length self.old }
        ensures { self.new ≡ slice_set self.old cpu idle_bytes }
    {
        self.blocks[cpu as usize] = [0; SLOT_LEN];
        // It counts as seen to be idle, so that a later look passes it over.
        if cpu < MOST_CPUS {
            self.lent = self.lent.without(cpu);
        }
    }

    /// Returns the CPUs below [`MOST_CPUS`] whose slots may be other than idle, as far as is known without a look. Their
    /// slots were lent or stamped, and not seen to be idle since. A CPU past the last one may be among them.
    #[inline(always)]
    pub fn may_be_busy(&self) -> Mask
        ensures { CoversBusy self.now result }
    {
        let Region { lent, .. } = self;
        *lent
    }

    /// Returns the CPUs below [`MOST_CPUS`] whose slots are not idle: stamped, done or malformed. It looks at those
    /// alone that were lent or stamped since they were last seen to be idle.
    #[inline(always)]
    pub fn busy(&mut self) -> Mask
        ensures busy { (c : ℕ) → c < MOST_CPUS → has result c ≡ is_busy_at self.old c }
        ensures same { self.new ≡ self.old }
    {
        let (busy, flagged) = busy_of(self.lent, &self.blocks);
        self.lent = busy;
        self.flagged = flagged;
        busy
    }

    /// Returns whether a slot has a transaction that did not land yet.
    pub fn has_stamped(&self) -> bool
        ensures { result ≡ list_any has_stamp (states_in 0 self.now) }
    {
        any_stamped(0, &self.blocks)
    }

    /// Makes each slot idle, whatever is in it.
    pub fn clear(&mut self)
        ensures { self.new ≡ replicate (length self.old) idle_bytes }
    {
        clear_all(&mut self.blocks);
        self.lent = Mask::none();
        self.flagged = false;
    }

    /// Lends all slots. What is written to them is written to the region.
    pub fn lend(&mut self) -> Slots<'_>
        ensures* writes_back { sem 𝓛 (LendsAll self.entry result) }
        ensures slots { result.rest.now ≡ self.old }
        ensures first { result.first ≡ 0 }
    {
        self.lent = Mask::new(!0);
        self.flagged = true;
        Slots {
            rest: &mut self.blocks,
            first: 0,
        }
    }
}

/// Returns the CPUs that are noted, and one more. A CPU from [`MOST_CPUS`] on is not noted.
fn with_lent(lent: Mask, cpu: u16) -> Mask
    ensures { (c : ℕ) → c < MOST_CPUS → has result c ≡ (has lent c || (c == cpu)) }
{
    if cpu < MOST_CPUS {
        lent.with(cpu)
    } else {
        lent
    }
}

/// Returns whether there is a slot of a CPU, and it is not idle.
fn is_busy_at(blocks: &[[u8; SLOT_LEN]], cpu: u16) -> bool
    ensures { result ≡ is_busy_at blocks.now cpu }
{
    match blocks.get(cpu as usize) {
        Some(bytes) => is_busy(bytes),
        None => false,
    }
}

/// Returns whether this was so, or there is a slot of a CPU and it has the flag of a group.
fn or_flagged(flagged: bool, blocks: &[[u8; SLOT_LEN]], cpu: u16) -> bool
    ensures { result ≡ (flagged || is_flagged_at blocks.now cpu) }
{
    match blocks.get(cpu as usize) {
        Some(bytes) => flagged || is_flagged(bytes),
        None => flagged,
    }
}

/// Returns the CPUs below [`MOST_CPUS`] whose slots are not idle, and whether one of them may have the flag of a
/// group. All that are not idle are among those that are noted.
// In line, since with few CPUs a call costs as much as the walk.
#[inline(always)]
fn busy_of(lent: Mask, blocks: &[[u8; SLOT_LEN]]) -> (Mask, bool)
    requires { CoversBusy blocks.now lent }
    ensures busy { (c : ℕ) → c < MOST_CPUS → has result.0 c ≡ is_busy_at blocks.now c }
    ensures single { result.1 ≡ false → HasNoFlag blocks.now }
{
    let mut busy = lent;
    let mut flagged = false;
    let mut left = lent;
    'looking: while let Some(cpu) = left.lowest() {
        if !is_busy_at(blocks, cpu) {
            busy = busy.without(cpu);
        }
        flagged = or_flagged(flagged, blocks, cpu);
        left = left.without(cpu);
    }
    (busy, flagged)
}

/// Returns whether one of these slots has a transaction that did not land yet. The first of them is that of a
/// CPU.
fn any_stamped(first: u16, blocks: &[[u8; SLOT_LEN]]) -> bool
    requires { first + length blocks.now < 2 ^ 16 }
    ensures { result ≡ list_any has_stamp (states_in first blocks.now) }
{
    match blocks.split_first() {
        Some((bytes, rest)) => {
            matches!(state_at(first, bytes), Ok(SlotState::Stamped { .. }))
                || any_stamped(first + 1, rest)
        }
        None => false,
    }
}

/// Makes each of these slots idle.
fn clear_all(blocks: &mut [[u8; SLOT_LEN]])
    ensures { blocks.new ≡ replicate (length blocks.old) idle_bytes }
{
    if let Some((first, rest)) = blocks.split_first_mut() {
        *first = [0; SLOT_LEN];
        clear_all(rest);
    }
}
