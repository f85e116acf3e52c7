//! The transactions of a group land: all of them are placed, or none is.

ghost use Rattle.std.specs.Prelude.{◌≡◌, ℕ, ◌+◌, ◌-◌, ◌*◌, ◌<◌, ◌≤◌, ◌++◌, ◌&&◌, Some, true, false, length, map, min, not, slice_get, IfOk, IfSome, OnOk, count_ones, vec_len, vec_capacity};
ghost use Rattle.gs_layout.specs.Spelling.{IsCpuOrNone};
ghost use Rattle.gs_status.specs.Masks.{has};
ghost use Rattle.gs_slots.specs.Reading.{state_or_idle, states_in, told_by};
ghost use Rattle.gs_slots.specs.State.{Held, is_malformed};
ghost use Rattle.gs_journal.specs.History.{on};
ghost use Rattle.gs_kernel.specs.Group.{AreMarked, AreStamped, Finishes, GiveWay, GivesWay, LandsTogether, Puts, SettlesGroup, are_marked_to_place, group_in, grouped, group_entries, is_for, is_group_placed, marked_verdict, member_landing, or_failed, placings};
ghost use Rattle.gs_kernel.specs.Kernel.{is_full, is_spent_there, preemption};
ghost use Rattle.gs_kernel.specs.Lands.{Adds};
ghost use Rattle.gs_kernel.specs.Legal.{Frame, RoomOf};
ghost use Rattle.gs_kernel.specs.Ready.{AreApart, AreBelow, AreFree, AreNumbered, AreReady, Rises};

use crate::kernel::Kernel;
use crate::landing::Landing;
use crate::repeated::repeated_in;
use gs_journal::Entry;
use gs_layout::Outcome;
use gs_ring::Poster;
use gs_slots::{Region, SlotState, Stamp};
use gs_status::{MOST_CPUS, Mask};
use std::alloc::{AllocError, Global};

impl<P: Poster> Kernel<P> {
    /// Lands a group whose transactions are stamped in these slots: all of it is placed, or none. The slots are done
    /// then. Appends what became of each to `landings`. There is room for its entries, and in `landings`.
    pub(crate) fn land_group(
        &mut self,
        region: &mut Region,
        group: &[(u16, Stamp)],
        landings: &mut Vec<Landing>,
    )
        requires rises { Rises 0 self.old.settings.cpus group.now }
        requires few { length group.now ≤ MOST_CPUS }
        requires cpus { length region.old ≡ self.old.settings.cpus }
        requires stamped { AreStamped region.old group.now }
        requires entries { min (2 * length group.now) (self.old.settings.history - length self.old.history) ≤ self.old.room }
        requires room { vec_len landings.old + length group.now ≤ vec_capacity landings.old }
        ensures lands { Adds (LandsTogether (RoomOf P.same P.consumed P.posted P.tight self.old.poster) self.old.settings group.now region.old self.old.history) landings.old.items landings.new.items region.new self.new.history }
        ensures frame { Frame P.same P.consumed P.posted self.old self.new }
        ensures entries { self.old.room + length self.old.history ≤ self.new.room + length self.new.history }
        ensures grown { length self.old.history ≤ length self.new.history }
        ensures most { length self.new.history ≤ length self.old.history + 2 * length group.now }
        ensures room { vec_len landings.new ≤ vec_len landings.old + length group.now }
        ensures capacity { vec_capacity landings.new ≡ vec_capacity landings.old }
    {
        // Reads a field to expose the invariant.
        let _settings = &self.settings;
        let Some(_) = group.split_first() else {
            return;
        };
        let repeated = repeated_in(group);
        let together = self.settle_group(group, repeated);
        self.finish_group(region, repeated, together, group, landings);
    }

    /// Places a group if it may be. Returns what becomes of all of it together, or `None` if one of it would not be
    /// placed: then nothing changes. There is room for its entries. Those whose thread is named before are marked.
    #[tactic(auto, using(crate::proofs::Marks::marked_place))]
    fn settle_group(&mut self, group: &[(u16, Stamp)], repeated: Mask) -> Option<Outcome>
        requires rises { Rises 0 self.old.settings.cpus group.now }
        requires marked { AreMarked repeated group.now group.now }
        requires few { length group.now ≤ MOST_CPUS }
        requires entries { min (2 * length group.now) (self.old.settings.history - length self.old.history) ≤ self.old.room }
        ensures settles { SettlesGroup (RoomOf P.same P.consumed P.posted P.tight self.old.poster) self.old.settings self.old.history group.now result self.new.history }
        ensures known { IfSome result (λ o. is_malformed o ≡ false) }
        ensures frame { Frame P.same P.consumed P.posted self.old self.new }
        ensures room { self.old.room + length self.old.history ≤ self.new.room + length self.new.history }
    {
        // Reads a field to expose the invariant.
        let _settings = &self.settings;
        if !self.are_to_place(repeated, group) {
            return None;
        }
        if !self.has_room_for(group) {
            return Some(Outcome::HistoryFull);
        }
        if self.put_group(group) {
            Some(Outcome::Placed)
        } else {
            Some(Outcome::Gone)
        }
    }

    /// Returns what became of a transaction of a group that landed.
    fn member_landing(
        &self,
        repeated: Mask,
        together: Option<Outcome>,
        cpu: u16,
        slot: &Stamp,
    ) -> Landing
        requires cpu { cpu < self.now.settings.cpus }
        requires known { IfSome together (λ o. is_malformed o ≡ false) }
        ensures value { result ≡ member_landing self.now.settings self.now.history repeated together (cpu, slot.now) }
        ensures known { is_malformed result.outcome ≡ false }
        ensures below { IsCpuOrNone result.at }
    {
        match together {
            Some(outcome) => Landing {
                cpu,
                tid: slot.tid,
                outcome,
                seen: slot.tseq,
                at: self.at(slot.tid),
            },
            None => Landing {
                cpu,
                tid: slot.tid,
                outcome: or_failed(self.own_verdict(repeated, cpu, slot)),
                seen: self.seq(slot.tid),
                at: self.at(slot.tid),
            },
        }
    }

    /// Leaves in the slots of a group what became of its transactions, and appends that to `landings`, which has room.
    fn finish_group(
        &self,
        region: &mut Region,
        repeated: Mask,
        together: Option<Outcome>,
        group: &[(u16, Stamp)],
        landings: &mut Vec<Landing>,
    )
        requires rises { Rises 0 self.now.settings.cpus group.now }
        requires cpus { length region.old ≡ self.now.settings.cpus }
        requires stamped { AreStamped region.old group.now }
        requires known { IfSome together (λ o. is_malformed o ≡ false) }
        requires room { vec_len landings.old + length group.now ≤ vec_capacity landings.old }
        ensures slots { Finishes (member_landing self.now.settings self.now.history repeated together) group.now region.old region.new }
        ensures answers { landings.new.items ≡ landings.old.items ++ map (member_landing self.now.settings self.now.history repeated together) group.now }
        ensures room { vec_len landings.new ≤ vec_len landings.old + length group.now }
        ensures capacity { vec_capacity landings.new ≡ vec_capacity landings.old }
    {
        let Some(((cpu, stamp), rest)) = group.split_first() else {
            return;
        };
        let landing = self.member_landing(repeated, together, *cpu, stamp);
        region
            .slot(*cpu)
            .finish(landing.outcome, landing.at, landing.seen);
        landings.push_reserved(landing);
        self.finish_group(region, repeated, together, rest, landings)
    }

    /// Places a group, each of which would be placed by itself, after the threads on its CPUs made way. Returns whether
    /// their messages fit; the first that does not tears the enclave down, and nobody is placed. There is room for that.
    pub(crate) fn put_group(&mut self, group: &[(u16, Stamp)]) -> bool
        requires rises { Rises 0 self.old.settings.cpus group.now }
        requires placed { is_group_placed self.old.settings self.old.history group.now ≡ true }
        requires room { group_entries self.old.history group.now ≤ self.old.room }
        ensures puts { Puts (RoomOf P.same P.consumed P.posted P.tight self.old.poster) self.old.settings self.old.history group.now result self.new.history }
        ensures frame { Frame P.same P.consumed P.posted self.old self.new }
        ensures room { self.old.room + length self.old.history ≤ self.new.room + length self.new.history }
    {
        // Reads a field to expose the invariant.
        let _settings = &self.settings;
        if !self.give_way(group) {
            return false;
        }
        self.place_all(group);
        true
    }

    /// Posts PREEMPTED of the thread on a CPU, if there is one. Returns whether that message fits; if it does not, the
    /// enclave is torn down. There is room for it.
    fn make_way(&mut self, cpu: u16) -> bool
        requires cpu { cpu < self.old.settings.cpus }
        requires numbers { is_spent_there self.old.settings self.old.history (on self.old.history cpu) ≡ false }
        requires room { 0 < self.old.room }
        requires few { length self.old.history < self.old.settings.history }
        ensures gives { GivesWay (RoomOf P.same P.consumed P.posted P.tight self.old.poster) self.old.history (preemption self.old.settings self.old.history cpu) result self.new.history }
        ensures frame { Frame P.same P.consumed P.posted self.old self.new }
        ensures room { self.old.room + length self.old.history ≤ self.new.room + length self.new.history }
    {
        // Reads a field to expose the invariant.
        let _settings = &self.settings;
        match self.preemption(cpu) {
            Some(message) => self.tell_message(&message),
            None => true,
        }
    }

    /// Posts PREEMPTED of the threads on the CPUs of a group, in order. Returns whether all these messages fit; the first
    /// that does not tears the enclave down. There is room for them.
    pub(crate) fn give_way(&mut self, group: &[(u16, Stamp)]) -> bool
        requires numbered { AreNumbered self.old.settings self.old.history group.now }
        requires room { length group.now ≤ self.old.room }
        requires few { length self.old.history + length group.now ≤ self.old.settings.history }
        ensures gives { GiveWay (RoomOf P.same P.consumed P.posted P.tight self.old.poster) self.old.settings group.now self.old.history result self.new.history }
        ensures frame { Frame P.same P.consumed P.posted self.old self.new }
        ensures room { self.old.room + length self.old.history ≤ self.new.room + length self.new.history }
    {
        // Reads a field to expose the invariant.
        let _settings = &self.settings;
        let Some(((cpu, _), rest)) = group.split_first() else {
            return true;
        };
        if !self.make_way(*cpu) {
            return false;
        }
        self.give_way(rest)
    }

    /// Places all of a group, whose CPUs are free. There is room for that.
    pub(crate) fn place_all(&mut self, group: &[(u16, Stamp)])
        requires ready { AreReady self.old.settings self.old.history group.now }
        requires free { AreFree self.old.history group.now }
        requires apart { AreApart group.now }
        requires room { length group.now ≤ self.old.room }
        requires few { length self.old.history + length group.now ≤ self.old.settings.history }
        ensures placed { self.new.history ≡ self.old.history ++ placings group.now }
        ensures frame { Frame P.same P.consumed P.posted self.old self.new }
        ensures room { self.old.room + length self.old.history ≤ self.new.room + length self.new.history }
    {
        // Reads a field to expose the invariant.
        let _settings = &self.settings;
        let Some(((cpu, slot), rest)) = group.split_first() else {
            return;
        };
        self.tell_alone(Entry::Placed {
            tid: slot.tid,
            tseq: slot.tseq,
            cpu: *cpu,
            generation: slot.generation,
        });
        self.place_all(rest)
    }

    /// Returns what would become of a transaction of a group by itself. One that would be placed fails if it is marked: a
    /// transaction for a lower CPU names its thread.
    fn own_verdict(&self, repeated: Mask, cpu: u16, slot: &Stamp) -> Outcome
        requires { cpu < self.now.settings.cpus }
        ensures value { result ≡ marked_verdict self.now.settings self.now.history repeated cpu slot.now }
        ensures known { is_malformed result ≡ false }
    {
        let verdict = self.verdict(cpu, slot);
        if verdict == Outcome::Placed && repeated.has(cpu) {
            return Outcome::GroupFailed;
        }
        verdict
    }

    /// Returns whether each of these would be placed by itself, as one of a group.
    fn are_to_place(&self, repeated: Mask, group: &[(u16, Stamp)]) -> bool
        requires { AreBelow self.now.settings.cpus group.now }
        ensures { result ≡ are_marked_to_place self.now.settings self.now.history repeated group.now }
    {
        let Some(((cpu, slot), rest)) = group.split_first() else {
            return true;
        };
        self.own_verdict(repeated, *cpu, slot) == Outcome::Placed
            && self.are_to_place(repeated, rest)
    }

    /// Returns how many entries a group adds.
    fn group_entries(&self, group: &[(u16, Stamp)]) -> usize
        requires below { AreBelow self.now.settings.cpus group.now }
        requires few { length group.now ≤ MOST_CPUS }
        ensures value { result ≡ group_entries self.now.history group.now }
        ensures most { result ≤ 2 * length group.now }
    {
        let Some(((cpu, _), rest)) = group.split_first() else {
            return 0;
        };
        self.placing_entries(*cpu) + self.group_entries(rest)
    }

    /// Returns whether the entries that a group adds fit into the journal.
    fn has_room_for(&self, group: &[(u16, Stamp)]) -> bool
        requires below { AreBelow self.now.settings.cpus group.now }
        requires few { length group.now ≤ MOST_CPUS }
        ensures { result ≡ not (is_full self.now.settings self.now.history (group_entries self.now.history group.now)) }
    {
        let entries = self.journal.len() + self.group_entries(group);
        entries <= self.settings.history as usize
    }
}

/// Returns the CPUs of a mask for which no transaction of a group is.
pub(crate) fn without_group(mask: Mask, group: &[(u16, Stamp)]) -> Mask
    requires { AreBelow MOST_CPUS group.now }
    ensures few { count_ones result ≤ count_ones mask }
    ensures others { (c : ℕ) → has result c ≡ (has mask c && not (is_for c group.now)) }
{
    match group.split_first() {
        Some(((cpu, _), rest)) => without_group(mask.without(*cpu), rest),
        None => mask,
    }
}

/// Returns what becomes of a transaction of a group that fails: one that would be placed fails with it.
fn or_failed(own: Outcome) -> Outcome
    ensures value { result ≡ or_failed own }
    ensures known { is_malformed own ≡ false → is_malformed result ≡ false }
{
    if own == Outcome::Placed {
        Outcome::GroupFailed
    } else {
        own
    }
}

/// Adds the transaction that is in the slot of a CPU, if it has not landed and is of the group. A slot without the
/// flag is not read.
fn add_member(group: &mut Vec<(u16, Stamp)>, cpu: u16, region: &Region) -> Result<(), AllocError>
    requires { cpu < length region.now }
    ensures { OnOk result ((x : Held) → slice_get (states_in 0 region.now) cpu ≡ Some x → group.new.items ≡ group.old.items ++ grouped true cpu (state_or_idle x)) }
{
    if !region.is_flagged(cpu) {
        return Ok(());
    }
    match region.state(cpu) {
        Ok(SlotState::Stamped { stamp }) if stamp.flags.group => match group.push((cpu, stamp)) {
            Ok(()) => Ok(()),
            Err(_) => Err(AllocError),
        },
        _ => Ok(()),
    }
}

/// Returns the group of a mask: the transactions in its stamped slots that have the flag, in increasing order of CPU.
///
/// # Errors
///
/// `AllocError` if out of memory.
#[inline(always)]
pub(crate) fn group_of(
    alloc: Global,
    region: &Region,
    mask: Mask,
) -> Result<Vec<(u16, Stamp)>, AllocError>
    requires few { length region.now ≤ MOST_CPUS }
    requires within { (c : ℕ) → has mask c ≡ true → c < length region.now }
    ensures { IfOk result (λ group. group.items ≡ group_in mask 0 (told_by 0 region.now)) }
{
    if !region.may_be_grouped() {
        return Ok(Vec::new(alloc));
    }
    let mut group = Vec::with_capacity(alloc, mask.bits().count_ones() as usize)?;
    let mut left = mask;
    'walk: while let Some(cpu) = left.lowest() {
        add_member(&mut group, cpu, region)?;
        left = left.without(cpu);
    }
    Ok(group)
}
