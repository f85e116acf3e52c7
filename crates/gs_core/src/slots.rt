//! The slots of a machine: a region in which no slot is malformed.

ghost use Rattle.std.specs.Prelude.{◌≡◌, ◌+◌, ◌-◌, ◌*◌, ◌<◌, ◌≤◌, ℕ, true, None, Some, Ok, IfOk, IfErr, OnErr, OnOk, [], count_ones, length, map, min, replicate, slice_get, slice_set, vec_capacity, vec_len};
ghost use Rattle.std.specs.List.{list_any};
ghost use Rattle.gs_layout.specs.View.{look_up};
ghost use Rattle.gs_slots.specs.declared.state.SlotState.{SlotState, SlotState as SlotStateOf};
ghost use Rattle.gs_slots.specs.Reading.{states_in};
ghost use Rattle.gs_slots.specs.State.{collected, is_stamped};
ghost use Rattle.gs_agent.specs.Role.{number_of, stamp_refusal};
ghost use Rattle.gs_agent.specs.Mind.{picture_of, thinks};
ghost use Rattle.gs_agent.specs.Picture.{after_all, after_stamp};
ghost use Rattle.gs_journal.specs.History.{posted};
ghost use Rattle.gs_kernel.specs.Commit.{commit_refusal};
ghost use Rattle.gs_kernel.specs.Kernel.{IsRefusal};
ghost use Rattle.gs_kernel.specs.Legal.{Frame, RoomOf};
ghost use Rattle.gs_kernel.specs.Lands.{Adds};
ghost use Rattle.gs_kernel.specs.Group.{LandsCommit};
ghost use Rattle.gs_status.specs.Masks.{has};
ghost use Rattle.gs_core.specs.Trust.{NoneDone};
ghost use Rattle.gs_core.specs.AtOnce.{CommitsAtOnce, LandsAtOnce, LandsOneAtOnce};

use gs_agent::Role;
use gs_kernel::{Kernel, Landing};
use gs_layout::Refusal;
use gs_ring::Poster;
use gs_slots::{Flags, Region, SlotState, Stamp};
use gs_status::Mask;
use std::alloc::{AllocError, Global};
use std::marker::Model;

/// The commit region of a machine. Only agent and kernel write into it, so that each slot has a state, and
/// clauses see the states.
#[derive(Drop)]
pub(crate) struct MachineSlots {
    region: Region,
}

impl Model for MachineSlots {
    ghost use Rattle.std.specs.Prelude.{List};
    ghost use Rattle.gs_slots.specs.declared.state.SlotState.{SlotState};

    ghost Value = { List SlotState };

    ghost use Rattle.std.specs.Prelude.{◌≡◌, Ok, map};
    ghost use Rattle.gs_slots.specs.Reading.{states_in, told_by};

    ghost view = { λ slots. told_by 0 slots.region };

    ghost invariant = { λ slots. states_in 0 slots.region ≡ map Ok (told_by 0 slots.region) };
}

impl MachineSlots {
    /// Makes the slots of `cpus` CPUs, all idle.
    pub(crate) fn new(alloc: Global, cpus: u16) -> Result<MachineSlots, AllocError>
        ensures { IfOk result (λ slots. slots ≡ replicate cpus SlotState.Idle) }
    {
        let region = Region::new(alloc, cpus)?;
        Ok(MachineSlots { region })
    }

    /// Lends the region.
    pub(crate) fn region(&self) -> &Region
        ensures { states_in 0 result.now ≡ map Ok self.now }
    {
        &self.region
    }

    /// Returns how many slots there are.
    pub(crate) fn cpus(&self) -> u16
        ensures { result ≡ length self.now }
    {
        self.region.cpus()
    }

    /// Returns what is in the slot of a CPU.
    #[inline(always)]
    pub(crate) fn state(&self, cpu: u16) -> SlotState
        requires { cpu < length self.now }
        ensures { slice_get self.now cpu ≡ Some result }
    {
        self.region.state(cpu).unwrap_or(SlotState::Idle)
    }

    /// Tells whether a transaction is stamped into a slot and did not land yet.
    pub(crate) fn has_stamped(&self) -> bool
        ensures { result ≡ list_any is_stamped self.now }
    {
        self.region.has_stamped()
    }

    /// Makes each slot idle.
    pub(crate) fn clear(&mut self)
        ensures { self.new ≡ replicate (length self.old) SlotState.Idle }
    {
        self.region.clear();
    }

    /// Lets a role stamp a thread, at the number that it knows of it, into the slot of a CPU. Returns what is stamped.
    ///
    /// # Errors
    ///
    /// `SlotOpen` if the slot is not idle. Then slots and role stay as they were.
    #[inline(always)]
    pub(crate) fn stamp<P>(
        &mut self,
        role: &mut Role<P>,
        cpu: u16,
        tid: u32,
        tseq: u32,
        flags: Flags,
    ) -> Result<Stamp, Refusal>
        requires cpu { cpu < length self.old }
        requires number { number_of (look_up role.old.mind.records tid) ≡ Some tseq }
        ensures stamped { IfOk result (λ stamp. stamp ≡ record { generation = role.old.generation; tid = tid; tseq = tseq; flags = flags }) }
        ensures idle { OnOk result (slice_get self.old cpu ≡ Some SlotState.Idle) }
        ensures slots { OnOk result (self.new ≡ slice_set self.old cpu (SlotState.Stamped (record { generation = role.old.generation; tid = tid; tseq = tseq; flags = flags }))) }
        ensures role { OnOk result (role.new ≡ record role.old { mind = thinks role.old.mind (after_stamp cpu tid (picture_of role.old.mind)) }) }
        ensures refused { IfErr result (λ refusal. (state : SlotState) → slice_get self.old cpu ≡ Some state → stamp_refusal (look_up role.old.mind.records tid) (Ok state) ≡ Some refusal) }
        ensures slots_stay { OnErr result (self.new ≡ self.old) }
        ensures role_stays { OnErr result (role.new ≡ role.old) }
    {
        let stamp = Stamp {
            generation: role.generation(),
            tid,
            tseq,
            flags,
        };
        if self.region.stamp(cpu, &stamp).is_err() {
            return Err(Refusal::SlotOpen);
        }
        role.note_stamp(cpu, tid);
        Ok(stamp)
    }

    /// Lets the kernel land the slots of a mask, as `Kernel::txns_commit_into` says, and a role collect what became of
    /// them. Those that are done are idle then.
    ///
    /// If no slot is of a group, each is collected as it lands: none is looked at twice.
    ///
    /// # Errors
    ///
    /// As of `Kernel::txns_commit_into`. Then nothing changes.
    #[inline(always)]
    pub(crate) fn land<P: Poster, Q>(
        &mut self,
        alloc: Global,
        kernel: &mut Kernel<P>,
        role: &mut Role<Q>,
        mask: Mask,
        landings: &mut Vec<Landing>,
    ) -> Result<(), Refusal>
        requires cpus { length self.old ≡ kernel.old.settings.cpus }
        requires told { P.posted kernel.old.poster (posted kernel.old.history) }
        requires none_done { NoneDone self.old }
        ensures accepted { OnOk result (commit_refusal kernel.old.settings kernel.old.history mask ≡ None) }
        ensures lands { OnOk result (CommitsAtOnce (RoomOf P.same P.consumed P.posted P.tight kernel.old.poster) kernel.old.settings mask self.old kernel.old.history landings.old.items landings.new.items self.new kernel.new.history role.old.mind role.new.mind) }
        ensures role { role.new ≡ record role.old { mind = role.new.mind } }
        ensures refused { IfErr result (IsRefusal (commit_refusal kernel.old.settings kernel.old.history mask)) }
        ensures unchanged { OnErr result ((kernel.new ≡ kernel.old) × (self.new ≡ self.old) × (role.new ≡ role.old)) }
        ensures kept { OnErr result (landings.new.items ≡ landings.old.items) }
        ensures frame { Frame P.same P.consumed P.posted kernel.old kernel.new }
    {
        if self.region.may_be_grouped() {
            return self.land_groups(alloc, kernel, role, mask, landings);
        }
        if let Some(refusal) = kernel.commit_refusal(mask) {
            return Err(refusal);
        }
        // There are at most MOST_CPUS, so that a mask has them all.
        let _settings = kernel.settings();
        let some = mask.both(self.region.may_be_busy());
        let count = some.bits().count_ones() as usize;
        landings.reserve(count)?;
        kernel.reserve(2 * count)?;
        self.land_singly(kernel, role, some, landings);
        Ok(())
    }

    /// Lands the slots of a mask, of which some may be of a group, and then lets a role collect them.
    #[inline(never)]
    fn land_groups<P: Poster, Q>(
        &mut self,
        alloc: Global,
        kernel: &mut Kernel<P>,
        role: &mut Role<Q>,
        mask: Mask,
        landings: &mut Vec<Landing>,
    ) -> Result<(), Refusal>
        requires cpus { length self.old ≡ kernel.old.settings.cpus }
        ensures accepted { OnOk result (commit_refusal kernel.old.settings kernel.old.history mask ≡ None) }
        ensures lands { OnOk result (CommitsAtOnce (RoomOf P.same P.consumed P.posted P.tight kernel.old.poster) kernel.old.settings mask self.old kernel.old.history landings.old.items landings.new.items self.new kernel.new.history role.old.mind role.new.mind) }
        ensures role { role.new ≡ record role.old { mind = role.new.mind } }
        ensures refused { IfErr result (IsRefusal (commit_refusal kernel.old.settings kernel.old.history mask)) }
        ensures unchanged { OnErr result ((kernel.new ≡ kernel.old) × (self.new ≡ self.old) × (role.new ≡ role.old)) }
        ensures kept { OnErr result (landings.new.items ≡ landings.old.items) }
        ensures frame { Frame P.same P.consumed P.posted kernel.old kernel.new }
    {
        self.commit(alloc, kernel, mask, landings)?;
        self.collect(role);
        Ok(())
    }

    /// Lands the slots of a mask in increasing order of CPU, and lets a role collect each before the next lands. There is
    /// room for all their entries, and in `landings` for what became of each.
    #[inline(always)]
    fn land_singly<P: Poster, Q>(
        &mut self,
        kernel: &mut Kernel<P>,
        role: &mut Role<Q>,
        mask: Mask,
        landings: &mut Vec<Landing>,
    )
        requires cpus { length self.old ≡ kernel.old.settings.cpus }
        requires told { P.posted kernel.old.poster (posted kernel.old.history) }
        requires within { (c : ℕ) → has mask c ≡ true → c < kernel.old.settings.cpus }
        requires none_done { NoneDone self.old }
        requires entries { min (2 * count_ones mask) (kernel.old.settings.history - length kernel.old.history) ≤ kernel.old.room }
        requires room { vec_len landings.old + count_ones mask ≤ vec_capacity landings.old }
        ensures lands { LandsAtOnce (RoomOf P.same P.consumed P.posted P.tight kernel.old.poster) kernel.old.settings mask self.old kernel.old.history landings.old.items landings.new.items self.new kernel.new.history role.old.mind role.new.mind }
        ensures role { role.new ≡ record role.old { mind = role.new.mind } }
        ensures frame { Frame P.same P.consumed P.posted kernel.old kernel.new }
    {
        // Reads a field to expose the invariant.
        let _region = &self.region;
        let mut left = mask;
        'walk: while let Some(cpu) = left.lowest() {
            self.land_one(kernel, role, cpu, landings);
            left = left.without(cpu);
        }
    }

    /// Lands a slot that is not done, and lets a role collect it. There is room for its entries, and in `landings`.
    #[inline(always)]
    fn land_one<P: Poster, Q>(
        &mut self,
        kernel: &mut Kernel<P>,
        role: &mut Role<Q>,
        cpu: u16,
        landings: &mut Vec<Landing>,
    )
        requires cpu { cpu < length self.old }
        requires cpus { length self.old ≡ kernel.old.settings.cpus }
        requires told { P.posted kernel.old.poster (posted kernel.old.history) }
        requires none_done { NoneDone self.old }
        requires entries { min 2 (kernel.old.settings.history - length kernel.old.history) ≤ kernel.old.room }
        requires room { vec_len landings.old < vec_capacity landings.old }
        ensures lands { (z : SlotStateOf) → slice_get self.old cpu ≡ Some z → LandsOneAtOnce (RoomOf P.same P.consumed P.posted P.tight kernel.old.poster) kernel.old.settings cpu z kernel.old.history landings.old.items landings.new.items self.old self.new kernel.new.history role.old.mind role.new.mind }
        ensures role { role.new ≡ record role.old { mind = role.new.mind } }
        ensures frame { Frame P.same P.consumed P.posted kernel.old kernel.new }
        ensures entries { kernel.old.room + length kernel.old.history ≤ kernel.new.room + length kernel.new.history }
        ensures grown { length kernel.old.history ≤ length kernel.new.history }
        ensures few { length kernel.new.history ≤ length kernel.old.history + 2 }
        ensures room { vec_len landings.new ≤ vec_len landings.old + 1 }
        ensures capacity { vec_capacity landings.new ≡ vec_capacity landings.old }
    {
        if let SlotState::Stamped { stamp } = self.state(cpu) {
            let landing = kernel.land_stamp(cpu, &stamp).unwrap();
            role.learn(cpu, &stamp, landing.outcome, landing.at);
            landings.push_reserved(landing);
            self.region.clear_slot(cpu);
        }
    }

    /// Lets the kernel land the slots of a mask, as `Kernel::txns_commit_into` says.
    fn commit<P: Poster>(
        &mut self,
        alloc: Global,
        kernel: &mut Kernel<P>,
        mask: Mask,
        landings: &mut Vec<Landing>,
    ) -> Result<(), Refusal>
        requires cpus { length self.old ≡ kernel.old.settings.cpus }
        ensures accepted { OnOk result (commit_refusal kernel.old.settings kernel.old.history mask ≡ None) }
        ensures lands { OnOk result (Adds (LandsCommit (RoomOf P.same P.consumed P.posted P.tight kernel.old.poster) kernel.old.settings mask self.old kernel.old.history) landings.old.items landings.new.items self.new kernel.new.history) }
        ensures refused { IfErr result (IsRefusal (commit_refusal kernel.old.settings kernel.old.history mask)) }
        ensures unchanged { OnErr result ((kernel.new ≡ kernel.old) × (self.new ≡ self.old)) }
        ensures kept { OnErr result (landings.new.items ≡ landings.old.items) }
        ensures frame { Frame P.same P.consumed P.posted kernel.old kernel.new }
    {
        kernel.txns_commit_into(alloc, &mut self.region, mask, landings)
    }

    /// Lets a role collect what became of the slots that are done, and makes these idle.
    fn collect<P>(&mut self, role: &mut Role<P>)
        ensures slots { self.new ≡ map collected self.old }
        ensures role { role.new ≡ record role.old { mind = thinks role.old.mind (after_all self.old (picture_of role.old.mind)) } }
    {
        role.collect(&mut self.region);
    }
}
