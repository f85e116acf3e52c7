//! Collecting the slots of transactions that landed.

ghost use Rattle.std.specs.Prelude.{◌≡◌, ◌<◌, ℕ, List, Some, length, min, slice_get, slice_set, true};
ghost use Rattle.gs_status.specs.Masks.{has};
ghost use Rattle.gs_slots.specs.Busy.{CoversBusy};
ghost use Rattle.gs_slots.specs.SlotMut.{bytes_of, cpu_of, left_in, state_of};
ghost use Rattle.gs_slots.specs.Reading.{all_collected, by_cpu, collected_in, state_or_idle, told_by};
ghost use Rattle.gs_agent.specs.Mind.{picture_of, thinks};
ghost use Rattle.gs_agent.specs.Picture.{after_all, after_slot, after_slots};
ghost use Rattle.gs_agent.specs.Collected.{IsCollected, is_wanted, left_if, told_if};

use crate::mind::Mind;
use gs_slots::{Region, SlotMut, SlotState};
use gs_status::{MOST_CPUS, Mask};

/// Collects what became of each done slot of a region, and makes it idle again. The slots of a group come first, and
/// then the others, each in increasing order of CPU.
#[inline(always)]
pub(crate) fn collect_all(mind: &mut Mind, region: &mut Region)
    ensures region { region.new ≡ all_collected 0 region.old }
    ensures mind { mind.new ≡ thinks mind.old (after_all (told_by 0 region.old) (picture_of mind.old)) }
{
    let busy = region.busy();
    collect_group(mind, region, busy);
    collect_those(mind, region, busy, false);
}

/// Collects the slots that have the flag of a group. If there is none, no slot is read.
#[tactic(auto, using(crate::proofs::Collecting::none_left_first, crate::proofs::Collecting::none_told_first))]
fn collect_group(mind: &mut Mind, region: &mut Region, busy: Mask)
    requires covers { CoversBusy region.old busy }
    requires within { (c : ℕ) → c < MOST_CPUS → has busy c ≡ true → c < length region.old }
    ensures region { region.new ≡ by_cpu (left_if true) 0 region.old }
    ensures mind { mind.new ≡ thinks mind.old (after_slots 0 (by_cpu (told_if true) 0 region.old) (picture_of mind.old)) }
{
    if region.cpus() <= MOST_CPUS && !region.may_be_grouped() {
        return;
    }
    collect_those(mind, region, busy, true);
}

/// Collects the slots that have the flag of a group, or all. Of the CPUs below [`MOST_CPUS`] those of a mask alone
/// are looked at.
fn collect_those(mind: &mut Mind, region: &mut Region, busy: Mask, group: bool)
    requires covers { CoversBusy region.old busy }
    requires within { (c : ℕ) → c < MOST_CPUS → has busy c ≡ true → c < length region.old }
    ensures region { region.new ≡ by_cpu (left_if group) 0 region.old }
    ensures mind { mind.new ≡ thinks mind.old (after_slots 0 (by_cpu (told_if group) 0 region.old) (picture_of mind.old)) }
{
    collect_busy(mind, region, busy, group);
    let cpus = region.cpus();
    for cpu in cpus.min(MOST_CPUS)..cpus {
        collect_one(mind, region, cpu, group);
    }
}

/// Does so for the CPUs below [`MOST_CPUS`], all of whose slots outside the mask are idle.
fn collect_busy(mind: &mut Mind, region: &mut Region, busy: Mask, group: bool)
    requires covers { CoversBusy region.old busy }
    requires within { (c : ℕ) → c < MOST_CPUS → has busy c ≡ true → c < length region.old }
    ensures { IsCollected group region.old mind.old (min (length region.old) MOST_CPUS) region.new mind.new }
{
    let mut left = busy;
    'walk: while let Some(cpu) = left.lowest() {
        collect_one(mind, region, cpu, group);
        left = left.without(cpu);
    }
}

/// Collects the slot of a CPU if it is one of those that are wanted.
#[inline(always)]
fn collect_one(mind: &mut Mind, region: &mut Region, cpu: u16, group: bool)
    requires { cpu < length region.old }
    ensures region { (bytes : List ℕ) → slice_get region.old cpu ≡ Some bytes → region.new ≡ slice_set region.old cpu (left_if group cpu bytes) }
    ensures mind { (bytes : List ℕ) → slice_get region.old cpu ≡ Some bytes → mind.new ≡ thinks mind.old (after_slot cpu (told_if group cpu bytes) (picture_of mind.old)) }
{
    if is_wanted(region, cpu, group) {
        collect_slot(mind, region.slot(cpu));
    }
}

/// Returns whether the slot of a CPU is one of those that are wanted: those with the flag of a group, or all.
fn is_wanted(region: &Region, cpu: u16, group: bool) -> bool
    requires { cpu < length region.now }
    ensures { (bytes : List ℕ) → slice_get region.now cpu ≡ Some bytes → result ≡ is_wanted group bytes }
{
    !group || region.is_flagged(cpu)
}

/// Collects what became of a done slot, and makes it idle again. Any other slot, a malformed one too,
/// changes nothing, and stays as it is.
#[tactic(auto, using(crate::proofs::Collecting::slot_stays, crate::proofs::Collecting::nothing_learnt, crate::proofs::Collecting::slot_cleared))]
fn collect_slot(mind: &mut Mind, slot: SlotMut<'_>)
    ensures slot { left_in slot.exit ≡ collected_in (cpu_of slot.entry) (bytes_of slot.entry) }
    ensures mind { mind.new ≡ thinks mind.old (after_slot (cpu_of slot.entry) (state_or_idle (state_of slot.entry)) (picture_of mind.old)) }
{
    if let Ok(state) = slot.state()
        && matches!(state, SlotState::Done { .. })
    {
        mind.collect(slot.cpu(), state);
        slot.clear();
    }
}
