//! How a caller uses the slots of a region.
ghost use Rattle.std.specs.Prelude.{◌≡◌, ◌+◌, ◌^◌, ◌<◌, ◌≤◌, ℕ, List, ◌∷◌, true, false, length, slice_get, slice_set, IsNone, IsOk, OnErr, OnOk, Ok, None, Some};
ghost use Rattle.gs_layout.specs.declared.outcome.Outcome.{Outcome};
ghost use Rattle.gs_slots.specs.declared.state.SlotState.{SlotState};
ghost use Rattle.gs_slots.specs.declared.state.Stamp.{Stamp};
ghost use Rattle.gs_slots.specs.Reading.{all_collected, by_cpu, collected_in, state_in, states_in};
ghost use Rattle.gs_slots.specs.Spelling.{slot_spelling};
ghost use Rattle.gs_slots.specs.Flags.{single};
ghost use Rattle.gs_slots.specs.State.{has_stamp};
ghost use Rattle.gs_slots.specs.SlotMut.{bytes_of, cpu_of, left_in, left_in_all, state_of};
ghost use Rattle.api_tests.specs.Stale.{stale_in};

use crate::slot_bytes::{Call, FIRST, is_called};
use gs_layout::Outcome;
use gs_slots::{
    Fill, FillFault, Flags, Region, SlotBusy, SlotMut, SlotState, Slots, Stamp, fill_halves,
};
use std::alloc::Global;
use std::thread::{Threads, join_mut};

/// A transaction is stamped into the slot of a CPU.
#[tactic(auto, using(gs_slots::proofs::Laws::set_as_it_was))]
fn stamp_one(region: &mut Region, cpu: u16, tid: u32) -> Result<(), SlotBusy>
    requires { cpu < length region.old }
    ensures exact { (bytes : List ℕ) → slice_get region.old cpu ≡ Some bytes → state_in cpu bytes ≡ Ok SlotState.Idle → IsOk result }
    ensures ok { OnOk result (region.new ≡ slice_set region.old cpu (slot_spelling cpu (SlotState.Stamped (record { generation = 1; tid = tid; tseq = 2; flags = single false })))) }
    ensures busy { OnErr result (region.new ≡ region.old) }
{
    region.slot(cpu).stamp(1, tid, 2, Flags::NONE)
}

/// A transaction is stamped into a slot that is idle.
fn stamp_in(cpu: u16, bytes: &mut [u8; 32], tid: u32)
    ensures { state_in cpu bytes.old ≡ Ok SlotState.Idle → state_in cpu bytes.new ≡ Ok (SlotState.Stamped (record { generation = 1; tid = tid; tseq = 2; flags = single true })) }
{
    let _ = SlotMut::over(cpu, bytes).stamp(1, tid, 2, Flags::single(true));
}

/// Lends two slots together, and writes the second before the first.
#[tactic(auto, using(crate::proofs::Stamps::two_read))]
fn stamp_two(region: &mut Region)
    ensures { (a b : List ℕ) (rest : List (List ℕ)) → state_in 0 a ≡ Ok SlotState.Idle → state_in 1 b ≡ Ok SlotState.Idle → region.old ≡ a ∷ b ∷ rest → states_in 0 region.new ≡ Ok (SlotState.Stamped (record { generation = 1; tid = 8; tseq = 2; flags = single true })) ∷ Ok (SlotState.Stamped (record { generation = 1; tid = 9; tseq = 2; flags = single true })) ∷ states_in 2 rest }
{
    let Slots { rest, first: _ } = region.lend();
    if let Some((low, rest)) = Slots::next(rest) {
        if let Some((high, _rest)) = Slots::next(rest) {
            stamp_in(1, high, 9);
            stamp_in(0, low, 8);
        }
    }
}

/// Refuses a stamped transaction as stale. Returns its thread.
fn refuse(count: &mut u64, slot: SlotMut<'_>) -> Option<u32>
    requires { count.old < 2 ^ 63 }
    ensures stale { (s : Stamp) → state_of slot.entry ≡ Ok (SlotState.Stamped s) → state_in (cpu_of slot.entry) (left_in slot.exit) ≡ Ok (SlotState.Done s Outcome.Stale None 7) }
    ensures other { has_stamp (state_of slot.entry) ≡ false → left_in slot.exit ≡ bytes_of slot.entry }
    ensures none { has_stamp (state_of slot.entry) ≡ false → IsNone result }
    ensures count { count.new ≤ count.old + 1 }
{
    let Ok(SlotState::Stamped { stamp }) = slot.state() else {
        return None;
    };
    *count += 1;
    slot.finish(Outcome::Stale, None, 7);
    Some(stamp.tid)
}

/// All stamped transactions are refused, in increasing order of CPU.
fn refuse_all(region: &mut Region)
    ensures { region.new ≡ by_cpu stale_in 0 region.old }
{
    let mut count = 0;
    for cpu in 0..region.cpus() {
        refuse(&mut count, region.slot(cpu));
    }
}

/// A done slot is idle again.
#[tactic(auto, unfolding(gs_slots::specs::Reading::collected_in))]
fn collect(slot: SlotMut<'_>)
    ensures { left_in slot.exit ≡ collected_in (cpu_of slot.entry) (bytes_of slot.entry) }
{
    if slot.outcome().is_some() {
        slot.clear();
    }
}

fn collect_in(cpu: u16, bytes: &mut [u8; 32])
    ensures { bytes.new ≡ collected_in cpu bytes.old }
{
    collect(SlotMut::over(cpu, bytes));
}

/// All done slots are idle again, each behind the one before.
#[tactic(auto, using(crate::proofs::Stamps::next_collected))]
fn collect_all(rest: &mut [[u8; 32]], first: u16)
    requires { first + length rest.old < 2 ^ 16 }
    ensures { rest.new ≡ all_collected first rest.old }
{
    if let Some((bytes, rest)) = Slots::next(rest) {
        collect_in(first, bytes);
        collect_all(rest, first + 1);
    }
}

fn collect_slots(slots: Slots<'_>)
    requires { slots.first + length slots.rest.now < 2 ^ 16 }
    ensures { left_in_all slots.exit ≡ all_collected slots.entry.first slots.entry.rest.now }
{
    let Slots { rest, first } = slots;
    collect_all(rest, first);
}

/// The same, first of the CPUs from one on, then of those below.
#[tactic(auto, using(crate::proofs::Stamps::parts_collected))]
fn collect_parts(region: &mut Region, cpu: u16)
    requires { cpu ≤ length region.old }
    ensures { region.new ≡ all_collected 0 region.old }
{
    let _cpus = region.cpus();
    let Slots { rest, first } = region.lend();
    let (below, above) = Slots::split(rest, first, cpu);
    collect_slots(Slots::over(above, cpu));
    collect_slots(Slots::over(below, first));
}

/// The same, each part in a thread of its own.
#[tactic(auto, using(crate::proofs::Stamps::parts_collected))]
fn collect_apart(rt: &impl Threads, region: &mut Region, cpu: u16)
    requires { cpu ≤ length region.old }
    ensures { region.new ≡ all_collected 0 region.old }
{
    let _cpus = region.cpus();
    let Slots { rest, first } = region.lend();
    let (below, above) = Slots::split(rest, first, cpu);
    join_mut(
        rt,
        &mut || collect_all(below, first),
        &mut || collect_all(above, cpu),
    );
}

/// A transaction of generation 1 that knows its thread at number 2.
fn stamp_of(tid: u32, preempt: bool) -> Stamp {
    Stamp {
        generation: 1,
        tid,
        tseq: 2,
        flags: Flags::single(preempt),
    }
}

fn stamped(stamp: Stamp) -> SlotState {
    SlotState::Stamped { stamp }
}

/// The transaction after [`refuse`].
fn refused(stamp: Stamp) -> SlotState {
    SlotState::Done {
        stamp,
        outcome: Outcome::Stale,
        at: None,
        seen: 7,
    }
}

fn state_at(region: &Region, cpu: u16) -> Option<SlotState> {
    if cpu < region.cpus() {
        region.state(cpu).ok()
    } else {
        None
    }
}

fn is_stamped(state: &SlotState) -> bool {
    matches!(state, SlotState::Stamped { .. })
}

/// Whether the slots of a region are these and no others.
fn holds(region: &Region, wanted: &[SlotState]) -> bool {
    for cpu in 0..region.cpus() {
        if state_at(region, cpu) != wanted.get(cpu as usize).copied() {
            return false;
        }
    }
    region.cpus() as usize == wanted.len() && region.has_stamped() == wanted.iter().any(is_stamped)
}

/// What became of the transaction in a slot, if it landed.
fn outcome_of(state: &SlotState) -> Option<Outcome> {
    match state {
        SlotState::Done { outcome, .. } => Some(*outcome),
        _ => None,
    }
}

/// Whether the slot of a CPU, while it is lent, is of that CPU and has this in it.
fn lends(region: &mut Region, cpu: u16, wanted: &SlotState) -> bool {
    if cpu >= region.cpus() {
        return false;
    }
    let slot = region.slot(cpu);
    slot.cpu() == cpu && slot.state() == Ok(*wanted) && slot.outcome() == outcome_of(wanted)
}

/// What a caller does with a region.
#[derive(Clone, Copy)]
enum Step {
    StampOne { cpu: u16, tid: u32 },
    StampTwo,
    RefuseAll,
    CollectParts { cpu: u16 },
    Clear,
}

/// Takes a step. One for a CPU that the region lacks returns that a slot is busy.
fn take(region: &mut Region, step: Step) -> Result<(), SlotBusy> {
    match step {
        Step::StampOne { cpu, tid } if cpu < region.cpus() => stamp_one(region, cpu, tid),
        Step::CollectParts { cpu } if cpu <= region.cpus() => {
            collect_parts(region, cpu);
            Ok(())
        }
        Step::StampTwo => {
            stamp_two(region);
            Ok(())
        }
        Step::RefuseAll => {
            refuse_all(region);
            Ok(())
        }
        Step::Clear => {
            region.clear();
            Ok(())
        }
        _ => Err(SlotBusy),
    }
}

/// A step, what it returns, and what is in the slots of three CPUs then.
type StepRow = (Step, Result<(), SlotBusy>, [SlotState; 3]);

/// The first step that comes out otherwise, or leaves other slots.
fn first_wrong_step(region: &mut Region, rows: &[StepRow]) -> Option<usize> {
    for (index, (step, answer, slots)) in rows.iter().enumerate() {
        let answered = take(region, *step) == *answer;
        if !answered || !holds(region, slots) || !lends(region, 1, &slots[1]) {
            return Some(index);
        }
    }
    None
}

#[test]
fn stamps_refuses_and_collects(rt: HostRuntime) {
    let mut region = Region::new(rt.alloc(), 3).expect(&rt, "memory");
    let idle = SlotState::Idle;
    let (seven, eight, nine) = (stamp_of(7, false), stamp_of(8, true), stamp_of(9, true));
    let two_stamped = [stamped(eight), stamped(nine), idle];
    let two_refused = [refused(eight), refused(nine), idle];
    let two_and_one = [refused(eight), refused(nine), stamped(seven)];
    let rows = [
        (Step::StampTwo, Ok(()), two_stamped),
        // A slot that is stamped or done stays as it is.
        (
            Step::StampOne { cpu: 0, tid: 7 },
            Err(SlotBusy),
            two_stamped,
        ),
        (Step::RefuseAll, Ok(()), two_refused),
        (
            Step::StampOne { cpu: 0, tid: 7 },
            Err(SlotBusy),
            two_refused,
        ),
        (Step::StampOne { cpu: 2, tid: 7 }, Ok(()), two_and_one),
        // Only what is done is collected.
        (
            Step::CollectParts { cpu: 1 },
            Ok(()),
            [idle, idle, stamped(seven)],
        ),
        (Step::RefuseAll, Ok(()), [idle, idle, refused(seven)]),
        (Step::CollectParts { cpu: 3 }, Ok(()), [idle; 3]),
        // Whatever is in a slot is cleared.
        (Step::StampTwo, Ok(()), two_stamped),
        (Step::RefuseAll, Ok(()), two_refused),
        (Step::StampOne { cpu: 2, tid: 7 }, Ok(()), two_and_one),
        (Step::Clear, Ok(()), [idle; 3]),
        (Step::Clear, Ok(()), [idle; 3]),
    ];
    assert_eq!(rt; first_wrong_step(&mut region, &rows), None);
}

/// Whether slots that landed are collected in two threads, the second from this CPU on.
fn collects_apart(rt: &impl Threads, region: &mut Region, cpu: u16) -> bool {
    stamp_two(region);
    refuse_all(region);
    if cpu > region.cpus() {
        return false;
    }
    collect_apart(rt, region, cpu);
    holds(region, &[SlotState::Idle; 4])
}

/// The first CPU at which slots are parted and not all collected.
fn first_not_collected(rt: &impl Threads, region: &mut Region) -> Option<u16> {
    for cpu in 0..=4 {
        if !collects_apart(rt, region, cpu) {
            return Some(cpu);
        }
    }
    None
}

#[test]
fn collects_in_two_threads(rt: HostRuntime) {
    let mut region = Region::new(rt.alloc(), 4).expect(&rt, "memory");
    assert_eq!(rt; first_not_collected(&rt, &mut region), None);
}

/// Whether a new region has so many slots, all idle.
fn is_opened_idle(alloc: Global, cpus: u16) -> bool {
    let idle = [SlotState::Idle; 128];
    match (Region::new(alloc, cpus), idle.get(..cpus as usize)) {
        (Ok(region), Some(wanted)) => holds(&region, wanted),
        _ => false,
    }
}

/// The first count of CPUs for which a new region is otherwise.
fn first_not_idle(alloc: Global) -> Option<u16> {
    for cpus in [0, 1, 2, 128] {
        if !is_opened_idle(alloc, cpus) {
            return Some(cpus);
        }
    }
    None
}

#[test]
fn opens_idle(rt: HostRuntime) {
    assert_eq!(rt; first_not_idle(rt.alloc()), None);
}

/// A transaction for a CPU.
fn fill_of(cpu: u16) -> Fill
    ensures { result.cpu ≡ cpu }
{
    Fill {
        cpu,
        generation: 1,
        tid: 7,
        tseq: 2,
        flags: Flags::single(true),
    }
}

/// What is returned if transactions for the CPUs 0, 1 and 3 of four are stamped, those from a CPU on in a
/// thread of their own. `None` if there are not four.
fn fill_three(rt: &impl Threads, region: &mut Region, at: u16) -> Option<Result<(), FillFault>> {
    if region.cpus() != 4 {
        return None;
    }
    let fills = [fill_of(0), fill_of(1), fill_of(3)];
    Some(fill_halves(rt, region, at, &fills))
}

/// Writes ones into each byte of a slot.
fn break_slot(slot: SlotMut<'_>) {
    let mut slot = slot;
    *slot.bytes() = [255; 32];
}

/// Stamps a transaction into the slot of CPU 1 of four, and breaks those of CPUs 2 and 3.
fn busy_three(region: &mut Region) {
    region.clear();
    if region.cpus() == 4 {
        is_called(region.slot(1), &Call::Stamp(FIRST));
        break_slot(region.slot(2));
        break_slot(region.slot(3));
    }
}

/// Whether the first two slots are these, and the others are broken.
fn is_broken_behind(region: &Region, first: SlotState, second: SlotState) -> bool {
    region.cpus() == 4
        && region.state(0) == Ok(first)
        && region.state(1) == Ok(second)
        && *region.bytes(2) == [255; 32]
        && *region.bytes(3) == [255; 32]
}

/// Whether three slots are stamped in two threads if they are idle, the second from this CPU on.
fn fills_apart(rt: &impl Threads, region: &mut Region, at: u16) -> bool {
    let it = stamped(stamp_of(7, true));
    region.clear();
    let filled = fill_three(rt, region, at) == Some(Ok(()))
        && holds(region, &[it, it, SlotState::Idle, it]);
    let refilled = fill_three(rt, region, at) == Some(Err(FillFault::SlotBusy(0)))
        && holds(region, &[it, it, SlotState::Idle, it]);
    busy_three(region);
    let partly = fill_three(rt, region, at) == Some(Err(FillFault::SlotBusy(1)));
    filled && refilled && partly && is_broken_behind(region, it, stamped(FIRST))
}

/// The first CPU at which slots are parted and not stamped so.
fn first_not_filled(rt: &impl Threads, region: &mut Region) -> Option<u16> {
    for at in 0..=5 {
        if !fills_apart(rt, region, at) {
            return Some(at);
        }
    }
    None
}

#[test]
fn fills_in_two_threads(rt: HostRuntime) {
    let mut region = Region::new(rt.alloc(), 4).expect(&rt, "memory");
    assert_eq!(rt; first_not_filled(&rt, &mut region), None);
}
